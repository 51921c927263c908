//! What a router tells of better ways (ISO 9542, section 6.8).
ghost use Rattle.std.specs.Prelude.{◌≡◌, ◌∷◌, [], OnOk, OnErr, ℕ, None};
ghost use Rattle.std.specs.Option.{option_copied};
ghost use Rattle.clnp_machine.specs.Pdus.declared.nsap.target.Target.TheVariants.{System};
ghost use Rattle.clnp_machine.specs.Esis.{redirect};
ghost use Rattle.clnp_machine.specs.Given.{Appends};
ghost use Rattle.clnp_machine.specs.System.{SystemState, SendsEsis};

use crate::esis::output::send;
use clnp_machine::base::NoMemory;
use clnp_machine::esis::rd;
use clnp_machine::hearing::Neighbour;
use clnp_machine::nsaps::{Address, Snpa, Target};
use clnp_machine::system_plan::{Output, SystemConfig};
use std::alloc::Global;

/// A system tells another, at a place of its own, of the better way to an address: the next system's address on that subnetwork,
/// and its title where it isn't the system of the address itself. The redirect holds for as long as the system's configuration
/// says.
///
/// # Errors
///
/// `NoMemory`: `out` is then as it was.
pub fn send_redirect(
    alloc: Global,
    config: &SystemConfig,
    neighbour: Neighbour,
    to: &Address,
    via: &Snpa,
    title: Option<&Address>,
    out: &mut Vec<Output>,
) -> Result<(), NoMemory>
    ensures told { OnOk result ((s : SystemState) (moment : ℕ) → s.configuration ≡ config.now
        → Appends moment None out.old.items out.new.items
        (SendsEsis neighbour.port (System neighbour.snpa) (redirect s to.now via.now (option_copied title.entry)) ∷ [])) }
    ensures none { OnErr result (out.new.items ≡ out.old.items) }
{
    let settings = config.settings();
    let pdu = rd(settings.rhold, to, via, title, settings.sealed);
    send(
        alloc,
        neighbour.port,
        Target::System(neighbour.snpa),
        &pdu,
        out,
    )
}
