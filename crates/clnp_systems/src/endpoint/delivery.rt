//! Whole units that are handed up (ISO/IEC 8473, section 6.2).
ghost use Rattle.std.specs.Prelude.{◌≡◌, ◌<◌, ◌^◌, ◌++◌, ◌∷◌, [], List, OnOk, OnErr};
ghost use Rattle.clnp_machine.specs.ClnpOptions.Parameter.{Parameter};
ghost use Rattle.clnp_machine.specs.Pdus.declared.pdu_header.kind.Kind.{Kind as KindOf};
ghost use Rattle.clnp_machine.specs.Local as locally;
ghost use Rattle.clnp_machine.specs.Reassembly.State.{TableState};
ghost use Rattle.clnp_machine.specs.System.{SystemState};
ghost use Rattle.clnp_systems.specs.Endpoint.{StandsWith};
ghost use Rattle.clnp_systems.specs.Local.{Appends};
ghost use Rattle.clnp_systems.specs.Receipt.{purpose_of};
ghost use Rattle.clnp_systems.specs.declared.action.Action.TheVariants.{Note as Noted};

use super::Endpoint;
use crate::action::Action;
use crate::purpose::Purpose;
use clnp_machine::base::{NoMemory, Octets};
use clnp_machine::nsaps::Address;
use clnp_machine::system_plan::Note;
use std::alloc::Global;

impl Endpoint {
    /// Hands the data of a whole unit up: an error report tells its reason and place, an echo request is answered, and an echo
    /// reply is taken for the request that it answers.
    ///
    /// # Errors
    ///
    /// `NoMemory`: nothing changes then.
    pub(crate) fn hand_up(
        &mut self,
        alloc: Global,
        now: u64,
        purpose: Purpose,
        from: Address,
        to: Address,
        octets: Octets,
        out: &mut Vec<Action>,
    ) -> Result<(), NoMemory>
        requires moment { now < 2 ^ 62 }
        ensures stands { OnOk result ((table : TableState) (s : SystemState) (kind : KindOf) (options : List Parameter) → StandsWith table self.old s
            → s.moment ≡ now → purpose ≡ purpose_of kind options
            → StandsWith table self.new (locally.hand_up s kind from to octets options).after) }
        ensures actions { OnOk result ((table : TableState) (s : SystemState) (kind : KindOf) (options : List Parameter) → StandsWith table self.old s
            → s.moment ≡ now → purpose ≡ purpose_of kind options
            → Appends out.old.items out.new.items (locally.hand_up s kind from to octets options).actions) }
        ensures same { OnErr result (self.new ≡ self.old) }
        ensures none { OnErr result (out.new.items ≡ out.old.items) }
        ensures config { self.new.config ≡ self.old.config }
    {
        match purpose {
            Purpose::Data => append(out, Note::Got { from, to, octets }),
            Purpose::Report { reason, place } => append(
                out,
                Note::Report {
                    from,
                    to,
                    reason,
                    place,
                    octets,
                },
            ),
            Purpose::Request => self.reply(alloc, now, from, to, octets.as_bytes(), out),
            Purpose::Reply => self.take_reply(from, to, octets.as_bytes(), out),
        }
    }
}

/// Appends a note, and makes room for no more than that: few units call for more actions.
///
/// # Errors
///
/// `NoMemory`: nothing changes then.
fn append(out: &mut Vec<Action>, note: Note) -> Result<(), NoMemory>
    ensures noted { OnOk result (out.new.items ≡ out.old.items ++ Noted note ∷ []) }
    ensures none { OnErr result (out.new.items ≡ out.old.items) }
{
    let Ok(()) = out.reserve_exact(1) else {
        return Err(NoMemory);
    };
    out.push_reserved(Action::Note(note));
    Ok(())
}
