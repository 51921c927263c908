//! What is given out.
ghost use Rattle.std.specs.Prelude.{◌≡◌, ◌∷◌, [], OnOk, OnErr, ℕ, None};
ghost use Rattle.clnp_machine.specs.Given.{Appends};
ghost use Rattle.clnp_machine.specs.System.{Notes, SendsEsis};
ghost use Rattle.clnp_machine.specs.EsisPdus.Grammar.{Spells};
ghost use Rattle.clnp_machine.specs.EsisPdus.Value.{EsisValue};
ghost use Rattle.clnp_systems.specs.Does.{StaysInFront};

use clnp_machine::base::NoMemory;
use clnp_machine::nsaps::Target;
use clnp_machine::system_plan::{Note, Output, Sending};
use clnp_machine::views::{Frame, Head};
use std::alloc::Global;

/// Gives out a note.
pub(crate) fn give_note(note: Note, out: &mut Vec<Output>) -> Result<(), NoMemory>
    ensures given { OnOk result ((moment : ℕ) → Appends moment None out.old.items out.new.items (Notes note ∷ [])) }
    ensures front { StaysInFront out.old.items out.new.items }
{
    out.reserve(1)?;
    out.push_reserved(Output::Note(note));
    Ok(())
}

/// Gives out the frame of a PDU.
pub(crate) fn send(
    alloc: Global,
    port: u8,
    to: Target,
    pdu: &Head,
    out: &mut Vec<Output>,
) -> Result<(), NoMemory>
    ensures given { OnOk result ((moment : ℕ) (value : EsisValue) → Spells value pdu.now
        → Appends moment None out.old.items out.new.items (SendsEsis port to value ∷ [])) }
    ensures none { OnErr result (out.new.items ≡ out.old.items) }
    ensures front { StaysInFront out.old.items out.new.items }
{
    out.reserve(1)?;
    let frame = Frame::copy(alloc, pdu.as_bytes())?;
    let sending = Sending {
        port,
        to,
        frame,
        forwarded: false,
    };
    out.push_reserved(Output::Transmit(sending));
    Ok(())
}
