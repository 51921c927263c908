//! Units that aren't made.
ghost use Rattle.std.specs.Prelude.{◌≡◌, IfOk, OnErr, Some};
ghost use Rattle.clnp_systems.specs.Local as local_entity;

use clnp_machine::base::NoMemory;
use clnp_machine::system_plan::{Note, SendRefusal, Why};

/// What is noted of a unit that isn't made.
///
/// # Errors
///
/// `NoMemory` exactly where this is why.
pub fn refusal_note(refusal: SendRefusal) -> Result<Note, NoMemory>
    ensures note { IfOk result (λ note. local_entity.refusal_note refusal ≡ Some note) }
    ensures memory { OnErr result (refusal ≡ SendRefusal.NoMemory) }
{
    let (why, value) = match refusal {
        SendRefusal::NotMine => (Why::NotMine, 0),
        SendRefusal::TooLong { octets } => (Why::TooLong, octets as u64),
        SendRefusal::IdsBusy { used } => (Why::IdsBusy, used),
        SendRefusal::Quiet { until } => (Why::Quiet, until),
        SendRefusal::NoMemory => return Err(NoMemory),
    };
    Ok(Note::Refused { why, value })
}
