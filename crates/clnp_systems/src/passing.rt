//! PDUs that are for another address.
ghost use Rattle.clnp_machine.specs.PduHeader.Headers.{SpellsHeader};
ghost use Rattle.std.specs.Prelude.{◌≡◌, option_map};
ghost use Rattle.clnp_machine.specs.Step.{begins_unit};
ghost use Rattle.clnp_machine.specs.PduHeader.View.{part_value, pdu_value};
ghost use Rattle.clnp_systems.specs.Comes.{HasValue};

use clnp_machine::clnp::{Pdu, SegPart};
use clnp_machine::nsaps::Address;

/// A PDU with a lifetime left for an address that isn't the system's: all that is needed so that it goes on.
#[derive(Clone, Copy)]
pub struct Passing<'a> {
    /// The destination.
    pub to: Address,
    /// The source.
    pub from: Address,
    /// It begins its unit, as one does that can't be segmented.
    pub first: bool,
    /// The lifetime that remains, in ticks of 500 ms (ISO/IEC 8473, section 7.2.5).
    pub life: u8,
    /// The header's octets, which stand at the front of the frame.
    pub head: &'a [u8],
    /// How many octets of data follow it.
    pub len: usize,
}

impl<'a> Passing<'a> {
    /// What is needed of a PDU at the front of a frame.
    #[tactic(auto, using(crate::proofs::Arrivals::of_value))]
    pub(crate) fn of(pdu: &Pdu<'a>) -> Passing<'a>
        requires { SpellsHeader (pdu_value pdu.now) pdu.now.head.now }
        ensures { HasValue result (pdu_value pdu.now) }
    {
        let len = pdu.body.len();
        Passing {
            to: pdu.to,
            from: pdu.from,
            first: begins_unit(pdu.seg),
            life: pdu.life,
            head: pdu.head,
            len,
        }
    }
}

/// Whether a PDU with a segmentation part, or with none, begins its unit (section 6.7).
fn begins_unit(part: Option<SegPart>) -> bool
    ensures { result ≡ begins_unit (option_map part_value part) }
{
    match part {
        Some(part) => part.offset == 0,
        None => true,
    }
}
