//! What a PDU says of the segment that it is.
ghost use Rattle.std.specs.Prelude.{◌≡◌, ◌+◌, ◌≤◌, length};
ghost use Rattle.system_tables.specs.FairReassembly.Coming.{of_unit, outlined, segment_by};

use crate::reassembly::{Key, Segment, Shape};
use pdus::pdu_header::views::View;
use pdus::pdu_header::{Pdu, SegPart};

/// A segment but for its octets: of which unit and shape it is, its place and lifetime, and how many octets its PDU has.
#[derive(Clone, Copy)]
pub(crate) struct Outline {
    key: Key,
    shape: Shape,
    offset: u16,
    life: u8,
    octets: usize,
}

impl Outline {
    /// What a PDU with this segmentation part says.
    pub(crate) fn of(pdu: &Pdu<'_>, part: SegPart) -> Outline
        requires head { length pdu.now.head.now ≤ 254 }
        requires octets { length pdu.now.head.now + length pdu.now.body.now ≤ 70000 }
        ensures { result ≡ outlined pdu.now part }
    {
        let key = Key {
            from: pdu.from,
            to: pdu.to,
            id: part.id,
        };
        let shape = Shape {
            total: part.total,
            head_len: pdu.head.len() as u8,
            kind: pdu.kind.type_code(),
        };
        Outline {
            key,
            shape,
            offset: part.offset,
            life: pdu.life,
            octets: pdu.head.len() + pdu.body.len(),
        }
    }

    /// The segment, whose PDU stands at the front of a frame.
    pub(crate) fn segment(self, frame: View) -> Segment
        requires { self.octets ≤ frame.len }
        ensures { result ≡ segment_by self frame }
    {
        Segment {
            key: self.key,
            shape: self.shape,
            offset: self.offset,
            life: self.life,
            pdu: frame.narrow(0, self.octets),
        }
    }
}

/// The segmentation part of a PDU that isn't all of its unit (ISO/IEC 8473, section 7.4).
pub(crate) fn of_unit(part: Option<SegPart>, more: bool) -> Option<SegPart>
    ensures { result ≡ of_unit part more }
{
    let part = part?;
    if part.offset == 0 && !more {
        return None;
    }
    Some(part)
}
