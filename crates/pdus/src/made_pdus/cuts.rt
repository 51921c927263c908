//! The pieces of a PDU for an MTU.
ghost use Rattle.std.specs.Prelude.{◌≡◌, ◌≢◌, ◌≤◌, ◌+◌, ◌∷◌, [], ℕ, List, length, map, MatchOption, Ok, Err, IfOk, IfSome, IfNone, Some};
ghost use Rattle.std.specs.List.{AllByRecursion};
ghost use Rattle.std.specs.Iterator.{YieldsFirst, item_count};
ghost use Rattle.pdus.specs.PduHeader.Value.{PduValue};
ghost use Rattle.pdus.specs.PduHeader.Spelling.{segment_length};
ghost use Rattle.pdus.specs.PduHeader.Headers.{SpellsHeader};
ghost use Rattle.pdus.specs.PduHeader.View.{part_value};
ghost use Rattle.pdus.specs.MadePdus.Cut.{cut, given, segment};
ghost use Rattle.pdus.specs.MadePdus.Left.{IsCutOf};

use crate::pdu_header::{Header, SegPart, laws};
use std::marker::Model;

/// A PDU that is longer than the MTU, and may not be segmented since it has no segmentation part.
#[derive(Clone, Copy)]
pub struct NotPermitted {
    /// The octets of the PDU: its header and its data.
    pub octets: usize,
}

/// A piece of a PDU: its header, and its data as `len` octets from place `from` of the PDU's data.
#[derive(Clone, Copy)]
pub struct Cut {
    /// The piece's header.
    pub head: Header,
    /// Where its data begin in the PDU's data, in octets from 0.
    pub from: usize,
    /// How many octets of data it has.
    pub len: usize,
}

/// The pieces of a PDU that are left, in order (ISO 8473, section 6.7).
///
/// A contract sees it as the list of them.
#[derive(Drop)]
pub struct Cuts {
    head: Header,
    /// The PDU's segmentation part; none where the PDU is its own single piece.
    part: Option<SegPart>,
    body_len: usize,
    /// How many octets of data a piece has, but for the last.
    room: usize,
    /// The number, from 0, of the next piece.
    number: usize,
    left: usize,
}

impl Model for Cuts {
    ghost use Rattle.std.specs.Prelude.{List};
    ghost use Rattle.pdus.specs.declared.made_pdus.cuts.Cut.{Cut};

    ghost Value = { List Cut };

    ghost use Rattle.pdus.specs.MadePdus.Left.{cuts_left, IsCutting};

    ghost view = { cuts_left };

    ghost invariant = { IsCutting };
}

impl Cuts {
    /// The pieces of a PDU with this header and `body_len` octets of data, for this MTU in octets.
    ///
    /// A PDU that fits is its own single piece, and its header stays as it is.
    ///
    /// # Errors
    ///
    /// NotPermitted exactly where the PDU is longer than the MTU and has no segmentation part.
    pub fn new(head: Header, body_len: usize, mtu: u16) -> Result<Cuts, NotPermitted>
        requires mtu { 512 ≤ mtu }
        requires data { (v : PduValue) × SpellsHeader v head × (length v.body ≡ body_len) }
        ensures cut { (v : PduValue) → SpellsHeader v head → length v.body ≡ body_len
            → MatchOption (cut v mtu) (result ≡ Err (record { octets = segment_length v })) (λ pieces. result ≡ Ok (map given pieces)) }
        ensures each { IfOk result (AllByRecursion (IsCutOf body_len)) }
    {
        // Its clause: a header has one value, but for what the data hold.
        laws::a_header_tells_its_value();
        let head_len = head.as_bytes().len();
        let mtu = usize::from(mtu);
        let octets = head_len + body_len;
        if octets <= mtu {
            return Ok(Cuts {
                head,
                part: None,
                body_len,
                room: body_len,
                number: 0,
                left: 1,
            });
        }
        let Some(part) = head.segmentation() else {
            return Err(NotPermitted { octets });
        };
        let room = (mtu - head_len) / 8 * 8;
        Ok(Cuts {
            head,
            part: Some(part),
            body_len,
            room,
            number: 0,
            left: body_len.div_ceil(room),
        })
    }

    /// The header and the number of octets of data of the piece that is left, where it is a single one whose data begin where
    /// the PDU's data do: the PDU uncut. It is told so without a copy of the header.
    pub fn single(&self) -> Option<(&Header, usize)>
        ensures single { IfSome result (λ piece. self.now ≡ record { head = piece.0.now; from = 0; len = piece.1 } ∷ []) }
        ensures none { IfNone result ((head : List ℕ) (len : ℕ) → self.now ≢ record { head = head; from = 0; len = len } ∷ []) }
    {
        match self.part {
            None if self.left == 1 => Some((&self.head, self.body_len)),
            _ => None,
        }
    }
}

impl Iterator for Cuts {
    type Item = Cut;

    ghost next_gives = { YieldsFirst (λ s. s) };

    ghost remaining = { item_count (λ s. s) };

    fn next(&mut self) -> Option<Cut> {
        if self.left == 0 {
            return None;
        }
        let from = self.number * self.room;
        let len = self.room.min(self.body_len - from);
        let head = match self.part {
            None => self.head,
            Some(part) => segment_header(&self.head, part, from, len),
        };
        self.number += 1;
        self.left -= 1;
        Some(Cut { head, from, len })
    }
}

/// The header of a segment with `len` octets of data from place `from` of the data behind this header.
fn segment_header(head: &Header, part: SegPart, from: usize, len: usize) -> Header
    requires { (v : PduValue) × SpellsHeader v head.now × (v.segmentation ≡ Some (part_value part)) × (from + len ≤ length v.body) }
    ensures { (v : PduValue) → SpellsHeader v head.now → v.segmentation ≡ Some (part_value part)
        → from + len ≤ length v.body → SpellsHeader (segment v (part_value part) (record { from = from; len = len })) result }
{
    let offset = usize::from(part.offset) + from;
    let unit_len = usize::from(part.total) - head.as_bytes().len();
    let more = offset + len < unit_len;
    let mut piece = *head;
    piece.set_segment(offset as u16, len as u16, more);
    piece
}
