//! A header written from its parts.
ghost use Rattle.std.specs.Prelude.{◌≡◌, ◌+◌, ◌≤◌, ◌++◌, ◌<◌, ◌∷◌, [], List, ℕ, length, option_map};
ghost use Rattle.pdus.specs.PduHeader.Spelling.{flags_and_type, header, pair_of, segment_length, segmentation_octets};
ghost use Rattle.pdus.specs.PduHeader.Parts.{AreNumbers, AreTyped, parts_length, parts_value};
ghost use Rattle.pdus.specs.PduHeader.View.{part_value};

use crate::nsap::base::InlineOctets;
use crate::pdu_header::cells::seal;
use crate::pdu_header::layout::{
    ERROR_REPORT, FIXED_PART, MORE_SEGMENTS, MOST_HEADER, PROTOCOL, SEGMENTATION_PART,
    SEGMENTATION_PERMITTED, VERSION,
};
use crate::pdu_header::parts::Parts;
use crate::pdu_header::pdu::SegPart;
use byteorder::{BigEndian, ByteOrder};

/// The number of octets of the header that is made from these parts.
pub(crate) fn header_len(parts: &Parts) -> usize
    ensures value { result ≡ parts_length parts.now }
    ensures few { result ≤ 311 }
{
    let seg = if parts.seg.is_some() {
        SEGMENTATION_PART
    } else {
        0
    };
    let addresses = 2 + parts.to.as_bytes().len() + parts.from.as_bytes().len();
    FIXED_PART + addresses + seg + parts.options.as_bytes().len()
}

/// The header that is made from these parts, with its length and that of header and body.
pub(crate) fn written(parts: &Parts, head_len: u8, total: u16) -> InlineOctets<MOST_HEADER>
    requires len { head_len ≡ parts_length parts.now }
    requires few { head_len ≤ 254 }
    ensures value { (body : List ℕ) → segment_length (parts_value parts.now body) ≡ total
        → result ≡ header (parts_value parts.now body) }
    ensures typed { AreTyped parts.now }
{
    let mut cells = InlineOctets::new();
    push_fixed(&mut cells, head_len, parts.life, flags(parts), total);
    cells.push_counted(parts.to.as_bytes());
    cells.push_counted(parts.from.as_bytes());
    push_segmentation(&mut cells, parts.seg);
    cells.push(parts.options.as_bytes());
    if parts.sealed {
        seal(&mut cells);
    }
    cells
}

/// Puts the fixed part, with a checksum that is not in use (ISO 8473, section 7.2).
fn push_fixed(cells: &mut InlineOctets<MOST_HEADER>, head_len: u8, life: u8, flags: u8, total: u16)
    requires { length cells.old + 9 ≤ 254 }
    ensures octets { cells.new ≡ cells.old ++ 0x81 ∷ head_len ∷ 1 ∷ life ∷ flags ∷ (pair_of total ++ 0 ∷ 0 ∷ []) }
    ensures life { life < 256 }
{
    let mut size = [0; 2];
    BigEndian::write_u16(&mut size, total);
    cells.push(&[
        PROTOCOL, head_len, VERSION, life, flags, size[0], size[1], 0, 0,
    ]);
}

/// The flags and the type (ISO 8473, sections 7.2.6 and 7.2.7).
fn flags(parts: &Parts) -> u8
    ensures { result ≡ flags_and_type (parts_value parts.now []) }
{
    let mut flags = parts.kind.type_code();
    if parts.seg.is_some() {
        flags |= SEGMENTATION_PERMITTED;
    }
    if parts.more {
        flags |= MORE_SEGMENTS;
    }
    if parts.report {
        flags |= ERROR_REPORT;
    }
    flags
}

/// Puts the segmentation part, if there is one.
fn push_segmentation(cells: &mut InlineOctets<MOST_HEADER>, part: Option<SegPart>)
    requires { length cells.old + length (segmentation_octets (option_map part_value part)) ≤ 254 }
    ensures octets { cells.new ≡ cells.old ++ segmentation_octets (option_map part_value part) }
    ensures numbers { AreNumbers (option_map part_value part) }
{
    let Some(part) = part else {
        return;
    };
    let mut octets = [0; 6];
    BigEndian::write_u16(&mut octets[..2], part.id);
    BigEndian::write_u16(&mut octets[2..4], part.offset);
    BigEndian::write_u16(&mut octets[4..], part.total);
    cells.push(&octets);
}
