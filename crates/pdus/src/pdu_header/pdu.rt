use crate::nsap::Address;
use crate::pdu_header::kind::Kind;

/// The segmentation part of a header (ISO 8473, section 7.4).
#[derive(Clone, Copy)]
pub struct SegPart {
    /// The data unit identifier, which all segments of a unit share.
    pub id: u16,
    /// The place of this PDU's data in the unit's data, in octets from 0.
    pub offset: u16,
    /// The octets of the initial PDU: its header and all data of the unit.
    pub total: u16,
}

/// A PDU that stands at the front of a frame.
#[derive(Clone, Copy)]
pub struct Pdu<'a> {
    /// The kind.
    pub kind: Kind,
    /// The lifetime that remains, in ticks of 500 ms (section 7.2.5).
    pub life: u8,
    /// An error report is wanted where the PDU is discarded.
    pub report: bool,
    /// Data of the same unit follows behind this PDU's.
    pub more: bool,
    /// The two octets of the checksum, 0 where it isn't used (section 7.2.9).
    pub sum: u16,
    /// The destination.
    pub to: Address,
    /// The source.
    pub from: Address,
    /// The segmentation part, where segmentation is permitted.
    pub seg: Option<SegPart>,
    /// The header's octets.
    pub head: &'a [u8],
    /// The octets of the header's options part.
    pub options: &'a [u8],
    /// The data.
    pub body: &'a [u8],
    /// What follows the PDU in its frame.
    pub rest: &'a [u8],
}

/// Why a frame that begins with 0x81 is no PDU: the least rule, 1 to 20, that it breaks.
#[derive(Clone, Copy)]
pub struct Broken {
    /// The rule.
    pub rule: u8,
    /// The reason for discard (section 7.9.5).
    pub reason: u8,
    /// The place of the octet at fault, from 1 in the header; 0 is no place.
    pub place: u8,
    /// An error report of the discard is to be made.
    pub reportable: bool,
}

/// Why a frame is refused.
#[derive(Clone, Copy)]
pub enum Refusal {
    /// It doesn't begin with 0x81, the identifier of this protocol.
    NotClnp,
    /// It breaks a rule.
    Broken(Broken),
}

/// Where an error report goes, and how much of the frame it carries.
#[derive(Clone, Copy)]
pub struct ReportTo {
    /// The discarded PDU's source, to which the report goes.
    pub from: Address,
    /// The octets of the discarded PDU's header.
    pub head_len: u8,
}
