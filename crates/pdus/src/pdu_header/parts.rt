use crate::clnp_options::OptionList;
use crate::nsap::Address;
use crate::pdu_header::kind::Kind;
use crate::pdu_header::pdu::SegPart;

/// What a header is made from (ISO 8473, section 7).
#[derive(Clone, Copy)]
pub struct Parts {
    /// The kind.
    pub kind: Kind,
    /// The lifetime, in ticks of 500 ms (section 7.2.5).
    pub life: u8,
    /// An error report is wanted where the PDU is discarded.
    pub report: bool,
    /// Data of the same unit follows behind this PDU's.
    pub more: bool,
    /// The destination.
    pub to: Address,
    /// The source.
    pub from: Address,
    /// The segmentation part, where segmentation is permitted.
    pub seg: Option<SegPart>,
    /// The options.
    pub options: OptionList,
    /// The header is to have a checksum.
    pub sealed: bool,
}
