//! How far a reader is.
use crate::pcap_frames::fault::PcapFault;
use crate::pcap_frames::order::Order;

/// How far a reader is, and what the octets are that it holds.
#[derive(Clone, Copy)]
pub(crate) enum Stage {
    /// Some octets of the header, or none.
    Header,
    /// Some octets of a record, or none.
    Part(Order),
    /// A whole record.
    Whole(Order),
    /// A fault was met.
    Broken(PcapFault),
}
