//! Sources that have a share.

use crate::reassembly::TableLimits;
use pdus::pdu_header::nsaps::Address;

/// A source that has reassembly buffers of its own, and the numbers that these keep to.
#[derive(Clone, Copy)]
pub struct Share {
    pub from: Address,
    pub limits: TableLimits,
}
