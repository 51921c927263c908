//! The numbers of the header's layout (ISO 8473, section 7.2), which writing and reading share.

/// The first octet: the network layer protocol identifier (section 7.2.2).
pub(crate) const PROTOCOL: u8 = 0x81;
/// The version of the protocol (section 7.2.4).
pub(crate) const VERSION: u8 = 1;
/// The octets of the header's fixed part (section 7.2).
pub const FIXED_PART: usize = 9;
/// The octets of the header's segmentation part, where it has one (section 7.4).
pub const SEGMENTATION_PART: usize = 6;
/// The most octets of a header (section 7.2.3).
pub(crate) const MOST_HEADER: usize = 254;
/// The most octets of a header and its data (section 7.2.8).
pub(crate) const MOST_TOTAL: usize = 65535;
/// The flag of octet 5 that segmentation is permitted (section 7.2.6.1).
pub(crate) const SEGMENTATION_PERMITTED: u8 = 0x80;
/// The flag of octet 5 that data of the same unit follows (section 7.2.6.2).
pub(crate) const MORE_SEGMENTS: u8 = 0x40;
/// The flag of octet 5 that an error report is wanted where the PDU is discarded (section 7.2.6.3).
pub(crate) const ERROR_REPORT: u8 = 0x20;
/// The number of types, which stand in the low bits of octet 5 (section 7.2.7).
pub(crate) const TYPES: u8 = 0x20;
