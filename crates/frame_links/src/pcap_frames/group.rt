//! Groups.

/// The group of all end systems of an Ethernet (ISO 9542).
pub const END_SYSTEMS: [u8; 6] = [0x09, 0x00, 0x2b, 0x00, 0x00, 0x04];

/// The group of all intermediate systems of an Ethernet (ISO 9542).
pub const INTERMEDIATE_SYSTEMS: [u8; 6] = [0x09, 0x00, 0x2b, 0x00, 0x00, 0x05];
