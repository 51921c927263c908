//! The codes of what an input that is no scenario text breaks. One that means what a code of scenario texts means has
//! that code's number.

/// A line has another form, or another number of words.
pub const SYNTAX: u8 = 2;

/// A number isn't decimal, or is out of its range.
pub const NUMBER: u8 = 3;

/// An address or hexadecimal digits are none.
pub const ADDRESS: u8 = 4;

/// A frame or a PDU has too many octets.
pub const COUNT: u8 = 10;

/// A file doesn't begin with a magic number.
pub const MAGIC: u8 = 11;

/// A file has another version.
pub const VERSION: u8 = 12;

/// The frames of a file are of another kind of link.
pub const LINK_TYPE: u8 = 13;

/// The record of a file has too many octets.
pub const RECORD_LENGTH: u8 = 14;

/// A file ends within its header or within a record.
pub const CUT_FILE: u8 = 15;

/// A shown line is that of a refused frame, or of one of neither protocol.
pub const NOT_PACKABLE: u8 = 16;
