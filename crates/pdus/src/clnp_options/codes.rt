//! The codes of the table of options (ISO/IEC 8473, section 7.5).

/// Padding, any octets; the only option that may be repeated.
pub(crate) const PADDING: u8 = 0xcc;
/// Security.
pub(crate) const SECURITY: u8 = 0xc5;
/// Source routing.
pub(crate) const SOURCE_ROUTE: u8 = 0xc8;
/// Recording of route.
pub(crate) const RECORDING: u8 = 0xcb;
/// Quality of service.
pub(crate) const QUALITY: u8 = 0xc3;
/// Priority.
pub(crate) const PRIORITY: u8 = 0xcd;
/// Reason for discard, in an error report alone.
pub(crate) const REASON: u8 = 0xc1;
