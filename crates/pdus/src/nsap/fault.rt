//! What is wrong with an address or a prefix.

/// Why octets or a text are no address, or a text is no prefix.
#[derive(Clone, Copy, Debug, PartialEq, Eq)]
pub enum NsapFault {
    /// The octets are none or more than 20, or the digits are odd in number.
    Length,
    /// A character of the text is neither a dot nor a hexadecimal digit: the first of them, by its
    /// place from 0.
    BadDigit { place: usize },
    /// The digits of a prefix are more than 40.
    TooManyDigits,
}
