//! The digits of a shown line, read as octets of a frame. What no octets can hold is shown of no frame.
ghost use Rattle.std.specs.Prelude.{◌≡◌, Some, MatchOption, MatchResult, None};
ghost use Rattle.hex.specs.Hex.{decode_sized};
ghost use Rattle.pdus.specs.PduHeader.Spelling.{pair_of};
ghost use Rattle.captures.specs.CaptureText.Said.{number_in, octets_in, with_counted, with_number, with_octets, with_option};
ghost use Rattle.captures.specs.CaptureText.View.{Misses};

use crate::base::{DigitValues, HexFault, decimal, push};
use crate::capture_text::refusal::PackRefusal;
use crate::push_spelled;
use byteorder::{BigEndian, ByteOrder};

/// The most octets that one octet counts.
const MOST_COUNTED: usize = 255;

/// Appends the octets that hexadecimal digits spell.
pub(crate) fn push_octets_in(
    values: &DigitValues,
    digits: &[u8],
    out: &mut Vec<u8>,
) -> Result<(), PackRefusal>
    ensures { let reading = with_octets out.old.items digits.now in
        MatchResult result (λ _. reading ≡ Some out.new.items) (λ refusal. Misses refusal reading) }
{
    match push_spelled(values, digits, out) {
        Ok(()) => Ok(()),
        Err(HexFault::OddLength) => Err(PackRefusal::NotShown),
        Err(HexFault::BadDigit) => Err(PackRefusal::NotShown),
        Err(HexFault::NoMemory) => Err(PackRefusal::NoMemory),
    }
}

/// Appends the octets that hexadecimal digits spell, behind their number.
pub(crate) fn push_counted_in(
    values: &DigitValues,
    digits: &[u8],
    out: &mut Vec<u8>,
) -> Result<(), PackRefusal>
    ensures { let reading = with_counted out.old.items digits.now in
        MatchResult result (λ _. reading ≡ Some out.new.items) (λ refusal. Misses refusal reading) }
{
    let count = digits.len() / 2;
    if count > MOST_COUNTED {
        return Err(PackRefusal::NotShown);
    }
    push(&[count as u8], out)?;
    push_octets_in(values, digits, out)
}

/// Appends an option: its code, the length of its value, its value.
pub(crate) fn push_option_in(
    values: &DigitValues,
    text: &[u8],
    out: &mut Vec<u8>,
) -> Result<(), PackRefusal>
    ensures { let reading = with_option out.old.items text.now in
        MatchResult result (λ _. reading ≡ Some out.new.items) (λ refusal. Misses refusal reading) }
{
    if text.len() < 3 {
        return Err(PackRefusal::NotShown);
    }
    let (code, _) = text.split_at(2);
    let (_, value) = text.split_at(3);
    push_octets_in(values, code, out)?;
    push_counted_in(values, value, out)
}

/// The number that decimal digits spell, where two octets hold it.
pub(crate) fn number_in(digits: &[u8]) -> Option<u16>
    ensures { result ≡ number_in digits.now }
{
    match decimal(digits) {
        Some(number) if number <= 65_535 => Some(number as u16),
        _ => None,
    }
}

/// Appends the two octets of the number that decimal digits spell.
pub(crate) fn push_number_in(digits: &[u8], out: &mut Vec<u8>) -> Result<(), PackRefusal>
    ensures { let reading = with_number out.old.items digits.now in
        MatchResult result (λ _. reading ≡ Some out.new.items) (λ refusal. Misses refusal reading) }
{
    let Some(number) = number_in(digits) else {
        return Err(PackRefusal::NotShown);
    };
    push(&pair_of(number), out)?;
    Ok(())
}

/// The two octets of a number, the high one first.
pub(crate) fn pair_of(number: u16) -> [u8; 2]
    ensures { result ≡ pair_of number }
{
    let mut pair = [0; 2];
    BigEndian::write_u16(&mut pair, number);
    pair
}

/// The two octets that four hexadecimal digits spell.
pub(crate) fn pair_in(digits: &[u8]) -> Option<[u8; 2]>
    ensures { MatchOption result (octets_in (decode_sized digits.now 2) ≡ None) (λ pair. octets_in (decode_sized digits.now 2) ≡ Some pair) }
{
    let mut pair = [0; 2];
    match hex::decode_to_slice(digits, &mut pair) {
        Ok(()) => Some(pair),
        Err(_) => None,
    }
}
