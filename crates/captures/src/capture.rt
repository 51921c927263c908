ghost use Rattle.std.specs.Prelude.{◌≡◌, ◌≢◌, ◌↔◌, ◌++◌, ℕ, List, true, false, IsTrue, MatchBool, is_ok};
ghost use Rattle.std.specs.List.{AllPass};
ghost use Rattle.hex.specs.Hex.{is_hex_digit, decode_of};
ghost use Rattle.captures.specs.Captures.{capture_of, Skipped, Malformed, TooLong, Frame, Tells};

use crate::digits::push_spelled;
use pdus::esis_pdus::base::{DigitValues, HexFault, is_skipped};

/// The most octets of a frame.
pub const MOST_OCTETS: usize = 70_000;

/// Why a line of a capture isn't read.
#[derive(Clone, Copy, PartialEq, Eq)]
pub enum LineRefusal {
    /// The line isn't made of two hexadecimal digits for each octet.
    Syntax,
    /// The frame has more than 70,000 octets.
    Count,
    /// Memory was refused.
    NoMemory,
}

/// Reads a line of a capture: appends the octets of its frame and answers true, or answers false
/// where the line is to be skipped.
///
/// A line is skipped where it is empty or begins with `#`. Otherwise it has two hexadecimal digits,
/// in either case, for each octet of the frame, and nothing else. `values` is what digits are worth, asked once for
/// all lines.
///
/// # Errors
///
/// `Syntax` where the line has another form, `Count` where the form is right and the frame has more
/// than 70,000 octets, and `NoMemory`. Unless the answer is true, `frame` is as it was.
pub fn read_capture(
    values: &DigitValues,
    line: &[u8],
    frame: &mut Vec<u8>,
) -> Result<bool, LineRefusal>
    ensures skipped { (result ≡ Ok false) ↔ (capture_of line.now ≡ Skipped) }
    ensures syntax { (result ≡ Err LineRefusal.Syntax) ↔ (capture_of line.now ≡ Malformed) }
    ensures count { (result ≡ Err LineRefusal.Count) ↔ (capture_of line.now ≡ TooLong) }

    ensures read { result ≡ Ok true → (octets : List ℕ) × (capture_of line.now ≡ Frame octets)
        × (frame.new.items ≡ frame.old.items ++ octets) }
    ensures same { result ≢ Ok true → frame.new.items ≡ frame.old.items }
{
    read_told(values, line, frame)
}

/// Reads a line of a capture in one pass; the answer tells what the line is.
fn read_told(values: &DigitValues, line: &[u8], frame: &mut Vec<u8>) -> Result<bool, LineRefusal>
    ensures told { Tells result (capture_of line.now) }
    ensures read { result ≡ Ok true → (octets : List ℕ) × (capture_of line.now ≡ Frame octets)
        × (frame.new.items ≡ frame.old.items ++ octets) }
    ensures same { result ≢ Ok true → frame.new.items ≡ frame.old.items }
{
    if is_skipped(line) {
        return Ok(false);
    }
    if line.len() / 2 > MOST_OCTETS {
        return Err(refusal_of(line, LineRefusal::Count));
    }
    match push_spelled(values, line, frame) {
        Ok(()) => Ok(true),
        Err(HexFault::OddLength) => Err(LineRefusal::Syntax),
        Err(HexFault::BadDigit) => Err(LineRefusal::Syntax),
        Err(HexFault::NoMemory) => Err(refusal_of(line, LineRefusal::NoMemory)),
    }
}

/// Why a line isn't read that could be read but for this: its form comes first.
fn refusal_of(line: &[u8], other: LineRefusal) -> LineRefusal
    ensures { MatchBool (is_ok (decode_of line.now)) (result ≡ other) (result ≡ LineRefusal.Syntax) }
{
    if is_hexadecimal(line) {
        other
    } else {
        LineRefusal::Syntax
    }
}

/// Whether a line is an even number of hexadecimal digits, and nothing else.
fn is_hexadecimal(line: &[u8]) -> bool
    ensures { result ≡ is_ok (decode_of line.now) }
{
    line.len() % 2 == 0 && are_digits(line)
}

/// Whether each character is a hexadecimal digit.
fn are_digits(line: &[u8]) -> bool
    ensures { IsTrue result ↔ AllPass is_hex_digit line.now }
{
    line.iter().all(|c| is_digit(*c))
}

/// Whether a character is a hexadecimal digit, in either case.
fn is_digit(c: u8) -> bool
    ensures { result ≡ is_hex_digit c }
{
    c.is_ascii_hexdigit()
}
