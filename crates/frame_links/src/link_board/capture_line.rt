//! Capture lines, whose frames are laid in a buffer.
ghost use Rattle.std.specs.Prelude.{◌≡◌, ◌-◌, ◌≤◌, ◌∷◌, [], drop, false, is_ok, length, take, IfSome, MatchOption};
ghost use Rattle.std.specs.List.{list_all};
ghost use Rattle.hex.specs.Hex.{decode_of, is_hex_digit};
ghost use Rattle.frame_links.specs.LinkBoard.Recording.{frame_on, frames_in};

use crate::link_board::base::next_line;

/// The most octets of a frame that come.
const MOST: usize = 70_000;

/// Whether a character is a hexadecimal digit, in either case.
fn is_digit(character: u8) -> bool
    ensures { result ≡ is_hex_digit character }
{
    character.is_ascii_hexdigit()
}

/// Whether each character of a line is one.
fn are_digits(line: &[u8]) -> bool
    ensures { result ≡ list_all is_hex_digit line.now }
{
    line.iter().all(|character| is_digit(*character))
}

/// Whether a line is an even number of hexadecimal digits.
fn is_spelled(line: &[u8]) -> bool
    ensures { result ≡ is_ok (decode_of line.now) }
{
    line.len() % 2 == 0 && are_digits(line)
}

/// Lays the frame of a line at the front of the buffer, where it is a capture line, and says how many octets it has.
#[tactic(auto, using(crate::proofs::LinkBoard::Lines::no_digits, crate::proofs::LinkBoard::Lines::not_spelled))]
fn lay(line: &[u8], buf: &mut [u8]) -> Option<usize>
    requires { 70000 ≤ length buf.old }
    ensures frame { MatchOption result (frame_on line.now ≡ None)
        (λ len. frame_on line.now ≡ Some (record { from = 0 ∷ []; to_group = false; octets = take len buf.new })) }
    ensures few { IfSome result (λ len. len ≤ 70000) }
{
    if line.is_empty() {
        return None;
    }
    if !is_spelled(line) {
        return None;
    }
    let len = (line.len() / 2).min(MOST);
    let (front, _) = line.split_at(2 * len);
    let Ok(()) = hex::decode_to_slice(front, &mut buf[..len]) else {
        unreachable!()
    };
    Some(len)
}

/// Lays the frame of the next capture line at the front of the buffer: how many octets it has, and the text behind the
/// line.
pub(crate) fn next_frame<'a>(text: &'a [u8], buf: &mut [u8]) -> Option<(usize, &'a [u8])>
    requires { 70000 ≤ length buf.old }
    ensures frame { MatchOption result (frames_in text.now ≡ [])
        (λ next. frames_in text.now ≡ record { from = 0 ∷ []; to_group = false; octets = take next.0 buf.new } ∷ frames_in next.1.now) }
    ensures few { IfSome result (λ next. next.0 ≤ 70000) }
    ensures rest { IfSome result (λ next. next.1.now ≡ drop (length text.now - length next.1.now) text.now) }
{
    let mut left = text;
    while let Some((line, rest)) = next_line(left) {
        left = rest;
        if let Some(len) = lay(line, buf) {
            return Some((len, rest));
        }
    }
    None
}
