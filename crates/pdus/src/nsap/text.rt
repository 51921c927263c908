//! The digits of a text, met character by character.
ghost use Rattle.std.specs.Prelude.{◌≡◌, ◌<◌, ◌≤◌, length, take, IfNone, IfSome};
ghost use Rattle.pdus.specs.Nsap.Text.{bad_digit, may_stand, without_dots};

/// Whether a character may stand in the text of an address or of a prefix.
fn is_text(c: u8) -> bool
    ensures { result ≡ may_stand c }
{
    c == b'.' || c.is_ascii_hexdigit()
}

/// The place of the first character that may not stand there.
pub(crate) fn first_bad_digit(text: &[u8]) -> Option<usize>
    ensures { result ≡ bad_digit text.now }
{
    text.iter().position(|c| !is_text(*c))
}

/// Puts the characters of the text that aren't dots at the front of `digits`, and gives their number;
/// none where they are more than 40.
pub(crate) fn collect_digits(text: &[u8], digits: &mut [u8; 40]) -> Option<usize>
    ensures few { IfSome result (λ n. (n ≤ 40) × (take n digits.new ≡ without_dots text.now)) }
    ensures many { IfNone result (40 < length (without_dots text.now)) }
{
    let mut count = 0;
    for c in text {
        if *c != b'.' {
            if count == digits.len() {
                return None;
            }
            digits[count] = *c;
            count += 1;
        }
    }
    Some(count)
}
