//! Texts cut at a mark, and the numbers in them.
ghost use Rattle.std.specs.Prelude.{◌≡◌, ◌<◌, ◌≤◌, ◌==◌, ◌∷◌, length, option_map, IfSome};
ghost use Rattle.std.specs.List.{position};
ghost use Rattle.frame_links.specs.LinkBoard.Words.{number_of, parts_at, parts_left};

use pdus::nsap::base::decimal;

/// Where a mark first stands in a text.
fn place_of(mark: u8, text: &[u8]) -> Option<usize>
    ensures place { result ≡ position (λ c. c == mark) text.now }
    ensures within { IfSome result (λ at. at < length text.now) }
{
    text.iter().position(|c| *c == mark)
}

/// The first of the parts between which a mark stands, and the text of the others where there are others.
#[tactic(auto, using(crate::proofs::LinkBoard::Parts::one_part, crate::proofs::LinkBoard::Parts::first_of_parts))]
pub(crate) fn first_part(mark: u8, text: &[u8]) -> (&[u8], Option<&[u8]>)
    ensures parts { parts_at mark text.now ≡ result.0.now ∷ parts_left mark (option_map (λ others. others.now) result.1) }
    ensures shorter { IfSome result.1 (λ others. length others.now < length text.now) }
{
    match place_of(mark, text) {
        Some(at) => {
            let (part, _) = text.split_at(at);
            let (_, others) = text.split_at(at + 1);
            (part, Some(others))
        }
        None => (text, None),
    }
}

/// A decimal number from `low` to `high`, without sign or leading zero.
pub(crate) fn number_of(low: u64, high: u64, digits: &[u8]) -> Option<u64>
    ensures number { result ≡ number_of low high digits.now }
    ensures within { IfSome result (λ number. number ≤ high) }
{
    if digits.len() > 1 && digits[0] == b'0' {
        return None;
    }
    let number = decimal(digits)?;
    if low <= number && number <= high {
        Some(number)
    } else {
        None
    }
}
