//! The data of a whole unit, piece by piece.
ghost use Rattle.std.specs.Prelude.{◌≡◌, ◌++◌, ◌<◌, [], length, MatchOption};
ghost use Rattle.std.specs.Iterator.{item_count};

use crate::reassembly::spans::Spans;
use std::marker::Model;

/// What is left of the data of a whole unit, in pieces of the kept segments' octets.
///
/// A contract sees it as the list of the octets that are left.
#[derive(Drop)]
pub struct Pieces<'a> {
    spans: Spans<'a>,
    /// The second part of the span that was taken last, which comes next.
    behind: &'a [u8],
}

impl<'a> Model for Pieces<'a> {
    ghost use Rattle.std.specs.Prelude.{◌++◌, ℕ, List};

    ghost Value = { List ℕ };

    ghost view = { λ p. p.behind.now ++ p.spans };
}

impl<'a> Pieces<'a> {
    /// The data of these spans.
    pub(crate) fn of(spans: Spans<'a>) -> Pieces<'a>
        ensures { result ≡ spans.entry }
    {
        Pieces { spans, behind: &[] }
    }
}

impl<'a> Iterator for Pieces<'a> {
    type Item = &'a [u8];

    /// Each piece has at least one octet, and they are the next ones of what is left.
    ghost next_gives = { λ before piece after. MatchOption piece ((before ≡ []) × (after ≡ []))
        (λ octets. (0 < length octets.now) × (before ≡ octets.now ++ after)) };

    ghost remaining = { item_count (λ left. left) };

    fn next(&mut self) -> Option<&'a [u8]> {
        if !self.behind.is_empty() {
            let behind = self.behind;
            self.behind = &[];
            return Some(behind);
        }
        let (front, behind) = self.spans.next()?;
        if front.is_empty() {
            return Some(behind);
        }
        self.behind = behind;
        Some(front)
    }
}
