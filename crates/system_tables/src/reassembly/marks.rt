//! Marks of keys: numbers by which a key that has no opening is mostly told at once, and one that has an opening is found.
ghost use Rattle.std.specs.Prelude.{◌≡◌, ◌+◌, ◌-◌, ◌*◌, ◌<◌, ◌^◌, length, replicate, IfOk, slice_index, slice_set};
ghost use Rattle.system_tables.specs.Reassembly.Marks.{mark_of};

use crate::reassembly::segment::Key;
use pdus::nsap::base::NoMemory;
use std::alloc::Global;
use std::marker::Model;

/// So many marks there are for each opening that there may be, since keys share them.
const MARKS_FOR_AN_OPENING: usize = 8;

/// For each mark, how many openings have it, and the place of the last of them to be opened. It has another place by now
/// where one before it was taken out: whoever asks looks whose opening stands there.
///
/// A contract sees the counts.
#[derive(Drop)]
pub(crate) struct Marks {
    counts: Vec<u16>,
    places: Vec<u16>,
}

impl Model for Marks {
    ghost use Rattle.std.specs.Prelude.{◌≡◌, ◌<◌, ℕ, List, length};

    ghost Value = { List ℕ };

    ghost view = { λ m. m.counts.items };

    ghost invariant = { λ m. (0 < length m.counts.items) × (length m.places.items ≡ length m.counts.items) };
}

impl Marks {
    /// Those of no openings, where there may be so many.
    ///
    /// # Errors
    ///
    /// `NoMemory`.
    pub(crate) fn new(alloc: Global, openings: u16) -> Result<Marks, NoMemory>
        ensures { IfOk result (λ marks. marks ≡ replicate (8 * openings + 1) 0) }
    {
        let number = MARKS_FOR_AN_OPENING * usize::from(openings) + 1;
        let counts = Vec::from_elem(alloc, 0, number)?;
        let places = Vec::from_elem(alloc, 0, number)?;
        Ok(Marks { counts, places })
    }

    /// How many openings have the mark of a key.
    pub(crate) fn count_of(&self, key: &Key) -> u16
        ensures count { result ≡ slice_index self.now (mark_of (length self.now) key.now) }
        ensures within { mark_of (length self.now) key.now < length self.now }
    {
        self.counts[self.mark_of(key)]
    }

    /// The place at which to look for a key first.
    pub(crate) fn place_of(&self, key: &Key) -> usize {
        usize::from(self.places[self.mark_of(key)])
    }

    /// Counts an opening of a key, which stands at a place.
    pub(crate) fn add(&mut self, key: &Key, place: usize)
        requires { slice_index self.old (mark_of (length self.old) key.now) + 1 < 2 ^ 16 }
        ensures counts { self.new ≡ slice_set self.old (mark_of (length self.old) key.now) (slice_index self.old (mark_of (length self.old) key.now) + 1) }
        ensures within { mark_of (length self.old) key.now < length self.old }
    {
        let mark = self.mark_of(key);
        self.counts[mark] += 1;
        if let Ok(place) = u16::try_from(place) {
            self.places[mark] = place;
        }
    }

    /// No longer counts an opening of a key.
    pub(crate) fn subtract(&mut self, key: &Key)
        requires { 0 < slice_index self.old (mark_of (length self.old) key.now) }
        ensures counts { self.new ≡ slice_set self.old (mark_of (length self.old) key.now) (slice_index self.old (mark_of (length self.old) key.now) - 1) }
        ensures within { mark_of (length self.old) key.now < length self.old }
    {
        let mark = self.mark_of(key);
        self.counts[mark] -= 1;
    }

    /// Counts no opening any more.
    pub(crate) fn clear(&mut self)
        ensures { self.new ≡ replicate (length self.old) 0 }
    {
        self.counts.fill(0);
    }

    /// The mark of a key.
    fn mark_of(&self, key: &Key) -> usize
        ensures mark { result ≡ mark_of (length self.now) key.now }
        ensures within { result < length self.now }
    {
        mark_of(key, self.counts.len())
    }
}

/// The mark of a key among so many: keys of one source differ in their identifiers, and those of others most often in the
/// last octet of the source.
fn mark_of(key: &Key, number: usize) -> usize
    requires { 0 < number }
    ensures { result ≡ mark_of number key.now }
{
    let source = key.from.as_bytes();
    let last = source[source.len() - 1];
    (usize::from(key.id) + 67 * usize::from(last)) % number
}
