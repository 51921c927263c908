//! Pages in an order: each stays where it was made, and only the numbers of the pages are moved.
ghost use Rattle.std.specs.Prelude.{◌≡◌, ◌+◌, ◌-◌, ◌<◌, ◌≤◌, [], ◌∷◌, ◌++◌, drop, false, length, map, nat_lt, take, true, IfOk, MatchOption, Some, slice_get, slice_index_or, slice_set, vec_capacity};
ghost use Rattle.std.specs.List.{remove};
ghost use Rattle.system_tables.specs.Reassembly.Pages.{AreHalves, IsTaken};
ghost use Rattle.system_tables.specs.Reassembly.Runs.{AreInOrder, cut, filled, marked, renamed, unfilled};

use crate::reassembly::page::Page;
use pdus::nsap::base::NoMemory;
use std::alloc::Global;
use std::marker::Model;

/// Pages, one behind the other, and room for more. The room is taken at the start, and a page is made in it only when all
/// that were made before are in use: no memory is touched for pages that are never needed.
///
/// A contract sees the list of the pages, and how many there may be.
#[derive(Drop)]
pub(crate) struct Pages {
    /// The numbers of the pages, in the order in which they stand.
    order: Vec<usize>,
    /// The numbers of those that were made, and don't stand in the list now.
    free: Vec<usize>,
    /// All that were made, by their numbers.
    made: Vec<Page>,
    most: usize,
}

impl Model for Pages {
    ghost use Rattle.std.specs.Prelude.{◌≤◌, length, vec_capacity};
    ghost use Rattle.system_tables.specs.Reassembly.Pages.{AreKept, PagesState, numbered};

    ghost Value = { PagesState };

    ghost view = { λ p. record { items = numbered p.made.items p.order.items; most = p.most } };

    ghost invariant = { λ p. AreKept p.order.items p.free.items (length p.made.items) p.most
        × ((p.most ≤ vec_capacity p.order) × ((p.most ≤ vec_capacity p.free) × (p.most ≤ vec_capacity p.made))) };
}

impl Pages {
    /// No pages, and room for so many.
    ///
    /// # Errors
    ///
    /// `NoMemory`.
    pub(crate) fn new(alloc: Global, most: usize) -> Result<Pages, NoMemory>
        ensures { IfOk result (λ pages. pages ≡ record { items = []; most = most }) }
    {
        let Ok(order) = Vec::with_capacity(alloc, most) else {
            return Err(NoMemory);
        };
        let Ok(free) = Vec::with_capacity(alloc, most) else {
            return Err(NoMemory);
        };
        let Ok(made) = Vec::with_capacity(alloc, most) else {
            return Err(NoMemory);
        };
        Ok(Pages {
            order,
            free,
            made,
            most,
        })
    }

    /// How many pages there are.
    pub(crate) fn len(&self) -> usize
        ensures { result ≡ length self.now.items }
    {
        self.order.len()
    }

    /// So many pages from one on.
    pub(crate) fn part(&self, start: usize, count: usize) -> PagesPart<'_>
        requires { start + count ≤ length self.now.items }
        ensures { result ≡ take count (drop start self.now.items) }
    {
        PagesPart {
            numbers: &self.order[start..start + count],
            made: &self.made,
        }
    }

    /// Puts the page of a unit with so many places, none of which is filled, behind the others.
    pub(crate) fn open(&mut self, places: u16)
        requires { length self.old.items < self.old.most }
        ensures items { self.new.items ≡ self.old.items ++ unfilled places ∷ [] }
        ensures most { self.new.most ≡ self.old.most }
    {
        let number = take_page(&mut self.made, &mut self.free);
        self.made[number].open(places);
        let Ok(()) = self.order.push(number) else {
            unreachable!()
        };
    }

    /// Cuts the hole on a page that a place lies in, so that one begins there. Where the page is full then, it is halved, and
    /// the page of its second half stands behind it: it says so.
    pub(crate) fn cut(&mut self, at: usize, place: u16) -> bool
        requires within { at < length self.old.items }
        requires order { AreInOrder (slice_index_or self.old.items at []) }
        requires room { length self.old.items < self.old.most }
        ensures whole { result ≡ false → self.new.items ≡ slice_set self.old.items at (cut place (slice_index_or self.old.items at [])) }
        ensures halved { result ≡ true → AreHalves (cut place (slice_index_or self.old.items at [])) at self.old.items self.new.items }
        ensures most { self.new.most ≡ self.old.most }
    {
        let number = self.order[at];
        let Some(second) = self.made[number].cut(place) else {
            return false;
        };
        let other = take_page(&mut self.made, &mut self.free);
        self.made[other] = second;
        let Ok(()) = self.order.insert(at + 1, other) else {
            unreachable!()
        };
        true
    }

    /// Makes the holes on a page from a place to the place before another pieces of a segment.
    pub(crate) fn mark(&mut self, at: usize, from: u16, to: u16, by: u16)
        requires within { at < length self.old.items }
        requires order { AreInOrder (slice_index_or self.old.items at []) }
        ensures items { self.new.items ≡ slice_set self.old.items at (map (marked from to by) (slice_index_or self.old.items at [])) }
        ensures most { self.new.most ≡ self.old.most }
    {
        let number = self.order[at];
        self.made[number].mark(from, to, by);
    }

    /// Whether two runs more leave a page with fewer than there is room for.
    pub(crate) fn has_room(&self, at: usize) -> bool
        requires { at < length self.now.items }
        ensures { result ≡ nat_lt (length (slice_index_or self.now.items at [])) 62 }
    {
        self.made[self.order[at]].has_room()
    }

    /// Fills the holes on a page from a place to the place before another: they are pieces of a segment then.
    pub(crate) fn fill(&mut self, at: usize, from: u16, to: u16, by: u16)
        requires within { at < length self.old.items }
        requires room { length (slice_index_or self.old.items at []) < 62 }
        requires order { AreInOrder (slice_index_or self.old.items at []) }
        ensures items { self.new.items ≡ slice_set self.old.items at (filled from to by (slice_index_or self.old.items at [])) }
        ensures most { self.new.most ≡ self.old.most }
    {
        let number = self.order[at];
        self.made[number].fill(from, to, by);
    }

    /// Gives the segments on a page other indices: those that stand at theirs.
    pub(crate) fn rename(&mut self, at: usize, names: &[u16])
        requires { at < length self.old.items }
        ensures items { self.new.items ≡ slice_set self.old.items at (map (renamed names.now) (slice_index_or self.old.items at [])) }
        ensures most { self.new.most ≡ self.old.most }
    {
        let number = self.order[at];
        self.made[number].rename(names);
    }

    /// Takes a page out. It is free then.
    pub(crate) fn remove(&mut self, at: usize)
        requires { at < length self.old.items }
        ensures items { self.new.items ≡ remove self.old.items at }
        ensures most { self.new.most ≡ self.old.most }
    {
        let number = self.order.remove(at);
        let Ok(()) = self.free.push(number) else {
            unreachable!()
        };
    }
}

/// Pages that stand one behind the other.
///
/// A contract sees the list of them.
#[derive(Drop)]
pub(crate) struct PagesPart<'a> {
    numbers: &'a [usize],
    made: &'a [Page],
}

impl<'a> Model for PagesPart<'a> {
    ghost use Rattle.std.specs.Prelude.{◌<◌, List, length};
    ghost use Rattle.std.specs.List.{AllByRecursion};
    ghost use Rattle.system_tables.specs.declared.reassembly.runs.Run.{Run};
    ghost use Rattle.system_tables.specs.Reassembly.Pages.{numbered};

    ghost Value = { List (List Run) };

    ghost view = { λ p. numbered p.made.now p.numbers.now };

    ghost invariant = { λ p. AllByRecursion (λ number. number < length p.made.now) p.numbers.now };
}

impl<'a> PagesPart<'a> {
    /// How many pages there are.
    pub(crate) fn len(&self) -> usize
        ensures { result ≡ length self.now }
    {
        self.numbers.len()
    }

    /// A page.
    pub(crate) fn page(&self, at: usize) -> &'a Page
        requires { at < length self.now }
        ensures { slice_get self.now at ≡ Some result.now }
    {
        let numbers = self.numbers;
        &self.made[numbers[at]]
    }

    /// The first pages, so many.
    pub(crate) fn front(&self, count: usize) -> PagesPart<'a>
        requires { count ≤ length self.now }
        ensures { result ≡ take count self.now }
    {
        PagesPart {
            numbers: &self.numbers[..count],
            made: self.made,
        }
    }

    /// The pages from one to the one before another.
    pub(crate) fn part(&self, first: usize, last: usize) -> PagesPart<'a>
        requires { (first ≤ last) × (last ≤ length self.now) }
        ensures { result ≡ take (last - first) (drop first self.now) }
    {
        PagesPart {
            numbers: &self.numbers[first..last],
            made: self.made,
        }
    }

    /// The number of pages, from the first on, of which a search by halves finds that all their runs end by a place. It is
    /// right where each page has runs: compare it.
    pub(crate) fn ended_by(&self, place: u16) -> usize
        ensures { result ≤ length self.now }
    {
        self.numbers
            .partition_point(|number| ends_by(self.made, *number, place))
    }

    /// The same of pages on which a run begins before a place.
    pub(crate) fn begun_before(&self, place: u16) -> usize
        ensures { result ≤ length self.now }
    {
        self.numbers
            .partition_point(|number| !begins_from(self.made, *number, place))
    }
}

/// Whether the page with a number is there, has runs, and all of them end by a place.
fn ends_by(made: &[Page], number: usize, place: u16) -> bool {
    match made.get(number) {
        Some(page) => page.ends_by(place),
        None => false,
    }
}

/// Whether the page with a number is there, has runs, and all of them begin from a place on.
fn begins_from(made: &[Page], number: usize, place: u16) -> bool {
    match made.get(number) {
        Some(page) => page.begins_from(place),
        None => false,
    }
}

/// The number of a page that is free, or of one that is made.
fn take_page(made: &mut Vec<Page>, free: &mut Vec<usize>) -> usize
    requires { length free.old.items ≡ 0 → length made.old.items < vec_capacity made.old }
    ensures taken { IsTaken result made.old.items free.old.items made.new.items free.new.items }
    ensures capacity { vec_capacity made.old ≤ vec_capacity made.new }
    ensures free_capacity { vec_capacity free.old ≤ vec_capacity free.new }
{
    if let Some(number) = free.pop() {
        return number;
    }
    let number = made.len();
    let Ok(()) = made.push(Page::new()) else {
        unreachable!()
    };
    number
}
