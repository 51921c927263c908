//! Runs of places of a unit's data: holes, and pieces that kept segments fill. They stand on pages, so that a segment moves
//! few of them; the pages of all open units stand in one list, those of one unit together.
ghost use Rattle.std.specs.Prelude.{◌≡◌, ◌+◌, ◌-◌, ◌<◌, ◌≤◌, ◌^◌, List, [], ◌∷◌, ◌++◌, drop, false, length, map, sum, take, true, IfOk, MatchOption, Some, slice_get, slice_set};
ghost use Rattle.std.specs.List.{AllByRecursion, list_any, position_from, remove};
ghost use Rattle.system_tables.specs.declared.reassembly.runs.Run.{Run};
ghost use Rattle.system_tables.specs.Reassembly.Pages.{AreCut, ends_behind, on_pages};
ghost use Rattle.system_tables.specs.Reassembly.Runs.{AreInOrder, cut, filled, is_gap, marked, renamed, total_runs, unfilled};

use crate::reassembly::counts::Counts;
use crate::reassembly::page::PAGE;
use crate::reassembly::pages::{Pages, PagesPart};
use pdus::nsap::base::NoMemory;
use std::alloc::Global;
use std::marker::Model;

/// Places of a unit's data that stand side by side: a hole, or a piece that one kept segment fills.
#[derive(Clone, Copy, Default)]
pub(crate) struct Run {
    pub(crate) from: u16,
    /// The place behind the last one.
    pub(crate) to: u16,
    /// The index of the segment that fills it, where one does.
    pub(crate) by: Option<u16>,
}

/// The runs of each open unit, in the order of their openings.
///
/// A contract sees a list of runs for each unit, and for how many units and runs there is room. A unit is told by its place
/// in that order, which isn't the slot of its buffer.
#[derive(Drop)]
pub(crate) struct Runs {
    /// How many pages each unit has.
    counts: Counts,
    pages: Pages,
    slots: usize,
    room: usize,
}

impl Model for Runs {
    ghost use Rattle.std.specs.Prelude.{◌≤◌, map};
    ghost use Rattle.system_tables.specs.Reassembly.Pages.{ArePages, groups_of, on_pages};
    ghost use Rattle.system_tables.specs.Reassembly.Runs.{RunsState};

    ghost Value = { RunsState };

    ghost view = { λ r. record { groups = map on_pages (groups_of r.counts.items r.pages.items); slots = r.slots; room = r.room } };

    ghost invariant = { λ r. ArePages r.counts.items r.pages.items r.slots r.room r.pages.most × (r.slots ≤ r.counts.room) };
}

impl Runs {
    /// No runs, and room for those of so many units.
    ///
    /// # Errors
    ///
    /// `NoMemory`.
    pub(crate) fn new(alloc: Global, slots: usize, room: usize) -> Result<Runs, NoMemory>
        requires { slots + room < 2 ^ 32 }
        ensures { IfOk result (λ runs. runs ≡ record { groups = []; slots = slots; room = room }) }
    {
        // Each page of a unit that has more than one is at least half full.
        let most = slots + room / (PAGE / 2) + 2;
        let counts = Counts::new(alloc, slots)?;
        let pages = Pages::new(alloc, most)?;
        Ok(Runs {
            counts,
            pages,
            slots,
            room,
        })
    }

    /// Opens a unit with so many places, none of which is filled.
    pub(crate) fn open(&mut self, places: u16)
        requires slots { length self.old.groups < self.old.slots }
        requires room { total_runs self.old.groups < self.old.room }
        ensures groups { self.new.groups ≡ self.old.groups ++ unfilled places ∷ [] }
        ensures slots { self.old.slots ≤ self.new.slots }
        ensures room { self.old.room ≤ self.new.room }
    {
        self.counts.push(self.pages.len(), 1);
        self.pages.open(places);
    }

    /// The runs of a unit, one behind the other.
    pub(crate) fn group(&self, slot: usize) -> Group<'_>
        requires { slot < length self.now.groups }
        ensures { slice_get self.now.groups slot ≡ Some result }
    {
        Group {
            first: &[],
            others: self.pages_of(slot),
        }
    }

    /// The pages on which the runs of a unit stand.
    pub(crate) fn pages_of(&self, slot: usize) -> PagesPart<'_>
        requires { slot < length self.now.groups }
        ensures { slice_get self.now.groups slot ≡ Some (on_pages result) }
    {
        let start = self.counts.start_at(slot);
        self.pages.part(start, self.counts.count_at(slot))
    }

    /// Fills the holes of a unit from a place to the place before another: they are pieces of a segment then.
    pub(crate) fn fill(&mut self, slot: usize, from: u16, to: u16, by: u16)
        requires slot { slot < length self.old.groups }
        requires order { (runs : List Run) → slice_get self.old.groups slot ≡ Some runs → AreInOrder runs }
        requires room { total_runs self.old.groups + 2 ≤ self.old.room }
        ensures groups { (runs : List Run) → slice_get self.old.groups slot ≡ Some runs
            → self.new.groups ≡ slice_set self.old.groups slot (filled from to by runs) }
        ensures slots { self.old.slots ≤ self.new.slots }
        ensures room { self.old.room ≤ self.new.room }
    {
        // Most units have one page.
        if !self.fill_page(slot, from, to, by) {
            self.fill_pages(slot, from, to, by);
        }
    }

    /// The same of a unit that has one page, and room on it: tells whether it has.
    fn fill_page(&mut self, slot: usize, from: u16, to: u16, by: u16) -> bool
        requires slot { slot < length self.old.groups }
        requires order { (runs : List Run) → slice_get self.old.groups slot ≡ Some runs → AreInOrder runs }
        ensures groups { result ≡ true → (runs : List Run) → slice_get self.old.groups slot ≡ Some runs
            → self.new.groups ≡ slice_set self.old.groups slot (filled from to by runs) }
        ensures same { result ≡ false → self.new ≡ self.old }
        ensures slots { self.old.slots ≤ self.new.slots }
        ensures room { self.old.room ≤ self.new.room }
    {
        let start = self.counts.start_at(slot);
        if self.counts.count_at(slot) != 1 {
            return false;
        }
        if !self.pages.has_room(start) {
            return false;
        }
        self.pages.fill(start, from, to, by);
        true
    }

    /// The same of each unit.
    fn fill_pages(&mut self, slot: usize, from: u16, to: u16, by: u16)
        requires slot { slot < length self.old.groups }
        requires order { (runs : List Run) → slice_get self.old.groups slot ≡ Some runs → AreInOrder runs }
        requires room { total_runs self.old.groups + 2 ≤ self.old.room }
        ensures groups { (runs : List Run) → slice_get self.old.groups slot ≡ Some runs
            → self.new.groups ≡ slice_set self.old.groups slot (filled from to by runs) }
        ensures slots { self.old.slots ≤ self.new.slots }
        ensures room { self.old.room ≤ self.new.room }
    {
        self.cut(slot, from);
        self.cut(slot, to);
        self.mark(slot, from, to, by);
    }

    /// Cuts the hole of a unit that a place lies in, so that one begins there.
    fn cut(&mut self, slot: usize, place: u16)
        requires slot { slot < length self.old.groups }
        requires order { (runs : List Run) → slice_get self.old.groups slot ≡ Some runs → AreInOrder runs }
        requires room { total_runs self.old.groups < self.old.room }
        ensures groups { (runs : List Run) → slice_get self.old.groups slot ≡ Some runs
            → self.new.groups ≡ slice_set self.old.groups slot (cut place runs) }
        ensures slots { self.old.slots ≤ self.new.slots }
        ensures room { self.old.room ≤ self.new.room }
    {
        let start = self.counts.start_at(slot);
        let count = cut_pages(&mut self.pages, start, self.counts.count_at(slot), place);
        self.counts.set(slot, count);
    }

    /// Makes the holes of a unit that lie from a place to the place before another pieces of a segment.
    fn mark(&mut self, slot: usize, from: u16, to: u16, by: u16)
        requires slot { slot < length self.old.groups }
        requires order { (runs : List Run) → slice_get self.old.groups slot ≡ Some runs → AreInOrder runs }
        ensures groups { (runs : List Run) → slice_get self.old.groups slot ≡ Some runs
            → self.new.groups ≡ slice_set self.old.groups slot (map (marked from to by) runs) }
        ensures slots { self.old.slots ≤ self.new.slots }
        ensures room { self.old.room ≤ self.new.room }
    {
        let start = self.counts.start_at(slot);
        let count = self.counts.count_at(slot);
        mark_on(&mut self.pages, start, count, from, to, by);
    }

    /// Takes the runs of a unit out.
    pub(crate) fn remove(&mut self, slot: usize)
        requires { slot < length self.old.groups }
        ensures groups { self.new.groups ≡ remove self.old.groups slot }
        ensures slots { self.old.slots ≤ self.new.slots }
        ensures room { self.old.room ≤ self.new.room }
    {
        let start = self.counts.start_at(slot);
        let count = self.counts.remove(slot);
        take_pages(&mut self.pages, start, count);
    }

    /// Gives the segments other indices: those that stand at theirs.
    pub(crate) fn rename(&mut self, names: &[u16])
        ensures groups { self.new.groups ≡ map (map (renamed names.now)) self.old.groups }
        ensures slots { self.old.slots ≤ self.new.slots }
        ensures room { self.old.room ≤ self.new.room }
    {
        rename_pages(&mut self.pages, names);
    }

    /// Takes all runs out.
    pub(crate) fn clear(&mut self)
        ensures groups { self.new.groups ≡ [] }
        ensures slots { self.old.slots ≤ self.new.slots }
        ensures room { self.old.room ≤ self.new.room }
    {
        self.counts.clear();
        let count = self.pages.len();
        take_pages(&mut self.pages, 0, count);
    }
}

/// Runs of a unit, one behind the other, on pages.
///
/// A contract sees the list of the runs.
#[derive(Drop)]
pub(crate) struct Group<'a> {
    /// What is left of the runs of a page.
    first: &'a [Run],
    others: PagesPart<'a>,
}

impl<'a> Model for Group<'a> {
    ghost use Rattle.std.specs.Prelude.{◌++◌, List};
    ghost use Rattle.system_tables.specs.declared.reassembly.runs.Run.{Run};
    ghost use Rattle.system_tables.specs.Reassembly.Pages.{on_pages};

    ghost Value = { List Run };

    ghost view = { λ g. g.first.now ++ on_pages g.others };
}

impl<'a> Group<'a> {
    /// The next run, which isn't one of those that are left then.
    pub(crate) fn next(&mut self) -> Option<Run>
        ensures { MatchOption result ((self.old ≡ []) × (self.new ≡ [])) (λ run. self.old ≡ run ∷ self.new) }
    {
        loop {
            if let Some((run, rest)) = self.first.split_first() {
                self.first = rest;
                return Some(*run);
            }
            let count = self.others.len();
            if count == 0 {
                return None;
            }
            self.first = self.others.page(0).runs();
            self.others = self.others.part(1, count);
        }
    }
}

/// Whether a hole on some pages has a place from `from` to the place before `to`.
pub(crate) fn has_gap(pages: &PagesPart<'_>, from: u16, to: u16) -> bool
    requires { AreInOrder (on_pages pages.now) }
    ensures { result ≡ list_any (is_gap from to) (on_pages pages.now) }
{
    // Most units have one page.
    if pages.len() < 2 {
        return have_gap(pages, from, to);
    }
    let last = begun_before(pages, to);
    let first = ended_by(&pages.front(last), from);
    have_gap(&pages.part(first, last), from, to)
}

/// The same, by a walk over the pages.
fn have_gap(pages: &PagesPart<'_>, from: u16, to: u16) -> bool
    requires { AreInOrder (on_pages pages.now) }
    ensures { result ≡ list_any (is_gap from to) (on_pages pages.now) }
{
    for at in 0..pages.len() {
        if pages.page(at).has_gap(from, to) {
            return true;
        }
    }
    false
}

/// Whether a unit with so many places has a hole, of which the places from `from` to the place before `to` were filled last.
pub(crate) fn has_hole(pages: &PagesPart<'_>, from: u16, to: u16, places: u16) -> bool
    requires order { AreInOrder (on_pages pages.now) }
    requires within { (from ≤ places) × (to ≤ places) }
    ensures { result ≡ list_any (is_gap 0 places) (on_pages pages.now) }
{
    if are_few(pages) {
        return has_gap(pages, 0, places);
    }
    // Most often there is one beside what was filled.
    if has_gap(pages, from - from.min(1), from) {
        return true;
    }
    if has_gap(pages, to, places.min(to.saturating_add(1))) {
        return true;
    }
    has_gap(pages, 0, places)
}

/// Whether a walk over all runs on some pages takes less than searches among them. Either answer is right: it tells only which
/// of two ways to the same end is taken.
fn are_few(pages: &PagesPart<'_>) -> bool {
    pages.len() == 1 && pages.page(0).has_few()
}

/// Of how many pages, the first ones, it is plain that all their runs end by a place.
fn ended_by(pages: &PagesPart<'_>, place: u16) -> usize
    requires { AreInOrder (on_pages pages.now) }
    ensures within { result ≤ length pages.now }
    ensures ended { AllByRecursion (λ run. run.to ≤ place) (on_pages (take result pages.now)) }
{
    // Most often the place is on the last of them.
    if pages.len() > 1 && pages.page(pages.len() - 2).ends_by(place) {
        return pages.len() - 1;
    }
    let count = pages.ended_by(place);
    // What was found is compared: a page without runs would lead the search astray.
    if count > 0 && pages.page(count - 1).ends_by(place) {
        count
    } else {
        0
    }
}

/// Behind how many pages, the first ones, it is plain that all runs begin from a place on.
fn begun_before(pages: &PagesPart<'_>, place: u16) -> usize
    requires { AreInOrder (on_pages pages.now) }
    ensures within { result ≤ length pages.now }
    ensures others { AllByRecursion (λ run. place ≤ run.from) (on_pages (drop result pages.now)) }
{
    if pages.len() == 0 || !pages.page(pages.len() - 1).begins_from(place) {
        return pages.len();
    }
    let count = pages.begun_before(place);
    if count < pages.len() && pages.page(count).begins_from(place) {
        count
    } else {
        pages.len()
    }
}

/// The index of the page on which the first run stands that ends behind a place.
fn page_of(pages: &PagesPart<'_>, place: u16) -> Option<usize>
    requires { AreInOrder (on_pages pages.now) }
    ensures { result ≡ position_from (ends_behind place) 0 pages.now }
{
    if pages.len() < 2 {
        return first_behind(pages, place);
    }
    let first = ended_by(pages, place);
    match first_behind(&pages.part(first, pages.len()), place) {
        Some(at) => Some(first + at),
        None => None,
    }
}

/// The same, by a walk over the pages.
fn first_behind(pages: &PagesPart<'_>, place: u16) -> Option<usize>
    ensures { result ≡ position_from (ends_behind place) 0 pages.now }
{
    for at in 0..pages.len() {
        if pages.page(at).ends_behind(place) {
            return Some(at);
        }
    }
    None
}

/// Cuts the hole that a place lies in, where it stands on one of `count` pages from `start` on; tells how many these are
/// then.
fn cut_pages(pages: &mut Pages, start: usize, count: usize, place: u16) -> usize
    requires within { start + count ≤ length pages.old.items }
    requires order { AreInOrder (on_pages (take count (drop start pages.old.items))) }
    requires few { length pages.old.items < 2 ^ 64 }
    requires room { length pages.old.items < pages.old.most }
    ensures cut { AreCut place start count result pages.old.items pages.new.items }
    ensures counted { result ≤ count + 1 }
    ensures most { pages.new.most ≡ pages.old.most }
{
    let Some(at) = page_of(&pages.part(start, count), place) else {
        return count;
    };
    if pages.cut(start + at, place) {
        count + 1
    } else {
        count
    }
}

/// Makes each hole on `count` pages from `start` on, from a place to the place before another, a piece of a segment.
fn mark_on(pages: &mut Pages, start: usize, count: usize, from: u16, to: u16, by: u16)
    requires within { start + count ≤ length pages.old.items }
    requires few { length pages.old.items < 2 ^ 64 }
    requires order { AreInOrder (on_pages (take count (drop start pages.old.items))) }
    ensures items { pages.new.items ≡ take start pages.old.items
        ++ (map (map (marked from to by)) (take count (drop start pages.old.items)) ++ drop count (drop start pages.old.items)) }
    ensures most { pages.new.most ≡ pages.old.most }
{
    if count < 2 {
        mark_pages(pages, start, count, from, to, by);
        return;
    }
    let unit = pages.part(start, count);
    let last = begun_before(&unit, to);
    let first = ended_by(&unit.front(last), from);
    mark_pages(pages, start + first, last - first, from, to, by);
}

/// The same, by a walk over the pages.
fn mark_pages(pages: &mut Pages, start: usize, count: usize, from: u16, to: u16, by: u16)
    requires within { start + count ≤ length pages.old.items }
    requires few { length pages.old.items < 2 ^ 64 }
    requires order { AreInOrder (on_pages (take count (drop start pages.old.items))) }
    ensures items { pages.new.items ≡ take start pages.old.items
        ++ (map (map (marked from to by)) (take count (drop start pages.old.items)) ++ drop count (drop start pages.old.items)) }
    ensures most { pages.new.most ≡ pages.old.most }
{
    for at in start..start + count {
        pages.mark(at, from, to, by);
    }
}

/// Gives the segment of each run another index.
fn rename_pages(pages: &mut Pages, names: &[u16])
    ensures items { pages.new.items ≡ map (map (renamed names.now)) pages.old.items }
    ensures most { pages.new.most ≡ pages.old.most }
{
    for at in 0..pages.len() {
        pages.rename(at, names);
    }
}

/// Takes `count` pages from `start` on out.
fn take_pages(pages: &mut Pages, start: usize, count: usize)
    requires { start + count ≤ length pages.old.items }
    ensures items { pages.new.items ≡ take start pages.old.items ++ drop (start + count) pages.old.items }
    ensures most { pages.new.most ≡ pages.old.most }
{
    for _ in 0..count {
        pages.remove(start);
    }
}
