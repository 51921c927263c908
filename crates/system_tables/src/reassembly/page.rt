//! Pages of runs: some runs of a unit that stand one behind the other.
ghost use Rattle.std.specs.Prelude.{◌≡◌, ℕ, ◌+◌, ◌<◌, ◌≤◌, ◌++◌, [], ◌∷◌, length, map, nat_lt, take, drop, true, Some, IfNone, IfSome, OnSome};
ghost use Rattle.std.specs.List.{AllByRecursion, list_any, position_from};
ghost use Rattle.system_tables.specs.declared.reassembly.runs.Run.{Run};
ghost use Rattle.system_tables.specs.Reassembly.Pages.{IsApart, ends_behind};
ghost use Rattle.system_tables.specs.Reassembly.Runs.{AreInOrder, AreJoined, cut, filled, is_across, is_gap, marked, named_in, renamed, unfilled};

use crate::reassembly::runs::Run;
use arrayvec::ArrayVec;
use std::marker::Model;

/// So many runs a page has room for. It never has as many: it is halved then.
pub(crate) const PAGE: usize = 64;

/// A walk over fewer runs than so many takes less than a search by halves.
const FEW: usize = 8;

/// Runs of a unit that stand one behind the other. They lie in the page itself, so that it takes no memory of its own.
///
/// A contract sees the list of the runs.
#[derive(Drop)]
pub(crate) struct Page {
    runs: ArrayVec<Run, PAGE>,
}

impl Model for Page {
    ghost use Rattle.std.specs.Prelude.{◌<◌, List, length};
    ghost use Rattle.system_tables.specs.declared.reassembly.runs.Run.{Run};

    ghost Value = { List Run };

    ghost view = { λ p. p.runs.items };

    ghost invariant = { λ p. length p.runs.items < 64 };
}

impl Page {
    /// A page without runs.
    pub(crate) fn new() -> Page
        ensures { result ≡ [] }
    {
        Page {
            runs: ArrayVec::new(),
        }
    }

    /// Whether its runs are so few that a walk over them takes less than a search.
    pub(crate) fn has_few(&self) -> bool
        ensures { result ≡ nat_lt (length self.now) 8 }
    {
        self.runs.len() < FEW
    }

    /// Whether two runs more leave it with fewer than there is room for.
    pub(crate) fn has_room(&self) -> bool
        ensures { result ≡ nat_lt (length self.now) 62 }
    {
        self.runs.len() < PAGE - 2
    }

    /// Its runs.
    pub(crate) fn runs(&self) -> &[Run]
        ensures { result.now ≡ self.now }
    {
        self.runs.as_slice()
    }

    /// Makes it the first page of a unit with so many places, none of which is filled.
    pub(crate) fn open(&mut self, places: u16)
        ensures { self.new ≡ unfilled places }
    {
        self.runs.clear();
        self.runs.push(Run {
            from: 0,
            to: places,
            by: None,
        });
    }

    /// Whether its last run ends behind a place.
    pub(crate) fn ends_behind(&self, place: u16) -> bool
        ensures { result ≡ ends_behind place self.now }
    {
        match self.runs().last() {
            Some(run) => place < run.to,
            None => false,
        }
    }

    /// Whether it has runs, and all of them end by a place.
    pub(crate) fn ends_by(&self, place: u16) -> bool
        ensures { (low high : ℕ) → result ≡ true → AreJoined low high self.now → high ≤ place }
    {
        match self.runs().last() {
            Some(run) => run.to <= place,
            None => false,
        }
    }

    /// Whether it has runs, and all of them begin from a place on.
    pub(crate) fn begins_from(&self, place: u16) -> bool
        ensures { (low high : ℕ) → result ≡ true → AreJoined low high self.now → place ≤ low }
    {
        match self.runs().first() {
            Some(run) => place <= run.from,
            None => false,
        }
    }

    /// Whether a hole has a place from `from` to the place before `to`.
    pub(crate) fn has_gap(&self, from: u16, to: u16) -> bool
        requires { AreInOrder self.now }
        ensures { result ≡ list_any (is_gap from to) self.now }
    {
        has_gap(self.runs(), from, to)
    }

    /// Cuts the hole that a place lies in, so that one begins there. A page that is full then is halved, and gives the page
    /// of its second half.
    pub(crate) fn cut(&mut self, place: u16) -> Option<Page>
        requires { AreInOrder self.old }
        ensures whole { IfNone result (self.new ≡ cut place self.old) }
        ensures halved { IfSome result (λ other. self.new ++ other ≡ cut place self.old) }
        ensures first { OnSome result (32 ≤ length self.new) }
        ensures second { IfSome result (λ other. 32 ≤ length other) }
    {
        cut_hole(&mut self.runs, place);
        if !self.runs.is_full() {
            return None;
        }
        Some(halve(&mut self.runs))
    }

    /// Makes the holes from a place to the place before another pieces of a segment.
    pub(crate) fn mark(&mut self, from: u16, to: u16, by: u16)
        requires { AreInOrder self.old }
        ensures { self.new ≡ map (marked from to by) self.old }
    {
        mark_holes(self.runs.as_mut_slice(), from, to, by);
    }

    /// Fills the holes from a place to the place before another: they are pieces of a segment then.
    pub(crate) fn fill(&mut self, from: u16, to: u16, by: u16)
        requires room { length self.old < 62 }
        requires order { AreInOrder self.old }
        ensures { self.new ≡ filled from to by self.old }
    {
        cut_hole(&mut self.runs, from);
        cut_hole(&mut self.runs, to);
        mark_holes(self.runs.as_mut_slice(), from, to, by);
    }

    /// Gives the segments other indices: those that stand at theirs.
    pub(crate) fn rename(&mut self, names: &[u16])
        ensures { self.new ≡ map (renamed names.now) self.old }
    {
        rename_all(self.runs.as_mut_slice(), names);
    }
}

/// Whether a hole has a place from `from` to the place before `to`.
fn has_gap(runs: &[Run], from: u16, to: u16) -> bool
    requires { AreInOrder runs.now }
    ensures { result ≡ list_any (is_gap from to) runs.now }
{
    if runs.len() < FEW {
        return is_gap_among(runs, from, to);
    }
    if is_apart(runs, from, to) {
        return false;
    }
    let last = begun_before(runs, to);
    let first = ended_by(&runs[..last], from);
    is_gap_among(&runs[first..last], from, to)
}

/// Whether it is plain that no run has a place from `from` to the place before `to`.
fn is_apart(runs: &[Run], from: u16, to: u16) -> bool
    requires { AreInOrder runs.now }
    ensures { result ≡ true → IsApart from to runs.now }
{
    match (runs.first(), runs.last()) {
        (Some(first), Some(last)) => last.to <= from || to <= first.from,
        _ => true,
    }
}

/// Whether one of some runs is a hole with a place from `from` to the place before `to`.
fn is_gap_among(runs: &[Run], from: u16, to: u16) -> bool
    ensures { result ≡ list_any (is_gap from to) runs.now }
{
    runs.iter().any(|run| is_gap(run, from, to))
}

/// How many runs end by a place: the first ones.
fn ended_by(runs: &[Run], place: u16) -> usize
    requires { AreInOrder runs.now }
    ensures within { result ≤ length runs.now }
    ensures ended { AllByRecursion (λ run. run.to ≤ place) (take result runs.now) }
    ensures others { AllByRecursion (λ run. place < run.to) (drop result runs.now) }
{
    runs.partition_point(|run| run.to <= place)
}

/// How many runs begin before a place: the first ones.
fn begun_before(runs: &[Run], place: u16) -> usize
    requires { AreInOrder runs.now }
    ensures within { result ≤ length runs.now }
    ensures begun { AllByRecursion (λ run. run.from < place) (take result runs.now) }
    ensures others { AllByRecursion (λ run. place ≤ run.from) (drop result runs.now) }
{
    runs.partition_point(|run| run.from < place)
}

/// Whether a run is a hole with a place from `from` to the place before `to`.
fn is_gap(run: &Run, from: u16, to: u16) -> bool
    ensures { result ≡ is_gap from to run.now }
{
    run.by.is_none() && run.from.max(from) < run.to.min(to)
}

/// Cuts the hole that a place lies in.
fn cut_hole(runs: &mut ArrayVec<Run, PAGE>, place: u16)
    requires room { length runs.old.items < 64 }
    requires order { AreInOrder runs.old.items }
    ensures { runs.new.items ≡ cut place runs.old.items }
{
    let Some(at) = hole_across(runs.as_slice(), place) else {
        return;
    };
    let run = runs.as_slice()[at];
    runs.as_mut_slice()[at] = Run { to: place, ..run };
    runs.insert(at + 1, Run { from: place, ..run });
}

/// Takes the second half of the runs of a full page out.
fn halve(runs: &mut ArrayVec<Run, PAGE>) -> Page
    requires { length runs.old.items ≡ 64 }
    ensures items { runs.new.items ++ result ≡ runs.old.items }
    ensures first { length runs.new.items ≡ 32 }
    ensures second { length result ≡ 32 }
{
    let mut others = ArrayVec::new();
    let Ok(()) = others.try_extend_from_slice(&runs.as_slice()[PAGE / 2..]) else {
        unreachable!()
    };
    runs.truncate(PAGE / 2);
    Page { runs: others }
}

/// The index of the hole that a place lies in, and doesn't begin.
fn hole_across(runs: &[Run], place: u16) -> Option<usize>
    requires { AreInOrder runs.now }
    ensures { result ≡ position_from (is_across place) 0 runs.now }
{
    if runs.len() < FEW {
        return first_across(runs, place);
    }
    let at = ended_by(runs, place);
    let run = runs.get(at)?;
    if run.by.is_none() && run.from < place {
        Some(at)
    } else {
        None
    }
}

/// The same, by a walk over the runs.
fn first_across(runs: &[Run], place: u16) -> Option<usize>
    ensures { result ≡ position_from (is_across place) 0 runs.now }
{
    runs.iter().position(|run| is_across(run, place))
}

/// Whether a run is a hole with a place that isn't its first.
fn is_across(run: &Run, place: u16) -> bool
    ensures { result ≡ is_across place run.now }
{
    run.by.is_none() && run.from < place && place < run.to
}

/// Makes each hole from a place to the place before another a piece of a segment.
fn mark_holes(runs: &mut [Run], from: u16, to: u16, by: u16)
    requires { AreInOrder runs.old }
    ensures { runs.new ≡ map (marked from to by) runs.old }
{
    if runs.len() < FEW {
        mark_each(runs, from, to, by);
        return;
    }
    if is_apart(runs, from, to) {
        return;
    }
    let last = begun_before(runs, to);
    let first = ended_by(&runs[..last], from);
    mark_each(&mut runs[first..last], from, to, by);
}

/// The same, by a walk over the runs.
fn mark_each(runs: &mut [Run], from: u16, to: u16, by: u16)
    ensures { runs.new ≡ map (marked from to by) runs.old }
{
    for run in runs.iter_mut() {
        *run = marked(*run, from, to, by);
    }
}

/// A run, as a piece of a segment where it is a hole from a place to the place before another.
fn marked(run: Run, from: u16, to: u16, by: u16) -> Run
    ensures { result ≡ marked from to by run }
{
    if run.by.is_none() && from <= run.from && run.to <= to {
        Run {
            by: Some(by),
            ..run
        }
    } else {
        run
    }
}

/// Gives the segment of each run another index.
fn rename_all(runs: &mut [Run], names: &[u16])
    ensures { runs.new ≡ map (renamed names.now) runs.old }
{
    for run in runs.iter_mut() {
        *run = Run {
            by: name_of(run.by, names),
            ..*run
        };
    }
}

/// What stands at an index, if there is one.
fn name_of(by: Option<u16>, names: &[u16]) -> Option<u16>
    ensures { result ≡ named_in names.now by }
{
    names.get(usize::from(by?)).copied()
}
