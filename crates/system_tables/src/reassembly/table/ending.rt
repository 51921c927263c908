//! Buffers taken out of the table, whole or because their time has ended.
ghost use Rattle.std.specs.Prelude.{◌≡◌, ◌≢◌, ◌+◌, ◌*◌, ◌≤◌, ◌<◌, ℕ, List, Option, [], ◌∷◌, ◌++◌, length, nat_lt, take, true, None, Some, IfNone, IfSome, MatchOption, option_map, slice_get};
ghost use Rattle.std.specs.List.{All, AllByRecursion};
ghost use Rattle.pdus.specs.ClnpViews.Extent.{Extent};
ghost use Rattle.system_tables.specs.declared.reassembly.openings.Opening.{Opening};
ghost use Rattle.system_tables.specs.declared.reassembly.runs.Run.{Run};
ghost use Rattle.system_tables.specs.Reassembly.Offered.{MayCome, openings_of};
ghost use Rattle.system_tables.specs.Reassembly.Buffer as buffer;
ghost use Rattle.system_tables.specs.Reassembly.Buffer.{Buffer};
ghost use Rattle.system_tables.specs.Reassembly.Entries.{IsWithin, present, segment_by};
ghost use Rattle.system_tables.specs.Reassembly.Index.{IsIndexOf, IsNext, MayBeIndexed, emptied_by};
ghost use Rattle.system_tables.specs.Reassembly.Kept.{IsKept};
ghost use Rattle.system_tables.specs.Reassembly.NoWhole.{HasNoWhole, IsCompleted};
ghost use Rattle.system_tables.specs.Reassembly.Openings.{AreWithout, IsSoonest};
ghost use Rattle.system_tables.specs.Reassembly.Runs.{AreInOrder, first_by, total_runs};
ghost use Rattle.system_tables.specs.Reassembly.State.{IsAt, IsReady, IsWholeSlot, Names, SlotsStay, Stands, TableState, segments_of};

use super::{Expired, SlotNo, Table};
use crate::reassembly::openings::Openings;
use crate::reassembly::runs::{Group, Runs};
use crate::reassembly::segment::{Key, Segment};
use crate::reassembly::segments::{Segments, last_of};
use pdus::clnp_views::View;

impl Table {
    /// Takes a whole buffer out.
    pub fn release(&mut self, slot: SlotNo)
        requires { IsWholeSlot self.old slot.0 }
        ensures stands { (buffers : List (Buffer Extent)) (key : Key) → Stands self.old buffers
            → Names self.old slot.0 key
            → Stands self.new (buffer.without key buffers) }
        ensures none_whole { IsCompleted self.old slot.0 → HasNoWhole self.new }
        ensures slots { SlotsStay self.old self.new }
        ensures limits { self.new.limits ≡ self.old.limits }
    {
        let place = self.place_at(slot);
        self.take_out(place);
    }

    /// Takes the segment that made a buffer whole out again: the last one of it. Where it is the one that was kept last, the
    /// table is as it was before it came.
    pub fn undo(&mut self, slot: SlotNo)
        requires { IsWholeSlot self.old slot.0 }
        ensures stands { (buffers : List (Buffer Extent)) (key : Key) → Stands self.old buffers
            → Names self.old slot.0 key
            → Stands self.new (buffer.undone key buffers) }
        ensures none_whole { IsCompleted self.old slot.0 → HasNoWhole self.new }
        ensures as_before { (before : TableState) (now : ℕ) (segment : Segment) → IsKept now segment before self.old
            → Names self.old slot.0 segment.key → self.new ≡ before }
        ensures slots { SlotsStay self.old self.new }
        ensures limits { self.new.limits ≡ self.old.limits }
    {
        let place = self.place_at(slot);
        let key = self.openings.at(place).key;
        self.segments.take_last(&key);
        close_empty(&mut self.openings, place, self.segments.entries(), &key);
        reindex(&mut self.runs, &self.openings, self.segments.entries());
    }

    /// Takes out the buffer whose time has ended at a moment: the one with the earliest deadline, the one that was
    /// opened first among equals (ISO/IEC 8473, section 6.9).
    pub fn expire(&mut self, now: u64) -> Option<Expired>
        ensures ended { (buffers : List (Buffer Extent)) → Stands self.old buffers
            → result ≡ option_map (λ ended. record { key = ended.key; first = buffer.first_carried ended }) (buffer.due now buffers) }
        ensures stands { (buffers : List (Buffer Extent)) → Stands self.old buffers
            → Stands self.new (buffer.without_due (buffer.due now buffers) buffers) }
        ensures none_whole { HasNoWhole self.old → HasNoWhole self.new }
        ensures ready { HasNoWhole self.old → result ≡ None → IsReady now self.new }
        ensures slots { SlotsStay self.old self.new }
        ensures limits { self.new.limits ≡ self.old.limits }
    {
        let place = due_place(&mut self.openings, now)?;
        let key = self.openings.at(place).key;
        let first = self.take_out(place);
        Some(Expired { key, first })
    }

    /// Takes all buffers out.
    pub fn clear(&mut self)
        ensures stands { Stands self.new [] }
        ensures none_whole { HasNoWhole self.new }
        ensures limits { self.new.limits ≡ self.old.limits }
    {
        self.openings.clear();
        self.segments.clear();
        self.runs.clear();
    }

    /// Takes the buffer at a place out, and gives the PDU of its earliest segment at the beginning of the unit.
    fn take_out(&mut self, place: usize) -> Option<View>
        requires { place < length self.old.openings }
        ensures stands { (buffers : List (Buffer Extent)) (key : Key) → Stands self.old buffers
            → IsAt self.old place key
            → Stands self.new (buffer.without key buffers) }
        ensures first { (buffers : List (Buffer Extent)) (taken : Buffer Extent) → Stands self.old buffers
            → IsAt self.old place taken.key
            → buffer.buffer_of taken.key buffers ≡ Some taken → result ≡ buffer.first_carried taken }
        ensures slots { SlotsStay self.old self.new }
        ensures limits { self.new.limits ≡ self.old.limits }
    {
        let first = take_all(&mut self.segments, self.runs.group(place));
        self.runs.remove(place);
        self.openings.remove(place);
        first
    }
}

/// Takes the segments out that fill some runs, and gives the PDU of the one that fills the first place.
fn take_all(segments: &mut Segments, mut runs: Group<'_>) -> Option<View>
    requires { AllByRecursion (λ run. IsWithin (length segments.old.entries) run.by) runs }
    ensures entries { segments.new.entries ≡ emptied_by runs.entry segments.old.entries }
    ensures first { result ≡ option_map (λ segment. segment.pdu) (segment_by (first_by runs.entry) segments.old.entries) }
    ensures room { segments.new.room ≡ segments.old.room }
{
    let first = runs.next()?;
    let taken = segments.take(first.by);
    take_each(segments, runs);
    Some(taken?.pdu)
}

/// Takes the segments out that fill some runs.
fn take_each(segments: &mut Segments, mut runs: Group<'_>)
    requires { AllByRecursion (λ run. IsWithin (length segments.old.entries) run.by) runs }
    ensures entries { segments.new.entries ≡ emptied_by runs.entry segments.old.entries }
    ensures room { segments.new.room ≡ segments.old.room }
{
    while let Some(run) = runs.next() {
        segments.take(run.by);
    }
}

/// Makes the runs of each opening anew, from its segments.
fn reindex(runs: &mut Runs, openings: &Openings, entries: &[Option<Segment>])
    requires kept { MayBeIndexed openings.now.list entries.now }
    requires slots { length openings.now.list ≤ runs.old.slots }
    requires room { 2 * length (present entries.now) + length openings.now.list ≤ runs.old.room }
    ensures index { IsIndexOf entries.now openings.now.list runs.new.groups }
    ensures slots { runs.old.slots ≤ runs.new.slots }
    ensures room { runs.old.room ≤ runs.new.room }
{
    runs.clear();
    open_all(runs, openings);
    fill_all(runs, openings, entries);
}

/// Opens each unit, with all its places unfilled.
fn open_all(runs: &mut Runs, openings: &Openings)
    requires empty { runs.old.groups ≡ [] }
    requires shaped { AllByRecursion (λ opening. opening.shape.head_len < opening.shape.total) openings.now.list }
    requires slots { length openings.now.list ≤ runs.old.slots }
    requires room { length openings.now.list ≤ runs.old.room }
    ensures index { IsIndexOf [] openings.now.list runs.new.groups }
    ensures slots { runs.old.slots ≤ runs.new.slots }
    ensures room { runs.old.room ≤ runs.new.room }
{
    for place in 0..openings.len() {
        runs.open(openings.at(place).shape.data_len());
    }
}

/// Fills the places of each segment, in the order in which they came.
fn fill_all(runs: &mut Runs, openings: &Openings, entries: &[Option<Segment>])
    requires kept { MayBeIndexed openings.now.list entries.now }
    requires index { IsIndexOf [] openings.now.list runs.old.groups }
    requires room { 2 * length (present entries.now) + length openings.now.list ≤ runs.old.room }
    ensures index { IsIndexOf entries.now openings.now.list runs.new.groups }
    ensures slots { runs.old.slots ≤ runs.new.slots }
    ensures room { runs.old.room ≤ runs.new.room }
{
    for (index, entry) in entries.iter().enumerate() {
        fill_entry(runs, openings, entry, index as u16);
    }
}

/// Fills the places of the segment in an entry, if it has one.
fn fill_entry(runs: &mut Runs, openings: &Openings, entry: &Option<Segment>, by: u16)
    requires distinct { AllByRecursion (λ opening. openings_of opening.key openings.now.list ≡ 1) openings.now.list }
    requires owned { IfSome entry.now (λ segment. openings_of segment.key openings.now.list ≡ 1) }
    requires came { IfSome entry.now MayCome }
    requires number { length runs.old.groups ≡ length openings.now.list }
    requires order { (slot : ℕ) (group : List Run) → slice_get runs.old.groups slot ≡ Some group → AreInOrder group }
    requires room { IfSome entry.now (λ _. total_runs runs.old.groups + 2 ≤ runs.old.room) }
    ensures index { (before : List (Option Segment)) → length before ≡ by → IsNext before entry.now openings.now.list
        → IsIndexOf before openings.now.list runs.old.groups → IsIndexOf (before ++ entry.now ∷ []) openings.now.list runs.new.groups }
    ensures slots { runs.old.slots ≤ runs.new.slots }
    ensures room { runs.old.room ≤ runs.new.room }
{
    let Some(segment) = entry else {
        return;
    };
    let Some(place) = openings.place_of(&segment.key) else {
        unreachable!()
    };
    runs.fill(place, segment.offset, segment.end(), by);
}

/// Takes the opening of a key at a place out, if no segment has the key.
fn close_empty(openings: &mut Openings, place: usize, entries: &[Option<Segment>], key: &Key)
    requires { place < length openings.old.list }
    ensures closed { segments_of key.now (present entries.now) ≡ [] → AreWithout place openings.old openings.new }
    ensures open { segments_of key.now (present entries.now) ≢ [] → openings.new ≡ openings.old }
    ensures room { openings.old.room ≤ openings.new.room }
{
    if last_of(entries, key).is_none() {
        openings.remove(place);
    }
}

/// The place of the opening with the earliest deadline, if that isn't above a moment, the first of equals.
fn due_place(openings: &mut Openings, now: u64) -> Option<usize>
    ensures none { IfNone result (All (λ opening. now < opening.deadline) openings.old.list) }
    ensures due { IfSome result (λ place. (opening : Opening) × (slice_get openings.old.list place ≡ Some opening)
        × (opening.deadline ≤ now) × All (λ other. (opening.deadline ≤ other.deadline)) openings.old.list
        × All (λ other. opening.deadline < other.deadline) (take place openings.old.list)) }
    ensures same { openings.new ≡ openings.old }
{
    if openings.is_quiet(now) {
        return None;
    }
    let place = soonest_place(openings)?;
    let deadline = openings.at(place).deadline;
    openings.set_quiet_until(deadline);
    if deadline <= now { Some(place) } else { None }
}

/// The place of the opening with the earliest deadline, the first of equals.
fn soonest_place(openings: &Openings) -> Option<usize>
    ensures none { IfNone result (openings.now.list ≡ []) }
    ensures soonest { IfSome result (IsSoonest openings.now.list) }
{
    if let Some(place) = openings.first_to_end() {
        return Some(place);
    }
    let mut found = None;
    for place in 0..openings.len() {
        let deadline = openings.at(place).deadline;
        if is_sooner(openings, found, deadline) {
            found = Some(place);
        }
    }
    found
}

/// Whether a deadline is earlier than that of the opening found so far, if one is found.
fn is_sooner(openings: &Openings, found: Option<usize>, deadline: u64) -> bool
    requires { IfSome found (λ place. place < length openings.now.list) }
    ensures { MatchOption found (result ≡ true) (λ place. (opening : Opening) → slice_get openings.now.list place ≡ Some opening
        → result ≡ nat_lt deadline opening.deadline) }
{
    match found {
        Some(place) => deadline < openings.at(place).deadline,
        None => true,
    }
}
