//! Kept segments, in the order in which they came.
ghost use Rattle.std.specs.Prelude.{◌≡◌, ◌≢◌, ◌+◌, ◌<◌, ◌≤◌, ◌^◌, ℕ, Option, [], ◌∷◌, ◌++◌, if◌then◌else◌, length, nat_le, None, Some, IfNone, IfOk, IfSome, slice_get, slice_set, vec_capacity};
ghost use Rattle.system_tables.specs.Reassembly.Ending.{without_last};
ghost use Rattle.system_tables.specs.Reassembly.Entries.{IsWithin, emptied_at, full, inside, is_entry_of, places_present, present, segment_by};
ghost use Rattle.system_tables.specs.Reassembly.Offered.{total_size};
ghost use Rattle.system_tables.specs.Reassembly.State.{segments_of};

use crate::reassembly::segment::{Key, Segment};
use pdus::nsap::base::NoMemory;
use std::alloc::Global;
use std::marker::Model;

/// Kept segments, each in an entry of its own. One that is taken out leaves its entry empty, so that the others keep their
/// indices until the empty entries are closed up.
///
/// A contract sees the entries, and for how many there is room.
#[derive(Drop)]
pub(crate) struct Segments {
    entries: Vec<Option<Segment>>,
    /// The most entries.
    room: usize,
    /// How many segments there are.
    kept: usize,
    /// The octets of the whole frames in which they came.
    held: u32,
}

impl Model for Segments {
    ghost use Rattle.std.specs.Prelude.{◌≡◌, ◌≤◌, length, vec_capacity};
    ghost use Rattle.system_tables.specs.Reassembly.Entries.{EntriesState, present};
    ghost use Rattle.system_tables.specs.Reassembly.Offered.{total_size};

    ghost Value = { EntriesState };

    ghost view = { λ s. record { entries = s.entries.items; room = s.room } };

    ghost invariant = { λ s. (s.kept ≡ length (present s.entries.items)) × (s.held ≡ total_size (present s.entries.items))
        × (s.room ≤ vec_capacity s.entries) };
}

impl Segments {
    /// None, and room for so many entries.
    ///
    /// # Errors
    ///
    /// `NoMemory`.
    pub(crate) fn new(alloc: Global, room: usize) -> Result<Segments, NoMemory>
        ensures { IfOk result (λ segments. segments ≡ record { entries = []; room = room }) }
    {
        let Ok(entries) = Vec::with_capacity(alloc, room) else {
            return Err(NoMemory);
        };
        Ok(Segments {
            entries,
            room,
            kept: 0,
            held: 0,
        })
    }

    /// How many segments there are.
    pub(crate) fn len(&self) -> usize
        ensures { result ≡ length (present self.now.entries) }
    {
        self.kept
    }

    /// The octets of all frames in which they came.
    pub(crate) fn held(&self) -> u32
        ensures { result ≡ total_size (present self.now.entries) }
    {
        self.held
    }

    /// The entries, empty ones among them.
    pub(crate) fn entries(&self) -> &[Option<Segment>]
        ensures { result.now ≡ self.now.entries }
    {
        &self.entries
    }

    /// Whether there are as many entries as there may be.
    pub(crate) fn is_full(&self) -> bool
        ensures { result ≡ nat_le self.now.room (length self.now.entries) }
    {
        self.entries.len() >= self.room
    }

    /// Adds a segment, in an entry at the end.
    pub(crate) fn push(&mut self, segment: Segment)
        requires room { length self.old.entries < self.old.room }
        requires few { length self.old.entries < 2 ^ 16 }
        requires size { total_size (present self.old.entries) + length segment.pdu.frame < 2 ^ 32 }
        ensures entries { self.new.entries ≡ self.old.entries ++ Some segment ∷ [] }
        ensures room { self.new.room ≡ self.old.room }
    {
        self.kept += 1;
        self.held += segment.pdu.frame_len() as u32;
        let Ok(()) = self.entries.push(Some(segment)) else {
            unreachable!()
        };
    }

    /// Takes the segment at an index out, where it is there.
    pub(crate) fn take_at(&mut self, index: usize) -> Option<Segment>
        requires { index < length self.old.entries }
        ensures taken { result ≡ inside (slice_get self.old.entries index) }
        ensures entries { self.new.entries ≡ slice_set self.old.entries index None }
        ensures room { self.new.room ≡ self.old.room }
    {
        let segment = self.entries[index].take()?;
        self.kept -= 1;
        self.held -= segment.pdu.frame_len() as u32;
        Some(segment)
    }

    /// The same, where there is an index.
    pub(crate) fn take(&mut self, by: Option<u16>) -> Option<Segment>
        requires { IsWithin (length self.old.entries) by }
        ensures taken { result ≡ segment_by by self.old.entries }
        ensures entries { self.new.entries ≡ emptied_at by self.old.entries }
        ensures room { self.new.room ≡ self.old.room }
    {
        self.take_at(usize::from(by?))
    }

    /// Takes the last segment of a key out, if there is one.
    pub(crate) fn take_last(&mut self, key: &Key)
        ensures present { present self.new.entries ≡ without_last key.now (present self.old.entries) }
        ensures entries { (by : Option ℕ) × (self.new.entries ≡ emptied_at by self.old.entries) }
        ensures room { self.new.room ≡ self.old.room }
    {
        if let Some(last) = last_of(&self.entries, key) {
            self.take_at(last);
        }
    }

    /// Takes the empty entries out, and writes down where the segment of each other one stands then.
    pub(crate) fn close_up(&mut self, names: &mut Vec<u16>)
        requires few { length self.old.entries < 2 ^ 16 }
        requires room { length self.old.entries ≤ vec_capacity names.old }
        ensures entries { self.new.entries ≡ full (present self.old.entries) }
        ensures names { names.new.items ≡ places_present 0 self.old.entries }
        ensures room { self.new.room ≡ self.old.room }
        ensures capacity { vec_capacity names.old ≤ vec_capacity names.new }
    {
        places_present(names, &self.entries);
        self.entries.retain(|entry| entry.is_some());
    }

    /// Takes all out.
    pub(crate) fn clear(&mut self)
        ensures entries { self.new.entries ≡ [] }
        ensures room { self.new.room ≡ self.old.room }
    {
        self.entries.clear();
        self.kept = 0;
        self.held = 0;
    }
}

/// Writes down where the segment of each entry stands once the empty ones are taken out.
fn places_present(names: &mut Vec<u16>, entries: &[Option<Segment>])
    requires few { length entries.now < 2 ^ 16 }
    requires room { length entries.now ≤ vec_capacity names.old }
    ensures names { names.new.items ≡ places_present 0 entries.now }
    ensures capacity { vec_capacity names.old ≤ vec_capacity names.new }
{
    names.clear();
    let mut next = 0;
    for entry in entries {
        let Ok(()) = names.push(next) else {
            unreachable!()
        };
        next = place_behind(next, entry.is_some());
    }
}

/// The place behind that of an entry, which is its own where it is empty.
fn place_behind(place: u16, is_there: bool) -> u16
    requires { place + 1 < 2 ^ 16 }
    ensures { result ≡ (if is_there then place + 1 else place) }
{
    if is_there { place + 1 } else { place }
}

/// The index of the last segment of a key.
pub(crate) fn last_of(entries: &[Option<Segment>], key: &Key) -> Option<usize>
    ensures none { IfNone result (segments_of key.now (present entries.now) ≡ []) }
    ensures some { IfSome result (λ _. segments_of key.now (present entries.now) ≢ []) }
    ensures last { IfSome result (λ index. (index < length entries.now)
        × (present (slice_set entries.now index None) ≡ without_last key.now (present entries.now))) }
{
    for index in (0..entries.len()).rev() {
        if is_of(&entries[index], key) {
            return Some(index);
        }
    }
    None
}

/// Whether an entry has a segment of a key.
fn is_of(entry: &Option<Segment>, key: &Key) -> bool
    ensures { result ≡ is_entry_of key.now entry.now }
{
    match entry {
        Some(segment) => segment.key.is(key),
        None => false,
    }
}
