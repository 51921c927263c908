//! Entries that stay where they are.
ghost use Rattle.std.specs.Prelude.{◌≡◌, ◌≢◌, ◌<◌, ◌≤◌, ◌+◌, ◌-◌, ◌^◌, ℕ, List, [], ◌∷◌, nat_le, insert, length, remove, IfOk, IfSome, Some, slice_get, slice_set, vec_capacity};
ghost use Rattle.std.specs.List.{AllByRecursion};
ghost use Rattle.std.specs.Option.{option_map};
ghost use Rattle.system_tables.specs.EsisTables.Slots.{AreTaken};
ghost use Rattle.system_tables.specs.EsisTables.State.{key_in};

use super::Entry;
use pdus::nsap::Address;
use pdus::nsap::base::NoMemory;
use std::alloc::Global;
use std::marker::Model;
use std::simd::prelude::*;

/// An entry that begins where a line of a processor's cache does, so that it lies in one line and not in two: a hearing of
/// a known key then waits for one line of the memory.
#[derive(Drop)]
struct InLine {
    entry: Entry,
    _start: [LineStart; 0],
}

/// What stands only where a line of a cache begins. No entry has one: room for none puts it at such a place.
#[derive(Clone, Copy)]
struct LineStart {
    _octets: Simd<u8, 64>,
}

impl Model for InLine {
    ghost use Rattle.system_tables.specs.declared.esis_tables.table.Entry.{Entry};

    ghost Value = { Entry };

    ghost view = { λ l. l.entry };
}

impl InLine {
    /// An entry, put where a line begins.
    fn of(entry: Entry) -> InLine
        ensures { result ≡ entry }
    {
        InLine { entry, _start: [] }
    }
}

/// The entries of a table, in their order.
///
/// Each stays in its slot until it is taken out: where one comes or goes, the numbers of the slots
/// behind it move, and no entry. A contract sees the entries in their order, and how many there may
/// be.
#[derive(Drop)]
pub(super) struct Slots {
    limit: u16,
    /// By slot. Where a slot is free, that which was taken out last stands there still.
    entries: Vec<InLine>,
    /// The slots that are taken, in the order of their entries.
    order: Vec<u16>,
    /// The slots that are free.
    free: Vec<u16>,
}

impl Model for Slots {
    ghost use Rattle.std.specs.Prelude.{◌<◌, ◌≤◌, ◌^◌, length, vec_capacity};
    ghost use Rattle.system_tables.specs.EsisTables.Slots.{AreTaken, entries_in};
    ghost use Rattle.system_tables.specs.EsisTables.State.{TableState};

    ghost Value = { TableState };

    ghost view = { λ s. record { limit = s.limit; entries = entries_in s.entries.items s.order.items } };

    // Room for all that the limit allows was reserved when the slots were made.
    ghost invariant = { λ s. AreTaken s.entries.items s.order.items s.free.items
        × (length s.entries.items ≤ s.limit) × (s.limit < 2 ^ 16)
        × (s.limit ≤ vec_capacity s.entries)
        × (s.limit ≤ vec_capacity s.order) × (s.limit ≤ vec_capacity s.free) };
}

impl Slots {
    /// No entries, and room for as many as there may be.
    ///
    /// # Errors
    ///
    /// `NoMemory`.
    pub(super) fn new(alloc: Global, limit: u16) -> Result<Slots, NoMemory>
        ensures limit { IfOk result (λ slots. slots.limit ≡ limit) }
        ensures empty { IfOk result (λ slots. slots.entries ≡ []) }
    {
        Ok(Slots {
            limit,
            entries: with_room(alloc, limit)?,
            order: with_room(alloc, limit)?,
            free: with_room(alloc, limit)?,
        })
    }

    /// How many entries there are.
    pub(super) fn len(&self) -> u16
        ensures { result ≡ length self.now.entries }
    {
        self.order.len() as u16
    }

    /// Whether there are as many as there may be.
    pub(super) fn is_full(&self) -> bool
        ensures full { result ≡ nat_le self.now.limit (length self.now.entries) }
        ensures within { length self.now.entries ≤ self.now.limit }
    {
        self.order.len() >= usize::from(self.limit)
    }

    /// The entry at a place.
    pub(super) fn at(&self, place: usize) -> &Entry
        requires { place < length self.now.entries }
        ensures { slice_get self.now.entries place ≡ Some result.now }
    {
        let slot = usize::from(self.order[place]);
        &self.entries[slot].entry
    }

    /// The key of the entry at a place.
    pub(super) fn key_at(&self, place: usize) -> &Address
        requires { place < length self.now.entries }
        ensures { option_map key_in (slice_get self.now.entries place) ≡ Some result.now }
    {
        let slot = usize::from(self.order[place]);
        &self.entries[slot].entry.key
    }

    /// The key of the entry at a place, if it stands in this slot.
    pub(super) fn key_in_slot(&self, place: usize, slot: u16) -> Option<&Address>
        ensures { IfSome result (λ key. (place < length self.now.entries)
            × (option_map key_in (slice_get self.now.entries place) ≡ Some key.now)) }
    {
        if place >= self.order.len() {
            return None;
        }
        let taken = self.order[place];
        if taken != slot {
            return None;
        }
        Some(&self.entries[usize::from(slot)].entry.key)
    }

    /// Puts an entry in at a place. Tells its slot.
    pub(super) fn put(&mut self, place: usize, entry: Entry) -> u16
        requires place { place ≤ length self.old.entries }
        requires room { length self.old.entries < self.old.limit }
        ensures entries { self.new.entries ≡ insert self.old.entries place entry }
        ensures limit { self.new.limit ≡ self.old.limit }
    {
        let slot = fill(&mut self.entries, &mut self.free, InLine::of(entry));
        let Ok(()) = self.order.insert(place, slot) else {
            unreachable!()
        };
        slot
    }

    /// Puts an entry in the place of another. Tells its slot.
    pub(super) fn set(&mut self, place: usize, entry: Entry) -> u16
        requires { place < length self.old.entries }
        ensures entries { self.new.entries ≡ slice_set self.old.entries place entry }
        ensures limit { self.new.limit ≡ self.old.limit }
    {
        let taken = self.order[place];
        let slot = usize::from(taken);
        self.entries[slot] = InLine::of(entry);
        taken
    }

    /// Takes the entry at a place out.
    pub(super) fn take_out(&mut self, place: usize) -> Entry
        requires { place < length self.old.entries }
        ensures entry { slice_get self.old.entries place ≡ Some result }
        ensures entries { self.new.entries ≡ remove self.old.entries place }
        ensures limit { self.new.limit ≡ self.old.limit }
    {
        let slot = self.order.remove(place);
        let Ok(()) = self.free.push(slot) else {
            unreachable!()
        };
        self.entries[usize::from(slot)].entry
    }

    /// Takes all out.
    pub(super) fn clear(&mut self)
        ensures empty { self.new.entries ≡ [] }
        ensures limit { self.new.limit ≡ self.old.limit }
    {
        self.entries.clear();
        self.order.clear();
        self.free.clear();
    }
}

/// A list with room for so many.
fn with_room<T>(alloc: Global, most: u16) -> Result<Vec<T>, NoMemory>
    ensures empty { IfOk result (λ list. list.items ≡ []) }
    ensures room { IfOk result (λ list. most ≤ vec_capacity list) }
{
    Ok(Vec::with_capacity(alloc, usize::from(most))?)
}

/// Puts an entry into a slot that is free, or into a new one behind the others.
fn fill(entries: &mut Vec<InLine>, free: &mut Vec<u16>, entry: InLine) -> u16
    requires free { AllByRecursion (λ slot. slot < length entries.old.items) free.old.items }
    requires room { free.old.items ≡ [] → (length entries.old.items < 2 ^ 16)
        × (length entries.old.items < vec_capacity entries.old) }
    ensures there { slice_get entries.new.items result ≡ Some entry }
    ensures others { (other : ℕ) → other ≢ result
        → slice_get entries.new.items other ≡ slice_get entries.old.items other }
    ensures number { length entries.new.items
        ≡ length entries.old.items + (1 - length free.old.items) }
    ensures taken { (taken : List ℕ) → AreTaken entries.old.items taken free.old.items
        → AreTaken entries.new.items (result ∷ taken) free.new.items }
    ensures room { (vec_capacity entries.old ≤ vec_capacity entries.new)
        × (vec_capacity free.old ≤ vec_capacity free.new) }
{
    if let Some(slot) = free.pop() {
        let at = usize::from(slot);
        entries[at] = entry;
        return slot;
    }
    let slot = entries.len() as u16;
    let Ok(()) = entries.push(entry) else {
        unreachable!()
    };
    slot
}
