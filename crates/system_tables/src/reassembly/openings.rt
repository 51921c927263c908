//! Buffers that are open, each in a slot that stays its own until it is taken out.
ghost use Rattle.std.specs.Prelude.{◌≡◌, ◌==◌, ◌+◌, ◌<◌, ◌≤◌, ◌^◌, ℕ, [], ◌∷◌, ◌++◌, length, take, true, Some, IfOk, IfSome, slice_get};
ghost use Rattle.std.specs.List.{AllByRecursion, position_from};
ghost use Rattle.slab.specs.Slab.{get};
ghost use Rattle.system_tables.specs.Reassembly.Offered.{openings_of};
ghost use Rattle.system_tables.specs.Reassembly.Openings.{AreWithout, IsSoonest, ends_at, is_of};
ghost use Rattle.system_tables.specs.Reassembly.State.{place_of};

use crate::reassembly::marks::Marks;
use crate::reassembly::segment::{Key, Shape};
use pdus::nsap::base::NoMemory;
use slab::Slab;
use std::alloc::Global;
use std::marker::Model;

/// A buffer that is open.
#[derive(Clone, Copy)]
pub(crate) struct Opening {
    pub(crate) key: Key,
    pub(crate) shape: Shape,
    /// The moment from which its time has ended.
    pub(crate) deadline: u64,
}

/// The open buffers, in the order of their opening.
///
/// A contract sees the openings and their slots, both in that order, and for how many there is room.
#[derive(Drop)]
pub(crate) struct Openings {
    buffers: Slab<Opening>,
    /// The slots that are taken, in the order of opening.
    order: Vec<usize>,
    /// Those of the openings' keys.
    marks: Marks,
    /// A moment before which no buffer's time ends.
    quiet_until: u64,
}

impl Model for Openings {
    ghost use Rattle.std.specs.Prelude.{◌≤◌, min, vec_capacity};
    ghost use Rattle.std.specs.List.{AllByRecursion};
    ghost use Rattle.system_tables.specs.Reassembly.Marks.{AreCounted};
    ghost use Rattle.system_tables.specs.Reassembly.Openings.{AreTaken, OpeningsState, openings_in};

    ghost Value = { OpeningsState };

    ghost view = { λ o. record { list = openings_in o.buffers o.order.items; slots = o.order.items; room = min o.buffers.capacity (vec_capacity o.order) } };

    ghost invariant = { λ o. AreTaken o.buffers o.order.items × AreCounted (openings_in o.buffers o.order.items) o.marks
        × AllByRecursion (λ opening. o.quiet_until ≤ opening.deadline) (openings_in o.buffers o.order.items) };
}

impl Openings {
    /// None, and room for so many.
    ///
    /// # Errors
    ///
    /// `NoMemory`.
    pub(crate) fn new(alloc: Global, room: u16) -> Result<Openings, NoMemory>
        ensures none { IfOk result (λ openings. openings.list ≡ []) }
        ensures no_slots { IfOk result (λ openings. openings.slots ≡ []) }
        ensures room { IfOk result (λ openings. room ≤ openings.room) }
    {
        let Ok(buffers) = Slab::with_capacity(alloc, usize::from(room)) else {
            return Err(NoMemory);
        };
        let Ok(order) = Vec::with_capacity(alloc, usize::from(room)) else {
            return Err(NoMemory);
        };
        let marks = Marks::new(alloc, room)?;
        Ok(Openings {
            buffers,
            order,
            marks,
            quiet_until: 0,
        })
    }

    /// How many there are.
    pub(crate) fn len(&self) -> usize
        ensures openings { result ≡ length self.now.list }
        ensures slots { result ≡ length self.now.slots }
    {
        self.order.len()
    }

    /// The opening at a place.
    pub(crate) fn at(&self, place: usize) -> &Opening
        requires { place < length self.now.list }
        ensures opening { slice_get self.now.list place ≡ Some result.now }
        ensures slots { length self.now.slots ≡ length self.now.list }
    {
        let slot = self.order[place];
        let Some(opening) = self.buffers.get(slot) else {
            unreachable!()
        };
        opening
    }

    /// The slot of the opening at a place.
    pub(crate) fn slot_at(&self, place: usize) -> usize
        requires { place < length self.now.list }
        ensures { slice_get self.now.slots place ≡ Some result }
    {
        self.order[place]
    }

    /// The place of the opening in a slot.
    pub(crate) fn place_at(&self, slot: usize) -> usize
        requires { (place : ℕ) × (slice_get self.now.slots place ≡ Some slot) }
        ensures { (place : ℕ) → slice_get self.now.slots place ≡ Some slot → result ≡ place }
    {
        let place = self.likely_place(slot);
        if self.has_slot(place, slot) {
            return place;
        }
        let Some(place) = place_at(&self.order, slot) else {
            unreachable!()
        };
        place
    }

    /// The place at which to look for a slot first.
    fn likely_place(&self, slot: usize) -> usize {
        match self.buffers.get(slot) {
            Some(opening) => self.marks.place_of(&opening.key),
            None => 0,
        }
    }

    /// Whether a slot stands at a place, and so at no other.
    fn has_slot(&self, place: usize, slot: usize) -> bool
        ensures { result ≡ true → (at : ℕ) → slice_get self.now.slots at ≡ Some slot → place ≡ at }
    {
        match self.order.get(place) {
            Some(other) => *other == slot,
            None => false,
        }
    }

    /// The place of the opening of a key.
    pub(crate) fn place_of(&self, key: &Key) -> Option<usize>
        requires { AllByRecursion (λ opening. openings_of opening.key self.now.list ≡ 1) self.now.list }
        ensures { result ≡ place_of key.now self.now.list }
    {
        if self.marks.count_of(key) == 0 {
            return None;
        }
        let place = self.marks.place_of(key);
        if self.is_at(place, key) {
            return Some(place);
        }
        place_of(&self.buffers, &self.order, key)
    }

    /// Whether an opening of a key stands at a place.
    fn is_at(&self, place: usize, key: &Key) -> bool
        ensures { result ≡ is_of key.now (slice_get self.now.list place) }
    {
        match self.order.get(place) {
            Some(slot) => is_of(&self.buffers, *slot, key),
            None => false,
        }
    }

    /// Adds an opening at the end, and gives its slot, which no other has.
    pub(crate) fn push(&mut self, opening: Opening) -> usize
        requires room { length self.old.list < self.old.room }
        requires few { length self.old.list + 1 < 2 ^ 16 }
        ensures list { self.new.list ≡ self.old.list ++ opening ∷ [] }
        ensures slots { self.new.slots ≡ self.old.slots ++ result ∷ [] }
        ensures room { self.old.room ≤ self.new.room }
    {
        self.marks.add(&opening.key, self.order.len());
        self.quiet_until = self.quiet_until.min(opening.deadline);
        let slot = self.buffers.insert_reserved(opening);
        let Ok(()) = self.order.push(slot) else {
            unreachable!()
        };
        slot
    }

    /// Takes the opening at a place out.
    pub(crate) fn remove(&mut self, place: usize) -> Opening
        requires { place < length self.old.list }
        ensures opening { slice_get self.old.list place ≡ Some result }
        ensures others { AreWithout place self.old self.new }
        ensures room { self.old.room ≤ self.new.room }
    {
        let slot = self.order.remove(place);
        let opening = self.buffers.remove(slot);
        self.marks.subtract(&opening.key);
        opening
    }

    /// Takes all out.
    pub(crate) fn clear(&mut self)
        ensures none { self.new.list ≡ [] }
        ensures no_slots { self.new.slots ≡ [] }
        ensures room { self.old.room ≤ self.new.room }
    {
        self.buffers.clear();
        self.order.clear();
        self.marks.clear();
    }

    /// Whether it is plain that the time of none has ended at a moment.
    pub(crate) fn is_quiet(&self, now: u64) -> bool
        ensures { result ≡ true → AllByRecursion (λ opening. now < opening.deadline) self.now.list }
    {
        now < self.quiet_until
    }

    /// The place of the first opening whose time ends at the moment before which no time ends.
    pub(crate) fn first_to_end(&self) -> Option<usize>
        ensures { IfSome result (IsSoonest self.now.list) }
    {
        first_at(&self.buffers, &self.order, self.quiet_until)
    }

    /// Notes that no time ends before a moment.
    pub(crate) fn set_quiet_until(&mut self, moment: u64)
        requires { AllByRecursion (λ opening. moment ≤ opening.deadline) self.old.list }
        ensures { self.new ≡ self.old }
    {
        self.quiet_until = moment;
    }
}

/// The place of the first slot that has an opening whose time ends at a moment.
fn first_at(buffers: &Slab<Opening>, order: &[usize], moment: u64) -> Option<usize>
    ensures { result ≡ position_from (λ slot. ends_at moment (get buffers.now slot)) 0 order.now }
{
    order
        .iter()
        .position(|slot| ends_at(buffers, *slot, moment))
}

/// Whether a slot has an opening whose time ends at a moment.
fn ends_at(buffers: &Slab<Opening>, slot: usize, moment: u64) -> bool
    ensures { result ≡ ends_at moment (get buffers.now slot) }
{
    match buffers.get(slot) {
        Some(opening) => opening.deadline == moment,
        None => false,
    }
}

/// The place of a slot.
fn place_at(order: &[usize], slot: usize) -> Option<usize>
    ensures { result ≡ position_from (λ other. other == slot) 0 order.now }
{
    order.iter().position(|other| *other == slot)
}

/// The place of the slot that has an opening of a key.
fn place_of(buffers: &Slab<Opening>, order: &[usize], key: &Key) -> Option<usize>
    ensures { result ≡ position_from (λ slot. is_of key.now (get buffers.now slot)) 0 order.now }
{
    order.iter().position(|slot| is_of(buffers, *slot, key))
}

/// Whether a slot has an opening of a key.
fn is_of(buffers: &Slab<Opening>, slot: usize, key: &Key) -> bool
    ensures { result ≡ is_of key.now (get buffers.now slot) }
{
    match buffers.get(slot) {
        Some(opening) => opening.key.is(key),
        None => false,
    }
}
