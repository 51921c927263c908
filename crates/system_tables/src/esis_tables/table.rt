//! The keys of one kind.
ghost use Rattle.std.specs.Prelude.{◌≡◌, ◌+◌, ◌*◌, ◌<◌, ◌≤◌, ◌-◌, ◌^◌, nat_le, insert, ℕ, List, [], ◌∷◌, not, length, map, remove, IfErr, IfNone, IfOk, IfSome, MatchOption, min, filter, None, Some, slice_get, slice_set};
ghost use Rattle.std.specs.List.{AllByRecursion, find, list_any, position_from};
ghost use Rattle.std.specs.List.Sorted.{IsSearchInRange};
ghost use Rattle.std.specs.Option.{option_map};
ghost use Rattle.system_tables.specs.declared.esis_tables.fact.TableKind.{TableKind};
ghost use Rattle.system_tables.specs.EsisTables.Fact.{Fact, has_key, hearing, is_held};
ghost use Rattle.system_tables.specs.EsisTables.Gone.{ended_keys};
ghost use Rattle.system_tables.specs.EsisTables.Keeps.{Keeps, answer_of, kept_after, without};
ghost use Rattle.system_tables.specs.EsisTables.Order.{IsRising};
ghost use Rattle.system_tables.specs.EsisTables.Numbers.{KeepTheSame, count_above, is_less_than, least_above, lowered};
ghost use Rattle.system_tables.specs.EsisTables.State.{AreWalked, IsAt, IsGap, is_kept, is_kept_at, is_later_than, is_of, key_in, latest_kept, neighbour_in, neighbour_while_kept};

use crate::esis_tables::fact::{Heard, Neighbour};
use crate::esis_tables::table::hints::Hints;
use crate::esis_tables::table::slots::Slots;
use pdus::nsap::base::NoMemory;
use pdus::nsap::{Address, Snpa};
use std::alloc::Global;
use std::cmp::Ordering;
use std::marker::Model;

mod hints;
mod slots;

/// What a table keeps of a key: what was heard of it last.
#[derive(Clone, Copy)]
struct Entry {
    key: Address,
    neighbour: Neighbour,
    /// The moment from which its time has ended.
    until: u64,
    /// The number of the hearing: what was heard later has a greater one.
    number: u64,
}

/// A walk over the first entries, of which none ends before a moment.
#[derive(Clone, Copy)]
struct Walk {
    /// How many they are.
    entries: usize,
    soonest: u64,
}

impl Walk {
    /// That over none.
    fn none() -> Walk
        ensures { result.entries ≡ 0 }
    {
        Walk {
            entries: 0,
            soonest: u64::MAX,
        }
    }

    /// What is left of it where the entry at a place comes, goes or is another.
    fn up_to(self, place: usize) -> Walk
        ensures entries { result.entries ≡ min self.entries place }
        ensures soonest { result.soonest ≡ self.soonest }
    {
        Walk {
            entries: self.entries.min(place),
            soonest: self.soonest,
        }
    }
}

/// The keys of one kind, sorted.
///
/// A contract sees what the table keeps; `Keeps` says which facts these are.
#[derive(Drop)]
pub(crate) struct Table {
    slots: Slots,
    hints: Hints,
    /// A moment before which no time of an entry ends, so that a flush before it looks at none.
    soonest: u64,
    /// How far the last flush walked, so that the next one at its moment goes on there.
    walk: Walk,
    /// The greatest number that was given.
    last: u64,
}

impl Model for Table {
    ghost use Rattle.system_tables.specs.EsisTables.State.{AreBounded, AreWalked, TableState};

    ghost Value = { TableState };

    ghost view = { λ t. t.slots };

    ghost invariant = { λ t. AreBounded t.soonest t.last t.slots.entries
        × AreWalked t.walk.entries t.walk.soonest t.slots.entries };
}

impl Table {
    /// A table that keeps nothing. It reserves all the room that it will need.
    ///
    /// # Errors
    ///
    /// `NoMemory`.
    pub(crate) fn new(alloc: Global, limit: u16) -> Result<Table, NoMemory>
        ensures limit { IfOk result (λ table. table.limit ≡ limit) }
        ensures empty { IfOk result (λ table. table.entries ≡ []) }
    {
        let slots = Slots::new(alloc, limit)?;
        let hints = Hints::new(alloc, limit)?;
        Ok(Table {
            slots,
            hints,
            soonest: u64::MAX,
            walk: Walk::none(),
            last: 0,
        })
    }

    /// Notes that the system of a key is reached at a place, for `hold` seconds from `now` on.
    pub(crate) fn hear(&mut self, now: u64, key: Address, neighbour: Neighbour, hold: u16) -> Heard
        requires { now < 2 ^ 62 }
        ensures answered { (table : TableKind) (kept : List Fact) → Keeps self.old kept
            → result ≡ answer_of self.old.limit (hearing now table key neighbour hold) kept }
        ensures keeps { (table : TableKind) (kept : List Fact) → Keeps self.old kept
            → Keeps self.new (kept_after self.old.limit (hearing now table key neighbour hold) kept) }
        ensures limit { self.new.limit ≡ self.old.limit }
    {
        if hold == 0 {
            self.forget(&key);
            return Heard::Zero;
        }
        let number = self.next_number();
        let until = end_of_hold(now, hold);
        let entry = Entry {
            key,
            neighbour,
            until,
            number,
        };
        let hint = self.hints.number_of(&key);
        match self.find(hint, &key) {
            Ok(at) => {
                self.write_over(at, entry, hint);
                Heard::Again
            }
            Err(at) => {
                if self.is_full() {
                    let entries = self.len();
                    return Heard::Full { entries };
                }
                self.put_at(at, entry, hint);
                Heard::New
            }
        }
    }

    /// Takes the entry of a key out, if there is one.
    fn forget(&mut self, key: &Address)
        ensures keeps { (kept : List Fact) → Keeps self.old kept → Keeps self.new (without key.now kept) }
        ensures limit { self.new.limit ≡ self.old.limit }
    {
        let hint = self.hints.number_of(key);
        if let Ok(at) = self.find(hint, key) {
            self.take_out(at);
        }
    }

    /// Whether the table keeps as many keys as it may.
    fn is_full(&self) -> bool
        ensures full { result ≡ nat_le self.now.limit (length self.now.entries) }
        ensures within { length self.now.entries ≤ self.now.limit }
    {
        self.slots.is_full()
    }

    /// How many keys the table keeps.
    fn len(&self) -> u16
        ensures { result ≡ length self.now.entries }
    {
        self.slots.len()
    }

    /// The entry at a place.
    fn at(&self, place: usize) -> &Entry
        requires { place < length self.now.entries }
        ensures { slice_get self.now.entries place ≡ Some result.now }
    {
        self.slots.at(place)
    }

    /// The key of the entry at a place.
    fn key_at(&self, place: usize) -> &Address
        requires { place < length self.now.entries }
        ensures { option_map key_in (slice_get self.now.entries place) ≡ Some result.now }
    {
        self.slots.key_at(place)
    }

    /// A number above those of all entries.
    ///
    /// Numbers rise by one with each hearing. Where the last one that fits was given, after 2^64 hearings, the entries are
    /// numbered anew.
    fn next_number(&mut self) -> u64
        ensures above { AllByRecursion (λ entry. entry.number < result) self.new.entries }
        ensures keeps { (kept : List Fact) → Keeps self.old kept → Keeps self.new kept }
        ensures limit { self.new.limit ≡ self.old.limit }
    {
        if self.last < u64::MAX {
            return self.last + 1;
        }
        let number = number_anew(&mut self.slots);
        self.last = number;
        self.walk = Walk::none();
        number
    }

    /// Puts an entry in at a place, with a number above those of all others.
    fn put_at(&mut self, at: usize, entry: Entry, hint: usize)
        requires place { at ≤ length self.old.entries }
        requires room { length self.old.entries < self.old.limit }
        requires above { AllByRecursion (λ other. other.number < entry.number) self.old.entries }
        ensures entries { self.new.entries ≡ insert self.old.entries at entry }
        ensures limit { self.new.limit ≡ self.old.limit }
    {
        self.soonest = self.soonest.min(entry.until);
        self.walk = self.walk.up_to(at);
        self.last = entry.number;
        let slot = self.slots.put(at, entry);
        self.hints.note(hint, at, slot);
    }

    /// Puts an entry in the place of another, with a number above those of all others.
    fn write_over(&mut self, at: usize, entry: Entry, hint: usize)
        requires place { at < length self.old.entries }
        requires above { AllByRecursion (λ other. other.number < entry.number) self.old.entries }
        ensures entries { self.new.entries ≡ slice_set self.old.entries at entry }
        ensures limit { self.new.limit ≡ self.old.limit }
    {
        self.soonest = self.soonest.min(entry.until);
        self.walk = self.walk.up_to(at);
        self.last = entry.number;
        let slot = self.slots.set(at, entry);
        self.hints.note(hint, at, slot);
    }

    /// Takes the entry at a place out.
    fn take_out(&mut self, at: usize) -> Entry
        requires { at < length self.old.entries }
        ensures entry { slice_get self.old.entries at ≡ Some result }
        ensures entries { self.new.entries ≡ remove self.old.entries at }
        ensures limit { self.new.limit ≡ self.old.limit }
    {
        self.walk = self.walk.up_to(at);
        self.slots.take_out(at)
    }

    /// Takes out the entry with the least key of those whose time has ended, and gives the key.
    #[inline(always)]
    pub(crate) fn flush(&mut self, now: u64) -> Option<Address>
        ensures flushed { (kept : List Fact) → Keeps self.old kept
            → MatchOption result (ended_keys now kept ≡ []) (λ key. ended_keys now kept ≡ key ∷ ended_keys now (without key kept)) }
        ensures keeps { (kept : List Fact) → Keeps self.old kept
            → MatchOption result (Keeps self.new kept) (λ key. Keeps self.new (without key kept)) }
        ensures held { (kept : List Fact) → Keeps self.old kept
            → IfSome result (λ key. filter (is_held now) (without key kept) ≡ filter (is_held now) kept) }
        ensures limit { self.new.limit ≡ self.old.limit }
    {
        if now < self.soonest {
            return None;
        }
        self.flush_ended(now)
    }

    /// The same, where the time of an entry may have ended.
    fn flush_ended(&mut self, now: u64) -> Option<Address>
        ensures flushed { (kept : List Fact) → Keeps self.old kept
            → MatchOption result (ended_keys now kept ≡ []) (λ key. ended_keys now kept ≡ key ∷ ended_keys now (without key kept)) }
        ensures keeps { (kept : List Fact) → Keeps self.old kept
            → MatchOption result (Keeps self.new kept) (λ key. Keeps self.new (without key kept)) }
        ensures held { (kept : List Fact) → Keeps self.old kept
            → IfSome result (λ key. filter (is_held now) (without key kept) ≡ filter (is_held now) kept) }
        ensures limit { self.new.limit ≡ self.old.limit }
    {
        let mut walk = self.walk;
        let ended = first_ended(&self.slots, now, &mut walk);
        self.walk = walk;
        let Some(at) = ended else {
            self.soonest = walk.soonest;
            return None;
        };
        Some(self.take_out(at).key)
    }

    /// Where the system of a key is reached, while what was heard of it holds.
    pub(crate) fn held(&self, now: u64, key: &Address) -> Option<Neighbour>
        ensures { IsRising key_in self.now.entries
            → result ≡ neighbour_while_kept now (find (is_of key.now) self.now.entries) }
    {
        let hint = self.hints.number_of(key);
        let Ok(at) = self.find(hint, key) else {
            return None;
        };
        let entry = self.at(at);
        if now < entry.until {
            Some(entry.neighbour)
        } else {
            None
        }
    }

    /// Where the system is reached that was heard last, of those of which what was heard holds.
    pub(crate) fn last_held(&self, now: u64) -> Option<Neighbour>
        ensures { result ≡ option_map neighbour_in (latest_kept now None self.now.entries) }
    {
        let mut latest: Option<Entry> = None;
        for at in 0..usize::from(self.len()) {
            let entry = self.at(at);
            if now < entry.until && is_later(entry, &latest) {
                latest = Some(*entry);
            }
        }
        latest.map(|entry| entry.neighbour)
    }

    /// Whether a system is reached at this address on its subnetwork, by what holds.
    pub(crate) fn is_held_at(&self, now: u64, snpa: &Snpa) -> bool
        ensures { result ≡ list_any (is_kept_at now snpa.now) self.now.entries }
    {
        for at in 0..usize::from(self.len()) {
            let entry = self.at(at);
            if now < entry.until && entry.neighbour.snpa == *snpa {
                return true;
            }
        }
        false
    }

    /// Takes all entries out.
    pub(crate) fn clear(&mut self)
        ensures limit { self.new.limit ≡ self.old.limit }
        ensures empty { self.new.entries ≡ [] }
    {
        self.slots.clear();
        self.walk = Walk::none();
    }

    /// The place of the entry of a key, or else that where it would go. The key has the hint of this number.
    fn find(&self, hint: usize, key: &Address) -> Result<usize, usize>
        ensures within { IsSearchInRange result (length self.now.entries) }
        ensures found { IfOk result (IsAt self.now.entries key.now) }
        ensures absent { IsRising key_in self.now.entries → IfErr result (IsGap self.now.entries key.now) }
    {
        let near = self.hints.at(hint);
        let place = usize::from(near.place);
        if let Some(there) = self.slots.key_in_slot(place, near.slot) {
            if *there == *key {
                return Ok(place);
            }
        }
        self.search(place, key)
    }

    /// The same, by halves, at first near a place.
    fn search(&self, near: usize, key: &Address) -> Result<usize, usize>
        ensures within { IsSearchInRange result (length self.now.entries) }
        ensures found { IfOk result (IsAt self.now.entries key.now) }
        ensures absent { IsRising key_in self.now.entries → IfErr result (IsGap self.now.entries key.now) }
    {
        let mut low = 0;
        let mut high = usize::from(self.len());
        while low < high {
            let place = place_between(low, high, near);
            match self.key_at(place).cmp(key) {
                Ordering::Less => low = place + 1,
                Ordering::Equal => return Ok(place),
                Ordering::Greater => high = place,
            }
        }
        Err(low)
    }
}

/// A place from `low` to below `high`: where nothing below is known, one near this one, and else the one in the middle.
fn place_between(low: usize, high: usize, near: usize) -> usize
    requires { low < high }
    ensures { (low ≤ result) × (result < high) }
{
    if low == 0 && near < high {
        near
    } else if near == high {
        high - 1
    } else {
        low + (high - low) / 2
    }
}

/// The moment from which a holding time has ended: a second is two ticks.
fn end_of_hold(now: u64, hold: u16) -> u64
    requires { now < 2 ^ 62 }
    ensures { result ≡ now + 2 * hold }
{
    now + 2 * u64::from(hold)
}

/// Whether an entry was heard after another, if there is one.
fn is_later(entry: &Entry, other: &Option<Entry>) -> bool
    ensures { result ≡ is_later_than entry.now other.now }
{
    match other {
        Some(other) => entry.number > other.number,
        None => true,
    }
}

/// The place of the first entry whose time has ended. The walk goes on up to it, and over all entries where there is
/// none; it begins anew where one of those before has ended.
fn first_ended(slots: &Slots, now: u64, walk: &mut Walk) -> Option<usize>
    requires { AreWalked walk.old.entries walk.old.soonest slots.now.entries }
    ensures first { result ≡ position_from (λ entry. not (is_kept now entry)) 0 slots.now.entries }
    ensures walked { AreWalked walk.new.entries walk.new.soonest slots.now.entries }
    ensures all { IfNone result (AllByRecursion (λ entry. walk.new.soonest ≤ entry.until) slots.now.entries) }
{
    let before = still_walked(*walk, now);
    let mut soonest = before.soonest;
    for at in before.entries..usize::from(slots.len()) {
        let entry = slots.at(at);
        if entry.until <= now {
            *walk = Walk {
                entries: at,
                soonest,
            };
            return Some(at);
        }
        soonest = soonest.min(entry.until);
    }
    *walk = Walk {
        entries: usize::from(slots.len()),
        soonest,
    };
    None
}

/// A walk, as long as no time of its entries has ended.
fn still_walked(walk: Walk, now: u64) -> Walk
    ensures same { now < walk.soonest → result ≡ walk }
    ensures none { walk.soonest ≤ now → result.entries ≡ 0 }
{
    if now < walk.soonest {
        walk
    } else {
        Walk::none()
    }
}

/// Numbers entries from 1 on, in the order of their numbers, and gives the next number.
fn number_anew(slots: &mut Slots) -> u64
    ensures same { KeepTheSame slots.old.entries slots.new.entries }
    ensures above { AllByRecursion (λ entry. entry.number < result) slots.new.entries }
    ensures limit { slots.new.limit ≡ slots.old.limit }
{
    let count = slots.len();
    for number in 0..count {
        close_gap(slots, u64::from(number));
    }
    u64::from(count) + 1
}

/// Lowers the numbers above a number, so that the least of them is the next one.
fn close_gap(slots: &mut Slots, number: u64)
    ensures same { KeepTheSame slots.old.entries slots.new.entries }
    ensures fewer { count_above (number + 1) slots.new.entries ≤ count_above number slots.old.entries - 1 }
    ensures limit { slots.new.limit ≡ slots.old.limit }
{
    if let Some(least) = least_above(slots, number) {
        lower(slots, number, least - number - 1);
    }
}

/// The least number above this one.
fn least_above(slots: &Slots, number: u64) -> Option<u64>
    ensures { result ≡ least_above number None slots.now.entries }
{
    let mut least: Option<u64> = None;
    for at in 0..usize::from(slots.len()) {
        let entry = slots.at(at);
        if number < entry.number && is_less(entry.number, least) {
            least = Some(entry.number);
        }
    }
    least
}

/// Whether a number is less than another, if there is one.
fn is_less(number: u64, other: Option<u64>) -> bool
    ensures { result ≡ is_less_than number other }
{
    match other {
        Some(other) => number < other,
        None => true,
    }
}

/// Lets the numbers above this one go down by so much.
fn lower(slots: &mut Slots, above: u64, by: u64)
    ensures entries { slots.new.entries ≡ map (lowered above by) slots.old.entries }
    ensures limit { slots.new.limit ≡ slots.old.limit }
{
    for at in 0..usize::from(slots.len()) {
        let entry = lowered(*slots.at(at), above, by);
        slots.set(at, entry);
    }
}

/// An entry, whose number goes down by so much where it is above this one.
fn lowered(entry: Entry, above: u64, by: u64) -> Entry
    ensures { result ≡ lowered above by entry }
{
    if above < entry.number {
        Entry {
            number: entry.number.saturating_sub(by),
            ..entry
        }
    } else {
        entry
    }
}
