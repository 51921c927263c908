//! How many pages each unit has, and where they begin.
ghost use Rattle.std.specs.Prelude.{◌≡◌, ◌+◌, ◌<◌, ◌≤◌, ◌^◌, [], ◌∷◌, ◌++◌, length, sum, take, IfOk, Some, slice_get, slice_set};
ghost use Rattle.std.specs.List.{remove};
ghost use Rattle.system_tables.specs.Reassembly.Counts.{starts_from};

use pdus::nsap::base::NoMemory;
use std::alloc::Global;
use std::marker::Model;

/// How many pages each unit has, where the pages of all units stand in one list.
///
/// A contract sees the counts, and for how many there is room.
#[derive(Drop)]
pub(crate) struct Counts {
    counts: Vec<usize>,
    /// Where the pages of each unit begin: behind those of all units before it.
    starts: Vec<usize>,
}

impl Model for Counts {
    ghost use Rattle.std.specs.Prelude.{◌≡◌, min, vec_capacity};
    ghost use Rattle.system_tables.specs.Reassembly.Counts.{CountsState, starts_from};

    ghost Value = { CountsState };

    ghost view = { λ c. record { items = c.counts.items; room = min (vec_capacity c.counts) (vec_capacity c.starts) } };

    ghost invariant = { λ c. c.starts.items ≡ starts_from 0 c.counts.items };
}

impl Counts {
    /// None, and room for so many.
    ///
    /// # Errors
    ///
    /// `NoMemory`.
    pub(crate) fn new(alloc: Global, room: usize) -> Result<Counts, NoMemory>
        ensures none { IfOk result (λ counts. counts.items ≡ []) }
        ensures room { IfOk result (λ counts. room ≤ counts.room) }
    {
        let Ok(counts) = Vec::with_capacity(alloc, room) else {
            return Err(NoMemory);
        };
        let Ok(starts) = Vec::with_capacity(alloc, room) else {
            return Err(NoMemory);
        };
        Ok(Counts { counts, starts })
    }

    /// How many pages a unit has.
    pub(crate) fn count_at(&self, unit: usize) -> usize
        requires { unit < length self.now.items }
        ensures { slice_get self.now.items unit ≡ Some result }
    {
        self.counts[unit]
    }

    /// How many pages the units before one have.
    pub(crate) fn start_at(&self, unit: usize) -> usize
        requires { unit < length self.now.items }
        ensures { result ≡ sum (take unit self.now.items) }
    {
        self.starts[unit]
    }

    /// Adds a unit behind so many pages of the others.
    pub(crate) fn push(&mut self, start: usize, count: usize)
        requires start { start ≡ sum self.old.items }
        requires room { length self.old.items < self.old.room }
        ensures items { self.new.items ≡ self.old.items ++ count ∷ [] }
        ensures room { self.old.room ≤ self.new.room }
    {
        let Ok(()) = self.counts.push(count) else {
            unreachable!()
        };
        let Ok(()) = self.starts.push(start) else {
            unreachable!()
        };
    }

    /// Gives a unit another count.
    pub(crate) fn set(&mut self, unit: usize, count: usize)
        requires unit { unit < length self.old.items }
        requires few { sum (slice_set self.old.items unit count) < 2 ^ 64 }
        ensures items { self.new.items ≡ slice_set self.old.items unit count }
        ensures room { self.old.room ≤ self.new.room }
    {
        if self.counts[unit] == count {
            return;
        }
        self.counts[unit] = count;
        let start = self.starts[unit];
        set_starts(&self.counts, &mut self.starts, unit, start);
    }

    /// Takes a unit out, and gives its count.
    pub(crate) fn remove(&mut self, unit: usize) -> usize
        requires unit { unit < length self.old.items }
        requires few { sum self.old.items < 2 ^ 64 }
        ensures count { slice_get self.old.items unit ≡ Some result }
        ensures items { self.new.items ≡ remove self.old.items unit }
        ensures room { self.old.room ≤ self.new.room }
    {
        let start = self.starts[unit];
        let count = self.counts.remove(unit);
        self.starts.truncate(self.counts.len());
        set_starts(&self.counts, &mut self.starts, unit, start);
        count
    }

    /// Takes all out.
    pub(crate) fn clear(&mut self)
        ensures items { self.new.items ≡ [] }
        ensures room { self.old.room ≤ self.new.room }
    {
        self.counts.clear();
        self.starts.clear();
    }
}

/// Sets where the pages of each unit begin from one on, which begins at `start`.
fn set_starts(counts: &[usize], starts: &mut [usize], unit: usize, start: usize)
    requires number { length starts.old ≡ length counts.now }
    requires unit { unit ≤ length counts.now }
    requires start { start ≡ sum (take unit counts.now) }
    requires before { take unit starts.old ≡ take unit (starts_from 0 counts.now) }
    requires few { sum counts.now < 2 ^ 64 }
    ensures { starts.new ≡ starts_from 0 counts.now }
{
    let mut start = start;
    for at in unit..counts.len() {
        starts[at] = start;
        start += counts[at];
    }
}
