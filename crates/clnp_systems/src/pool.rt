//! Data unit identifiers.
ghost use Rattle.std.specs.Prelude.{◌≡◌, ◌<◌, ◌≤◌, ◌+◌, ◌%◌, ◌^◌, [], ◌∷◌, ◌++◌, MatchResult, IfOk, OnErr, None, Some, length, slice_get, slice_set};
ghost use Rattle.clnp_machine.specs.Identifiers.{Identifiers, after_use, drawn, next, not_drawn, opening, restarted};
ghost use Rattle.clnp_systems.specs.Pool.{Stands, told};

use clnp_machine::base::NoMemory;
use std::alloc::Global;
use std::marker::Model;

/// How many identifiers there are.
const IDENTIFIERS: usize = 65_536;

/// Why no identifier is drawn.
#[derive(Clone, Copy, PartialEq, Eq)]
pub enum DrawRefusal {
    /// The next identifier was used at this moment, which isn't long enough ago.
    IdsBusy { used: u64 },
    /// The system is quiet until this moment.
    Quiet { until: u64 },
}

/// The identifiers of a system, which all its addresses share. They go round from 0 to 65,535; one is used again only
/// where `reuse` ticks have passed since its last use.
///
/// A contract sees what the pool keeps; `Stands` says which uses it stands for.
#[derive(Drop)]
pub struct IdPool {
    reuse: u16,
    quiet: u64,
    /// The moment of the last use of each identifier that was used, from 0 on.
    moments: Vec<u64>,
    next: u16,
}

impl Model for IdPool {
    ghost use Rattle.std.specs.Prelude.{◌≤◌, ◌^◌, vec_capacity};
    ghost use Rattle.clnp_systems.specs.LocalState.{PoolState};

    ghost Value = { PoolState };

    ghost view = { λ pool. record { reuse = pool.reuse; quiet = pool.quiet; moments = pool.moments.items; next = pool.next } };

    // Room for a moment of each identifier was reserved when the pool was made.
    ghost invariant = { λ pool. 2 ^ 16 ≤ vec_capacity pool.moments };
}

impl IdPool {
    /// A pool without uses, which is quiet before the moment `quiet`. It reserves all the room that it will need.
    ///
    /// # Errors
    ///
    /// `NoMemory`.
    pub fn new(alloc: Global, reuse: u16, quiet: u64) -> Result<IdPool, NoMemory>
        requires { quiet ≤ 2 ^ 62 + 16384 }
        ensures { IfOk result (λ pool. Stands pool (opening reuse quiet)) }
    {
        let Ok(moments) = Vec::with_capacity(alloc, IDENTIFIERS) else {
            return Err(NoMemory);
        };
        Ok(IdPool {
            reuse,
            quiet,
            moments,
            next: 0,
        })
    }

    /// Whether an identifier may be drawn at a moment; it draws none.
    ///
    /// # Errors
    ///
    /// Those of `draw`.
    pub fn ready(&self, now: u64) -> Result<(), DrawRefusal>
        requires { now < 2 ^ 62 }
        ensures { (ids : Identifiers) → Stands self.now ids
            → MatchResult result (λ _. not_drawn now ids ≡ None) (λ refusal. not_drawn now ids ≡ Some (told refusal)) }
    {
        let until = self.quiet;
        if now < until {
            return Err(DrawRefusal::Quiet { until });
        }
        let Some(used) = self.last_use() else {
            return Ok(());
        };
        if now < used.saturating_add(u64::from(self.reuse)) {
            return Err(DrawRefusal::IdsBusy { used });
        }
        Ok(())
    }

    /// Draws the next identifier at a moment. It takes no memory.
    ///
    /// # Errors
    ///
    /// `Quiet` exactly where the moment is before the end of the quiet time; else `IdsBusy` exactly where the next
    /// identifier was used less than `reuse` ticks ago. Nothing changes then.
    pub fn draw(&mut self, now: u64) -> Result<u16, DrawRefusal>
        requires { now < 2 ^ 62 }
        ensures answer { (ids : Identifiers) → Stands self.old ids
            → MatchResult result (λ id. (not_drawn now ids ≡ None) × (id ≡ next ids)) (λ refusal. not_drawn now ids ≡ Some (told refusal)) }
        ensures stands { (ids : Identifiers) → Stands self.old ids → Stands self.new (drawn now ids) }
        ensures same { OnErr result (self.new ≡ self.old) }
    {
        self.ready(now)?;
        Ok(self.use_next(now))
    }

    /// Forgets all uses, and is quiet for `reuse` ticks from a moment.
    pub fn restart(&mut self, now: u64)
        requires { now < 2 ^ 62 }
        ensures { (ids : Identifiers) → Stands self.old ids → Stands self.new (restarted now ids) }
    {
        self.quiet = now + u64::from(self.reuse);
        self.moments.clear();
        self.next = 0;
    }

    /// The moment at which the next identifier was used last.
    fn last_use(&self) -> Option<u64>
        ensures { result ≡ slice_get self.now.moments self.now.next }
    {
        self.moments.get(usize::from(self.next)).copied()
    }

    /// The identifier that is next, which may not be free yet.
    pub(crate) fn next(&self) -> u16
        ensures { result ≡ self.now.next }
    {
        self.next
    }

    /// Gives the next identifier to a unit, whether or not it is free.
    pub(crate) fn use_next(&mut self, now: u64) -> u16
        ensures id { result ≡ self.old.next }
        ensures stands { (ids : Identifiers) → Stands self.old ids → Stands self.new (after_use now ids) }
    {
        let id = self.next;
        self.note_use(now);
        id
    }

    /// Notes the moment of a use of the next identifier, and goes on to the one after it.
    fn note_use(&mut self, now: u64)
        ensures again { self.old.next < length self.old.moments
            → self.new ≡ record self.old { moments = slice_set self.old.moments self.old.next now; next = (self.old.next + 1) % 2 ^ 16 } }
        ensures first { length self.old.moments ≤ self.old.next
            → self.new ≡ record self.old { moments = self.old.moments ++ now ∷ []; next = (self.old.next + 1) % 2 ^ 16 } }
    {
        let place = usize::from(self.next);
        self.next = self.next.wrapping_add(1);
        if place < self.moments.len() {
            self.moments[place] = now;
        } else {
            self.moments.push_reserved(now);
        }
    }
}
