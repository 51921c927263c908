//! The tables of a system.
ghost use Rattle.std.specs.Prelude.{◌≡◌, ◌<◌, ◌≤◌, ◌^◌, ℕ, List, [], IfOk};
ghost use Rattle.system_tables.specs.declared.esis_tables.fact.Gone.{Gone};
ghost use Rattle.system_tables.specs.declared.esis_tables.fact.TableKind.TheVariants.{Es, Rd};
ghost use Rattle.system_tables.specs.EsisTables.Fact.{Fact, after, answer, hearing};
ghost use Rattle.system_tables.specs.EsisTables.Gone.{gone};
ghost use Rattle.system_tables.specs.EsisTables.NextHop.{current_neighbour, is_router, last_router};
ghost use Rattle.system_tables.specs.EsisTables.Stands.{FlushesFirst, Stands, limits_of};

use crate::esis_tables::fact::{EsisLimits, Gone, Heard, Neighbour, TableKind};
use crate::esis_tables::table::Table;
use pdus::nsap::base::NoMemory;
use pdus::nsap::{Address, Snpa};
use std::alloc::Global;

/// What a system knows of its neighbours, each for its holding time (ISO 9542, section 6).
///
/// Moments are in ticks of 500 ms and holding times in seconds: what was heard at `t` for `h` seconds holds while the moment
/// is below `t + 2h`. Moments that are given never fall. What has ended is kept until `flush` takes it out, and no look-up
/// gives it.
///
/// A contract sees three tables; `Stands` says for which facts they stand, and which keys are left to be flushed.
#[derive(Drop)]
pub struct Tables {
    systems: Table,
    routers: Table,
    redirects: Table,
}

impl Tables {
    /// Tables that keep nothing. They reserve all the room that they will need.
    ///
    /// # Errors
    ///
    /// `NoMemory`.
    pub fn new(alloc: Global, limits: EsisLimits) -> Result<Tables, NoMemory>
        ensures stands { IfOk result (λ tables. (now : ℕ) → Stands tables [] now []) }
        ensures limits { IfOk result (λ tables. limits_of tables ≡ limits) }
    {
        let systems = Table::new(alloc, limits.neighbours)?;
        let routers = Table::new(alloc, limits.routers)?;
        let redirects = Table::new(alloc, limits.redirects)?;
        Ok(Tables {
            systems,
            routers,
            redirects,
        })
    }

    /// Hears that the system of a key is reached at a place, for `hold` seconds from `now` on (ISO 9542, sections 6.3, 6.4
    /// and 6.9). What has ended by then is to be flushed before.
    ///
    /// `Zero` comes exactly where `hold` is 0, and the key is then kept no more; else `Again` where the key is kept, with
    /// what is heard now in place of what was heard before; else `Full` exactly where the table keeps as many keys as it
    /// may, and nothing changes; else `New`. It takes no memory.
    pub fn hear(
        &mut self,
        now: u64,
        table: TableKind,
        key: Address,
        neighbour: Neighbour,
        hold: u16,
    ) -> Heard
        requires { now < 2 ^ 62 }
        // Whatever facts the tables stand for, the answer is theirs, and they then stand for the facts after this one.
        ensures answered { (facts : List Fact) → Stands self.old facts now []
            → result ≡ answer (limits_of self.old) (hearing now table key neighbour hold) facts }
        ensures stands { (facts : List Fact) → Stands self.old facts now []
            → Stands self.new (after (limits_of self.old) (hearing now table key neighbour hold) facts) now [] }
        ensures limits { limits_of self.new ≡ limits_of self.old }
    {
        match table {
            TableKind::Es => self.systems.hear(now, key, neighbour, hold),
            TableKind::Is => self.routers.hear(now, key, neighbour, hold),
            TableKind::Rd => self.redirects.hear(now, key, neighbour, hold),
        }
    }

    /// Takes out one key whose holding time has ended: end systems first, then intermediate systems, then redirects, by
    /// rising key. None exactly where no time has ended (ISO 9542, section 6.6).
    #[inline(always)]
    pub fn flush(&mut self, now: u64) -> Option<Gone>
        // The first flush after time went on, and each further one at the same moment.
        ensures first { (facts : List Fact) (before : ℕ) → Stands self.old facts before [] → before ≤ now
            → FlushesFirst result self.new facts now (gone before now facts) }
        ensures next { (facts : List Fact) (left : List Gone) → Stands self.old facts now left
            → FlushesFirst result self.new facts now left }
        ensures limits { limits_of self.new ≡ limits_of self.old }
    {
        if let Some(key) = self.systems.flush(now) {
            let table = TableKind::Es;
            return Some(Gone { table, key });
        }
        if let Some(key) = self.routers.flush(now) {
            let table = TableKind::Is;
            return Some(Gone { table, key });
        }
        let key = self.redirects.flush(now)?;
        let table = TableKind::Rd;
        Some(Gone { table, key })
    }

    /// Where the end system of an address is reached, if it is known.
    pub fn system(&self, now: u64, key: &Address) -> Option<Neighbour>
        ensures { (facts : List Fact) (before : ℕ) (left : List Gone) → Stands self.now facts before left → before ≤ now
            → result ≡ current_neighbour now Es key.now facts }
    {
        self.systems.held(now, key)
    }

    /// Where the intermediate system is reached that was heard last of those that are known.
    pub fn last_router(&self, now: u64) -> Option<Neighbour>
        ensures { (facts : List Fact) (before : ℕ) (left : List Gone) → Stands self.now facts before left → before ≤ now
            → result ≡ last_router now facts }
    {
        self.routers.last_held(now)
    }

    /// Whether an intermediate system is known to be at this address on its subnetwork.
    pub fn is_router(&self, now: u64, snpa: &Snpa) -> bool
        ensures { (facts : List Fact) (before : ℕ) (left : List Gone) → Stands self.now facts before left → before ≤ now
            → result ≡ is_router now snpa.now facts }
    {
        self.routers.is_held_at(now, snpa)
    }

    /// The better hop towards exactly this destination, if one is known.
    pub fn redirect(&self, now: u64, key: &Address) -> Option<Neighbour>
        ensures { (facts : List Fact) (before : ℕ) (left : List Gone) → Stands self.now facts before left → before ≤ now
            → result ≡ current_neighbour now Rd key.now facts }
    {
        self.redirects.held(now, key)
    }

    /// Forgets all that was heard.
    pub fn clear(&mut self)
        ensures stands { (now : ℕ) → Stands self.new [] now [] }
        ensures limits { limits_of self.new ≡ limits_of self.old }
    {
        self.systems.clear();
        self.routers.clear();
        self.redirects.clear();
    }
}
