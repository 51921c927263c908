//! What a system does as time goes on (ISO 9542, sections 6.1, 6.2, 6.4 and 6.11).
ghost use Rattle.std.specs.Prelude.{◌≡◌, ◌≤◌, ◌<◌, ◌^◌, ℕ, List, [], OnOk, length, map, None};
ghost use Rattle.clnp_machine.specs.EsisTables.Fact.{Fact};
ghost use Rattle.clnp_machine.specs.EsisTables.Gone.{gone};
ghost use Rattle.clnp_machine.specs.EsisTables.Stands as esis_tables;
ghost use Rattle.clnp_machine.specs.EsisTables.Stands.{limits_of};
ghost use Rattle.clnp_machine.specs.Esis.{forgets, gone_note, says_hello};
ghost use Rattle.clnp_machine.specs.Given.{Appends};
ghost use Rattle.clnp_machine.specs.System.{SystemState, then_does};
ghost use Rattle.clnp_systems.specs.Does.{Does, StaysInFront};
ghost use Rattle.clnp_systems.specs.EsisStands.{Stands, StandsSince};

use super::EsisEntity;
use super::hellos::say_everywhere;
use super::output::give_note;
use clnp_machine::base::NoMemory;
use clnp_machine::hearing::{Gone, Tables, laws};
use clnp_machine::system_plan::{Note, Output, SystemConfig};
use std::alloc::Global;

/// Forgets what has ended, and notes each key.
fn forget(tables: &mut Tables, now: u64, out: &mut Vec<Output>) -> Result<(), NoMemory>
    ensures stands { OnOk result ((facts : List Fact) (before : ℕ) → esis_tables.Stands tables.old facts before []
        → before ≤ now → esis_tables.Stands tables.new facts now []) }
    ensures limits { limits_of tables.new ≡ limits_of tables.old }
    ensures outputs { OnOk result ((facts : List Fact) (before moment : ℕ) → esis_tables.Stands tables.old facts before []
        → before ≤ now → Appends moment None out.old.items out.new.items (map gone_note (gone before now facts))) }
    ensures front { StaysInFront out.old.items out.new.items }
{
    laws::time_goes_on();
    while let Some(ended) = tables.flush(now) {
        let Gone { table, key } = ended;
        give_note(Note::Gone { table, key }, out)?;
    }
    Ok(())
}

impl EsisEntity {
    /// What has ended is forgotten, and the hello that is due is said.
    #[tactic(auto, using(crate::proofs::Fronts::front_more))]
    pub(super) fn forget_and_say(
        &mut self,
        alloc: Global,
        config: &SystemConfig,
        ports: u8,
        now: u64,
        out: &mut Vec<Output>,
    ) -> Result<(), NoMemory>
        requires { now < 2 ^ 62 }
        ensures stands { OnOk result ((s : SystemState) (before : ℕ) → StandsSince before self.old s
            → s.configuration ≡ config.now → length s.attached.ports ≡ ports → s.moment ≡ now → before ≤ now
            → Stands self.new (then_does (forgets before s) says_hello).after) }
        ensures outputs { OnOk result ((s : SystemState) (before : ℕ) → StandsSince before self.old s
            → s.configuration ≡ config.now → length s.attached.ports ≡ ports → s.moment ≡ now → before ≤ now
            → Appends now None out.old.items out.new.items (then_does (forgets before s) says_hello).outputs) }
        ensures front { StaysInFront out.old.items out.new.items }
    {
        forget(&mut self.tables, now, out)?;
        self.say_hello(alloc, config, ports, now, out)
    }

    /// Says hello where it is due; the next one is due a period later.
    fn say_hello(
        &mut self,
        alloc: Global,
        config: &SystemConfig,
        ports: u8,
        now: u64,
        out: &mut Vec<Output>,
    ) -> Result<(), NoMemory>
        requires { now < 2 ^ 62 }
        ensures said { OnOk result ((s : SystemState) → Stands self.old s → s.configuration ≡ config.now
            → length s.attached.ports ≡ ports → s.moment ≡ now
            → Does now self.new out.old.items out.new.items (says_hello s)) }
        ensures front { StaysInFront out.old.items out.new.items }
    {
        if self.period == 0 || now < self.next_hello {
            return Ok(());
        }
        self.next_hello = now + 2 * u64::from(self.period);
        say_everywhere(alloc, config, ports, self.period, out)
    }
}
