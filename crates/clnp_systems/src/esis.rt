//! The configuration entity of a system.
ghost use Rattle.std.specs.Prelude.{◌≡◌, ◌≤◌, ◌<◌, ◌^◌, ℕ, IfOk, OnOk, OnErr, length, None};
ghost use Rattle.clnp_machine.specs.ClnpOptions.Parameter.{parameters};
ghost use Rattle.clnp_machine.specs.EsisPdus.Value.{suggested};
ghost use Rattle.clnp_machine.specs.EsisPdus.View.{pdu_value};
ghost use Rattle.clnp_machine.specs.SystemTables.declared.esis_tables.fact.TableKind.TheVariants.{Es};
ghost use Rattle.clnp_machine.specs.EsisTables.NextHop as heard;
ghost use Rattle.clnp_machine.specs.Esis.{esis_comes, forgets, says_hello, tells_of_itself};
ghost use Rattle.clnp_machine.specs.Given.{Appends};
ghost use Rattle.clnp_machine.specs.ClnpPlan.declared.config.Limits.{Limits};
ghost use Rattle.clnp_machine.specs.Local.{restarted};
ghost use Rattle.clnp_machine.specs.System.{SystemState, first_state, then_does};
ghost use Rattle.clnp_systems.specs.Does.{StaysInFront};
ghost use Rattle.clnp_systems.specs.EsisStands.{Stands, StandsSince};

use clnp_machine::base::NoMemory;
use clnp_machine::esis::EsisPdu;
use clnp_machine::hearing::{EsisLimits, Neighbour, Tables};
use clnp_machine::nsaps::{Address, Target};
use clnp_machine::system_plan::{Output, SystemConfig};
use hellos::hello;
use output::send;
use std::alloc::Global;
use std::marker::Model;

mod hearing;
mod hellos;
pub(crate) mod output;
mod telling;

/// What a system heard of its neighbours, and when it tells them of itself. Moments are in ticks of 500 ms.
///
/// A contract says by `Stands` which states of a system it stands for.
#[derive(Drop)]
pub struct EsisEntity {
    tables: Tables,
    /// How often it says hello, in seconds; 0 is never.
    period: u16,
    /// The moment from which on its next hello is due.
    next_hello: u64,
}

impl Model for EsisEntity {
    ghost use Rattle.clnp_systems.specs.EsisState.{EsisState};

    ghost Value = { EsisState };

    ghost view = { λ e. record { tables = e.tables; period = e.period; next_hello = e.next_hello } };
}

impl EsisEntity {
    /// The entity of a system at its start, whose first hello is due. It reserves all the room that it will need.
    ///
    /// # Errors
    ///
    /// `NoMemory`.
    pub fn new(alloc: Global, config: &SystemConfig, now: u64) -> Result<EsisEntity, NoMemory>
        ensures { IfOk result (λ entity. (place : ℕ) (limits : Limits) (quiet : ℕ)
            → Stands entity (first_state place config.now limits now quiet)) }
    {
        let settings = config.settings();
        let limits = EsisLimits {
            neighbours: settings.neighbours,
            routers: settings.routers,
            redirects: settings.redirects,
        };
        let tables = Tables::new(alloc, limits)?;
        Ok(EsisEntity {
            tables,
            period: settings.hello,
            next_hello: now,
        })
    }

    /// Hears an ES-IS PDU that came from a place, and appends what the system gives out: notes, and an answer to
    /// something new (sections 6.3 and 6.7).
    ///
    /// # Errors
    ///
    /// `NoMemory`: `out` is then as it was; of the entity nothing is promised.
    #[inline(always)]
    pub fn hear(
        &mut self,
        alloc: Global,
        config: &SystemConfig,
        now: u64,
        neighbour: Neighbour,
        pdu: EsisPdu<'_>,
        out: &mut Vec<Output>,
    ) -> Result<(), NoMemory>
        requires moment { now < 2 ^ 62 }
        requires timer { pdu.suggested ≡ suggested pdu.body (parameters pdu.options.now) }
        ensures stands { OnOk result ((s : SystemState) → Stands self.old s → s.configuration ≡ config.now
            → s.moment ≡ now → Stands self.new (esis_comes s neighbour (pdu_value pdu.entry)).after) }
        ensures outputs { OnOk result ((s : SystemState) → Stands self.old s → s.configuration ≡ config.now
            → s.moment ≡ now
            → Appends now None out.old.items out.new.items (esis_comes s neighbour (pdu_value pdu.entry)).outputs) }
        ensures none { OnErr result (out.new.items ≡ out.old.items) }
    {
        let before = out.len();
        if let Err(refused) = self.hear_in_role(alloc, config, now, neighbour, pdu, out) {
            out.truncate(before);
            return Err(refused);
        }
        Ok(())
    }

    /// Tells a system at a place of one's own, unless no hellos are said at all (section 6.6).
    ///
    /// # Errors
    ///
    /// `NoMemory`: `out` is then as it was.
    pub fn tell(
        &self,
        alloc: Global,
        config: &SystemConfig,
        neighbour: Neighbour,
        out: &mut Vec<Output>,
    ) -> Result<(), NoMemory>
        ensures told { OnOk result ((s : SystemState) (moment : ℕ) → Stands self.now s → s.configuration ≡ config.now
            → Appends moment None out.old.items out.new.items
            (tells_of_itself s neighbour.port neighbour.snpa).outputs) }
        ensures none { OnErr result (out.new.items ≡ out.old.items) }
        ensures front { StaysInFront out.old.items out.new.items }
    {
        if self.period == 0 {
            return Ok(());
        }
        let to = Target::System(neighbour.snpa);
        send(alloc, neighbour.port, to, &hello(config, self.period), out)
    }

    /// A moment has come: what has ended since the last one is forgotten, and the hello that is due is said (sections
    /// 6.1, 6.2, 6.4 and 6.11), on each of so many ports.
    ///
    /// # Errors
    ///
    /// `NoMemory`: `out` is then as it was; of the entity nothing is promised.
    pub fn tick(
        &mut self,
        alloc: Global,
        config: &SystemConfig,
        ports: u8,
        now: u64,
        out: &mut Vec<Output>,
    ) -> Result<(), NoMemory>
        requires moment { now < 2 ^ 62 }
        ensures stands { OnOk result ((s : SystemState) (before : ℕ) → StandsSince before self.old s
            → s.configuration ≡ config.now → length s.attached.ports ≡ ports → s.moment ≡ now → before ≤ now
            → Stands self.new (then_does (forgets before s) says_hello).after) }
        ensures outputs { OnOk result ((s : SystemState) (before : ℕ) → StandsSince before self.old s
            → s.configuration ≡ config.now → length s.attached.ports ≡ ports → s.moment ≡ now → before ≤ now
            → Appends now None out.old.items out.new.items (then_does (forgets before s) says_hello).outputs) }
        ensures none { OnErr result (out.new.items ≡ out.old.items) }
    {
        let before = out.len();
        if let Err(refused) = self.forget_and_say(alloc, config, ports, now, out) {
            out.truncate(before);
            return Err(refused);
        }
        Ok(())
    }

    /// Forgets what was heard; the first hello is due again.
    pub fn restart(&mut self, config: &SystemConfig, now: u64)
        ensures { (s : SystemState) (before : ℕ) → StandsSince before self.old s → s.configuration ≡ config.now
            → s.moment ≡ now → Stands self.new (restarted s) }
    {
        self.tables.clear();
        self.period = config.settings().hello;
        self.next_hello = now;
    }

    /// Its next hello is due from this moment on.
    pub fn greets_again(&mut self, moment: u64)
        ensures { self.new ≡ record self.old { next_hello = moment } }
    {
        self.next_hello = moment;
    }

    /// Where an end system sends what is for an address: the better hop of a redirect, the end system of this address,
    /// or the intermediate system that was heard last (section 6.5).
    pub fn next_hop(&self, now: u64, to: &Address) -> Option<Neighbour>
        ensures { (s : SystemState) (before : ℕ) → StandsSince before self.now s → before ≤ now
            → result ≡ heard.next_hop now to.now s.facts }
    {
        if let Some(neighbour) = self.tables.redirect(now, to) {
            return Some(neighbour);
        }
        if let Some(neighbour) = self.tables.system(now, to) {
            return Some(neighbour);
        }
        self.tables.last_router(now)
    }

    /// Where the end system of an address is reached, if it is known.
    pub fn neighbour(&self, now: u64, to: &Address) -> Option<Neighbour>
        ensures { (s : SystemState) (before : ℕ) → StandsSince before self.now s → before ≤ now
            → result ≡ heard.current_neighbour now Es to.now s.facts }
    {
        self.tables.system(now, to)
    }
}
