//! What a system hears of others (ISO 9542, sections 6.3, 6.4, 6.7 and 6.9).
ghost use Rattle.std.specs.Prelude.{◌≡◌, ◌<◌, ◌^◌, ℕ, if◌then◌else◌, IfOk, OnOk, None};
ghost use Rattle.clnp_machine.specs.ClnpOptions.Parameter.{parameters};
ghost use Rattle.clnp_machine.specs.EsisPdus.Value.{suggested};
ghost use Rattle.clnp_machine.specs.EsisPdus.View.{pdu_value};
ghost use Rattle.clnp_machine.specs.Esis.{answers_new, esis_comes, esis_heard, follows, hears, hears_each, redirect_heard, tells_of_itself};
ghost use Rattle.clnp_machine.specs.Given.{Appends};
ghost use Rattle.clnp_machine.specs.System.{SystemState, idles};
ghost use Rattle.clnp_machine.specs.ClnpPlan.declared.config.Role.TheVariants.{Host, Router};
ghost use Rattle.clnp_machine.specs.SystemTables.declared.esis_tables.fact.TableKind.TheVariants.{Is};
ghost use Rattle.clnp_systems.specs.Does.{Does, Hears, StaysInFront};
ghost use Rattle.clnp_systems.specs.EsisStands.{Stands};

use super::EsisEntity;
use super::output::give_note;
use clnp_machine::base::NoMemory;
use clnp_machine::esis::{AddressList, EsisBody, EsisPdu};
use clnp_machine::hearing::{Heard, Neighbour, TableKind};
use clnp_machine::nsaps::{Address, Snpa};
use clnp_machine::system_plan::{Note, Output, Role, SystemConfig};
use std::alloc::Global;

impl EsisEntity {
    /// Hears a PDU in the role of the system.
    #[inline(always)]
    pub(super) fn hear_in_role(
        &mut self,
        alloc: Global,
        config: &SystemConfig,
        now: u64,
        neighbour: Neighbour,
        pdu: EsisPdu<'_>,
        out: &mut Vec<Output>,
    ) -> Result<(), NoMemory>
        requires moment { now < 2 ^ 62 }
        requires timer { pdu.suggested ≡ suggested pdu.body (parameters pdu.options.now) }
        ensures stands { OnOk result ((s : SystemState) → Stands self.old s → s.configuration ≡ config.now
            → s.moment ≡ now → Stands self.new (esis_comes s neighbour (pdu_value pdu.entry)).after) }
        ensures outputs { OnOk result ((s : SystemState) → Stands self.old s → s.configuration ≡ config.now
            → s.moment ≡ now
            → Appends now None out.old.items out.new.items (esis_comes s neighbour (pdu_value pdu.entry)).outputs) }
        ensures front { StaysInFront out.old.items out.new.items }
    {
        match config.role() {
            Role::Host => self.hear_as_host(alloc, config, now, neighbour, pdu, out),
            Role::Router => self.hear_as_router(alloc, config, now, neighbour, pdu, out),
        }
    }

    /// Hears a PDU as an end system, which answers an intermediate system that is new, and then follows its wish.
    #[inline(always)]
    #[tactic(auto, using(crate::proofs::Fronts::front_more))]
    fn hear_as_host(
        &mut self,
        alloc: Global,
        config: &SystemConfig,
        now: u64,
        neighbour: Neighbour,
        pdu: EsisPdu<'_>,
        out: &mut Vec<Output>,
    ) -> Result<(), NoMemory>
        requires { now < 2 ^ 62 }
        ensures done { OnOk result ((s : SystemState) → Stands self.old s → s.configuration ≡ config.now → s.moment ≡ now
            → Does now self.new out.old.items out.new.items
            (esis_heard Host s neighbour pdu.entry.hold pdu.entry.body pdu.entry.suggested)) }
        ensures front { StaysInFront out.old.items out.new.items }
    {
        let EsisPdu {
            hold,
            body,
            suggested,
            ..
        } = pdu;
        match body {
            EsisBody::Esh { addresses } => {
                self.hear_each(now, &neighbour, hold, addresses, out)?;
                Ok(())
            }
            EsisBody::Ish { title } => {
                self.hear_router(alloc, config, now, &neighbour, hold, title, out)?;
                self.follow(now, suggested);
                Ok(())
            }
            EsisBody::Rd { to, via, .. } => self.hear_redirect(now, &neighbour, hold, to, via, out),
        }
    }

    /// Hears a PDU as an intermediate system, which answers an end system with an address that is new.
    #[inline(always)]
    fn hear_as_router(
        &mut self,
        alloc: Global,
        config: &SystemConfig,
        now: u64,
        neighbour: Neighbour,
        pdu: EsisPdu<'_>,
        out: &mut Vec<Output>,
    ) -> Result<(), NoMemory>
        requires { now < 2 ^ 62 }
        ensures done { OnOk result ((s : SystemState) → Stands self.old s → s.configuration ≡ config.now → s.moment ≡ now
            → Does now self.new out.old.items out.new.items
            (esis_heard Router s neighbour pdu.entry.hold pdu.entry.body pdu.entry.suggested)) }
        ensures front { StaysInFront out.old.items out.new.items }
    {
        let EsisPdu { hold, body, .. } = pdu;
        match body {
            EsisBody::Esh { addresses } => {
                self.hear_end_system(alloc, config, now, &neighbour, hold, addresses, out)
            }
            EsisBody::Ish { .. } => give_note(Note::Ignored { rd: false }, out),
            EsisBody::Rd { .. } => give_note(Note::Ignored { rd: true }, out),
        }
    }

    /// Hears of an intermediate system, and answers it where it is new.
    #[tactic(auto, using(crate::proofs::Fronts::front_more))]
    fn hear_router(
        &mut self,
        alloc: Global,
        config: &SystemConfig,
        now: u64,
        neighbour: &Neighbour,
        hold: u16,
        title: Address,
        out: &mut Vec<Output>,
    ) -> Result<(), NoMemory>
        requires { now < 2 ^ 62 }
        ensures stands { OnOk result ((s : SystemState) → Stands self.old s → s.moment ≡ now
            → Stands self.new (hears s Is title neighbour.now hold).after) }
        ensures outputs { OnOk result ((s : SystemState) → Stands self.old s → s.configuration ≡ config.now
            → s.moment ≡ now → Appends now None out.old.items out.new.items
            (answers_new (hears s Is title neighbour.now hold) neighbour.now).outputs) }
        ensures front { StaysInFront out.old.items out.new.items }
    {
        let new = self.hear_key(now, TableKind::Is, title, neighbour, hold, out)?;
        self.answer(alloc, config, neighbour, new, out)
    }

    /// Hears a redirect from an intermediate system that is known to be there, and ignores one from elsewhere (section 6.9).
    #[tactic(auto, using(crate::proofs::Fronts::front_more))]
    fn hear_redirect(
        &mut self,
        now: u64,
        neighbour: &Neighbour,
        hold: u16,
        to: Address,
        via: Snpa,
        out: &mut Vec<Output>,
    ) -> Result<(), NoMemory>
        requires { now < 2 ^ 62 }
        ensures done { OnOk result ((s : SystemState) → Stands self.old s → s.moment ≡ now
            → Does now self.new out.old.items out.new.items (redirect_heard Host s neighbour.now hold to via)) }
        ensures front { StaysInFront out.old.items out.new.items }
    {
        if !self.tables.is_router(now, &neighbour.snpa) {
            return give_note(Note::Ignored { rd: true }, out);
        }
        let better = Neighbour {
            port: neighbour.port,
            snpa: via,
        };
        self.hear_key(now, TableKind::Rd, to, &better, hold, out)?;
        Ok(())
    }

    /// Hears of an end system, and answers it once where an address is new.
    #[tactic(auto, using(crate::proofs::Fronts::front_more))]
    fn hear_end_system(
        &mut self,
        alloc: Global,
        config: &SystemConfig,
        now: u64,
        neighbour: &Neighbour,
        hold: u16,
        addresses: AddressList<'_>,
        out: &mut Vec<Output>,
    ) -> Result<(), NoMemory>
        requires { now < 2 ^ 62 }
        ensures done { OnOk result ((s : SystemState) → Stands self.old s → s.configuration ≡ config.now → s.moment ≡ now
            → Does now self.new out.old.items out.new.items
            (answers_new (hears_each s addresses.entry neighbour.now hold) neighbour.now)) }
        ensures front { StaysInFront out.old.items out.new.items }
    {
        let new = self.hear_each(now, neighbour, hold, addresses, out)?;
        self.answer(alloc, config, neighbour, new, out)
    }

    /// Hears each address of an end system, in order. Whether one of them is new.
    #[tactic(auto, using(crate::proofs::Fronts::front_more))]
    fn hear_each(
        &mut self,
        now: u64,
        neighbour: &Neighbour,
        hold: u16,
        addresses: AddressList<'_>,
        out: &mut Vec<Output>,
    ) -> Result<bool, NoMemory>
        requires { now < 2 ^ 62 }
        ensures heard { IfOk result (λ new. (s : SystemState) → Stands self.old s → s.moment ≡ now
            → Hears now self.new out.old.items out.new.items new (hears_each s addresses.entry neighbour.now hold)) }
        ensures front { StaysInFront out.old.items out.new.items }
    {
        let mut new = false;
        for address in addresses {
            new |= self.hear_key(now, TableKind::Es, address, neighbour, hold, out)?;
        }
        Ok(new)
    }

    /// Hears of one key, and notes it. Whether it is new.
    fn hear_key(
        &mut self,
        now: u64,
        table: TableKind,
        key: Address,
        neighbour: &Neighbour,
        hold: u16,
        out: &mut Vec<Output>,
    ) -> Result<bool, NoMemory>
        requires { now < 2 ^ 62 }
        ensures heard { IfOk result (λ new. (s : SystemState) → Stands self.old s → s.moment ≡ now
            → Hears now self.new out.old.items out.new.items new (hears s table key neighbour.now hold)) }
        ensures front { StaysInFront out.old.items out.new.items }
    {
        out.reserve(1)?;
        let heard = self.tables.hear(now, table, key, *neighbour, hold);
        out.push_reserved(Output::Note(Note::Hear { table, key, heard }));
        Ok(matches!(heard, Heard::New))
    }

    /// Tells a system of itself where something new was heard.
    fn answer(
        &self,
        alloc: Global,
        config: &SystemConfig,
        neighbour: &Neighbour,
        new: bool,
        out: &mut Vec<Output>,
    ) -> Result<(), NoMemory>
        ensures told { OnOk result ((s : SystemState) (moment : ℕ) → Stands self.now s → s.configuration ≡ config.now
            → Appends moment None out.old.items out.new.items
            (if new then tells_of_itself s neighbour.now.port neighbour.now.snpa else idles s).outputs) }
        ensures front { StaysInFront out.old.items out.new.items }
    {
        if new {
            return self.tell(alloc, config, *neighbour, out);
        }
        Ok(())
    }

    /// Follows the wish of an intermediate system, in seconds, where it is above 0 and hellos are said at all.
    fn follow(&mut self, now: u64, timer: Option<u16>)
        requires { now < 2 ^ 62 }
        ensures { (s : SystemState) → Stands self.old s → s.moment ≡ now → Stands self.new (follows s timer) }
    {
        let Some(seconds) = timer else {
            return;
        };
        if seconds == 0 || self.period == 0 {
            return;
        }
        self.period = seconds;
        self.next_hello = self.next_hello.min(now + 2 * u64::from(seconds));
    }
}
