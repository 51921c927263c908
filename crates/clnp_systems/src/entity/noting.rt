//! What comes to a system beside frames and moments: what it does is given out, and with it the note of it.
ghost use Rattle.std.specs.Prelude.{◌≡◌, OnOk, OnErr, IsErr, false, true};
ghost use Rattle.clnp_machine.specs.ClnpOptions.Grammar.{FitsKind};
ghost use Rattle.clnp_machine.specs.ClnpOptions.Parameter.{parameters};
ghost use Rattle.clnp_machine.specs.PduHeader.Grammar.{is_report};
ghost use Rattle.clnp_machine.specs.ClnpPlan.declared.config.Role.{Role};
ghost use Rattle.clnp_machine.specs.Local as locally;
ghost use Rattle.clnp_machine.specs.System.{SystemState, AsksForEcho, AsksToSend, IsCongested, IsRestarted};
ghost use Rattle.clnp_systems.specs.Deeds.{DoesDeed};
ghost use Rattle.clnp_systems.specs.EntityStands.{Stands};
ghost use Rattle.clnp_systems.specs.Steps.{IsSpentIn, TakesStep};

use super::SystemEntity;
use crate::refusal_note;
use clnp_machine::base::NoMemory;
use clnp_machine::clnp::Kind;
use clnp_machine::nsaps::Address;
use clnp_machine::system_plan::{Ask, Note, Output};
use std::alloc::Global;

impl SystemEntity {
    /// A data unit of some octets is asked for: it is made and sent, or it is noted why it isn't.
    ///
    /// # Errors
    ///
    /// `NoMemory`: `out` is then as it was, and the entity is spent, at the moment at which it was.
    pub fn send_or_note(
        &mut self,
        alloc: Global,
        from: Address,
        to: Address,
        body: &[u8],
        ask: &Ask,
        out: &mut Vec<Output>,
    ) -> Result<(), NoMemory>
        requires { FitsKind false (parameters ask.now.options) }
        ensures step { OnOk result ((role : Role)
            → TakesStep role (AsksToSend from to body.now ask.now) self.old self.new out.old.items out.new.items) }
        ensures spent { OnErr result (IsSpentIn self.old self.new out.old.items out.new.items) }
        ensures refused { self.old.spent ≡ true → IsErr result }
    {
        self.make_or_note(alloc, Kind::Dt, from, to, body, ask, out)
    }

    /// An echo request of some octets is asked for: it is made and sent, or it is noted why it isn't (RFC 1575).
    ///
    /// # Errors
    ///
    /// `NoMemory`: `out` is then as it was, and the entity is spent, at the moment at which it was.
    pub fn echo_or_note(
        &mut self,
        alloc: Global,
        from: Address,
        to: Address,
        body: &[u8],
        out: &mut Vec<Output>,
    ) -> Result<(), NoMemory>
        ensures step { OnOk result ((role : Role)
            → TakesStep role (AsksForEcho from to body.now) self.old self.new out.old.items out.new.items) }
        ensures spent { OnErr result (IsSpentIn self.old self.new out.old.items out.new.items) }
        ensures refused { self.old.spent ≡ true → IsErr result }
    {
        let ask = self.local.echo_ask(&from, &to, body.len(), true);
        self.make_or_note(alloc, Kind::Erq, from, to, body, &ask, out)
    }

    /// A unit is asked for: it is made and sent, or it is noted why it isn't.
    fn make_or_note(
        &mut self,
        alloc: Global,
        kind: Kind,
        from: Address,
        to: Address,
        body: &[u8],
        ask: &Ask,
        out: &mut Vec<Output>,
    ) -> Result<(), NoMemory>
        requires { FitsKind (is_report kind) (parameters ask.now.options) }
        ensures did { OnOk result ((s : SystemState) → Stands self.old s
            → DoesDeed s.moment (locally.make s kind from to body.now ask.now) self.new out.old.items out.new.items) }
        ensures moment { self.new.moment ≡ self.old.moment }
        ensures config { self.new.local.configuration ≡ self.old.local.configuration }
        ensures spent { OnErr result (IsSpentIn self.old self.new out.old.items out.new.items) }
        ensures refused { self.old.spent ≡ true → IsErr result }
    {
        match self.make(alloc, kind, from, to, body, ask, out) {
            Ok(_unit) => Ok(()),
            Err(refusal) => {
                let note = refusal_note(refusal)?;
                self.note(note, out)
            }
        }
    }

    /// It is restarted, and notes it.
    ///
    /// # Errors
    ///
    /// `NoMemory`: `out` is then as it was, and the entity is spent, at the moment at which it was.
    pub fn restart_and_note(&mut self, out: &mut Vec<Output>) -> Result<(), NoMemory>
        ensures step { OnOk result ((role : Role) → TakesStep role IsRestarted self.old self.new out.old.items out.new.items) }
        ensures spent { OnErr result (IsSpentIn self.old self.new out.old.items out.new.items) }
        ensures refused { self.old.spent ≡ true → IsErr result }
    {
        self.note(Note::Restart, out)?;
        self.restart();
        Ok(())
    }

    /// It is congested from now on, or no more, and notes it.
    ///
    /// # Errors
    ///
    /// `NoMemory`: `out` is then as it was, and the entity is spent, at the moment at which it was.
    pub fn congest_and_note(&mut self, on: bool, out: &mut Vec<Output>) -> Result<(), NoMemory>
        ensures step { OnOk result ((role : Role)
            → TakesStep role (IsCongested on) self.old self.new out.old.items out.new.items) }
        ensures spent { OnErr result (IsSpentIn self.old self.new out.old.items out.new.items) }
        ensures refused { self.old.spent ≡ true → IsErr result }
    {
        self.note(Note::Congest { on }, out)?;
        self.congest(on);
        Ok(())
    }
}
