//! Echo requests answered, and replies taken for answers (RFC 1575).
ghost use Rattle.std.specs.Prelude.{◌≡◌, ◌<◌, ◌^◌, false, OnOk, OnErr};
ghost use Rattle.clnp_machine.specs.ClnpOptions.Grammar.{FitsKind};
ghost use Rattle.clnp_machine.specs.ClnpOptions.Parameter.{parameters};
ghost use Rattle.clnp_machine.specs.Reassembly.State.{TableState};
ghost use Rattle.clnp_machine.specs.Local as locally;
ghost use Rattle.clnp_machine.specs.System.{SystemState};
ghost use Rattle.clnp_systems.specs.Endpoint.{StandsWith};
ghost use Rattle.clnp_systems.specs.Local.{Appends};

use super::Endpoint;
use crate::action::Action;
use crate::refusal::refusal_note;
use clnp_machine::base::NoMemory;
use clnp_machine::clnp::Kind;
use clnp_machine::echoing::needs_id;
use clnp_machine::nsaps::Address;
use clnp_machine::options::OptionList;
use clnp_machine::system_plan::{Ask, Note};
use std::alloc::Global;

impl Endpoint {
    /// How an echo request or reply with so many octets of data is sent: with the system's own lifetime, without options,
    /// and such that it may be segmented where not every subnetwork takes it in one piece.
    pub(crate) fn echo_ask(&self, from: &Address, to: &Address, len: usize, report: bool) -> Ask
        ensures value { (table : TableState) (s : SystemState) → StandsWith table self.now s → result ≡ locally.echo_ask s from.now to.now len report }
        ensures options { FitsKind false (parameters result.options) }
    {
        Ask {
            life: self.config.settings().life,
            report,
            segment: needs_id(from, to, len),
            options: OptionList::new(),
        }
    }

    /// Answers an echo request with its data, or appends why it can't.
    ///
    /// # Errors
    ///
    /// `NoMemory`: nothing changes then.
    pub(super) fn reply(
        &mut self,
        alloc: Global,
        now: u64,
        from: Address,
        to: Address,
        octets: &[u8],
        out: &mut Vec<Action>,
    ) -> Result<(), NoMemory>
        requires moment { now < 2 ^ 62 }
        ensures stands { OnOk result ((table : TableState) (s : SystemState) → StandsWith table self.old s → s.moment ≡ now
            → StandsWith table self.new (locally.replies s from to octets.now).after) }
        ensures actions { OnOk result ((table : TableState) (s : SystemState) → StandsWith table self.old s → s.moment ≡ now
            → Appends out.old.items out.new.items (locally.replies s from to octets.now).actions) }
        ensures same { OnErr result (self.new ≡ self.old) }
        ensures none { OnErr result (out.new.items ≡ out.old.items) }
        ensures config { self.new.config ≡ self.old.config }
    {
        let ask = self.echo_ask(&to, &from, octets.len(), false);
        match self.make(alloc, now, Kind::Erp, to, from, octets, &ask, out) {
            Ok(_) => Ok(()),
            Err(refusal) => {
                let note = refusal_note(refusal)?;
                out.push(Action::Note(note))?;
                Ok(())
            }
        }
    }

    /// Takes an echo reply for the oldest request that it answers, if there is one, and appends what is noted.
    ///
    /// # Errors
    ///
    /// `NoMemory`: nothing changes then.
    pub(super) fn take_reply(
        &mut self,
        from: Address,
        to: Address,
        octets: &[u8],
        out: &mut Vec<Action>,
    ) -> Result<(), NoMemory>
        ensures stands { OnOk result ((table : TableState) (s : SystemState) → StandsWith table self.old s
            → StandsWith table self.new (locally.is_replied s from to octets.now).after) }
        ensures actions { OnOk result ((table : TableState) (s : SystemState) → StandsWith table self.old s
            → Appends out.old.items out.new.items (locally.is_replied s from to octets.now).actions) }
        ensures same { OnErr result (self.new ≡ self.old) }
        ensures none { OnErr result (out.new.items ≡ out.old.items) }
        ensures config { self.new.config ≡ self.old.config }
    {
        let Ok(()) = out.reserve_exact(1) else {
            return Err(NoMemory);
        };
        let note = match self.pending.take(&from, &to, octets) {
            Some(unit) => Note::Echoed { from, to, unit },
            None => Note::Stray { from, to },
        };
        out.push_reserved(Action::Note(note));
        Ok(())
    }
}
