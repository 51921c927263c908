//! What a system does at its own addresses: it makes units, and receives what is for it (ISO/IEC 8473, sections 6.1, 6.2,
//! 6.8 and 6.9).
ghost use Rattle.std.specs.Prelude.{◌≡◌, ◌≤◌, ◌<◌, ◌+◌, ◌^◌, ℕ, false, IfOk, OnOk, OnErr, MatchResult, None, length};
ghost use Rattle.clnp_machine.specs.ClnpOptions.Grammar.{FitsKind};
ghost use Rattle.clnp_machine.specs.ClnpOptions.Parameter.{parameters};
ghost use Rattle.clnp_machine.specs.Content.{Content, IsCarried, frame_of};
ghost use Rattle.clnp_machine.specs.PduHeader.Grammar.{is_report};
ghost use Rattle.clnp_machine.specs.Reassembly.Buffer.{held};
ghost use Rattle.clnp_machine.specs.Reassembly.State.{IsReady};
ghost use Rattle.clnp_machine.specs.System.{SystemState, first_state, next_number};
ghost use Rattle.clnp_machine.specs.Local as locally;
ghost use Rattle.clnp_machine.specs.Local.{has_address};
ghost use Rattle.clnp_systems.specs.Local.{Appends, IsWhy, Stands};

use crate::action::Action;
use crate::endpoint::Endpoint;
use clnp_machine::base::NoMemory;
use clnp_machine::clnp::Kind;
use clnp_machine::nsaps::Address;
use clnp_machine::reassembling::{Table, TableLimits};
use clnp_machine::system_plan::{Ask, Limits, SendRefusal, SystemConfig};
use clnp_machine::views::Frame;
use std::alloc::Global;
use std::marker::Model;

mod receipt;

/// The entity of a system that serves the system's own addresses.
///
/// A contract says by `Stands` which states of a system it stands for.
#[derive(Drop)]
pub struct Local {
    endpoint: Endpoint,
    table: Table,
}

impl Model for Local {
    ghost use Rattle.clnp_systems.specs.LocalState.{EntityState};

    ghost Value = { EntityState };

    ghost use Rattle.clnp_systems.specs.LocalSeen.{IsSound, state_of};

    ghost view = { state_of };

    ghost invariant = { λ l. IsSound l.table };
}

impl Local {
    /// The entity of a system at its start, which makes no unit with an identifier before the moment `quiet`. It reserves
    /// all the room that its identifiers, its buffers and its echo requests will need.
    ///
    /// # Errors
    ///
    /// `NoMemory`.
    pub fn new(
        alloc: Global,
        config: &SystemConfig,
        limits: &Limits,
        quiet: u64,
    ) -> Result<Local, NoMemory>
        requires hold { 1 ≤ limits.now.hold }
        requires quiet { quiet ≤ 2 ^ 62 + 16384 }
        ensures stands { IfOk result (λ local. (place now : ℕ) → Stands local (first_state place config.now limits.now now quiet)) }
        ensures ready { IfOk result (λ local. (now : ℕ) → IsReady now local.table) }
    {
        let settings = config.settings();
        let table_limits = TableLimits {
            slots: settings.slots,
            segments: settings.segments,
            budget: settings.budget,
            hold: limits.hold,
        };
        let endpoint = Endpoint::new(alloc, config, limits.reuse, quiet)?;
        let table = Table::new(alloc, table_limits)?;
        Ok(Local { endpoint, table })
    }

    /// Makes a unit of some octets, which are copied once nothing refuses it, and appends its note and then the unit
    /// itself. An echo request is still to be answered then, in place of the oldest of those that are where they are
    /// eight.
    ///
    /// # Errors
    ///
    /// The first of these that holds: `NotMine` exactly where the source isn't one of the system's addresses; `TooLong`
    /// exactly where the body has more than 64,512 octets, or else its header would have more than 254; `Quiet` or
    /// `IdsBusy` exactly where it may be segmented and no identifier can be drawn for it. Nothing changes then, nor at
    /// `NoMemory`.
    pub fn make(
        &mut self,
        alloc: Global,
        now: u64,
        kind: Kind,
        from: Address,
        to: Address,
        body: &[u8],
        ask: &Ask,
        out: &mut Vec<Action>,
    ) -> Result<u64, SendRefusal>
        requires moment { now < 2 ^ 62 }
        requires options { FitsKind (is_report kind) (parameters ask.now.options) }
        ensures answer { (s : SystemState) → Stands self.old s → s.moment ≡ now → MatchResult result
            (λ unit. (locally.refusal s (locally.unit_of s kind from to body.now ask.now) ≡ None) × (unit ≡ next_number s))
            (λ e. IsWhy e (locally.refusal s (locally.unit_of s kind from to body.now ask.now))) }
        ensures stands { OnOk result ((s : SystemState) → Stands self.old s → s.moment ≡ now
            → Stands self.new (locally.make s kind from to body.now ask.now).after) }
        ensures actions { OnOk result ((s : SystemState) → Stands self.old s → s.moment ≡ now
            → Appends out.old.items out.new.items (locally.make s kind from to body.now ask.now).actions) }
        ensures same { OnErr result (self.new ≡ self.old) }
        ensures none { OnErr result (out.new.items ≡ out.old.items) }
        ensures config { self.new.configuration ≡ self.old.configuration }
        ensures table { self.new.table ≡ self.old.table }
    {
        self.endpoint
            .make(alloc, now, kind, from, to, body, ask, out)
    }

    /// Whether an address is one of the system's.
    pub fn is_own(&self, address: &Address) -> bool
        ensures { result ≡ has_address self.now.configuration address.now }
    {
        self.endpoint.is_own(address)
    }

    /// How an echo request or reply with so many octets of data is sent: with the system's own lifetime, without options,
    /// and such that it may be segmented where not every subnetwork takes it in one piece.
    pub fn echo_ask(&self, from: &Address, to: &Address, len: usize, report: bool) -> Ask
        ensures value { (s : SystemState) → Stands self.now s → result ≡ locally.echo_ask s from.now to.now len report }
        ensures options { FitsKind false (parameters result.options) }
    {
        self.endpoint.echo_ask(from, to, len, report)
    }

    /// Discards a PDU that came in a frame, for a reason and with the place of the octet at fault, and appends what is
    /// noted and sent (ISO/IEC 8473, section 6.9): an error report is made where the frame is reportable, from the system's
    /// title (section 6.10).
    ///
    /// # Errors
    ///
    /// `NoMemory`: nothing changes then.
    pub fn discard(
        &mut self,
        alloc: Global,
        now: u64,
        frame: &Frame,
        reason: u8,
        place: u8,
        out: &mut Vec<Action>,
    ) -> Result<(), NoMemory>
        requires moment { now < 2 ^ 62 }
        requires few { length frame.now ≤ 70000 }
        ensures stands { OnOk result ((s : SystemState) (content : Content) → Stands self.old s → s.moment ≡ now
            → IsCarried content → frame_of content ≡ frame.now
            → Stands self.new (locally.discard s content reason place).after) }
        ensures actions { OnOk result ((s : SystemState) (content : Content) → Stands self.old s → s.moment ≡ now
            → IsCarried content → frame_of content ≡ frame.now
            → Appends out.old.items out.new.items (locally.discard s content reason place).actions) }
        ensures same { OnErr result (self.new ≡ self.old) }
        ensures none { OnErr result (out.new.items ≡ out.old.items) }
        ensures config { self.new.configuration ≡ self.old.configuration }
        ensures table { self.new.table ≡ self.old.table }
    {
        let frame = frame.view()?;
        let Ok(()) = out.reserve_exact(3) else {
            return Err(NoMemory);
        };
        self.endpoint.discard(frame, reason, place, out);
        Ok(())
    }

    /// Forgets the identifiers that were used, all segments and all echo requests, and is quiet as long as an identifier
    /// rests. The count of units goes on.
    pub fn restart(&mut self, now: u64)
        requires { now < 2 ^ 62 }
        ensures stands { (s : SystemState) → Stands self.old s → s.moment ≡ now
            → Stands self.new (locally.restarted s) }
        ensures config { self.new.configuration ≡ self.old.configuration }
        ensures ready { (moment : ℕ) → IsReady moment self.new.table }
    {
        self.endpoint.restart(now);
        self.table.clear();
    }

    /// How many octets are held for reassembly: of the whole frames in which kept segments came.
    pub fn held(&self) -> u32
        ensures held { (s : SystemState) → Stands self.now s → result ≡ held s.buffers }
    {
        self.table.held()
    }

    /// What the scenario says of the system.
    pub fn config(&self) -> &SystemConfig
        ensures { result.now ≡ self.now.configuration }
    {
        self.endpoint.config()
    }
}
