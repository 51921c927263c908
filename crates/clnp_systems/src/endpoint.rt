//! A system as the source and the destination of whole data units (ISO/IEC 8473, sections 6.1 and 6.2).
ghost use Rattle.std.specs.Prelude.{◌≡◌, ◌≤◌, ◌<◌, ◌+◌, ◌-◌, ◌^◌, ◌∷◌, [], ℕ, min, IfOk, OnOk, OnErr, List, MatchResult, None, Some, if◌then◌else◌, length, vec_capacity, vec_len};
ghost use Rattle.clnp_machine.specs.ClnpOptions.Grammar.{FitsKind};
ghost use Rattle.clnp_machine.specs.ClnpOptions.Parameter.{parameters, spelled};
ghost use Rattle.clnp_machine.specs.ClnpViews.Extent.{whole};
ghost use Rattle.clnp_machine.specs.ClnpPlan.declared.ask.SendRefusal.TheVariants.{TooLong};
ghost use Rattle.clnp_machine.specs.Identifiers.{Identifiers, opening, restarted};
ghost use Rattle.clnp_machine.specs.PduHeader.Grammar.{is_report};
ghost use Rattle.clnp_machine.specs.PduHeader.Headers.{SpellsHeader};
ghost use Rattle.clnp_machine.specs.PduHeader.Parts.{AreFit, parts_value};
ghost use Rattle.clnp_machine.specs.Reassembly.State.{TableState};
ghost use Rattle.clnp_machine.specs.System.{SystemState, next_number};
ghost use Rattle.clnp_machine.specs.Local as locally;
ghost use Rattle.clnp_machine.specs.Local.{Sends, Tells, has_address, sent_note};
ghost use Rattle.clnp_machine.specs.Unit.{DataUnit, value_of, whole_packet};
ghost use Rattle.clnp_systems.specs.Endpoint.{StandsWith};
ghost use Rattle.clnp_systems.specs.Local.{Appends, IsDraft, IsWhy};
ghost use Rattle.clnp_systems.specs.Pool.{Stands as StandsFor};

use crate::action::{Action, Draft, Made};
use crate::pending::{Pending, Request};
use crate::pool::{DrawRefusal, IdPool};
use clnp_machine::base::NoMemory;
use clnp_machine::clnp::{
    FIXED_PART, Header, HeaderRefusal, Kind, Parts, SEGMENTATION_PART, SegPart,
};
use clnp_machine::nsaps::Address;
use clnp_machine::system_plan::{Ask, Note, SendRefusal, SystemConfig};
use clnp_machine::views::{Frame, View};
use std::alloc::Global;

mod delivery;
mod echoing;
mod reporting;

/// The most octets that a unit may have.
const MOST_OCTETS: usize = 64_512;

/// What a system makes data units with, and is handed whole ones by. It knows of no segments, so all that it does can be
/// done while one has just made a unit whole.
///
/// A contract says by `StandsWith` which states of a system it stands for together with a table of reassembly buffers.
#[derive(Drop)]
pub(crate) struct Endpoint {
    config: SystemConfig,
    pool: IdPool,
    /// The number of the last unit that it made.
    units: u64,
    pending: Pending,
}

impl Endpoint {
    /// That of a system at its start, which makes no unit with an identifier before the moment `quiet`. It reserves all the
    /// room that its identifiers and its echo requests will need.
    ///
    /// # Errors
    ///
    /// `NoMemory`.
    pub(crate) fn new(
        alloc: Global,
        config: &SystemConfig,
        reuse: u16,
        quiet: u64,
    ) -> Result<Endpoint, NoMemory>
        requires { quiet ≤ 2 ^ 62 + 16384 }
        ensures config { IfOk result (λ endpoint. endpoint.config ≡ config.now) }
        ensures identifiers { IfOk result (λ endpoint. StandsFor endpoint.pool (opening reuse quiet)) }
        ensures count { IfOk result (λ endpoint. endpoint.units ≡ 0) }
        ensures pending { IfOk result (λ endpoint. endpoint.pending ≡ []) }
    {
        let config = config.copy(alloc)?;
        let pool = IdPool::new(alloc, reuse, quiet)?;
        let pending = Pending::new(alloc)?;
        Ok(Endpoint {
            config,
            pool,
            units: 0,
            pending,
        })
    }

    /// Makes a unit of some octets, which are copied once nothing refuses it, and appends its note and then the unit
    /// itself. An echo request is still to be answered then, in place of the oldest of those that are where they are
    /// eight.
    ///
    /// # Errors
    ///
    /// The first of these that holds: `NotMine` exactly where the source isn't one of the system's addresses; `TooLong`
    /// exactly where the body has more than 64,512 octets, or else its header would have more than 254; `Quiet` or
    /// `IdsBusy` exactly where it may be segmented and no identifier can be drawn for it. Nothing changes then, nor at
    /// `NoMemory`.
    pub(crate) fn make(
        &mut self,
        alloc: Global,
        now: u64,
        kind: Kind,
        from: Address,
        to: Address,
        body: &[u8],
        ask: &Ask,
        out: &mut Vec<Action>,
    ) -> Result<u64, SendRefusal>
        requires moment { now < 2 ^ 62 }
        requires options { FitsKind (is_report kind) (parameters ask.now.options) }
        ensures answer { (table : TableState) (s : SystemState) → StandsWith table self.old s → s.moment ≡ now → MatchResult result
            (λ unit. (locally.refusal s (locally.unit_of s kind from to body.now ask.now) ≡ None) × (unit ≡ next_number s))
            (λ e. IsWhy e (locally.refusal s (locally.unit_of s kind from to body.now ask.now))) }
        ensures stands { OnOk result ((table : TableState) (s : SystemState) → StandsWith table self.old s → s.moment ≡ now
            → StandsWith table self.new (locally.make s kind from to body.now ask.now).after) }
        ensures actions { OnOk result ((table : TableState) (s : SystemState) → StandsWith table self.old s → s.moment ≡ now
            → Appends out.old.items out.new.items (locally.make s kind from to body.now ask.now).actions) }
        ensures same { OnErr result (self.new ≡ self.old) }
        ensures none { OnErr result (out.new.items ≡ out.old.items) }
        ensures config { self.new.config ≡ self.old.config }
    {
        let head = self.next_header(now, kind, from, to, body.len(), ask)?;
        let Ok(body) = copied(alloc, body) else {
            return Err(SendRefusal::NoMemory);
        };
        let unit = self.units.saturating_add(1);
        let Ok(request) = Request::of(kind, unit, from, to, &body) else {
            return Err(SendRefusal::NoMemory);
        };
        let Ok(()) = out.reserve_exact(2) else {
            return Err(SendRefusal::NoMemory);
        };
        let id = drawn(&mut self.pool, now, ask.segment);
        self.pending.note(request);
        let draft = Draft {
            kind,
            id,
            from,
            to,
            head,
            body,
        };
        Ok(self.send(draft, out))
    }

    /// Gives a unit the next number, and appends its note and then the unit itself, for which there is room.
    fn send(&mut self, draft: Draft, out: &mut Vec<Action>) -> u64
        requires few { draft.body.len ≤ 64512 }
        requires room { vec_len out.old + 2 ≤ vec_capacity out.old }
        ensures number { result ≡ min (self.old.units + 1) (2 ^ 64 - 1) }
        ensures counted { self.new ≡ record self.old { units = result } }
        ensures actions { (u : DataUnit) → IsDraft draft u → result ≡ u.number
            → Appends out.old.items out.new.items (Tells (sent_note u) ∷ Sends u ∷ []) }
        ensures len { vec_len out.new ≤ vec_len out.old + 2 }
        ensures capacity { vec_capacity out.old ≤ vec_capacity out.new }
    {
        let unit = self.units.saturating_add(1);
        self.units = unit;
        let sent = Note::Sent {
            kind: draft.kind,
            unit,
            id: draft.id,
            from: draft.from,
            to: draft.to,
            len: draft.body.len() as u32,
        };
        out.push_reserved(Action::Note(sent));
        out.push_reserved(Action::Send(Made {
            unit,
            to: draft.to,
            head: draft.head,
            body: draft.body,
        }));
        unit
    }

    /// The header of the next unit's initial PDU, unless the unit is refused.
    fn next_header(
        &self,
        now: u64,
        kind: Kind,
        from: Address,
        to: Address,
        body_len: usize,
        ask: &Ask,
    ) -> Result<Header, SendRefusal>
        requires moment { now < 2 ^ 62 }
        requires options { FitsKind (is_report kind) (parameters ask.now.options) }
        ensures answer { (table : TableState) (s : SystemState) (octets : List ℕ) → StandsWith table self.now s → s.moment ≡ now
            → length octets ≡ body_len
            → MatchResult result
            (λ head. (locally.refusal s (locally.unit_of s kind from to octets ask.now) ≡ None)
            × SpellsHeader (value_of (whole_packet (locally.unit_of s kind from to octets ask.now))) head)
            (λ e. IsWhy e (locally.refusal s (locally.unit_of s kind from to octets ask.now))) }
        ensures few { OnOk result (body_len ≤ 64512) }
    {
        if !self.is_own(&from) {
            return Err(SendRefusal::NotMine);
        }
        if body_len > MOST_OCTETS {
            return Err(SendRefusal::TooLong { octets: body_len });
        }
        let head = self.header(kind, from, to, body_len, ask)?;
        may_draw(&self.pool, now, ask.segment)?;
        Ok(head)
    }

    /// The header of the next unit's initial PDU, unless it is too long.
    fn header(
        &self,
        kind: Kind,
        from: Address,
        to: Address,
        body_len: usize,
        ask: &Ask,
    ) -> Result<Header, SendRefusal>
        requires few { body_len ≤ 64512 }
        requires options { FitsKind (is_report kind) (parameters ask.now.options) }
        ensures { (table : TableState) (s : SystemState) (octets : List ℕ) → StandsWith table self.now s → length octets ≡ body_len
            → MatchResult result
            (λ head. SpellsHeader (value_of (whole_packet (locally.unit_of s kind from to octets ask.now))) head)
            (λ e. (e ≡ TooLong (locally.header_size (locally.unit_of s kind from to octets ask.now)))
            × (254 < locally.header_size (locally.unit_of s kind from to octets ask.now))) }
    {
        let parts = self.parts(kind, from, to, body_len, ask);
        match Header::make(&parts, body_len) {
            Ok(head) => Ok(head),
            Err(HeaderRefusal::HeaderTooLong { octets }) => Err(SendRefusal::TooLong { octets }),
            Err(HeaderRefusal::TotalTooLong { .. }) => unreachable!(),
        }
    }

    /// What the header of the next unit's initial PDU is made from.
    fn parts(&self, kind: Kind, from: Address, to: Address, body_len: usize, ask: &Ask) -> Parts
        requires few { body_len ≤ 64512 }
        requires options { FitsKind (is_report kind) (parameters ask.now.options) }
        ensures fit { AreFit result body_len }
        ensures value { (table : TableState) (s : SystemState) (octets : List ℕ) → StandsWith table self.now s → length octets ≡ body_len
            → parts_value result octets ≡ value_of (whole_packet (locally.unit_of s kind from to octets ask.now)) }
    {
        Parts {
            kind,
            life: ask.life,
            report: ask.report,
            more: false,
            to,
            from,
            seg: self.segmentation(&from, &to, body_len, ask),
            options: ask.options,
            sealed: self.config.settings().sealed,
        }
    }

    /// The segmentation part of the next unit's initial PDU, where the unit may be segmented (section 7.4).
    fn segmentation(
        &self,
        from: &Address,
        to: &Address,
        body_len: usize,
        ask: &Ask,
    ) -> Option<SegPart>
        requires { body_len ≤ 64512 }
        ensures { result ≡ (if ask.now.segment then Some (record {
          id = self.now.pool.next;
          offset = 0;
          total = 17 + length to.now + length from.now + length (spelled (parameters ask.now.options)) + body_len;
        }) else None) }
    {
        if !ask.segment {
            return None;
        }
        let addresses = 2 + to.as_bytes().len() + from.as_bytes().len();
        let options = ask.options.as_bytes().len();
        let head_len = FIXED_PART + addresses + SEGMENTATION_PART + options;
        Some(SegPart {
            id: self.pool.next(),
            offset: 0,
            total: (head_len + body_len) as u16,
        })
    }

    /// Whether an address is one of the system's.
    pub(crate) fn is_own(&self, address: &Address) -> bool
        ensures { result ≡ has_address self.now.config address.now }
    {
        self.config.addresses().iter().any(|own| own == address)
    }

    /// Forgets the identifiers that were used and all echo requests, and is quiet as long as an identifier rests. The count
    /// of units goes on.
    pub(crate) fn restart(&mut self, now: u64)
        requires { now < 2 ^ 62 }
        ensures identifiers { (ids : Identifiers) → StandsFor self.old.pool ids → StandsFor self.new.pool (restarted now ids) }
        ensures pending { self.new.pending ≡ [] }
        ensures count { self.new.units ≡ self.old.units }
        ensures config { self.new.config ≡ self.old.config }
    {
        self.pool.restart(now);
        self.pending.clear();
    }

    /// What the scenario says of the system.
    pub(crate) fn config(&self) -> &SystemConfig
        ensures { result.now ≡ self.now.config }
    {
        &self.config
    }
}

/// The view of a copy of some octets.
fn copied(alloc: Global, octets: &[u8]) -> Result<View, NoMemory>
    ensures { IfOk result (λ view. view ≡ whole octets.now) }
{
    Ok(Frame::copy(alloc, octets)?.into_view())
}

/// Whether an identifier can be drawn, where one is needed.
fn may_draw(pool: &IdPool, now: u64, segment: bool) -> Result<(), SendRefusal>
    requires { now < 2 ^ 62 }
    ensures { (s : SystemState) → StandsFor pool.now s.identifiers → s.moment ≡ now → MatchResult result
        (λ _. locally.identifier_refusal s (locally.identifier_for s segment) ≡ None)
        (λ e. IsWhy e (locally.identifier_refusal s (locally.identifier_for s segment))) }
{
    if !segment {
        return Ok(());
    }
    match pool.ready(now) {
        Ok(()) => Ok(()),
        Err(DrawRefusal::Quiet { until }) => Err(SendRefusal::Quiet { until }),
        Err(DrawRefusal::IdsBusy { used }) => Err(SendRefusal::IdsBusy { used }),
    }
}

/// The identifier of the next unit, where it needs one.
fn drawn(pool: &mut IdPool, now: u64, segment: bool) -> Option<u16>
    ensures id { (s : SystemState) → StandsFor pool.old s.identifiers → result ≡ locally.identifier_for s segment }
    ensures stands { (s : SystemState) → StandsFor pool.old s.identifiers → s.moment ≡ now
        → StandsFor pool.new (locally.with_use s (locally.identifier_for s segment)) }
{
    if !segment {
        return None;
    }
    Some(pool.use_next(now))
}
