//! The entity of a system, be it a host or a router.
ghost use Rattle.std.specs.Prelude.{◌≡◌, ◌≤◌, ◌<◌, ◌+◌, ◌^◌, ℕ, List, IfErr, IfOk, OnOk, OnErr, IsErr, MatchResult, None, Err, true, false, [], ◌∷◌, ◌++◌, length, map};
ghost use Rattle.std.specs.List.{AllByRecursion};
ghost use Rattle.clnp_machine.specs.ClnpViews.Extent.{part, whole};
ghost use Rattle.clnp_machine.specs.ClnpOptions.Grammar.{FitsKind};
ghost use Rattle.clnp_machine.specs.ClnpOptions.Parameter.{parameters};
ghost use Rattle.clnp_machine.specs.PduHeader.Grammar.{is_report};
ghost use Rattle.clnp_machine.specs.Reassembly.Buffer.{held};
ghost use Rattle.clnp_machine.specs.ClnpPlan.declared.ask.SendRefusal.TheVariants.{NoMemory as WantsMemory};
ghost use Rattle.clnp_machine.specs.ClnpPlan.declared.output.Output.TheVariants.{Note as Noted};
ghost use Rattle.clnp_machine.specs.Content.{Content, IsCarried, frame_of};
ghost use Rattle.clnp_machine.specs.Given.{Appends};
ghost use Rattle.clnp_machine.specs.Local as locally;
ghost use Rattle.clnp_machine.specs.Local.{has_address, restarted};
ghost use Rattle.clnp_machine.specs.Step.{congest, effect_of, next_hop, way_of};
ghost use Rattle.clnp_machine.specs.Esis.{redirect};
ghost use Rattle.clnp_machine.specs.System.{SystemState, MomentComes, SendsEsis, first_state, next_number};
ghost use Rattle.clnp_machine.specs.SystemTables.declared.esis_tables.fact.TableKind.TheVariants.{Es};
ghost use Rattle.clnp_machine.specs.EsisTables.NextHop.{current_neighbour};
ghost use Rattle.clnp_machine.specs.Pdus.declared.nsap.target.Target.TheVariants.{System};
ghost use Rattle.clnp_systems.specs.Local.{IsWhy};
ghost use Rattle.clnp_systems.specs.Sending.{transmission};
ghost use Rattle.clnp_machine.specs.MadePdus.Left.{IsCutOf};
ghost use Rattle.clnp_systems.specs.Comes.{ComesOf, LeavesAsItWas, TellsPdu};
ghost use Rattle.clnp_systems.specs.EntityStands.{IsLeftBy, PartsStandSince, Stands};
ghost use Rattle.clnp_systems.specs.Steps.{IsSpentIn, TakesStep};

use crate::passing::Passing;
use crate::way::{by_route, host_hop, to_neighbour};
use crate::{EsisEntity, Local};
use clnp_machine::base::NoMemory;
use clnp_machine::clnp::Kind;
use clnp_machine::hearing::Neighbour;
use clnp_machine::nsaps::Address;
use clnp_machine::routing::Routes;
use clnp_machine::segmenting::Cuts;
use clnp_machine::system_plan::{
    Ask, Limits, Note, Output, PortConfig, Role, SendRefusal, SystemConfig,
};
use clnp_machine::views::Frame;
use clnp_machine::way::{Hop, Way};
use std::alloc::Global;
use std::marker::Model;

mod changing;
mod noting;
mod steps;

use steps::{begins_as_clnp, give_note, has_content, pass_pieces, ports_of, routes_of, tell_way};

/// What came of a frame.
#[derive(Clone, Copy)]
pub enum Arrival<'a> {
    /// All was done that is to be done.
    Done,
    /// It carries a PDU with a lifetime left for an address that isn't the system's, and nothing was done yet.
    Passes(Passing<'a>),
}

/// What a system does whatever its role. Its moment is that of its last `tick`, or of its start.
///
/// Once memory was refused in a call of it that has this answer it is spent: from then on each of them answers `NoMemory`.
///
/// A contract says by `Stands` which states of a system it stands for.
#[derive(Drop)]
pub struct SystemEntity {
    local: Local,
    esis: EsisEntity,
    ports: Vec<PortConfig>,
    routes: Routes,
    moment: u64,
    congested: bool,
    spent: bool,
}

impl Model for SystemEntity {
    ghost use Rattle.std.specs.Coded.{codes};
    ghost use Rattle.clnp_machine.specs.SystemTables.contracts.forwarding.routes.Routes.{the_row as row_of_routes};
    ghost use Rattle.clnp_systems.specs.EntityState.{SystemEntityState};
    ghost use Rattle.clnp_systems.specs.EntityStands.{IsSound};

    ghost Value = { SystemEntityState };

    ghost coded = { Prim.hlevel (codes, row_of_routes.coded) };

    ghost view = { λ e. record {
      local = e.local;
      esis = e.esis;
      ports = e.ports.items;
      routes = e.routes;
      moment = e.moment;
      congested = e.congested;
      spent = e.spent;
    } };

    ghost invariant = { λ e. IsSound (record {
      local = e.local;
      esis = e.esis;
      ports = e.ports.items;
      routes = e.routes;
      moment = e.moment;
      congested = e.congested;
      spent = e.spent;
    }) };
}

impl SystemEntity {
    /// The entity of a system at its start, at a moment. It makes no unit with an identifier before the moment `quiet`.
    ///
    /// # Errors
    ///
    /// `NoMemory`.
    pub fn new(
        alloc: Global,
        config: &SystemConfig,
        limits: &Limits,
        now: u64,
        quiet: u64,
    ) -> Result<SystemEntity, NoMemory>
        requires hold { 1 ≤ limits.now.hold }
        requires moment { now < 2 ^ 62 }
        requires quiet { quiet ≤ 2 ^ 62 + 16384 }
        ensures stands { IfOk result (λ entity. (place : ℕ) → Stands entity (first_state place config.now limits.now now quiet)) }
        ensures moment { IfOk result (λ entity. entity.moment ≡ now) }
    {
        // What has the fewest parts comes first: each of these is taken apart where memory is refused behind it.
        let ports = ports_of(alloc, config)?;
        let routes = routes_of(alloc, config)?;
        let esis = EsisEntity::new(alloc, config, now)?;
        let local = Local::new(alloc, config, limits, quiet)?;
        Ok(SystemEntity {
            local,
            esis,
            ports,
            routes,
            moment: now,
            congested: false,
            spent: false,
        })
    }

    /// A moment has come: what was waiting for it happens, and what the system gives out is appended.
    ///
    /// # Errors
    ///
    /// `NoMemory`: `out` is then as it was, and the entity is spent, at the moment at which it was.
    #[inline(always)]
    pub fn tick(&mut self, alloc: Global, now: u64, out: &mut Vec<Output>) -> Result<(), NoMemory>
        requires later { self.old.moment ≤ now }
        requires moment { now < 2 ^ 62 }
        ensures step { OnOk result ((role : Role) → TakesStep role (MomentComes now) self.old self.new out.old.items out.new.items) }
        ensures spent { OnErr result (IsSpentIn self.old self.new out.old.items out.new.items) }
        ensures refused { self.old.spent ≡ true → IsErr result }
    {
        if self.spent {
            return Err(NoMemory);
        }
        let before = self.moment;
        self.spent = true;
        if let Err(refused) = self.come_to(alloc, now, out) {
            self.moment = before;
            return Err(refused);
        }
        self.spent = false;
        Ok(())
    }

    /// A frame comes from a place on a subnetwork of the system's, to the system alone or through a group; what the system
    /// gives out is appended. A PDU for another address is left to the caller.
    ///
    /// # Errors
    ///
    /// `NoMemory`: `out` is then as it was, and the entity is spent.
    pub fn frame<'a>(
        &mut self,
        alloc: Global,
        neighbour: Neighbour,
        group: bool,
        frame: &'a Frame,
        out: &mut Vec<Output>,
    ) -> Result<Arrival<'a>, NoMemory>
        requires few { length frame.now ≤ 70000 }
        ensures comes { IfOk result (λ arrival. (s : SystemState) (content : Content) → Stands self.old s → IsCarried content
            → frame_of content ≡ frame.now → ComesOf arrival s neighbour group content self.new out.old.items out.new.items) }
        ensures left { IfOk result (λ arrival. LeavesAsItWas arrival self.old self.new out.old.items out.new.items) }
        ensures pdu { IfOk result (λ arrival. TellsPdu arrival frame.now) }
        ensures not_spent { OnOk result (self.new.spent ≡ false) }
        ensures none { OnErr result (out.new.items ≡ out.old.items) }
        ensures spent { OnErr result (self.new.spent ≡ true) }
        ensures refused { self.old.spent ≡ true → IsErr result }
        ensures moment { self.new.moment ≡ self.old.moment }
        ensures congested { self.new.congested ≡ self.old.congested }
        ensures config { self.new.local.configuration ≡ self.old.local.configuration }
    {
        if self.spent {
            return Err(NoMemory);
        }
        has_content(frame);
        self.spent = true;
        // A hello is told apart here: as a CLNP PDU it would be decoded in vain, and an answer filled that has room for one.
        if !begins_as_clnp(frame) {
            self.other_comes(alloc, neighbour, frame, out)?;
            self.spent = false;
            return Ok(Arrival::Done);
        }
        match self.arrive(alloc, neighbour, group, frame, out) {
            Ok(arrival) => {
                self.spent = false;
                Ok(arrival)
            }
            Err(refused) => Err(refused),
        }
    }

    /// A PDU that came in a frame is discarded, for a reason and with the place of the octet at fault (ISO/IEC 8473, section
    /// 6.9); what the system gives out is appended.
    ///
    /// # Errors
    ///
    /// `NoMemory`: `out` is then as it was, and the entity is spent.
    pub fn discard(
        &mut self,
        alloc: Global,
        frame: &Frame,
        reason: u8,
        place: u8,
        out: &mut Vec<Output>,
    ) -> Result<(), NoMemory>
        requires few { length frame.now ≤ 70000 }
        ensures stands { OnOk result ((s : SystemState) (content : Content) → Stands self.old s → IsCarried content
            → frame_of content ≡ frame.now → Stands self.new (locally.discard s content reason place).after) }
        ensures outputs { OnOk result ((s : SystemState) (content : Content) → Stands self.old s → IsCarried content
            → frame_of content ≡ frame.now
            → Appends s.moment None out.old.items out.new.items
            (effect_of (locally.discard s content reason place)).outputs) }
        ensures none { OnErr result (out.new.items ≡ out.old.items) }
        ensures spent { OnErr result (self.new.spent ≡ true) }
        ensures refused { self.old.spent ≡ true → IsErr result }
        ensures moment { self.new.moment ≡ self.old.moment }
        ensures congested { self.new.congested ≡ self.old.congested }
        ensures config { self.new.local.configuration ≡ self.old.local.configuration }
    {
        if self.spent {
            return Err(NoMemory);
        }
        has_content(frame);
        self.spent = true;
        self.drop_frame(alloc, frame, reason, place, out)?;
        self.spent = false;
        Ok(())
    }

    /// The PDU whose data are `len` octets of a frame that came, from place `from` on, goes on in pieces, which are taken from
    /// `cuts`, to where it goes next.
    ///
    /// # Errors
    ///
    /// `NoMemory`: `out` is then as it was, and the entity is spent.
    pub fn pass_on(
        &mut self,
        alloc: Global,
        frame: &Frame,
        from: usize,
        len: usize,
        cuts: &mut Cuts,
        hop: Hop,
        out: &mut Vec<Output>,
    ) -> Result<(), NoMemory>
        requires within { from + len ≤ length frame.now }
        requires cuts { AllByRecursion (IsCutOf len) cuts.old }
        ensures given { OnOk result (out.new.items ≡ out.old.items ++ map (transmission true hop (part from len (whole frame.now))) cuts.old) }
        ensures same { OnOk result (self.new ≡ self.old) }
        ensures none { OnErr result (out.new.items ≡ out.old.items) }
        ensures spent { OnErr result (self.new.spent ≡ true) }
        ensures refused { self.old.spent ≡ true → IsErr result }
        ensures moment { self.new.moment ≡ self.old.moment }
        ensures congested { self.new.congested ≡ self.old.congested }
        ensures config { self.new.local.configuration ≡ self.old.local.configuration }
    {
        if self.spent {
            return Err(NoMemory);
        }
        match pass_pieces(alloc, frame, from, len, cuts, hop, out) {
            Ok(()) => Ok(()),
            Err(_) => {
                self.spent = true;
                Err(NoMemory)
            }
        }
    }

    /// Tells a system, at a place of its own, of the way to an address (ISO 9542, section 6.8).
    ///
    /// # Errors
    ///
    /// `NoMemory`: `out` is then as it was, and the entity is spent.
    pub fn redirect(
        &mut self,
        alloc: Global,
        neighbour: Neighbour,
        to: &Address,
        way: &Way,
        out: &mut Vec<Output>,
    ) -> Result<(), NoMemory>
        ensures given { OnOk result ((s : SystemState) (moment : ℕ) → s.configuration ≡ self.old.local.configuration
            → Appends moment None out.old.items out.new.items
            (SendsEsis neighbour.port (System neighbour.snpa)
            (redirect s to.now way.now.neighbour.snpa way.now.title) ∷ [])) }
        ensures same { OnOk result (self.new ≡ self.old) }
        ensures none { OnErr result (out.new.items ≡ out.old.items) }
        ensures spent { OnErr result (self.new.spent ≡ true) }
        ensures refused { self.old.spent ≡ true → IsErr result }
        ensures moment { self.new.moment ≡ self.old.moment }
        ensures congested { self.new.congested ≡ self.old.congested }
        ensures config { self.new.local.configuration ≡ self.old.local.configuration }
    {
        if self.spent {
            return Err(NoMemory);
        }
        match tell_way(alloc, self.local.config(), neighbour, to, way, out) {
            Ok(()) => Ok(()),
            Err(_) => {
                self.spent = true;
                Err(NoMemory)
            }
        }
    }

    /// Something is noted.
    ///
    /// # Errors
    ///
    /// `NoMemory`: `out` is then as it was, and the entity is spent.
    pub fn note(&mut self, note: Note, out: &mut Vec<Output>) -> Result<(), NoMemory>
        ensures noted { OnOk result (out.new.items ≡ out.old.items ++ Noted note ∷ []) }
        ensures same { OnOk result (self.new ≡ self.old) }
        ensures none { OnErr result (out.new.items ≡ out.old.items) }
        ensures spent { OnErr result (self.new.spent ≡ true) }
        ensures refused { self.old.spent ≡ true → IsErr result }
        ensures moment { self.new.moment ≡ self.old.moment }
        ensures congested { self.new.congested ≡ self.old.congested }
        ensures config { self.new.local.configuration ≡ self.old.local.configuration }
    {
        if self.spent {
            return Err(NoMemory);
        }
        match give_note(note, out) {
            Ok(()) => Ok(()),
            Err(_) => {
                self.spent = true;
                Err(NoMemory)
            }
        }
    }

    /// Makes a unit of some octets and sends it, cut for the MTU where it may be; what the system gives out is appended.
    /// Gives the unit's number.
    ///
    /// # Errors
    ///
    /// The first of these that holds: `NotMine` exactly where the source isn't one of the system's addresses; `TooLong`
    /// exactly where the body has more than 64,512 octets, or else its header would have more than 254; `Quiet` or
    /// `IdsBusy` exactly where it may be segmented and no identifier can be drawn for it. Nothing changes then. At
    /// `NoMemory` `out` is as it was, and the entity is spent.
    pub fn make(
        &mut self,
        alloc: Global,
        kind: Kind,
        from: Address,
        to: Address,
        body: &[u8],
        ask: &Ask,
        out: &mut Vec<Output>,
    ) -> Result<u64, SendRefusal>
        requires { FitsKind (is_report kind) (parameters ask.now.options) }
        ensures answer { (s : SystemState) → Stands self.old s → MatchResult result
            (λ unit. (locally.refusal s (locally.unit_of s kind from to body.now ask.now) ≡ None) × (unit ≡ next_number s))
            (λ e. IsWhy e (locally.refusal s (locally.unit_of s kind from to body.now ask.now))) }
        ensures stands { OnOk result ((s : SystemState) → Stands self.old s
            → Stands self.new (locally.make s kind from to body.now ask.now).after) }
        ensures outputs { OnOk result ((s : SystemState) → Stands self.old s
            → Appends s.moment None out.old.items out.new.items
            (effect_of (locally.make s kind from to body.now ask.now)).outputs) }
        ensures none { OnErr result (out.new.items ≡ out.old.items) }
        ensures left { IfErr result (λ e. IsLeftBy e self.old self.new) }
        ensures refused { self.old.spent ≡ true → result ≡ Err WantsMemory }
        ensures moment { self.new.moment ≡ self.old.moment }
        ensures congested { self.new.congested ≡ self.old.congested }
        ensures config { self.new.local.configuration ≡ self.old.local.configuration }
    {
        if self.spent {
            return Err(SendRefusal::NoMemory);
        }
        self.spent = true;
        match self.make_unit(alloc, kind, from, to, body, ask, out) {
            Ok(unit) => {
                self.spent = false;
                Ok(unit)
            }
            Err(SendRefusal::NoMemory) => Err(SendRefusal::NoMemory),
            Err(refusal) => {
                self.spent = false;
                Err(refusal)
            }
        }
    }

    /// Makes an echo request of some octets and sends it, cut for the MTU where it may be (RFC 1575); what the system gives
    /// out is appended. Gives the request's number.
    ///
    /// # Errors
    ///
    /// Those of `make`.
    pub fn echo(
        &mut self,
        alloc: Global,
        from: Address,
        to: Address,
        body: &[u8],
        out: &mut Vec<Output>,
    ) -> Result<u64, SendRefusal>
        ensures answer { (s : SystemState) → Stands self.old s → MatchResult result
            (λ unit. (locally.refusal s (locally.request_unit s from to body.now) ≡ None) × (unit ≡ next_number s))
            (λ e. IsWhy e (locally.refusal s (locally.request_unit s from to body.now))) }
        ensures stands { OnOk result ((s : SystemState) → Stands self.old s
            → Stands self.new (locally.requests_echo s from to body.now).after) }
        ensures outputs { OnOk result ((s : SystemState) → Stands self.old s
            → Appends s.moment None out.old.items out.new.items
            (effect_of (locally.requests_echo s from to body.now)).outputs) }
        ensures none { OnErr result (out.new.items ≡ out.old.items) }
        ensures left { IfErr result (λ e. IsLeftBy e self.old self.new) }
        ensures refused { self.old.spent ≡ true → result ≡ Err WantsMemory }
        ensures moment { self.new.moment ≡ self.old.moment }
        ensures congested { self.new.congested ≡ self.old.congested }
        ensures config { self.new.local.configuration ≡ self.old.local.configuration }
    {
        let ask = self.local.echo_ask(&from, &to, body.len(), true);
        self.make(alloc, Kind::Erq, from, to, body, &ask, out)
    }

    /// Forgets all that it keeps and heard, and is quiet as long as an identifier rests; the count of its units goes on, and its
    /// ports and its routes stay.
    pub fn restart(&mut self)
        ensures stands { (s : SystemState) → Stands self.old s → Stands self.new (restarted s) }
        ensures spent { self.new.spent ≡ self.old.spent }
        ensures moment { self.new.moment ≡ self.old.moment }
        ensures config { self.new.local.configuration ≡ self.old.local.configuration }
    {
        self.congested = false;
        self.local.restart(self.moment);
        self.esis.restart(self.local.config(), self.moment);
    }

    /// It is congested from now on, or no more.
    pub fn congest(&mut self, on: bool)
        ensures stands { (s : SystemState) → Stands self.old s → Stands self.new (congest s on).after }
        ensures congested { self.new ≡ record self.old { congested = on } }
        ensures spent { self.new.spent ≡ self.old.spent }
        ensures moment { self.new.moment ≡ self.old.moment }
        ensures config { self.new.local.configuration ≡ self.old.local.configuration }
    {
        self.congested = on;
    }

    /// Its moment, in ticks of 500 ms.
    pub fn moment(&self) -> u64
        ensures moment { result ≡ self.now.moment }
        ensures within { result < 2 ^ 62 }
    {
        self.moment
    }

    /// Whether it is congested.
    pub fn is_congested(&self) -> bool
        ensures { (s : SystemState) (before : ℕ) → PartsStandSince before self.now s → result ≡ s.congested }
    {
        self.congested
    }

    /// How many octets are held for reassembly: of the whole frames in which kept segments came.
    pub fn held(&self) -> u32
        ensures { (s : SystemState) → Stands self.now s → result ≡ held s.buffers }
    {
        self.local.held()
    }

    /// The way of a router to an address: to the end system of this address, where it heard of it, else by the route with
    /// the most digits among those that cover the address (ISO/IEC 8473, section 6.5).
    pub fn way(&self, to: &Address) -> Option<Way>
        ensures { (s : SystemState) (before : ℕ) → PartsStandSince before self.now s
            → result ≡ way_of s to.now }
    {
        if let Some(neighbour) = self.esis.neighbour(self.moment, to) {
            return Some(to_neighbour(neighbour));
        }
        let Some(route) = self.routes.longest(to) else {
            return None;
        };
        Some(by_route(route))
    }

    /// Where the end system of an address is, if it is known.
    pub fn neighbour(&self, of: &Address) -> Option<Neighbour>
        ensures { (s : SystemState) (before : ℕ) → PartsStandSince before self.now s
            → result ≡ current_neighbour s.moment Es of.now s.facts }
    {
        self.esis.neighbour(self.moment, of)
    }

    /// Where it sends a PDU for an address, if it knows a way (ISO 9542, section 6.5).
    pub fn next_hop(&self, to: &Address) -> Option<Hop>
        ensures { (s : SystemState) (before : ℕ) → PartsStandSince before self.now s
            → result ≡ next_hop s to.now }
    {
        match self.local.config().role() {
            Role::Host => Some(host_hop(self.esis.next_hop(self.moment, to))),
            Role::Router => {
                let Some(way) = self.way(to) else {
                    return None;
                };
                Some(way.hop())
            }
        }
    }

    /// What the scenario says of it.
    pub fn config(&self) -> &SystemConfig
        ensures { result.now ≡ self.now.local.configuration }
    {
        self.local.config()
    }
}
