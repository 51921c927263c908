//! The steps of a host.
ghost use Rattle.std.specs.Prelude.{◌≡◌, ◌≤◌, ◌<◌, ◌+◌, ◌^◌, ℕ, IfErr, IfOk, OnOk, OnErr, IsErr, MatchResult, None, Some, Err, true, false, length, slice_get, slice_set};
ghost use Rattle.std.specs.List.{AllByRecursion};
ghost use Rattle.clnp_machine.specs.ClnpOptions.Grammar.{FitsKind};
ghost use Rattle.clnp_machine.specs.ClnpOptions.Parameter.{parameters};
ghost use Rattle.clnp_machine.specs.Pdus.declared.pdu_header.kind.Kind.TheVariants.{Dt};
ghost use Rattle.clnp_machine.specs.Reassembly.Buffer.{held};
ghost use Rattle.clnp_machine.specs.Change.{PortIsAt, PortTakes, ports_taking};
ghost use Rattle.clnp_machine.specs.ClnpPlan.Configuration.{IsPort};
ghost use Rattle.clnp_machine.specs.ClnpPlan.declared.ask.SendRefusal.TheVariants.{NoMemory as WantsMemory};
ghost use Rattle.clnp_machine.specs.ClnpPlan.declared.config.Role.TheVariants.{Host};
ghost use Rattle.clnp_machine.specs.Content.{Content, IsCarried, frame_of};
ghost use Rattle.clnp_machine.specs.Given.{Appends};
ghost use Rattle.clnp_machine.specs.Local.{refusal, request_unit, unit_of};
ghost use Rattle.clnp_machine.specs.Step.{next_hop, step};
ghost use Rattle.clnp_machine.specs.declared.way.Hop.{Hop};
ghost use Rattle.clnp_machine.specs.System.{SystemState, AsksForEcho, AsksToSend, FrameComes, IsChanged, IsRestarted, IsCongested, MomentComes, first_state, next_number};
ghost use Rattle.clnp_systems.specs.Local.{IsWhy};
ghost use Rattle.clnp_systems.specs.Steps.{Carries, IsSpentIn, MayCome, TakesStep, input_with};
ghost use Rattle.clnp_systems.specs.EndSystem.Stands.{IsLeftBy, Stands};

use crate::{Arrival, Input, SystemEntity};
use clnp_machine::base::NoMemory;
use clnp_machine::clnp::Kind;
use clnp_machine::hearing::Neighbour;
use clnp_machine::nsaps::{Address, Snpa, Target};
use clnp_machine::system_plan::{Ask, Limits, Note, Output, PortConfig, SendRefusal, SystemConfig};
use clnp_machine::views::Frame;
use std::alloc::Global;
use std::marker::Model;

/// A host. Its moment is that of its last `tick`, or of its start.
///
/// Once memory was refused in `step`, `tick`, `frame`, `send` or `echo` it is spent: from then on each of them answers `NoMemory`.
///
/// A contract says by `Stands` which states of a system it stands for.
#[derive(Drop)]
pub struct EndSystem {
    entity: SystemEntity,
}

impl Model for EndSystem {
    ghost use Rattle.std.specs.Prelude.{◌≡◌};
    ghost use Rattle.clnp_machine.specs.ClnpPlan.declared.config.Role.TheVariants.{Host};
    ghost use Rattle.std.specs.Coded.{codes};
    ghost use Rattle.clnp_systems.specs.contracts.entity.SystemEntity.{the_row as row_of_entities};
    ghost use Rattle.clnp_systems.specs.EndSystem.State.{HostState};

    ghost Value = { HostState };

    ghost coded = { Prim.hlevel (codes, row_of_entities.coded) };

    ghost view = { λ h. record { entity = h.entity } };

    ghost invariant = { λ h. h.entity.local.configuration.role ≡ Host };
}

impl EndSystem {
    /// A host at its start, at a moment. It makes no unit with an identifier before the moment `quiet`.
    ///
    /// # Errors
    ///
    /// `NoMemory`.
    pub fn new(
        alloc: Global,
        config: &SystemConfig,
        limits: &Limits,
        now: u64,
        quiet: u64,
    ) -> Result<EndSystem, NoMemory>
        requires role { config.now.role ≡ Host }
        requires hold { 1 ≤ limits.now.hold }
        requires moment { now < 2 ^ 62 }
        requires quiet { quiet ≤ 2 ^ 62 + 16384 }
        ensures stands { IfOk result (λ host. (place : ℕ) → Stands host (first_state place config.now limits.now now quiet)) }
        ensures moment { IfOk result (λ host. host.entity.moment ≡ now) }
    {
        let entity = SystemEntity::new(alloc, config, limits, now, quiet)?;
        Ok(EndSystem { entity })
    }

    /// Something comes, whatever it is; what the host gives out is appended, and with it the note of a restart, of congestion, or of
    /// a unit that isn't made.
    ///
    /// # Errors
    ///
    /// `NoMemory`: `out` is then as it was, and the host is spent, at the moment at which it was.
    #[inline(always)]
    pub fn step(
        &mut self,
        alloc: Global,
        input: &Input<'_>,
        out: &mut Vec<Output>,
    ) -> Result<(), NoMemory>
        requires { MayCome self.old.entity.moment input.now }
        ensures step { OnOk result ((content : Content) → Carries input.now content
            → TakesStep Host (input_with content input.now) self.old.entity self.new.entity out.old.items out.new.items) }
        ensures spent { OnErr result (IsSpentIn self.old.entity self.new.entity out.old.items out.new.items) }
        ensures refused { self.old.entity.spent ≡ true → IsErr result }
    {
        match *input {
            Input::Moment(now) => self.tick(alloc, now, out),
            Input::Frame {
                port,
                from,
                group,
                frame,
            } => self.frame(alloc, port, from, group, frame, out),
            Input::Send {
                from,
                to,
                body,
                ask,
            } => self.entity.send_or_note(alloc, from, to, body, ask, out),
            Input::Echo { from, to, body } => self.entity.echo_or_note(alloc, from, to, body, out),
            Input::Restart => self.entity.restart_and_note(out),
            Input::Congest(on) => self.entity.congest_and_note(on, out),
        }
    }

    /// A moment has come: what was waiting for it happens, and what the host gives out is appended.
    ///
    /// # Errors
    ///
    /// `NoMemory`: `out` is then as it was, and the host is spent, at the moment at which it was.
    #[inline(always)]
    pub fn tick(&mut self, alloc: Global, now: u64, out: &mut Vec<Output>) -> Result<(), NoMemory>
        requires later { self.old.entity.moment ≤ now }
        requires moment { now < 2 ^ 62 }
        ensures step { OnOk result (TakesStep Host (MomentComes now) self.old.entity self.new.entity out.old.items out.new.items) }
        ensures spent { OnErr result (IsSpentIn self.old.entity self.new.entity out.old.items out.new.items) }
        ensures refused { self.old.entity.spent ≡ true → IsErr result }
    {
        self.entity.tick(alloc, now, out)
    }

    /// A frame comes at a port, from a system of this subnetwork, to the host alone or through a group; what the host
    /// gives out is appended.
    ///
    /// # Errors
    ///
    /// `NoMemory`: `out` is then as it was, and the host is spent, at the moment at which it was.
    pub fn frame(
        &mut self,
        alloc: Global,
        port: u8,
        from: Snpa,
        group: bool,
        frame: &Frame,
        out: &mut Vec<Output>,
    ) -> Result<(), NoMemory>
        requires few { length frame.now ≤ 70000 }
        ensures step { OnOk result ((content : Content) → IsCarried content → frame_of content ≡ frame.now
            → TakesStep Host (FrameComes port from group content) self.old.entity self.new.entity out.old.items out.new.items) }
        ensures spent { OnErr result (IsSpentIn self.old.entity self.new.entity out.old.items out.new.items) }
        ensures refused { self.old.entity.spent ≡ true → IsErr result }
    {
        let neighbour = Neighbour { port, snpa: from };
        match self.entity.frame(alloc, neighbour, group, frame, out) {
            Ok(Arrival::Done) => Ok(()),
            Ok(Arrival::Passes(passing)) => {
                self.entity.note(Note::NotMine { to: passing.to }, out)
            }
            Err(refused) => Err(refused),
        }
    }

    /// Makes a data unit of some octets and sends it, cut for the MTU where it may be; what the host gives out is
    /// appended. Gives the unit's number.
    ///
    /// # Errors
    ///
    /// The first of these that holds: `NotMine` exactly where the source isn't one of the host's addresses; `TooLong`
    /// exactly where the body has more than 64,512 octets, or else its header would have more than 254; `Quiet` or
    /// `IdsBusy` exactly where it may be segmented and no identifier can be drawn for it. Nothing changes then. At
    /// `NoMemory` `out` is as it was, and the host is spent.
    pub fn send(
        &mut self,
        alloc: Global,
        from: Address,
        to: Address,
        body: &[u8],
        ask: &Ask,
        out: &mut Vec<Output>,
    ) -> Result<u64, SendRefusal>
        requires { FitsKind false (parameters ask.now.options) }
        ensures answer { (s : SystemState) → Stands self.old s → MatchResult result
            (λ unit. (refusal s (unit_of s Dt from to body.now ask.now) ≡ None) × (unit ≡ next_number s))
            (λ e. IsWhy e (refusal s (unit_of s Dt from to body.now ask.now))) }
        ensures stands { OnOk result ((s : SystemState) → Stands self.old s → Stands self.new (step s (AsksToSend from to body.now ask.now)).after) }
        ensures outputs { OnOk result ((s : SystemState) → Stands self.old s
            → Appends self.old.entity.moment None out.old.items out.new.items
            (step s (AsksToSend from to body.now ask.now)).outputs) }
        ensures none { OnErr result (out.new.items ≡ out.old.items) }
        ensures left { IfErr result (λ e. IsLeftBy e self.old self.new) }
        ensures refused { self.old.entity.spent ≡ true → result ≡ Err WantsMemory }
        ensures moment { self.new.entity.moment ≡ self.old.entity.moment }
        ensures config { self.new.entity.local.configuration ≡ self.old.entity.local.configuration }
    {
        self.entity.make(alloc, Kind::Dt, from, to, body, ask, out)
    }

    /// Makes an echo request of some octets and sends it, cut for the MTU where it may be (RFC 1575); what the host gives out is
    /// appended. Gives the request's number.
    ///
    /// # Errors
    ///
    /// The first of these that holds: `NotMine` exactly where the source isn't one of the host's addresses; `TooLong`
    /// exactly where the body has more than 64,512 octets, or else its header would have more than 254; `Quiet` or
    /// `IdsBusy` exactly where it may be segmented and no identifier can be drawn for it. Nothing changes then. At
    /// `NoMemory` `out` is as it was, and the host is spent.
    pub fn echo(
        &mut self,
        alloc: Global,
        from: Address,
        to: Address,
        body: &[u8],
        out: &mut Vec<Output>,
    ) -> Result<u64, SendRefusal>
        ensures answer { (s : SystemState) → Stands self.old s → MatchResult result
            (λ unit. (refusal s (request_unit s from to body.now) ≡ None) × (unit ≡ next_number s))
            (λ e. IsWhy e (refusal s (request_unit s from to body.now))) }
        ensures stands { OnOk result ((s : SystemState) → Stands self.old s → Stands self.new (step s (AsksForEcho from to body.now)).after) }
        ensures outputs { OnOk result ((s : SystemState) → Stands self.old s
            → Appends self.old.entity.moment None out.old.items out.new.items
            (step s (AsksForEcho from to body.now)).outputs) }
        ensures none { OnErr result (out.new.items ≡ out.old.items) }
        ensures left { IfErr result (λ e. IsLeftBy e self.old self.new) }
        ensures refused { self.old.entity.spent ≡ true → result ≡ Err WantsMemory }
        ensures moment { self.new.entity.moment ≡ self.old.entity.moment }
        ensures config { self.new.entity.local.configuration ≡ self.old.entity.local.configuration }
    {
        self.entity.echo(alloc, from, to, body, out)
    }

    /// Forgets all that it keeps and heard, and is quiet as long as an identifier rests; the count of its units goes
    /// on, and its port stays as it is.
    pub fn restart(&mut self)
        ensures stands { (s : SystemState) → Stands self.old s → Stands self.new (step s IsRestarted).after }
        ensures spent { self.new.entity.spent ≡ self.old.entity.spent }
        ensures moment { self.new.entity.moment ≡ self.old.entity.moment }
        ensures config { self.new.entity.local.configuration ≡ self.old.entity.local.configuration }
    {
        self.entity.restart();
    }

    /// It is congested from now on, or no more; a restart ends it.
    pub fn congest(&mut self, on: bool)
        ensures stands { (s : SystemState) → Stands self.old s → Stands self.new (step s (IsCongested on)).after }
        ensures congested { self.new.entity ≡ record self.old.entity { congested = on } }
        ensures spent { self.new.entity.spent ≡ self.old.entity.spent }
        ensures moment { self.new.entity.moment ≡ self.old.entity.moment }
        ensures config { self.new.entity.local.configuration ≡ self.old.entity.local.configuration }
    {
        self.entity.congest(on);
    }

    /// Its one port, which has the number 0.
    pub fn ports(&self) -> &[PortConfig]
        ensures ports { result.now ≡ self.now.entity.ports }
        ensures stands { (s : SystemState) → Stands self.now s → result.now ≡ s.attached.ports }
        ensures each { AllByRecursion IsPort result.now }
        ensures one { length result.now ≡ 1 }
        ensures number { length result.now ≡ length self.now.entity.local.configuration.ports }
    {
        // Its clause: a host has one port.
        self.entity.config().is_system();
        self.entity.ports()
    }

    /// Its port is on the subnetwork of this configuration from now on, at its address and with its transit and MTU; the next hello
    /// is due.
    pub fn set_port(&mut self, config: PortConfig)
        requires transit { 1 ≤ config.transit }
        requires mtu { 512 ≤ config.mtu }
        ensures stands { (s : SystemState) → Stands self.old s
            → Stands self.new (step s (IsChanged (PortIsAt 0 config))).after }
        ensures set { self.new.entity ≡ record self.old.entity {
          ports = slice_set self.old.entity.ports 0 config;
          esis = record self.old.entity.esis { next_hello = self.old.entity.moment };
        } }
        ensures spent { self.new.entity.spent ≡ self.old.entity.spent }
        ensures moment { self.new.entity.moment ≡ self.old.entity.moment }
        ensures congested { self.new.entity.congested ≡ self.old.entity.congested }
        ensures config { self.new.entity.local.configuration ≡ self.old.entity.local.configuration }
    {
        // Its clause: a host has one port.
        let _ports = self.ports();
        self.entity.set_port(0, config);
    }

    /// Its port takes frames of so many octets from now on.
    pub fn set_mtu(&mut self, mtu: u16)
        requires { 512 ≤ mtu }
        ensures stands { (s : SystemState) → Stands self.old s
            → Stands self.new (step s (IsChanged (PortTakes 0 mtu))).after }
        ensures set { self.new.entity ≡ record self.old.entity {
          ports = ports_taking 0 mtu (slice_get self.old.entity.ports 0) self.old.entity.ports;
        } }
        ensures spent { self.new.entity.spent ≡ self.old.entity.spent }
        ensures moment { self.new.entity.moment ≡ self.old.entity.moment }
        ensures congested { self.new.entity.congested ≡ self.old.entity.congested }
        ensures config { self.new.entity.local.configuration ≡ self.old.entity.local.configuration }
    {
        // Its clause: a host has one port.
        let _ports = self.ports();
        self.entity.set_mtu(0, mtu);
    }

    /// Its moment, in ticks of 500 ms.
    pub fn moment(&self) -> u64
        ensures moment { result ≡ self.now.entity.moment }
        ensures within { result < 2 ^ 62 }
    {
        self.entity.moment()
    }

    /// How many octets are held for reassembly: of the whole frames in which kept segments came.
    pub fn held(&self) -> u32
        ensures { (s : SystemState) → Stands self.now s → result ≡ held s.buffers }
    {
        self.entity.held()
    }

    /// Where it sends a PDU for an address, on its one port: to the better hop of a redirect, to the end system of the
    /// address, to the router that it heard last, or else to all end systems (ISO 9542, section 6.5).
    pub fn next_hop(&self, to: &Address) -> Target
        ensures { (s : SystemState) → Stands self.now s
            → (port : ℕ) × (next_hop s to.now ≡ Some (record { port = port; target = result })) }
    {
        match self.entity.next_hop(to) {
            Some(hop) => hop.target,
            None => Target::EndSystems,
        }
    }

    /// It is a host. The function does nothing: its clause tells this to callers.
    pub fn is_host(&self)
        ensures { self.now.entity.local.configuration.role ≡ Host }
    {
        let _entity = &self.entity;
    }

    /// What the scenario says of it.
    pub fn config(&self) -> &SystemConfig
        ensures config { result.now ≡ self.now.entity.local.configuration }
        ensures role { result.now.role ≡ Host }
    {
        self.entity.config()
    }
}
