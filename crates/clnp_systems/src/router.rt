//! The steps of a router.
ghost use Rattle.std.specs.Prelude.{◌≡◌, ◌≤◌, ◌<◌, ◌+◌, ◌++◌, ◌^◌, ℕ, IfErr, IfOk, List, OnOk, OnErr, IsErr, MatchResult, None, Some, Err, true, is_none, is_some, length, slice_get, slice_set};
ghost use Rattle.std.specs.List.{AllByRecursion, list_any};
ghost use Rattle.clnp_machine.specs.Reassembly.Buffer.{held};
ghost use Rattle.clnp_machine.specs.Change.{PortIsAt, PortTakes, RouteIsGone, RouteIsSet, ports_taking};
ghost use Rattle.clnp_machine.specs.ClnpPlan.Configuration.{IsPort, IsWithin};
ghost use Rattle.clnp_machine.specs.ClnpPlan.declared.ask.SendRefusal.TheVariants.{NoMemory as WantsMemory};
ghost use Rattle.clnp_machine.specs.ClnpPlan.declared.config.Role.TheVariants.{Router as IsRouter};
ghost use Rattle.clnp_machine.specs.Content.{Content, IsCarried, Labelled, frame_of};
ghost use Rattle.clnp_machine.specs.Given.{Appends};
ghost use Rattle.clnp_machine.specs.Forwarding.Distinct.{has_prefix};
ghost use Rattle.clnp_machine.specs.Local.{refusal, request_unit};
ghost use Rattle.clnp_machine.specs.Esis.{title_of};
ghost use Rattle.clnp_machine.specs.Step.{goes_on, goes_on_with, is_redirected, options_behind, redirects, step, way_of};
ghost use Rattle.clnp_machine.specs.ClnpOptions.Edits.{target_of};
ghost use Rattle.clnp_machine.specs.ClnpOptions.Parameter.{Parameter};
ghost use Rattle.clnp_machine.specs.PduHeader.Headers.{SpellsHeader, with_options};
ghost use Rattle.clnp_machine.specs.System.{Effect, SystemState, AsksForEcho, FrameComes, IsChanged, IsRestarted, IsCongested, MomentComes, first_state, next_number};
ghost use Rattle.clnp_machine.specs.Unit.{IsCarriable, Packet, value_of, wire};
ghost use Rattle.clnp_machine.specs.PduHeader.Value.{PduValue};
ghost use Rattle.clnp_systems.specs.Local.{IsWhy};
ghost use Rattle.clnp_systems.specs.Comes.{HasValue, IsAtFront};
ghost use Rattle.clnp_systems.specs.Router.Onward.{ComesTo, GoesOn, IsHeaderOver};
ghost use Rattle.clnp_systems.specs.Steps.{Carries, IsSpentIn, MayCome, TakesStep, input_with};
ghost use Rattle.clnp_systems.specs.Router.Stands.{IsLeftBy, Stands};

use crate::onward::{Onward, by_port};
use crate::passage::{behind, is_barred, is_off_route, no_way, towards};
use crate::redirecting::{is_at, may_be_redirected};
use crate::{Arrival, Input, Passing, SystemEntity};
use clnp_machine::base::NoMemory;
use clnp_machine::clnp::Header;
use clnp_machine::hearing::Neighbour;
use clnp_machine::laws;
use clnp_machine::nsaps::{Address, Prefix, Snpa};
use clnp_machine::options::Reason;
use clnp_machine::routing::Route;
use clnp_machine::segmenting::{Cuts, NotPermitted};
use clnp_machine::system_plan::{Limits, Output, PortConfig, SendRefusal, SystemConfig};
use clnp_machine::views::Frame;
use clnp_machine::way::Way;
use std::alloc::Global;
use std::marker::Model;

/// A router. Its moment is that of its last `tick`, or of its start.
///
/// Once memory was refused in `step`, `tick`, `frame` or `echo` it is spent: from then on each of them answers `NoMemory`.
///
/// A contract says by `Stands` which states of a system it stands for.
#[derive(Drop)]
pub struct Router {
    entity: SystemEntity,
}

impl Model for Router {
    ghost use Rattle.std.specs.Prelude.{◌≡◌};
    ghost use Rattle.clnp_machine.specs.ClnpPlan.declared.config.Role.TheVariants.{Router as IsRouter};
    ghost use Rattle.std.specs.Coded.{codes};
    ghost use Rattle.clnp_systems.specs.contracts.entity.SystemEntity.{the_row as row_of_entities};
    ghost use Rattle.clnp_systems.specs.Router.State.{RouterState};

    ghost Value = { RouterState };

    ghost coded = { Prim.hlevel (codes, row_of_entities.coded) };

    ghost view = { λ h. record { entity = h.entity } };

    ghost invariant = { λ h. h.entity.local.configuration.role ≡ IsRouter };
}

impl Router {
    /// A router at its start, at a moment. It makes no unit with an identifier before the moment `quiet`.
    ///
    /// # Errors
    ///
    /// `NoMemory`.
    pub fn new(
        alloc: Global,
        config: &SystemConfig,
        limits: &Limits,
        now: u64,
        quiet: u64,
    ) -> Result<Router, NoMemory>
        requires role { config.now.role ≡ IsRouter }
        requires hold { 1 ≤ limits.now.hold }
        requires moment { now < 2 ^ 62 }
        requires quiet { quiet ≤ 2 ^ 62 + 16384 }
        ensures stands { IfOk result (λ router. (place : ℕ) → Stands router (first_state place config.now limits.now now quiet)) }
        ensures moment { IfOk result (λ router. router.entity.moment ≡ now) }
    {
        let entity = SystemEntity::new(alloc, config, limits, now, quiet)?;
        Ok(Router { entity })
    }

    /// Something comes, whatever it is; what the router gives out is appended, and with it the note of a restart, of congestion, or of
    /// a unit that isn't made.
    ///
    /// # Errors
    ///
    /// `NoMemory`: `out` is then as it was, and the router is spent, at the moment at which it was.
    #[inline(always)]
    pub fn step(
        &mut self,
        alloc: Global,
        input: &Input<'_>,
        out: &mut Vec<Output>,
    ) -> Result<(), NoMemory>
        requires { MayCome self.old.entity.moment input.now }
        ensures step { OnOk result ((content : Content) → Carries input.now content
            → TakesStep IsRouter (input_with content input.now) self.old.entity self.new.entity out.old.items out.new.items) }
        ensures spent { OnErr result (IsSpentIn self.old.entity self.new.entity out.old.items out.new.items) }
        ensures refused { self.old.entity.spent ≡ true → IsErr result }
    {
        match *input {
            Input::Moment(now) => self.tick(alloc, now, out),
            Input::Frame {
                port,
                from,
                group,
                frame,
            } => self.frame(alloc, port, from, group, frame, out),
            Input::Send {
                from,
                to,
                body,
                ask,
            } => self.entity.send_or_note(alloc, from, to, body, ask, out),
            Input::Echo { from, to, body } => self.entity.echo_or_note(alloc, from, to, body, out),
            Input::Restart => self.entity.restart_and_note(out),
            Input::Congest(on) => self.entity.congest_and_note(on, out),
        }
    }

    /// A moment has come: what was waiting for it happens, and what the router gives out is appended.
    ///
    /// # Errors
    ///
    /// `NoMemory`: `out` is then as it was, and the router is spent, at the moment at which it was.
    #[inline(always)]
    pub fn tick(&mut self, alloc: Global, now: u64, out: &mut Vec<Output>) -> Result<(), NoMemory>
        requires later { self.old.entity.moment ≤ now }
        requires moment { now < 2 ^ 62 }
        ensures step { OnOk result (TakesStep IsRouter (MomentComes now) self.old.entity self.new.entity out.old.items out.new.items) }
        ensures spent { OnErr result (IsSpentIn self.old.entity self.new.entity out.old.items out.new.items) }
        ensures refused { self.old.entity.spent ≡ true → IsErr result }
    {
        self.entity.tick(alloc, now, out)
    }

    /// A frame comes at a port, from a system of this subnetwork, to the router alone or through a group; what the router
    /// gives out is appended.
    ///
    /// # Errors
    ///
    /// `NoMemory`: `out` is then as it was, and the router is spent, at the moment at which it was.
    pub fn frame(
        &mut self,
        alloc: Global,
        port: u8,
        from: Snpa,
        group: bool,
        frame: &Frame,
        out: &mut Vec<Output>,
    ) -> Result<(), NoMemory>
        requires few { length frame.now ≤ 70000 }
        ensures step { OnOk result ((content : Content) → IsCarried content → frame_of content ≡ frame.now
            → TakesStep IsRouter (FrameComes port from group content) self.old.entity self.new.entity out.old.items out.new.items) }
        ensures spent { OnErr result (IsSpentIn self.old.entity self.new.entity out.old.items out.new.items) }
        ensures refused { self.old.entity.spent ≡ true → IsErr result }
    {
        laws::deeds_are_of_their_moment();
        let neighbour = Neighbour { port, snpa: from };
        match self.entity.frame(alloc, neighbour, group, frame, out) {
            Ok(Arrival::Done) => Ok(()),
            Ok(Arrival::Passes(passing)) => self.forward(alloc, &neighbour, &passing, frame, out),
            Err(refused) => Err(refused),
        }
    }

    /// Makes an echo request of some octets and sends it, cut for the MTU where it may be (RFC 1575); what the router gives out is
    /// appended. Gives the request's number.
    ///
    /// # Errors
    ///
    /// The first of these that holds: `NotMine` exactly where the source isn't one of the router's addresses; `TooLong`
    /// exactly where the body has more than 64,512 octets, or else its header would have more than 254; `Quiet` or
    /// `IdsBusy` exactly where it may be segmented and no identifier can be drawn for it. Nothing changes then. At
    /// `NoMemory` `out` is as it was, and the router is spent.
    pub fn echo(
        &mut self,
        alloc: Global,
        from: Address,
        to: Address,
        body: &[u8],
        out: &mut Vec<Output>,
    ) -> Result<u64, SendRefusal>
        ensures answer { (s : SystemState) → Stands self.old s → MatchResult result
            (λ unit. (refusal s (request_unit s from to body.now) ≡ None) × (unit ≡ next_number s))
            (λ e. IsWhy e (refusal s (request_unit s from to body.now))) }
        ensures stands { OnOk result ((s : SystemState) → Stands self.old s → Stands self.new (step s (AsksForEcho from to body.now)).after) }
        ensures outputs { OnOk result ((s : SystemState) → Stands self.old s
            → Appends self.old.entity.moment None out.old.items out.new.items
            (step s (AsksForEcho from to body.now)).outputs) }
        ensures none { OnErr result (out.new.items ≡ out.old.items) }
        ensures left { IfErr result (λ e. IsLeftBy e self.old self.new) }
        ensures refused { self.old.entity.spent ≡ true → result ≡ Err WantsMemory }
        ensures moment { self.new.entity.moment ≡ self.old.entity.moment }
        ensures config { self.new.entity.local.configuration ≡ self.old.entity.local.configuration }
    {
        self.entity.echo(alloc, from, to, body, out)
    }

    /// A PDU for another address that came from a place goes on, and its source may be told of a better way; or it is discarded
    /// (ISO/IEC 8473, sections 6.4 to 6.7; ISO 9542, section 6.8).
    fn forward(
        &mut self,
        alloc: Global,
        came: &Neighbour,
        passing: &Passing<'_>,
        frame: &Frame,
        out: &mut Vec<Output>,
    ) -> Result<(), NoMemory>
        requires few { length frame.now ≤ 70000 }
        requires pdu { IsAtFront passing.now frame.now }
        ensures stands { OnOk result ((s : SystemState) (p : Packet) (following : List ℕ) → Stands self.old s → IsCarriable p
            → HasValue passing.now (value_of p) → frame.now ≡ wire p ++ following
            → Stands self.new (goes_on s came.now p following).after) }
        ensures outputs { OnOk result ((s : SystemState) (p : Packet) (following : List ℕ) → Stands self.old s → IsCarriable p
            → HasValue passing.now (value_of p) → frame.now ≡ wire p ++ following
            → Appends s.moment (Some (Labelled p following)) out.old.items out.new.items
            (goes_on s came.now p following).outputs) }
        ensures none { OnErr result (out.new.items ≡ out.old.items) }
        ensures spent { OnErr result (self.new.entity.spent ≡ true) }
        ensures refused { self.old.entity.spent ≡ true → IsErr result }
        ensures moment { self.new.entity.moment ≡ self.old.entity.moment }
        ensures congested { self.new.entity.congested ≡ self.old.entity.congested }
        ensures config { self.new.entity.local.configuration ≡ self.old.entity.local.configuration }
    {
        // It is changed where it stands, and lent to all others: a header has up to 254 octets.
        let mut head = Header::of(passing.head);
        match self.onward(passing, &mut head) {
            Ok(onward) => self.go_on(alloc, came, passing, &onward, &head, frame, out),
            Err(reason) => self.entity.discard(alloc, frame, reason.code(), 0, out),
        }
    }

    /// A PDU goes on with a header that was changed, in pieces where it has to, and its source may be told of a better way; or it
    /// is discarded, since it may not be segmented (ISO/IEC 8473, section 6.7; ISO 9542, section 6.8).
    fn go_on(
        &mut self,
        alloc: Global,
        came: &Neighbour,
        passing: &Passing<'_>,
        onward: &Onward,
        head: &Header,
        frame: &Frame,
        out: &mut Vec<Output>,
    ) -> Result<(), NoMemory>
        requires few { length frame.now ≤ 70000 }
        requires pdu { IsAtFront passing.now frame.now }
        requires head { IsHeaderOver passing.now.len head.now }
        requires mtu { 512 ≤ onward.now.mtu }
        ensures stands { OnOk result ((s : SystemState) (p : Packet) (following : List ℕ) (effect : Effect) → Stands self.old s
            → IsCarriable p → HasValue passing.now (value_of p) → frame.now ≡ wire p ++ following
            → GoesOn onward.now head.now s came.now p following effect
            → Stands self.new effect.after) }
        ensures outputs { OnOk result ((s : SystemState) (p : Packet) (following : List ℕ) (effect : Effect) → Stands self.old s
            → IsCarriable p → HasValue passing.now (value_of p) → frame.now ≡ wire p ++ following
            → GoesOn onward.now head.now s came.now p following effect
            → Appends s.moment (Some (Labelled p following)) out.old.items out.new.items effect.outputs) }
        ensures none { OnErr result (out.new.items ≡ out.old.items) }
        ensures spent { OnErr result (self.new.entity.spent ≡ true) }
        ensures refused { self.old.entity.spent ≡ true → IsErr result }
        ensures moment { self.new.entity.moment ≡ self.old.entity.moment }
        ensures congested { self.new.entity.congested ≡ self.old.entity.congested }
        ensures config { self.new.entity.local.configuration ≡ self.old.entity.local.configuration }
    {
        // By reference: the cuts hold a header, which isn't copied again.
        match &mut Cuts::new(*head, passing.len, onward.mtu) {
            Ok(cuts) => {
                let from = passing.head.len();
                let before = out.len();
                let hop = onward.way.hop();
                self.entity
                    .pass_on(alloc, frame, from, passing.len, cuts, hop, out)?;
                if let Err(refused) = self.redirect(
                    alloc,
                    came,
                    passing,
                    onward.towards_title,
                    &onward.way,
                    out,
                ) {
                    out.truncate(before);
                    return Err(refused);
                }
                Ok(())
            }
            Err(NotPermitted { .. }) => {
                let reason = Reason::SegmentationNotPermitted;
                self.entity.discard(alloc, frame, reason.code(), 0, out)
            }
        }
    }

    /// How a PDU for another address goes on, or for which reason it is discarded; its header is changed to the one behind the
    /// router.
    fn onward(&self, passing: &Passing<'_>, head: &mut Header) -> Result<Onward, Reason>
        requires pdu { (v : PduValue) × HasValue passing.now v }
        requires head { head.old ≡ passing.now.head.now }
        ensures goes { (s : SystemState) (came : Neighbour) (p : Packet) (following : List ℕ) → Stands self.now s
            → IsCarriable p
            → HasValue passing.now (value_of p)
            → ComesTo result head.new s came p following (goes_on s came p following) }
        ensures head { IsHeaderOver passing.now.len head.new }
        ensures mtu { IfOk result (λ onward. 512 ≤ onward.mtu) }
    {
        let title = self.title();
        if is_off_route(head, title) {
            return Err(Reason::PathNotAcceptable);
        }
        behind(head, title, self.entity.is_congested());
        self.onward_with(passing, head)
    }

    /// How a PDU goes on with a header that was changed, or for which reason it is discarded.
    fn onward_with(&self, passing: &Passing<'_>, head: &mut Header) -> Result<Onward, Reason>
        requires { IsHeaderOver passing.now.len head.old }
        ensures goes { (s : SystemState) (came : Neighbour) (p : Packet) (following : List ℕ) → Stands self.now s
            → IsCarriable p
            → HasValue passing.now (value_of p)
            → SpellsHeader (with_options (options_behind s p.options) (value_of p)) head.old
            → ComesTo result head.new s came p following
            (goes_on_with s came p following (options_behind s p.options)) }
        ensures head { IsHeaderOver passing.now.len head.new }
        ensures mtu { IfOk result (λ onward. 512 ≤ onward.mtu) }
    {
        let to = towards(head, &passing.to);
        let Some(way) = self.entity.way(&to) else {
            return Err(no_way(head));
        };
        if is_barred(head, &way, &to) {
            return Err(Reason::PathNotAcceptable);
        }
        let Some(port) = self.entity.ports().get(usize::from(way.neighbour.port)) else {
            return Err(Reason::DestinationUnknown);
        };
        by_port(passing, head, way, port)
    }

    /// Its title is its one address.
    fn title(&self) -> &Address
        ensures { (s : SystemState) → Stands self.now s → result.now ≡ title_of s }
    {
        let config = self.entity.config();
        // Its clause: a router has one address.
        config.is_system();
        &config.addresses()[0]
    }

    /// Tells the source of a PDU that goes on of a better way, where there is one: the PDU goes back to the subnetwork from which
    /// it came, where its source is known to be (ISO 9542, section 6.8).
    fn redirect(
        &mut self,
        alloc: Global,
        came: &Neighbour,
        passing: &Passing<'_>,
        towards_title: bool,
        way: &Way,
        out: &mut Vec<Output>,
    ) -> Result<(), NoMemory>
        ensures outputs { OnOk result ((s : SystemState) (p : Packet) (options : List Parameter) → Stands self.old s
            → HasValue passing.now (value_of p) → towards_title ≡ is_some (target_of options)
            → Appends s.moment None out.old.items out.new.items (redirects s came.now p options way.now)) }
        ensures same { OnOk result (self.new ≡ self.old) }
        ensures none { OnErr result (out.new.items ≡ out.old.items) }
        ensures spent { OnErr result (self.new.entity.spent ≡ true) }
        ensures moment { self.new.entity.moment ≡ self.old.entity.moment }
        ensures congested { self.new.entity.congested ≡ self.old.entity.congested }
        ensures config { self.new.entity.local.configuration ≡ self.old.entity.local.configuration }
    {
        if self.is_redirected(came, passing, towards_title, way) {
            let neighbour = *came;
            return self
                .entity
                .redirect(alloc, neighbour, &passing.to, way, out);
        }
        Ok(())
    }

    /// Whether the source of a PDU that goes on is told of the way: redirects hold for a time, the PDU begins its unit, it goes
    /// on by the port by which it came, not towards a title of a source route, and its source is known to be at the place from
    /// which it came.
    fn is_redirected(
        &self,
        came: &Neighbour,
        passing: &Passing<'_>,
        towards_title: bool,
        way: &Way,
    ) -> bool
        ensures { (s : SystemState) (p : Packet) (options : List Parameter) → Stands self.now s
            → HasValue passing.now (value_of p)
            → towards_title ≡ is_some (target_of options)
            → result ≡ is_redirected s came.now p options way.now }
    {
        let holding = self.entity.config().settings().rhold;
        if !may_be_redirected(holding, came, passing, towards_title, way) {
            return false;
        }
        is_at(came, self.entity.neighbour(&passing.from))
    }

    /// Forgets all that it keeps and heard, and is quiet as long as an identifier rests; the count of its units goes
    /// on, and its ports and its routes stay.
    pub fn restart(&mut self)
        ensures stands { (s : SystemState) → Stands self.old s → Stands self.new (step s IsRestarted).after }
        ensures spent { self.new.entity.spent ≡ self.old.entity.spent }
        ensures moment { self.new.entity.moment ≡ self.old.entity.moment }
        ensures config { self.new.entity.local.configuration ≡ self.old.entity.local.configuration }
    {
        self.entity.restart();
    }

    /// It is congested from now on, or no more; a restart ends it.
    pub fn congest(&mut self, on: bool)
        ensures stands { (s : SystemState) → Stands self.old s → Stands self.new (step s (IsCongested on)).after }
        ensures congested { self.new.entity ≡ record self.old.entity { congested = on } }
        ensures spent { self.new.entity.spent ≡ self.old.entity.spent }
        ensures moment { self.new.entity.moment ≡ self.old.entity.moment }
        ensures config { self.new.entity.local.configuration ≡ self.old.entity.local.configuration }
    {
        self.entity.congest(on);
    }

    /// Its ports, by their numbers from 0: as many as were declared.
    pub fn ports(&self) -> &[PortConfig]
        ensures ports { result.now ≡ self.now.entity.ports }
        ensures stands { (s : SystemState) → Stands self.now s → result.now ≡ s.attached.ports }
        ensures each { AllByRecursion IsPort result.now }
        ensures few { IsWithin 1 8 (length result.now) }
        ensures number { length result.now ≡ length self.now.entity.local.configuration.ports }
    {
        self.entity.ports()
    }

    /// A port is on the subnetwork of this configuration from now on, at its address and with its transit and MTU; the next hello is
    /// due.
    pub fn set_port(&mut self, port: u8, config: PortConfig)
        requires there { port < length self.old.entity.ports }
        requires transit { 1 ≤ config.transit }
        requires mtu { 512 ≤ config.mtu }
        ensures stands { (s : SystemState) → Stands self.old s
            → Stands self.new (step s (IsChanged (PortIsAt port config))).after }
        ensures set { self.new.entity ≡ record self.old.entity {
          ports = slice_set self.old.entity.ports port config;
          esis = record self.old.entity.esis { next_hello = self.old.entity.moment };
        } }
        ensures spent { self.new.entity.spent ≡ self.old.entity.spent }
        ensures moment { self.new.entity.moment ≡ self.old.entity.moment }
        ensures congested { self.new.entity.congested ≡ self.old.entity.congested }
        ensures config { self.new.entity.local.configuration ≡ self.old.entity.local.configuration }
    {
        self.entity.set_port(port, config);
    }

    /// A port takes frames of so many octets from now on.
    pub fn set_mtu(&mut self, port: u8, mtu: u16)
        requires there { port < length self.old.entity.ports }
        requires mtu { 512 ≤ mtu }
        ensures stands { (s : SystemState) → Stands self.old s
            → Stands self.new (step s (IsChanged (PortTakes port mtu))).after }
        ensures set { self.new.entity ≡ record self.old.entity {
          ports = ports_taking port mtu (slice_get self.old.entity.ports port) self.old.entity.ports;
        } }
        ensures spent { self.new.entity.spent ≡ self.old.entity.spent }
        ensures moment { self.new.entity.moment ≡ self.old.entity.moment }
        ensures congested { self.new.entity.congested ≡ self.old.entity.congested }
        ensures config { self.new.entity.local.configuration ≡ self.old.entity.local.configuration }
    {
        self.entity.set_mtu(port, mtu);
    }

    /// The route of a prefix is this one from now on, in the place of the one that there was, if any.
    ///
    /// # Errors
    ///
    /// `NoMemory`: it stands for what it stood for, and isn't spent by it.
    pub fn set_route(&mut self, alloc: Global, route: Route) -> Result<(), NoMemory>
        requires there { route.port < length self.old.entity.ports }
        ensures stands { OnOk result ((s : SystemState) → Stands self.old s → Stands self.new (step s (IsChanged (RouteIsSet route))).after) }
        ensures same { OnErr result ((s : SystemState) → Stands self.old s → Stands self.new s) }
        ensures rest { self.new.entity ≡ record self.old.entity { routes = self.new.entity.routes } }
        ensures spent { self.new.entity.spent ≡ self.old.entity.spent }
        ensures moment { self.new.entity.moment ≡ self.old.entity.moment }
        ensures congested { self.new.entity.congested ≡ self.old.entity.congested }
        ensures config { self.new.entity.local.configuration ≡ self.old.entity.local.configuration }
    {
        self.entity.set_route(alloc, route)
    }

    /// The route of a prefix is gone from now on. Tells whether there was one.
    pub fn remove_route(&mut self, prefix: &Prefix) -> bool
        ensures there { (s : SystemState) → Stands self.old s
            → result ≡ list_any (has_prefix prefix.now) s.attached.routes }
        ensures stands { (s : SystemState) → Stands self.old s
            → Stands self.new (step s (IsChanged (RouteIsGone prefix.now))).after }
        ensures rest { self.new.entity ≡ record self.old.entity { routes = self.new.entity.routes } }
        ensures spent { self.new.entity.spent ≡ self.old.entity.spent }
        ensures moment { self.new.entity.moment ≡ self.old.entity.moment }
        ensures congested { self.new.entity.congested ≡ self.old.entity.congested }
        ensures config { self.new.entity.local.configuration ≡ self.old.entity.local.configuration }
    {
        self.entity.remove_route(prefix)
    }

    /// Its moment, in ticks of 500 ms.
    pub fn moment(&self) -> u64
        ensures moment { result ≡ self.now.entity.moment }
        ensures within { result < 2 ^ 62 }
    {
        self.entity.moment()
    }

    /// How many octets are held for reassembly: of the whole frames in which kept segments came.
    pub fn held(&self) -> u32
        ensures { (s : SystemState) → Stands self.now s → result ≡ held s.buffers }
    {
        self.entity.held()
    }

    /// The way to an address: to the end system of this address, where it heard of it, else by the route with the most
    /// digits among those that cover the address (ISO/IEC 8473, section 6.5).
    pub fn next_hop(&self, to: &Address) -> Option<Way>
        ensures { (s : SystemState) → Stands self.now s → result ≡ way_of s to.now }
    {
        self.entity.way(to)
    }

    /// It is a router. The function does nothing: its clause tells this to callers.
    pub fn is_router(&self)
        ensures { self.now.entity.local.configuration.role ≡ IsRouter }
    {
        let _entity = &self.entity;
    }

    /// What the scenario says of it.
    pub fn config(&self) -> &SystemConfig
        ensures config { result.now ≡ self.now.entity.local.configuration }
        ensures role { result.now.role ≡ IsRouter }
    {
        self.entity.config()
    }
}
