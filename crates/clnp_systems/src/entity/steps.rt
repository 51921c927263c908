//! The steps of a system while it takes them: all that is given out is appended, or nothing.
ghost use Rattle.std.specs.Prelude.{◌≡◌, ◌≢◌, ◌==◌, ◌≤◌, ◌<◌, ◌^◌, ◌+◌, ◌++◌, ℕ, Bool, true, false, List, [], ◌∷◌, IfErr, IfOk, OnOk, OnErr, MatchResult, None, Some, length, map};
ghost use Rattle.std.specs.List.{AllByRecursion, flat_map};
ghost use Rattle.clnp_machine.specs.ClnpOptions.Grammar.{FitsKind};
ghost use Rattle.clnp_machine.specs.ClnpOptions.Parameter.{parameters};
ghost use Rattle.clnp_machine.specs.PduHeader.Grammar.{BeginsWith, is_report};
ghost use Rattle.clnp_machine.specs.PduHeader.Headers.{SpellsHeader};
ghost use Rattle.clnp_machine.specs.PduHeader.Rules.{octet};
ghost use Rattle.clnp_machine.specs.PduHeader.View.{pdu_value};
ghost use Rattle.clnp_machine.specs.ClnpPlan.Configuration.{IsPort};
ghost use Rattle.clnp_machine.specs.ClnpPlan.declared.output.Output.TheVariants.{Note as Noted};
ghost use Rattle.clnp_machine.specs.Content.{Content, IsCarried, Labelled, frame_of};
ghost use Rattle.clnp_machine.specs.Given.{Appends};
ghost use Rattle.clnp_machine.specs.Local as locally;
ghost use Rattle.clnp_machine.specs.Local.{is_own};
ghost use Rattle.clnp_machine.specs.Step.{content_comes, effect_of, moment_comes, outputs_of, responds, unheard_note, unit_hop};
ghost use Rattle.clnp_machine.specs.System.{SystemState, SendsEsis, next_number};
ghost use Rattle.clnp_machine.specs.Esis.{redirect};
ghost use Rattle.clnp_machine.specs.Pdus.declared.nsap.target.Target.TheVariants.{System};
ghost use Rattle.clnp_machine.specs.Unit.{IsCarriable, Packet, DataUnit, value_of, wire};
ghost use Rattle.clnp_machine.specs.ClnpViews.Extent.{part, whole};
ghost use Rattle.clnp_machine.specs.Forwarding.Stands as routing;
ghost use Rattle.clnp_systems.specs.Does.{StaysInFront};
ghost use Rattle.clnp_systems.specs.Local.{DoAll, Does, IsWhy};
ghost use Rattle.clnp_systems.specs.Sending.{transmission};
ghost use Rattle.clnp_machine.specs.MadePdus.Left.{IsCutOf};
ghost use Rattle.clnp_systems.specs.Comes.{ComesOf, LeavesAsItWas, TellsPdu};
ghost use Rattle.clnp_systems.specs.Deeds.{IsAtWork, IsFresh, LeavesParts};
ghost use Rattle.clnp_systems.specs.EntityStands.{PartsStand, PartsStandSince};

use super::{Arrival, SystemEntity};
use crate::passing::Passing;
use crate::{Action, give_pieces, send_redirect, send_unit};
use clnp_machine::base::NoMemory;
use clnp_machine::clnp::{Kind, Pdu, Refusal, decode_frame};
use clnp_machine::esis::EsisRefusal;
use clnp_machine::hearing::Neighbour;
use clnp_machine::laws;
use clnp_machine::nsaps::Address;
use clnp_machine::options::Reason;
use clnp_machine::routing::{RouteRefusal, Routes};
use clnp_machine::segmenting::Cuts;
use clnp_machine::system_plan::{Ask, Note, Output, PortConfig, Role, SendRefusal, SystemConfig};
use clnp_machine::views::Frame;
use clnp_machine::way::{Hop, Way};
use std::alloc::Global;
use std::mem::replace;

impl SystemEntity {
    /// A moment has come.
    pub(super) fn come_to(
        &mut self,
        alloc: Global,
        now: u64,
        out: &mut Vec<Output>,
    ) -> Result<(), NoMemory>
        requires at_work { IsAtWork self.old }
        requires later { self.old.moment ≤ now }
        requires moment { now < 2 ^ 62 }
        ensures stands { OnOk result ((s : SystemState) → PartsStand self.old s → PartsStand self.new (moment_comes s now).after) }
        ensures outputs { OnOk result ((s : SystemState) → PartsStand self.old s
            → Appends now None out.old.items out.new.items (moment_comes s now).outputs) }
        ensures moment { OnOk result (self.new.moment ≡ now) }
        ensures none { OnErr result (out.new.items ≡ out.old.items) }
        ensures spent { self.new.spent ≡ self.old.spent }
        ensures congested { self.new.congested ≡ self.old.congested }
        ensures config { self.new.local.configuration ≡ self.old.local.configuration }
    {
        laws::deeds_are_of_their_moment();
        laws::hellos_leave_the_rest();
        let mut actions = Vec::new(alloc);
        self.local.tick(alloc, now, &mut actions)?;
        self.moment = now;
        let ports = self.port_count();
        // Most ticks end no buffer: nothing is gathered then.
        if actions.is_empty() {
            self.esis.tick(alloc, self.local.config(), ports, now, out)?;
            return Ok(());
        }
        let mut outputs = Vec::new(alloc);
        self.give_out(alloc, actions, &mut outputs)?;
        self.esis
            .tick(alloc, self.local.config(), ports, now, &mut outputs)?;
        out.append(&mut outputs)?;
        Ok(())
    }

    /// A frame comes.
    pub(super) fn arrive<'a>(
        &mut self,
        alloc: Global,
        neighbour: Neighbour,
        group: bool,
        frame: &'a Frame,
        out: &mut Vec<Output>,
    ) -> Result<Arrival<'a>, NoMemory>
        requires at_work { IsAtWork self.old }
        requires few { length frame.now ≤ 70000 }
        ensures comes { IfOk result (λ arrival. (s : SystemState) (content : Content) → PartsStand self.old s → IsCarried content
            → frame_of content ≡ frame.now → ComesOf arrival s neighbour group content self.new out.old.items out.new.items) }
        ensures left { IfOk result (λ arrival. LeavesAsItWas arrival self.old self.new out.old.items out.new.items) }
        ensures pdu { IfOk result (λ arrival. TellsPdu arrival frame.now) }
        ensures none { OnErr result (out.new.items ≡ out.old.items) }
        ensures moment { self.new.moment ≡ self.old.moment }
        ensures spent { self.new.spent ≡ self.old.spent }
        ensures congested { self.new.congested ≡ self.old.congested }
        ensures config { self.new.local.configuration ≡ self.old.local.configuration }
    {
        laws::a_frame_carries_one_packet();
        laws::no_frame_is_of_both_protocols();
        match decode_frame(frame) {
            Ok(pdu) => self.pdu_comes(alloc, &pdu, neighbour, group, frame, out),
            Err(Refusal::Broken(broken)) => {
                self.drop_frame(alloc, frame, broken.reason, broken.place, out)?;
                Ok(Arrival::Done)
            }
            Err(Refusal::NotClnp) => {
                self.other_comes(alloc, neighbour, frame, out)?;
                Ok(Arrival::Done)
            }
        }
    }

    /// A PDU comes: its lifetime is over (ISO 8473, section 6.4), or it is for another address, or for the system (section
    /// 6.2).
    fn pdu_comes<'a>(
        &mut self,
        alloc: Global,
        pdu: &Pdu<'a>,
        neighbour: Neighbour,
        group: bool,
        frame: &Frame,
        out: &mut Vec<Output>,
    ) -> Result<Arrival<'a>, NoMemory>
        requires at_work { IsAtWork self.old }
        requires few { length frame.now ≤ 70000 }
        requires front { BeginsWith frame.now (pdu_value pdu.now) pdu.now.rest.now }
        requires header { SpellsHeader (pdu_value pdu.now) pdu.now.head.now }
        ensures comes { IfOk result (λ arrival. (s : SystemState) (p : Packet) (following : List ℕ) → PartsStand self.old s → IsCarriable p
            → frame.now ≡ wire p ++ following → pdu_value pdu.now ≡ value_of p
            → ComesOf arrival s neighbour group (Labelled p following) self.new out.old.items out.new.items) }
        ensures left { IfOk result (λ arrival. LeavesAsItWas arrival self.old self.new out.old.items out.new.items) }
        ensures pdu { IfOk result (λ arrival. TellsPdu arrival frame.now) }
        ensures none { OnErr result (out.new.items ≡ out.old.items) }
        ensures moment { self.new.moment ≡ self.old.moment }
        ensures spent { self.new.spent ≡ self.old.spent }
        ensures congested { self.new.congested ≡ self.old.congested }
        ensures config { self.new.local.configuration ≡ self.old.local.configuration }
    {
        if pdu.life == 0 {
            let reason = Reason::LifetimeExpiredInTransit.code();
            self.drop_frame(alloc, frame, reason, 0, out)?;
            return Ok(Arrival::Done);
        }
        if !self.local.is_own(&pdu.to) {
            return Ok(Arrival::Passes(Passing::of(pdu)));
        }
        self.receive(alloc, pdu, neighbour, group, frame, out)?;
        Ok(Arrival::Done)
    }

    /// A PDU for the system comes; a host that was asked for through a group then tells the sender of itself (ISO 9542,
    /// section 6.6).
    fn receive(
        &mut self,
        alloc: Global,
        pdu: &Pdu<'_>,
        neighbour: Neighbour,
        group: bool,
        frame: &Frame,
        out: &mut Vec<Output>,
    ) -> Result<(), NoMemory>
        requires at_work { IsAtWork self.old }
        requires few { length frame.now ≤ 70000 }
        requires front { BeginsWith frame.now (pdu_value pdu.now) pdu.now.rest.now }
        requires header { SpellsHeader (pdu_value pdu.now) pdu.now.head.now }
        requires alive { 1 ≤ pdu.now.life }
        ensures stands { OnOk result ((s : SystemState) (p : Packet) (following : List ℕ) → PartsStand self.old s → IsCarriable p
            → frame.now ≡ wire p ++ following → (p.lifetime == 0) ≡ false → is_own s p.unit.destination ≡ true
            → PartsStand self.new (content_comes s neighbour group (Labelled p following)).after) }
        ensures outputs { OnOk result ((s : SystemState) (p : Packet) (following : List ℕ) → PartsStand self.old s → IsCarriable p
            → frame.now ≡ wire p ++ following → (p.lifetime == 0) ≡ false → is_own s p.unit.destination ≡ true
            → Appends s.moment None out.old.items out.new.items
            (content_comes s neighbour group (Labelled p following)).outputs) }
        ensures none { OnErr result (out.new.items ≡ out.old.items) }
        ensures moment { self.new.moment ≡ self.old.moment }
        ensures spent { self.new.spent ≡ self.old.spent }
        ensures congested { self.new.congested ≡ self.old.congested }
        ensures config { self.new.local.configuration ≡ self.old.local.configuration }
    {
        laws::deeds_are_of_their_moment();
        laws::hellos_leave_the_rest();
        let mut actions = Vec::new(alloc);
        self.local
            .receive_pdu(alloc, self.moment, pdu, frame, &mut actions)?;
        let before = out.len();
        self.give_out(alloc, actions, out)?;
        if let Err(refused) = self.respond(alloc, neighbour, group, out) {
            out.truncate(before);
            return Err(refused);
        }
        Ok(())
    }

    /// A host that was asked for through a group tells the sender of itself (ISO 9542, section 6.6).
    fn respond(
        &self,
        alloc: Global,
        neighbour: Neighbour,
        group: bool,
        out: &mut Vec<Output>,
    ) -> Result<(), NoMemory>
        ensures told { OnOk result ((s : SystemState) (p : Packet) → PartsStand self.now s → (p.lifetime == 0) ≡ false
            → is_own s p.unit.destination ≡ true
            → Appends s.moment None out.old.items out.new.items (responds s neighbour group p).outputs) }
        ensures front { StaysInFront out.old.items out.new.items }
    {
        if !group {
            return Ok(());
        }
        match self.local.config().role() {
            Role::Host => self.esis.tell(alloc, self.local.config(), neighbour, out),
            Role::Router => Ok(()),
        }
    }

    /// A frame comes that doesn't begin as a CLNP PDU: an ES-IS PDU is heard, and what breaks one of its rules or is of neither
    /// protocol is noted.
    pub(super) fn other_comes(
        &mut self,
        alloc: Global,
        neighbour: Neighbour,
        frame: &Frame,
        out: &mut Vec<Output>,
    ) -> Result<(), NoMemory>
        requires at_work { IsAtWork self.old }
        requires other { octet frame.now 1 ≢ 0x81 }
        ensures stands { OnOk result ((s : SystemState) (group : Bool) (content : Content) → PartsStand self.old s → IsCarried content
            → frame_of content ≡ frame.now → PartsStand self.new (content_comes s neighbour group content).after) }
        ensures outputs { OnOk result ((s : SystemState) (group : Bool) (content : Content) → PartsStand self.old s → IsCarried content
            → frame_of content ≡ frame.now
            → Appends s.moment None out.old.items out.new.items (content_comes s neighbour group content).outputs) }
        ensures none { OnErr result (out.new.items ≡ out.old.items) }
        ensures moment { self.new.moment ≡ self.old.moment }
        ensures spent { self.new.spent ≡ self.old.spent }
        ensures congested { self.new.congested ≡ self.old.congested }
        ensures config { self.new.local.configuration ≡ self.old.local.configuration }
    {
        laws::a_frame_carries_one_esis_value();
        laws::no_frame_is_of_both_protocols();
        laws::hellos_leave_the_rest();
        match clnp_machine::esis::decode(octets_of(frame)) {
            Ok(pdu) => {
                let config = self.local.config();
                self.esis
                    .hear(alloc, config, self.moment, neighbour, pdu, out)?;
                Ok(())
            }
            Err(refusal) => {
                give_note(unheard(refusal), out)?;
                Ok(())
            }
        }
    }

    /// A PDU that came is discarded.
    pub(super) fn drop_frame(
        &mut self,
        alloc: Global,
        frame: &Frame,
        reason: u8,
        place: u8,
        out: &mut Vec<Output>,
    ) -> Result<(), NoMemory>
        requires at_work { IsAtWork self.old }
        requires few { length frame.now ≤ 70000 }
        ensures stands { OnOk result ((s : SystemState) (content : Content) → PartsStand self.old s → IsCarried content
            → frame_of content ≡ frame.now → PartsStand self.new (locally.discard s content reason place).after) }
        ensures outputs { OnOk result ((s : SystemState) (content : Content) → PartsStand self.old s → IsCarried content
            → frame_of content ≡ frame.now
            → Appends s.moment None out.old.items out.new.items
            (effect_of (locally.discard s content reason place)).outputs) }
        ensures none { OnErr result (out.new.items ≡ out.old.items) }
        ensures moment { self.new.moment ≡ self.old.moment }
        ensures spent { self.new.spent ≡ self.old.spent }
        ensures congested { self.new.congested ≡ self.old.congested }
        ensures config { self.new.local.configuration ≡ self.old.local.configuration }
    {
        laws::deeds_are_of_their_moment();
        has_content(frame);
        let mut actions = Vec::new(alloc);
        self.local
            .discard(alloc, self.moment, frame, reason, place, &mut actions)?;
        self.give_out(alloc, actions, out)?;
        Ok(())
    }

    /// Makes a unit.
    pub(super) fn make_unit(
        &mut self,
        alloc: Global,
        kind: Kind,
        from: Address,
        to: Address,
        body: &[u8],
        ask: &Ask,
        out: &mut Vec<Output>,
    ) -> Result<u64, SendRefusal>
        requires at_work { IsAtWork self.old }
        requires options { FitsKind (is_report kind) (parameters ask.now.options) }
        ensures answer { (s : SystemState) → PartsStand self.old s → MatchResult result
            (λ unit. (locally.refusal s (locally.unit_of s kind from to body.now ask.now) ≡ None) × (unit ≡ next_number s))
            (λ e. IsWhy e (locally.refusal s (locally.unit_of s kind from to body.now ask.now))) }
        ensures stands { OnOk result ((s : SystemState) → PartsStand self.old s
            → PartsStand self.new (locally.make s kind from to body.now ask.now).after) }
        ensures outputs { OnOk result ((s : SystemState) → PartsStand self.old s
            → Appends s.moment None out.old.items out.new.items
            (effect_of (locally.make s kind from to body.now ask.now)).outputs) }
        ensures left { IfErr result (λ e. LeavesParts e self.old self.new) }
        ensures none { OnErr result (out.new.items ≡ out.old.items) }
        ensures moment { self.new.moment ≡ self.old.moment }
        ensures spent { self.new.spent ≡ self.old.spent }
        ensures congested { self.new.congested ≡ self.old.congested }
        ensures config { self.new.local.configuration ≡ self.old.local.configuration }
    {
        laws::deeds_are_of_their_moment();
        let mut actions = Vec::new(alloc);
        let unit = self.local.make(alloc, self.moment, kind, from, to, body, ask, &mut actions)?;
        let Ok(()) = self.give_out(alloc, actions, out) else {
            return Err(SendRefusal::NoMemory);
        };
        Ok(unit)
    }

    /// Gives out what was done at the system's addresses, or nothing.
    fn give_out(
        &self,
        alloc: Global,
        mut actions: Vec<Action>,
        out: &mut Vec<Output>,
    ) -> Result<(), NoMemory>
        requires { (others : List locally.Action) × DoAll actions.items others }
        ensures given { OnOk result ((s : SystemState) (before : ℕ) (others : List locally.Action) → PartsStandSince before self.now s
            → DoAll actions.items others → AllByRecursion (IsFresh s.moment) others
            → Appends s.moment None out.old.items out.new.items (flat_map (outputs_of s) others)) }
        ensures none { OnErr result (out.new.items ≡ out.old.items) }
        ensures front { StaysInFront out.old.items out.new.items }
    {
        let before = out.len();
        for action in actions.iter_mut() {
            if let Err(refused) = self.give(alloc, action, out) {
                out.truncate(before);
                return Err(refused);
            }
        }
        Ok(())
    }

    /// Gives out one thing that was done. It isn't moved for this: a unit is read where it is, and a note is taken from it.
    fn give(
        &self,
        alloc: Global,
        action: &mut Action,
        out: &mut Vec<Output>,
    ) -> Result<(), NoMemory>
        requires { (other : locally.Action) × Does action.old other }
        ensures given { OnOk result ((s : SystemState) (before : ℕ) (other : locally.Action) → PartsStandSince before self.now s
            → Does action.old other → IsFresh s.moment other
            → Appends s.moment None out.old.items out.new.items (outputs_of s other)) }
        ensures front { StaysInFront out.old.items out.new.items }
    {
        match action {
            Action::Note(note) => give_note(replace(note, Note::Alien), out),
            Action::Send(made) => {
                let hop = self.unit_hop(&made.to);
                send_unit(alloc, made, hop, self.ports(), out)
            }
        }
    }

    /// Where a unit goes that the system made for an address: a router sends nothing to itself.
    fn unit_hop(&self, to: &Address) -> Option<Hop>
        ensures { (s : SystemState) (before : ℕ) (u : DataUnit) → PartsStandSince before self.now s
            → u.destination ≡ to.now
            → result ≡ unit_hop s u }
    {
        match self.local.config().role() {
            Role::Host => self.next_hop(to),
            Role::Router => {
                if self.local.is_own(to) {
                    return None;
                }
                self.next_hop(to)
            }
        }
    }
}

/// Gives out a note.
pub(super) fn give_note(note: Note, out: &mut Vec<Output>) -> Result<(), NoMemory>
    ensures given { OnOk result (out.new.items ≡ out.old.items ++ Noted note ∷ []) }
    ensures none { OnErr result (out.new.items ≡ out.old.items) }
    ensures front { StaysInFront out.old.items out.new.items }
{
    out.reserve(1)?;
    out.push_reserved(Output::Note(note));
    Ok(())
}

/// The ports of a configuration.
pub(super) fn ports_of(alloc: Global, config: &SystemConfig) -> Result<Vec<PortConfig>, NoMemory>
    ensures ports { IfOk result (λ ports. ports.items ≡ config.now.ports) }
    ensures wide { IfOk result (λ ports. AllByRecursion IsPort ports.items) }
{
    // Its clause: each port takes 512 octets at least.
    config.is_system();
    Ok(Vec::from_slice(alloc, config.ports())?)
}

/// The routes of a configuration.
pub(super) fn routes_of(alloc: Global, config: &SystemConfig) -> Result<Routes, NoMemory>
    ensures { IfOk result (λ routes. routing.Stands routes config.now.routes) }
{
    clnp_machine::routing::laws::one_place_is_twice();
    // Its clause: no two routes have one prefix.
    config.is_system();
    match Routes::from_list(alloc, config.routes()) {
        Ok(routes) => Ok(routes),
        Err(RouteRefusal::NoMemory) => Err(NoMemory),
        Err(RouteRefusal::Twice { .. }) => unreachable!(),
    }
}

/// Gives out all pieces of the PDU whose data are `len` octets of a frame, from place `from` on, or nothing.
pub(super) fn pass_pieces(
    alloc: Global,
    frame: &Frame,
    from: usize,
    len: usize,
    cuts: &mut Cuts,
    hop: Hop,
    out: &mut Vec<Output>,
) -> Result<(), NoMemory>
    requires within { from + len ≤ length frame.now }
    requires cuts { AllByRecursion (IsCutOf len) cuts.old }
    ensures given { OnOk result (out.new.items ≡ out.old.items ++ map (transmission true hop (part from len (whole frame.now))) cuts.old) }
    ensures none { OnErr result (out.new.items ≡ out.old.items) }
{
    let body = frame.view()?.narrow(from, len);
    give_pieces(alloc, cuts, hop, &body, true, out)
}

/// Tells a system, at a place of one's own, of the way to an address, or gives out nothing.
pub(super) fn tell_way(
    alloc: Global,
    config: &SystemConfig,
    neighbour: Neighbour,
    to: &Address,
    way: &Way,
    out: &mut Vec<Output>,
) -> Result<(), NoMemory>
    ensures given { OnOk result ((s : SystemState) (moment : ℕ) → s.configuration ≡ config.now
        → Appends moment None out.old.items out.new.items
        (SendsEsis neighbour.port (System neighbour.snpa)
        (redirect s to.now way.now.neighbour.snpa way.now.title) ∷ [])) }
    ensures none { OnErr result (out.new.items ≡ out.old.items) }
{
    let title = way.title.as_ref();
    send_redirect(
        alloc,
        config,
        neighbour,
        to,
        &way.neighbour.snpa,
        title,
        out,
    )
}

/// Whether a frame begins with the identifier of CLNP (ISO/IEC 8473, section 7.2.2).
pub(super) fn begins_as_clnp(frame: &Frame) -> bool
    ensures { result ≡ (octet frame.now 1 == 0x81) }
{
    let (front, behind) = frame.parts();
    !front.is_empty() || matches!(behind, [0x81, ..])
}

/// The octets of a frame that doesn't begin as a CLNP PDU: all are in one place.
fn octets_of(frame: &Frame) -> &[u8]
    requires { octet frame.now 1 ≢ 0x81 }
    ensures { result.now ≡ frame.now }
{
    let (_, octets) = frame.parts();
    octets
}

/// What is noted of a frame that no protocol accepts: the rule of ES-IS PDUs that it breaks, or that it is alien.
fn unheard(refusal: EsisRefusal) -> Note
    ensures { result ≡ unheard_note (Some refusal) }
{
    match refusal {
        EsisRefusal::Broken { rule, place } => Note::BadEsis { rule, place },
        EsisRefusal::NotEsis => Note::Alien,
    }
}

/// Each frame has a content. The function does nothing: its clause tells this to callers.
pub(super) fn has_content(frame: &Frame)
    ensures { (content : Content) × IsCarried content × (frame_of content ≡ frame.now) }
{
    let (front, behind) = frame.parts();
    octets_have_content(front, behind);
}

/// All octets have a content.
fn octets_have_content(front: &[u8], behind: &[u8])
    ensures { (content : Content) × IsCarried content × (frame_of content ≡ front.now ++ behind.now) }
{
    laws::octets_have_a_content();
    // Each item of a slice that is used is an octet.
    let _front = front.len();
    let _behind = behind.len();
}
