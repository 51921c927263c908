//! The moves, and what an event does.
ghost use Rattle.std.specs.Prelude.{◌≡◌, ◌+◌, ◌<◌, ◌≤◌, ◌^◌, ℕ, List, ◌++◌, OnOk, OnErr, Some, length, slice_get, vec_len};
ghost use Rattle.std.specs.List.{AllByRecursion, range_with_len};
ghost use Rattle.clnp_machine.specs.System.{IsRestarted, IsCongested};
ghost use Rattle.clnp_machine.specs.ClnpNetwork.LabelledNetwork as network;
ghost use Rattle.clnp_program.specs.ClnpWorld.Parts.{Follows, Holds, IsRunning, MayGoOn};
ghost use Rattle.clnp_machine.specs.ScenarioPlan.Plan.{AsksFairly, InjectsInForm, IsSaid};

use super::Network;
use super::coming::names_of_inputs;
use crate::clnp_world::copy::NO_FRAME;
use crate::clnp_world::lines::{Line, LineSink};
use clnp_machine::base::NoMemory;
use clnp_machine::clnp_network::scenarios::{Event, Move, Scenario, Subnet};
use clnp_machine::system_plan::Limits;
use clnp_systems::Input;
use std::alloc::Global;

impl Network {
    /// Makes one move, and its lines. Where memory is refused, some of them may have been taken.
    pub(crate) fn make_move<L: LineSink>(
        &mut self,
        alloc: Global,
        scenario: &Scenario,
        mv: &Move,
        lines: &mut L,
    ) -> Result<(), NoMemory>
        requires clock { self.old.clock + 1 < 2 ^ 62 }
        requires running { IsRunning self.old }
        ensures { OnOk result ((model : network.LabelledNetwork) → Holds self.old model
            → Follows self.new (L.taken lines.old) (L.taken lines.new) (network.after scenario.now model mv.now)) }
    {
        // Its clause: each event asks of a system what may be asked of it, injects in its form, and says what may be said.
        scenario.is_fit();
        let limits = *scenario.limits();
        match mv {
            Move::One(place) => {
                let subnets = scenario.subnets();
                self.event_at(alloc, subnets, limits, scenario.events(), *place, lines)
            }
            Move::SettleOne => self.settle_one(alloc, limits, lines),
            Move::LoseOne => self.lose_one(alloc, lines),
            Move::TickOne => self.tick_one(alloc, lines),
            Move::TickSystem(place) => self.tick_system(alloc, *place, lines),
        }
    }

    /// What the event at a place does, where there is one.
    fn event_at<L: LineSink>(
        &mut self,
        alloc: Global,
        subnets: &[Subnet],
        limits: Limits,
        events: &[Event],
        place: usize,
        lines: &mut L,
    ) -> Result<(), NoMemory>
        requires running { IsRunning self.old }
        requires fair { AllByRecursion AsksFairly events.now }
        requires injected { AllByRecursion (InjectsInForm (length subnets.now)) events.now }
        requires said { AllByRecursion IsSaid events.now }
        ensures { OnOk result ((model : network.LabelledNetwork) → Holds self.old model
            → Follows self.new (L.taken lines.old) (L.taken lines.new)
            (network.event_happens subnets.now limits model (slice_get events.now place))) }
    {
        if place >= events.len() {
            return Ok(());
        }
        self.event_happens(alloc, subnets, limits, &events[place], lines)
    }

    /// What an event of one move does.
    fn event_happens<L: LineSink>(
        &mut self,
        alloc: Global,
        subnets: &[Subnet],
        limits: Limits,
        event: &Event,
        lines: &mut L,
    ) -> Result<(), NoMemory>
        requires running { IsRunning self.old }
        requires fair { AsksFairly event.now }
        requires injected { InjectsInForm (length subnets.now) event.now }
        requires said { IsSaid event.now }
        ensures { OnOk result ((model : network.LabelledNetwork) → Holds self.old model
            → Follows self.new (L.taken lines.old) (L.taken lines.new) (network.event_happens subnets.now limits model (Some event.now))) }
    {
        match event {
            Event::Send {
                system,
                from,
                to,
                body,
                ask,
            } => {
                let ask = ask.ask();
                self.send(alloc, usize::from(*system), *from, *to, body, &ask, lines)
            }
            Event::Echo {
                system,
                from,
                to,
                body,
            } => self.echo(alloc, usize::from(*system), *from, *to, body, lines),
            Event::Deliver { copy, system } => {
                self.deliver(alloc, limits, *copy, usize::from(*system), lines)
            }
            Event::Restart { system } => self.restart(alloc, usize::from(*system), lines),
            Event::Congest { system, on } => {
                self.congest(alloc, usize::from(*system), *on, lines)
            }
            Event::Inject {
                subnet,
                from,
                to,
                octets,
            } => self.inject(alloc, subnets, *subnet, *from, *to, octets, lines),
            Event::Mtu { subnet, mtu } => self.resize(alloc, subnets, *subnet, *mtu, lines),
            Event::Route { system, route } => {
                self.set_route(alloc, usize::from(*system), *route, lines)
            }
            Event::Unroute { system, prefix } => {
                self.remove_route(alloc, usize::from(*system), prefix, lines)
            }
            Event::Port {
                system,
                number,
                subnet,
                snpa,
            } => {
                let place = usize::from(*system);
                self.move_port(alloc, subnets, place, *number, *subnet, *snpa, lines)
            }
            Event::Settle { .. }
            | Event::Lose { .. }
            | Event::Tick { .. }
            | Event::TickSystem { .. } => Ok(()),
        }
    }

    /// Passes over the copy at the cursor: it is given to nobody.
    fn lose_one<L: LineSink>(&mut self, alloc: Global, lines: &mut L) -> Result<(), NoMemory>
        ensures { OnOk result ((model : network.LabelledNetwork) → Holds self.old model
            → Follows self.new (L.taken lines.old) (L.taken lines.new) (network.lose_one model)) }
    {
        if self.cursor >= self.copies.len() {
            return Ok(());
        }
        self.cursor += 1;
        let line = Line::Lost {
            now: self.clock,
            copy: self.cursor as u64,
        };
        lines.take(alloc, &line)
    }

    /// Restarts the system at a place.
    fn restart<L: LineSink>(
        &mut self,
        alloc: Global,
        place: usize,
        lines: &mut L,
    ) -> Result<(), NoMemory>
        ensures { OnOk result ((model : network.LabelledNetwork) → Holds self.old model
            → Follows self.new (L.taken lines.old) (L.taken lines.new) (network.comes model place IsRestarted)) }
    {
        names_of_inputs(None, None);
        self.comes(alloc, place, NO_FRAME, &Input::Restart, lines)
    }

    /// The system at a place is congested from now on, or no more.
    fn congest<L: LineSink>(
        &mut self,
        alloc: Global,
        place: usize,
        on: bool,
        lines: &mut L,
    ) -> Result<(), NoMemory>
        ensures { OnOk result ((model : network.LabelledNetwork) → Holds self.old model
            → Follows self.new (L.taken lines.old) (L.taken lines.new) (network.comes model place (IsCongested on))) }
    {
        names_of_inputs(None, None);
        self.comes(alloc, place, NO_FRAME, &Input::Congest(on), lines)
    }

    /// One tick passes.
    fn tick_one<L: LineSink>(&mut self, alloc: Global, lines: &mut L) -> Result<(), NoMemory>
        requires clock { self.old.clock + 1 < 2 ^ 62 }
        requires running { IsRunning self.old }
        ensures { OnOk result ((model : network.LabelledNetwork) → Holds self.old model
            → Follows self.new (L.taken lines.old) (L.taken lines.new) (network.tick_one model)) }
    {
        self.clock += 1;
        self.tick_each(alloc, lines)
    }

    /// The clock of each system goes on, in the order of the declarations.
    fn tick_each<L: LineSink>(&mut self, alloc: Global, lines: &mut L) -> Result<(), NoMemory>
        requires clock { self.old.clock < 2 ^ 62 }
        requires running { (model : network.LabelledNetwork) × Holds self.old model × ((place : ℕ) → MayGoOn model place) }
        ensures { OnOk result ((model : network.LabelledNetwork) → Holds self.old model → ((place : ℕ) → MayGoOn model place)
            → Follows self.new (L.taken lines.old) (L.taken lines.new) (network.tick_each model (range_with_len 0 (length model.systems)))) }
    {
        for place in 0..self.systems.len() {
            self.go_on(alloc, place, lines)?;
        }
        Ok(())
    }

    /// The clock of the system at a place goes on, where there is one, and the network's where it is passed.
    fn tick_system<L: LineSink>(
        &mut self,
        alloc: Global,
        place: usize,
        lines: &mut L,
    ) -> Result<(), NoMemory>
        requires clock { self.old.clock + 1 < 2 ^ 62 }
        requires running { IsRunning self.old }
        ensures { OnOk result ((model : network.LabelledNetwork) → Holds self.old model
            → Follows self.new (L.taken lines.old) (L.taken lines.new) (network.tick_system model place)) }
    {
        if place >= self.systems.len() {
            return Ok(());
        }
        let now = self.moment_at(place) + 1;
        self.clock = self.clock.max(now);
        self.go_on(alloc, place, lines)
    }

    /// The clock of the system at a place goes on, and its moment comes to it.
    fn go_on<L: LineSink>(
        &mut self,
        alloc: Global,
        place: usize,
        lines: &mut L,
    ) -> Result<(), NoMemory>
        requires place_in { place < vec_len self.old.systems }
        requires clock { self.old.clock < 2 ^ 62 }
        requires running { (model : network.LabelledNetwork) × Holds self.old model × MayGoOn model place }
        ensures follows { OnOk result ((model : network.LabelledNetwork) → Holds self.old model → MayGoOn model place
            → Follows self.new (L.taken lines.old) (L.taken lines.new) (network.goes_on model place (slice_get model.systems place))) }
        ensures systems { vec_len self.new.systems ≡ vec_len self.old.systems }
        ensures clock { self.new.clock ≡ self.old.clock }
    {
        names_of_inputs(None, None);
        let now = self.moment_at(place) + 1;
        self.comes(alloc, place, NO_FRAME, &Input::Moment(now), lines)
    }
}
