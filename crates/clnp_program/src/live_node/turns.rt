//! Turns: the moment, the events that are due, and a look at each port.
ghost use Rattle.std.specs.Prelude.{◌≡◌, ◌≤◌, ◌<◌, ◌^◌, [], ◌∷◌, ◌⊎◌, OnOk, IfErr, Err, false, length};
ghost use Rattle.clnp_machine.specs.ClnpBase.Streams.{Rose};
ghost use Rattle.clnp_machine.specs.ClnpOptions.Grammar.{FitsKind};
ghost use Rattle.clnp_machine.specs.ClnpOptions.Parameter.{parameters};
ghost use Rattle.clnp_machine.specs.System.{AsksForEcho, AsksToSend};
ghost use Rattle.clnp_systems.specs.Stands as clnp_systems;
ghost use Rattle.clnp_plan.specs.ScenarioPlan.Plan.{AsksFairly, octets_of};
ghost use Rattle.clnp_machine.specs.LiveModel.Node as model;
ghost use Rattle.clnp_machine.specs.LiveModel.Turn.{asked_by, comes_at, due_behind, of_host, takes_turn};
ghost use Rattle.clnp_program.specs.LiveNode.Agenda.{asks_by, dues_of};
ghost use Rattle.clnp_program.specs.LiveNode.Plays.{Breaks, Plays, Stands};
ghost use Rattle.clnp_program.specs.LiveNode.Ran.{has_any_attached};

use crate::live_node::agenda::Agenda;
use crate::live_node::node::{LiveNode, Stop};
use clnp_machine::nsaps::Address;
use clnp_machine::system_plan::{Ask, Role};
use clnp_machine::views::Frame;
use clnp_plan::scenario_plan::{Body, Event, Scenario};
use clnp_systems::Input;
use frame_links::link_board::Ports;
use frame_links::link_board::base::Sink;
use std::alloc::Global;

/// Names the types that an input may hold: the prover has to be told of them where an input is made. The function does nothing.
fn names_of_inputs(_frame: Option<&Frame>, _ask: Option<&Ask>) {}

impl LiveNode {
    /// Takes a turn: the moment comes, each event is done that is due by then, and each port whose link is attached is looked at
    /// once, in order.
    pub(crate) fn turn<B: Ports, K: Sink>(
        &mut self,
        alloc: Global,
        scenario: &Scenario,
        now: u64,
        ports: u8,
        agenda: &mut Agenda,
        board: &mut B,
        buf: &mut [u8],
        sink: &mut K,
    ) -> Result<(), Stop>
        requires moment { (clnp_systems.entity_of self.old.system).moment ≤ now }
        requires early { now < 2 ^ 62 }
        requires room { 70000 ≤ length buf.old }
        requires counted { ports ≡ length (B.ports board.old) }
        ensures plays { OnOk result ((node : model.Node) → Stands self.old (B.ports board.old) node
            → Plays (takes_turn (comes_at now node.system.configuration.role (dues_of agenda.old scenario.now.events)) node) node self.new
            (B.ports board.old) (B.ports board.new) (K.written sink.old) (K.written sink.new)) }
        ensures breaks { IfErr result (λ stop. (node : model.Node) → Stands self.old (B.ports board.old) node
            → Breaks ((stop ≡ Stop.WriteFault) ⊎ (has_any_attached (B.ports board.old) ≡ false)) (takes_turn (comes_at now node.system.configuration.role (dues_of agenda.old scenario.now.events)) node) node
            (B.ports board.old) (B.ports board.new) (K.written sink.old) (K.written sink.new)) }
        ensures behind { OnOk result (dues_of agenda.new scenario.now.events ≡ due_behind now (dues_of agenda.old scenario.now.events)) }
        ensures moment { OnOk result ((clnp_systems.entity_of self.new.system).moment ≡ now) }
        ensures ports { length (B.ports board.new) ≡ length (B.ports board.old) }
        ensures room { length buf.new ≡ length buf.old }
        ensures later { K.faults sink.old ≤ K.faults sink.new }
        ensures failed { result ≡ Err Stop.WriteFault → Rose (K.faults sink.old) (K.faults sink.new) }
    {
        self.come_due(alloc, scenario, now, agenda, board, sink)?;
        self.look_at_each(alloc, ports, board, buf, sink)
    }

    /// The moment comes, and each event is done that is due by then, in order.
    fn come_due<B: Ports, K: Sink>(
        &mut self,
        alloc: Global,
        scenario: &Scenario,
        now: u64,
        agenda: &mut Agenda,
        board: &mut B,
        sink: &mut K,
    ) -> Result<(), Stop>
        requires moment { (clnp_systems.entity_of self.old.system).moment ≤ now }
        requires early { now < 2 ^ 62 }
        ensures plays { OnOk result ((node : model.Node) → Stands self.old (B.ports board.old) node
            → Plays (model.come_all node (comes_at now (clnp_systems.configuration_of self.old.system).role (dues_of agenda.old scenario.now.events))) node self.new
            (B.ports board.old) (B.ports board.new) (K.written sink.old) (K.written sink.new)) }
        ensures breaks { IfErr result (λ stop. (node : model.Node) → Stands self.old (B.ports board.old) node
            → Breaks ((stop ≡ Stop.WriteFault) ⊎ (has_any_attached (B.ports board.old) ≡ false)) (model.come_all node (comes_at now (clnp_systems.configuration_of self.old.system).role (dues_of agenda.old scenario.now.events))) node
            (B.ports board.old) (B.ports board.new) (K.written sink.old) (K.written sink.new)) }
        ensures behind { OnOk result (dues_of agenda.new scenario.now.events ≡ due_behind now (dues_of agenda.old scenario.now.events)) }
        ensures moment { OnOk result ((clnp_systems.entity_of self.new.system).moment ≡ now) }
        ensures ports { length (B.ports board.new) ≡ length (B.ports board.old) }
        ensures later { K.faults sink.old ≤ K.faults sink.new }
        ensures failed { result ≡ Err Stop.WriteFault → Rose (K.faults sink.old) (K.faults sink.new) }
    {
        names_of_inputs(None, None);
        let input = Input::Moment(now);
        self.comes(alloc, &input, board, sink)?;
        self.do_due(alloc, scenario, now, agenda, board, sink)
    }

    /// Does the events that are due by a moment, in order.
    fn do_due<B: Ports, K: Sink>(
        &mut self,
        alloc: Global,
        scenario: &Scenario,
        now: u64,
        agenda: &mut Agenda,
        board: &mut B,
        sink: &mut K,
    ) -> Result<(), Stop>
        requires early { now < 2 ^ 62 }
        ensures plays { OnOk result ((node : model.Node) → Stands self.old (B.ports board.old) node
            → Plays (model.come_all node (asks_by now (clnp_systems.configuration_of self.old.system).role (dues_of agenda.old scenario.now.events))) node self.new
            (B.ports board.old) (B.ports board.new) (K.written sink.old) (K.written sink.new)) }
        ensures breaks { IfErr result (λ stop. (node : model.Node) → Stands self.old (B.ports board.old) node
            → Breaks (stop ≡ Stop.WriteFault) (model.come_all node (asks_by now (clnp_systems.configuration_of self.old.system).role (dues_of agenda.old scenario.now.events))) node
            (B.ports board.old) (B.ports board.new) (K.written sink.old) (K.written sink.new)) }
        ensures behind { OnOk result (dues_of agenda.new scenario.now.events ≡ due_behind now (dues_of agenda.old scenario.now.events)) }
        ensures moment { OnOk result ((clnp_systems.entity_of self.new.system).moment ≡ (clnp_systems.entity_of self.old.system).moment) }
        ensures config { clnp_systems.configuration_of self.new.system ≡ clnp_systems.configuration_of self.old.system }
        ensures ports { length (B.ports board.new) ≡ length (B.ports board.old) }
        ensures later { K.faults sink.old ≤ K.faults sink.new }
        ensures failed { result ≡ Err Stop.WriteFault → Rose (K.faults sink.old) (K.faults sink.new) }
    {
        // Its clause: each event asks of a system what may be asked of it.
        scenario.is_fit();
        let events = scenario.events();
        for place in agenda.next..events.len() {
            if now < agenda.moment {
                return Ok(());
            }
            let event = &events[place];
            self.do_event(alloc, event, board, sink)?;
            *agenda = agenda.behind(event);
        }
        Ok(())
    }

    /// Does an event: octets are asked to be sent of a host, or an echo request of any system.
    fn do_event<B: Ports, K: Sink>(
        &mut self,
        alloc: Global,
        event: &Event,
        board: &mut B,
        sink: &mut K,
    ) -> Result<(), Stop>
        requires { AsksFairly event.now }
        ensures plays { OnOk result ((node : model.Node) → Stands self.old (B.ports board.old) node
            → Plays (model.come_all node (asked_by (clnp_systems.configuration_of self.old.system).role event.now)) node self.new
            (B.ports board.old) (B.ports board.new) (K.written sink.old) (K.written sink.new)) }
        ensures breaks { IfErr result (λ stop. (node : model.Node) → Stands self.old (B.ports board.old) node
            → Breaks (stop ≡ Stop.WriteFault) (model.come_all node (asked_by (clnp_systems.configuration_of self.old.system).role event.now)) node
            (B.ports board.old) (B.ports board.new) (K.written sink.old) (K.written sink.new)) }
        ensures moment { OnOk result ((clnp_systems.entity_of self.new.system).moment ≡ (clnp_systems.entity_of self.old.system).moment) }
        ensures config { clnp_systems.configuration_of self.new.system ≡ clnp_systems.configuration_of self.old.system }
        ensures ports { length (B.ports board.new) ≡ length (B.ports board.old) }
        ensures later { K.faults sink.old ≤ K.faults sink.new }
        ensures failed { result ≡ Err Stop.WriteFault → Rose (K.faults sink.old) (K.faults sink.new) }
    {
        match event {
            Event::Send {
                system: _,
                from,
                to,
                body,
                ask,
            } => self.send(alloc, *from, *to, body, &ask.ask(), board, sink),
            Event::Echo {
                system: _,
                from,
                to,
                body,
            } => self.echo(alloc, *from, *to, body, board, sink),
            Event::Deliver { .. } => Ok(()),
            Event::Settle { .. } => Ok(()),
            Event::Lose { .. } => Ok(()),
            Event::Tick { .. } => Ok(()),
            Event::TickSystem { .. } => Ok(()),
            Event::Restart { .. } => Ok(()),
            Event::Congest { .. } => Ok(()),
            Event::Inject { .. } => Ok(()),
            Event::Mtu { .. } => Ok(()),
            Event::Route { .. } => Ok(()),
            Event::Unroute { .. } => Ok(()),
            Event::Port { .. } => Ok(()),
        }
    }

    /// Asks the system to send a unit with these octets; nobody asks a router.
    fn send<B: Ports, K: Sink>(
        &mut self,
        alloc: Global,
        from: Address,
        to: Address,
        body: &Body,
        ask: &Ask,
        board: &mut B,
        sink: &mut K,
    ) -> Result<(), Stop>
        requires { FitsKind false (parameters ask.now.options) }
        ensures plays { OnOk result ((node : model.Node) → Stands self.old (B.ports board.old) node
            → Plays (model.come_all node (of_host (clnp_systems.configuration_of self.old.system).role (AsksToSend from to (octets_of body.now) ask.now))) node self.new
            (B.ports board.old) (B.ports board.new) (K.written sink.old) (K.written sink.new)) }
        ensures breaks { IfErr result (λ stop. (node : model.Node) → Stands self.old (B.ports board.old) node
            → Breaks (stop ≡ Stop.WriteFault) (model.come_all node (of_host (clnp_systems.configuration_of self.old.system).role (AsksToSend from to (octets_of body.now) ask.now))) node
            (B.ports board.old) (B.ports board.new) (K.written sink.old) (K.written sink.new)) }
        ensures moment { OnOk result ((clnp_systems.entity_of self.new.system).moment ≡ (clnp_systems.entity_of self.old.system).moment) }
        ensures config { clnp_systems.configuration_of self.new.system ≡ clnp_systems.configuration_of self.old.system }
        ensures ports { length (B.ports board.new) ≡ length (B.ports board.old) }
        ensures later { K.faults sink.old ≤ K.faults sink.new }
        ensures failed { result ≡ Err Stop.WriteFault → Rose (K.faults sink.old) (K.faults sink.new) }
    {
        match self.system.config().role() {
            Role::Router => Ok(()),
            Role::Host => self.send_unit(alloc, from, to, body, ask, board, sink),
        }
    }

    /// Asks the system, which is a host, to send a unit with these octets.
    fn send_unit<B: Ports, K: Sink>(
        &mut self,
        alloc: Global,
        from: Address,
        to: Address,
        body: &Body,
        ask: &Ask,
        board: &mut B,
        sink: &mut K,
    ) -> Result<(), Stop>
        requires { FitsKind false (parameters ask.now.options) }
        ensures plays { OnOk result ((node : model.Node) → Stands self.old (B.ports board.old) node
            → Plays (model.come_all node (AsksToSend from to (octets_of body.now) ask.now ∷ [])) node self.new
            (B.ports board.old) (B.ports board.new) (K.written sink.old) (K.written sink.new)) }
        ensures breaks { IfErr result (λ stop. (node : model.Node) → Stands self.old (B.ports board.old) node
            → Breaks (stop ≡ Stop.WriteFault) (model.come_all node (AsksToSend from to (octets_of body.now) ask.now ∷ [])) node
            (B.ports board.old) (B.ports board.new) (K.written sink.old) (K.written sink.new)) }
        ensures moment { OnOk result ((clnp_systems.entity_of self.new.system).moment ≡ (clnp_systems.entity_of self.old.system).moment) }
        ensures config { clnp_systems.configuration_of self.new.system ≡ clnp_systems.configuration_of self.old.system }
        ensures ports { length (B.ports board.new) ≡ length (B.ports board.old) }
        ensures later { K.faults sink.old ≤ K.faults sink.new }
        ensures failed { result ≡ Err Stop.WriteFault → Rose (K.faults sink.old) (K.faults sink.new) }
    {
        names_of_inputs(None, None);
        let Ok(octets) = body.octets(alloc) else {
            return Err(Stop::NoMemory);
        };
        let input = Input::Send {
            from,
            to,
            body: &octets,
            ask,
        };
        self.comes(alloc, &input, board, sink)
    }

    /// Asks the system for an echo request with these octets.
    fn echo<B: Ports, K: Sink>(
        &mut self,
        alloc: Global,
        from: Address,
        to: Address,
        body: &Body,
        board: &mut B,
        sink: &mut K,
    ) -> Result<(), Stop>
        ensures plays { OnOk result ((node : model.Node) → Stands self.old (B.ports board.old) node
            → Plays (model.come_all node (AsksForEcho from to (octets_of body.now) ∷ [])) node self.new
            (B.ports board.old) (B.ports board.new) (K.written sink.old) (K.written sink.new)) }
        ensures breaks { IfErr result (λ stop. (node : model.Node) → Stands self.old (B.ports board.old) node
            → Breaks (stop ≡ Stop.WriteFault) (model.come_all node (AsksForEcho from to (octets_of body.now) ∷ [])) node
            (B.ports board.old) (B.ports board.new) (K.written sink.old) (K.written sink.new)) }
        ensures moment { OnOk result ((clnp_systems.entity_of self.new.system).moment ≡ (clnp_systems.entity_of self.old.system).moment) }
        ensures config { clnp_systems.configuration_of self.new.system ≡ clnp_systems.configuration_of self.old.system }
        ensures ports { length (B.ports board.new) ≡ length (B.ports board.old) }
        ensures later { K.faults sink.old ≤ K.faults sink.new }
        ensures failed { result ≡ Err Stop.WriteFault → Rose (K.faults sink.old) (K.faults sink.new) }
    {
        names_of_inputs(None, None);
        let Ok(octets) = body.octets(alloc) else {
            return Err(Stop::NoMemory);
        };
        let input = Input::Echo {
            from,
            to,
            body: &octets,
        };
        self.comes(alloc, &input, board, sink)
    }
}
