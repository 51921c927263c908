//! Looks at ports.
ghost use Rattle.std.specs.Prelude.{◌≡◌, ◌≤◌, ◌<◌, OnOk, IfErr, Err, Some, length, true};
ghost use Rattle.clnp_machine.specs.ClnpBase.Streams.{Rose};
ghost use Rattle.clnp_systems.specs.Stands as clnp_systems;
ghost use Rattle.clnp_machine.specs.LiveModel.Node as model;
ghost use Rattle.clnp_program.specs.LiveNode.Plays.{Breaks, Plays, Stands};
ghost use Rattle.clnp_program.specs.LiveNode.Ran.{has_any_attached};

use crate::live_node::lines::write_loss;
use crate::live_node::node::{LiveNode, Stop};
use clnp_machine::nsaps::Snpa;
use clnp_machine::views::Frame;
use clnp_systems::Input;
use frame_links::link_board::base::Sink;
use frame_links::link_board::{Polled, Ports};
use std::alloc::Global;

impl LiveNode {
    /// Looks once at each port whose link is attached, in order; there are so many ports.
    pub(crate) fn look_at_each<B: Ports, K: Sink>(
        &mut self,
        alloc: Global,
        ports: u8,
        board: &mut B,
        buf: &mut [u8],
        sink: &mut K,
    ) -> Result<(), Stop>
        requires room { 70000 ≤ length buf.old }
        requires counted { ports ≡ length (B.ports board.old) }
        ensures plays { OnOk result ((node : model.Node) → Stands self.old (B.ports board.old) node
            → Plays (model.looks_at_each node (model.ports_of node.attached)) node self.new (B.ports board.old) (B.ports board.new)
            (K.written sink.old) (K.written sink.new)) }
        ensures breaks { IfErr result (λ stop. (node : model.Node) → Stands self.old (B.ports board.old) node
            → Breaks (stop ≡ Stop.WriteFault) (model.looks_at_each node (model.ports_of node.attached)) node (B.ports board.old) (B.ports board.new)
            (K.written sink.old) (K.written sink.new)) }
        ensures moment { OnOk result ((clnp_systems.entity_of self.new.system).moment ≡ (clnp_systems.entity_of self.old.system).moment) }
        ensures config { clnp_systems.configuration_of self.new.system ≡ clnp_systems.configuration_of self.old.system }
        ensures ports { length (B.ports board.new) ≡ length (B.ports board.old) }
        ensures room { length buf.new ≡ length buf.old }
        ensures later { K.faults sink.old ≤ K.faults sink.new }
        ensures failed { result ≡ Err Stop.WriteFault → Rose (K.faults sink.old) (K.faults sink.new) }
    {
        for port in 0..ports {
            self.look_at(alloc, port, board, buf, sink)?;
        }
        Ok(())
    }

    /// Looks at a port, where its link is attached, and hands what came to the system.
    fn look_at<B: Ports, K: Sink>(
        &mut self,
        alloc: Global,
        port: u8,
        board: &mut B,
        buf: &mut [u8],
        sink: &mut K,
    ) -> Result<(), Stop>
        requires room { 70000 ≤ length buf.old }
        requires place { port < length (B.ports board.old) }
        ensures plays { OnOk result ((node : model.Node) → Stands self.old (B.ports board.old) node
            → Plays (model.looks_at node port) node self.new (B.ports board.old) (B.ports board.new)
            (K.written sink.old) (K.written sink.new)) }
        ensures breaks { IfErr result (λ stop. (node : model.Node) → Stands self.old (B.ports board.old) node
            → Breaks (stop ≡ Stop.WriteFault) (model.looks_at node port) node (B.ports board.old) (B.ports board.new)
            (K.written sink.old) (K.written sink.new)) }
        ensures moment { OnOk result ((clnp_systems.entity_of self.new.system).moment ≡ (clnp_systems.entity_of self.old.system).moment) }
        ensures config { clnp_systems.configuration_of self.new.system ≡ clnp_systems.configuration_of self.old.system }
        ensures ports { length (B.ports board.new) ≡ length (B.ports board.old) }
        ensures room { length buf.new ≡ length buf.old }
        ensures later { K.faults sink.old ≤ K.faults sink.new }
        ensures failed { result ≡ Err Stop.WriteFault → Rose (K.faults sink.old) (K.faults sink.new) }
    {
        let place = usize::from(port);
        if !board.is_attached(place) {
            return Ok(());
        }
        match board.look(place, buf) {
            Polled::Frame(got) => {
                self.hand(
                    alloc,
                    port,
                    got.from,
                    got.group,
                    &buf[..got.len],
                    board,
                    sink,
                )
            }
            Polled::Nothing => Ok(()),
            Polled::Detached => write_loss(
                alloc,
                self.now,
                self.system.config().name(),
                port,
                sink,
            ),
        }
    }

    /// Hands the system a frame that came at a port.
    fn hand<B: Ports, K: Sink>(
        &mut self,
        alloc: Global,
        port: u8,
        from: Snpa,
        group: bool,
        octets: &[u8],
        board: &mut B,
        sink: &mut K,
    ) -> Result<(), Stop>
        requires short { length octets.now ≤ 70000 }
        requires on { has_any_attached (B.ports board.old) ≡ true }
        ensures plays { OnOk result ((node : model.Node) → Stands self.old (B.ports board.old) node
            → Plays (model.sees node port (Some (record { from = from; to_group = group; octets = octets.now })))
            node self.new (B.ports board.old) (B.ports board.new) (K.written sink.old) (K.written sink.new)) }
        ensures breaks { IfErr result (λ stop. (node : model.Node) → Stands self.old (B.ports board.old) node
            → Breaks (stop ≡ Stop.WriteFault) (model.sees node port (Some (record { from = from; to_group = group; octets = octets.now })))
            node (B.ports board.old) (B.ports board.new) (K.written sink.old) (K.written sink.new)) }
        ensures moment { OnOk result ((clnp_systems.entity_of self.new.system).moment ≡ (clnp_systems.entity_of self.old.system).moment) }
        ensures config { clnp_systems.configuration_of self.new.system ≡ clnp_systems.configuration_of self.old.system }
        ensures ports { length (B.ports board.new) ≡ length (B.ports board.old) }
        ensures later { K.faults sink.old ≤ K.faults sink.new }
        ensures failed { result ≡ Err Stop.WriteFault → Rose (K.faults sink.old) (K.faults sink.new) }
    {
        // Its clause: the octets are the frame of some content of the model.
        clnp_machine::laws::octets_have_a_content();
        let Ok(frame) = Frame::copy(alloc, octets) else {
            return Err(Stop::NoMemory);
        };
        self.polled = self.polled.saturating_add(1);
        let input = Input::Frame {
            port,
            from,
            group,
            frame: &frame,
        };
        self.comes(alloc, &input, board, sink)
    }
}
