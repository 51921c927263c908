//! What the system gives out: notes are written, and frames written and sent.
ghost use Rattle.std.specs.Prelude.{◌≡◌, ◌≤◌, List, OnOk, IfErr, Err, length};
ghost use Rattle.clnp_machine.specs.ClnpBase.Streams.{Rose};
ghost use Rattle.clnp_machine.specs.System as machine;
ghost use Rattle.clnp_machine.specs.LiveModel.Node as model;
ghost use Rattle.clnp_program.specs.LiveNode.Outputs.{PutAllOut, PutsOut};
ghost use Rattle.clnp_program.specs.LiveNode.Plays.{Breaks, Plays, Stands};

use crate::live_node::lines::{write_loss, write_note, write_transmission};
use crate::live_node::node::{LiveNode, Stop};
use clnp_machine::system_plan::{Output, Sending};
use frame_links::link_board::base::Sink;
use frame_links::link_board::{Ports, Sent};
use std::alloc::Global;

impl LiveNode {
    /// Outputs of the system go out, in order.
    pub(crate) fn put_all_out<B: Ports, K: Sink>(
        &mut self,
        alloc: Global,
        outputs: &[Output],
        board: &mut B,
        sink: &mut K,
    ) -> Result<(), Stop>
        ensures plays { OnOk result ((node : model.Node) (others : List machine.Output) → Stands self.old (B.ports board.old) node
            → PutAllOut outputs.now others
            → Plays (model.puts_all_out node others) node self.new (B.ports board.old) (B.ports board.new)
            (K.written sink.old) (K.written sink.new)) }
        ensures breaks { IfErr result (λ stop. (node : model.Node) (others : List machine.Output) → Stands self.old (B.ports board.old) node
            → PutAllOut outputs.now others
            → Breaks (stop ≡ Stop.WriteFault) (model.puts_all_out node others) node (B.ports board.old) (B.ports board.new)
            (K.written sink.old) (K.written sink.new)) }
        ensures system { self.new.system ≡ self.old.system }
        ensures now { self.new.now ≡ self.old.now }
        ensures ports { length (B.ports board.new) ≡ length (B.ports board.old) }
        ensures later { K.faults sink.old ≤ K.faults sink.new }
        ensures failed { result ≡ Err Stop.WriteFault → Rose (K.faults sink.old) (K.faults sink.new) }
    {
        for output in outputs {
            self.put_out(alloc, output, board, sink)?;
        }
        Ok(())
    }

    /// One output goes out: its note is written, or its frame is written and sent.
    fn put_out<B: Ports, K: Sink>(
        &mut self,
        alloc: Global,
        output: &Output,
        board: &mut B,
        sink: &mut K,
    ) -> Result<(), Stop>
        ensures plays { OnOk result ((node : model.Node) (other : machine.Output) → Stands self.old (B.ports board.old) node
            → PutsOut output.now other
            → Plays (model.puts_out node other) node self.new (B.ports board.old) (B.ports board.new)
            (K.written sink.old) (K.written sink.new)) }
        ensures breaks { IfErr result (λ stop. (node : model.Node) (other : machine.Output) → Stands self.old (B.ports board.old) node
            → PutsOut output.now other
            → Breaks (stop ≡ Stop.WriteFault) (model.puts_out node other) node (B.ports board.old) (B.ports board.new)
            (K.written sink.old) (K.written sink.new)) }
        ensures system { self.new.system ≡ self.old.system }
        ensures now { self.new.now ≡ self.old.now }
        ensures ports { length (B.ports board.new) ≡ length (B.ports board.old) }
        ensures later { K.faults sink.old ≤ K.faults sink.new }
        ensures failed { result ≡ Err Stop.WriteFault → Rose (K.faults sink.old) (K.faults sink.new) }
    {
        match output {
            Output::Note(note) => write_note(
                alloc,
                self.now,
                self.system.config().name(),
                note,
                sink,
            ),
            Output::Transmit(sending) => self.transmit(alloc, sending, board, sink),
        }
    }

    /// A frame goes out: it is written, and sent where its port is there and the link of that attached.
    fn transmit<B: Ports, K: Sink>(
        &mut self,
        alloc: Global,
        sending: &Sending,
        board: &mut B,
        sink: &mut K,
    ) -> Result<(), Stop>
        ensures plays { OnOk result ((node : model.Node) → Stands self.old (B.ports board.old) node
            → Plays (model.transmits node (record { port = sending.now.port; frame = record { target = sending.now.to; octets = sending.now.frame } }))
            node self.new (B.ports board.old) (B.ports board.new) (K.written sink.old) (K.written sink.new)) }
        ensures breaks { IfErr result (λ stop. (node : model.Node) → Stands self.old (B.ports board.old) node
            → Breaks (stop ≡ Stop.WriteFault) (model.transmits node (record { port = sending.now.port; frame = record { target = sending.now.to; octets = sending.now.frame } }))
            node (B.ports board.old) (B.ports board.new) (K.written sink.old) (K.written sink.new)) }
        ensures system { self.new.system ≡ self.old.system }
        ensures now { self.new.now ≡ self.old.now }
        ensures ports { length (B.ports board.new) ≡ length (B.ports board.old) }
        ensures later { K.faults sink.old ≤ K.faults sink.new }
        ensures failed { result ≡ Err Stop.WriteFault → Rose (K.faults sink.old) (K.faults sink.new) }
    {
        self.copies = self.copies.saturating_add(1);
        let name = self.system.config().name();
        write_transmission(
            alloc,
            self.now,
            name,
            self.copies,
            sending.port,
            sending.to,
            &sending.frame,
            sink,
        )?;
        let port = usize::from(sending.port);
        if port >= board.count() || !board.is_attached(port) {
            return Ok(());
        }
        let (head, tail) = sending.frame.parts();
        match board.put(port, sending.to, head, tail) {
            Sent::Done => Ok(()),
            Sent::Detached => write_loss(
                alloc,
                self.now,
                self.system.config().name(),
                sending.port,
                sink,
            ),
        }
    }
}
