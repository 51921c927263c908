//! The system of a live node, and what comes to it.
ghost use Rattle.std.specs.Prelude.{◌≡◌, ◌≤◌, ◌<◌, ◌^◌, ◌+◌, ◌⊎◌, IfErr, IfOk, OnOk, Err, length};
ghost use Rattle.clnp_machine.specs.Content.{Content};
ghost use Rattle.clnp_machine.specs.System.{first_state};
ghost use Rattle.clnp_systems.specs.Stands as clnp_systems;
ghost use Rattle.clnp_systems.specs.Steps.{Carries, MayCome, input_with, moment_at};
ghost use Rattle.clnp_machine.specs.ClnpBase.Streams.{Rose};
ghost use Rattle.clnp_machine.specs.LiveModel.Node as model;
ghost use Rattle.clnp_program.specs.LiveNode.Plays.{Breaks, IsUnnoticed, Plays, Stands};

use clnp_machine::system_plan::{Limits, SystemConfig};
use clnp_systems::{Input, System};
use frame_links::link_board::Ports;
use frame_links::link_board::base::{NoMemory, Sink};
use std::alloc::Global;

/// Why a turn was broken off.
#[derive(Clone, Copy)]
pub(crate) enum Stop {
    WriteFault,
    NoMemory,
}

/// A system, its moment, the number of the last frame that it transmitted, and that of the last one that was seen for it.
#[derive(Drop)]
pub(crate) struct LiveNode {
    pub(crate) system: System,
    pub(crate) now: u64,
    pub(crate) copies: u64,
    pub(crate) polled: u64,
}

impl LiveNode {
    /// The node of a system at its start, which is quiet until identifiers that it may have used before have rested
    /// (ISO 8473, section 6.8).
    ///
    /// # Errors
    ///
    /// `NoMemory`.
    pub(crate) fn new(
        alloc: Global,
        config: &SystemConfig,
        limits: &Limits,
        start: u64,
    ) -> Result<LiveNode, NoMemory>
        requires hold { 1 ≤ limits.now.hold }
        requires reuse { limits.now.reuse ≤ 16384 }
        requires start { start < 2 ^ 62 }
        ensures system { IfOk result (λ live. clnp_systems.Stands live.system
            (first_state 0 config.now limits.now start (start + limits.now.reuse))) }
        ensures moment { IfOk result (λ live. (clnp_systems.entity_of live.system).moment ≡ start) }
        ensures now { IfOk result (λ live. live.now ≡ start) }
        ensures copies { IfOk result (λ live. live.copies ≡ 0) }
        ensures polled { IfOk result (λ live. live.polled ≡ 0) }
    {
        let quiet = start + u64::from(limits.reuse);
        let system = System::new(alloc, config, limits, start, quiet)?;
        Ok(LiveNode {
            system,
            now: start,
            copies: 0,
            polled: 0,
        })
    }

    /// Something comes to the system, and what it gives out goes out.
    pub(crate) fn comes<B: Ports, K: Sink>(
        &mut self,
        alloc: Global,
        input: &Input<'_>,
        board: &mut B,
        sink: &mut K,
    ) -> Result<(), Stop>
        requires { MayCome (clnp_systems.entity_of self.old.system).moment input.now }
        ensures plays { OnOk result ((node : model.Node) (content : Content) → Stands self.old (B.ports board.old) node → Carries input.now content
            → Plays (model.comes node (input_with content input.now)) node self.new (B.ports board.old) (B.ports board.new)
            (K.written sink.old) (K.written sink.new)) }
        ensures breaks { IfErr result (λ stop. (node : model.Node) (content : Content) → Stands self.old (B.ports board.old) node → Carries input.now content
            → Breaks ((stop ≡ Stop.WriteFault) ⊎ IsUnnoticed node (input_with content input.now)) (model.comes node (input_with content input.now)) node (B.ports board.old) (B.ports board.new)
            (K.written sink.old) (K.written sink.new)) }
        ensures moment { OnOk result ((content : Content) → Carries input.now content → (clnp_systems.entity_of self.new.system).moment
            ≡ moment_at (input_with content input.now) (clnp_systems.entity_of self.old.system).moment) }
        ensures config { (content : Content) → Carries input.now content
            → clnp_systems.configuration_of self.new.system ≡ clnp_systems.configuration_of self.old.system }
        ensures ports { length (B.ports board.new) ≡ length (B.ports board.old) }
        ensures later { K.faults sink.old ≤ K.faults sink.new }
        ensures failed { result ≡ Err Stop.WriteFault → Rose (K.faults sink.old) (K.faults sink.new) }
    {
        let mut outputs = Vec::new(alloc);
        if self.system.step(alloc, input, &mut outputs).is_err() {
            return Err(Stop::NoMemory);
        }
        self.now = moment_behind(input, self.now);
        self.put_all_out(alloc, &outputs, board, sink)
    }
}

/// The moment of a system behind what comes to it at a moment.
fn moment_behind(input: &Input<'_>, now: u64) -> u64
    ensures { (content : Content) → result ≡ moment_at (input_with content input.now) now }
{
    match input {
        Input::Moment(next) => *next,
        _ => now,
    }
}
