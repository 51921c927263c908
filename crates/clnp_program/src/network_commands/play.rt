//! Playing a scenario: its moves are made one after another, whatever becomes of their lines.
ghost use Rattle.std.specs.Prelude.{◌≡◌, ◌≤◌, ◌++◌, List, Option, [], ◌∷◌, ℕ, replicate, Err, OnOk};
ghost use Rattle.clnp_machine.specs.ClnpBase.Streams.{Rose};
ghost use Rattle.clnp_machine.specs.ScenarioPlan.Plan.{moves_of};
ghost use Rattle.clnp_machine.specs.ClnpNetwork.LabelledNetwork as network;
ghost use Rattle.clnp_machine.specs.ClnpNetwork.Run.{moves_of_plan, world_after};
ghost use Rattle.clnp_program.specs.ClnpWorld.Stands.{Stands};
ghost use Rattle.clnp_program.specs.NetworkCommands.Play.{status_of};
ghost use Rattle.clnp_program.specs.NetworkCommands.Playing.{IsUnderWay, Kind, PlayAs, Played};
ghost use Rattle.clnp_program.specs.NetworkCommands.Time.{HasTime};

use crate::clnp_world::World;
use crate::clnp_world::scenarios::{Event, Move, Scenario};
use clnp_base::command_base::Status;
use clnp_base::command_base::base::Sink;
use std::alloc::Global;

/// Why no further move is played.
#[derive(Clone, Copy)]
pub(crate) enum Stop {
    /// The copies weigh too much: so many octets.
    WorldFull { octets: u64 },
    WriteFault,
    NoMemory,
}

impl Stop {
    /// The status of a run that it ends.
    pub(crate) fn status(self) -> Status
        ensures { result ≡ status_of self }
    {
        match self {
            Stop::WorldFull { octets } => Status::WorldFull { octets },
            Stop::WriteFault => Status::WriteFault,
            Stop::NoMemory => Status::NoMemory,
        }
    }
}

/// What is made of the lines of moves.
pub(crate) trait Player {
    // What there is of the lines so far, beside what was written.
    ghost played: { Self → Played };

    /// Makes one move, and deals with its lines; those that are written go to the sink.
    fn play_move<K: Sink>(
        &mut self,
        alloc: Global,
        scenario: &Scenario,
        mv: &Move,
        world: &mut World,
        sink: &mut K,
    ) -> Result<(), Stop>
        requires { HasTime world.old (mv.now ∷ []) }
        ensures later { K.faults sink.old ≤ K.faults sink.new }
        ensures stands { OnOk result ((model : network.LabelledNetwork) → Stands world.old model
            → Stands world.new (world_after scenario.now model (mv.now ∷ []))) }
        ensures comes_to { (kind : Kind) (model : network.LabelledNetwork) (past : List Move) (before : Option (List ℕ))
            → IsUnderWay kind scenario.now model past world.old before (K.written sink.old) (played self.old)
            → PlayAs kind scenario.now model (past ++ (mv.now ∷ [])) world.new before (K.written sink.new) (played self.new) result }
        ensures failed { result ≡ Err Stop.WriteFault → Rose (K.faults sink.old) (K.faults sink.new) };
}

/// Plays the moves of all events.
pub(crate) fn play_events<P: Player, K: Sink>(
    alloc: Global,
    scenario: &Scenario,
    world: &mut World,
    player: &mut P,
    sink: &mut K,
) -> Result<(), Stop>
    requires { HasTime world.old (moves_of_plan scenario.now) }
    ensures later { K.faults sink.old ≤ K.faults sink.new }
    ensures comes_to { (kind : Kind) (model : network.LabelledNetwork) (past : List Move) (before : Option (List ℕ))
        → IsUnderWay kind scenario.now model past world.old before (K.written sink.old) (P.played player.old)
        → PlayAs kind scenario.now model (past ++ moves_of_plan scenario.now) world.new before (K.written sink.new) (P.played player.new) result }
    ensures failed { result ≡ Err Stop.WriteFault → Rose (K.faults sink.old) (K.faults sink.new) }
{
    for (place, event) in scenario.events().iter().enumerate() {
        play_event(alloc, scenario, place, event, world, player, sink)?;
    }
    Ok(())
}

/// Plays the moves of the event at a place.
fn play_event<P: Player, K: Sink>(
    alloc: Global,
    scenario: &Scenario,
    place: usize,
    event: &Event,
    world: &mut World,
    player: &mut P,
    sink: &mut K,
) -> Result<(), Stop>
    requires { HasTime world.old (moves_of place event.now) }
    ensures later { K.faults sink.old ≤ K.faults sink.new }
    ensures stands { OnOk result ((model : network.LabelledNetwork) → Stands world.old model
        → Stands world.new (world_after scenario.now model (moves_of place event.now))) }
    ensures comes_to { (kind : Kind) (model : network.LabelledNetwork) (past : List Move) (before : Option (List ℕ))
        → IsUnderWay kind scenario.now model past world.old before (K.written sink.old) (P.played player.old)
        → PlayAs kind scenario.now model (past ++ moves_of place event.now) world.new before (K.written sink.new) (P.played player.new) result }
    ensures failed { result ≡ Err Stop.WriteFault → Rose (K.faults sink.old) (K.faults sink.new) }
{
    let (mv, times) = event.moves(place);
    play_times(alloc, scenario, &mv, times, world, player, sink)
}

/// Plays one move so many times.
fn play_times<P: Player, K: Sink>(
    alloc: Global,
    scenario: &Scenario,
    mv: &Move,
    count: u32,
    world: &mut World,
    player: &mut P,
    sink: &mut K,
) -> Result<(), Stop>
    requires { HasTime world.old (replicate count mv.now) }
    ensures later { K.faults sink.old ≤ K.faults sink.new }
    ensures stands { OnOk result ((model : network.LabelledNetwork) → Stands world.old model
        → Stands world.new (world_after scenario.now model (replicate count mv.now))) }
    ensures comes_to { (kind : Kind) (model : network.LabelledNetwork) (past : List Move) (before : Option (List ℕ))
        → IsUnderWay kind scenario.now model past world.old before (K.written sink.old) (P.played player.old)
        → PlayAs kind scenario.now model (past ++ replicate count mv.now) world.new before (K.written sink.new) (P.played player.new) result }
    ensures failed { result ≡ Err Stop.WriteFault → Rose (K.faults sink.old) (K.faults sink.new) }
{
    for _made in 0..count {
        let settled = world.is_settled();
        player.play_move(alloc, scenario, mv, world, sink)?;
        // To settle a copy where none is left changes nothing, however often.
        if settled && matches!(mv, Move::SettleOne) {
            return Ok(());
        }
    }
    Ok(())
}
