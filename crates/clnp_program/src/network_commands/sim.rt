//! The commands `sim` and `trace`: the journal of a scenario, or its trace, written in blocks of whole moves.
ghost use Rattle.std.specs.Prelude.{◌≡◌, ◌≤◌, ◌++◌, List, Option, [], ◌∷◌, ℕ, length, Err, OnOk};
ghost use Rattle.clnp_machine.specs.ClnpBase.Streams.{Rose};
ghost use Rattle.clnp_machine.specs.ClnpBase.Text.{lines_of};
ghost use Rattle.clnp_machine.specs.ScenarioPlan.Plan.{IsFit};
ghost use Rattle.clnp_machine.specs.ClnpNetwork.LabelledNetwork as network;
ghost use Rattle.clnp_machine.specs.ClnpNetwork.Run.{world_after, world_end};
ghost use Rattle.clnp_program.specs.ClnpWorld.Stands.{Stands};
ghost use Rattle.clnp_base.specs.CommandBase.ComesAs.{ComesAs, most_input};
ghost use Rattle.clnp_program.specs.NetworkCommands.RunTasks.{run_task};
ghost use Rattle.clnp_program.specs.NetworkCommands.Play.{FullOf, RunOf, PieceOf, PlayOf, UnderWay};
ghost use Rattle.clnp_program.specs.NetworkCommands.Playing.{Waits};
ghost use Rattle.clnp_program.specs.NetworkCommands.Time.{HasTime};

use crate::clnp_world::scenarios::{Move, Scenario};
use crate::clnp_world::{World, WorldRefusal};
use crate::network_commands::play::{Player, Stop, play_events};
use clnp_base::command_base::base::{Failed, Sink};
use clnp_base::command_base::{Status, flush, flush_full};
use clnp_machine::system_plan::Telling;
use scenario::scenario_writing::scenarios::{ScenarioRefusal, read};
use std::alloc::Global;
use std::mem;

/// Writes the journal, or the trace, of the scenario that a text is. The memory of the scenario and of its network stays taken
/// until the process ends.
pub fn sim<K: Sink>(alloc: Global, telling: Telling, text: &[u8], sink: &mut K) -> Status
    requires { length text.now ≤ most_input }
    ensures later { K.faults sink.old ≤ K.faults sink.new }
    ensures comes_to { ComesAs (run_task telling text.now) (K.written sink.old) (K.written sink.new) result }
    ensures failed { result ≡ Status.WriteFault → Rose (K.faults sink.old) (K.faults sink.new) }
{
    few_lines();
    scenario::scenario_writing::laws::accepted_is_fit();
    match read(alloc, text) {
        Ok(scenario) => match play(alloc, scenario, telling, sink) {
            Ok(()) => Status::Done,
            Err(stop) => stop.status(),
        },
        Err(ScenarioRefusal::BadLine { line, code }) => Status::BadInput { line, code },
        Err(ScenarioRefusal::NoMemory) => Status::NoMemory,
    }
}

/// A text has no more lines than octets.
pub(crate) fn few_lines()
    ensures { (text : List ℕ) → length (lines_of text) ≤ length text }
{}

/// Plays a scenario: makes its moves and writes their lines, and then the last line.
fn play<K: Sink>(
    alloc: Global,
    scenario: Scenario,
    telling: Telling,
    sink: &mut K,
) -> Result<(), Stop>
    requires { IsFit scenario }
    ensures later { K.faults sink.old ≤ K.faults sink.new }
    ensures comes_to { RunOf telling scenario (K.written sink.old) (K.written sink.new) result }
    ensures failed { result ≡ Err Stop.WriteFault → Rose (K.faults sink.old) (K.faults sink.new) }
{
    match World::new(alloc, &scenario) {
        Ok(mut world) => {
            let played = play_in(alloc, &scenario, telling, &mut world, sink);
            // The process ends behind a run, and gives the memory of both back at once.
            mem::forget(world);
            mem::forget(scenario);
            played
        }
        Err(_) => Err(Stop::NoMemory),
    }
}

/// The same, in the scenario's network at its start.
fn play_in<K: Sink>(
    alloc: Global,
    scenario: &Scenario,
    telling: Telling,
    world: &mut World,
    sink: &mut K,
) -> Result<(), Stop>
    requires fit { IsFit scenario.now }
    requires start { Stands world.old (network.first_world scenario.now) }
    ensures later { K.faults sink.old ≤ K.faults sink.new }
    ensures comes_to { RunOf telling scenario.now (K.written sink.old) (K.written sink.new) result }
    ensures failed { result ≡ Err Stop.WriteFault → Rose (K.faults sink.old) (K.faults sink.new) }
{
    let block = Vec::new(alloc);
    let mut blocks = Blocks { telling, block };
    play_events(alloc, scenario, world, &mut blocks, sink)?;
    write_end(alloc, world, &mut blocks.block, sink)
}

/// The text of the lines of moves, which is written in blocks.
#[derive(Drop)]
struct Blocks {
    telling: Telling,
    /// What waits to be written.
    block: Vec<u8>,
}

impl Player for Blocks {
    ghost played = { λ blocks. Waits blocks.telling blocks.block.items };

    fn play_move<K: Sink>(
        &mut self,
        alloc: Global,
        scenario: &Scenario,
        mv: &Move,
        world: &mut World,
        sink: &mut K,
    ) -> Result<(), Stop> {
        write_move(
            alloc,
            scenario,
            self.telling,
            mv,
            world,
            &mut self.block,
            sink,
        )
    }
}

/// Makes one move, puts its lines into the block, and writes it where it is full.
fn write_move<K: Sink>(
    alloc: Global,
    scenario: &Scenario,
    telling: Telling,
    mv: &Move,
    world: &mut World,
    block: &mut Vec<u8>,
    sink: &mut K,
) -> Result<(), Stop>
    requires { HasTime world.old (mv.now ∷ []) }
    ensures later { K.faults sink.old ≤ K.faults sink.new }
    ensures stands { OnOk result ((model : network.LabelledNetwork) → Stands world.old model
        → Stands world.new (world_after scenario.now model (mv.now ∷ []))) }
    ensures comes_to { (model : network.LabelledNetwork) (past : List Move) (before : Option (List ℕ))
        → UnderWay telling scenario.now model past world.old before (K.written sink.old) block.old.items
        → PlayOf telling scenario.now model (past ++ (mv.now ∷ [])) world.new before (K.written sink.new) block.new.items result }
    ensures failed { result ≡ Err Stop.WriteFault → Rose (K.faults sink.old) (K.faults sink.new) }
{
    match world.step(alloc, scenario, mv, telling, block) {
        Ok(()) => match flush_full(block, sink) {
            Ok(()) => Ok(()),
            Err(Failed) => Err(Stop::WriteFault),
        },
        Err(WorldRefusal::WorldFull { octets }) => Err(stop_full(octets, block, sink)),
        Err(WorldRefusal::NoMemory) => Err(Stop::NoMemory),
    }
}

/// Writes the block before a move that isn't made since the network is full.
fn stop_full<K: Sink>(octets: u64, block: &mut Vec<u8>, sink: &mut K) -> Stop
    ensures later { K.faults sink.old ≤ K.faults sink.new }
    ensures written { FullOf octets block.old.items (K.written sink.old) (K.written sink.new) result }
    ensures failed { result ≡ Stop.WriteFault → Rose (K.faults sink.old) (K.faults sink.new) }
{
    match flush(block, sink) {
        Ok(()) => Stop::WorldFull { octets },
        Err(Failed) => Stop::WriteFault,
    }
}

/// Writes the block and the last line.
fn write_end<K: Sink>(
    alloc: Global,
    world: &World,
    block: &mut Vec<u8>,
    sink: &mut K,
) -> Result<(), Stop>
    ensures later { K.faults sink.old ≤ K.faults sink.new }
    ensures comes_to { (model : network.LabelledNetwork) → Stands world.now model
        → PieceOf (block.old.items ++ world_end model) (K.written sink.old) (K.written sink.new) result }
    ensures failed { result ≡ Err Stop.WriteFault → Rose (K.faults sink.old) (K.faults sink.new) }
{
    if world.finish(alloc, block).is_err() {
        return Err(Stop::NoMemory);
    }
    match flush(block, sink) {
        Ok(()) => Ok(()),
        Err(Failed) => Err(Stop::WriteFault),
    }
}
