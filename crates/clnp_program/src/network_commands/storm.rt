//! The command `storm`: what a run of the scenario of a seed counts.
ghost use Rattle.std.specs.Prelude.{◌≡◌, ◌≤◌, ◌++◌, OnOk, Err};
ghost use Rattle.clnp_machine.specs.ClnpBase.Streams.{Rose};
ghost use Rattle.clnp_machine.specs.ScenarioPlan.Plan.{IsFit};
ghost use Rattle.scenario.specs.ScenarioWriting.Seeds as seeds;
ghost use Rattle.clnp_machine.specs.ClnpNetwork.LabelledNetwork as network;
ghost use Rattle.clnp_program.specs.ClnpWorld.Stands.{Stands};
ghost use Rattle.clnp_base.specs.CommandBase.ByLine.{EndOf};
ghost use Rattle.clnp_base.specs.CommandBase.ComesAs.{ComesAs};
ghost use Rattle.clnp_program.specs.NetworkCommands.RunTasks.{storm_task};
ghost use Rattle.clnp_program.specs.NetworkCommands.Storm.{counts_text, summary_text};
ghost use Rattle.clnp_program.specs.NetworkCommands.Counting.{SumOf};
ghost use Rattle.clnp_program.specs.NetworkCommands.Playing.{Tallies};

use crate::clnp_world::scenarios::{Move, Scenario};
use crate::clnp_world::{Counts, World, WorldRefusal};
use crate::network_commands::play::{Player, Stop, play_events};
use clnp_base::command_base::base::{NoMemory, Sink, push, write_all};
use clnp_base::command_base::{Status, push_number};
use scenario::scenario_writing::from_seed;
use std::alloc::Global;
use std::mem;

/// What a run of the scenario of a seed comes to.
#[derive(Clone, Copy)]
pub(crate) struct Summary {
    pub(crate) seed: u64,
    pub(crate) events: u64,
    pub(crate) copies: u64,
    pub(crate) counts: Counts,
    pub(crate) clock: u64,
}

impl Summary {
    /// Appends the line of it.
    fn push(self, out: &mut Vec<u8>) -> Result<(), NoMemory>
        ensures { OnOk result (out.new.items ≡ out.old.items ++ summary_text self) }
    {
        push_number(b"storm ", self.seed, out)?;
        push_number(b" events ", self.events, out)?;
        push_number(b" copies ", self.copies, out)?;
        push_counts(&self.counts, out)?;
        push_number(b" end ", self.clock, out)?;
        push(b"\n", out)
    }
}

/// Appends what is counted.
fn push_counts(counts: &Counts, out: &mut Vec<u8>) -> Result<(), NoMemory>
    ensures { OnOk result (out.new.items ≡ out.old.items ++ counts_text counts.now) }
{
    push_number(b" got ", counts.got, out)?;
    push_number(b" reports ", counts.reports, out)?;
    push_number(b" echoed ", counts.echoed, out)?;
    push_number(b" drops ", counts.drops, out)?;
    push_number(b" expired ", counts.expired, out)
}

/// Runs the scenario of a seed, and writes a line of what it comes to. The memory of its network stays taken until the process
/// ends.
pub fn storm<K: Sink>(alloc: Global, seed: u64, sink: &mut K) -> Status
    ensures later { K.faults sink.old ≤ K.faults sink.new }
    ensures comes_to { ComesAs (storm_task seed) (K.written sink.old) (K.written sink.new) result }
    ensures failed { result ≡ Status.WriteFault → Rose (K.faults sink.old) (K.faults sink.new) }
{
    match run_seed(alloc, seed, sink) {
        Ok(summary) => write_line(alloc, summary, sink),
        Err(stop) => stop.status(),
    }
}

/// Runs the scenario of a seed, and sums up what it comes to. Nothing is written.
fn run_seed<K: Sink>(alloc: Global, seed: u64, sink: &mut K) -> Result<Summary, Stop>
    ensures later { K.faults sink.old ≤ K.faults sink.new }
    ensures sums { SumOf seed (seeds.storm seed) result }
    ensures same { K.written sink.new ≡ K.written sink.old }
    ensures failed { result ≡ Err Stop.WriteFault → Rose (K.faults sink.old) (K.faults sink.new) }
{
    match from_seed(alloc, seed) {
        Ok(scenario) => sum_up(alloc, seed, &scenario, sink),
        Err(_) => Err(Stop::NoMemory),
    }
}

/// Writes the line of a run.
fn write_line<K: Sink>(alloc: Global, summary: Summary, sink: &mut K) -> Status
    ensures later { K.faults sink.old ≤ K.faults sink.new }
    ensures written { EndOf (summary_text summary) (K.written sink.old) (K.written sink.new) result }
    ensures failed { result ≡ Status.WriteFault → Rose (K.faults sink.old) (K.faults sink.new) }
{
    let mut line = Vec::new(alloc);
    if summary.push(&mut line).is_err() {
        return Status::NoMemory;
    }
    match write_all(sink, line.as_slice()) {
        Ok(()) => Status::Done,
        Err(_) => Status::WriteFault,
    }
}

/// Runs a scenario that a seed made, and sums up what it comes to. Nothing is written.
fn sum_up<K: Sink>(
    alloc: Global,
    seed: u64,
    scenario: &Scenario,
    sink: &mut K,
) -> Result<Summary, Stop>
    ensures later { K.faults sink.old ≤ K.faults sink.new }
    ensures sums { SumOf seed scenario.now result }
    ensures same { K.written sink.new ≡ K.written sink.old }
    ensures failed { result ≡ Err Stop.WriteFault → Rose (K.faults sink.old) (K.faults sink.new) }
{
    // Its clause: the ticks of a scenario are few, so that a clock has room for them.
    scenario.is_fit();
    match World::new(alloc, scenario) {
        Ok(mut world) => {
            let summed = sum_up_in(alloc, seed, scenario, &mut world, sink);
            // The process ends behind a storm, and gives the network's memory back at once: to take it apart, frame by frame,
            // takes a tenth of a storm's time.
            mem::forget(world);
            summed
        }
        Err(_) => Err(Stop::NoMemory),
    }
}

/// The same, in the scenario's network at its start.
fn sum_up_in<K: Sink>(
    alloc: Global,
    seed: u64,
    scenario: &Scenario,
    world: &mut World,
    sink: &mut K,
) -> Result<Summary, Stop>
    requires fit { IsFit scenario.now }
    requires start { Stands world.old (network.first_world scenario.now) }
    ensures later { K.faults sink.old ≤ K.faults sink.new }
    ensures sums { SumOf seed scenario.now result }
    ensures same { K.written sink.new ≡ K.written sink.old }
    ensures failed { result ≡ Err Stop.WriteFault → Rose (K.faults sink.old) (K.faults sink.new) }
{
    let mut counts = Counts::none();
    play_events(alloc, scenario, world, &mut counts, sink)?;
    Ok(Summary {
        seed,
        events: scenario.events().len() as u64,
        copies: world.copies(),
        counts,
        clock: world.clock(),
    })
}

/// The lines of moves are counted by their kinds.
impl Player for Counts {
    ghost played = { λ counts. Tallies counts };

    fn play_move<K: Sink>(
        &mut self,
        alloc: Global,
        scenario: &Scenario,
        mv: &Move,
        world: &mut World,
        _sink: &mut K,
    ) -> Result<(), Stop> {
        match world.count_step(alloc, scenario, mv, self) {
            Ok(()) => Ok(()),
            Err(WorldRefusal::WorldFull { octets }) => Err(Stop::WorldFull { octets }),
            Err(WorldRefusal::NoMemory) => Err(Stop::NoMemory),
        }
    }
}
