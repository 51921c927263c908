//! The command `run`: the system of a scenario on a board of links, for so many turns.
ghost use Rattle.std.specs.Prelude.{◌≡◌, ◌≤◌, length, Err};
ghost use Rattle.clnp_base.specs.Streams.{Rose};
ghost use Rattle.clnp_base.specs.CommandBase.ComesAs.{most_input};
ghost use Rattle.clnp_program.specs.LiveCommands.Advised.{IsAdvised};
ghost use Rattle.clnp_program.specs.LiveCommands.Serves.{RunEndsAs, ServesRun, TextComesTo};
ghost use Rattle.clnp_program.specs.LiveNode.Clocks.{clock_of};
ghost use Rattle.clnp_program.specs.LiveNode.Ran.{RanOf};
ghost use Rattle.scenario.specs.ScenarioPlan.Plan.{IsForBoard};

use crate::live_node::boards::Ports;
use crate::live_node::{RunStop, run_node};
use clnp_base::command_base::Status;
use clnp_base::command_base::base::{Clock, ReadStop, Sink, Source, read_all};
use scenario::{Scenario, ScenarioRefusal, read_for_run};
use scenario_advice::{Advice, of_scenario_for_run};
use std::alloc::Global;

/// The most octets of an input.
const MOST_INPUT: usize = 16_777_216;

/// Reads a scenario of one system, which has a port for each link of the board, and runs that system over them for so
/// many turns: what it writes is the system's journal. Nothing is written, no link is called and the clock isn't read
/// before the whole text was accepted.
///
/// `advice` gets what the author of a refused text is told beside its first bad line, and else stays as it is.
pub fn run_system<S: Source, K: Sink, C: Clock, B: Ports>(
    alloc: Global,
    turns: u32,
    source: &mut S,
    board: &mut B,
    clock: &mut C,
    sink: &mut K,
    advice: &mut Advice,
) -> Status
    ensures later { (S.faults source.old ≤ S.faults source.new) × (K.faults sink.old ≤ K.faults sink.new)
        × (C.last clock.old ≤ C.last clock.new) }
    ensures serves { ServesRun turns (S.left source.old) (S.left source.new) (K.written sink.old) (K.written sink.new)
        (B.ports board.old) (B.ports board.new) (clock_of (C.moments clock.old) (C.last clock.old)) (clock_of (C.moments clock.new) (C.last clock.new))
        ((sink.new ≡ sink.old) × ((board.new ≡ board.old) × (clock.new ≡ clock.old)))
        (Rose (S.faults source.old) (S.faults source.new)) (Rose (K.faults sink.old) (K.faults sink.new)) result }
    ensures advised { IsAdvised result advice.old advice.new }
{
    let mut text = Vec::new(alloc);
    match read_all(alloc, source, MOST_INPUT, &mut text) {
        Ok(()) => run_text(alloc, turns, text.as_slice(), board, clock, sink, advice),
        Err(ReadStop::Failed) => Status::ReadFault,
        Err(ReadStop::TooLong) => Status::TooLong,
        Err(ReadStop::NoMemory) => Status::NoMemory,
    }
}

/// Runs the system of the scenario that a text is.
fn run_text<K: Sink, C: Clock, B: Ports>(
    alloc: Global,
    turns: u32,
    text: &[u8],
    board: &mut B,
    clock: &mut C,
    sink: &mut K,
    advice: &mut Advice,
) -> Status
    requires { length text.now ≤ most_input }
    ensures later { (K.faults sink.old ≤ K.faults sink.new) × (C.last clock.old ≤ C.last clock.new) }
    ensures comes_to { TextComesTo result text.now turns (K.written sink.old) (K.written sink.new)
        (B.ports board.old) (B.ports board.new) (clock_of (C.moments clock.old) (C.last clock.old)) (clock_of (C.moments clock.new) (C.last clock.new))
        ((sink.new ≡ sink.old) × ((board.new ≡ board.old) × (clock.new ≡ clock.old))) }
    ensures failed { result ≡ Status.WriteFault → Rose (K.faults sink.old) (K.faults sink.new) }
    ensures advised { IsAdvised result advice.old advice.new }
{
    let links = board.count();
    match read_for_run(alloc, text, links) {
        Ok(scenario) => run_scenario(alloc, turns, &scenario, board, clock, sink),
        Err(ScenarioRefusal::BadLine { line, code }) => {
            *advice = of_scenario_for_run(text, links, line, code);
            Status::BadInput { line, code }
        }
        Err(ScenarioRefusal::NoMemory) => Status::NoMemory,
    }
}

/// Runs the system of a scenario.
fn run_scenario<K: Sink, C: Clock, B: Ports>(
    alloc: Global,
    turns: u32,
    scenario: &Scenario,
    board: &mut B,
    clock: &mut C,
    sink: &mut K,
) -> Status
    requires { IsForBoard (length (B.ports board.old)) scenario.now }
    ensures later { (K.faults sink.old ≤ K.faults sink.new) × (C.last clock.old ≤ C.last clock.new) }
    ensures ran { RunEndsAs result (RanOf scenario.now turns (clock_of (C.moments clock.old) (C.last clock.old)) (clock_of (C.moments clock.new) (C.last clock.new))
        (B.ports board.old) (B.ports board.new)
        (K.written sink.old) (K.written sink.new)) }
    ensures failed { result ≡ Status.WriteFault → Rose (K.faults sink.old) (K.faults sink.new) }
{
    match run_node(alloc, scenario, turns, board, clock, sink) {
        Ok(()) => Status::Done,
        Err(RunStop::WriteFault) => Status::WriteFault,
        Err(RunStop::LinksGone { links }) => Status::LinksGone { links },
        Err(RunStop::NoMemory) => Status::NoMemory,
    }
}
