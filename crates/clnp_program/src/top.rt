//! The top call: words and input in, output and a status out.
ghost use Rattle.std.specs.Prelude.{◌≡◌, ◌≢◌, ◌≤◌, ℕ, false, List, [], length, map, IfOk, OnOk, Ok, Err, string_bytes};
ghost use Rattle.clnp_machine.specs.ClnpBase.Streams.{Rose};
ghost use Rattle.scenario.specs.Grammar.{plan_of};
ghost use Rattle.scenario.specs.ScenarioWriting.Canonical.{text_of};
ghost use Rattle.clnp_machine.specs.ScenarioPlan.Plan.{IsClosed, Plan};
ghost use Rattle.clnp_machine.specs.LiveModel.Safe.{LiveRunsAreSafe};
ghost use Rattle.clnp_machine.specs.Whereabouts.{NothingVanishes};
ghost use Rattle.scenario.specs.ScenarioWriting.Seeds as seeds;
ghost use Rattle.clnp_safety.specs.Runs.{RunsAreSafe};
ghost use Rattle.clnp_program.specs.Words.{command_of, reads, Reads};
ghost use Rattle.clnp_program.specs.Advised.{Advised};
ghost use Rattle.clnp_program.specs.declared.command.Command.TheVariants.{Whole};
ghost use Rattle.captures.specs.CaptureCommands.Serves.{ServesFile};
ghost use Rattle.captures.specs.CommandBase.Reading.{TakesTooMany, TakesWithin};
ghost use Rattle.clnp_program.specs.Live.{RunsAs};
ghost use Rattle.clnp_program.specs.LiveNode.Clocks.{clock_of};
ghost use Rattle.clnp_program.specs.Serves.{Serves, ServesCommand, form_of};
ghost use Rattle.clnp_program.specs.Tasks.{task};
ghost use Rattle.clnp_program.specs.Agree.{TextsAgree};
ghost use Rattle.clnp_program.specs.Traces.{TracesTell};
ghost use Rattle.captures.specs.CommandBase.ComesAs.{ComesAs, most_input};

use crate::advise::advice_on;
use crate::command::{Command, StreamedCommand, WholeCommand};
use crate::fair_commands::reassemble;
use crate::live_commands::advising::Advice;
use crate::live_commands::{Ports, run_system};
use crate::network_commands::base::{Clock, ReadStop, Sink, Source, read_all};
use crate::network_commands::migrate::migrate;
use crate::network_commands::safety::{runs_are_safe, texts_of_version_1_migrate};
use crate::network_commands::scenarios::laws;
use crate::network_commands::sim::sim;
use crate::network_commands::storm::storm;
use crate::network_commands::{Status, Telling};
use captures::capture_commands::check::check;
use captures::capture_commands::pack::pack;
use captures::capture_commands::show::show;
use captures::capture_commands::{pcap_lines, pcap_make, pcap_show};
use clnp_machine::laws::nothing_vanishes;
use clnp_machine::live_model::laws::live_runs_are_safe;
use std::alloc::Global;

/// The most octets of an input.
const MOST_INPUT: usize = 16_777_216;

/// Runs the command that the words name, on what the source gives, and writes to the sink.
///
/// `sim` reads a scenario text and writes its journal, `trace` its journal with what becomes of each
/// copy. Nothing is written before the whole text was accepted. `show` reads a capture and writes a line for each of its frames, up to the first
/// bad line. `check` reads vectors and writes the verdict on each, up to the first bad line, and at
/// the end how many passed and how many failed. `pack` reads shown lines and writes the frame that
/// each packs to, up to the first bad line. `pcap-show` and `pcap-lines` read an Ethernet capture and
/// write a line for each of its records while they read; `pcap-make` makes one of such lines.
/// `reassemble` reads captured frames and writes what comes of each. `migrate` reads a scenario text of
/// version 1 and writes it in version 2. `storm` reads nothing: it runs the scenario that its seed makes,
/// and writes one line of what the run's journal counts. `run` reads a scenario of one system and runs that over the ports of the
/// board, turn by turn, each at the moment that the clock gives; what it writes is the system's journal.
///
/// `advice` gets what the author of a refused scenario text, capture or text of vectors is told beside its first bad line; it is
/// emptied where there is nothing to tell.
pub fn clnp_main<S: Source, K: Sink, B: Ports, C: Clock>(
    alloc: Global,
    words: &[String],
    source: &mut S,
    sink: &mut K,
    board: &mut B,
    clock: &mut C,
    advice: &mut Advice,
) -> Status
    // The counts of faults never fall, nor does the clock go back.
    ensures later { (S.faults source.old ≤ S.faults source.new) × (K.faults sink.old ≤ K.faults sink.new) × (C.last clock.old ≤ C.last clock.new) }

    // What was taken from the source, what was written to the sink, and which status is answered.
    ensures serves { Serves (map string_bytes words.now) (S.left source.old) (S.left source.new) (K.written sink.old) (K.written sink.new)
        (source.new ≡ source.old) (sink.new ≡ sink.old)
        (Rose (S.faults source.old) (S.faults source.new)) (Rose (K.faults sink.old) (K.faults sink.new)) result }

    // What became of the board and the clock; and what the call comes to that runs a node.
    ensures runs { RunsAs (command_of (map string_bytes words.now)) (S.left source.old) (S.left source.new) (K.written sink.old) (K.written sink.new)
        (B.ports board.old) (B.ports board.new) (clock_of (C.moments clock.old) (C.last clock.old)) (clock_of (C.moments clock.new) (C.last clock.new))
        (sink.new ≡ sink.old) (board.new ≡ board.old) (clock.new ≡ clock.old)
        (Rose (S.faults source.old) (S.faults source.new)) (Rose (K.faults sink.old) (K.faults sink.new)) result }

    // What the author of the input is told beside the status, and when nothing is.
    ensures advised { Advised (command_of (map string_bytes words.now)) result advice.new }

    // What is said below of scenario texts is so of storms too: the scenario of each seed is that of a
    // text, and no frame comes from outside in it.
    ensures storms { (seed : ℕ) → (plan_of (text_of (seeds.storm seed)) ≡ Ok (seeds.storm seed)) × IsClosed (seeds.storm seed) }

    // The runs of each text that is a scenario are safe.
    ensures safe { (text : List ℕ) → IfOk (plan_of text) RunsAreSafe }

    // So is the run of one system, whatever its links give.
    ensures live { (plan : Plan) → LiveRunsAreSafe plan }

    // In no step of a system does a packet, a unit or what is kept vanish: each is sent, handed up or kept, or a note tells of it.
    ensures steps { NothingVanishes }

    // A trace is the journal, with what becomes of each copy, which is told exactly once.
    ensures traces { (plan : Plan) → TracesTell plan }

    // What commands make of one another's output, and what a share is worth.
    ensures agree { TextsAgree }
{
    every_run_is_safe();
    texts_agree();
    *advice = Advice::new();
    match Command::of(words) {
        Ok(Command::Whole(command)) => serve(alloc, command, source, sink, advice),
        Ok(Command::Streamed(command)) => serve_streamed(alloc, command, source, sink),
        Ok(Command::Run { turns }) => run_system(alloc, turns, source, board, clock, sink, advice),
        Err(at) => Status::BadWords { at },
    }
}

/// Runs a command that writes nothing before it has read its whole input, if it reads one.
fn serve<S: Source, K: Sink>(
    alloc: Global,
    command: WholeCommand,
    source: &mut S,
    sink: &mut K,
    advice: &mut Advice,
) -> Status
    requires { advice.old ≡ [] }
    ensures later { (S.faults source.old ≤ S.faults source.new) × (K.faults sink.old ≤ K.faults sink.new) }
    ensures serves { ServesCommand command (S.left source.old) (S.left source.new) (K.written sink.old) (K.written sink.new)
        (source.new ≡ source.old) (sink.new ≡ sink.old)
        (Rose (S.faults source.old) (S.faults source.new)) (Rose (K.faults sink.old) (K.faults sink.new)) result }
    ensures advised { Advised (Ok (Whole command)) result advice.new }
{
    let mut text = Vec::new(alloc);
    match read_input(alloc, command, source, &mut text) {
        Ok(()) => obey_and_advise(alloc, command, text.as_slice(), sink, advice),
        Err(ReadStop::Failed) => Status::ReadFault,
        Err(ReadStop::TooLong) => Status::TooLong,
        Err(ReadStop::NoMemory) => Status::NoMemory,
    }
}

/// Runs a command that works while it reads.
fn serve_streamed<S: Source, K: Sink>(
    alloc: Global,
    command: StreamedCommand,
    source: &mut S,
    sink: &mut K,
) -> Status
    ensures later { (S.faults source.old ≤ S.faults source.new) × (K.faults sink.old ≤ K.faults sink.new) }
    ensures serves { ServesFile (form_of command) (S.left source.old) (S.left source.new) (K.written sink.old) (K.written sink.new)
        (Rose (S.faults source.old) (S.faults source.new)) (Rose (K.faults sink.old) (K.faults sink.new)) result }
{
    match command {
        StreamedCommand::PcapShow => pcap_show(alloc, source, sink),
        StreamedCommand::PcapLines => pcap_lines(alloc, source, sink),
    }
}

/// What is so of the runs of each text that is a scenario, those of storms among them, of those of one system over links, and of traces.
pub(crate) fn every_run_is_safe()
    ensures storms { (seed : ℕ) → (plan_of (text_of (seeds.storm seed)) ≡ Ok (seeds.storm seed)) × IsClosed (seeds.storm seed) }
    ensures safe { (text : List ℕ) → IfOk (plan_of text) RunsAreSafe }
    ensures live { (plan : Plan) → LiveRunsAreSafe plan }
    ensures steps { NothingVanishes }
    ensures traces { (plan : Plan) → TracesTell plan }
{
    nothing_vanishes();
    live_runs_are_safe();
    laws::accepted_is_fit();
    laws::storms_are_scenarios();
    runs_are_safe();
    clnp_machine::clnp_network::laws::the_trace_without_its_own_lines_is_the_journal();
    crate::clnp_world::laws::what_becomes_of_a_copy_is_told_once();
    crate::clnp_world::laws::a_giving_is_told_before_what_it_causes();
}

/// What commands make of one another's output, and what a share is worth.
pub(crate) fn texts_agree()
    ensures { TextsAgree }
{
    captures::capture_commands::laws::what_is_shown_is_packed_again();
    captures::capture_commands::laws::what_is_packed_is_shown_again();
    captures::capture_commands::laws::one_packing();
    captures::capture_commands::pcap_laws::lines_make_the_frames_again();
    captures::capture_commands::pcap_laws::a_made_file_gives_its_lines_again();
    crate::fair_commands::shares_are_fair();
    texts_of_version_1_migrate();
}

/// Reads the input of a command that reads one.
fn read_input<S: Source>(
    alloc: Global,
    command: WholeCommand,
    source: &mut S,
    text: &mut Vec<u8>,
) -> Result<(), ReadStop>
    requires { text.old.items ≡ [] }
    ensures later { S.faults source.old ≤ S.faults source.new }
    ensures reads { OnOk result (Reads command (S.left source.old) (S.left source.new) text.new.items) }
    ensures within { OnOk result (length text.new.items ≤ most_input) }
    ensures too_long { result ≡ Err ReadStop.TooLong → TakesTooMany (S.left source.old) (S.left source.new) }
    ensures taken { result ≢ Err ReadStop.TooLong → TakesWithin (S.left source.old) (S.left source.new) }
    ensures failed { result ≡ Err ReadStop.Failed → Rose (S.faults source.old) (S.faults source.new) }
    ensures untouched { reads command ≡ false → (source.new ≡ source.old) × (result ≡ Ok tt) }
{
    if !command.reads() {
        return Ok(());
    }
    read_all(alloc, source, MOST_INPUT, text)
}

/// Runs a command on the text of its input, and tells its author more of one that is refused.
fn obey_and_advise<K: Sink>(
    alloc: Global,
    command: WholeCommand,
    text: &[u8],
    sink: &mut K,
    advice: &mut Advice,
) -> Status
    requires { length text.now ≤ most_input }
    ensures later { K.faults sink.old ≤ K.faults sink.new }
    ensures comes_to { ComesAs (task command text.now) (K.written sink.old) (K.written sink.new) result }
    ensures failed { result ≡ Status.WriteFault → Rose (K.faults sink.old) (K.faults sink.new) }
    ensures advised { Advised (Ok (Whole command)) result advice.new }
{
    let status = obey(alloc, command, text, sink);
    *advice = advice_on(command, text, status);
    status
}

/// Runs a command on the text of its input.
fn obey<K: Sink>(alloc: Global, command: WholeCommand, text: &[u8], sink: &mut K) -> Status
    requires { length text.now ≤ most_input }
    ensures later { K.faults sink.old ≤ K.faults sink.new }
    ensures comes_to { ComesAs (task command text.now) (K.written sink.old) (K.written sink.new) result }
    ensures failed { result ≡ Status.WriteFault → Rose (K.faults sink.old) (K.faults sink.new) }
{
    match command {
        WholeCommand::Sim => sim(alloc, Telling::Journal, text, sink),
        WholeCommand::Trace => sim(alloc, Telling::Trace, text, sink),
        WholeCommand::Show => show(alloc, text, sink),
        WholeCommand::Check => check(alloc, text, sink),
        WholeCommand::Pack => pack(alloc, text, sink),
        WholeCommand::PcapMake => pcap_make(alloc, text, sink),
        WholeCommand::Reassemble => reassemble(alloc, text, sink),
        WholeCommand::Migrate => migrate(alloc, text, sink),
        WholeCommand::Storm { seed } => storm(alloc, seed, sink),
    }
}
