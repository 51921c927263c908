//! A call of the program over its words, its input, its output and standard error.
ghost use Rattle.std.specs.Prelude.{◌≡◌, ◌≤◌, ◌⊎◌, ℕ, false, IfOk, List, [], Ok, map, string_bytes};
ghost use Rattle.clnp_machine.specs.LiveModel.Safe.{LiveRunsAreSafe};
ghost use Rattle.clnp_machine.specs.Whereabouts.{NothingVanishes};
ghost use Rattle.clnp_machine.specs.ScenarioPlan.Plan.{IsClosed, Plan};
ghost use Rattle.std.specs.Io.KnownBytes.{Appends};
ghost use Rattle.clnp_program.specs.Advised.{Advised, is_bad_input};
ghost use Rattle.clnp_program.specs.Agree.{TextsAgree};
ghost use Rattle.clnp_safety.specs.Runs.{RunsAreSafe};
ghost use Rattle.scenario.specs.Grammar.{plan_of};
ghost use Rattle.scenario.specs.ScenarioWriting.Canonical.{text_of};
ghost use Rattle.scenario.specs.ScenarioWriting.Seeds as seeds;
ghost use Rattle.clnp_machine.specs.ClnpBase.Streams.{Rose};
ghost use Rattle.clnp_program.specs.LiveNode.Clocks.{clock_of};
ghost use Rattle.clnp_program.specs.Traces.{TracesTell};
ghost use Rattle.clnp_program.specs.Words.{command_of};
ghost use Rattle.clnp_program.specs.declared.fault.Fault.{Fault};
ghost use Rattle.clnp_program.specs.Answers.{Answers, Ends, Informs, Runs, line_of_fault};

use crate::fault::{Fault, report, write_fault};
use crate::help::information;
use crate::live_commands::Ports;
use crate::live_commands::advising::Advice;
use crate::network_commands::Status;
use crate::network_commands::base::{Clock, Sink, Source, write_all};
use crate::top::{clnp_main, every_run_is_safe, texts_agree};
use std::alloc::Global;

/// The exit number where the local end of a link word can't be bound.
const NO_LINK: u8 = 9;

/// Answers the words on the source, the sink, the board of links and the clock, says on `errors` what went wrong, and
/// gives the exit number.
pub fn run<S: Source, K: Sink, B: Ports, C: Clock, E: Sink>(
    alloc: Global,
    words: &[String],
    source: &mut S,
    sink: &mut K,
    board: &mut B,
    clock: &mut C,
    errors: &mut E,
) -> u8
    // The counts of faults never fall, nor does the clock go back.
    ensures later { (S.faults source.old ≤ S.faults source.new)
        × ((K.faults sink.old ≤ K.faults sink.new) × ((E.faults errors.old ≤ E.faults errors.new)
        × (C.last clock.old ≤ C.last clock.new))) }

    // There is a status that the words, the source and the sink come to, and there is what is told beside it, and the
    // exit number and what is said are theirs.
    ensures answers { (status : Status) × (advice : List ℕ)
        × Advised (command_of (map string_bytes words.now)) status advice
        × Ends status advice result (E.written errors.old) (E.written errors.new)
        (Rose (E.faults errors.old) (E.faults errors.new))
        × Answers (map string_bytes words.now) (S.left source.old) (S.left source.new)
        (K.written sink.old) (K.written sink.new)
        (source.new ≡ source.old) (sink.new ≡ sink.old)
        (Rose (S.faults source.old) (S.faults source.new)) (Rose (K.faults sink.old) (K.faults sink.new)) status
        × Runs (map string_bytes words.now) (S.left source.old) (S.left source.new)
        (K.written sink.old) (K.written sink.new)
        (B.ports board.old) (B.ports board.new) (clock_of (C.moments clock.old) (C.last clock.old)) (clock_of (C.moments clock.new) (C.last clock.new))
        (sink.new ≡ sink.old) (board.new ≡ board.old) (clock.new ≡ clock.old)
        (Rose (S.faults source.old) (S.faults source.new)) (Rose (K.faults sink.old) (K.faults sink.new)) status }

    // What is said below of scenario texts is so of storms too: the scenario of each seed is that of a
    // text, and no frame comes from outside in it.
    ensures storms { (seed : ℕ) → (plan_of (text_of (seeds.storm seed)) ≡ Ok (seeds.storm seed)) × IsClosed (seeds.storm seed) }

    // The runs of each text that is a scenario are safe.
    ensures safe { (text : List ℕ) → IfOk (plan_of text) RunsAreSafe }

    // So is the run of one system, whatever its links give.
    ensures live { (plan : Plan) → LiveRunsAreSafe plan }

    // In no step of a system does a packet, a unit or what is kept vanish: each is sent, handed up or kept, or a note tells of it.
    ensures steps { NothingVanishes }

    // A trace is the journal, with what becomes of each copy, which is told exactly once.
    ensures traces { (plan : Plan) → TracesTell plan }

    // What commands make of one another's output, and what a share is worth.
    ensures agree { TextsAgree }
{
    every_run_is_safe();
    texts_agree();
    let mut advice = Advice::new();
    let status = answer(alloc, words, source, sink, board, clock, &mut advice);
    end_advised(status, &advice, errors)
}

/// Says what went wrong, if anything did, and gives the exit number.
///
/// Where standard error fails too, the exit number alone tells.
pub fn end<E: Sink>(status: Status, errors: &mut E) -> u8
    ensures later { E.faults errors.old ≤ E.faults errors.new }
    ensures ends { Ends status [] result (E.written errors.old) (E.written errors.new)
        (Rose (E.faults errors.old) (E.faults errors.new)) }
{
    end_advised(status, &Advice::new(), errors)
}

/// Says what went wrong, if anything did, and what is told beside it, and gives the exit number.
fn end_advised<E: Sink>(status: Status, advice: &Advice, errors: &mut E) -> u8
    ensures later { E.faults errors.old ≤ E.faults errors.new }
    ensures ends { Ends status advice.now result (E.written errors.old) (E.written errors.new)
        (Rose (E.faults errors.old) (E.faults errors.new)) }
{
    let _ = report(status, advice, errors);
    status.exit_number()
}

/// Says that the local end of the link word at a place can't be bound, and gives the exit number.
///
/// Where standard error fails too, the exit number alone tells.
pub fn end_without_link<E: Sink>(at: usize, errors: &mut E) -> u8
    ensures later { E.faults errors.old ≤ E.faults errors.new }
    ensures exits { result ≡ 9 }
    ensures told { Appends (E.written errors.old) (E.written errors.new) (line_of_fault (Fault.NoLink at))
        ⊎ Rose (E.faults errors.old) (E.faults errors.new) }
{
    let _ = write_fault(Fault::NoLink { at }, errors);
    NO_LINK
}

/// Answers the words: writes a text about the program, or does what the command says.
fn answer<S: Source, K: Sink, B: Ports, C: Clock>(
    alloc: Global,
    words: &[String],
    source: &mut S,
    sink: &mut K,
    board: &mut B,
    clock: &mut C,
    advice: &mut Advice,
) -> Status
    requires { advice.old ≡ [] }
    ensures later { (S.faults source.old ≤ S.faults source.new) × (K.faults sink.old ≤ K.faults sink.new)
        × (C.last clock.old ≤ C.last clock.new) }
    ensures runs { Runs (map string_bytes words.now) (S.left source.old) (S.left source.new)
        (K.written sink.old) (K.written sink.new)
        (B.ports board.old) (B.ports board.new) (clock_of (C.moments clock.old) (C.last clock.old)) (clock_of (C.moments clock.new) (C.last clock.new))
        (sink.new ≡ sink.old) (board.new ≡ board.old) (clock.new ≡ clock.old)
        (Rose (S.faults source.old) (S.faults source.new)) (Rose (K.faults sink.old) (K.faults sink.new)) result }
    ensures answers { Answers (map string_bytes words.now) (S.left source.old) (S.left source.new)
        (K.written sink.old) (K.written sink.new)
        (source.new ≡ source.old) (sink.new ≡ sink.old)
        (Rose (S.faults source.old) (S.faults source.new)) (Rose (K.faults sink.old) (K.faults sink.new)) result }
    ensures advised { Advised (command_of (map string_bytes words.now)) result advice.new }
{
    match information(words) {
        Some(text) => inform(text, sink),
        None => clnp_main(alloc, words, source, sink, board, clock, advice),
    }
}

/// Writes a text about the program.
fn inform<K: Sink>(text: &str, sink: &mut K) -> Status
    ensures later { K.faults sink.old ≤ K.faults sink.new }
    ensures informs { Informs text.now (K.written sink.old) (K.written sink.new)
        (Rose (K.faults sink.old) (K.faults sink.new)) result }
    ensures no_input { is_bad_input result ≡ false }
{
    match write_all(sink, text.as_bytes()) {
        Ok(()) => Status::Done,
        Err(_) => Status::WriteFault,
    }
}
