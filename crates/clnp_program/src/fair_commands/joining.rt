//! The command `reassemble`: the units of captured traffic, joined with a share of reassembly for each of some sources.
ghost use Rattle.std.specs.Prelude.{◌≡◌, ◌≤◌, ◌++◌, ◌∷◌, ℕ, List, Option, [], length};
ghost use Rattle.std.specs.List.{AllByRecursion};
ghost use Rattle.scenario.specs.ClnpBase.Streams.{Rose};
ghost use Rattle.clnp_program.specs.FairCommands.Claims.{IsAccepted, IsInRange};
ghost use Rattle.clnp_program.specs.FairCommands.Output.{end_line};
ghost use Rattle.system_tables.specs.declared.fair_reassembly.came.Came.{Came as CameOf};
ghost use Rattle.system_tables.specs.Reassembly.NoWhole.{HasNoWhole};
ghost use Rattle.system_tables.specs.FairReassembly.Behind.{StandBehind};
ghost use Rattle.system_tables.specs.FairReassembly.Classes.{Shares};
ghost use Rattle.system_tables.specs.FairReassembly.Tables.{At};
ghost use Rattle.clnp_base.specs.CommandBase.ComesAs.{ComesAs, most_input};
ghost use Rattle.clnp_program.specs.FairCommands.Reassemble.{reassemble_task};
ghost use Rattle.clnp_program.specs.FairCommands.Writing.{EndOf, JoinOf, TakenOf, UnderWay};

use crate::fair_commands::fair::laws::what_is_told_goes_on;
use crate::fair_commands::fair::{Came, FairTable};
use crate::fair_commands::frame::push_frame;
use crate::fair_commands::laws::an_accepted_text_is_in_range;
use crate::fair_commands::{Capture, CaptureRefusal, push_end, read};
use clnp_base::command_base::base::{Failed, Sink, lines};
use clnp_base::command_base::{Status, flush, flush_full};
use std::alloc::Global;

/// Writes the lines that tell what comes of each frame of captured traffic, in the order of the frames, and the last line.
/// Nothing is written before the whole text was accepted.
pub fn reassemble<K: Sink>(alloc: Global, text: &[u8], sink: &mut K) -> Status
    requires { length text.now ≤ most_input }
    ensures later { K.faults sink.old ≤ K.faults sink.new }
    ensures comes_to { ComesAs (reassemble_task text.now) (K.written sink.old) (K.written sink.new) result }
    ensures failed { result ≡ Status.WriteFault → Rose (K.faults sink.old) (K.faults sink.new) }
{
    // A text has no more lines than octets.
    let _lines = lines(text);
    // Its clause: frames and shares of an accepted text keep the limits.
    an_accepted_text_is_in_range();
    match read(alloc, text) {
        Ok(capture) => match join(alloc, &capture, sink) {
            Ok(()) => Status::Done,
            Err(Stop::WriteFault) => Status::WriteFault,
            Err(Stop::NoMemory) => Status::NoMemory,
        },
        Err(CaptureRefusal::BadLine { line, code }) => Status::BadInput { line, code },
        Err(CaptureRefusal::NoMemory) => Status::NoMemory,
    }
}

/// Why the writing of the lines stopped.
#[derive(Clone, Copy)]
enum Stop {
    WriteFault,
    NoMemory,
}

/// Takes in the frames of captured traffic, and writes their lines and the last line.
fn join<K: Sink>(alloc: Global, capture: &Capture, sink: &mut K) -> Result<(), Stop>
    requires { IsAccepted capture.now }
    ensures later { K.faults sink.old ≤ K.faults sink.new }
    ensures comes_to { JoinOf capture.now (K.written sink.old) (K.written sink.new) result }
    ensures failed { result ≡ Err Stop.WriteFault → Rose (K.faults sink.old) (K.faults sink.new) }
{
    match FairTable::new(alloc, capture.others, &capture.shares) {
        Ok(mut tables) => {
            let mut block = Vec::new(alloc);
            take_in(alloc, &capture.frames, &mut tables, &mut block, sink)?;
            write_end(capture.frames.len(), &mut block, sink)
        }
        Err(_) => Err(Stop::NoMemory),
    }
}

/// Takes in all frames, puts their lines into the block, and writes it where it is full.
fn take_in<K: Sink>(
    alloc: Global,
    frames: &[Came],
    tables: &mut FairTable,
    block: &mut Vec<u8>,
    sink: &mut K,
) -> Result<(), Stop>
    requires in_range { AllByRecursion IsInRange frames.now }
    requires new { (s : Shares) × StandBehind s [] tables.old }
    requires empty { block.old.items ≡ [] }
    ensures later { K.faults sink.old ≤ K.faults sink.new }
    ensures comes_to { (s : Shares) → StandBehind s [] tables.old
        → TakenOf s frames.now tables.new (K.written sink.old) (K.written sink.new) block.new.items result }
    ensures failed { result ≡ Err Stop.WriteFault → Rose (K.faults sink.old) (K.faults sink.new) }
{
    // Its clause: what is told of frames goes on behind what was told of those before them.
    what_is_told_goes_on();
    for came in frames {
        take_in_next(alloc, came, tables, block, sink)?;
    }
    Ok(())
}

/// Takes in one frame more, puts its lines into the block, and writes it where it is full.
fn take_in_next<K: Sink>(
    alloc: Global,
    came: &Came,
    tables: &mut FairTable,
    block: &mut Vec<u8>,
    sink: &mut K,
) -> Result<(), Stop>
    requires in_range { IsInRange came.now }
    requires ready { (place : ℕ) → At tables.old place HasNoWhole }
    ensures later { K.faults sink.old ≤ K.faults sink.new }
    ensures comes_to { (s : Shares) (frames : List CameOf) (before : Option (List ℕ))
        → UnderWay s frames tables.old before (K.written sink.old) block.old.items
        → TakenOf s (frames ++ came.now ∷ []) tables.new before (K.written sink.new) block.new.items result }
    ensures failed { result ≡ Err Stop.WriteFault → Rose (K.faults sink.old) (K.faults sink.new) }
{
    // Its clause: what is told of frames goes on behind what was told of those before them.
    what_is_told_goes_on();
    match push_frame(alloc, tables, came, block) {
        Ok(()) => match flush_full(block, sink) {
            Ok(()) => Ok(()),
            Err(Failed) => Err(Stop::WriteFault),
        },
        Err(_) => Err(Stop::NoMemory),
    }
}

/// Writes the block and the last line.
fn write_end<K: Sink>(frames: usize, block: &mut Vec<u8>, sink: &mut K) -> Result<(), Stop>
    ensures later { K.faults sink.old ≤ K.faults sink.new }
    ensures comes_to { EndOf (block.old.items ++ end_line frames) (K.written sink.old) (K.written sink.new) result }
    ensures failed { result ≡ Err Stop.WriteFault → Rose (K.faults sink.old) (K.faults sink.new) }
{
    match push_end(frames, block) {
        Ok(()) => match flush(block, sink) {
            Ok(()) => Ok(()),
            Err(Failed) => Err(Stop::WriteFault),
        },
        Err(_) => Err(Stop::NoMemory),
    }
}
