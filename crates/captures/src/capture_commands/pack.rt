//! The command `pack`: shown lines back to the frames of a capture.
ghost use Rattle.std.specs.Prelude.{◌≡◌, ◌≤◌, ◌+◌, ℕ, List, [], ◌∷◌, ◌++◌, length, Option, Err, IfOk};
ghost use Rattle.clnp_base.specs.Streams.{Rose};
ghost use Rattle.clnp_base.specs.Text.{lines_of};
ghost use Rattle.clnp_base.specs.CommandBase.ByLine.{PushOf, Midway, NextOf, task_of};
ghost use Rattle.clnp_base.specs.CommandBase.ComesAs.{ComesAs, most_input};
ghost use Rattle.captures.specs.CaptureCommands.Faults.{unpacked_fault};
ghost use Rattle.captures.specs.CaptureCommands.Pack.{packing};

use crate::capture_commands::fault::unpacked_fault;
use crate::capture_text::laws;
use crate::capture_text::many::pack_line;
use clnp_base::command_base::base::{DigitValues, Sink, next_line};
use clnp_base::command_base::{LineFault, LineStop, Status, refuse, write_block, write_full_block};
use std::alloc::Global;

/// Writes a line of a capture for each line of shown text, up to the first bad line.
pub fn pack<K: Sink>(alloc: Global, text: &[u8], sink: &mut K) -> Status
    requires { length text.now ≤ most_input }
    ensures later { K.faults sink.old ≤ K.faults sink.new }
    ensures comes_to { ComesAs (task_of packing 1 (lines_of text.now))
        (K.written sink.old) (K.written sink.new) result }
    ensures failed { result ≡ Status.WriteFault → Rose (K.faults sink.old) (K.faults sink.new) }
{
    // Its clause: something comes of each line behind a stop, too.
    laws::the_outcome_of_a_line();
    let values = DigitValues::new();
    let mut block = Vec::new(alloc);
    let mut number = 0u32;
    let mut left = text;
    while let Some((line, others)) = next_line(left) {
        number += 1;
        match pack_next(alloc, &values, line, &mut block, sink) {
            Ok(()) => left = others,
            Err(stop) => return stop.status(number),
        }
    }
    match write_block(&mut block, sink) {
        Ok(()) => Status::Done,
        Err(_) => Status::WriteFault,
    }
}

/// Puts the next line into the block, and writes the block where it is full or the line is bad.
fn pack_next<K: Sink>(
    alloc: Global,
    values: &DigitValues,
    line: &[u8],
    block: &mut Vec<u8>,
    sink: &mut K,
) -> Result<(), LineStop>
    ensures later { K.faults sink.old ≤ K.faults sink.new }
    ensures comes_to { (all left : List (List ℕ)) (number : ℕ) (before : Option (List ℕ))
        → Midway packing 1 number all (line.now ∷ left) before (K.written sink.old) block.old.items
        → NextOf packing 1 (λ done. number + 1) all left number before (K.written sink.new) block.new.items result }
    ensures failed { result ≡ Err LineStop.WriteFault → Rose (K.faults sink.old) (K.faults sink.new) }
{
    match push_line(alloc, values, line, block) {
        Ok(()) => write_full_block(block, sink),
        Err(fault) => Err(refuse(fault, block, sink)),
    }
}

/// Puts the digits of the frame that a line packs to into the block, and the end of their line, if it packs to one.
fn push_line(
    alloc: Global,
    values: &DigitValues,
    line: &[u8],
    block: &mut Vec<u8>,
) -> Result<(), LineFault>
    ensures { (number : ℕ) → PushOf packing number
        (λ done. number + 1) number line.now block.old.items block.new.items result }
{
    match pack_line(alloc, values, line, block) {
        Ok(false) => Ok(()),
        Ok(true) => push_end(block),
        Err(refusal) => Err(unpacked_fault(refusal)),
    }
}

/// Puts the end of a line into the block.
fn push_end(block: &mut Vec<u8>) -> Result<(), LineFault>
    ensures ended { IfOk result (λ _. block.new.items ≡ block.old.items ++ (10 ∷ [])) }
    ensures refused { (fault : LineFault) → result ≡ Err fault → fault ≡ LineFault.NoMemory }
{
    if block.push(b'\n').is_err() {
        return Err(LineFault::NoMemory);
    }
    Ok(())
}
