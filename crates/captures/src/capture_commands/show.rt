//! The command `show`: the frames of a capture as lines of text.
ghost use Rattle.std.specs.Prelude.{◌≡◌, ◌≤◌, ◌+◌, ℕ, List, [], ◌∷◌, ◌++◌, length, Option, Err, OnOk};
ghost use Rattle.hex.specs.Hex.{IsBytes};
ghost use Rattle.captures.specs.Shown.{Shows};
ghost use Rattle.clnp_base.specs.Streams.{Rose};
ghost use Rattle.clnp_base.specs.Text.{lines_of};
ghost use Rattle.clnp_base.specs.CommandBase.ByLine.{PushOf, Midway, NextOf, task_of};
ghost use Rattle.clnp_base.specs.CommandBase.ComesAs.{ComesAs, most_input};
ghost use Rattle.captures.specs.CaptureCommands.Show.{showing};

use crate::capture_commands::fault::fault_of;
use crate::laws;
use crate::many::{read_capture, show_line};
use clnp_base::command_base::base::{DigitValues, Sink, next_line};
use clnp_base::command_base::{LineFault, LineStop, Status, refuse, write_block, write_full_block};
use std::alloc::Global;

/// Writes the line that shows each frame of a capture, up to the first bad line.
pub fn show<K: Sink>(alloc: Global, text: &[u8], sink: &mut K) -> Status
    requires { length text.now ≤ most_input }
    ensures later { K.faults sink.old ≤ K.faults sink.new }
    ensures comes_to { ComesAs (task_of showing 1 (lines_of text.now))
        (K.written sink.old) (K.written sink.new) result }
    ensures failed { result ≡ Status.WriteFault → Rose (K.faults sink.old) (K.faults sink.new) }
{
    // Its clause: frames behind a stop have their lines too.
    every_frame_is_shown();
    let values = DigitValues::new();
    let mut frame = Vec::new(alloc);
    let mut block = Vec::new(alloc);
    let mut number = 0u32;
    let mut left = text;
    while let Some((line, others)) = next_line(left) {
        number += 1;
        match show_next(&values, line, &mut frame, &mut block, sink) {
            Ok(()) => left = others,
            Err(stop) => return stop.status(number),
        }
    }
    match write_block(&mut block, sink) {
        Ok(()) => Status::Done,
        Err(_) => Status::WriteFault,
    }
}

/// Each frame of octets has a line that shows it.
fn every_frame_is_shown()
    ensures { (frame : List ℕ) → IsBytes frame → (line : List ℕ) × Shows frame line }
{
    // Its clause `some`.
    laws::one_line();
}

/// Puts the next line into the block, and writes the block where it is full or the line is bad.
/// `frame` is a list to use for its frame.
fn show_next<K: Sink>(
    values: &DigitValues,
    line: &[u8],
    frame: &mut Vec<u8>,
    block: &mut Vec<u8>,
    sink: &mut K,
) -> Result<(), LineStop>
    ensures later { K.faults sink.old ≤ K.faults sink.new }
    ensures comes_to { (all left : List (List ℕ)) (number : ℕ) (before : Option (List ℕ))
        → Midway showing 1 number all (line.now ∷ left) before (K.written sink.old) block.old.items
        → NextOf showing 1 (λ done. number + 1) all left number before (K.written sink.new) block.new.items result }
    ensures failed { result ≡ Err LineStop.WriteFault → Rose (K.faults sink.old) (K.faults sink.new) }
{
    match push_line(values, line, frame, block) {
        Ok(()) => write_full_block(block, sink),
        Err(fault) => Err(refuse(fault, block, sink)),
    }
}

/// Puts the line that shows the frame of a line into the block, if it has one.
fn push_line(
    values: &DigitValues,
    line: &[u8],
    frame: &mut Vec<u8>,
    block: &mut Vec<u8>,
) -> Result<(), LineFault>
    ensures { (number : ℕ) → PushOf showing number
        (λ done. number + 1) number line.now block.old.items block.new.items result }
{
    if line.is_empty() {
        return Ok(());
    }
    frame.clear();
    match read_capture(values, line, frame) {
        Ok(true) => push_shown(frame.as_slice(), block),
        Ok(false) => Ok(()),
        Err(refusal) => Err(fault_of(refusal)),
    }
}

/// Puts the line that shows a frame, and its end, into the block.
fn push_shown(frame: &[u8], block: &mut Vec<u8>) -> Result<(), LineFault>
    ensures shown { OnOk result ((line : List ℕ) × Shows frame.now line
        × (block.new.items ≡ (block.old.items ++ line) ++ (10 ∷ []))) }
    ensures refused { (fault : LineFault) → result ≡ Err fault → fault ≡ LineFault.NoMemory }
{
    if show_line(frame, block).is_err() || block.push(b'\n').is_err() {
        return Err(LineFault::NoMemory);
    }
    Ok(())
}
