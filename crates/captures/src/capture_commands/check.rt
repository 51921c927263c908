//! The command `check`: a file of vectors judged line by line.
ghost use Rattle.std.specs.Prelude.{◌≡◌, ◌≤◌, ◌<◌, ◌+◌, ℕ, List, [], ◌∷◌, ◌++◌, length, Option, Err, IfOk, OnOk};
ghost use Rattle.hex.specs.Hex.{IsBytes};
ghost use Rattle.captures.specs.Vectors.{Judges};
ghost use Rattle.clnp_base.specs.Streams.{Rose};
ghost use Rattle.clnp_base.specs.Text.{lines_of};
ghost use Rattle.clnp_base.specs.CommandBase.ByLine.{PushOf, Midway, NextOf, EndOf, task_of};
ghost use Rattle.clnp_base.specs.CommandBase.ComesAs.{ComesAs, most_input};
ghost use Rattle.captures.specs.CaptureCommands.Check.{checking, counting, first_checked, tally_text};

use crate::capture_commands::fault::fault_of;
use crate::many::check_line;
use crate::{Verdict, laws};
use clnp_base::command_base::base::{DigitValues, NoMemory, Sink, next_line, push};
use clnp_base::command_base::{
    LineFault, LineStop, Status, push_number, refuse, write_block, write_full_block,
};
use std::alloc::Global;

/// How many vectors passed and how many failed, at most 16,777,216 together.
#[derive(Clone, Copy)]
pub struct Tally {
    pub passed: u32,
    pub failed: u32,
}

impl Tally {
    /// The counts with one verdict more.
    fn counting(self, verdict: Verdict) -> Tally
        requires { self.passed + self.failed < most_input }
        ensures { result ≡ counting verdict self }
    {
        let Tally { passed, failed } = self;
        match verdict {
            Verdict::Skip => self,
            Verdict::Pass => Tally {
                passed: passed + 1,
                failed,
            },
            Verdict::Fail => Tally {
                passed,
                failed: failed + 1,
            },
        }
    }
}

/// Writes the verdict on each vector of a file, up to the first bad line, and at the end how many
/// passed and how many failed.
pub fn check<K: Sink>(alloc: Global, text: &[u8], sink: &mut K) -> Status
    requires { length text.now ≤ most_input }
    ensures later { K.faults sink.old ≤ K.faults sink.new }
    ensures comes_to { ComesAs (task_of checking first_checked (lines_of text.now))
        (K.written sink.old) (K.written sink.new) result }
    ensures failed { result ≡ Status.WriteFault → Rose (K.faults sink.old) (K.faults sink.new) }
{
    // Its clause: vectors behind a stop have their verdicts too.
    every_vector_is_judged();
    let values = DigitValues::new();
    let mut block = Vec::new(alloc);
    let mut tally = Tally {
        passed: 0,
        failed: 0,
    };
    let mut number = 0u32;
    let mut left = text;
    while let Some((line, others)) = next_line(left) {
        number += 1;
        match check_next(alloc, &values, line, number, tally, &mut block, sink) {
            Ok(counts) => {
                tally = counts;
                left = others;
            }
            Err(stop) => return stop.status(number),
        }
    }
    write_end(tally, &mut block, sink)
}

/// Each vector whose frame is of octets has a verdict.
fn every_vector_is_judged()
    ensures { (number : ℕ) (octets expected : List ℕ) → IsBytes octets
        → (verdict : Verdict) × ((text : List ℕ) × Judges number octets expected verdict text) }
{
    // Its clause `some`.
    laws::one_verdict();
}

/// Puts the next line into the block, and writes the block where it is full or the line is bad.
/// Answers the counts after the line.
fn check_next<K: Sink>(
    alloc: Global,
    values: &DigitValues,
    line: &[u8],
    number: u32,
    tally: Tally,
    block: &mut Vec<u8>,
    sink: &mut K,
) -> Result<Tally, LineStop>
    requires { tally.passed + tally.failed < most_input }
    ensures later { K.faults sink.old ≤ K.faults sink.new }
    ensures comes_to { (all left : List (List ℕ)) (before : Option (List ℕ))
        → Midway checking first_checked (record { number = number; tally = tally }) all (line.now ∷ left) before
        (K.written sink.old) block.old.items
        → NextOf checking first_checked
        (λ counts. record { number = number + 1; tally = counts })
        all left number before (K.written sink.new) block.new.items result }
    ensures counted { IfOk result (λ counts. counts.passed + counts.failed ≤ tally.passed + tally.failed + 1) }
    ensures failed { result ≡ Err LineStop.WriteFault → Rose (K.faults sink.old) (K.faults sink.new) }
{
    match push_line(alloc, values, line, number, tally, block) {
        Ok(counts) => match write_full_block(block, sink) {
            Ok(()) => Ok(counts),
            Err(stop) => Err(stop),
        },
        Err(fault) => Err(refuse(fault, block, sink)),
    }
}

/// Puts the line of the verdict on a line into the block, if it is a vector. Answers the counts
/// after it.
fn push_line(
    alloc: Global,
    values: &DigitValues,
    line: &[u8],
    number: u32,
    tally: Tally,
    block: &mut Vec<u8>,
) -> Result<Tally, LineFault>
    requires { tally.passed + tally.failed < most_input }
    ensures pushed { PushOf checking (record { number = number; tally = tally })
        (λ counts. record { number = number + 1; tally = counts })
        number line.now block.old.items block.new.items result }
    ensures counted { IfOk result (λ counts. counts.passed + counts.failed ≤ tally.passed + tally.failed + 1) }
{
    match check_line(alloc, values, line, number, block) {
        Ok(Verdict::Skip) => Ok(tally),
        Ok(Verdict::Pass) => push_end(Verdict::Pass, tally, block),
        Ok(Verdict::Fail) => push_end(Verdict::Fail, tally, block),
        Err(refusal) => Err(fault_of(refusal)),
    }
}

/// Puts the end of the line of a verdict into the block. Answers the counts after it.
fn push_end(verdict: Verdict, tally: Tally, block: &mut Vec<u8>) -> Result<Tally, LineFault>
    requires { tally.passed + tally.failed < most_input }
    ensures ended { IfOk result (λ counts. (block.new.items ≡ block.old.items ++ (10 ∷ []))
        × (counts ≡ counting verdict tally)) }
    ensures refused { (fault : LineFault) → result ≡ Err fault → fault ≡ LineFault.NoMemory }
{
    match block.push(b'\n') {
        Ok(()) => Ok(tally.counting(verdict)),
        Err(_) => Err(LineFault::NoMemory),
    }
}

/// Writes the block and the counts.
fn write_end<K: Sink>(tally: Tally, block: &mut Vec<u8>, sink: &mut K) -> Status
    ensures later { K.faults sink.old ≤ K.faults sink.new }
    ensures written { EndOf (block.old.items ++ tally_text tally) (K.written sink.old) (K.written sink.new) result }
    ensures failed { result ≡ Status.WriteFault → Rose (K.faults sink.old) (K.faults sink.new) }
{
    if push_tally(tally, block).is_err() {
        return Status::NoMemory;
    }
    match write_block(block, sink) {
        Ok(()) => Status::Done,
        Err(_) => Status::WriteFault,
    }
}

/// Appends the counts, and the end of their line.
fn push_tally(tally: Tally, block: &mut Vec<u8>) -> Result<(), NoMemory>
    ensures { OnOk result (block.new.items ≡ block.old.items ++ tally_text tally) }
{
    push_number(b"passed ", u64::from(tally.passed), block)?;
    push_number(b" failed ", u64::from(tally.failed), block)?;
    push(b"\n", block)
}
