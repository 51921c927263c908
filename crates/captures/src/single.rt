//! The calls of one line: what digits are worth is asked for it alone.

ghost use Rattle.std.specs.Prelude.{◌≡◌, ◌≢◌, ◌↔◌, ◌++◌, ℕ, List, true, false, OnErr, OnOk};
ghost use Rattle.captures.specs.Captures as capture;
ghost use Rattle.captures.specs.Captures.{capture_of};
ghost use Rattle.captures.specs.Shown.{Shows};
ghost use Rattle.captures.specs.Vectors as vector;
ghost use Rattle.captures.specs.Vectors.{JudgesLine, vector_of};

use crate::capture::LineRefusal;
use crate::many;
use crate::vector::Verdict;
use pdus::esis_pdus::base::{DigitValues, NoMemory};
use std::alloc::Global;

/// Appends the line that shows a frame, as `many::show_line` does.
///
/// # Errors
///
/// `NoMemory`; `out` is then as it was.
pub fn show_line(_alloc: Global, frame: &[u8], out: &mut Vec<u8>) -> Result<(), NoMemory>
    ensures shown { OnOk result ((line : List ℕ) × Shows frame.now line × (out.new.items ≡ out.old.items ++ line)) }
    ensures same { OnErr result (out.new.items ≡ out.old.items) }
{
    many::show_line(frame, out)
}

/// Reads a line of a capture, as `many::read_capture` does.
///
/// # Errors
///
/// Those of `many::read_capture`.
pub fn read_capture(line: &[u8], frame: &mut Vec<u8>) -> Result<bool, LineRefusal>
    ensures skipped { (result ≡ Ok false) ↔ (capture_of line.now ≡ capture.Skipped) }
    ensures syntax { (result ≡ Err LineRefusal.Syntax) ↔ (capture_of line.now ≡ capture.Malformed) }
    ensures count { (result ≡ Err LineRefusal.Count) ↔ (capture_of line.now ≡ capture.TooLong) }

    ensures read { result ≡ Ok true → (octets : List ℕ) × (capture_of line.now ≡ capture.Frame octets)
        × (frame.new.items ≡ frame.old.items ++ octets) }
    ensures same { result ≢ Ok true → frame.new.items ≡ frame.old.items }
{
    many::read_capture(&DigitValues::new(), line, frame)
}

/// Judges a line of a file of vectors, as `many::check_line` does.
///
/// # Errors
///
/// Those of `many::check_line`.
pub fn check_line(
    alloc: Global,
    line: &[u8],
    number: u32,
    out: &mut Vec<u8>,
) -> Result<Verdict, LineRefusal>
    ensures skipped { (result ≡ Ok Verdict.Skip) ↔ (vector_of line.now ≡ vector.Skipped) }
    ensures syntax { (result ≡ Err LineRefusal.Syntax) ↔ (vector_of line.now ≡ vector.Malformed) }
    ensures count { (result ≡ Err LineRefusal.Count) ↔ (vector_of line.now ≡ vector.TooLong) }
    ensures judged { (verdict : Verdict) → result ≡ Ok verdict → verdict ≢ Verdict.Skip
        → JudgesLine line.now number verdict out.old.items out.new.items }
    ensures same { result ≢ Ok Verdict.Pass → result ≢ Ok Verdict.Fail → out.new.items ≡ out.old.items }
{
    many::check_line(alloc, &DigitValues::new(), line, number, out)
}
