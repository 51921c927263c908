//! The lines of a file of vectors, judged.

ghost use Rattle.std.specs.Prelude.{◌≡◌, ◌≢◌, ◌↔◌, ◌++◌, ℕ, List, true, false, Option, Some, None, take, drop, length, ◌≤◌, MatchOption, IfOk, OnOk, OnErr};
ghost use Rattle.std.specs.Fmt.{decimal};
ghost use Rattle.captures.specs.Captures.{is_skipped};
ghost use Rattle.captures.specs.Kept.{Keeps};
ghost use Rattle.captures.specs.Vectors.{vector_of, Skipped, Malformed, TooLong, Expects, before_space, from_space, behind_arrow, verdict_of, verdict_text, Judges, JudgesLine};

use crate::capture::{LineRefusal, read_capture};
use crate::line::show_line;
use pdus::esis_pdus::base::{DigitValues, NoMemory, is_skipped, push, push_decimal};
use std::alloc::Global;

/// The verdict on a line of a file of vectors.
#[derive(Clone, Copy, PartialEq, Eq)]
pub enum Verdict {
    /// The line is to be skipped.
    Skip,
    /// The frame's shown line is the expected one.
    Pass,
    /// The frame's shown line is another one.
    Fail,
}

/// Judges a line of a file of vectors, and appends the verdict as text, without a `\n`.
///
/// A line is skipped where it is empty or begins with `#`. Otherwise it is a vector: two hexadecimal
/// digits, in either case, for each octet of a frame, then ` => `, and then the line that is
/// expected to show the frame. The text is `N pass` where that is the frame's shown line, octet for
/// octet, and else `N fail ` and the shown line, with `number` as N.
///
/// # Errors
///
/// `Syntax` where the line has another form, `Count` where the form is right and the frame has more
/// than 70,000 octets, and `NoMemory`. Unless the answer is `Pass` or `Fail`, `out` is as it was.
pub fn check_line(
    alloc: Global,
    values: &DigitValues,
    line: &[u8],
    number: u32,
    out: &mut Vec<u8>,
) -> Result<Verdict, LineRefusal>
    ensures skipped { (result ≡ Ok Verdict.Skip) ↔ (vector_of line.now ≡ Skipped) }
    ensures syntax { (result ≡ Err LineRefusal.Syntax) ↔ (vector_of line.now ≡ Malformed) }
    ensures count { (result ≡ Err LineRefusal.Count) ↔ (vector_of line.now ≡ TooLong) }

    ensures judged { (verdict : Verdict) → result ≡ Ok verdict → verdict ≢ Verdict.Skip
        → JudgesLine line.now number verdict out.old.items out.new.items }
    ensures same { result ≢ Ok Verdict.Pass → result ≢ Ok Verdict.Fail → out.new.items ≡ out.old.items }
{
    if is_skipped(line) {
        return Ok(Verdict::Skip);
    }
    let mut frame = Vec::new(alloc);
    match read_vector(values, line, &mut frame) {
        Ok(expected) => judge(alloc, &frame, expected, number, out),
        Err(refusal) => Err(refusal),
    }
}

/// Reads a vector: appends the octets of its frame, and answers the line that is expected to show
/// them.
fn read_vector<'a>(
    values: &DigitValues,
    line: &'a [u8],
    frame: &mut Vec<u8>,
) -> Result<&'a [u8], LineRefusal>
    requires { is_skipped line.now ≡ false }
    ensures skipped { vector_of line.now ≢ Skipped }
    ensures syntax { (result ≡ Err LineRefusal.Syntax) ↔ (vector_of line.now ≡ Malformed) }
    ensures count { (result ≡ Err LineRefusal.Count) ↔ (vector_of line.now ≡ TooLong) }
    ensures read { IfOk result (λ expected. (octets : List ℕ) × (vector_of line.now ≡ Expects octets expected.now)
        × (frame.new.items ≡ frame.old.items ++ octets)) }
{
    let Some((digits, expected)) = cut_at_arrow(line) else {
        return Err(LineRefusal::Syntax);
    };
    match read_capture(values, digits, frame) {
        Ok(true) => Ok(expected),
        Ok(false) => Err(LineRefusal::Syntax),
        Err(refusal) => Err(refusal),
    }
}

/// What stands before ` => ` at the first space of a line, and what follows it; none where no
/// ` => ` stands there.
fn cut_at_arrow(line: &[u8]) -> Option<(&[u8], &[u8])>
    ensures { MatchOption result (behind_arrow (from_space line.now) ≡ None)
        (λ cut. (cut.0.now ≡ before_space line.now) × (behind_arrow (from_space line.now) ≡ Some cut.1.now)) }
{
    let (digits, rest) = line.split_at(space_place(line));
    match rest.strip_prefix(b" => ") {
        Some(expected) => Some((digits, expected)),
        None => None,
    }
}

/// How many octets stand before the first space of a line.
fn space_place(line: &[u8]) -> usize
    ensures within { result ≤ length line.now }
    ensures before { take result line.now ≡ before_space line.now }
    ensures from { drop result line.now ≡ from_space line.now }
{
    for (place, c) in line.iter().enumerate() {
        if *c == b' ' {
            return place;
        }
    }
    line.len()
}

/// Appends the verdict on a frame as text.
fn judge(
    alloc: Global,
    frame: &[u8],
    expected: &[u8],
    number: u32,
    out: &mut Vec<u8>,
) -> Result<Verdict, LineRefusal>
    ensures judged { IfOk result (λ verdict. (text : List ℕ) × Judges number frame.now expected.now verdict text
        × (out.new.items ≡ out.old.items ++ text)) }
    ensures unskipped { result ≢ Ok Verdict.Skip }
    ensures refused { (refusal : LineRefusal) → result ≡ Err refusal → refusal ≡ LineRefusal.NoMemory }
    ensures same { OnErr result (out.new.items ≡ out.old.items) }
{
    let Ok(mut shown) = Vec::with_capacity(alloc, expected.len()) else {
        return Err(LineRefusal::NoMemory);
    };
    if show_line(frame, &mut shown).is_err() {
        return Err(LineRefusal::NoMemory);
    }
    let verdict = verdict_on(&shown, expected);
    match push_verdict(number, verdict, &shown, out) {
        Ok(()) => Ok(verdict),
        Err(_) => Err(LineRefusal::NoMemory),
    }
}

/// The verdict on a shown line.
fn verdict_on(shown: &[u8], expected: &[u8]) -> Verdict
    ensures { result ≡ verdict_of shown.now expected.now }
{
    if shown == expected {
        Verdict::Pass
    } else {
        Verdict::Fail
    }
}

/// Appends a verdict as text.
fn push_verdict(
    number: u32,
    verdict: Verdict,
    shown: &[u8],
    out: &mut Vec<u8>,
) -> Result<(), NoMemory>
    ensures written { OnOk result (out.new.items ≡ out.old.items ++ verdict_text number verdict shown.now) }
    ensures same { OnErr result (out.new.items ≡ out.old.items) }
{
    let start = out.len();
    let written = push_words(number, verdict, shown, out);
    if written.is_err() {
        out.truncate(start);
    }
    written
}

/// Appends the words of a verdict.
fn push_words(
    number: u32,
    verdict: Verdict,
    shown: &[u8],
    text: &mut Vec<u8>,
) -> Result<(), NoMemory>
    ensures written { OnOk result (text.new.items ≡ text.old.items ++ verdict_text number verdict shown.now) }
    ensures kept { OnErr result (Keeps text.old.items text.new.items) }
{
    match verdict {
        Verdict::Skip => Ok(()),
        Verdict::Pass => push_numbered(number, b" pass", text),
        Verdict::Fail => {
            push_numbered(number, b" fail ", text)?;
            push(shown, text)
        }
    }
}

/// Appends the number of a line, and a label.
fn push_numbered(number: u32, label: &[u8], text: &mut Vec<u8>) -> Result<(), NoMemory>
    ensures written { OnOk result (text.new.items ≡ text.old.items ++ (decimal number ++ label.now)) }
    ensures kept { OnErr result (Keeps text.old.items text.new.items) }
{
    push_decimal(u64::from(number), text)?;
    push(label, text)
}
