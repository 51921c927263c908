//! The reader of texts of captured traffic.
ghost use Rattle.std.specs.Prelude.{◌≡◌, ◌+◌, ◌-◌, ◌^◌, ◌<◌, [], length, codes, IfOk, Ok, Err, MatchResult};
ghost use Rattle.scenario.specs.ClnpBase.Text.{lines_of, words_of};
ghost use Rattle.scenario.specs.Codes.{number_of};
ghost use Rattle.scenario.specs.Grammar.{at_line, nothing_after};
ghost use Rattle.clnp_program.specs.declared.fair_commands.fault.CaptureRefusal.TheVariants.{BadLine};
ghost use Rattle.clnp_program.specs.FairCommands.Grammar.{capture_of, frames_from, header_from, more_shares, next_frame, others_from, shares_from};
ghost use Rattle.clnp_program.specs.FairCommands.Refusal.{Refuses};

use crate::fair_commands::capture::Capture;
use crate::fair_commands::declaration::{declare_share, others_line};
use crate::fair_commands::fault::CaptureRefusal;
use crate::fair_commands::frame_line::next_frame;
use scenario::base::{DigitValues, is_skipped, next_line, same};
use scenario::word::is_line_of;
use scenario::{Code, LineFault};
use std::alloc::Global;
use system_tables::fair_reassembly::reassembling::TableLimits;
use system_tables::fair_reassembly::{Came, Share};

/// A line that breaks the grammar, by its number and the code's.
fn bad_line(line: u32, code: Code) -> CaptureRefusal
    ensures { result ≡ BadLine line (number_of code) }
{
    CaptureRefusal::BadLine {
        line,
        code: code.number(),
    }
}

/// The number of the line behind the header, and the text from there on.
fn header(text: &[u8]) -> Result<(u32, &[u8]), CaptureRefusal>
    requires { 1 + length (lines_of text.now) < 2 ^ 32 }
    ensures header { let reading = header_from 1 (lines_of text.now) in
        MatchResult result (λ r. reading ≡ Ok (record { value = tt; number = r.0; lines = lines_of r.1.now })) (λ refusal. Refuses refusal reading) }
    ensures few { IfOk result (λ r. r.0 + length (lines_of r.1.now) < 2 ^ 32) }
{
    let mut number: u32 = 1;
    let mut left = text;
    while let Some((line, rest)) = next_line(left) {
        if !is_skipped(line) {
            if same(line, b"clnp-reassemble 1") {
                return Ok((number + 1, rest));
            }
            return Err(bad_line(number, Code::Header));
        }
        number += 1;
        left = rest;
    }
    Err(bad_line(number, Code::Header))
}

/// The numbers of the table of all sources without a share, the number of the line behind theirs, and the text from there on.
fn others(number: u32, text: &[u8]) -> Result<(TableLimits, u32, &[u8]), CaptureRefusal>
    requires { number + length (lines_of text.now) < 2 ^ 32 }
    ensures others { let reading = others_from number (lines_of text.now) in
        MatchResult result (λ r. reading ≡ Ok (record { value = r.0; number = r.1; lines = lines_of r.2.now })) (λ refusal. Refuses refusal reading) }
    ensures few { IfOk result (λ r. r.1 + length (lines_of r.2.now) < 2 ^ 32) }
{
    let mut number = number;
    let mut left = text;
    while let Some((line, rest)) = next_line(left) {
        if !is_skipped(line) {
            return match others_line(line) {
                Ok(others) => Ok((others, number + 1, rest)),
                Err(code) => Err(bad_line(number, code)),
            };
        }
        number += 1;
        left = rest;
    }
    Err(bad_line(number, Code::Syntax))
}

/// Adds the share that the line of this number tells.
fn share_at(
    others: TableLimits,
    shares: &mut Vec<Share>,
    number: u32,
    line: &[u8],
) -> Result<(), CaptureRefusal>
    ensures { let reading = at_line number (more_shares others shares.old.items (words_of line.now)) in
        MatchResult result (λ _. reading ≡ Ok shares.new.items) (λ refusal. Refuses refusal reading) }
{
    match declare_share(others, shares, line) {
        Ok(()) => Ok(()),
        Err(LineFault::NoMemory) => Err(CaptureRefusal::NoMemory),
        Err(LineFault::Broken(code)) => Err(bad_line(number, code)),
    }
}

/// Adds the shares of the lines from this number on, up to `frames`: the number of the line behind it, and the text from
/// there on.
fn shares_of<'a>(
    others: TableLimits,
    shares: &mut Vec<Share>,
    number: u32,
    text: &'a [u8],
) -> Result<(u32, &'a [u8]), CaptureRefusal>
    requires { number + length (lines_of text.now) < 2 ^ 32 }
    ensures shares { let reading = shares_from number others shares.old.items (lines_of text.now) in
        MatchResult result
        (λ r. reading ≡ Ok (record { value = shares.new.items; number = r.0; lines = lines_of r.1.now }))
        (λ refusal. Refuses refusal reading) }
    ensures few { IfOk result (λ r. r.0 + length (lines_of r.1.now) < 2 ^ 32) }
{
    let mut number = number;
    let mut left = text;
    while let Some((line, rest)) = next_line(left) {
        let at = number;
        number += 1;
        left = rest;
        if is_skipped(line) {
            continue;
        }
        if is_line_of(b"frames", line) {
            return Ok((number, rest));
        }
        share_at(others, shares, at, line)?;
    }
    Err(bad_line(number, Code::Syntax))
}

/// No line but skipped ones comes after `end`.
fn nothing_after(number: u32, text: &[u8]) -> Result<(), CaptureRefusal>
    requires { number + length (lines_of text.now) < 2 ^ 32 }
    ensures { let reading = nothing_after number (lines_of text.now) in
        MatchResult result (λ _. reading ≡ Ok tt) (λ refusal. Refuses refusal reading) }
{
    let mut number = number;
    let mut left = text;
    while let Some((line, behind)) = next_line(left) {
        if !is_skipped(line) {
            return Err(bad_line(number, Code::Syntax));
        }
        number += 1;
        left = behind;
    }
    Ok(())
}

/// The frame of the line of this number, behind `count` frames, at a moment that isn't before `last`.
fn frame_at(
    alloc: Global,
    values: &DigitValues,
    number: u32,
    last: u64,
    count: usize,
    line: &[u8],
) -> Result<Came, CaptureRefusal>
    ensures { let reading = at_line number (next_frame last count (words_of line.now)) in
        MatchResult result (λ came. reading ≡ Ok came) (λ refusal. Refuses refusal reading) }
{
    match next_frame(alloc, values, last, count, line) {
        Ok(came) => Ok(came),
        Err(LineFault::NoMemory) => Err(CaptureRefusal::NoMemory),
        Err(LineFault::Broken(code)) => Err(bad_line(number, code)),
    }
}

/// Adds the frames of the lines from this number on, and `end`.
fn frames_of(
    alloc: Global,
    frames: &mut Vec<Came>,
    number: u32,
    text: &[u8],
) -> Result<(), CaptureRefusal>
    requires { number + length (lines_of text.now) < 2 ^ 32 }
    ensures { let reading = frames_from number 0 frames.old.items (lines_of text.now) in
        MatchResult result (λ _. reading ≡ Ok frames.new.items) (λ refusal. Refuses refusal reading) }
{
    let values = DigitValues::new();
    let mut number = number;
    let mut last = 0;
    let mut left = text;
    while let Some((line, rest)) = next_line(left) {
        let at = number;
        number += 1;
        left = rest;
        if is_skipped(line) {
            continue;
        }
        if is_line_of(b"end", line) {
            return nothing_after(number, rest);
        }
        let came = frame_at(alloc, &values, at, last, frames.len(), line)?;
        last = came.moment;
        frames.push(came)?;
    }
    Err(bad_line(number, Code::Syntax))
}

/// What a text of captured traffic says: which sources have a share, and the frames.
///
/// # Errors
///
/// `BadLine` with the first line that breaks the grammar, from 1, and the code of what it breaks; `NoMemory` where memory is
/// refused.
#[tactic(auto, unfolding(crate::specs::FairCommands::Grammar::capture_at))]
pub fn read(alloc: Global, text: &[u8]) -> Result<Capture, CaptureRefusal>
    requires { length (lines_of text.now) < 2 ^ 32 - 1 }
    ensures { MatchResult result (λ capture. capture_of text.now ≡ Ok capture) (λ refusal. Refuses refusal (capture_of text.now)) }
{
    let (number, text) = header(text)?;
    let (others, number, text) = others(number, text)?;
    let mut shares = Vec::new(alloc);
    let (number, text) = shares_of(others, &mut shares, number, text)?;
    let mut frames = Vec::new(alloc);
    frames_of(alloc, &mut frames, number, text)?;
    Ok(Capture {
        others,
        shares,
        frames,
    })
}
