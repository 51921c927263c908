//! The lines of frames.
ghost use Rattle.std.specs.Prelude.{◌≡◌, ◌≤◌, IfOk, length, Ok, Err, MatchResult};
ghost use Rattle.scenario.specs.ClnpBase.Text.{words_of};
ghost use Rattle.scenario.specs.Refusal.{Faults};
ghost use Rattle.scenario.specs.Words.{frame_word};
ghost use Rattle.clnp_program.specs.FairCommands.Grammar.{frame_line, next_frame};

use scenario::base::{DigitValues, same};
use scenario::views::Frame;
use scenario::word::{number_word, two_words};
use scenario::{Code, LineFault};
use std::alloc::Global;
use system_tables::fair_reassembly::Came;

/// The most octets of a frame.
const MOST_OCTETS: usize = 70_000;
/// The most frames.
const MOST_FRAMES: usize = 100_000;
/// The last moment.
const LAST_MOMENT: u64 = 4_294_967_295;

/// The octets that a word of an even number of digits spells, in either case.
fn octets_of(alloc: Global, values: &DigitValues, word: &[u8]) -> Result<Vec<u8>, LineFault>
    ensures { let reading = frame_word word.now in
        MatchResult result (λ octets. reading ≡ Ok octets.items) (λ fault. Faults fault reading) }
{
    if word.len() % 2 != 0 {
        return Err(LineFault::Broken(Code::Address));
    }
    let mut octets = Vec::new(alloc);
    let Ok(()) = octets.resize(word.len() / 2, 0) else {
        return Err(LineFault::NoMemory);
    };
    if values.decode(word, &mut octets) {
        Ok(octets)
    } else {
        Err(LineFault::Broken(Code::Address))
    }
}

/// The frame of a line, at a moment that isn't before `last`.
fn frame_line(
    alloc: Global,
    values: &DigitValues,
    last: u64,
    line: &[u8],
) -> Result<Came, LineFault>
    ensures { let reading = frame_line last (words_of line.now) in
        MatchResult result (λ came. reading ≡ Ok came) (λ fault. Faults fault reading) }
{
    let Some((moment, digits)) = two_words(line) else {
        return Err(LineFault::Broken(Code::Syntax));
    };
    if same(moment, b"end") {
        return Err(LineFault::Broken(Code::Syntax));
    }
    let moment = number_word(last, LAST_MOMENT, moment)?;
    let octets = octets_of(alloc, values, digits)?;
    if octets.len() > MOST_OCTETS {
        return Err(LineFault::Broken(Code::Count));
    }
    match Frame::from_vec(octets) {
        Ok(frame) => Ok(Came { moment, frame }),
        Err(_) => Err(LineFault::NoMemory),
    }
}

/// The frame of a line behind `count` frames, at a moment that isn't before `last`.
pub(crate) fn next_frame(
    alloc: Global,
    values: &DigitValues,
    last: u64,
    count: usize,
    line: &[u8],
) -> Result<Came, LineFault>
    ensures { let reading = next_frame last count (words_of line.now) in
        MatchResult result (λ came. reading ≡ Ok came) (λ fault. Faults fault reading) }
{
    let came = frame_line(alloc, values, last, line)?;
    if count >= MOST_FRAMES {
        return Err(LineFault::Broken(Code::Count));
    }
    Ok(came)
}
