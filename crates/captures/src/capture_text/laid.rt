//! The one frame that a shown line can be of, laid out of what its words say.
ghost use Rattle.std.specs.Prelude.{◌≡◌, ◌∷◌, [], Some, MatchResult, IfErr, IfOk, ◌≤◌, length};
ghost use Rattle.pdus.specs.ClnpBase.Text.{words_of};
ghost use Rattle.captures.specs.CaptureText.Laid.{clnp_frame, clnp_words, esis_frame, frame_of, laid};
ghost use Rattle.captures.specs.CaptureText.View.{Misses, said_by};

use crate::base::{DigitValues, next_word, push, same};
use crate::capture_text::digits::pair_of;
use crate::capture_text::pieces::{Pieces, pieces_of};
use crate::capture_text::refusal::PackRefusal;
use crate::capture_text::words::{octet_5, type_of};
use std::alloc::Global;

/// The first octet of a CLNP PDU (ISO 8473, section 7.2.2).
const CLNP: u8 = 0x81;

/// The first octet of an ES-IS PDU (ISO 9542, section 7.2).
const ESIS: u8 = 0x82;

/// The version of both (ISO 8473, section 7.2.4; ISO 9542, section 7.2).
const VERSION: u8 = 1;

/// The octets of the fixed part of a header, in both protocols.
const FIXED_PART: usize = 9;

/// The most octets of a header (ISO 8473, section 7.2.3; ISO 9542, section 7.2).
const MOST_HEADER: usize = 254;

/// The most octets of header and data (ISO 8473, section 7.2.8).
const MOST_TOTAL: usize = 65_535;

/// The type of an end system hello (ISO 9542, section 7.2).
const END_SYSTEM_HELLO: u8 = 2;

/// The type of an intermediate system hello (ISO 9542, section 7.2).
const INTERMEDIATE_SYSTEM_HELLO: u8 = 4;

/// The type of a redirect (ISO 9542, section 7.2).
const REDIRECT: u8 = 6;

/// The frame that a shown line is of, if it is of any.
///
/// # Errors
///
/// `NotShown` where the words of the line are those of no frame, and `NoMemory`.
#[tactic(auto, unfolding(crate::specs::CaptureText::Laid::frame_of))]
pub(crate) fn frame_of(
    alloc: Global,
    values: &DigitValues,
    line: &[u8],
) -> Result<Vec<u8>, PackRefusal>
    ensures { let reading = frame_of (words_of line.now) in
        MatchResult result (λ frame. reading ≡ Some frame.items) (λ refusal. Misses refusal reading) }
{
    let Some((first, others)) = next_word(line) else {
        return Err(PackRefusal::NotShown);
    };
    if same(first, b"clnp") {
        return clnp_words(alloc, values, others);
    }
    if same(first, b"esh") {
        let pieces = pieces_of(alloc, values, others)?;
        return esis_frame(alloc, END_SYSTEM_HELLO, &[pieces.addresses], &pieces);
    }
    if same(first, b"ish") {
        let pieces = pieces_of(alloc, values, others)?;
        return esis_frame(alloc, INTERMEDIATE_SYSTEM_HELLO, &[], &pieces);
    }
    if same(first, b"rd") {
        let pieces = pieces_of(alloc, values, others)?;
        return esis_frame(alloc, REDIRECT, &[], &pieces);
    }
    Err(PackRefusal::NotShown)
}

/// The frame of a CLNP PDU, from its kind on.
fn clnp_words(alloc: Global, values: &DigitValues, line: &[u8]) -> Result<Vec<u8>, PackRefusal>
    ensures { let reading = clnp_words (words_of line.now) in
        MatchResult result (λ frame. reading ≡ Some frame.items) (λ refusal. Misses refusal reading) }
{
    let Some((kind, others)) = next_word(line) else {
        return Err(PackRefusal::NotShown);
    };
    let Some((letters, others)) = next_word(others) else {
        return Err(PackRefusal::NotShown);
    };
    let Some(code) = type_of(kind) else {
        return Err(PackRefusal::NotShown);
    };
    let pieces = pieces_of(alloc, values, others)?;
    clnp_frame(alloc, octet_5(letters, code), &pieces)
}

/// The frame of a CLNP PDU with this octet 5 (ISO 8473, section 7).
fn clnp_frame(alloc: Global, flags: u8, pieces: &Pieces) -> Result<Vec<u8>, PackRefusal>
    ensures { let reading = clnp_frame flags (said_by pieces.now) in
        MatchResult result (λ frame. reading ≡ Some frame.items) (λ refusal. Misses refusal reading) }
{
    let len = FIXED_PART + pieces.part.len();
    if len > MOST_HEADER || pieces.number > 255 || pieces.size > MOST_TOTAL - len {
        return Err(PackRefusal::NotShown);
    }
    let start = [CLNP, len as u8, VERSION, pieces.number as u8, flags];
    laid(alloc, &start, (len + pieces.size) as u16, &[], pieces)
}

/// The frame of an ES-IS PDU of this type, with a number of addresses before them or none (ISO 9542, section 7).
fn esis_frame(
    alloc: Global,
    code: u8,
    counts: &[u8],
    pieces: &Pieces,
) -> Result<Vec<u8>, PackRefusal>
    requires { length counts.now ≤ 1 }
    ensures { let reading = esis_frame code counts.now (said_by pieces.now) in
        MatchResult result (λ frame. reading ≡ Some frame.items) (λ refusal. Misses refusal reading) }
{
    let len = FIXED_PART + counts.len() + pieces.part.len();
    if len > MOST_HEADER {
        return Err(PackRefusal::NotShown);
    }
    let start = [ESIS, len as u8, VERSION, 0, code];
    laid(alloc, &start, pieces.number, counts, pieces)
}

/// Five octets of the fixed part, a number, the checksum, and what follows the fixed part.
fn laid(
    alloc: Global,
    start: &[u8],
    number: u16,
    counts: &[u8],
    pieces: &Pieces,
) -> Result<Vec<u8>, PackRefusal>
    ensures frame { IfOk result (λ frame. frame.items ≡ laid start.now number counts.now (said_by pieces.now)) }
    ensures refused { IfErr result (λ refusal. refusal ≡ PackRefusal.NoMemory) }
{
    let room = pieces.part.len().saturating_add(pieces.behind.len());
    let mut frame = Vec::with_capacity(alloc, room.saturating_add(FIXED_PART + 1))?;
    push(start, &mut frame)?;
    push(&pair_of(number), &mut frame)?;
    push(&pieces.sum, &mut frame)?;
    push(counts, &mut frame)?;
    push(&pieces.part, &mut frame)?;
    push(&pieces.behind, &mut frame)?;
    Ok(frame)
}
