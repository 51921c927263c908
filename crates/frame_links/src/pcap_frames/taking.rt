//! Octets of a header or of a record taken until it is whole.
ghost use Rattle.std.specs.Prelude.{◌≡◌, false, ◌+◌, ◌-◌, ◌<◌, ◌≤◌, ◌++◌, [], length, min, take, vec_capacity, vec_len};
ghost use Rattle.hex.specs.Hex.{IsBytes};
ghost use Rattle.frame_links.specs.PcapFrames.Reading.{InHeader, InRecord, IsPart, Takes, captured_length};
ghost use Rattle.frame_links.specs.PcapFrames.Stages.{IsByLength, IsHeld, answer_of, is_broken, reading_of};

use crate::pcap_frames::fault::PcapFault;
use crate::pcap_frames::header::judge_header;
use crate::pcap_frames::order::{Order, four_at};
use crate::pcap_frames::stage::Stage;

/// The octets of a file's header.
pub const HEADER: usize = 24;

/// The octets of a record up to the end of its captured length.
const UP_TO_LENGTH: usize = 12;

/// The octets of a record before its frame.
pub const RECORD_HEADER: usize = 16;

/// The most octets of a frame that a record has.
pub(crate) const MOST_CAPTURED: u32 = 262_144;

/// The most octets that are held: the longest record.
pub(crate) const MOST_HELD: usize = 262_160;

/// What one call of a reader took.
#[derive(Clone, Copy, PartialEq, Eq)]
pub struct Took {
    /// How many octets of the piece.
    pub octets: usize,
    /// A record is whole with them.
    pub whole: bool,
}

/// How many octets of a piece were taken, and what the octets are that are held then.
#[derive(Clone, Copy)]
pub(crate) struct Fed {
    /// The octets that were taken.
    pub(crate) octets: usize,
    /// What is held then.
    pub(crate) stage: Stage,
}

impl Fed {
    /// What is told of it.
    pub(crate) fn answer(&self) -> Result<Took, PcapFault>
        ensures { result ≡ answer_of self.now.octets self.now.stage }
    {
        match self.stage {
            Stage::Broken(fault) => Err(fault),
            Stage::Whole(_) => Ok(Took {
                octets: self.octets,
                whole: true,
            }),
            Stage::Header | Stage::Part(_) => Ok(Took {
                octets: self.octets,
                whole: false,
            }),
        }
    }
}

/// Takes the next octets of a file, where a stage says what is held.
pub(crate) fn take_next(stage: Stage, part: &mut Vec<u8>, piece: &[u8]) -> Fed
    requires held { IsHeld stage part.old.items }
    requires room { 262160 ≤ vec_capacity part.old }
    ensures front { result.octets ≤ length piece.now }
    ensures some { is_broken result.stage ≡ false → 0 < length piece.now → 0 < result.octets }
    ensures takes { Takes (reading_of stage part.old.items) (take result.octets piece.now)
        (reading_of result.stage part.new.items) }
    ensures again { (fault : PcapFault) → stage ≡ Stage.Broken fault → result.stage ≡ Stage.Broken fault }
    ensures held { IsHeld result.stage part.new.items }
    ensures room { 262160 ≤ vec_capacity part.new }
{
    match stage {
        Stage::Header => take_header(part, piece),
        Stage::Part(order) => take_record(order, part, piece),
        Stage::Whole(order) => {
            part.clear();
            take_record(order, part, piece)
        }
        Stage::Broken(_) => Fed { octets: 0, stage },
    }
}

/// Takes octets of the header.
fn take_header(part: &mut Vec<u8>, piece: &[u8]) -> Fed
    requires few { length part.old.items < 24 }
    requires room { 262160 ≤ vec_capacity part.old }
    ensures front { result.octets ≤ length piece.now }
    ensures some { 0 < length piece.now → 0 < result.octets }
    ensures takes { Takes (InHeader part.old.items) (take result.octets piece.now)
        (reading_of result.stage part.new.items) }
    ensures held { IsHeld result.stage part.new.items }
    ensures room { 262160 ≤ vec_capacity part.new }
{
    let octets = take_up_to(HEADER, part, piece);
    if part.len() < HEADER {
        return Fed {
            octets,
            stage: Stage::Header,
        };
    }
    let stage = match judge_header(part) {
        Ok(order) => {
            part.clear();
            Stage::Part(order)
        }
        Err(fault) => Stage::Broken(fault),
    };
    Fed { octets, stage }
}

/// Takes octets of a record: up to the end of its captured length, or behind that up to its end.
fn take_record(order: Order, part: &mut Vec<u8>, piece: &[u8]) -> Fed
    requires part { IsPart order part.old.items }
    requires room { 262160 ≤ vec_capacity part.old }
    ensures front { result.octets ≤ length piece.now }
    ensures some { 0 < length piece.now → 0 < result.octets }
    ensures takes { Takes (InRecord order part.old.items) (take result.octets piece.now)
        (reading_of result.stage part.new.items) }
    ensures held { IsHeld result.stage part.new.items }
    ensures room { 262160 ≤ vec_capacity part.new }
{
    if part.len() < UP_TO_LENGTH {
        let octets = take_up_to(UP_TO_LENGTH, part, piece);
        return Fed {
            octets,
            stage: stage_by_length(order, part),
        };
    }
    let whole = RECORD_HEADER + four_at(order, part, 8) as usize;
    let octets = take_up_to(whole, part, piece);
    let stage = if part.len() < whole {
        Stage::Part(order)
    } else {
        Stage::Whole(order)
    };
    Fed { octets, stage }
}

/// What the first octets of a record are, up to the end of its captured length.
fn stage_by_length(order: Order, part: &[u8]) -> Stage
    requires { length part.now ≤ 12 }
    ensures { IsByLength order part.now result }
{
    if part.len() < UP_TO_LENGTH {
        return Stage::Part(order);
    }
    let octets = four_at(order, part, 8);
    if octets > MOST_CAPTURED {
        Stage::Broken(PcapFault::RecordLength { octets })
    } else {
        Stage::Part(order)
    }
}

/// Takes octets of a piece until so many are held.
fn take_up_to(whole: usize, part: &mut Vec<u8>, piece: &[u8]) -> usize
    requires short { length part.old.items < whole }
    requires room { whole ≤ vec_capacity part.old }
    ensures count { result ≡ min (length piece.now) (whole - length part.old.items) }
    ensures items { part.new.items ≡ part.old.items ++ take result piece.now }
    ensures bytes { IsBytes part.new.items }
    ensures room { vec_capacity part.old ≤ vec_capacity part.new }
{
    let count = piece.len().min(whole - part.len());
    let Ok(()) = part.extend_from_slice(&piece[..count]) else {
        unreachable!()
    };
    count
}
