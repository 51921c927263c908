//! Frames as lines of text.

ghost use Rattle.std.specs.Prelude.{◌≡◌, ◌++◌, OnOk, OnErr, option_map, ℕ, List};
ghost use Rattle.pdus.specs.PduHeader.View.{pdu_value, part_value};
ghost use Rattle.captures.specs.Kept.{Keeps};
ghost use Rattle.captures.specs.Shown.{Shows, refusal_text, front_text, kind_and_flags_text, part_text, segmentation_text, value_text};

use crate::esis::push_other;
use crate::words::{flags_text, push_octets, push_options, push_pair, report_text};
use pdus::esis_pdus::base::{NoMemory, push, push_number};
use pdus::esis_pdus::clnp::{Broken, Pdu, Refusal, SegPart, decode};

/// Appends the line that shows a frame, without a `\n` (ISO 8473, sections 7 and 7.9.5).
///
/// A PDU is shown by its kind, its flags, its lifetime in ticks of 500 ms, its checksum, its
/// addresses, its segmentation part, its options, its data and what follows it in its frame:
/// `clnp dt e life=10 sum=ce58 to=47002701 from=47002702 data=6869 rest=`. A refused frame is shown
/// by the rule that it breaks, the reason, the place, and whether an error report of its discard is
/// made: `refused G5 02 00 report`.
///
/// An ES-IS PDU (ISO 9542, section 7) is shown by its kind, its holding time in seconds, its checksum, its
/// addresses, its options and what follows it: `ish hold=120 sum=b1cd title=470027ff rest=`. A refused
/// frame that begins with 0x82 is shown by the rule that it breaks and the place: `refused E7 08`. Every
/// other frame is shown as `alien`.
///
/// # Errors
///
/// `NoMemory`; `out` is then as it was.
pub fn show_line(frame: &[u8], out: &mut Vec<u8>) -> Result<(), NoMemory>
    ensures shown { OnOk result ((line : List ℕ) × Shows frame.now line × (out.new.items ≡ out.old.items ++ line)) }
    ensures same { OnErr result (out.new.items ≡ out.old.items) }
{
    let start = out.len();
    let shown = push_shown(frame, out);
    if shown.is_err() {
        out.truncate(start);
    }
    shown
}

/// Appends the text of a frame.
fn push_shown(frame: &[u8], line: &mut Vec<u8>) -> Result<(), NoMemory>
    ensures written { OnOk result ((text : List ℕ) × Shows frame.now text × (line.new.items ≡ line.old.items ++ text)) }
    ensures kept { OnErr result (Keeps line.old.items line.new.items) }
{
    match decode(frame) {
        Ok(pdu) => push_pdu(&pdu, line),
        Err(Refusal::NotClnp) => push_other(frame, line),
        Err(Refusal::Broken(broken)) => push_broken(broken, line),
    }
}

/// Appends the text of a refused frame.
fn push_broken(broken: Broken, line: &mut Vec<u8>) -> Result<(), NoMemory>
    ensures written { OnOk result (line.new.items ≡ line.old.items
        ++ refusal_text broken.rule broken.reason broken.place broken.reportable) }
    ensures kept { OnErr result (Keeps line.old.items line.new.items) }
{
    push_number(b"refused G", u64::from(broken.rule), line)?;
    push_octets(b" ", &[broken.reason], line)?;
    push_octets(b" ", &[broken.place], line)?;
    push(b" ", line)?;
    push(report_text(broken.reportable), line)
}

/// Appends the text of a PDU and of what follows it in its frame.
fn push_pdu(pdu: &Pdu<'_>, line: &mut Vec<u8>) -> Result<(), NoMemory>
    ensures written { OnOk result (line.new.items ≡ line.old.items
        ++ value_text (pdu_value pdu.now) pdu.now.sum pdu.now.rest.now) }
    ensures kept { OnErr result (Keeps line.old.items line.new.items) }
{
    push_front(pdu, line)?;
    push_segmentation(pdu.seg, line)?;
    push_options(pdu.options, line)?;
    push_octets(b" data=", pdu.body, line)?;
    push_octets(b" rest=", pdu.rest, line)
}

/// Appends what the text of a PDU begins with, up to its addresses.
#[tactic(auto, unfolding(crate::specs::Shown::front_text))]
fn push_front(pdu: &Pdu<'_>, line: &mut Vec<u8>) -> Result<(), NoMemory>
    ensures written { OnOk result (line.new.items ≡ line.old.items ++ front_text (pdu_value pdu.now) pdu.now.sum) }
    ensures kept { OnErr result (Keeps line.old.items line.new.items) }
{
    push_kind(pdu, line)?;
    push_number(b" life=", u64::from(pdu.life), line)?;
    push_pair(b" sum=", pdu.sum, line)?;
    push_octets(b" to=", pdu.to.as_bytes(), line)?;
    push_octets(b" from=", pdu.from.as_bytes(), line)
}

/// Appends the kind and the flags of a PDU.
fn push_kind(pdu: &Pdu<'_>, line: &mut Vec<u8>) -> Result<(), NoMemory>
    ensures written { OnOk result (line.new.items ≡ line.old.items ++ kind_and_flags_text (pdu_value pdu.now)) }
    ensures kept { OnErr result (Keeps line.old.items line.new.items) }
{
    push(b"clnp ", line)?;
    push(pdu.kind.word(), line)?;
    push(b" ", line)?;
    push(flags_text(pdu.seg.is_some(), pdu.more, pdu.report), line)
}

/// Appends the segmentation part, if there is one.
fn push_segmentation(part: Option<SegPart>, line: &mut Vec<u8>) -> Result<(), NoMemory>
    ensures written { OnOk result (line.new.items ≡ line.old.items ++ segmentation_text (option_map part_value part)) }
    ensures kept { OnErr result (Keeps line.old.items line.new.items) }
{
    match part {
        None => Ok(()),
        Some(part) => push_part(part, line),
    }
}

/// Appends a segmentation part.
fn push_part(part: SegPart, line: &mut Vec<u8>) -> Result<(), NoMemory>
    ensures written { OnOk result (line.new.items ≡ line.old.items ++ part_text (part_value part)) }
    ensures kept { OnErr result (Keeps line.old.items line.new.items) }
{
    push_pair(b" id=", part.id, line)?;
    push_number(b" off=", u64::from(part.offset), line)?;
    push_number(b" total=", u64::from(part.total), line)
}
