//! The command that makes a file of lines.
ghost use Rattle.std.specs.Prelude.{◌≡◌, ◌≤◌, ◌+◌, ◌∷◌, ◌++◌, [], ℕ, List, Option, Err, OnOk, length};
ghost use Rattle.clnp_base.specs.Streams.{Rose};
ghost use Rattle.clnp_base.specs.Text.{lines_of};
ghost use Rattle.clnp_base.specs.CommandBase.ByLine.{Midway, NextOf, PushOf, task_of};
ghost use Rattle.clnp_base.specs.CommandBase.ComesAs.{ComesAs, most_input};
ghost use Rattle.frame_links.specs.PcapFrames.File.{captured_octets};
ghost use Rattle.frame_links.specs.PcapFrames.Making.{IsFrame, made_record};
ghost use Rattle.frame_links.specs.declared.pcap_frames.order.Order.TheVariants as order;
ghost use Rattle.captures.specs.CaptureCommands.Make.{make_task, making};
ghost use Rattle.captures.specs.CaptureCommands.ReadLine.{frame_value};

use crate::capture_commands::frame_line::{Envelope, read_frame};
use clnp_base::command_base::base::{Sink, is_skipped, next_line};
use clnp_base::command_base::{
    LineFault, LineStop, Status, flush, refuse, write_block, write_full_block,
};
use frame_links::pcap_frames::{put_frame, put_header};
use std::alloc::Global;

/// Writes the file of the frames of lines `SECONDS DST SRC HEX`, up to the first bad line. A line that is empty or
/// begins with `#` is skipped. Each frame is filled with zeros to 60 octets.
///
/// The codes of bad lines are `SYNTAX` for another number of words, `NUMBER` for seconds that are no decimal below
/// 2^32, `ADDRESS` for a destination, a source or a PDU that is none, and `COUNT` for a PDU of more than 1,497 octets.
pub fn pcap_make<K: Sink>(alloc: Global, text: &[u8], sink: &mut K) -> Status
    requires { length text.now ≤ most_input }
    ensures later { K.faults sink.old ≤ K.faults sink.new }
    ensures comes_to { ComesAs (make_task (lines_of text.now)) (K.written sink.old) (K.written sink.new) result }
    ensures failed { result ≡ Status.WriteFault → Rose (K.faults sink.old) (K.faults sink.new) }
{
    let mut block = Vec::new(alloc);
    let Ok(()) = put_header(&mut block) else {
        return Status::NoMemory;
    };
    match flush(&mut block, sink) {
        Ok(()) => make_records(alloc, text, &mut block, sink),
        Err(_) => Status::WriteFault,
    }
}

/// Writes the records of the frames of lines, up to the first bad line. The block is empty.
fn make_records<K: Sink>(alloc: Global, text: &[u8], block: &mut Vec<u8>, sink: &mut K) -> Status
    requires few { length text.now ≤ most_input }
    requires empty { block.old.items ≡ [] }
    ensures later { K.faults sink.old ≤ K.faults sink.new }
    ensures comes_to { ComesAs (task_of making 1 (lines_of text.now)) (K.written sink.old) (K.written sink.new) result }
    ensures failed { result ≡ Status.WriteFault → Rose (K.faults sink.old) (K.faults sink.new) }
{
    let mut pdu = Vec::new(alloc);
    let mut number = 0u32;
    let mut left = text;
    while let Some((line, others)) = next_line(left) {
        number += 1;
        match make_next(line, &mut pdu, block, sink) {
            Ok(()) => left = others,
            Err(stop) => return stop.status(number),
        }
    }
    match write_block(block, sink) {
        Ok(()) => Status::Done,
        Err(_) => Status::WriteFault,
    }
}

/// Puts the record of the next line into the block, and writes the block where it is full or the line is bad. `pdu` is
/// a list to use for its PDU.
fn make_next<K: Sink>(
    line: &[u8],
    pdu: &mut Vec<u8>,
    block: &mut Vec<u8>,
    sink: &mut K,
) -> Result<(), LineStop>
    ensures later { K.faults sink.old ≤ K.faults sink.new }
    ensures comes_to { (all left : List (List ℕ)) (number : ℕ) (before : Option (List ℕ))
        → Midway making 1 number all (line.now ∷ left) before (K.written sink.old) block.old.items
        → NextOf making 1 (λ done. number + 1) all left number before (K.written sink.new) block.new.items result }
    ensures failed { result ≡ Err LineStop.WriteFault → Rose (K.faults sink.old) (K.faults sink.new) }
{
    match push_line(line, pdu, block) {
        Ok(()) => write_full_block(block, sink),
        Err(fault) => Err(refuse(fault, block, sink)),
    }
}

/// Puts the record of the frame of a line into the block, if it has one.
fn push_line(line: &[u8], pdu: &mut Vec<u8>, block: &mut Vec<u8>) -> Result<(), LineFault>
    ensures { (number : ℕ) → PushOf making number
        (λ done. number + 1) number line.now block.old.items block.new.items result }
{
    if is_skipped(line) {
        return Ok(());
    }
    pdu.clear();
    match read_frame(line, pdu) {
        Ok(envelope) => put(&envelope, pdu, block),
        Err(fault) => Err(fault),
    }
}

/// Puts the record of a frame into the block.
fn put(envelope: &Envelope, pdu: &[u8], block: &mut Vec<u8>) -> Result<(), LineFault>
    requires { IsFrame (frame_value envelope.now pdu.now) }
    ensures written { OnOk result (block.new.items ≡ block.old.items
        ++ captured_octets order.HighFirst (made_record (frame_value envelope.now pdu.now))) }
    ensures refused { (fault : LineFault) → result ≡ Err fault → fault ≡ LineFault.NoMemory }
{
    match put_frame(envelope.seconds, &envelope.to, &envelope.from, pdu, block) {
        Ok(()) => Ok(()),
        Err(_) => Err(LineFault::NoMemory),
    }
}
