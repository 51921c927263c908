//! The commands that tell the records of a file as lines, while they read it.
ghost use Rattle.std.specs.Prelude.{◌≡◌, ◌≢◌, ◌+◌, ◌<◌, ◌≤◌, ◌++◌, [], ℕ, List, Option, Some, IfNone, length};
ghost use Rattle.std.specs.Io.KnownBytes.{Consumes, IsAtEnd};
ghost use Rattle.hex.specs.Hex.{IsBytes};
ghost use Rattle.captures.specs.Shown.{Shows};
ghost use Rattle.clnp_base.specs.Streams.{Rose};
ghost use Rattle.captures.specs.CaptureCommands.Called.{most_octets};
ghost use Rattle.captures.specs.CaptureCommands.Serves.{ServesFile};
ghost use Rattle.captures.specs.CaptureCommands.Underway.{GoesOn, NextOf, Told};

use crate::capture_commands::form::Form;
use crate::capture_commands::teller::Teller;
use crate::laws;
use clnp_base::command_base::Status;
use clnp_base::command_base::base::{Sink, Source};
use std::alloc::Global;

/// The most octets of a file.
const MOST: usize = 1_073_741_824;

/// How many octets are asked for in one read.
const CHUNK: usize = 65_536;

/// Writes a line of each record of a file, while it reads the file: `N other`, `N cut`, or `N DST SRC` and the line
/// that shows the PDU of an OSI frame (ISO 8802-3, ISO 8802-2).
///
/// It stops at the first fault of the file. Where no such fault was met, it stops at a fault of the source, or where
/// more than 1,073,741,824 octets came. In each case the lines of exactly those records were written that came whole
/// before.
///
/// Before it reads, which may wait, it writes the lines of all records that came whole so far.
pub fn pcap_show<S: Source, K: Sink>(alloc: Global, source: &mut S, sink: &mut K) -> Status
    ensures later { (S.faults source.old ≤ S.faults source.new) × (K.faults sink.old ≤ K.faults sink.new) }
    ensures serves { ServesFile Form.Shown (S.left source.old) (S.left source.new)
        (K.written sink.old) (K.written sink.new)
        (Rose (S.faults source.old) (S.faults source.new)) (Rose (K.faults sink.old) (K.faults sink.new)) result }
{
    tell_file(alloc, Form::Shown, source, sink)
}

/// Writes for each OSI frame of a file, while it reads the file, the line of which `pcap-make` makes the frame again,
/// `SECONDS DST SRC HEX`; and for every other record `# N other`, `# N cut`, or `# N empty` where the PDU has no
/// octets.
///
/// It stops where `pcap_show` does.
pub fn pcap_lines<S: Source, K: Sink>(alloc: Global, source: &mut S, sink: &mut K) -> Status
    ensures later { (S.faults source.old ≤ S.faults source.new) × (K.faults sink.old ≤ K.faults sink.new) }
    ensures serves { ServesFile Form.Remade (S.left source.old) (S.left source.new)
        (K.written sink.old) (K.written sink.new)
        (Rose (S.faults source.old) (S.faults source.new)) (Rose (K.faults sink.old) (K.faults sink.new)) result }
{
    tell_file(alloc, Form::Remade, source, sink)
}

/// Writes a line of each record of a file, while it reads the file.
fn tell_file<S: Source, K: Sink>(alloc: Global, form: Form, source: &mut S, sink: &mut K) -> Status
    ensures later { (S.faults source.old ≤ S.faults source.new) × (K.faults sink.old ≤ K.faults sink.new) }
    ensures serves { ServesFile form (S.left source.old) (S.left source.new) (K.written sink.old) (K.written sink.new)
        (Rose (S.faults source.old) (S.faults source.new)) (Rose (K.faults sink.old) (K.faults sink.new)) result }
{
    let Ok(mut teller) = Teller::new(alloc, form) else {
        return Status::NoMemory;
    };
    let Ok(mut chunk) = vec![in alloc; 0u8; CHUNK] else {
        return Status::NoMemory;
    };
    let chunk = chunk.as_mut_slice();
    loop {
        let most = (MOST - teller.size).min(CHUNK - 1) + 1;
        if let Some(answer) = take_next(source, &mut chunk[..most], &mut teller, sink) {
            return answer;
        }
    }
}

/// Reads once into `chunk`, and has the teller take what came. Gives the answer where there is one. At most one octet
/// more comes than a file may have.
///
/// A read may wait, so no line waits for it: before it the lines of all records that came whole are written
/// (`none_waits`, and `GoesOn` in `comes_to`), and they are again where there is no answer yet.
fn take_next<S: Source, K: Sink>(
    source: &mut S,
    chunk: &mut [u8],
    teller: &mut Teller,
    sink: &mut K,
) -> Option<Status>
    requires some { 0 < length chunk.old }
    requires few { teller.old.size + length chunk.old ≤ most_octets + 1 }
    requires size { teller.old.size ≤ most_octets }
    requires counted { teller.old.number ≤ teller.old.size }
    requires none_waits { teller.old.block.items ≡ [] }
    ensures later { (S.faults source.old ≤ S.faults source.new) × (K.faults sink.old ≤ K.faults sink.new) }
    ensures size { IfNone result ((teller.old.size < teller.new.size) × (teller.new.size ≤ most_octets)) }
    ensures counted { IfNone result (teller.new.number ≤ teller.new.size) }
    ensures form { IfNone result (teller.new.form ≡ teller.old.form) }
    ensures none_waits { IfNone result (teller.new.block.items ≡ []) }
    ensures comes_to { (left before : Option (List ℕ))
        → GoesOn teller.old left (S.left source.old) before (K.written sink.old)
        → NextOf teller.old.form teller.new left (S.left source.new) before (K.written sink.new) result }
    ensures read_fault { result ≡ Some Status.ReadFault → Rose (S.faults source.old) (S.faults source.new) }
    ensures write_fault { result ≡ Some Status.WriteFault → Rose (K.faults sink.old) (K.faults sink.new) }
{
    match source.read(chunk) {
        Ok(came) => take_piece(&chunk[..came], teller, sink),
        Err(_) => Some(Status::ReadFault),
    }
}

/// Each frame of octets has a line that shows it.
fn every_frame_is_shown()
    ensures { (frame : List ℕ) → IsBytes frame → (line : List ℕ) × Shows frame line }
{
    // Its clause `some`.
    laws::one_line();
}

/// Has the teller take a piece that came, of which at most one octet is beyond what a file may have; no octets came at the
/// end of the file alone. Gives the answer where there is one.
fn take_piece<K: Sink>(piece: &[u8], teller: &mut Teller, sink: &mut K) -> Option<Status>
    requires few { teller.old.size + length piece.now ≤ most_octets + 1 }
    requires size { teller.old.size ≤ most_octets }
    requires counted { teller.old.number ≤ teller.old.size }
    ensures later { K.faults sink.old ≤ K.faults sink.new }
    ensures size { IfNone result ((teller.old.size < teller.new.size) × (teller.new.size ≤ most_octets)) }
    ensures counted { IfNone result (teller.new.number ≤ teller.new.size) }
    ensures form { IfNone result (teller.new.form ≡ teller.old.form) }
    ensures none_waits { IfNone result (teller.new.block.items ≡ []) }
    ensures comes_to { (taken : List ℕ) (left_before left_after before : Option (List ℕ))
        → Told teller.old taken before (K.written sink.old)
        → Consumes left_before left_after (taken ++ piece.now)
        → (length piece.now ≡ 0 → IsAtEnd left_after)
        → NextOf teller.old.form teller.new left_before left_after before (K.written sink.new) result }
    ensures read_fault { result ≢ Some Status.ReadFault }
    ensures write_fault { result ≡ Some Status.WriteFault → Rose (K.faults sink.old) (K.faults sink.new) }
{
    // Its clause: frames behind a stop have their lines too.
    every_frame_is_shown();
    if piece.is_empty() {
        return Some(teller.end());
    }
    let room = MOST - teller.size;
    let within = piece.len().min(room);
    match teller.take(&piece[..within], sink) {
        Ok(()) => {
            if piece.len() <= room {
                return None;
            }
            Some(Status::TooLong)
        }
        Err(answer) => Some(answer),
    }
}
