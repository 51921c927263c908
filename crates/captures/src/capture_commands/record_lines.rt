//! The line of a record.
ghost use Rattle.std.specs.Prelude.{◌≡◌, ◌∷◌, ◌++◌, [], ℕ, List, OnOk, codes};
ghost use Rattle.std.specs.Fmt.{decimal};
ghost use Rattle.pdus.specs.Nsap.Text.{hex_text};
ghost use Rattle.frame_links.specs.PcapFrames.View.{captured_value, seen_value};
ghost use Rattle.captures.specs.CaptureCommands.Lines.{ShowsSeen, TellsRecord, line_seen};
ghost use Rattle.captures.specs.CaptureCommands.Stations.{destination_word, frame_line};

use crate::capture_commands::form::Form;
use crate::capture_commands::stations::push_destination;
use crate::many::show_line;
use clnp_base::command_base::base::{NoMemory, push, push_decimal, push_hex};
use clnp_base::command_base::push_number;
use frame_links::pcap_frames::nsaps::Snpa;
use frame_links::pcap_frames::{Record, Seen, see};

/// Appends the line of the record with this number, from 1, and its end.
pub(crate) fn push_record(
    form: Form,
    number: u32,
    captured: &Record<'_>,
    out: &mut Vec<u8>,
) -> Result<(), NoMemory>
    ensures { OnOk result ((line : List ℕ) × TellsRecord form number (captured_value captured.now) line
        × (out.new.items ≡ (out.old.items ++ line) ++ (10 ∷ []))) }
{
    let seen = see(captured.octets);
    match form {
        Form::Shown => push_shown(number, &seen, out)?,
        Form::Remade => push_remade(number, captured.seconds, &seen, out)?,
    }
    push(b"\n", out)
}

/// Appends the line of `pcap-show`: `N other`, `N cut`, or `N DST SRC` and the line that shows the PDU.
fn push_shown(number: u32, seen: &Seen<'_>, out: &mut Vec<u8>) -> Result<(), NoMemory>
    ensures { OnOk result ((line : List ℕ) × ShowsSeen number (seen_value seen.now) line
        × (out.new.items ≡ out.old.items ++ line)) }
{
    push_decimal(u64::from(number), out)?;
    match *seen {
        Seen::Other => push(b" other", out),
        Seen::Cut => push(b" cut", out),
        Seen::Osi { to, from, pdu } => {
            push_stations(&to, &from, out)?;
            show_line(pdu, out)
        }
    }
}

/// Appends a destination and a source, each with a space before it, and a space.
fn push_stations(to: &Snpa, from: &Snpa, out: &mut Vec<u8>) -> Result<(), NoMemory>
    ensures { OnOk result (out.new.items ≡ out.old.items
        ++ (codes " " ++ (destination_word to.now ++ (codes " " ++ (hex_text from.now ++ codes " "))))) }
{
    push(b" ", out)?;
    push_destination(to, out)?;
    push(b" ", out)?;
    push_hex(from.as_bytes(), out)?;
    push(b" ", out)
}

/// Appends the line of `pcap-lines`: `SECONDS DST SRC HEX`, or `# N` and what the record is.
fn push_remade(
    number: u32,
    seconds: u32,
    seen: &Seen<'_>,
    out: &mut Vec<u8>,
) -> Result<(), NoMemory>
    ensures { OnOk result (out.new.items ≡ out.old.items ++ line_seen number seconds (seen_value seen.now)) }
{
    match *seen {
        Seen::Other => push_remark(number, b" other", out),
        Seen::Cut => push_remark(number, b" cut", out),
        Seen::Osi { pdu: [], .. } => push_remark(number, b" empty", out),
        Seen::Osi { to, from, pdu } => push_frame(seconds, &to, &from, pdu, out),
    }
}

/// Appends a remark on a record, which `pcap-make` skips.
fn push_remark(number: u32, remark: &[u8], out: &mut Vec<u8>) -> Result<(), NoMemory>
    ensures { OnOk result (out.new.items ≡ out.old.items ++ (codes "# " ++ (decimal number ++ remark.now))) }
{
    push_number(b"# ", u64::from(number), out)?;
    push(remark, out)
}

/// Appends the line of a frame.
fn push_frame(
    seconds: u32,
    to: &Snpa,
    from: &Snpa,
    pdu: &[u8],
    out: &mut Vec<u8>,
) -> Result<(), NoMemory>
    ensures { OnOk result (out.new.items ≡ out.old.items
        ++ frame_line (record { seconds = seconds; to = to.now; from = from.now; pdu = pdu.now })) }
{
    push_decimal(u64::from(seconds), out)?;
    push_stations(to, from, out)?;
    push_hex(pdu, out)
}
