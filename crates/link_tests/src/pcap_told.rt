//! What a reader and a look into frames tell, as text.
ghost use Rattle.std.specs.Prelude.{◌≤◌};

use frame_links::pcap_frames::base::{NoMemory, push, push_decimal, push_hex};
use frame_links::pcap_frames::{PcapFault, PcapReader, Record, Seen, see};
use std::alloc::Global;

/// Appends what a file is read as that comes in pieces of so many octets: a line for each record, and how it ends.
fn tell(alloc: Global, file: &[u8], most: usize, out: &mut Vec<u8>) -> Result<(), NoMemory>
    requires { 1 ≤ most }
{
    let mut reader = PcapReader::new(alloc)?;
    tell_pieces(&mut reader, file, most, out)
}

/// Appends what a new reader reads a file as.
fn tell_pieces(
    reader: &mut PcapReader,
    file: &[u8],
    most: usize,
    out: &mut Vec<u8>,
) -> Result<(), NoMemory>
    requires { 1 ≤ most }
{
    let mut left = file;
    while !left.is_empty() {
        match reader.feed(&left[..most.min(left.len())]) {
            Ok(took) => {
                if took.whole {
                    tell_record(&reader.current(), out)?;
                }
                left = &left[took.octets..];
            }
            Err(fault) => return tell_fault(fault, out),
        }
    }
    match reader.end() {
        Ok(()) => push(b"end", out),
        Err(cut) => tell_number(b"cut ", cut.octets as u64, out),
    }
}

/// Appends a word and a number.
fn tell_number(word: &[u8], number: u64, out: &mut Vec<u8>) -> Result<(), NoMemory> {
    push(word, out)?;
    push_decimal(number, out)
}

/// Appends a record's seconds, fraction, original length and captured length, and what is seen in its frame.
pub(crate) fn tell_record(record: &Record<'_>, out: &mut Vec<u8>) -> Result<(), NoMemory> {
    let numbers = [
        u64::from(record.seconds),
        u64::from(record.fraction),
        u64::from(record.original),
        record.octets.len() as u64,
    ];
    tell_numbers(&numbers, out)?;
    tell_seen(record.octets, out)?;
    push(b"; ", out)
}

/// Appends numbers, each with a space behind it.
fn tell_numbers(numbers: &[u64], out: &mut Vec<u8>) -> Result<(), NoMemory> {
    for number in numbers {
        push_decimal(*number, out)?;
        push(b" ", out)?;
    }
    Ok(())
}

/// Appends what is seen in the octets of a frame.
pub(crate) fn tell_seen(octets: &[u8], out: &mut Vec<u8>) -> Result<(), NoMemory> {
    match see(octets) {
        Seen::Other => push(b"other", out),
        Seen::Cut => push(b"cut", out),
        Seen::Osi { to, from, pdu } => {
            push_hex(to.as_bytes(), out)?;
            push(b"-", out)?;
            push_hex(from.as_bytes(), out)?;
            push(b"-", out)?;
            push_hex(pdu, out)
        }
    }
}

/// Appends a fault.
fn tell_fault(fault: PcapFault, out: &mut Vec<u8>) -> Result<(), NoMemory> {
    match fault {
        PcapFault::Magic => push(b"magic", out),
        PcapFault::Version { major, minor } => {
            tell_number(b"version ", u64::from(major), out)?;
            tell_number(b".", u64::from(minor), out)
        }
        PcapFault::LinkType { value } => tell_number(b"link ", u64::from(value), out),
        PcapFault::RecordLength { octets } => tell_number(b"length ", u64::from(octets), out),
    }
}

/// Whether a file is read as this, in pieces of so many octets.
pub(crate) fn is_told(alloc: Global, file: &[u8], most: usize, want: &[u8]) -> bool
    requires { 1 ≤ most }
{
    let mut out = Vec::new(alloc);
    tell(alloc, file, most, &mut out).is_ok() && out.as_slice() == want
}
