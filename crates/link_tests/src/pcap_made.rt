//! Files made.
use frame_links::pcap_frames::base::{NoMemory, push_hex, push_unhex};
use frame_links::pcap_frames::nsaps::Snpa;
use frame_links::pcap_frames::{put_frame, put_header};
use std::alloc::Global;

/// All intermediate systems.
const TO: [u8; 6] = [0x09, 0, 0x2b, 0, 0, 5];

const FROM: [u8; 6] = [0x0a, 0, 0, 0, 0, 1];

/// An end system hello in hexadecimal digits.
const HELLO: &[u8] = b"820f0100020078324b010447002702";

/// The file of that hello in a frame, in hexadecimal digits.
const FILE: &[u8] = b"a1b2c3d400020004000000000000000000040000000000010000000000000000\
    0000003c0000003c09002b0000050a00000000010012fefe03820f0100020078324b010447002702\
    00000000000000000000000000000000000000000000000000000000";

/// Appends the record of a PDU to all intermediate systems, at a second.
pub(crate) fn put(seconds: u32, pdu: &[u8], out: &mut Vec<u8>) -> Result<(), NoMemory> {
    let (Ok(to), Ok(from)) = (Snpa::from_bytes(&TO), Snpa::from_bytes(&FROM)) else {
        return Err(NoMemory);
    };
    if to.as_bytes().len() != 6
        || from.as_bytes().len() != 6
        || pdu.is_empty()
        || pdu.len() > 1497
    {
        return Err(NoMemory);
    }
    put_frame(seconds, &to, &from, pdu, out)
}

/// Whether a PDU in hexadecimal digits makes this file, in hexadecimal digits.
fn is_made(alloc: Global, pdu: &[u8], want: &[u8]) -> bool {
    let (mut octets, mut file, mut digits) = (Vec::new(alloc), Vec::new(alloc), Vec::new(alloc));
    push_unhex(pdu, &mut octets).is_ok()
        && put_header(&mut file).is_ok()
        && put(0, &octets, &mut file).is_ok()
        && push_hex(&file, &mut digits).is_ok()
        && digits.as_slice() == want
}

#[test]
fn makes_a_file(rt: HostRuntime) {
    assert!(rt; is_made(rt.alloc(), HELLO, FILE));
}

/// How many octets the record of a PDU of so many zeros has, at most 1,497 and at least one.
fn size_made(alloc: Global, octets: usize) -> Option<usize> {
    let pdu = Vec::from_elem(alloc, 0, octets).ok()?;
    let mut record = Vec::new(alloc);
    put(0xffff_ffff, &pdu, &mut record).ok()?;
    Some(record.len())
}

/// How many octets a PDU has, and its record.
const SIZES: [(usize, usize); 5] = [(1, 76), (42, 76), (43, 76), (44, 77), (1497, 1530)];

#[test]
fn fills_up_to_60_octets(rt: HostRuntime) {
    for (octets, size) in &SIZES {
        assert!(rt; size_made(rt.alloc(), *octets) == Some(*size));
    }
}
