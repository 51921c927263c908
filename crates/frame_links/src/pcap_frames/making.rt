//! Files made.
ghost use Rattle.std.specs.Prelude.{◌≡◌, ◌+◌, ◌≤◌, ◌++◌, [], ◌∷◌, length, max, OnOk, OnErr, vec_capacity};
ghost use Rattle.byteorder.specs.Endian.{big_bytes};
ghost use Rattle.frame_links.specs.PcapFrames.File.{captured_octets, header_octets};
ghost use Rattle.frame_links.specs.PcapFrames.Making.{made_header, made_record};

use crate::pcap_frames::order::Order;
use byteorder::{BigEndian, ByteOrder};
use pdus::nsap::Snpa;
use pdus::nsap::base::NoMemory;

/// The header of each file that is made: microseconds, version 2.4, no zone, no accuracy, a snap length of 262,144
/// octets, and Ethernet.
const HEADER: [u8; 24] = [
    0xa1, 0xb2, 0xc3, 0xd4, 0, 2, 0, 4, 0, 0, 0, 0, 0, 0, 0, 0, 0, 4, 0, 0, 0, 0, 0, 1,
];

/// The least octets of an Ethernet frame.
const LEAST: usize = 60;

/// Appends the header of a file.
///
/// # Errors
///
/// `NoMemory`; `out` is then as it was.
#[tactic(auto, unfolding(crate::specs::PcapFrames::Numbers::number))]
pub fn put_header(out: &mut Vec<u8>) -> Result<(), NoMemory>
    ensures written { OnOk result (out.new.items ≡ out.old.items ++ header_octets Order.HighFirst made_header) }
    ensures same { OnErr result (out.new.items ≡ out.old.items) }
{
    pdus::nsap::base::push(&HEADER, out)
}

/// The most octets of zeros behind a PDU of one octet.
const ZEROS: [u8; 42] = [0; 42];

/// Appends the record of an OSI PDU in an Ethernet frame, which is filled with zeros to 60 octets: its second, its
/// destination and source, and no fraction.
///
/// # Errors
///
/// `NoMemory`; `out` is then as it was.
pub fn put_frame(
    seconds: u32,
    to: &Snpa,
    from: &Snpa,
    pdu: &[u8],
    out: &mut Vec<u8>,
) -> Result<(), NoMemory>
    requires to { length to.now ≡ 6 }
    requires from { length from.now ≡ 6 }
    requires some { 1 ≤ length pdu.now }
    requires few { length pdu.now ≤ 1497 }
    ensures written { OnOk result (out.new.items ≡ out.old.items ++ captured_octets Order.HighFirst
        (made_record (record { seconds = seconds; to = to.now; from = from.now; pdu = pdu.now }))) }
    ensures same { OnErr result (out.new.items ≡ out.old.items) }
{
    let unfilled = 17 + pdu.len();
    let size = filled_size(unfilled);
    out.reserve(16 + size)?;
    put_record_header(seconds, size as u32, out);
    put_frame_header(to, from, pdu.len() as u16 + 3, out);
    put(pdu, out);
    put(&ZEROS[..size - unfilled], out);
    Ok(())
}

/// How many octets a frame of so many has when it is filled.
fn filled_size(unfilled: usize) -> usize
    ensures { result ≡ max 60 unfilled }
{
    LEAST.max(unfilled)
}

/// Puts what stands in a record before a frame of so many octets.
fn put_record_header(seconds: u32, size: u32, out: &mut Vec<u8>)
    requires { length out.old.items + 16 ≤ vec_capacity out.old }
    ensures items { out.new.items ≡ out.old.items
        ++ (big_bytes 4 seconds ++ (big_bytes 4 0 ++ (big_bytes 4 size ++ big_bytes 4 size))) }
    ensures room { vec_capacity out.old ≤ vec_capacity out.new }
{
    put_four(seconds, out);
    put_four(0, out);
    put_four(size, out);
    put_four(size, out);
}

/// Puts what stands in a frame before its PDU.
fn put_frame_header(to: &Snpa, from: &Snpa, counted: u16, out: &mut Vec<u8>)
    requires to { length to.now ≡ 6 }
    requires from { length from.now ≡ 6 }
    requires room { length out.old.items + 17 ≤ vec_capacity out.old }
    ensures items { out.new.items ≡ out.old.items
        ++ (to.now ++ (from.now ++ (big_bytes 2 counted ++ (254 ∷ 254 ∷ 3 ∷ [])))) }
    ensures room { vec_capacity out.old ≤ vec_capacity out.new }
{
    put(to.as_bytes(), out);
    put(from.as_bytes(), out);
    let mut octets = [0; 2];
    BigEndian::write_u16(&mut octets, counted);
    put(&octets, out);
    put(&[0xfe, 0xfe, 0x03], out);
}

/// Puts a number of four octets, the highest first.
fn put_four(number: u32, out: &mut Vec<u8>)
    requires { length out.old.items + 4 ≤ vec_capacity out.old }
    ensures items { out.new.items ≡ out.old.items ++ big_bytes 4 number }
    ensures room { vec_capacity out.old ≤ vec_capacity out.new }
{
    let mut octets = [0; 4];
    BigEndian::write_u32(&mut octets, number);
    put(&octets, out);
}

/// Puts a piece where there is room for it.
fn put(piece: &[u8], out: &mut Vec<u8>)
    requires { length out.old.items + length piece.now ≤ vec_capacity out.old }
    ensures items { out.new.items ≡ out.old.items ++ piece.now }
    ensures room { vec_capacity out.old ≤ vec_capacity out.new }
{
    let Ok(()) = out.extend_from_slice(piece) else {
        unreachable!()
    };
}
