//! Files, whole and in pieces.
ghost use Rattle.std.specs.Prelude.{◌≤◌};

use crate::pcap_told::is_told;
use frame_links::pcap_frames::base::push_unhex;
use frame_links::pcap_frames::{PcapFault, PcapReader};
use std::alloc::Global;

/// A file: its first 24 octets and what follows, in hexadecimal digits, and what it is read as.
type Row = (&'static [u8], &'static [u8], &'static [u8]);

/// The header of a file of microseconds with the highest octet of each number first, in hexadecimal digits.
const HEADER: &[u8] = b"a1b2c3d40002000400000000000000000004000000000001";

/// Files with the highest octet of each number first.
const HIGH_FIRST: [Row; 8] = [
    // Microseconds, the highest octet first.
    (
        b"a1b2c3d40002000400000000000000000004000000000001",
        b"0000000100000002000000140000003c09002b0000050a00000000010004fefe03820000",
        b"1 2 60 20 09002b000005-0a0000000001-82; end",
    ),
    // Nanoseconds, the highest octet first.
    (
        b"a1b23c4d00020004000000070000000900000003f0000001",
        b"fedcba983b9ac9ff000000140000001409002b0000050a00000000010004fefe0382000000000005000000060000000000000000",
        b"4275878552 999999999 20 20 09002b000005-0a0000000001-82; 5 6 0 0 other; end",
    ),
    // Another magic number, the highest octet first.
    (
        b"a1b2c3d50002000400000000000000000004000000000001",
        b"",
        b"magic",
    ),
    // Another version, the highest octet first.
    (
        b"a1b2c3d40003000400000000000000000004000000000009",
        b"",
        b"version 3.4",
    ),
    // Another version, the highest octet first.
    (
        b"a1b2c3d40002000300000000000000000004000000000001",
        b"",
        b"version 2.3",
    ),
    // Another link type, the highest octet first.
    (
        b"a1b2c3d40002000400000000000000000004000000000071",
        b"",
        b"link 113",
    ),
    // A link type whose low 16 bits aren't 1, the highest octet first.
    (
        b"a1b2c3d40002000400000000000000000004000000010002",
        b"",
        b"link 65538",
    ),
    // A captured length that is too great, behind a record, the highest octet first.
    (
        b"a1b2c3d40002000400000000000000000004000000000001",
        b"000000010000000200000001000000010100000003000000040004000100000000",
        b"1 2 1 1 other; length 262145",
    ),
];

/// Files with the lowest octet of each number first.
const LOW_FIRST: [Row; 8] = [
    // Microseconds, the lowest octet first.
    (
        b"d4c3b2a10200040000000000000000000000040001000000",
        b"0100000002000000140000003c00000009002b0000050a00000000010004fefe03820000",
        b"1 2 60 20 09002b000005-0a0000000001-82; end",
    ),
    // Nanoseconds, the lowest octet first.
    (
        b"4d3cb2a102000400070000000900000003000000010000f0",
        b"98badcfeffc99a3b140000001400000009002b0000050a00000000010004fefe0382000005000000060000000000000000000000",
        b"4275878552 999999999 20 20 09002b000005-0a0000000001-82; 5 6 0 0 other; end",
    ),
    // Another magic number, the lowest octet first.
    (
        b"d5c3b2a10200040000000000000000000000040001000000",
        b"",
        b"magic",
    ),
    // Another version, the lowest octet first.
    (
        b"d4c3b2a10300040000000000000000000000040009000000",
        b"",
        b"version 3.4",
    ),
    // Another version, the lowest octet first.
    (
        b"d4c3b2a10200030000000000000000000000040001000000",
        b"",
        b"version 2.3",
    ),
    // Another link type, the lowest octet first.
    (
        b"d4c3b2a10200040000000000000000000000040071000000",
        b"",
        b"link 113",
    ),
    // A link type whose low 16 bits aren't 1, the lowest octet first.
    (
        b"d4c3b2a10200040000000000000000000000040002000100",
        b"",
        b"link 65538",
    ),
    // A captured length that is too great, behind a record, the lowest octet first.
    (
        b"d4c3b2a10200040000000000000000000000040001000000",
        b"010000000200000001000000010000000103000000040000000100040000000000",
        b"1 2 1 1 other; length 262145",
    ),
];

/// Files that end at a boundary or within a part, and what is no file.
const ENDS: [Row; 14] = [
    // Pcapng.
    (
        b"0a0d0d0a1c0000004d3c2b1a010000000000000000000000",
        b"0000",
        b"magic",
    ),
    // Nothing.
    (b"", b"", b"cut 0"),
    // An octet.
    (b"a1", b"", b"cut 1"),
    // A header but for an octet.
    (
        b"a1b2c3d400020004000000000000000000040000000000",
        b"",
        b"cut 23",
    ),
    // A wrong header but for an octet.
    (
        b"a1b2c3d400020004000000000000000000040000000000",
        b"",
        b"cut 23",
    ),
    // A header alone.
    (
        b"d4c3b2a10200040000000000000000000000040001000000",
        b"",
        b"end",
    ),
    // An octet of a record.
    (
        b"d4c3b2a10200040000000000000000000000040001000000",
        b"00",
        b"cut 1",
    ),
    // A captured length that is too great, but for an octet.
    (
        b"a1b2c3d40002000400000000000000000004000000000001",
        b"0000000100000002ffffff",
        b"cut 11",
    ),
    // A captured length that is too great, and no more.
    (
        b"a1b2c3d40002000400000000000000000004000000000001",
        b"0000000100000002ffffffff",
        b"length 4294967295",
    ),
    // A record up to its captured length.
    (
        b"a1b2c3d40002000400000000000000000004000000000001",
        b"000000010000000200000001",
        b"cut 12",
    ),
    // A record before its frame.
    (
        b"a1b2c3d40002000400000000000000000004000000000001",
        b"00000001000000020000000100000001",
        b"cut 16",
    ),
    // A record but for an octet, behind another.
    (
        b"a1b2c3d40002000400000000000000000004000000000001",
        b"000000010000000200000000000000000000000300000004000000020000000201",
        b"1 2 0 0 other; cut 17",
    ),
    // A hello in a frame that is filled with zeros.
    (
        b"a1b2c3d40002000400000000000000000004000000000001",
        b"00000000000000000000003c0000003c09002b0000050a00000000010012fefe03820f0100020078324b01044700270200000000000000000000000000000000000000000000000000000000",
        b"0 0 60 60 09002b000005-0a0000000001-820f0100020078324b010447002702; end",
    ),
    // The same but for its last octet.
    (
        b"a1b2c3d40002000400000000000000000004000000000001",
        b"00000000000000000000003c0000003c09002b0000050a00000000010012fefe03820f0100020078324b010447002702000000000000000000000000000000000000000000000000000000",
        b"cut 75",
    ),
];

/// Whether a file in hexadecimal digits is read as this, in pieces of so many octets.
fn is_read(alloc: Global, row: &Row, most: usize) -> bool
    requires { 1 ≤ most }
{
    let mut file = Vec::new(alloc);
    push_unhex(row.0, &mut file).is_ok()
        && push_unhex(row.1, &mut file).is_ok()
        && is_told(alloc, &file, most, row.2)
}

/// Whether each file is read as it says, in pieces of one octet, of 13 and whole.
fn are_read(alloc: Global, rows: &[Row]) -> bool {
    for row in rows {
        if !(is_read(alloc, row, 1) && is_read(alloc, row, 13) && is_read(alloc, row, 4096)) {
            return false;
        }
    }
    true
}

#[test]
fn reads_files_with_the_highest_octet_first(rt: HostRuntime) {
    assert!(rt; are_read(rt.alloc(), &HIGH_FIRST));
}

#[test]
fn reads_files_with_the_lowest_octet_first(rt: HostRuntime) {
    assert!(rt; are_read(rt.alloc(), &LOW_FIRST));
}

#[test]
fn says_how_files_end(rt: HostRuntime) {
    assert!(rt; are_read(rt.alloc(), &ENDS));
}

/// Whether a header, 16 octets of a record, and so many zeros are read as this.
fn is_long_read(alloc: Global, record: &[u8], zeros: usize, want: &[u8]) -> bool {
    let mut file = Vec::new(alloc);
    push_unhex(HEADER, &mut file).is_ok()
        && push_unhex(record, &mut file).is_ok()
        && file.resize(file.len().saturating_add(zeros), 0).is_ok()
        && is_told(alloc, &file, 4096, want)
}

#[test]
fn reads_262144_octets_and_no_more(rt: HostRuntime) {
    let longest = b"00000001000000020004000000040000";
    let want = b"1 2 262144 262144 other; end";
    assert!(rt; is_long_read(rt.alloc(), longest, 262_144, want));
    let longer = b"00000001000000020004000100040001";
    assert!(rt; is_long_read(rt.alloc(), longer, 0, b"length 262145"));
}

/// Whether a new reader tells a fault, and tells it again.
fn is_faulty(reader: &mut PcapReader) -> bool {
    reader.feed(&[0; 30]) == Err(PcapFault::Magic)
        && reader.feed(b"") == Err(PcapFault::Magic)
        && reader.end().is_ok()
}

#[test]
fn tells_a_fault_again(rt: HostRuntime) {
    let mut reader = PcapReader::new(rt.alloc()).expect(&rt, "memory");
    assert!(rt; is_faulty(&mut reader));
}
