//! Files played by a link.
ghost use Rattle.std.specs.Prelude.{◌≤◌, length};

use crate::pcap_made::put;
use frame_links::pcap_frames::base::{Failed, NoMemory, push, push_hex, push_unhex};
use frame_links::pcap_frames::links::{Got, Link};
use frame_links::pcap_frames::nsaps::Target;
use frame_links::pcap_frames::{PcapLink, put_header};
use std::alloc::Global;

/// A file, its first 24 octets and what follows, in hexadecimal digits; how many looks are made, and what they see.
type Row = (&'static [u8], &'static [u8], u32, &'static [u8]);

/// The header of a file of microseconds with the highest octet of each number first, in hexadecimal digits.
const HIGH: &[u8] = b"a1b2c3d40002000400000000000000000004000000000001";

/// The header of a file of microseconds with the lowest octet of each number first, in hexadecimal digits.
const LOW: &[u8] = b"d4c3b2a10200040000000000000000000000040001000000";

/// Files whose frames come.
const FILES: [Row; 7] = [
    // A hello in a frame that is filled with zeros.
    (
        HIGH,
        b"00000000000000000000003c0000003c09002b0000050a00000000010012fefe03820f0100020078324b01044700270200000000000000000000000000000000000000000000000000000000",
        3,
        b"0a0000000001*820f0100020078324b010447002702; none; none; ",
    ),
    // The lowest octet first.
    (
        LOW,
        b"0100000002000000140000003c00000009002b0000040a00000000010004fefe03820000",
        2,
        b"0a0000000001*82; none; ",
    ),
    // Nanoseconds, the highest octet first.
    (
        b"a1b23c4d00020004000000070000000900000003f0000001",
        b"fedcba983b9ac9ff000000140000001409002b0000050a00000000010004fefe0382000000000005000000060000000000000000",
        2,
        b"0a0000000001*82; none; ",
    ),
    // Nanoseconds, the lowest octet first.
    (
        b"4d3cb2a102000400070000000900000003000000010000f0",
        b"98badcfeffc99a3b140000001400000000000000000a0a00000000010004fefe0382000005000000060000000000000000000000",
        2,
        b"0a0000000001-82; none; ",
    ),
    // Frames without an OSI PDU, a frame that is cut, one whose PDU has no octets, and one to another group.
    (
        HIGH,
        b"00000005000000060000000000000000\
          000000010000000200000012000000120000000000010a00000000020004fefe0381\
          000000010000000200000012000000120000000000010a00000000020005fefe0382\
          000000010000000200000012000000120000000000010a00000000020800fefe0383\
          0000000100000002000000110000001109002b0000040a00000000030003fefe03\
          0000000100000002000000120000001209002b0000060a00000000040004fefe0384\
          00000005000000060000000000000000",
        5,
        b"0a0000000002-81; 0a0000000003*; 0a0000000004-84; none; none; ",
    ),
    // A captured length that is too great, and a frame behind it.
    (
        HIGH,
        b"000000010000000200000012000000120000000000010a00000000020004fefe0381\
          00000001000000020004000100000012\
          000000010000000200000012000000120000000000010a00000000020004fefe0382",
        3,
        b"0a0000000002-81; none; none; ",
    ),
    // A record but for its last octet, behind another.
    (
        HIGH,
        b"000000010000000200000012000000120000000000010a00000000020004fefe0381\
          000000010000000200000013000000130000000000010a00000000020004fefe0382",
        2,
        b"0a0000000002-81; none; ",
    ),
];

/// Files of which nothing comes.
const NOTHING: [Row; 9] = [
    // The hello's file but for its last octet.
    (
        HIGH,
        b"00000000000000000000003c0000003c09002b0000050a00000000010012fefe03820f0100020078324b010447002702000000000000000000000000000000000000000000000000000000",
        2,
        b"none; none; ",
    ),
    // No octets.
    (b"", b"", 2, b"none; none; "),
    // A header but for an octet.
    (
        b"a1b2c3d400020004000000000000000000040000000000",
        b"",
        1,
        b"none; ",
    ),
    // A header alone.
    (HIGH, b"", 2, b"none; none; "),
    // Another magic number.
    (
        b"a1b2c3d50002000400000000000000000004000000000001",
        b"000000010000000200000012000000120000000000010a00000000020004fefe0381",
        1,
        b"none; ",
    ),
    // Another version.
    (
        b"a1b2c3d40002000300000000000000000004000000000001",
        b"000000010000000200000012000000120000000000010a00000000020004fefe0381",
        1,
        b"none; ",
    ),
    // Another link type.
    (
        b"a1b2c3d40002000400000000000000000004000000000071",
        b"000000010000000200000012000000120000000000010a00000000020004fefe0381",
        1,
        b"none; ",
    ),
    // Numbers of a record in the other order.
    (
        LOW,
        b"000000010000000200000012000000120000000000010a00000000020004fefe0381",
        1,
        b"none; ",
    ),
    // A record before its frame.
    (HIGH, b"00000001000000020000001200000012", 1, b"none; "),
];

/// Appends what a look sees: the source, `*` for a group and else `-`, and the PDU.
fn tell_look(
    look: Result<Option<Got>, Failed>,
    buf: &[u8],
    out: &mut Vec<u8>,
) -> Result<(), NoMemory> {
    match look {
        Ok(Some(got)) => {
            push_hex(got.from.as_bytes(), out)?;
            push(if got.group { b"*" } else { b"-" }, out)?;
            if let Some(octets) = buf.get(..got.len) {
                push_hex(octets, out)?;
            }
            push(b"; ", out)
        }
        Ok(None) => push(b"none; ", out),
        Err(Failed) => push(b"failed; ", out),
    }
}

/// Appends what so many looks at a link see.
fn tell_looks<L: Link>(
    link: &mut L,
    looks: u32,
    buf: &mut [u8],
    out: &mut Vec<u8>,
) -> Result<(), NoMemory>
    requires { 70000 ≤ length buf.old }
{
    for _ in 0..looks {
        let look = link.poll(buf);
        tell_look(look, buf, out)?;
    }
    Ok(())
}

/// Whether looks at a link that plays a file see this.
fn is_played(alloc: Global, row: &Row, buf: &mut [u8]) -> bool
    requires { 70000 ≤ length buf.old }
{
    let (mut file, mut out) = (Vec::new(alloc), Vec::new(alloc));
    if push_unhex(row.0, &mut file).is_err() || push_unhex(row.1, &mut file).is_err() {
        return false;
    }
    let mut link = PcapLink::new(file);
    tell_looks(&mut link, row.2, buf, &mut out).is_ok() && out.as_slice() == row.3
}

/// Whether looks at links that play these files see what each says.
fn are_played(rows: &[Row], alloc: Global, buf: &mut [u8]) -> bool {
    if buf.len() < 70_000 {
        return false;
    }
    for row in rows {
        if !is_played(alloc, row, buf) {
            return false;
        }
    }
    true
}

#[test]
fn plays_the_frames_of_a_file(rt: HostRuntime) {
    let mut room = vec![in rt.alloc(); 0u8; 70_000].expect(&rt, "memory");
    assert!(rt; are_played(&FILES, rt.alloc(), room.as_mut_slice()));
}

#[test]
fn plays_nothing_where_no_frame_is(rt: HostRuntime) {
    let mut room = vec![in rt.alloc(); 0u8; 70_000].expect(&rt, "memory");
    assert!(rt; are_played(&NOTHING, rt.alloc(), room.as_mut_slice()));
}

/// Whether a look at a link sees this PDU, through a group.
fn is_seen<L: Link>(link: &mut L, pdu: &[u8], buf: &mut [u8]) -> bool
    requires { 70000 ≤ length buf.old }
{
    match link.poll(buf) {
        Ok(Some(got)) => got.group && got.len == pdu.len() && buf.get(..got.len) == Some(pdu),
        _ => false,
    }
}

/// Whether a link takes what is sent before and after a look that sees this PDU, and then sees nothing.
fn takes_and_plays<L: Link>(link: &mut L, pdu: &[u8], buf: &mut [u8]) -> bool {
    buf.len() >= 70_000
        && link.send(Target::Routers, b"he", b"ad").is_ok()
        && is_seen(link, pdu, buf)
        && link.send(Target::EndSystems, b"", b"").is_ok()
        && matches!(link.poll(buf), Ok(None))
}

/// Appends the file of a PDU.
fn put_file(pdu: &[u8], file: &mut Vec<u8>) -> Result<(), NoMemory> {
    put_header(file)?;
    put(0, pdu, file)
}

#[test]
fn plays_the_longest_pdu_and_takes_what_is_sent(rt: HostRuntime) {
    let mut room = vec![in rt.alloc(); 0u8; 70_000].expect(&rt, "memory");
    let pdu = [7; 1497];
    let mut file = Vec::new(rt.alloc());
    assert!(rt; put_file(&pdu, &mut file).is_ok());
    let mut link = PcapLink::new(file);
    assert!(rt; takes_and_plays(&mut link, &pdu, room.as_mut_slice()));
}
