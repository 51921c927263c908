//! Frames at the bounds of each field.
use crate::pcap_told::tell_seen;
use frame_links::pcap_frames::base::{NoMemory, push, push_unhex};
use std::alloc::Global;

/// A frame in hexadecimal digits, and what is seen in it.
type Row = (&'static [u8], &'static [u8]);

/// Frames, and what is seen in them.
const FRAMES: [Row; 13] = [
    // 16 octets.
    (b"09002b0000050a00000000010003fefe", b"other"),
    // 17 octets with a length of 3, and so a PDU of none.
    (
        b"09002b0000050a00000000010003fefe03",
        b"09002b000005-0a0000000001-",
    ),
    // 17 octets with a length of 2.
    (b"09002b0000050a00000000010002fefe03", b"other"),
    // A length of 4 and one octet.
    (
        b"09002b0000050a00000000010004fefe0382",
        b"09002b000005-0a0000000001-82",
    ),
    // A length that passes the octets by one.
    (b"09002b0000050a00000000010005fefe0382", b"cut"),
    // Padding.
    (
        b"09002b0000050a00000000010005fefe03820f0000000000000000000000000000000000000000000000000000000000000000000000000000000000",
        b"09002b000005-0a0000000001-820f",
    ),
    // The type of another protocol in place of a length.
    (b"09002b0000050a00000000010800fefe03828282", b"other"),
    // Another first octet behind the length.
    (b"09002b0000050a00000000010004aafe0382", b"other"),
    // Another second octet.
    (b"09002b0000050a00000000010004feaa0382", b"other"),
    // Another third octet.
    (b"09002b0000050a00000000010004fefe1382", b"other"),
    // A length of 1,500 that passes the octets.
    (b"09002b0000050a000000000105dcfefe0382", b"cut"),
    // A length of 1,501.
    (b"09002b0000050a000000000105ddfefe0382", b"other"),
    // Nothing.
    (b"", b"other"),
];

/// Whether this is seen in a frame behind which so many zeros stand.
fn is_seen(alloc: Global, digits: &[u8], zeros: usize, want: &[u8]) -> bool {
    let mut frame = Vec::new(alloc);
    let mut out = Vec::new(alloc);
    if push_unhex(digits, &mut frame).is_err() {
        return false;
    }
    let whole = frame.len().saturating_add(zeros);
    frame.resize(whole, 0).is_ok() && tell_seen(&frame, &mut out).is_ok() && out.as_slice() == want
}

#[test]
fn sees_frames(rt: HostRuntime) {
    for (digits, want) in &FRAMES {
        assert!(rt; is_seen(rt.alloc(), digits, 0, want));
    }
}

#[test]
fn sees_the_longest_pdu(rt: HostRuntime) {
    let mut want = Vec::new(rt.alloc());
    assert!(rt; push_longest(&mut want).is_ok());
    assert!(rt; is_seen_with(rt.alloc(), &want));
}

/// Appends what is seen in a frame with a PDU of 1,497 zeros.
fn push_longest(want: &mut Vec<u8>) -> Result<(), NoMemory> {
    push(b"09002b000005-0a0000000001-", want)?;
    Ok(want.resize(26 + 2 * 1497, b'0')?)
}

/// Whether this is seen in a frame with a length of 1,500 and as many octets, and in one with more, and not in one with
/// fewer.
fn is_seen_with(alloc: Global, want: &[u8]) -> bool {
    let digits = b"09002b0000050a000000000105dcfefe03";
    is_seen(alloc, digits, 1497, want)
        && is_seen(alloc, digits, 1600, want)
        && is_seen(alloc, digits, 1496, b"cut")
}
