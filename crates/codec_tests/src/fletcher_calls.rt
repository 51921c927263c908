//! Worked headers: the values were typed from outside, and are no output of the program.
use pdus::pdu_header::checksums::{adjust, is_right, seal};

/// Whether a header is right, is wrong where one of octets 8 and 9 is 0, is right where both are, and is then sealed
/// as it stood.
fn is_sealed_again(head: &[u8]) -> bool {
    let mut room = [0u8; 25];
    if head.len() < 9 || head.len() > 25 {
        return false;
    }
    let made = &mut room[..head.len()];
    made.copy_from_slice(head);
    made[7] = 0;
    let half = is_right(made);
    made[8] = 0;
    let without = is_right(made);
    seal(made);
    is_right(head) && !half && without && *made == *head
}

/// Headers with the checksum that seals them.
const SEALED: [&[u8]; 7] = [
    b"\x81\x13\x01\x0a\x3c\x00\x15\xce\x58\x04\x47\x00\x27\x01\x04\x47\x00\x27\x02",
    b"\x81\x13\x01\x09\x3c\x00\x15\xd3\x54\x04\x47\x00\x27\x01\x04\x47\x00\x27\x02",
    b"\x82\x0e\x01\x00\x04\x00\x78\xb1\xcd\x04\x47\x00\x27\xff",
    b"\x82\x0f\x01\x00\x02\x00\x78\x32\x4b\x01\x04\x47\x00\x27\x02",
    b"\x82\x11\x01\x00\x06\x00\x78\xad\xc8\x04\x47\x00\x27\x01\x01\x02\x00",
    b"\x81\x19\x01\x0a\xfc\x05\xd9\xcb\xed\x04\x47\x00\x27\x01\x04\x47\x00\x27\x02\x00\x00\x00\x00\x0b\xd1",
    b"\x81\x19\x01\x09\xfc\x01\xf9\x9c\x02\x04\x47\x00\x27\x01\x04\x47\x00\x27\x02\x00\x00\x00\x00\x0b\xd1",
];

#[test]
fn seals_worked_headers(rt: HostRuntime) {
    for head in &SEALED {
        assert!(rt; is_sealed_again(head), "at {head:?}");
    }
}

/// The first of these headers, with these octets 8 and 9.
fn worked(checksum: [u8; 2]) -> [u8; 19] {
    let mut head = *b"\x81\x13\x01\x0a\x3c\x00\x15\xce\x58\x04\x47\x00\x27\x01\x04\x47\x00\x27\x02";
    head[7] = checksum[0];
    head[8] = checksum[1];
    head
}

/// Whether the worked header with these octets 8 and 9, its place 3 or 4 changed, has those, and is right or not before
/// and after.
fn is_adjusted(before: [u8; 2], place: usize, new: u8, after: [u8; 2], right: bool) -> bool {
    if place != 3 && place != 4 {
        return false;
    }
    let mut head = worked(before);
    let mut wanted = worked(after);
    wanted[place - 1] = new;
    let was_right = is_right(&head);
    adjust(&mut head, place, new);
    head == wanted && was_right == right && is_right(&head) == right
}

/// A header before a change, the place and the new octet, octets 8 and 9 after it, and whether it is right.
type Change = ([u8; 2], usize, u8, [u8; 2], bool);

const CHANGES: [Change; 5] = [
    // a lifetime of ten that a router lowers
    ([0xce, 0x58], 4, 0x09, [0xd3, 0x54], true),
    // a 0 is written as ff
    ([0xce, 0x58], 4, 0xf3, [0x3d, 0xff], true),
    // a damaged header stays wrong
    ([0xcf, 0x58], 4, 0xf3, [0x3e, 0xff], false),
    // where octet 9 is 0 both stay
    ([0xce, 0x00], 3, 0x09, [0xce, 0x00], false),
    // a checksum that is not in use stays
    ([0x00, 0x00], 4, 0x09, [0x00, 0x00], true),
];

#[test]
fn adjusts_worked_headers(rt: HostRuntime) {
    for (before, place, new, after, right) in &CHANGES {
        assert!(rt;
            is_adjusted(*before, *place, *new, *after, *right),
            "at {after:?}"
        );
    }
}
