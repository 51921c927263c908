//! Pieces that are known from elsewhere. All are of data PDUs from 47002702 to 47002701 with a header of 25 octets.
ghost use Rattle.std.specs.Prelude.{◌≤◌, IfSome};
ghost use Rattle.std.specs.List.{AllByRecursion};
ghost use Rattle.pdus.specs.MadePdus.Left.{IsCutOf};

use pdus::made_pdus::Cuts;
use pdus::pdu_header::{Header, decode};

/// The sealed header of a unit of 3,000 octets of data.
const UNIT: &[u8; 25] =
    b"\x81\x19\x01\x0a\xbc\x0b\xd1\xca\x31\x04\x47\x00\x27\x01\x04\x47\x00\x27\x02\x00\x00\x00\x00\x0b\xd1";

/// A piece: its offset in the unit's data, where its data begin in the PDU that was cut, how many octets
/// they are, and whether more follows.
type Piece = (u16, usize, usize, bool);

/// The pieces of this unit.
fn cuts_of(mtu: u16) -> Option<Cuts>
    requires { 512 ≤ mtu }
    ensures { IfSome result (AllByRecursion (IsCutOf 3000)) }
{
    let mut frame = [0u8; 3025];
    frame[..25].copy_from_slice(UNIT);
    let Ok(pdu) = decode(&frame) else {
        return None;
    };
    if pdu.body.len() != 3000 {
        return None;
    }
    Cuts::new(Header::of(pdu.head), 3000, mtu).ok()
}

/// Whether these are the pieces that are left.
fn has_pieces(mut cuts: Cuts, want: &[Piece]) -> bool {
    for (offset, from, len, more) in want {
        let Some(cut) = cuts.next() else {
            return false;
        };
        let Some(part) = cut.head.segmentation() else {
            return false;
        };
        if (part.offset, cut.from, cut.len, cut.head.more()) != (*offset, *from, *len, *more) {
            return false;
        }
    }
    cuts.next().is_none()
}

/// The pieces of the next piece for an MTU of 512, when its lifetime is 9.
fn cut_again(cuts: &mut Cuts) -> Option<Cuts>
    requires { AllByRecursion (IsCutOf 3000) cuts.old }
    ensures { AllByRecursion (IsCutOf 3000) cuts.new }
{
    let Some(cut) = cuts.next() else {
        return None;
    };
    let mut head = cut.head;
    head.set_life(9);
    Cuts::new(head, cut.len, 512).ok()
}

/// MTUs that a unit of 3,000 octets passes, fits exactly, and passes by one octet, and its pieces for these.
const ROWS: [(u16, &[Piece]); 3] = [
    (
        1500,
        &[
            (0, 0, 1472, true),
            (1472, 1472, 1472, true),
            (2944, 2944, 56, false),
        ],
    ),
    (3025, &[(0, 0, 3000, false)]),
    (3024, &[(0, 0, 2992, true), (2992, 2992, 8, false)]),
];

/// Whether the unit is cut into these pieces.
fn is_cut(mtu: u16, want: &[Piece]) -> bool {
    if mtu < 512 {
        return false;
    }
    match cuts_of(mtu) {
        Some(cuts) => has_pieces(cuts, want),
        None => false,
    }
}

#[test]
fn cuts_a_unit(rt: HostRuntime) {
    for (mtu, want) in &ROWS {
        assert!(rt; is_cut(*mtu, want), "at {mtu}");
    }
}

/// The pieces of each piece for an MTU of 1,500, when it is cut for one of 512.
const AGAIN: [&[Piece]; 3] = [
    &[
        (0, 0, 480, true),
        (480, 480, 480, true),
        (960, 960, 480, true),
        (1440, 1440, 32, true),
    ],
    &[
        (1472, 0, 480, true),
        (1952, 480, 480, true),
        (2432, 960, 480, true),
        (2912, 1440, 32, true),
    ],
    &[(2944, 0, 56, false)],
];

#[test]
fn cuts_pieces_again(rt: HostRuntime) {
    let Some(mut cuts) = cuts_of(1500) else {
        panic!(rt; "no pieces")
    };
    for want in &AGAIN {
        let Some(again) = cut_again(&mut cuts) else {
            panic!(rt; "no piece")
        };
        assert!(rt; has_pieces(again, want), "at {want:?}");
    }
}

/// The first piece for an MTU of 1,500.
const FIRST: &[u8] =
    b"\x81\x19\x01\x0a\xfc\x05\xd9\xcb\xed\x04\x47\x00\x27\x01\x04\x47\x00\x27\x02\x00\x00\x00\x00\x0b\xd1";

/// The first of its pieces for an MTU of 512.
const SMALLER: &[u8] =
    b"\x81\x19\x01\x09\xfc\x01\xf9\x9c\x02\x04\x47\x00\x27\x01\x04\x47\x00\x27\x02\x00\x00\x00\x00\x0b\xd1";

/// Whether the next piece has this header.
fn begins_with(mut cuts: Cuts, header: &[u8]) -> bool {
    match cuts.next() {
        Some(cut) => cut.head.as_bytes() == header,
        None => false,
    }
}

/// Whether the first piece of the next piece has this header.
fn begins_again_with(mut cuts: Cuts, header: &[u8]) -> bool
    requires { AllByRecursion (IsCutOf 3000) cuts }
{
    match cut_again(&mut cuts) {
        Some(again) => begins_with(again, header),
        None => false,
    }
}

/// Whether the first piece, and the first of its pieces, have these headers.
fn begin_with(first: &[u8], smaller: &[u8]) -> bool {
    match (cuts_of(1500), cuts_of(1500)) {
        (Some(cuts), Some(same)) => begins_with(cuts, first) && begins_again_with(same, smaller),
        _ => false,
    }
}

#[test]
fn makes_the_first_headers(rt: HostRuntime) {
    assert!(rt; begin_with(FIRST, SMALLER));
}

/// How many octets of data the PDU has, where it is its own single piece with this header.
fn uncut_with(cuts: &Cuts, header: &[u8]) -> Option<usize> {
    let (head, len) = cuts.single()?;
    (head.as_bytes() == header).then_some(len)
}

#[test]
fn tells_a_single_piece(rt: HostRuntime) {
    let rows: [(u16, Option<usize>); 2] = [(3025, Some(3000)), (3024, None)];
    for (mtu, want) in rows {
        assert!(rt; mtu >= 512);
        let Some(cuts) = cuts_of(mtu) else {
            panic!(rt; "no pieces")
        };
        assert!(rt; uncut_with(&cuts, UNIT) == want, "at {mtu}");
    }
}

/// Whether the last of two pieces is no PDU uncut, and whether nothing that is left is one.
#[test]
fn last_piece_is_no_single_one(rt: HostRuntime) {
    for mtu in [3025, 3024] {
        let Some(mut cuts) = cuts_of(mtu) else {
            panic!(rt; "no pieces")
        };
        assert!(rt; cuts.next().is_some());
        assert!(rt; cuts.single().is_none(), "at {mtu}");
    }
}
