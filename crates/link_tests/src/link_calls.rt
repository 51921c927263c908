//! Calls of links in memory.
use crate::noting::link_of;
use frame_links::link_board::base::Failed;
use frame_links::link_board::nsaps::{Snpa, Target};
use frame_links::link_board::{Got, Link};

/// What a look comes to: the octets of the frame, and of the point from which it came, where it came through a group.
#[derive(Clone, Copy)]
enum Look {
    Saw(&'static [u8]),
    Nothing,
    Fault,
}

/// Whether a look answers this.
fn is_seen(answer: Result<Option<Got>, Failed>, buf: &[u8], look: Look) -> bool {
    match (answer, look) {
        (Ok(Some(got)), Look::Saw(octets)) => {
            got.group && got.from.as_bytes() == [1].as_slice() && buf.get(..got.len) == Some(octets)
        }
        (Ok(None), Look::Nothing) | (Err(Failed), Look::Fault) => true,
        _ => false,
    }
}

/// Whether looks at a link answer these, one after the other.
fn looks<L: Link>(link: &mut L, buf: &mut [u8], wanted: &[Look]) -> bool {
    if buf.len() < 70_000 {
        return false;
    }
    for look in wanted {
        let answer = link.poll(buf);
        if !is_seen(answer, buf, *look) {
            return false;
        }
    }
    true
}

/// The looks at a link of two frames that fails at its second call.
const LOOKS: [Look; 5] = [
    Look::Saw(b"first"),
    Look::Fault,
    Look::Saw(b""),
    Look::Nothing,
    Look::Nothing,
];

#[test]
fn gives_its_frames_and_then_nothing(rt: HostRuntime) {
    let mut room = vec![in rt.alloc(); 0u8; 70_000].expect(&rt, "memory");
    let mut link = link_of(rt.alloc(), &[b"first", b""], &[2]).expect(&rt, "memory");
    assert!(rt; looks(&mut link, room.as_mut_slice(), &LOOKS));
}

/// Whether a look sees 70,000 octets, the last of them a 7, and leaves the 0 behind them.
fn is_cut<L: Link>(link: &mut L, buf: &mut [u8]) -> bool {
    buf.len() >= 70_000
        && matches!(link.poll(buf), Ok(Some(got)) if got.len == 70_000)
        && buf.get(69_999) == Some(&7)
        && buf.get(70_000) == Some(&0)
}

#[test]
fn cuts_a_frame_that_is_too_long(rt: HostRuntime) {
    let mut room = vec![in rt.alloc(); 0u8; 70_001].expect(&rt, "memory");
    let long = vec![in rt.alloc(); 7u8; 70_001].expect(&rt, "memory");
    let mut link = link_of(rt.alloc(), &[long.as_slice()], &[]).expect(&rt, "memory");
    assert!(rt; is_cut(&mut link, room.as_mut_slice()));
}

/// What is sent, and the answer to that.
const SENT: [(&[u8], &[u8], Result<(), Failed>); 6] = [
    (b"head", b"body!", Err(Failed)),
    (b"head", b"bod", Ok(())),
    (b"", b"", Err(Failed)),
    (b"", b"dy", Err(Failed)),
    (b"y", b"", Ok(())),
    (b"", b"", Err(Failed)),
];

#[test]
fn keeps_what_it_has_room_for(rt: HostRuntime) {
    let mut link = link_of(rt.alloc(), &[], &[3]).expect(&rt, "memory");
    for (head, body, answer) in &SENT {
        assert!(rt; link.send(Target::Routers, head, body) == *answer);
    }
}
