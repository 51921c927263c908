//! Runs of a router over two links.

use crate::live_noting::{Notes, is_dropped, no_notes, noting_link};
use crate::live_running::{new_sink, run};
use clnp_program::live_node::RunStop;
use frame_links::link_board::base::NoMemory;
use frame_links::link_board::{Board, Link};
use std::alloc::Global;
use std::cell::RefCell;
use std::mem::forget;
use std::process::Abort;
use std::rc::Rc;

/// A router with a route that leads out of its second port.
const TEXT: &[u8] = b"clnp-sim 1
subnet lan 1500
subnet wan 1500
system r router hello=0
address r 470027ff
port r 0 lan 0a
port r 1 wan 0b
route r 47002701 1 02 47002701
events
end
";

/// A data unit of the octets 68 69, with the lifetime 10 and its checksum, from 47002702 to 47002701.
const CAME: &[u8] =
    b"\x81\x13\x01\x0a\x3c\x00\x15\xce\x58\x04\x47\x00\x27\x01\x04\x47\x00\x27\x02hi";

/// The journal where it goes on, and the second link fails at that.
const GONE_AT_SENDING: &[u8] = b"0 r tx 1 1 02 811301093c0015d354044700270104470027026869
0 r link 1 gone
end 0 1
";

/// The journal where both links fail at their first looks.
const BOTH_GONE: &[u8] = b"0 r link 0 gone
0 r link 1 gone
";

/// A board of two noting links, of which the first gives the unit, and each fails at these calls.
fn board_of(
    alloc: Global,
    first: (&[u64], &Rc<RefCell<Notes>>),
    second: (&[u64], &Rc<RefCell<Notes>>),
) -> Result<Board, NoMemory> {
    let mut links: Vec<Box<dyn Link>> = Vec::new(alloc);
    push_link(alloc, &[CAME], first, &mut links)?;
    push_link(alloc, &[], second, &mut links)?;
    Board::new(alloc, links)
}

/// Puts such a link behind others.
fn push_link(
    alloc: Global,
    frames: &[&[u8]],
    (fails, notes): (&[u64], &Rc<RefCell<Notes>>),
    links: &mut Vec<Box<dyn Link>>,
) -> Result<(), NoMemory> {
    let link = noting_link(alloc, frames, fails, notes)?;
    links.push(Box::new(alloc, link)?)?;
    Ok(())
}

/// Whether it is noted that so many looks were empty, and that these octets were sent.
fn is_noted(notes: &Rc<RefCell<Notes>>, empties: u64, sent: &[u8]) -> bool {
    match notes.try_borrow() {
        Ok(notes) => notes.empties == empties && notes.sent.as_slice() == sent,
        Err(_) => false,
    }
}

#[test]
fn a_link_fails_and_the_run_goes_on(rt: HostRuntime) {
    let alloc = rt.alloc();
    let first = no_notes(alloc).expect(&rt, "memory");
    let second = no_notes(alloc).expect(&rt, "memory");
    let mut board = board_of(alloc, (&[], &first), (&[1], &second)).expect(&rt, "memory");
    let mut sink = new_sink(alloc).expect(&rt, "memory");
    assert!(rt; run(&rt, TEXT, 2, &mut board, &mut sink, alloc) == Ok(()));
    assert!(rt; sink.as_bytes() == GONE_AT_SENDING);
    board.drop_gone();
    assert!(rt; !is_dropped(&first) && is_dropped(&second));
    assert!(rt; is_noted(&first, 1, b""));
    forget(board);
}

#[test]
fn a_run_ends_without_links(rt: HostRuntime) {
    let alloc = rt.alloc();
    let first = no_notes(alloc).expect(&rt, "memory");
    let second = no_notes(alloc).expect(&rt, "memory");
    let mut board = board_of(alloc, (&[1], &first), (&[1], &second)).expect(&rt, "memory");
    let mut sink = new_sink(alloc).expect(&rt, "memory");
    let came = run(&rt, TEXT, 2, &mut board, &mut sink, alloc);
    assert!(rt; came == Err(RunStop::LinksGone { links: 2 }));
    assert!(rt; sink.as_bytes() == BOTH_GONE);
    board.drop_gone();
    assert!(rt; is_dropped(&first) && is_dropped(&second));
    forget(board);
}

/// The unit as the router sends it on.
const SENT_ON: &[u8] =
    b"\x81\x13\x01\x09\x3c\x00\x15\xd3\x54\x04\x47\x00\x27\x01\x04\x47\x00\x27\x02hi";

/// Sees a run of three turns in which the first link fails at the call of this number, and what was sent on the second one,
/// which sees three looks that are empty whatever comes of the first.
fn see_failure(rt: &impl Abort, alloc: Global, call: u64, sent: &[u8]) {
    let first = no_notes(alloc).expect(rt, "memory");
    let second = no_notes(alloc).expect(rt, "memory");
    let mut board = board_of(alloc, (&[call], &first), (&[], &second)).expect(rt, "memory");
    let mut sink = new_sink(alloc).expect(rt, "memory");
    assert!(rt; run(rt, TEXT, 3, &mut board, &mut sink, alloc) == Ok(()));
    assert!(rt; is_noted(&second, 3, sent));
    board.drop_gone();
    // Three turns have three looks at the first link, so a fourth call never comes.
    assert!(rt; is_dropped(&first) == (call <= 3));
    forget(board);
}

#[test]
fn a_fault_leaves_the_other_link(rt: HostRuntime) {
    let alloc = rt.alloc();
    see_failure(&rt, alloc, 1, b"");
    see_failure(&rt, alloc, 2, SENT_ON);
    see_failure(&rt, alloc, 3, SENT_ON);
    see_failure(&rt, alloc, 4, SENT_ON);
}
