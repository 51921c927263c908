//! Calls of boards.
use crate::noting::{Notes, NotingLink, link_of, no_notes};
use frame_links::link_board::base::NoMemory;
use frame_links::link_board::nsaps::Target;
use frame_links::link_board::{Board, Link, Polled, Ports, Sent};
use std::alloc::Global;
use std::cell::RefCell;
use std::process::Abort;
use std::rc::Rc;

/// A link that gives a frame of the octets `hi`, fails at these calls, and notes what is done with it.
fn noting_link(
    alloc: Global,
    fails: &[u64],
    notes: &Rc<RefCell<Notes>>,
) -> Result<NotingLink, NoMemory> {
    Ok(NotingLink {
        link: link_of(alloc, &[b"hi"], fails)?,
        notes: notes.clone()?,
    })
}

/// Puts such a link behind others.
fn push_link(
    alloc: Global,
    fails: &[u64],
    notes: &Rc<RefCell<Notes>>,
    links: &mut Vec<Box<dyn Link>>,
) -> Result<(), NoMemory> {
    let link = noting_link(alloc, fails, notes)?;
    links.push(Box::new(alloc, link)?)?;
    Ok(())
}

/// A board of two such links, of which the first fails at these calls and the second at none.
fn board_of(
    alloc: Global,
    fails: &[u64],
    first: &Rc<RefCell<Notes>>,
    second: &Rc<RefCell<Notes>>,
) -> Result<Board, NoMemory> {
    let mut links: Vec<Box<dyn Link>> = Vec::new(alloc);
    push_link(alloc, fails, first, &mut links)?;
    push_link(alloc, &[], second, &mut links)?;
    Board::new(alloc, links)
}

/// A look at a port, or nothing where it isn't attached or there is no room.
fn look<B: Ports>(board: &mut B, port: usize, buf: &mut [u8]) -> Option<Polled> {
    if port >= board.count() || buf.len() < 70_000 {
        return None;
    }
    if !board.is_attached(port) {
        return None;
    }
    Some(board.look(port, buf))
}

/// Sends `ok` on a port, or does nothing where it isn't attached.
fn put<B: Ports>(board: &mut B, port: usize) -> Option<Sent> {
    if port >= board.count() {
        return None;
    }
    if !board.is_attached(port) {
        return None;
    }
    Some(board.put(port, Target::EndSystems, b"o", b"k"))
}

/// Whether a look saw two octets.
fn saw_two(came: Option<Polled>) -> bool {
    matches!(came, Some(Polled::Frame(got)) if got.len == 2)
}

/// Whether of two ports the first one's link fails at its third call, a sending, and the other goes on.
fn goes_on<B: Ports>(board: &mut B, buf: &mut [u8]) -> bool {
    saw_two(look(board, 0, buf))
        && look(board, 0, buf) == Some(Polled::Nothing)
        && put(board, 0) == Some(Sent::Detached)
        && look(board, 0, buf).is_none()
        && put(board, 0).is_none()
        && saw_two(look(board, 1, buf))
        && put(board, 1) == Some(Sent::Done)
        && look(board, 1, buf) == Some(Polled::Nothing)
        && look(board, 2, buf).is_none()
}

#[test]
fn a_link_fails_and_the_other_goes_on(rt: HostRuntime) {
    let alloc = rt.alloc();
    let first = no_notes(alloc).expect(&rt, "memory");
    let second = no_notes(alloc).expect(&rt, "memory");
    let mut board = board_of(alloc, &[3], &first, &second).expect(&rt, "memory");
    let mut room = vec![in alloc; 0u8; 70_000].expect(&rt, "memory");
    assert!(rt; board.len() == 2);
    assert!(rt; goes_on(&mut board, room.as_mut_slice()));
    assert!(rt; is_noted(&first, b"") && is_noted(&second, b"ok"));
}

/// Whether it is noted that one look was empty, that these octets were sent, and not that the link was dropped.
fn is_noted(notes: &Rc<RefCell<Notes>>, sent: &[u8]) -> bool {
    match notes.try_borrow() {
        Ok(notes) => notes.empties == 1 && notes.sent.as_slice() == sent && !notes.dropped,
        Err(_) => false,
    }
}

#[test]
fn drops_the_links_that_are_gone(rt: HostRuntime) {
    let alloc = rt.alloc();
    let first = no_notes(alloc).expect(&rt, "memory");
    let second = no_notes(alloc).expect(&rt, "memory");
    let mut board = board_of(alloc, &[1], &first, &second).expect(&rt, "memory");
    let mut room = vec![in alloc; 0u8; 70_000].expect(&rt, "memory");
    assert!(rt; loses_first(&mut board, room.as_mut_slice()) && !is_dropped(&first));
    board.drop_gone();
    assert!(rt; is_dropped(&first) && !is_dropped(&second));
    assert!(rt; keeps_second(&mut board, room.as_mut_slice()));
    board.drop();
    assert!(rt; is_dropped(&second));
}

/// Whether the first link is gone at a look.
fn loses_first(board: &mut Board, buf: &mut [u8]) -> bool {
    look(board, 0, buf) == Some(Polled::Detached)
}

/// Whether a board of two still has both ports, and sees what comes on the second one alone.
fn keeps_second(board: &mut Board, buf: &mut [u8]) -> bool {
    board.len() == 2 && saw_two(look(board, 1, buf)) && look(board, 0, buf).is_none()
}

/// Whether it is noted that the link was dropped.
fn is_dropped(notes: &Rc<RefCell<Notes>>) -> bool {
    match notes.try_borrow() {
        Ok(notes) => notes.dropped,
        Err(_) => false,
    }
}
