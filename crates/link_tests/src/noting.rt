//! A link that notes what is done with it where a test can see it, since a boxed link can't be asked.
ghost use Rattle.frame_links.specs.LinkBoard.Memory.{state_of};

use frame_links::link_board::base::{Failed, NoMemory, Octets};
use frame_links::link_board::nsaps::{Snpa, Target};
use frame_links::link_board::{Got, Link, MemFrame, MemLink};
use std::alloc::Global;
use std::cell::RefCell;
use std::rc::Rc;

/// What a test sees of a link.
#[derive(Drop)]
pub(crate) struct Notes {
    /// How many looks were empty.
    pub(crate) empties: u64,
    /// The octets of the frames that were sent, one behind the other.
    pub(crate) sent: Vec<u8>,
    /// Whether the link was dropped.
    pub(crate) dropped: bool,
}

/// Notes of nothing, which several may hold.
pub(crate) fn no_notes(alloc: Global) -> Result<Rc<RefCell<Notes>>, NoMemory> {
    let nothing = Notes {
        empties: 0,
        sent: Vec::new(alloc),
        dropped: false,
    };
    Ok(Rc::new(alloc, RefCell::new(nothing))?)
}

/// A link that passes each call on, and notes it.
pub(crate) struct NotingLink {
    pub(crate) link: MemLink,
    pub(crate) notes: Rc<RefCell<Notes>>,
}

impl Drop for NotingLink {
    fn drop(self) {
        if let Ok(mut notes) = self.notes.try_borrow_mut() {
            notes.dropped = true;
        }
        let NotingLink { link, notes } = self;
        link.drop();
        notes.drop();
    }
}

impl Link for NotingLink {
    ghost seen = { λ l. state_of l.link };

    fn poll(&mut self, buf: &mut [u8]) -> Result<Option<Got>, Failed> {
        let came = self.link.poll(buf);
        if let Ok(None) = came {
            if let Ok(mut notes) = self.notes.try_borrow_mut() {
                notes.empties = notes.empties.saturating_add(1);
            }
        }
        came
    }

    fn send(&mut self, to: Target, head: &[u8], body: &[u8]) -> Result<(), Failed> {
        let came = self.link.send(to, head, body);
        if came.is_ok() {
            if let Ok(mut notes) = self.notes.try_borrow_mut() {
                let _ = notes.sent.extend_from_slice(head);
                let _ = notes.sent.extend_from_slice(body);
            }
        }
        came
    }
}

/// A link in memory that gives the frames of these octets, from the point 01, has room for two frames of together eight
/// octets, and fails at these calls.
pub(crate) fn link_of(alloc: Global, frames: &[&[u8]], fails: &[u64]) -> Result<MemLink, NoMemory> {
    let Ok(from) = Snpa::from_bytes(&[1]) else {
        return Err(NoMemory);
    };
    let mut list = Vec::new(alloc);
    for octets in frames {
        list.push(MemFrame {
            from,
            group: true,
            octets: Octets::copy(alloc, octets)?,
        })?;
    }
    MemLink::new(alloc, list, 2, 8, Vec::from_slice(alloc, fails)?)
}
