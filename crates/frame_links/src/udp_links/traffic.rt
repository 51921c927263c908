//! What comes on links that are looked at in turn.
use crate::link_board::base::NoMemory;
use std::alloc::Global;
use std::cell::Cell;
use std::rc::Rc;

/// What links know of each other that are looked at in turn: each has a share of the same traffic.
#[derive(Drop)]
pub struct Traffic {
    links: Rc<Cell<u64>>,
    empties: Rc<Cell<u64>>,
}

impl Traffic {
    /// That of links on which nothing came yet.
    ///
    /// # Errors
    ///
    /// `NoMemory`.
    pub fn new(alloc: Global) -> Result<Traffic, NoMemory> {
        let links = Rc::new(alloc, Cell::new(0))?;
        let empties = Rc::new(alloc, Cell::new(0))?;
        Ok(Traffic { links, empties })
    }

    /// The same traffic, for one more link.
    ///
    /// # Errors
    ///
    /// `NoMemory`.
    pub fn share(&self) -> Result<Traffic, NoMemory> {
        let links = self.links.clone()?;
        let empties = self.empties.clone()?;
        Ok(Traffic { links, empties })
    }

    /// A link is opened. It counts as long as the traffic is there, even where it failed.
    pub(crate) fn link_opens(&self) {
        self.links.set(self.links.get().saturating_add(1));
    }

    /// A look saw a datagram.
    pub(crate) fn datagram_comes(&self) {
        self.empties.set(0);
    }

    /// A look saw nothing.
    pub(crate) fn nothing_comes(&self) {
        self.empties.set(self.empties.get().saturating_add(1));
    }

    /// How many times by now all links were looked at in turn, one after another, and nothing came on any.
    pub(crate) fn empty_rounds(&self) -> u64 {
        self.empties.get() / self.links.get().max(1)
    }
}
