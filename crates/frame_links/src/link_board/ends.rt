//! The ends that a link word names.
ghost use Rattle.std.specs.Prelude.{◌≡◌};

use crate::link_board::end::End;
use arrayvec::ArrayVec;
use std::marker::Model;

/// What a peer is: frames for a group go to the peers of that role.
#[derive(Clone, Copy, Default, PartialEq, Eq)]
pub enum Role {
    /// An end system.
    #[default]
    EndSystem,
    /// An intermediate system.
    IntermediateSystem,
}

/// A system at the other side of a link.
#[derive(Clone, Copy, Default, PartialEq, Eq)]
pub struct Peer {
    /// What it is.
    pub role: Role,
    /// Where it is.
    pub end: End,
}

/// The most peers that a link word names.
pub(crate) const MOST_PEERS: usize = 16;

/// The ends that a link word names: the local one, and up to 16 peers in their order.
#[derive(Drop)]
pub struct LinkEnds {
    pub(crate) local: End,
    pub(crate) peers: ArrayVec<Peer, MOST_PEERS>,
}

impl Model for LinkEnds {
    ghost use Rattle.frame_links.specs.LinkBoard.Ends.{Ends};

    ghost Value = { Ends };

    ghost view = { λ e. record { local = e.local; peers = e.peers.items } };
}

impl LinkEnds {
    /// The local end.
    pub fn local(&self) -> End
        ensures { result ≡ self.now.local }
    {
        self.local
    }

    /// The peers, in the order of the word.
    pub fn peers(&self) -> &[Peer]
        ensures { result.now ≡ self.now.peers }
    {
        self.peers.as_slice()
    }
}
