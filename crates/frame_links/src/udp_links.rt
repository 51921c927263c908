//! Links over UDP.

mod receivers;
mod socket;
mod traffic;
mod udp;

pub use socket::Datagrams;
pub use traffic::Traffic;
pub use udp::{LinkFault, UdpLink};

/// Links, and a board of them.
pub mod links {
    pub use crate::link_board::{Board, Got, Link};
}

/// The words that name a link.
pub mod words {
    pub use crate::link_board::{End, LinkEnds, Peer, Role, is_link_word};
}

/// Addresses on a subnetwork.
pub mod nsaps {
    pub use crate::link_board::nsaps::{Snpa, Target};
}

/// A failure of a link.
pub mod base {
    pub use crate::link_board::base::Failed;
}
