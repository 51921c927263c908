//! Links to subnetworks, and a board of them. A link carries whole frames; a board has a port for each link, and a link
//! that fails is detached from its port and touched no more, whatever becomes of the others. Beside them: the ends of links
//! over UDP with the words that name them, and a link that gives the frames of a text of capture lines.

mod board;
mod capture_line;
mod end;
mod ends;
pub mod laws;
mod link;
mod link_word;
mod memory;
mod outbox;
mod port;
mod ports;
mod recorded;
mod word_part;

pub use board::Board;
pub use end::End;
pub use ends::{LinkEnds, Peer, Role};
pub use link::{Got, Link};
pub use link_word::is_link_word;
pub use memory::{MemFrame, MemLink};
pub use ports::{Polled, Ports, Sent};
pub use recorded::RecordedLink;

/// Octets and text, their sources and sinks, and clocks.
pub mod base {
    pub use clnp_base::{
        Clock, Failed, HalfSeconds, HexFault, MemClock, MemSink, MemSource, NoMemory, Octets,
        ReadStop, Sink, Source, StdSink, StdSource, decimal, lines, next_line, next_word, push,
        push_decimal, push_hex, push_unhex, read_all, words, write_all,
    };
}

/// Addresses on a subnetwork.
pub mod nsaps {
    pub use pdus::nsap::{Snpa, Target};
}
