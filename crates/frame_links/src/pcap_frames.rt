//! Ethernet captures in the classic pcap form: files read piece by piece or in place, frames looked into, files made.
//!
//! A file is a header of 24 octets and records. The header's magic number tells in which order the octets of each
//! number of the file stand, and whether fractions of seconds are micro- or nanoseconds. A record is a time, a length,
//! and a frame's octets. In an Ethernet frame an OSI PDU stands behind a length (ISO 8802-3) and the octets FE FE 03
//! (ISO 8802-2). A link plays such a file: the PDUs in its frames come through it, one a look.

mod captured;
mod fault;
mod group;
mod header;
mod in_place;
pub mod laws;
mod link;
pub mod link_laws;
mod making;
mod order;
mod reader;
mod seeing;
mod stage;
mod taking;
mod walk;

pub use captured::Record;
pub use fault::{CutFile, PcapFault};
pub use group::{END_SYSTEMS, INTERMEDIATE_SYSTEMS};
pub use header::judge_header;
pub use in_place::first_record;
pub use link::PcapLink;
pub use making::{put_frame, put_header};
pub use order::Order;
pub use reader::PcapReader;
pub use seeing::{Seen, see};
pub use taking::{HEADER, RECORD_HEADER, Took};

/// Octets and text.
pub mod base {
    pub use pdus::nsap::base::{Failed, NoMemory, push, push_decimal, push_hex, push_unhex};
}

/// Addresses on a subnetwork.
pub mod nsaps {
    pub use pdus::nsap::{Snpa, Target};
}

/// Links.
pub mod links {
    pub use crate::link_board::{Got, Link};
}
