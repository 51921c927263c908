//! The command that joins the units of captured traffic, with a share of reassembly for each of some sources; and captured
//! traffic as a text: those sources, and the frames in the order in which they came.

mod capture;
mod capture_reader;
mod declaration;
mod fault;
mod frame;
mod frame_line;
mod joining;
pub mod laws;
mod told_line;

pub use crate::fair_commands::capture::Capture;
pub use crate::fair_commands::capture_reader::read;
pub use crate::fair_commands::fault::CaptureRefusal;
pub use crate::fair_commands::joining::reassemble;
pub use crate::fair_commands::laws::shares_are_fair;
pub use crate::fair_commands::told_line::{Told, push_end, push_told};

/// NSAP addresses.
pub mod nsaps {
    pub use scenario::nsaps::Address;
}

/// CLNP PDUs.
pub mod clnp {
    pub use scenario::clnp::{Pdu, SegPart, decode_frame};
}

/// Reassembly with a share for each of some sources.
pub mod fair {
    pub use system_tables::fair_reassembly::reassembling::{Accept, SlotNo};
    pub use system_tables::fair_reassembly::{Came, FairTable, Took, laws};
}

/// Octets and text.
pub mod base {
    pub use scenario::base::lines;
}
