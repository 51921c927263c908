//! Reassembly with a share for each of some sources: a source that has a share has reassembly buffers of its own, so that
//! nothing that comes from others takes them from it (ISO/IEC 8473, sections 6.8 and 6.9).

mod came;
mod fair;
pub mod laws;
mod outline;
mod share;

pub use came::Came;
pub use fair::{FairTable, Took};
pub use share::Share;

/// Reassembly buffers.
pub mod reassembling {
    pub use crate::reassembly::{Accept, SlotNo, TableLimits};
}
