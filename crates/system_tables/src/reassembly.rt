//! Reassembly buffers of data units: segments kept until a unit is whole or its time ends
//! (ISO/IEC 8473, sections 6.8 and 6.9).

mod counts;
pub mod laws;
mod marks;
mod openings;
mod page;
mod pages;
mod pieces;
mod runs;
mod segment;
mod segments;
mod spans;
mod table;

pub use pieces::Pieces;
pub use segment::{Key, Segment, Shape};
pub use table::{Accept, Expired, SlotNo, Table, TableLimits};
