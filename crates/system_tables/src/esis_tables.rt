//! What a system knows of its neighbours: which end systems, which intermediate systems and which better hops were heard of, for
//! how long each holds, and which next hop follows (ISO 9542, sections 6 and 7).

mod fact;
pub mod laws;
mod table;
mod tables;

pub use crate::esis_tables::fact::{EsisLimits, Gone, Heard, Neighbour, TableKind};
pub use crate::esis_tables::tables::Tables;
