//! What a scenario says: how long things last, the subnetworks and systems that it declares, and its events; and what is
//! so of each that may be run.

mod event;
mod kept_ask;
pub mod laws;
mod plan;
mod spot;

pub use event::{Body, Event, Move};
pub use kept_ask::KeptAsk;
pub use plan::{Scenario, Subnet};
pub use spot::Spot;
