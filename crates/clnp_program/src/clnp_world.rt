//! The simulated network: real frames between the systems of a scenario.

mod copy;
pub mod laws;
mod lines;
mod network;
mod world;
mod writing;

pub use crate::clnp_world::lines::Counts;
pub use crate::clnp_world::world::{World, WorldRefusal};
pub use clnp_machine::clnp_network::scenarios;
pub use clnp_machine::clnp_network::scenarios::Move;
