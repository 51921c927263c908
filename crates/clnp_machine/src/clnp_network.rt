//! The simulated network: its moves, the runs of scenarios and their journals, and what safe runs are.

pub mod laws;

/// Scenarios: what they say, their events and the moves of these.
pub mod scenarios {
    pub use clnp_plan::scenario_plan::{Body, Event, Move, Scenario, Subnet};
}
