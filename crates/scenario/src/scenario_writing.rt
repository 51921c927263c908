//! What is written of scenarios: their texts, those of seeds, and texts of version 1 in version 2.

pub mod laws;
mod migration;
mod seed;
mod writer;

pub use migration::migrate;
pub use seed::from_seed;
pub use writer::write;

/// Scenario texts, what is read of them, and what they say of systems.
pub mod scenarios {
    pub use crate::{
        Body, Code, Event, Scenario, ScenarioRefusal, Subnet, base, clnp, hearing, nsaps, read,
        read_for_run, read_version_1, routing, system_plan, views,
    };
}
