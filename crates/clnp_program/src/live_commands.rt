//! The command that runs a live node.

mod run;

pub use crate::live_commands::run::run_system;
pub use crate::live_node::boards::Ports;

/// What the authors of refused inputs are told.
pub mod advising {
    pub use scenario_advice::{
        Advice, of_capture, of_scenario, of_scenario_of_version_1, of_vectors,
    };
}
