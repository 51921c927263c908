//! The commands that run a network of systems: its journal or its trace, and what a storm of events comes to. And what
//! tells a scenario of version 1 in version 2.

pub mod migrate;
mod play;
pub mod sim;
pub mod storm;

pub use clnp_base::command_base::{Status, code};
pub use clnp_machine::system_plan::Telling;

/// Octets, their sources and sinks, and clocks.
pub mod base {
    pub use clnp_base::command_base::base::{
        Clock, Failed, HalfSeconds, NoMemory, ReadStop, Sink, Source, StdSink, StdSource, decimal,
        read_all, write_all,
    };
}

/// Scenario texts, and laws of them.
pub mod scenarios {
    pub use scenario::scenario_writing::laws;
    pub use scenario::scenario_writing::scenarios::{Code, Scenario, read};
}

/// What is so of the runs of every scenario, and of texts of version 1.
pub mod safety {
    pub use clnp_safety::laws::{runs_are_safe, texts_of_version_1_migrate};
}

/// A network of systems, move by move.
pub mod worlds {
    pub use crate::clnp_world::{Counts, Move, World};
}
