//! The program `clnp` over its words, its input, its output and standard error: its commands, their
//! top call, what it says of itself and of a fault, and its exit number.
//!
//! [`run`] is a whole call of the program, and [`clnp_main`] the top call of its commands: words and
//! input in, output and a status out. It simulates a connectionless network (ISO/IEC 8473, RFC 994),
//! shows its frames as text, judges vectors of frames, and counts what a storm of events comes to.
//!
//! Its parts are what the commands stand on and nothing below needs: the simulated network, a live node, and the commands
//! on scenarios, on one live system and on captured traffic.
#![tactic(auto)]

mod advise;
mod call;
pub mod clnp_world;
mod command;
pub mod fair_commands;
mod fault;
mod help;
pub mod live_commands;
pub mod live_node;
pub mod network_commands;
mod pages;
mod top;

pub use crate::live_commands::advising::Advice;
pub use crate::network_commands::{Status, scenarios};
pub use call::{end, end_without_link, run};
pub use command::{Command, StreamedCommand, WholeCommand, link_places};
pub use fault::Fault;
pub use top::clnp_main;

/// Octets, their sources and sinks, and clocks.
pub mod base {
    pub use crate::network_commands::base::{
        Clock, Failed, HalfSeconds, NoMemory, Sink, Source, StdSink, StdSource, write_all,
    };
}

/// A network of systems, move by move.
pub mod worlds {
    pub use crate::network_commands::worlds::{Counts, Move, World};
}
