//! A live node: one system whose ports have links, run turn by turn.

mod agenda;
mod lines;
mod looks;
mod node;
mod outputs;
mod run;
mod turns;

pub use crate::live_node::run::{RunStop, run_node};

/// What a board of links is to a node.
pub mod boards {
    pub use frame_links::link_board::Ports;
}
