//! Safety of the simulated network: without frames from outside each data unit that is handed up was
//! sent before. It is proved over the model alone, and holds for the journal of every scenario.
#![tactic(auto)]

pub mod laws;
