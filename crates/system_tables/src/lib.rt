//! What a system keeps of the PDUs that come: segments until their unit is whole, what was heard of its neighbours; and its
//! configured routes.
#![tactic(auto)]

pub mod esis_tables;
pub mod fair_reassembly;
pub mod forwarding;
pub mod reassembly;
