//! Tests of the public calls of reassembly, the ES-IS tables, routes, journal lines and scenario texts: worked examples, and a
//! happy path of each call that takes memory. A module for each crate or part.
#![tactic(auto)]

#[cfg(test)]
mod clnp_plan_calls;
#[cfg(test)]
mod esis_tables_calls;
#[cfg(test)]
mod forwarding_calls;
#[cfg(test)]
mod reassembly_calls;
#[cfg(test)]
mod scenario_calls;
#[cfg(test)]
mod seeing;
