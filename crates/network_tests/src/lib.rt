//! Tests of the public calls of hosts, of routers, and of the enum of both: each is called where memory is there, and what
//! it gives out is compared; of the local entity, the simulated network, the commands and the program: worked examples, and a
//! happy path of each call that takes memory; of texts of captured traffic with their bad lines; and of runs of live nodes over
//! boards of links.
#![tactic(auto)]

#[cfg(test)]
mod clnp_main_calls;
#[cfg(test)]
mod clnp_program_calls;
#[cfg(test)]
mod clnp_world_calls;
#[cfg(test)]
mod fair_texts;
#[cfg(test)]
mod host_calls;
#[cfg(test)]
mod live_captured;
#[cfg(test)]
mod live_cases;
#[cfg(test)]
mod live_clock;
#[cfg(test)]
mod live_noting;
#[cfg(test)]
mod live_running;
#[cfg(test)]
mod live_runs;
#[cfg(test)]
mod local_entity_calls;
#[cfg(test)]
mod network;
#[cfg(test)]
mod router_calls;
#[cfg(test)]
mod seeing;
#[cfg(test)]
mod system_calls;
