//! Tests of the public calls of the crates of octets, options and PDUs, up to frames as text: worked examples that no
//! command reaches, and a happy path of each call that takes memory. A module for each crate.
#![tactic(auto)]

#[cfg(test)]
mod capture_text_calls;
#[cfg(test)]
mod captures_calls;
#[cfg(test)]
mod clnp_options_calls;
#[cfg(test)]
mod clnp_views_calls;
#[cfg(test)]
mod echo_calls;
#[cfg(test)]
mod error_reports_calls;
#[cfg(test)]
mod esis_pdus_calls;
#[cfg(test)]
mod fletcher_calls;
#[cfg(test)]
mod nsap_calls;
#[cfg(test)]
mod pdu_header_calls;
#[cfg(test)]
mod segmenter_calls;
