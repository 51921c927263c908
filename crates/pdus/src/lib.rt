//! PDUs of CLNP and of ES-IS, and all that they are made of: checksums, addresses, options, shared frames; and what is made of
//! them: segments, reports of discards, replies to echo requests.
#![tactic(auto)]

pub mod clnp_options;
pub mod clnp_views;
pub mod esis_pdus;
pub mod fletcher;
pub mod made_pdus;
pub mod nsap;
pub mod pdu_header;
