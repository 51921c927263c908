//! The systems of a network: hosts, routers, and a system that is one of the two (ISO/IEC 8473; ISO 9542).
//!
//! They stand on three entities that hosts and routers have alike. `Local`, at their own addresses: they make data units,
//! with identifiers where these may be segmented, and receive and reassemble what is for them (ISO/IEC 8473, sections 6.1,
//! 6.2, 6.8 and 6.9). `EsisEntity`: what a system says of itself to its neighbours, and hears of them (ISO 9542, section 6).
//! `SystemEntity`: whatever comes to them, frames, moments and restarts, and units that they make (ISO/IEC 8473, section 6;
//! ISO 9542, section 6).
#![tactic(auto)]

mod action;
mod endpoint;
mod entity;
mod esis;
mod esis_redirecting;
mod host;
mod input;
pub mod laws;
mod local;
mod onward;
mod passage;
mod passing;
mod pending;
mod pool;
mod purpose;
mod redirecting;
mod refusal;
mod router;
mod sending;
mod system;
mod way;

pub use action::{Action, Made};
pub use entity::{Arrival, SystemEntity};
pub use esis::EsisEntity;
pub use esis_redirecting::send_redirect;
pub use host::EndSystem;
pub use input::Input;
pub use local::Local;
pub use passing::Passing;
pub use pool::{DrawRefusal, IdPool};
pub use refusal::refusal_note;
pub use router::Router;
pub use sending::{give_pieces, send_unit};
pub use system::System;
