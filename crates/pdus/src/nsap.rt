//! Addresses of the connectionless network protocol: NSAP addresses (ISO/IEC 8473), their prefixes, and the
//! addresses of points of attachment to a subnetwork (ISO 9542).

mod address;
mod fault;
pub mod laws;
mod octets;
mod prefix;
mod snpa;
mod target;
mod text;

pub use crate::nsap::address::Address;
pub use crate::nsap::fault::NsapFault;
pub use crate::nsap::prefix::Prefix;
pub use crate::nsap::snpa::Snpa;
pub use crate::nsap::target::Target;

/// Octets and text.
pub mod base {
    pub use clnp_base::{
        DigitValues, Failed, HexFault, InlineOctets, NoMemory, Octets, SharedOctets, copy_over,
        decimal, is_skipped, lines, next_line, next_word, push, push_decimal, push_hex,
        push_number, push_unhex, same, words,
    };
}
