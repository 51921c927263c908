//! ES-IS PDUs: end system hellos, intermediate system hellos and redirects, their octets and their
//! values (ISO 9542 as printed in RFC 995, section 7).

mod addresses;
mod decoder;
mod encoding;
mod fields;
mod hello;
mod kind;
pub mod laws;
mod pdu;
mod write;

pub use crate::pdu_header::options::first_option;
pub use addresses::AddressList;
pub use decoder::decode;
pub use encoding::encode;
pub use hello::{HelloRefusal, esh, ish, rd};
pub use pdu::{EsisBody, EsisPdu, EsisRefusal};

/// NSAP addresses.
pub mod nsaps {
    pub use crate::pdu_header::nsaps::Address;
}

/// CLNP PDUs.
pub mod clnp {
    pub use crate::pdu_header::{Broken, Kind, Pdu, Refusal, SegPart, decode, laws};
}

/// Octets and text.
pub mod base {
    pub use crate::pdu_header::base::{
        DigitValues, HexFault, NoMemory, decimal, is_skipped, next_line, next_word, push,
        push_decimal, push_hex, push_number, same, words,
    };
}
