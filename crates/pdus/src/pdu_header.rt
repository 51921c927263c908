//! CLNP PDUs: their octets and their values.

mod adjusting;
mod cells;
mod decoder;
mod encoding;
mod header;
mod kind;
pub mod laws;
mod layout;
mod parts;
mod pdu;
mod report;
mod write;

pub use decoder::{decode, decode_frame};
pub use encoding::{EncodeRefusal, encode};
pub use header::{Header, HeaderRefusal};
pub use kind::Kind;
pub use layout::{FIXED_PART, SEGMENTATION_PART};
pub use parts::Parts;
pub use pdu::{Broken, Pdu, Refusal, ReportTo, SegPart};
pub use report::reportable;

/// Octets and text.
pub mod base {
    pub use crate::nsap::base::{
        DigitValues, HexFault, InlineOctets, NoMemory, Octets, SharedOctets, copy_over, decimal,
        is_skipped, lines, next_line, next_word, push, push_decimal, push_hex, push_number, same,
        words,
    };
}

/// NSAP addresses, their prefixes, SNPAs, and targets.
pub mod nsaps {
    pub use crate::nsap::{Address, NsapFault, Prefix, Snpa, Target, laws};
}

/// The options part of a header.
pub mod options {
    pub use crate::clnp_options::{
        OptionList, OptionRef, Reason, advance_route, check, first_option, is_route_complete, laws,
        mark_congestion, place_of_unfit, record_title, route_target,
    };
}

/// The checksum of a header.
pub mod checksums {
    pub use crate::fletcher::{adjust, is_right, seal};
}

/// Octets handed on.
pub mod views {
    pub use crate::clnp_views::{Frame, Head, View};
}
