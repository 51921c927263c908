//! What a scenario says of one system, what a system is asked and gives out, the lines of a journal, and the words of
//! which lines are written.
#![tactic(auto)]

mod ask;
mod config;
mod digits;
mod journal;
mod line;
mod note;
mod output;
pub mod scenario_plan;

pub use ask::{Ask, SendRefusal};
pub use config::{Limits, PortConfig, Role, Settings, SystemConfig};
pub use journal::{
    Telling, injection_text, journal_text, late_text, loss_text, nobody_text, push_end,
    receipt_text, resize_text, transmission_text, void_text,
};
pub use line::{Word, kind_word, octets_word, on_or_off, push_line, push_words, target_text};
pub use note::{Note, Why};
pub use output::{Output, Sending};

/// NSAP addresses, their prefixes, SNPAs, and targets.
pub mod nsaps {
    pub use pdus::pdu_header::nsaps::{Address, Prefix, Snpa, Target, laws};
}

/// CLNP PDUs.
pub mod clnp {
    pub use pdus::pdu_header::{
        FIXED_PART, Header, HeaderRefusal, Kind, Parts, Pdu, Refusal, SEGMENTATION_PART, SegPart,
        decode, decode_frame, laws,
    };
}

/// Octets and text.
pub mod base {
    pub use pdus::pdu_header::base::{
        DigitValues, InlineOctets, NoMemory, Octets, SharedOctets, decimal, is_skipped, lines,
        next_line, next_word, push, same, words,
    };
}

/// The options part of a header.
pub mod options {
    pub use pdus::pdu_header::options::{OptionList, Reason, laws};
}

/// Octets handed on.
pub mod views {
    pub use pdus::pdu_header::views::{Frame, Head, View};
}

/// What is heard of neighbours.
pub mod hearing {
    pub use system_tables::esis_tables::{
        EsisLimits, Gone, Heard, Neighbour, TableKind, Tables, laws,
    };
}

/// Configured routes.
pub mod routing {
    pub use system_tables::forwarding::{Route, RouteRefusal, Routes, laws};
}
