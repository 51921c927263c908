//! Captured frames: the lines of a capture read, and frames shown as lines of text.
#![tactic(auto)]

mod capture;
pub mod capture_commands;
pub mod capture_text;
mod digits;
mod esis;
pub mod laws;
mod line;
mod single;
mod vector;
mod words;

pub use capture::{LineRefusal, MOST_OCTETS};
pub use digits::push_spelled;
pub use pdus::esis_pdus::base::is_skipped;
pub use single::{check_line, read_capture, show_line};
pub use vector::Verdict;

/// The calls of one line for those who have many: what digits are worth is asked once for all.
pub mod many {
    pub use crate::capture::read_capture;
    pub use crate::line::show_line;
    pub use crate::vector::check_line;
}

/// CLNP PDUs.
pub mod clnp {
    pub use pdus::esis_pdus::clnp::Kind;
}

/// ES-IS PDUs.
pub mod esis_values {
    pub use pdus::esis_pdus::{HelloRefusal, decode, encode, esh, ish, laws, rd};
}

/// Octets and text.
pub mod base {
    pub use pdus::esis_pdus::base::{
        DigitValues, HexFault, NoMemory, decimal, next_line, next_word, push, push_hex, same, words,
    };
}
