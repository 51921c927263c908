//! Octets, their sources and sinks, clocks, and the lines, words and decimals of a text.
#![tactic(auto)]

mod clock;
pub mod command_base;
mod copying;
mod digits;
mod inline;
mod memory;
mod octets;
mod put;
mod standard;
mod streams;
mod text;

pub use clock::{Clock, HalfSeconds, MemClock};
pub use copying::copy_over;
pub use digits::DigitValues;
pub use inline::InlineOctets;
pub use memory::{MemSink, MemSource};
pub use octets::{NoMemory, Octets, SharedOctets};
pub use put::{HexFault, push, push_decimal, push_hex, push_number, push_unhex};
pub use standard::{StdSink, StdSource};
pub use streams::{Failed, ReadStop, Sink, Source, read_all, write_all};
pub use text::{LineIter, WordIter, decimal, is_skipped, lines, next_line, next_word, same, words};
