//! What the commands of the program share: how a call ends, the codes of bad inputs, output that waits in a block, and
//! input that is gone over line by line.

mod block;
pub mod code;
mod status;

pub use crate::push_number;
pub use block::{LineFault, LineStop, flush, flush_full, refuse, write_block, write_full_block};
pub use status::Status;

/// Octets and text, their sources and sinks, and clocks.
pub mod base {
    pub use crate::{
        Clock, DigitValues, Failed, HalfSeconds, HexFault, NoMemory, ReadStop, Sink, Source,
        StdSink, StdSource, decimal, is_skipped, lines, next_line, next_word, push, push_decimal,
        push_hex, push_unhex, read_all, same, write_all,
    };
}
