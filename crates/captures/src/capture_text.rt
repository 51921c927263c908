//! Shown lines packed back to frames: the inverse of what shows a frame as a line of text.

mod digits;
mod laid;
pub mod laws;
mod pack;
mod pieces;
mod refusal;
mod single;
mod words;

pub use refusal::PackRefusal;
pub use single::pack_line;

/// The call of one line for those who have many: what digits are worth is asked once for all.
pub mod many {
    pub use crate::capture_text::pack::pack_line;
}
