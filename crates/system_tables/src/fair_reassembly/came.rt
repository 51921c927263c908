//! Frames as they came.

use pdus::pdu_header::views::Frame;

/// A frame, and the moment at which it came, in ticks of 500 ms.
#[derive(Drop)]
pub struct Came {
    pub moment: u64,
    pub frame: Frame,
}
