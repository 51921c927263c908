//! What a system gives out.
use crate::note::Note;
use pdus::pdu_header::nsaps::Target;
use pdus::pdu_header::views::Frame;

/// A frame that goes out on a port.
#[derive(Drop)]
pub struct Sending {
    /// The number of the port, from 0.
    pub port: u8,
    pub to: Target,
    pub frame: Frame,
    /// It carries on a frame that came, and isn't the first transmission of its unit.
    pub forwarded: bool,
}

/// One output of a system.
#[derive(Drop)]
pub enum Output {
    /// A frame goes out.
    Transmit(Sending),
    /// Something is noted.
    Note(Note),
}
