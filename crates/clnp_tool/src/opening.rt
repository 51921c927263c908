//! The links of the command line.
use frame_links::udp_links::words::is_link_word;
use frame_links::udp_links::{LinkFault, Traffic, UdpLink};
use std::net::Net;
use std::rt::Clock;

/// The link of the word at a place, of this traffic.
///
/// # Errors
///
/// `Refused` where the word isn't there or is no link word, or where its local end can't be bound; `NoMemory`.
pub fn open<R: Net + AllocGlobal + Clock + Drop>(
    machine: R,
    words: &[String],
    at: usize,
    traffic: &Traffic,
) -> Result<UdpLink<R>, LinkFault> {
    let Some(word) = words.get(at) else {
        return Err(LinkFault::Refused);
    };
    if !is_link_word(word.as_bytes()) {
        return Err(LinkFault::Refused);
    }
    let Ok(traffic) = traffic.share() else {
        return Err(LinkFault::NoMemory);
    };
    UdpLink::open(machine, word.as_bytes(), traffic)
}
