//! Destinations and sources of frames, as words.
ghost use Rattle.std.specs.Prelude.{◌≡◌, ◌++◌, OnOk};
ghost use Rattle.captures.specs.CaptureCommands.Stations.{destination_of, destination_word, station_of};

use clnp_base::command_base::base::{NoMemory, push, push_hex, same};
use frame_links::pcap_frames::nsaps::Snpa;
use frame_links::pcap_frames::{END_SYSTEMS, INTERMEDIATE_SYSTEMS};

/// Appends the word of a destination: `es`, `is`, or its hexadecimal digits in lower case.
pub(crate) fn push_destination(to: &Snpa, out: &mut Vec<u8>) -> Result<(), NoMemory>
    ensures { OnOk result (out.new.items ≡ out.old.items ++ destination_word to.now) }
{
    if same(to.as_bytes(), &END_SYSTEMS) {
        return push(b"es", out);
    }
    if same(to.as_bytes(), &INTERMEDIATE_SYSTEMS) {
        return push(b"is", out);
    }
    push_hex(to.as_bytes(), out)
}

/// The destination that a word names: `es`, `is`, or an address of six octets.
pub(crate) fn read_destination(word: &[u8]) -> Option<Snpa>
    ensures { result ≡ destination_of word.now }
{
    if same(word, b"es") {
        return Some(group(&END_SYSTEMS));
    }
    if same(word, b"is") {
        return Some(group(&INTERMEDIATE_SYSTEMS));
    }
    read_station(word)
}

/// The address of six octets that a word spells: two hexadecimal digits an octet, in either case. Dots are skipped.
pub(crate) fn read_station(word: &[u8]) -> Option<Snpa>
    ensures { result ≡ station_of word.now }
{
    let station = Snpa::from_text(word).ok()?;
    if station.as_bytes().len() == 6 {
        Some(station)
    } else {
        None
    }
}

/// The address of a group.
fn group(octets: &[u8; 6]) -> Snpa
    ensures { result ≡ octets.now }
{
    let Ok(station) = Snpa::from_bytes(octets) else {
        unreachable!()
    };
    station
}
