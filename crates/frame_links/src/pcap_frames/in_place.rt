//! Records read where they stand.
ghost use Rattle.std.specs.Prelude.{◌≡◌, ◌≤◌, length, option_map};
ghost use Rattle.frame_links.specs.PcapFrames.InPlace.{first_in};
ghost use Rattle.frame_links.specs.PcapFrames.Stages.{captured_in};
ghost use Rattle.frame_links.specs.PcapFrames.View.{captured_value};

use crate::pcap_frames::captured::Record;
use crate::pcap_frames::order::{Order, four_at};
use crate::pcap_frames::taking::{MOST_CAPTURED, RECORD_HEADER};

/// The record in front of octets that stand behind a file's header or behind another record, read where it stands.
/// None exactly where no record stands there whole: its captured length is above 262,144, or not all its octets are
/// there.
#[tactic(auto, unfolding(crate::specs::PcapFrames::InPlace::first_in))]
pub fn first_record(order: Order, octets: &[u8]) -> Option<Record<'_>>
    ensures { option_map captured_value result ≡ first_in order octets.now }
{
    if octets.len() < RECORD_HEADER {
        return None;
    }
    let captured = four_at(order, octets, 8);
    if captured > MOST_CAPTURED {
        return None;
    }
    let size = RECORD_HEADER + captured as usize;
    if octets.len() < size {
        return None;
    }
    Some(read_record(order, &octets[..size]))
}

/// The record of these octets.
pub(crate) fn read_record(order: Order, octets: &[u8]) -> Record<'_>
    requires { 16 ≤ length octets.now }
    ensures { captured_value result ≡ captured_in order octets.now }
{
    Record {
        seconds: four_at(order, octets, 0),
        fraction: four_at(order, octets, 4),
        original: four_at(order, octets, 12),
        octets: &octets[RECORD_HEADER..],
    }
}
