//! What is in a frame.
ghost use Rattle.std.specs.Prelude.{◌≡◌, ◌≤◌, length};
ghost use Rattle.frame_links.specs.PcapFrames.Frames.{is_osi, seen_in, tells_osi};
ghost use Rattle.frame_links.specs.PcapFrames.View.{seen_value};

use byteorder::{BigEndian, ByteOrder};
use pdus::nsap::Snpa;

/// The octets before the PDU: destination, source, length and three octets that tell OSI.
const BEFORE_PDU: usize = 17;

/// The octets before what the length counts: destination, source and the length.
const BEFORE_COUNTED: usize = 14;

/// What is in the octets of an Ethernet frame.
#[derive(Clone, Copy)]
pub enum Seen<'a> {
    /// No OSI PDU.
    Other,
    /// An OSI PDU of which not all octets are there.
    Cut,
    /// An OSI PDU, with the frame's destination and source, which have six octets each. The PDU has at most 1,497
    /// octets, and may have none; what follows it in its frame is padding.
    Osi { to: Snpa, from: Snpa, pdu: &'a [u8] },
}

/// What is in the octets of an Ethernet frame (ISO 8802-3, with the header of ISO 8802-2 for OSI network layer PDUs).
///
/// `Other` exactly where there are fewer than 17 octets, the length behind destination and source is below 3 or above
/// 1,500, or FE FE 03 doesn't follow it; else `Cut` exactly where the length passes the octets that are there.
#[tactic(auto, unfolding(crate::specs::PcapFrames::Frames::seen_in))]
pub fn see(octets: &[u8]) -> Seen<'_>
    ensures { seen_value result ≡ seen_in octets.now }
{
    if !is_osi(octets) {
        return Seen::Other;
    }
    let end = BEFORE_COUNTED + usize::from(BigEndian::read_u16(&octets[12..]));
    if octets.len() < end {
        return Seen::Cut;
    }
    Seen::Osi {
        to: station(&octets[..6]),
        from: station(&octets[6..12]),
        pdu: &octets[BEFORE_PDU..end],
    }
}

/// Whether the octets are those of a frame with an OSI PDU, or begin as one.
fn is_osi(octets: &[u8]) -> bool
    ensures { result ≡ is_osi octets.now }
{
    if octets.len() < BEFORE_PDU {
        return false;
    }
    let length = BigEndian::read_u16(&octets[12..]);
    3 <= length && length <= 1500 && tells_osi(octets)
}

/// Whether FE FE 03 stand behind the length.
fn tells_osi(octets: &[u8]) -> bool
    requires { 17 ≤ length octets.now }
    ensures { result ≡ tells_osi octets.now }
{
    octets[14] == 0xfe && octets[15] == 0xfe && octets[16] == 0x03
}

/// The address of these six octets.
fn station(octets: &[u8]) -> Snpa
    requires { length octets.now ≡ 6 }
    ensures { result ≡ octets.now }
{
    let Ok(station) = Snpa::from_bytes(octets) else {
        unreachable!()
    };
    station
}
