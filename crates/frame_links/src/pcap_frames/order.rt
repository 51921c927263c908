//! Numbers of a file, in either order of their octets.
ghost use Rattle.std.specs.Prelude.{◌≡◌, ◌+◌, ◌≤◌, drop, length};
ghost use Rattle.frame_links.specs.PcapFrames.Numbers.{value};

use byteorder::{BigEndian, ByteOrder, LittleEndian};

/// In which order the octets of each number of a file stand.
#[derive(Clone, Copy)]
pub enum Order {
    /// The highest octet first.
    HighFirst,
    /// The lowest octet first.
    LowFirst,
}

/// The number of two octets from an index on.
#[tactic(auto, unfolding(crate::specs::PcapFrames::Numbers::value))]
pub(crate) fn two_at(order: Order, octets: &[u8], at: usize) -> u16
    requires { at + 2 ≤ length octets.now }
    ensures { result ≡ value order 2 (drop at octets.now) }
{
    match order {
        Order::HighFirst => BigEndian::read_u16(&octets[at..]),
        Order::LowFirst => LittleEndian::read_u16(&octets[at..]),
    }
}

/// The number of four octets from an index on.
#[tactic(auto, unfolding(crate::specs::PcapFrames::Numbers::value))]
pub(crate) fn four_at(order: Order, octets: &[u8], at: usize) -> u32
    requires { at + 4 ≤ length octets.now }
    ensures { result ≡ value order 4 (drop at octets.now) }
{
    match order {
        Order::HighFirst => BigEndian::read_u32(&octets[at..]),
        Order::LowFirst => LittleEndian::read_u32(&octets[at..]),
    }
}
