//! The header of a file judged.
ghost use Rattle.std.specs.Prelude.{◌≡◌, ◌==◌, ◌&&◌, ◌%◌, ◌^◌, ◌≤◌, length, MatchResult};
ghost use Rattle.frame_links.specs.PcapFrames.Faults.{IsHeaderFault};
ghost use Rattle.frame_links.specs.PcapFrames.File.{IsHeaderOf};
ghost use Rattle.frame_links.specs.PcapFrames.Magic.{is_magic, order_told};

use crate::pcap_frames::fault::PcapFault;
use crate::pcap_frames::order::{Order, four_at, two_at};

/// The magic number of a file whose fractions of seconds are microseconds.
const MICROSECONDS: u32 = 0xa1b2_c3d4;

/// The magic number of a file whose fractions of seconds are nanoseconds.
const NANOSECONDS: u32 = 0xa1b2_3c4d;

/// The order of the octets of each number of a file with this header, or what is wrong with it: the first of magic
/// number, version and link type that is.
pub fn judge_header(header: &[u8]) -> Result<Order, PcapFault>
    requires { length header.now ≡ 24 }
    ensures { MatchResult result (λ order. IsHeaderOf order header.now) (λ fault. IsHeaderFault header.now fault) }
{
    let Some(order) = order_of(header) else {
        return Err(PcapFault::Magic);
    };
    let major = two_at(order, header, 4);
    let minor = two_at(order, header, 6);
    if !is_version(major, minor) {
        return Err(PcapFault::Version { major, minor });
    }
    let value = four_at(order, header, 20);
    if !is_ethernet(value) {
        return Err(PcapFault::LinkType { value });
    }
    Ok(order)
}

/// Whether a version is 2.4.
fn is_version(major: u16, minor: u16) -> bool
    ensures { result ≡ ((major == 2) && (minor == 4)) }
{
    major == 2 && minor == 4
}

/// Whether a link type is that of an Ethernet: its low 16 bits are 1.
fn is_ethernet(link: u32) -> bool
    ensures { result ≡ (link % 2 ^ 16 == 1) }
{
    link % 65_536 == 1
}

/// The order in which the first four octets are a magic number.
fn order_of(header: &[u8]) -> Option<Order>
    requires { 4 ≤ length header.now }
    ensures { result ≡ order_told header.now }
{
    if is_magic(four_at(Order::HighFirst, header, 0)) {
        return Some(Order::HighFirst);
    }
    if is_magic(four_at(Order::LowFirst, header, 0)) {
        return Some(Order::LowFirst);
    }
    None
}

/// Whether a number is one of the two.
fn is_magic(number: u32) -> bool
    ensures { result ≡ is_magic number }
{
    number == MICROSECONDS || number == NANOSECONDS
}
