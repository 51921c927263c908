//! Octets copied over others.
ghost use Rattle.std.specs.Prelude.{◌≡◌, ◌*◌, ◌≤◌, length};

use std::simd::prelude::*;

/// Writes octets over a place of as many.
#[inline(always)]
pub fn copy_over(octets: &[u8], place: &mut [u8])
    requires { length octets.now ≡ length place.old }
    ensures { place.new ≡ octets.now }
{
    // Few octets are copied in their place, without a call of the C library.
    match octets.len() {
        0 => {}
        1 => place[0] = octets[0],
        2..=3 => copy_ends::<2>(octets, place),
        4..=7 => copy_ends::<4>(octets, place),
        8..=15 => copy_ends::<8>(octets, place),
        16..=32 => copy_ends::<16>(octets, place),
        _ => place.copy_from_slice(octets),
    }
}

/// The same, of up to twice as many as `PART`: the first so many, and then the last so many, over some of the first, too.
#[inline(always)]
fn copy_ends<const PART: usize>(octets: &[u8], place: &mut [u8])
    requires size { length octets.now ≡ length place.old }
    requires least { PART ≤ length octets.now }
    requires most { length octets.now ≤ 2 * PART }
    ensures { place.new ≡ octets.now }
{
    // Both are read before the first is written, so that it needn't be asked whether the two places overlap.
    let last = octets.len() - PART;
    let front = Simd::<u8, PART>::from_slice(octets);
    let end = Simd::<u8, PART>::from_slice(&octets[last..]);
    front.copy_to_slice(place);
    end.copy_to_slice(&mut place[last..]);
}
