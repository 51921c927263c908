//! Octets written as hexadecimal digits, sixteen octets at a time: `hex` is asked for the sixteen digits, and those of each
//! octet are looked up in a vector.
//!
//! To ask it for each octet takes seven times as long.
ghost use Rattle.std.specs.Prelude.{◌≡◌, ◌*◌, ◌/◌, ◌%◌, length, map, slice_index};
ghost use Rattle.hex.specs.Hex.{encode_lower, encode_with, lower_digits};

use std::simd::prelude::*;

/// Writes octets over a place as hexadecimal digits in lower case, two an octet; fewer than sixteen are too few for a vector.
pub(crate) fn lay_digits(octets: &[u8], place: &mut [u8])
    requires { length place.old ≡ 2 * length octets.now }
    ensures { place.new ≡ encode_lower octets.now }
{
    if octets.len() < 16 {
        return lay_few_digits(octets, place);
    }
    lay_blocks(octets, place);
}

/// Writes octets over a place as `hex` does.
fn lay_few_digits(octets: &[u8], place: &mut [u8])
    requires { length place.old ≡ 2 * length octets.now }
    ensures { place.new ≡ encode_lower octets.now }
{
    match hex::encode_to_slice(octets, place) {
        Ok(()) => {}
        Err(_) => unreachable!(),
    }
}

/// Writes octets over a place block by block; those behind the last whole block are too few for a vector.
fn lay_blocks(octets: &[u8], place: &mut [u8])
    requires { length place.old ≡ 2 * length octets.now }
    ensures { place.new ≡ encode_lower octets.now }
{
    let digits = all_digits();
    let whole = octets.len() / 16;
    for block in 0..whole {
        let pairs = pairs_of(digits, u8x16::from_slice(&octets[16 * block..]));
        pairs.copy_to_slice(&mut place[32 * block..]);
    }
    match hex::encode_to_slice(&octets[16 * whole..], &mut place[32 * whole..]) {
        Ok(()) => {}
        Err(_) => unreachable!(),
    }
}

/// The sixteen digits.
fn all_digits() -> u8x16
    ensures { result ≡ lower_digits }
{
    let mut digits = [0; 16];
    let octets = [0x01, 0x23, 0x45, 0x67, 0x89, 0xab, 0xcd, 0xef];
    match hex::encode_to_slice(octets, &mut digits) {
        Ok(()) => u8x16::from_array(digits),
        Err(_) => unreachable!(),
    }
}

/// The digits of sixteen octets, two an octet.
fn pairs_of(digits: u8x16, octets: u8x16) -> u8x32
    ensures { result ≡ encode_with digits octets }
{
    let high = high_digits(digits, octets);
    let low = low_digits(digits, octets);
    high.shuffle(
        low,
        [
            0, 16, 1, 17, 2, 18, 3, 19, 4, 20, 5, 21, 6, 22, 7, 23, 8, 24, 9, 25, 10, 26, 11, 27,
            12, 28, 13, 29, 14, 30, 15, 31,
        ],
    )
}

/// The first digit of each of sixteen octets.
fn high_digits(digits: u8x16, octets: u8x16) -> u8x16
    ensures { result ≡ map (λ octet. slice_index digits (octet / 16)) octets }
{
    digits.swizzle_dyn(octets >> u8x16::splat(4))
}

/// The second digit of each of sixteen octets.
fn low_digits(digits: u8x16, octets: u8x16) -> u8x16
    ensures { result ≡ map (λ octet. slice_index digits (octet % 16)) octets }
{
    digits.swizzle_dyn(octets & u8x16::splat(15))
}
