//! The header checksum of ISO/IEC 8473 (RFC 994, section 6.11 and its annex on the algorithms): tested, made and adjusted.
//!
//! A header is its octets, 9 to 254 of them. As the standard does, places are counted from 1;
//! the checksum stands in octets 8 and 9. ISO 9542 (RFC 995) makes it alike.

ghost use Rattle.std.specs.Prelude.{◌≡◌, ◌≢◌, ℕ, ◌-◌, ◌%◌, ◌≤◌, ◌⊎◌, ◌↔◌, List, IsTrue, length, sum};
ghost use Rattle.std.specs.List.{slice_set};
ghost use Rattle.pdus.specs.Fletcher.Checksum.{octet, weighted_sum, IsSealed, IsRight, with_checksum, KeepsSums, checksum_octet, sealed};

pub mod laws;

/// Whether the checksum of a header is right: octets 8 and 9 are both 0, or neither is 0 and the
/// sum of the octets and their weighted sum are both 0 modulo 255. Octet i of L weighs L - i + 1.
pub fn is_right(head: &[u8]) -> bool
    requires at_least { 9 ≤ length head.now }
    requires at_most { length head.now ≤ 254 }
    ensures { IsTrue result ↔ IsRight head.now }
{
    if head[7] == 0 || head[8] == 0 {
        return head[7] == head[8];
    }
    let sums = sums_of(head);
    sums.plain == 0 && sums.weighted == 0
}

/// Writes the checksum that the other octets call for into octets 8 and 9, and nothing else.
///
/// With C0 and C1 the sum and the weighted sum of the L octets while octets 8 and 9 are 0, octet 8 is
/// (L - 8) * C0 - C1 and octet 9 is C1 - (L - 7) * C0, both modulo 255, where a 0 is written as 255.
#[tactic(auto, using(crate::proofs::FletcherFacts::Writes::sealing))]
pub fn seal(head: &mut [u8])
    requires at_least { 9 ≤ length head.old }
    requires at_most { length head.old ≤ 254 }
    ensures value { head.new ≡ sealed head.old }
    ensures sealed { IsSealed head.new }
    ensures others { head.new ≡ with_checksum head.old (octet head.new 8) (octet head.new 9) }
{
    head[7] = 0;
    head[8] = 0;
    let sums = sums_of(head);
    let length = head.len();
    // To take n away modulo 255 is to add 254 * n.
    head[7] = octet_of((length - 8) * sums.plain + 254 * sums.weighted);
    head[8] = octet_of(sums.weighted + 254 * ((length - 7) * sums.plain));
}

/// Writes `new` as the octet at `place`, counted from 1, and adjusts the checksum by the change
/// alone, so that the header is right exactly where it was right before, also where it is damaged.
/// A checksum of which an octet is 0 stays as it is.
///
/// Where the octet changes by Z, octet 8 changes by (place - 9) * Z and octet 9 by (8 - place) * Z,
/// both modulo 255, where a 0 is written as 255.
#[tactic(auto, using(crate::proofs::FletcherFacts::Writes::adjusting))]
pub fn adjust(head: &mut [u8], place: usize, new: u8)
    requires at_least { 9 ≤ length head.old }
    requires at_most { length head.old ≤ 254 }
    requires first { 1 ≤ place }
    requires last { place ≤ length head.old }
    requires not_octet_8 { place ≢ 8 }
    requires not_octet_9 { place ≢ 9 }
    ensures written { octet head.new place ≡ new }
    ensures others { head.new ≡ with_checksum (slice_set head.old (place - 1) new) (octet head.new 8) (octet head.new 9) }
    ensures right { IsRight head.new ↔ IsRight head.old }

    // A checksum that is not in use stays.
    ensures unused { (octet head.old 8 ≡ 0) ⊎ (octet head.old 9 ≡ 0) → head.new ≡ slice_set head.old (place - 1) new }

    // Where it is in use, both sums stay as they were modulo 255, also where they are wrong.
    ensures in_use { octet head.old 8 ≢ 0 → octet head.old 9 ≢ 0 → KeepsSums head.old head.new }

    // A header that was sealed is sealed again.
    ensures resealed { (plain : List ℕ) → head.old ≡ sealed plain
        → head.new ≡ sealed (slice_set plain (place - 1) new) }
{
    let old = head[place - 1];
    let octet_8 = head[7];
    let octet_9 = head[8];
    head[place - 1] = new;
    if octet_8 == 0 || octet_9 == 0 {
        return;
    }
    // Each factor and the change have 255 added, so that none is below 0.
    let change = 255 + usize::from(new) - usize::from(old);
    head[7] = octet_of(usize::from(octet_8) + (255 + place - 9) * change);
    head[8] = octet_of(usize::from(octet_9) + (255 + 8 - place) * change);
}

/// Both sums over a header, modulo 255.
#[derive(Clone, Copy)]
struct Sums {
    plain: usize,
    weighted: usize,
}

fn sums_of(head: &[u8]) -> Sums
    requires { length head.now ≤ 254 }
    ensures plain { result.plain ≡ sum head.now % 255 }
    ensures weighted { result.weighted ≡ weighted_sum head.now % 255 }
{
    let mut plain = 0;
    let mut weighted = 0;
    for octet in head {
        plain += usize::from(*octet);
        weighted += plain;
    }
    Sums {
        plain: plain % 255,
        weighted: weighted % 255,
    }
}

/// A number modulo 255 as an octet of the checksum: 0 is written as 255.
fn octet_of(number: usize) -> u8
    ensures { result ≡ checksum_octet number }
{
    match number % 255 {
        0 => 255,
        residue => residue as u8,
    }
}
