//! Laws of the checksum. Each holds for every header, and its function does nothing.

ghost use Rattle.std.specs.Prelude.{◌≡◌, ◌≢◌, ◌↔◌, ℕ, ◌<◌, ◌≤◌, Bool, List, IsTrue, length, slice_index};
ghost use Rattle.pdus.specs.Fletcher.Checksum.{octet, IsRight, IsSealed, has_right_checksum, with_checksum, without_checksum, sealed};
ghost use Rattle.pdus.specs.Fletcher.Laws.{HasChecksum, IsSealedOnce, SharesOthers};

/// For given other octets exactly one pair of octets 8 and 9 seals a header.
pub fn one_checksum()
    ensures { (head : List ℕ) → 9 ≤ length head → IsSealedOnce head }
{}

/// A header that is sealed is what `sealed` makes of any header that has the same other octets.
pub fn sealed_is_unique()
    ensures of_other { (head other : List ℕ) → 9 ≤ length head → SharesOthers head other → octet other 8 < 256
        → octet other 9 < 256 → IsSealed other → other ≡ sealed head }
    ensures of_bare { (head : List ℕ) → 9 ≤ length head → octet head 8 < 256 → octet head 9 < 256 → IsSealed head
        → head ≡ sealed (without_checksum head) }
{}

/// What `sealed` makes has the other octets of its header, and doesn't depend on octets 8 and 9.
pub fn sealed_keeps_others()
    ensures shape { (head : List ℕ) → 9 ≤ length head → SharesOthers head (sealed head) }
    ensures length { (head : List ℕ) → length (sealed head) ≡ length head }
    ensures others { (head : List ℕ) (i : ℕ) → i ≢ 7 → i ≢ 8 → slice_index (sealed head) i ≡ slice_index head i }
    ensures bare { (head : List ℕ) → without_checksum (sealed head) ≡ without_checksum head }
    ensures free { (head : List ℕ) (x y : ℕ) → sealed (with_checksum head x y) ≡ sealed head }
{}

/// A header with the checksum that it has is that header.
pub fn checksum_stays()
    ensures { (head : List ℕ) → with_checksum head (octet head 8) (octet head 9) ≡ head }
{}

/// The test of a right header says what a right header is: one that has a checksum, or has none.
pub fn the_test_is_the_rule()
    ensures test { (head : List ℕ) → IsTrue (has_right_checksum head) ↔ IsRight head }
    ensures either { (head : List ℕ) → IsRight head ↔ ((is_sealed : Bool) × HasChecksum is_sealed head) }
{}
