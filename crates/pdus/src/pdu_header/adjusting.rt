//! Octets of a header written where the checksum is adjusted by the change alone.
ghost use Rattle.std.specs.Prelude.{◌≡◌, ◌≢◌, ◌-◌, ◌≤◌, ◌++◌, ℕ, Bool, List, length, take, drop};
ghost use Rattle.std.specs.List.{slice_set};
ghost use Rattle.pdus.specs.Fletcher.Checksum.{octet};
ghost use Rattle.pdus.specs.PduHeader.Parts.{checked};

/// Writes the octet at a place, counted from 1, and adjusts the checksum where it is in use.
pub(crate) fn adjust(head: &mut [u8], place: usize, new: u8)
    requires at_least { 9 ≤ length head.old }
    requires at_most { length head.old ≤ 254 }
    requires first { 1 ≤ place }
    requires last { place ≤ length head.old }
    requires not_octet_8 { place ≢ 8 }
    requires not_octet_9 { place ≢ 9 }
    ensures { (is_sealed : Bool) (plain : List ℕ) → octet plain 8 ≡ 0 → head.old ≡ checked is_sealed plain
        → head.new ≡ checked is_sealed (slice_set plain (place - 1) new) }
{
    crate::fletcher::adjust(head, place, new);
}

/// Takes over the octets of a changed copy from this index on, and adjusts the checksum, where it is in use,
/// by each octet that changes.
pub(crate) fn adjust_each(head: &mut [u8], changed: &[u8], start: usize)
    requires at_most { length head.old ≤ 254 }
    requires behind { 9 ≤ start }
    requires within { start ≤ length head.old }
    requires same { length changed.now ≡ length head.old }
    ensures { (is_sealed : Bool) (plain : List ℕ) → octet plain 8 ≡ 0 → head.old ≡ checked is_sealed plain
        → head.new ≡ checked is_sealed (take start plain ++ drop start changed.now) }
{
    for index in start..head.len() {
        let new = changed[index];
        if head[index] != new {
            adjust(head, index + 1, new);
        }
    }
}
