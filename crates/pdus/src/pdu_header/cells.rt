//! The octets of a header, changed in place.
ghost use Rattle.std.specs.Prelude.{◌≡◌, ◌≢◌, ◌-◌, ◌≤◌, ◌++◌, ℕ, Bool, List, length, take, drop, IsSome};
ghost use Rattle.std.specs.List.{slice_set};
ghost use Rattle.pdus.specs.Fletcher.Checksum.{octet, sealed};
ghost use Rattle.pdus.specs.ClnpOptions.Parameter.{parameters, source_route, recording, quality};
ghost use Rattle.pdus.specs.ClnpOptions.Rules.{IsWellFormed};
ghost use Rattle.pdus.specs.ClnpOptions.Grammar.{IsTitle};
ghost use Rattle.pdus.specs.ClnpOptions.Edits.{edited, advanced, recorded, marked, target_of};
ghost use Rattle.pdus.specs.PduHeader.Parts.{checked};
ghost use Rattle.pdus.specs.PduHeader.Headers.{IsEdited};

use crate::nsap::base::InlineOctets;
use crate::pdu_header::adjusting;
use crate::pdu_header::layout::MOST_HEADER;

/// Makes the checksum.
pub(crate) fn seal(cells: &mut InlineOctets<MOST_HEADER>)
    requires { 9 ≤ length cells.old }
    ensures { cells.new ≡ sealed cells.old }
{
    cells.change(0, |head: &mut [u8]| crate::fletcher::seal(head));
}

/// Writes the octet at a place, counted from 1, and adjusts the checksum where it is in use.
pub(crate) fn adjust(cells: &mut InlineOctets<MOST_HEADER>, place: usize, new: u8)
    requires head { 9 ≤ length cells.old }
    requires first { 1 ≤ place }
    requires last { place ≤ length cells.old }
    requires not_octet_8 { place ≢ 8 }
    requires not_octet_9 { place ≢ 9 }
    ensures changed { (is_sealed : Bool) (plain : List ℕ) → octet plain 8 ≡ 0 → cells.old ≡ checked is_sealed plain
        → cells.new ≡ checked is_sealed (slice_set plain (place - 1) new) }
    ensures len { length cells.new ≡ length cells.old }
{
    cells.change(0, |head: &mut [u8]| adjusting::adjust(head, place, new));
}

/// Takes over the octets of a changed copy from this index on, and adjusts the checksum, where it is in use,
/// by each octet that changes.
pub(crate) fn take_over(cells: &mut InlineOctets<MOST_HEADER>, changed: &[u8], start: usize)
    requires behind { 9 ≤ start }
    requires within { start ≤ length cells.old }
    requires len { length changed.now ≡ length cells.old }
    ensures changed { (is_sealed : Bool) (plain : List ℕ) → octet plain 8 ≡ 0 → cells.old ≡ checked is_sealed plain
        → cells.new ≡ checked is_sealed (take start plain ++ drop start changed.now) }
    ensures len { length cells.new ≡ length cells.old }
{
    cells.change(
        0,
        |head: &mut [u8]| adjusting::adjust_each(head, changed, start),
    );
}

/// Moves the pointer of the source route in the options, which begin at this index.
pub(crate) fn advance_route(cells: &mut InlineOctets<MOST_HEADER>, start: usize)
    requires start { start ≤ length cells.old }
    requires well_formed { IsWellFormed (drop start cells.old) }
    requires target { IsSome (target_of (parameters (drop start cells.old))) }
    ensures { IsEdited start (edited source_route advanced) cells.old cells.new }
{
    cells.change(
        start,
        |options: &mut [u8]| crate::clnp_options::advance_route(options),
    );
}

/// Notes a title in the recording of route in the options, which begin at this index.
pub(crate) fn record_title(cells: &mut InlineOctets<MOST_HEADER>, start: usize, title: &[u8])
    requires start { start ≤ length cells.old }
    requires well_formed { IsWellFormed (drop start cells.old) }
    requires title { IsTitle title.now }
    ensures { IsEdited start (edited recording (recorded title.now)) cells.old cells.new }
{
    cells.change(
        start,
        |options: &mut [u8]| crate::clnp_options::record_title(options, title),
    );
}

/// Sets the congestion bit in the options, which begin at this index.
pub(crate) fn mark_congestion(cells: &mut InlineOctets<MOST_HEADER>, start: usize)
    requires start { start ≤ length cells.old }
    requires well_formed { IsWellFormed (drop start cells.old) }
    ensures { IsEdited start (edited quality marked) cells.old cells.new }
{
    cells.change(
        start,
        |options: &mut [u8]| crate::clnp_options::mark_congestion(options),
    );
}
