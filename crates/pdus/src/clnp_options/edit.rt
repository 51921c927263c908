//! What a router reads and changes in the options of a PDU that it forwards: where a source route
//! leads, whether it is complete, the pointer behind it, the recording of route, the congestion bit.

ghost use Rattle.std.specs.Prelude.{◌≡◌, ◌+◌, ◌≤◌, ◌≢◌, Bool, length, min, option_copied, IsSome, MatchOption, None, Some, slice_index, ◌==◌};
ghost use Rattle.pdus.specs.ClnpOptions.Parameter.{parameters, spelled, source_route, recording, quality};
ghost use Rattle.pdus.specs.ClnpOptions.Rules.{IsWellFormed, Accepts};
ghost use Rattle.pdus.specs.ClnpOptions.Grammar.{IsTitle};
ghost use Rattle.pdus.specs.ClnpOptions.Edits as edits;
ghost use Rattle.pdus.specs.ClnpOptions.Edits.{edited, target_of, is_complete, value_of, pointer_of, advanced, recorded, marked};
ghost use Rattle.pdus.specs.ClnpOptions.Located.{StandsAt, LeadsOn};

use crate::clnp_options::codes::{QUALITY, RECORDING, SOURCE_ROUTE};
use crate::clnp_options::read::first_option;

/// The pointer of a recording that was ended.
const ENDED: u8 = 255;
/// The format of the globally unique values.
const GLOBALLY_UNIQUE: u8 = 0xc0;
/// The type code of a complete source route.
const COMPLETE: u8 = 1;
/// Congestion experienced.
const CONGESTION: u8 = 0x08;

/// The priority that a value of the priority option means: 0 normal to 14 highest.
pub fn level(priority: u8) -> u8
    ensures { result ≡ min priority 14 }
{
    priority.min(14)
}

/// The title at the pointer of the part's source route; none where there is no source route, or it
/// is exhausted.
pub fn route_target(part: &[u8]) -> Option<&[u8]>
    requires { IsWellFormed part.now }
    ensures { option_copied result ≡ target_of (parameters part.now) }
{
    let Some((start, end)) = value_range(part, SOURCE_ROUTE) else {
        return None;
    };
    title_at(&part[start..end])
}

/// Whether the part has a complete source route: the PDU goes through the systems that it names and no others.
pub fn is_route_complete(part: &[u8]) -> bool
    requires { IsWellFormed part.now }
    ensures { result ≡ is_complete (parameters part.now) }
{
    let Some((start, end)) = value_range(part, SOURCE_ROUTE) else {
        return false;
    };
    has_complete_kind(&part[start..end])
}

/// Moves the pointer of the part's source route past the title there and its length octet.
pub fn advance_route(part: &mut [u8])
    requires short { length part.old ≤ 255 }
    requires well_formed { IsWellFormed part.old }
    requires target { IsSome (target_of (parameters part.old)) }
    ensures octets { part.new ≡ spelled (edited source_route advanced (parameters part.old)) }
    ensures options { parameters part.new ≡ edited source_route advanced (parameters part.old) }
    ensures well_formed { IsWellFormed part.new }
    ensures accepted { (is_report : Bool) → Accepts is_report part.old → Accepts is_report part.new }
{
    let Some((start, end)) = value_range(part, SOURCE_ROUTE) else {
        return;
    };
    advance(&mut part[start..end]);
}

/// Notes a router's title, of 1 to 20 octets, in the part's recording of route: puts it where it
/// fits, else ends the recording by the pointer 255. A part without a recording, and a recording
/// that was ended, stay as they are.
pub fn record_title(part: &mut [u8], title: &[u8])
    requires short { length part.old ≤ 255 }
    requires well_formed { IsWellFormed part.old }
    requires title { IsTitle title.now }
    ensures octets { part.new ≡ spelled (edited recording (recorded title.now) (parameters part.old)) }
    ensures options { parameters part.new ≡ edited recording (recorded title.now) (parameters part.old) }
    ensures well_formed { IsWellFormed part.new }
    ensures accepted { (is_report : Bool) → Accepts is_report part.old → Accepts is_report part.new }
{
    let Some((start, end)) = value_range(part, RECORDING) else {
        return;
    };
    record(&mut part[start..end], title);
}

/// Sets the bit "congestion experienced", 0x08, in the part's quality of service, where its format is
/// the globally unique one, 11. Another part stays as it is.
pub fn mark_congestion(part: &mut [u8])
    requires short { length part.old ≤ 255 }
    requires well_formed { IsWellFormed part.old }
    ensures octets { part.new ≡ spelled (edited quality marked (parameters part.old)) }
    ensures options { parameters part.new ≡ edited quality marked (parameters part.old) }
    ensures well_formed { IsWellFormed part.new }
    ensures accepted { (is_report : Bool) → Accepts is_report part.old → Accepts is_report part.new }
{
    let Some((start, end)) = value_range(part, QUALITY) else {
        return;
    };
    mark(&mut part[start..end]);
}

/// Where the value of the first option of this code begins and ends in the part.
fn value_range(part: &[u8], code: u8) -> Option<(usize, usize)>
    ensures { MatchOption result (value_of code (parameters part.now) ≡ None) (λ r. StandsAt part.now code r.0 r.1) }
{
    let mut rest = part;
    while let Some((found, value, others)) = first_option(rest) {
        if found == code {
            let end = part.len() - others.len();
            return Some((end - value.len(), end));
        }
        rest = others;
    }
    None
}

/// The title at a source route's pointer, unless the route is exhausted.
fn title_at(value: &[u8]) -> Option<&[u8]>
    requires long { 2 ≤ length value.now }
    requires title { pointer_of value.now ≤ length value.now → LeadsOn value.now }
    ensures { option_copied result ≡ edits.title_at value.now }
{
    let pointer = value[1] as usize;
    if pointer > value.len() {
        return None;
    }
    let size = value[pointer - 1] as usize;
    Some(&value[pointer..pointer + size])
}

/// Whether a source route's kind says that it is complete.
fn has_complete_kind(value: &[u8]) -> bool
    requires { 1 ≤ length value.now }
    ensures { result ≡ (slice_index value.now 0 == 1) }
{
    value[0] == COMPLETE
}

/// Moves a source route's pointer past the title there and its length octet.
fn advance(value: &mut [u8])
    requires short { length value.old ≤ 253 }
    requires title { LeadsOn value.old }
    ensures { value.new ≡ advanced value.old }
{
    let pointer = value[1];
    let size = value[pointer as usize - 1];
    value[1] = pointer + size + 1;
}

/// Puts a title at a recording's pointer where it fits, else ends the recording.
fn record(value: &mut [u8], title: &[u8])
    requires short { length value.old ≤ 253 }
    requires long { 2 ≤ length value.old }
    requires pointer { pointer_of value.old ≢ 255 → 3 ≤ pointer_of value.old }
    requires title { length title.now ≤ 20 }
    ensures { value.new ≡ recorded title.now value.old }
{
    let pointer = value[1];
    if pointer == ENDED {
        return;
    }
    let place = pointer as usize;
    if place + title.len() > value.len() {
        value[1] = ENDED;
        return;
    }
    let end = place + title.len();
    value[place - 1] = title.len() as u8;
    value[place..end].copy_from_slice(title);
    value[1] = (end + 1) as u8;
}

/// Sets the congestion bit where the format is the globally unique one.
fn mark(value: &mut [u8])
    requires { 1 ≤ length value.old }
    ensures { value.new ≡ marked value.old }
{
    let octet = value[0];
    if octet >= GLOBALLY_UNIQUE {
        value[0] = octet | CONGESTION;
    }
}
