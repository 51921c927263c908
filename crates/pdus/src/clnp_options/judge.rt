//! The rules G14 to G20 of the options part.

ghost use Rattle.std.specs.Prelude.{◌≡◌, ◌↔◌, ◌+◌, ◌≤◌, [], length, MatchResult, IsOk, OnOk, Some, None};
ghost use Rattle.pdus.specs.ClnpOptions.Parameter.{spelled, parameters};
ghost use Rattle.pdus.specs.ClnpOptions.Rules as option_rules;
ghost use Rattle.pdus.specs.ClnpOptions.Rules.{refusal, Accepts, IsWellFormed, Gives};
ghost use Rattle.pdus.specs.ClnpOptions.Tests.{test_of};

use crate::clnp_options::codes::PADDING;
use crate::clnp_options::form::{Test, picks};
use crate::clnp_options::read::first_option;
use crate::clnp_options::reasons::Reason;

/// Why an options part is refused: the least broken rule, 14 to 20, the reason for discard that it
/// gives (ISO/IEC 8473, section 7.9.5), and the place in the header, from 1, of the octet at fault.
#[derive(Clone, Copy, Debug)]
pub struct OptionRefusal {
    pub rule: u8,
    pub reason: u8,
    pub place: u8,
}

/// Judges the options part of a header, whose first octet has place `first` in the header, counted
/// from 1. `is_report` says that the PDU is an error report.
///
/// Refuses by the least of these rules that is broken. Each is read as if those before it held.
///
/// | Rule | Broken where | Reason | Place |
/// |---|---|---|---|
/// | 14 | the options don't fill the part exactly as code, length, value | 04 | the first octet of the one that doesn't fit |
/// | 15 | a code other than padding comes twice | 07 | the first code that came before |
/// | 16 | a code isn't in the table of options | B0 | the first such code |
/// | 17 | security is empty or has format 00 | B2 | its code |
/// | 18 | a source route is shorter than 2, its kind isn't 0 or 1, its titles of 1 to 20 octets don't fill it, or its pointer is neither the place of a title nor above its length | 91 | its code |
/// | 19 | a recording is shorter than 2, its kind isn't 0 or 1, or its pointer isn't 255 and isn't at most its length + 1 with whole titles from place 3 to before it; quality is empty or has format 00; priority isn't one octet; a reason isn't two | 04 | the code of the first such option |
/// | 20 | a reason stands in a PDU that isn't an error report, or a report has none | 04 | its code, or 5 |
pub fn check(part: &[u8], first: u8, is_report: bool) -> Result<(), OptionRefusal>
    requires { first + length part.now ≤ 255 }
    ensures judged { MatchResult result (λ _. refusal part.now first is_report ≡ None) (λ r. refusal part.now first is_report ≡ Some r) }
    ensures accepted { IsOk result ↔ Accepts is_report part.now }
    ensures well_formed { OnOk result (IsWellFormed part.now) }
{
    check_form(part, first)?;
    at_rule(
        20,
        Reason::HeaderSyntaxError,
        place_of_reason(part, first, is_report),
    )
}

/// The rules that don't depend on the kind of the PDU, G14 to G19.
fn check_form(part: &[u8], first: u8) -> Result<(), OptionRefusal>
    requires { first + length part.now ≤ 255 }
    ensures { Gives result (option_rules.form_refusal first part.now) }
{
    at_rule(14, Reason::HeaderSyntaxError, place_of_unfit(part, first))?;
    at_rule(15, Reason::DuplicateOption, place_of_repeat(part, first))?;
    at_rule(
        16,
        Reason::UnsupportedOption,
        place_of(Test::Unknown, part, first),
    )?;
    at_rule(
        17,
        Reason::UnsupportedSecurity,
        place_of(Test::Security, part, first),
    )?;
    at_rule(
        18,
        Reason::SourceRoutingSyntaxError,
        place_of(Test::Route, part, first),
    )?;
    at_rule(
        19,
        Reason::HeaderSyntaxError,
        place_of(Test::Form, part, first),
    )
}

/// Refuses by this rule where there is a place at which it is broken.
fn at_rule(rule: u8, reason: Reason, broken_at: Option<u8>) -> Result<(), OptionRefusal>
    ensures { Gives result (option_rules.at_rule rule reason broken_at) }
{
    match broken_at {
        None => Ok(()),
        Some(place) => Err(OptionRefusal {
            rule,
            reason: reason.code(),
            place,
        }),
    }
}

/// The place of the first option that the test picks.
fn place_of(test: Test, part: &[u8], first: u8) -> Option<u8>
    requires { first + length part.now ≤ 255 }
    ensures { result ≡ option_rules.place_of (test_of test) first (parameters part.now) }
{
    let mut place = first;
    let mut rest = part;
    while let Some((code, value, others)) = first_option(rest) {
        if picks(test, code, value) {
            return Some(place);
        }
        place += 2 + value.len() as u8;
        rest = others;
    }
    None
}

/// The place of the first octet that isn't of a whole option, where the part's first octet has place
/// `first`; none where whole options fill the part.
pub fn place_of_unfit(part: &[u8], first: u8) -> Option<u8>
    requires { first + length part.now ≤ 255 }
    ensures { result ≡ option_rules.place_of_unfit first part.now }
{
    let mut place = first;
    let mut rest = part;
    while let Some((_, value, others)) = first_option(rest) {
        place += 2 + value.len() as u8;
        rest = others;
    }
    if rest.is_empty() { None } else { Some(place) }
}

/// The place of the first option that isn't padding and whose code came before.
fn place_of_repeat(part: &[u8], first: u8) -> Option<u8>
    requires { first + length part.now ≤ 255 }
    ensures { result ≡ option_rules.place_of_repeat [] first (parameters part.now) }
{
    let mut seen = [false; 256];
    let mut place = first;
    let mut rest = part;
    while let Some((code, value, others)) = first_option(rest) {
        if code != PADDING && seen[code as usize] {
            return Some(place);
        }
        seen[code as usize] = true;
        place += 2 + value.len() as u8;
        rest = others;
    }
    None
}

/// The place of a reason for discard that stands in a PDU that isn't an error report, or, in a
/// report that has none, the place of the octet that says its type.
fn place_of_reason(part: &[u8], first: u8, is_report: bool) -> Option<u8>
    requires { first + length part.now ≤ 255 }
    ensures { result ≡ option_rules.place_of_reason is_report first (parameters part.now) }
{
    let found = place_of(Test::Reason, part, first);
    if !is_report {
        return found;
    }
    match found {
        Some(_) => None,
        None => Some(5),
    }
}
