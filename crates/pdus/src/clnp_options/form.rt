//! The forms of the values, as the rules G16 to G19 and G20 ask for them.

ghost use Rattle.std.specs.Prelude.{◌≡◌, ◌+◌, ◌≤◌, length};
ghost use Rattle.pdus.specs.ClnpOptions.Parameter.{Parameter, known_codes};
ghost use Rattle.pdus.specs.ClnpOptions.Rules as option_rules;
ghost use Rattle.pdus.specs.ClnpOptions.Tests.{test_of};

use crate::clnp_options::codes::{
    PADDING, PRIORITY, QUALITY, REASON, RECORDING, SECURITY, SOURCE_ROUTE,
};

/// What a rule looks for in an option.
#[derive(Clone, Copy)]
pub(crate) enum Test {
    /// A code that isn't in the table.
    Unknown,
    /// A security option that is empty or of the reserved format.
    Security,
    /// A source route that isn't one.
    Route,
    /// A recording, quality, priority or reason of another form.
    Form,
    /// A reason for discard.
    Reason,
}

/// Whether an option is what the rule looks for.
pub(crate) fn picks(test: Test, code: u8, value: &[u8]) -> bool
    ensures { result ≡ test_of test (record { code = code; value = value.now }) }
{
    match test {
        Test::Unknown => !is_known(code),
        Test::Security => code == SECURITY && lacks_format(value),
        Test::Route => code == SOURCE_ROUTE && !is_source_route(value),
        Test::Form => has_bad_form(code, value),
        Test::Reason => code == REASON,
    }
}

fn is_known(code: u8) -> bool
    ensures { result ≡ option_rules.contains_code known_codes code }
{
    matches!(
        code,
        PADDING | SECURITY | SOURCE_ROUTE | RECORDING | QUALITY | PRIORITY | REASON
    )
}

fn has_bad_form(code: u8, value: &[u8]) -> bool
    ensures { result ≡ option_rules.has_bad_form (record { code = code; value = value.now }) }
{
    match code {
        RECORDING => !is_recording(value),
        QUALITY => lacks_format(value),
        PRIORITY => value.len() != 1,
        REASON => value.len() != 2,
        _ => false,
    }
}

/// Whether the value is empty or its two high bits are the reserved format 00.
fn lacks_format(value: &[u8]) -> bool
    ensures { result ≡ option_rules.lacks_format value.now }
{
    value.is_empty() || value[0] < 0x40
}

/// Whether whole titles, each of 1 to 20 octets after its length octet, fill the octets.
fn are_titles(octets: &[u8]) -> bool
    ensures { result ≡ option_rules.are_titles octets.now }
{
    let mut rest = octets;
    while let [size, others @ ..] = rest {
        let size = *size as usize;
        if size < 1 || size > 20 || size > others.len() {
            return false;
        }
        rest = &others[size..];
    }
    true
}

/// Whether a kind of 0 or 1 and a pointer begin the value.
fn has_kind(value: &[u8]) -> bool
    ensures { result ≡ option_rules.has_kind value.now }
{
    value.len() >= 2 && value[0] <= 1
}

/// Whether the pointer is at least 3 and titles fill the places from 3 to before it.
fn is_after_titles(value: &[u8], pointer: u8) -> bool
    requires { pointer ≤ length value.now + 1 }
    ensures { result ≡ option_rules.is_after_titles value.now pointer }
{
    let pointer = pointer as usize;
    pointer >= 3 && are_titles(&value[2..pointer - 1])
}

fn is_source_route(value: &[u8]) -> bool
    ensures { result ≡ option_rules.is_source_route value.now }
{
    if !has_kind(value) || !are_titles(&value[2..]) {
        return false;
    }
    let pointer = value[1];
    pointer as usize > value.len() || is_after_titles(value, pointer)
}

fn is_recording(value: &[u8]) -> bool
    ensures { result ≡ option_rules.is_recording value.now }
{
    if !has_kind(value) {
        return false;
    }
    let pointer = value[1];
    if pointer == 255 {
        return true;
    }
    pointer as usize <= value.len() + 1 && is_after_titles(value, pointer)
}
