//! The forms of words, and which word breaks its own.
use crate::place::{Place, Sought, has_word, word_at};
use scenario::Code;
use scenario::base::{decimal, same};
use scenario::nsaps::{Address, Prefix, Snpa};
use scenario::word::{is_digits, is_name};

/// What a word of a line has to be.
#[derive(Clone, Copy)]
pub(crate) enum Form {
    /// A name of something new.
    Name,
    Subnet,
    System,
    Host,
    Router,
    /// `host` or `router`.
    Role,
    /// `on` or `off`.
    OnOff,
    /// A decimal number of a range.
    Number { low: u64, high: u64 },
    /// A decimal number; its range has a code of its own.
    Mtu,
    /// The number of a port that the line's system has.
    OwnPort,
    Address,
    Snpa,
    Prefix,
    /// An SNPA, `es` or `is`.
    Target,
    /// The hexadecimal digits of octets.
    Digits,
    /// The octets of a data unit.
    Unit,
}

impl Form {
    /// The code of what a word of a line breaks, if it breaks this form.
    pub(crate) fn broken(self, at: Place<'_>, line: &[u8], word: &[u8]) -> Option<Code> {
        match self {
            Form::Name => unless(is_name(word), Code::Syntax),
            Form::Subnet => broken_name(word, is_subnet(at, word)),
            Form::System => broken_name(word, is_system(at, word)),
            Form::Host => broken_name(word, has_role(at, word, b"host")),
            Form::Router => broken_name(word, has_role(at, word, b"router")),
            Form::Role => unless(same(word, b"host") || same(word, b"router"), Code::Syntax),
            Form::OnOff => unless(same(word, b"on") || same(word, b"off"), Code::Syntax),
            Form::Number { low, high } => unless(is_number(low, high, word), Code::Number),
            Form::Mtu => unless(is_digits(word), Code::Number),
            Form::OwnPort => broken_port(at, line, word),
            Form::Address => unless(Address::from_text(word).is_ok(), Code::Address),
            Form::Snpa => unless(Snpa::from_text(word).is_ok(), Code::Address),
            Form::Prefix => unless(Prefix::from_text(word).is_ok(), Code::Address),
            Form::Target => unless(is_target(word), Code::Address),
            Form::Digits => unless(are_octets(word), Code::Address),
            Form::Unit => broken_unit(word),
        }
    }

    /// What a word of this form is, in words.
    pub(crate) fn wanted(self) -> &'static str {
        match self {
            Form::Name => "a name: a letter a to z, and up to 15 letters a to z or digits",
            Form::Subnet => "the name of a subnetwork",
            Form::System => "the name of a system",
            Form::Host => "the name of a host",
            Form::Router => "the name of a router",
            Form::Role => "host or router",
            Form::OnOff => "on or off",
            Form::Number { .. } => "a decimal number",
            Form::Mtu => "a decimal number from 512 to 65535",
            Form::OwnPort => "a decimal number from 0 to 7",
            Form::Address =>
                "an address: 1 to 20 octets, two hexadecimal digits each; dots are skipped",
            Form::Snpa => "an SNPA: 1 to 20 octets, two hexadecimal digits each; dots are skipped",
            Form::Prefix =>
                "a prefix: up to 40 hexadecimal digits, or * for none; dots are skipped",
            Form::Target => "es, is, or an SNPA: 1 to 20 octets, two hexadecimal digits each",
            Form::Digits => "octets, two hexadecimal digits each",
            Form::Unit => "hex: and octets, two hexadecimal digits each, or pat:LENGTH:START",
        }
    }
}

/// The code, unless it holds.
pub(crate) fn unless(holds: bool, code: Code) -> Option<Code> {
    if holds { None } else { Some(code) }
}

/// What a word breaks that names something: its form, or that it is so declared.
fn broken_name(word: &[u8], is_declared: bool) -> Option<Code> {
    if !is_name(word) {
        return Some(Code::Syntax);
    }
    unless(is_declared, Code::UnknownName)
}

/// Whether a subnetwork of this name is declared before a line.
pub(crate) fn is_subnet(at: Place<'_>, word: &[u8]) -> bool {
    at.before(b"subnet", Sought::Name(word)).is_some()
}

/// Whether a system of this name is declared before a line.
pub(crate) fn is_system(at: Place<'_>, word: &[u8]) -> bool {
    at.before(b"system", Sought::Name(word)).is_some()
}

/// Whether a system of this name and role is declared before a line.
pub(crate) fn has_role(at: Place<'_>, word: &[u8], role: &[u8]) -> bool {
    match at.before(b"system", Sought::Name(word)) {
        Some(found) => has_word(found.line, 3, role),
        None => false,
    }
}

/// What the number of a port of the line's system breaks.
fn broken_port(at: Place<'_>, line: &[u8], word: &[u8]) -> Option<Code> {
    if !is_number(0, 7, word) {
        return Some(Code::Number);
    }
    let sought = Sought::Port {
        name: word_at(line, 2)?,
        number: word,
    };
    unless(at.before(b"port", sought).is_some(), Code::UnknownName)
}

/// Whether a word is a decimal number of a range.
pub(crate) fn is_number(low: u64, high: u64, word: &[u8]) -> bool {
    match decimal(word) {
        Some(number) => low <= number && number <= high,
        None => false,
    }
}

fn is_target(word: &[u8]) -> bool {
    same(word, b"es") || same(word, b"is") || Snpa::from_text(word).is_ok()
}

/// The place of the first character, from 1, that is no hexadecimal digit.
pub(crate) fn first_other(word: &[u8]) -> Option<usize> {
    let mut place: usize = 1;
    for c in word {
        if !c.is_ascii_hexdigit() {
            return Some(place);
        }
        place = place.saturating_add(1);
    }
    None
}

/// Whether a word is an even number of hexadecimal digits.
pub(crate) fn are_octets(word: &[u8]) -> bool {
    word.len() % 2 == 0 && first_other(word).is_none()
}

/// What the octets of a data unit break, in their two forms.
fn broken_unit(word: &[u8]) -> Option<Code> {
    if let Some(digits) = word.strip_prefix(b"hex:") {
        return unless(are_octets(digits), Code::Address);
    }
    let Some((length, start)) = pattern_fields(word) else {
        return Some(Code::Syntax);
    };
    unless(
        is_number(0, 70_000, length) && is_number(0, 255, start),
        Code::Number,
    )
}

/// A text cut before the first octet that is this one, or at its end.
pub(crate) fn cut_before(text: &[u8], octet: u8) -> (&[u8], &[u8]) {
    let mut at: usize = 0;
    for c in text {
        if *c == octet {
            break;
        }
        at = at.saturating_add(1);
    }
    text.split_at(at.min(text.len()))
}

/// The length and the start of a pattern: the two fields into which what stands behind `pat:` is cut by its only `:`.
pub(crate) fn pattern_fields(word: &[u8]) -> Option<(&[u8], &[u8])> {
    let (first, rest) = cut_before(word.strip_prefix(b"pat:")?, b':');
    let second = rest.strip_prefix(b":")?;
    if second.contains(&b':') {
        return None;
    }
    Some((first, second))
}
