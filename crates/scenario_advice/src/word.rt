//! What is said of one word of a line.
use crate::form::{Form, are_octets, first_other, is_subnet, is_system};
use crate::grammar::{More, key_of};
use crate::place::{Place, Sought};
use crate::saying::{NOTHING, Piece, Saying};
use scenario::Code;

const FORM: &[Piece] = &[Piece::WordIs, Piece::Text("; wanted: "), Piece::About];

const TAB: &[Piece] = &[
    Piece::WordIs,
    Piece::Text("; a tab (\\x09) is no space; wanted: "),
    Piece::About,
];

const RANGE: &[Piece] = &[
    Piece::WordIs,
    Piece::Text("; wanted: a decimal number from "),
    Piece::Count,
    Piece::Text(" to "),
    Piece::Most,
];

const PATTERN: &[Piece] = &[
    Piece::WordIs,
    Piece::ItsFields,
    Piece::Text("; wanted: pat: and a length from 0 to 70000, a colon, and a start from 0 to 255"),
];

const NAME_FOR_DIGITS: &[Piece] = &[
    Piece::WordIs,
    Piece::Text("; a system has this name, but names stand for no digits; wanted: "),
    Piece::About,
];

const NO_DIGIT: &[Piece] = &[
    Piece::WordIs,
    Piece::Text(", whose character "),
    Piece::Count,
    Piece::Text(" is no hexadecimal digit; wanted: "),
    Piece::About,
];

const ONE_DIGIT: &[Piece] = &[
    Piece::WordIs,
    Piece::Text(", with 1 digit; wanted: "),
    Piece::About,
];

const DIGITS: &[Piece] = &[
    Piece::WordIs,
    Piece::Text(", with "),
    Piece::Count,
    Piece::Text(" digits; wanted: "),
    Piece::About,
];

const KEY: &[Piece] = &[
    Piece::WordIs,
    Piece::Text("; wanted: "),
    Piece::About,
    Piece::Text(" and a decimal number from "),
    Piece::Count,
    Piece::Text(" to "),
    Piece::Most,
];

const NO_OPTIONS: &[Piece] = &[
    Piece::WordIs,
    Piece::Text(
        "; these octets are no options of a data unit: each has a code (cc, c5, c8, cb, c3, cd), the length of its value, and the value",
    ),
];

const ONE_DIGIT_OF_OPTIONS: &[Piece] = &[
    Piece::WordIs,
    Piece::Text(", with 1 digit, an odd number; wanted: "),
    Piece::About,
];

const DIGITS_OF_OPTIONS: &[Piece] = &[
    Piece::WordIs,
    Piece::Text(", with "),
    Piece::Count,
    Piece::Text(" digits, an odd number; wanted: "),
    Piece::About,
];

const COMMENT_BEHIND: &[Piece] = &[
    Piece::WordIs,
    Piece::Text("; a comment stands in a line of its own, which begins with #"),
];

const TOO_MANY: &[Piece] = &[
    Piece::WordIs,
    Piece::Text("; wanted: no further word ("),
    Piece::About,
    Piece::Text(")"),
];

const ONE_WORD: &[Piece] = &[Piece::Text("the line has 1 word; wanted: "), Piece::About];

const MISSING: &[Piece] = &[
    Piece::Text("the line has "),
    Piece::Count,
    Piece::Text(" words; wanted: "),
    Piece::About,
];

const COMMENT_NOT_FIRST: &[Piece] = &[
    Piece::WordIs,
    Piece::Text("; a comment begins with the first character of its line"),
];

const NO_SUCH_PORT: &[Piece] = &[
    Piece::WordIs,
    Piece::Text("; no line before this one gives "),
    Piece::Bare(2),
    Piece::Text(" a port with this number"),
];

const IS_ROUTER: &[Piece] = &[
    Piece::WordIs,
    Piece::Text("; "),
    Piece::ItBare,
    Piece::Text(" is a router; a host is wanted"),
];

const IS_HOST: &[Piece] = &[
    Piece::WordIs,
    Piece::Text("; "),
    Piece::ItBare,
    Piece::Text(" is a host; a router is wanted"),
];

const BEHIND: &[Piece] = &[
    Piece::WordIs,
    Piece::Text("; no "),
    Piece::About,
    Piece::Text(" of this name is declared before this line, but in line "),
    Piece::Other,
];

const IS_SUBNET: &[Piece] = &[
    Piece::WordIs,
    Piece::Text(
        "; no system of this name is declared before this line; there is a subnetwork of this name",
    ),
];

const IS_SYSTEM: &[Piece] = &[
    Piece::WordIs,
    Piece::Text(
        "; no subnetwork of this name is declared before this line; there is a system of this name",
    ),
];

const NOWHERE: &[Piece] = &[
    Piece::WordIs,
    Piece::Text("; no "),
    Piece::About,
    Piece::Text(" of this name is declared before this line"),
];

/// What is said of a word of a line that breaks its form.
pub(crate) fn of_word(at: Place<'_>, place: usize, form: Form, word: &[u8], code: Code) -> Saying {
    let saying = match code {
        Code::UnknownName => of_name(at, form, word),
        Code::Number => of_number(form, word),
        Code::Address if is_system(at, word) => Saying::about(NAME_FOR_DIGITS, form.wanted()),
        Code::Address => of_digits(form, word),
        _ => Saying::about(pieces_of_form(word), form.wanted()),
    };
    Saying { place, ..saying }
}

/// What is said of a further word of a line that breaks its form.
pub(crate) fn of_further_word(place: usize, more: More, word: &[u8], code: Code) -> Saying {
    let saying = if let Some(key) = key_of(more.keys(), word) {
        Saying {
            pieces: KEY,
            about: key.text,
            count: key.low,
            most: key.high,
            ..NOTHING
        }
    } else if code == Code::Address {
        of_options(word)
    } else {
        let wanted = if word.starts_with(b"checksum=") {
            "checksum=on or checksum=off"
        } else {
            more.wanted()
        };
        Saying::about(pieces_of_form(word), wanted)
    };
    Saying { place, ..saying }
}

/// What is said of a word that is one too many.
pub(crate) fn of_word_too_many(place: usize, word: &[u8], shape: &'static str) -> Saying {
    Saying {
        pieces: if word.starts_with(b"#") {
            COMMENT_BEHIND
        } else {
            TOO_MANY
        },
        place,
        about: shape,
        ..NOTHING
    }
}

/// What is said of a line with too few words.
pub(crate) fn of_words_missing(count: usize, shape: &'static str) -> Saying {
    Saying {
        pieces: if count == 1 { ONE_WORD } else { MISSING },
        count: count as u64,
        about: shape,
        ..NOTHING
    }
}

/// What is said of a first word that is no keyword.
pub(crate) fn of_keyword(word: &[u8], wanted: &'static str) -> Saying {
    Saying {
        pieces: if word.starts_with(b"#") {
            COMMENT_NOT_FIRST
        } else {
            pieces_of_form(word)
        },
        place: 1,
        about: wanted,
        ..NOTHING
    }
}

/// What strikes in a word, and what is wanted: a tab is no space.
fn pieces_of_form(word: &[u8]) -> &'static [Piece] {
    if word.contains(&b'\t') { TAB } else { FORM }
}

/// What is said of a number that isn't decimal, or out of its range.
fn of_number(form: Form, word: &[u8]) -> Saying {
    match form {
        Form::Number { low, high } => Saying {
            pieces: RANGE,
            count: low,
            most: high,
            ..NOTHING
        },
        Form::Unit => Saying::of(PATTERN),
        _ => Saying::about(FORM, form.wanted()),
    }
}

/// What strikes in digits: the first character that is none, or how many there are.
fn of_digits(form: Form, word: &[u8]) -> Saying {
    let has_dots = matches!(
        form,
        Form::Address | Form::Snpa | Form::Prefix | Form::Target
    );
    let (skipped, digits) = match word.strip_prefix(b"hex:") {
        Some(digits) if matches!(form, Form::Unit) => (4, digits),
        _ => (0, word),
    };
    let (pieces, count) = count_digits(skipped, digits, has_dots);
    Saying {
        pieces,
        about: form.wanted(),
        count,
        ..NOTHING
    }
}

/// What strikes in the digits behind so many other characters, among which dots may stand, and the number that is told.
fn count_digits(skipped: u64, digits: &[u8], has_dots: bool) -> (&'static [Piece], u64) {
    let mut place = skipped;
    let mut count: u64 = 0;
    for c in digits {
        place = place.saturating_add(1);
        if *c == b'.' && has_dots {
            continue;
        }
        if !c.is_ascii_hexdigit() {
            return (NO_DIGIT, place);
        }
        count = count.saturating_add(1);
    }
    (if count == 1 { ONE_DIGIT } else { DIGITS }, count)
}

/// What is said of options.
fn of_options(word: &[u8]) -> Saying {
    let digits = word.strip_prefix(b"opt=").unwrap_or(word);
    if are_octets(digits) {
        return Saying::of(NO_OPTIONS);
    }
    let count = digits.len() as u64;
    let (pieces, count) = match first_other(digits) {
        Some(place) => (NO_DIGIT, (place as u64).saturating_add(4)),
        None if count == 1 => (ONE_DIGIT_OF_OPTIONS, count),
        None => (DIGITS_OF_OPTIONS, count),
    };
    Saying {
        pieces,
        about: "opt= and octets, two digits each",
        count,
        ..NOTHING
    }
}

/// What is said of a name that isn't declared, or not as what is wanted.
fn of_name(at: Place<'_>, form: Form, word: &[u8]) -> Saying {
    match form {
        Form::Subnet => of_unknown(at, b"subnet", "subnetwork", word),
        Form::OwnPort => Saying::of(NO_SUCH_PORT),
        Form::Host if is_system(at, word) => Saying::of(IS_ROUTER),
        Form::Router if is_system(at, word) => Saying::of(IS_HOST),
        _ => of_unknown(at, b"system", "system", word),
    }
}

/// What is said of a name that no line before declares.
fn of_unknown(at: Place<'_>, keyword: &[u8], kind: &'static str, word: &[u8]) -> Saying {
    if let Some(found) = at.first_between(at.number, u32::MAX, keyword, Sought::Name(word)) {
        return Saying {
            pieces: BEHIND,
            other: found.number,
            about: kind,
            ..NOTHING
        };
    }
    if is_subnet(at, word) {
        return Saying::of(IS_SUBNET);
    }
    if is_system(at, word) {
        return Saying::of(IS_SYSTEM);
    }
    Saying::about(NOWHERE, kind)
}
