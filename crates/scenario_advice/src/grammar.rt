//! The lines of a scenario text: the forms of their words.
use crate::form::{Form, are_octets, is_number, unless};
use crate::place::Place;
use scenario::Code;
use scenario::base::same;
use scenario::options::OptionList;

/// What may stand behind the words that a line must have.
#[derive(Clone, Copy)]
pub(crate) enum More {
    Nothing,
    /// Perhaps how much a port takes of a lifetime.
    Transit,
    /// Settings of a system.
    Settings,
    /// How a unit is to be sent.
    Wishes,
}

/// A line by its keyword.
pub(crate) struct LineForm {
    pub(crate) keyword: &'static [u8],
    /// The line as it is written.
    pub(crate) shape: &'static str,
    /// The words that it must have behind the keyword.
    pub(crate) words: &'static [Form],
    pub(crate) more: More,
}

pub(crate) const DECLARATIONS: &[LineForm] = &[
    LineForm {
        keyword: b"limits",
        shape: "limits L R Q",
        words: &[
            Form::Number { low: 1, high: 4096 },
            Form::Number { low: 1, high: 255 },
            Form::Number {
                low: 1,
                high: 16_384,
            },
        ],
        more: More::Nothing,
    },
    LineForm {
        keyword: b"subnet",
        shape: "subnet NAME MTU",
        words: &[Form::Name, Form::Mtu],
        more: More::Nothing,
    },
    LineForm {
        keyword: b"system",
        shape: "system NAME host or system NAME router, and settings",
        words: &[Form::Name, Form::Role],
        more: More::Settings,
    },
    LineForm {
        keyword: b"address",
        shape: "address NAME ADDRESS",
        words: &[Form::System, Form::Address],
        more: More::Nothing,
    },
    LineForm {
        keyword: b"port",
        shape: "port NAME NUMBER SUBNET SNPA and perhaps TRANSIT",
        words: &[
            Form::System,
            Form::Number { low: 0, high: 7 },
            Form::Subnet,
            Form::Snpa,
        ],
        more: More::Transit,
    },
    LineForm {
        keyword: b"route",
        shape: "route NAME PREFIX PORT SNPA TITLE",
        words: &[
            Form::Router,
            Form::Prefix,
            Form::OwnPort,
            Form::Snpa,
            Form::Address,
        ],
        more: More::Nothing,
    },
];

/// Those that have another form in version 2.
const DECLARATIONS_OF_VERSION_2: &[LineForm] = &[LineForm {
    keyword: b"limits",
    shape: "limits L R Q S",
    words: &[
        Form::Number { low: 1, high: 4096 },
        Form::Number { low: 1, high: 255 },
        Form::Number {
            low: 1,
            high: 16_384,
        },
        Form::Number { low: 0, high: 4096 },
    ],
    more: More::Nothing,
}];

const EVENTS: &[LineForm] = &[
    LineForm {
        keyword: b"send",
        shape: "send NAME FROM TO DATA, and perhaps whole, noreport, life=N, opt=HEX",
        words: &[Form::Host, Form::Address, Form::Address, Form::Unit],
        more: More::Wishes,
    },
    LineForm {
        keyword: b"echo",
        shape: "echo NAME FROM TO DATA",
        words: &[Form::System, Form::Address, Form::Address, Form::Unit],
        more: More::Nothing,
    },
    LineForm {
        keyword: b"deliver",
        shape: "deliver COPY NAME",
        words: &[
            Form::Number {
                low: 1,
                high: 1_000_000_000,
            },
            Form::System,
        ],
        more: More::Nothing,
    },
    LineForm {
        keyword: b"settle",
        shape: "settle N",
        words: &[Form::Number {
            low: 1,
            high: 100_000,
        }],
        more: More::Nothing,
    },
    LineForm {
        keyword: b"lose",
        shape: "lose N",
        words: &[Form::Number {
            low: 1,
            high: 100_000,
        }],
        more: More::Nothing,
    },
    LineForm {
        keyword: b"tick",
        shape: "tick N",
        words: &[Form::Number {
            low: 1,
            high: 65_535,
        }],
        more: More::Nothing,
    },
    LineForm {
        keyword: b"restart",
        shape: "restart NAME",
        words: &[Form::System],
        more: More::Nothing,
    },
    LineForm {
        keyword: b"congest",
        shape: "congest NAME on or congest NAME off",
        words: &[Form::Router, Form::OnOff],
        more: More::Nothing,
    },
    LineForm {
        keyword: b"inject",
        shape: "inject SUBNET FROM TO HEX",
        words: &[Form::Subnet, Form::Snpa, Form::Target, Form::Digits],
        more: More::Nothing,
    },
];

/// Those of version 2 alone, by which a network changes.
const CHANGES: &[LineForm] = &[
    LineForm {
        keyword: b"mtu",
        shape: "mtu SUBNET MTU",
        words: &[Form::Subnet, Form::Mtu],
        more: More::Nothing,
    },
    LineForm {
        keyword: b"route",
        shape: "route NAME PREFIX PORT SNPA TITLE",
        words: &[
            Form::Router,
            Form::Prefix,
            Form::OwnPort,
            Form::Snpa,
            Form::Address,
        ],
        more: More::Nothing,
    },
    LineForm {
        keyword: b"unroute",
        shape: "unroute NAME PREFIX",
        words: &[Form::Router, Form::Prefix],
        more: More::Nothing,
    },
    LineForm {
        keyword: b"port",
        shape: "port NAME NUMBER SUBNET SNPA",
        words: &[Form::System, Form::OwnPort, Form::Subnet, Form::Snpa],
        more: More::Nothing,
    },
];

/// The ticks of one system alone, in version 2.
const TICK_OF_ONE: &LineForm = &LineForm {
    keyword: b"tick",
    shape: "tick N or tick NAME N",
    words: &[
        Form::System,
        Form::Number {
            low: 1,
            high: 65_535,
        },
    ],
    more: More::Nothing,
};

/// The line of a keyword, if it is one of these.
pub(crate) fn form_of(forms: &'static [LineForm], keyword: &[u8]) -> Option<&'static LineForm> {
    for form in forms {
        if same(form.keyword, keyword) {
            return Some(form);
        }
    }
    None
}

/// The declaration of a keyword in the version of a text, if it is one.
pub(crate) fn declaration_of(at: Place<'_>, keyword: &[u8]) -> Option<&'static LineForm> {
    if at.is_of_version_2() {
        if let Some(form) = form_of(DECLARATIONS_OF_VERSION_2, keyword) {
            return Some(form);
        }
    }
    form_of(DECLARATIONS, keyword)
}

/// The event of a keyword with so many words behind it in the version of a text, if it is one.
pub(crate) fn event_of(at: Place<'_>, keyword: &[u8], count: usize) -> Option<&'static LineForm> {
    if same(keyword, b"tick") && count > 1 && at.is_of_version_2() {
        return Some(TICK_OF_ONE);
    }
    match form_of(EVENTS, keyword) {
        Some(form) => Some(form),
        None if at.is_of_version_2() => form_of(CHANGES, keyword),
        None => None,
    }
}

/// The event of a keyword in a text for a live node, if it is one that such a node takes.
pub(crate) fn live_event_of(keyword: &[u8]) -> Option<&'static LineForm> {
    if same(keyword, b"send") || same(keyword, b"echo") || same(keyword, b"tick") {
        return form_of(EVENTS, keyword);
    }
    None
}

/// A key and the range of its number.
pub(crate) struct Key {
    pub(crate) key: &'static [u8],
    pub(crate) text: &'static str,
    pub(crate) low: u64,
    pub(crate) high: u64,
}

/// The settings of a system that are numbers.
const SETTINGS: &[Key] = &[
    Key {
        key: b"hello=",
        text: "hello=",
        low: 0,
        high: 600,
    },
    Key {
        key: b"suggest=",
        text: "suggest=",
        low: 0,
        high: 32_767,
    },
    Key {
        key: b"rhold=",
        text: "rhold=",
        low: 0,
        high: 65_535,
    },
    Key {
        key: b"life=",
        text: "life=",
        low: 1,
        high: 255,
    },
    Key {
        key: b"slots=",
        text: "slots=",
        low: 1,
        high: 1024,
    },
    Key {
        key: b"segments=",
        text: "segments=",
        low: 1,
        high: 16_384,
    },
    Key {
        key: b"budget=",
        text: "budget=",
        low: 512,
        high: 4_194_304,
    },
    Key {
        key: b"neighbours=",
        text: "neighbours=",
        low: 1,
        high: 1024,
    },
    Key {
        key: b"routers=",
        text: "routers=",
        low: 1,
        high: 64,
    },
    Key {
        key: b"redirects=",
        text: "redirects=",
        low: 1,
        high: 1024,
    },
];

/// The wishes of a `send` that are numbers.
const WISHES: &[Key] = &[Key {
    key: b"life=",
    text: "life=",
    low: 1,
    high: 255,
}];

/// The key with which a word begins.
pub(crate) fn key_of(keys: &'static [Key], word: &[u8]) -> Option<&'static Key> {
    for key in keys {
        if word.starts_with(key.key) {
            return Some(key);
        }
    }
    None
}

impl More {
    /// The code of what a word breaks that stands behind those that a line must have.
    pub(crate) fn broken(self, word: &[u8]) -> Option<Code> {
        if let Some(key) = key_of(self.keys(), word) {
            let number = word.strip_prefix(key.key)?;
            return unless(is_number(key.low, key.high, number), Code::Number);
        }
        match self {
            More::Nothing => None,
            More::Transit => unless(is_number(1, 255, word), Code::Number),
            More::Settings => unless(
                same(word, b"checksum=on") || same(word, b"checksum=off"),
                Code::Syntax,
            ),
            More::Wishes => broken_wish(word),
        }
    }

    /// The keys of its numbers.
    pub(crate) fn keys(self) -> &'static [Key] {
        match self {
            More::Settings => SETTINGS,
            More::Wishes => WISHES,
            More::Nothing | More::Transit => &[],
        }
    }

    /// The words that may stand there.
    pub(crate) fn wanted(self) -> &'static str {
        match self {
            More::Nothing => "no further word",
            More::Transit => "a decimal number from 1 to 255",
            More::Settings => {
                "hello=, suggest=, rhold=, checksum=, life=, slots=, segments=, budget=, neighbours=, routers= or redirects="
            }
            More::Wishes => "whole, noreport, life= or opt=",
        }
    }
}

/// The code of what a wish without a number breaks.
fn broken_wish(word: &[u8]) -> Option<Code> {
    if let Some(digits) = word.strip_prefix(b"opt=") {
        return unless(are_options(digits), Code::Address);
    }
    unless(
        same(word, b"whole") || same(word, b"noreport"),
        Code::Syntax,
    )
}

/// The most octets of the options of a header.
const MOST_OPTIONS: usize = 254;

/// Whether digits are those of options that a data unit's header may have.
fn are_options(digits: &[u8]) -> bool {
    let size = digits.len() / 2;
    if !are_octets(digits) || size > MOST_OPTIONS {
        return false;
    }
    let mut octets = [0; MOST_OPTIONS];
    match hex::decode_to_slice(digits, &mut octets[..size]) {
        Ok(()) => OptionList::from_bytes(&octets[..size]).is_ok(),
        Err(_) => false,
    }
}
