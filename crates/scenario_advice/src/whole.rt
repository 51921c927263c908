//! What is said of a line as a whole: what it names is there already, or there is no room for it.
use crate::form::has_role;
use crate::grammar::{More, key_of};
use crate::place::{Column, Kind, PORT, Place, Sought, begins, count_words, number_at, word_at};
use crate::saying::{NOTHING, Piece, Saying};
use scenario::Code;
use scenario::base::{is_skipped, lines, same, words};

/// What a line says again, as a line before it has the same words.
struct Again {
    code: Code,
    is_event: bool,
    keyword: &'static [u8],
    columns: &'static [Column],
    said: &'static [Piece],
}

const NAME: Column = Column {
    place: 2,
    kind: Kind::Word,
};

const SUBNET_OF_PORT: Column = Column {
    place: 4,
    kind: Kind::Word,
};

const SNPA_OF_PORT: Column = Column {
    place: 5,
    kind: Kind::Snpa,
};

const AGAIN: &[Again] = &[
    Again {
        code: Code::DupName,
        is_event: false,
        keyword: b"limits",
        columns: &[],
        said: &[Piece::Text("limits stands already, in line "), Piece::Other],
    },
    Again {
        code: Code::DupName,
        is_event: false,
        keyword: b"subnet",
        columns: &[NAME],
        said: &[
            Piece::Text("a subnet "),
            Piece::Bare(2),
            Piece::Text(" is declared already, in line "),
            Piece::Other,
        ],
    },
    Again {
        code: Code::DupName,
        is_event: false,
        keyword: b"system",
        columns: &[NAME],
        said: &[
            Piece::Text("a system "),
            Piece::Bare(2),
            Piece::Text(" is declared already, in line "),
            Piece::Other,
        ],
    },
    Again {
        code: Code::DupName,
        is_event: false,
        keyword: b"port",
        columns: PORT,
        said: &[
            Piece::Bare(2),
            Piece::Text(" has a port "),
            Piece::Number(3),
            Piece::Text(" already, in line "),
            Piece::Other,
        ],
    },
    Again {
        code: Code::DupName,
        is_event: false,
        keyword: b"port",
        columns: &[NAME, SUBNET_OF_PORT],
        said: &[
            Piece::Bare(2),
            Piece::Text(" has a port on "),
            Piece::Bare(4),
            Piece::Text(" already, in line "),
            Piece::Other,
        ],
    },
    Again {
        code: Code::DupName,
        is_event: true,
        keyword: b"port",
        columns: &[NAME, SUBNET_OF_PORT],
        said: &[
            Piece::Bare(2),
            Piece::Text(" has its port "),
            Piece::OtherNumber(3),
            Piece::Text(" on "),
            Piece::Bare(4),
            Piece::Text(", in line "),
            Piece::Other,
        ],
    },
    Again {
        code: Code::DupAddress,
        is_event: false,
        keyword: b"address",
        columns: &[Column {
            place: 3,
            kind: Kind::Address,
        }],
        said: &[
            Piece::Text("the address "),
            Piece::Word(3),
            Piece::Text(" is already one of "),
            Piece::OtherBare(2),
            Piece::Text(", in line "),
            Piece::Other,
        ],
    },
    Again {
        code: Code::DupAddress,
        is_event: false,
        keyword: b"port",
        columns: &[SUBNET_OF_PORT, SNPA_OF_PORT],
        said: &[
            Piece::Text("the SNPA "),
            Piece::Word(5),
            Piece::Text(" on "),
            Piece::Bare(4),
            Piece::Text(" is already that of "),
            Piece::OtherBare(2),
            Piece::Text(", in line "),
            Piece::Other,
        ],
    },
    Again {
        code: Code::DupAddress,
        is_event: true,
        keyword: b"port",
        columns: &[SUBNET_OF_PORT, SNPA_OF_PORT],
        said: &[
            Piece::Text("the SNPA "),
            Piece::Word(5),
            Piece::Text(" on "),
            Piece::Bare(4),
            Piece::Text(" is now that of "),
            Piece::OtherBare(2),
            Piece::Text(", in line "),
            Piece::Other,
        ],
    },
    Again {
        code: Code::DupAddress,
        is_event: false,
        keyword: b"route",
        columns: &[
            NAME,
            Column {
                place: 3,
                kind: Kind::Prefix,
            },
        ],
        said: &[
            Piece::Bare(2),
            Piece::Text(" has a route for "),
            Piece::Word(3),
            Piece::Text(" already, in line "),
            Piece::Other,
        ],
    },
];

const WORD_AGAIN: &[Piece] = &[
    Piece::WordIs,
    Piece::Text("; its like stands already in this line"),
];

const TOO_NEAR: &[Piece] = &[
    Piece::Text("the third number, "),
    Piece::Number(4),
    Piece::Text(", is less than the first two together, "),
    Piece::Number(2),
    Piece::Text(" + "),
    Piece::Number(3),
];

const TOO_NEAR_WITH_SKEW: &[Piece] = &[
    Piece::Text("the third number, "),
    Piece::Number(4),
    Piece::Text(", is less than the first two together, "),
    Piece::Number(2),
    Piece::Text(" + "),
    Piece::Number(3),
    Piece::Text(", and twice the fourth, "),
    Piece::Number(5),
    Piece::Text(", besides"),
];

const CLOCK: &[Piece] = &[
    Piece::Text("the clock of "),
    Piece::Bare(2),
    Piece::Text(" would stand more than "),
    Piece::OtherNumber(5),
    Piece::Text(" above that of another system"),
];

const MTU: &[Piece] = &[
    Piece::Text("word 3 is "),
    Piece::Word(3),
    Piece::Text("; wanted: an MTU from 512 to 65535"),
];

const LONG_FRAME: &[Piece] = &[Piece::Text("the frame has more than 70000 octets")];

const ROUTES_NOW: &[Piece] = &[Piece::Text(
    "the router has 256 routes of other prefixes now, and no more may be",
)];

const EVENTS: &[Piece] = &[Piece::Text(
    "there are 100000 event lines before this one, and no more may be",
)];

const COPIES: &[Piece] = &[
    Piece::Text("with this line the numbers of settle and lose add up to "),
    Piece::Count,
    Piece::Text("; they may to 10000000"),
];

const TICKS: &[Piece] = &[
    Piece::Text("with this line the numbers of tick add up to "),
    Piece::Count,
    Piece::Text("; they may to 1000000"),
];

/// A declaration of which there are as many as may be.
struct Full {
    keyword: &'static [u8],
    /// The role of the system that it is of; none where any may be.
    role: &'static [u8],
    said: &'static [Piece],
}

const FULL: &[Full] = &[
    Full {
        keyword: b"subnet",
        role: b"",
        said: &[Piece::Text("64 subnetworks are declared already, and no more may be")],
    },
    Full {
        keyword: b"system",
        role: b"",
        said: &[Piece::Text("64 systems are declared already, and no more may be")],
    },
    Full {
        keyword: b"route",
        role: b"",
        said: &[Piece::Text("the router has 256 routes already, and no more may be")],
    },
    Full {
        keyword: b"address",
        role: b"host",
        said: &[
            Piece::Bare(2),
            Piece::Text(" is a host; a host has at most 8 addresses"),
        ],
    },
    Full {
        keyword: b"port",
        role: b"host",
        said: &[
            Piece::Bare(2),
            Piece::Text(" is a host; a host has exactly one port"),
        ],
    },
    Full {
        keyword: b"address",
        role: b"router",
        said: &[
            Piece::Bare(2),
            Piece::Text(" is a router; a router has exactly one address"),
        ],
    },
    Full {
        keyword: b"port",
        role: b"router",
        said: &[
            Piece::Bare(2),
            Piece::Text(" is a router; a router has at most 8 ports"),
        ],
    },
];

/// What is said of a line whose words are right each by itself.
pub(crate) fn of_whole(
    at: Place<'_>,
    line: &[u8],
    keyword: &[u8],
    more: More,
    code: Code,
) -> Option<Saying> {
    let is_event = at.before(b"events", Sought::Alone).is_some();
    match code {
        Code::DupName | Code::DupAddress => {
            of_again(at, line, keyword, is_event, code).or(of_word_again(line, more))
        }
        Code::Limits if is_event => of_clock(at, line),
        Code::Limits => of_limits(line),
        Code::Mtu => Some(Saying::of(MTU)),
        Code::Count if is_event => of_event_too_many(at, line, keyword),
        Code::Count => of_count(at, line, keyword),
        _ => None,
    }
}

/// What is said of what a line before has, too.
fn of_again(
    at: Place<'_>,
    line: &[u8],
    keyword: &[u8],
    is_event: bool,
    code: Code,
) -> Option<Saying> {
    for again in AGAIN {
        if again.code == code && again.is_event == is_event && same(again.keyword, keyword) {
            let found = if is_event {
                at.port_now(line, again.columns)
            } else {
                at.before(
                    keyword,
                    Sought::Like {
                        line,
                        columns: again.columns,
                    },
                )
            };
            if let Some(found) = found {
                return Some(Saying::other(again.said, found.number));
            }
        }
    }
    None
}

/// What is said of a setting or of a wish that stands twice in a line.
fn of_word_again(line: &[u8], more: More) -> Option<Saying> {
    let mut place: usize = 1;
    for word in words(line) {
        if is_again(line, place, word, more) {
            return Some(Saying {
                pieces: WORD_AGAIN,
                place,
                ..NOTHING
            });
        }
        place = place.saturating_add(1);
    }
    None
}

/// Whether a word before a place of a line, behind the words that it must have, has the same key.
fn is_again(line: &[u8], place: usize, word: &[u8], more: More) -> bool {
    let from: usize = match more {
        More::Settings => 4,
        More::Wishes => 6,
        More::Nothing | More::Transit => return false,
    };
    let mut other_place: usize = 1;
    for other in words(line) {
        if other_place >= place {
            return false;
        }
        if other_place >= from && same(key_part(other, more), key_part(word, more)) {
            return true;
        }
        other_place = other_place.saturating_add(1);
    }
    false
}

/// The key of a word, or all of one without a value.
fn key_part(word: &[u8], more: More) -> &[u8] {
    if let Some(key) = key_of(more.keys(), word) {
        return key.key;
    }
    if word.starts_with(b"checksum=") {
        return b"checksum=";
    }
    if word.starts_with(b"opt=") {
        return b"opt=";
    }
    word
}

/// What is said of limits that are too near to one another.
fn of_limits(line: &[u8]) -> Option<Saying> {
    let least = number_at(line, 2)?.saturating_add(number_at(line, 3)?);
    let skew = number_at(line, 5).unwrap_or(0);
    if least.saturating_add(skew).saturating_add(skew) <= number_at(line, 4)? {
        return None;
    }
    Some(Saying::of(if skew == 0 {
        TOO_NEAR
    } else {
        TOO_NEAR_WITH_SKEW
    }))
}

/// What is said of a system that ticks too often alone: how far apart the limits let clocks stand.
fn of_clock(at: Place<'_>, line: &[u8]) -> Option<Saying> {
    let limits = at.before(b"limits", Sought::Like { line, columns: &[] })?;
    Some(Saying::other(CLOCK, limits.number))
}

/// What is said of a declaration of which there are as many as may be.
fn of_count(at: Place<'_>, line: &[u8], keyword: &[u8]) -> Option<Saying> {
    let name = word_at(line, 2)?;
    for full in FULL {
        if same(full.keyword, keyword) && (full.role.is_empty() || has_role(at, name, full.role)) {
            return Some(Saying::of(full.said));
        }
    }
    None
}

/// What is said of an event with which a number is passed.
fn of_event_too_many(at: Place<'_>, line: &[u8], keyword: &[u8]) -> Option<Saying> {
    if same(keyword, b"inject") && word_at(line, 5)?.len() > 140_000 {
        return Some(Saying::of(LONG_FRAME));
    }
    let said = of_events(at);
    if said.is_none() && same(keyword, b"route") {
        return Some(Saying::of(ROUTES_NOW));
    }
    said
}

/// How much the event lines up to one come to.
#[derive(Clone, Copy)]
struct Sums {
    events: u64,
    copies: u64,
    ticks: u64,
}

impl Sums {
    /// They with one line more.
    fn with(self, line: &[u8]) -> Sums {
        let count = match number_at(line, 2) {
            Some(count) => count,
            None => number_at(line, 3).unwrap_or(0),
        };
        let copies = if begins(line, b"settle") || begins(line, b"lose") {
            count
        } else {
            0
        };
        let ticks = if begins(line, b"tick") { count } else { 0 };
        Sums {
            events: self.events.saturating_add(1),
            copies: self.copies.saturating_add(copies),
            ticks: self.ticks.saturating_add(ticks),
        }
    }

    /// What is said of them, where they come to too much.
    fn said(self) -> Option<Saying> {
        if self.events > 100_000 {
            Some(Saying::of(EVENTS))
        } else if self.copies > 10_000_000 {
            Some(Saying::counting(COPIES, self.copies))
        } else if self.ticks > 1_000_000 {
            Some(Saying::counting(TICKS, self.ticks))
        } else {
            None
        }
    }
}

/// What is said of an event with which there are too many.
fn of_events(at: Place<'_>) -> Option<Saying> {
    let started = at.before(b"events", Sought::Alone)?;
    let mut sums = Sums {
        events: 0,
        copies: 0,
        ticks: 0,
    };
    let mut number: u32 = 1;
    for line in lines(at.text) {
        if number > at.number {
            break;
        }
        if number > started.number && !is_skipped(line) && count_words(line) > 0 {
            sums = sums.with(line);
        }
        number = number.saturating_add(1);
    }
    sums.said()
}
