//! What is said of a line of a scenario text.
ghost use Rattle.scenario_advice.specs.Said.{IsTold};

use crate::advice::Advice;
use crate::grammar::{
    DECLARATIONS, LineForm, More, declaration_of, event_of, form_of, live_event_of,
};
use crate::header::{ALL, FIRST_ALONE, Versions, of_header};
use crate::place::{Place, Sought, count_words, word_at};
use crate::saying::{Piece, Saying};
use crate::systems::of_systems;
use crate::whole::of_whole;
use crate::word::{of_further_word, of_keyword, of_word, of_word_too_many, of_words_missing};
use scenario::Code;
use scenario::base::{next_word, same, words};

const NO_MORE_EVENTS: &[Piece] = &[Piece::Text(
    "the text ends here; wanted: an event, or the line end",
)];

const NO_MORE_DECLARATIONS: &[Piece] = &[Piece::Text(
    "the text ends here; wanted: a declaration, or the line events",
)];

const SPACES: &[Piece] = &[Piece::Text(
    "the line has nothing but spaces; an empty line has no character",
)];

const BEHIND_END: &[Piece] = &[Piece::Text(
    "nothing but skipped lines may stand behind the line end",
)];

const NO_LIMITS: &[Piece] = &[Piece::Text(
    "no line before this one says limits L R Q S, which a text of version 2 has once",
)];

/// What is said to the author of a scenario text, of either version, that is refused at a line, from 1, with the number of a
/// code: which word is at fault and what is wanted there, or which names the line is about. Where that can't be told, the line.
pub fn of_scenario(text: &[u8], line: u32, code: u8) -> Advice
    ensures told { IsTold result }
{
    of_text(Place { text, number: line }, code, ALL, None)
}

/// The same where texts of version 1 alone are read.
pub fn of_scenario_of_version_1(text: &[u8], line: u32, code: u8) -> Advice
    ensures told { IsTold result }
{
    of_text(Place { text, number: line }, code, FIRST_ALONE, None)
}

/// The same where texts are read for a live node on a board of so many links.
pub fn of_scenario_for_run(text: &[u8], links: usize, line: u32, code: u8) -> Advice
    ensures told { IsTold result }
{
    of_text(Place { text, number: line }, code, ALL, Some(links))
}

/// What is said of a line that is refused with the number of a code; for a live node, where links are given.
fn of_text(at: Place<'_>, code: u8, versions: &'static Versions, links: Option<usize>) -> Advice
    ensures told { IsTold result }
{
    let mut advice = Advice::new();
    if let Some(saying) = of_code(at, code, versions, links) {
        saying.tell(&mut advice, at);
    }
    advice.or_line(at.line());
    advice
}

/// What is found to say of a line.
fn of_code(
    at: Place<'_>,
    code: u8,
    versions: &'static Versions,
    links: Option<usize>,
) -> Option<Saying> {
    match Code::of_number(code)? {
        Code::Header => of_header(at, versions),
        code => of_line(at, code, links),
    }
}

/// What is said of a line behind the header.
fn of_line(at: Place<'_>, code: Code, links: Option<usize>) -> Option<Saying> {
    let has_events = at.before(b"events", Sought::Alone).is_some();
    let Some(line) = at.line() else {
        return only_syntax(
            code,
            if has_events {
                NO_MORE_EVENTS
            } else {
                NO_MORE_DECLARATIONS
            },
        );
    };
    let Some((keyword, rest)) = next_word(line) else {
        return only_syntax(code, SPACES);
    };
    if !has_events {
        return of_declaration(at, line, keyword, rest, code, links);
    }
    if at.before(b"end", Sought::Alone).is_some() {
        return only_syntax(code, BEHIND_END);
    }
    let form = match links {
        None => event_of(at, keyword, count_words(rest)),
        Some(_) => live_event_of(keyword),
    };
    match form {
        Some(form) => of_words(at, line, rest, form, code),
        None if code == Code::Syntax => Some(of_other_event(at, keyword, rest, links)),
        None => None,
    }
}

/// A saying where the code is that of syntax.
fn only_syntax(code: Code, pieces: &'static [Piece]) -> Option<Saying> {
    if code == Code::Syntax {
        Some(Saying::of(pieces))
    } else {
        None
    }
}

/// What is said of a line before `events`.
fn of_declaration(
    at: Place<'_>,
    line: &[u8],
    keyword: &[u8],
    rest: &[u8],
    code: Code,
    links: Option<usize>,
) -> Option<Saying> {
    if let Some(form) = declaration_of(at, keyword) {
        return of_words(at, line, rest, form, code);
    }
    if same(keyword, b"events") {
        return of_line_events(at, rest, code, links);
    }
    if code != Code::Syntax {
        return None;
    }
    let wanted = if same(keyword, b"end") {
        "a declaration, or the line events, which stands before the events and end"
    } else if event_of(at, keyword, 0).is_some() {
        "a declaration, or the line events, which stands before the first event"
    } else {
        "limits, subnet, system, address, port, route or events"
    };
    Some(of_keyword(keyword, wanted))
}

/// What is said of the line `events`: a further word, what systems lack, or that the text has to say its limits.
fn of_line_events(at: Place<'_>, rest: &[u8], code: Code, links: Option<usize>) -> Option<Saying> {
    let further = next_word(rest);
    match code {
        Code::Syntax => match further {
            Some((word, _)) => Some(of_word_too_many(2, word, "events")),
            None if at.is_of_version_2() => Some(Saying::of(NO_LIMITS)),
            None => None,
        },
        Code::Count if further.is_none() => of_systems(at, links),
        _ => None,
    }
}

/// What is said of a line behind `events` whose first word is no event.
fn of_other_event(at: Place<'_>, keyword: &[u8], rest: &[u8], links: Option<usize>) -> Saying {
    if same(keyword, b"end") {
        if let Some((word, _)) = next_word(rest) {
            return of_word_too_many(2, word, "end");
        }
    }
    let wanted = if links.is_some() {
        "send, echo, tick or end; a run takes no other event, and declarations stand before the line events"
    } else if form_of(DECLARATIONS, keyword).is_some() {
        "an event, or the line end; declarations stand before the line events"
    } else if at.is_of_version_2() {
        "send, echo, deliver, settle, lose, tick, restart, congest, inject, mtu, route, unroute, port or end"
    } else if same(keyword, b"mtu") || same(keyword, b"unroute") {
        "send, echo, deliver, settle, lose, tick, restart, congest, inject or end; mtu and unroute are events of version 2"
    } else {
        "send, echo, deliver, settle, lose, tick, restart, congest, inject or end"
    };
    of_keyword(keyword, wanted)
}

/// What is said of a line with a known keyword: how many words it has, then each of them, then the line as a whole.
fn of_words(
    at: Place<'_>,
    line: &[u8],
    rest: &[u8],
    form: &'static LineForm,
    code: Code,
) -> Option<Saying> {
    let count = count_words(rest);
    let least = form.words.len();
    let most = match form.more {
        More::Nothing => least,
        More::Transit => least.saturating_add(1),
        More::Settings | More::Wishes => usize::MAX,
    };
    if count >= least && count <= most {
        return of_each_word(at, line, rest, form, code);
    }
    if code != Code::Syntax {
        return None;
    }
    if count < least {
        return Some(of_words_missing(count.saturating_add(1), form.shape));
    }
    let place = most.saturating_add(2);
    Some(of_word_too_many(place, word_at(line, place)?, form.shape))
}

/// What is said of the first word of a line that breaks its form, or of the line as a whole.
fn of_each_word(
    at: Place<'_>,
    line: &[u8],
    rest: &[u8],
    form: &'static LineForm,
    code: Code,
) -> Option<Saying> {
    let mut place: usize = 2;
    for word in words(rest) {
        let wanted = form.words.get(place.saturating_sub(2));
        let broken = match wanted {
            Some(wanted) => wanted.broken(at, line, word),
            None => form.more.broken(word),
        };
        if let Some(broken) = broken {
            if broken != code {
                return None;
            }
            return Some(match wanted {
                Some(wanted) => of_word(at, place, *wanted, word, code),
                None => of_further_word(place, form.more, word, code),
            });
        }
        place = place.saturating_add(1);
    }
    of_whole(at, line, form.keyword, form.more, code)
}
