//! A line of a text, and what the lines before it declare.
use scenario::base::{decimal, is_skipped, lines, next_word, same, words};
use scenario::nsaps::{Address, Prefix, Snpa};

/// The header of a text of version 2.
pub(crate) const VERSION_2: &[u8] = b"clnp-sim 2";

/// The word at a place of a line, from 1.
pub(crate) fn word_at(line: &[u8], place: usize) -> Option<&[u8]> {
    words(line).nth(place.saturating_sub(1))
}

/// The number at a place of a line, where a decimal stands there.
pub(crate) fn number_at(line: &[u8], place: usize) -> Option<u64> {
    decimal(word_at(line, place)?)
}

/// How many words a line has.
pub(crate) fn count_words(line: &[u8]) -> usize {
    words(line).count()
}

/// Whether a line begins with a keyword.
pub(crate) fn begins(line: &[u8], keyword: &[u8]) -> bool {
    match next_word(line) {
        Some((word, _)) => same(word, keyword),
        None => false,
    }
}

/// What two words of lines are compared as.
pub(crate) enum Kind {
    Word,
    Number,
    Address,
    Snpa,
    Prefix,
}

/// A word of a line by its place, and what it is compared as.
pub(crate) struct Column {
    pub(crate) place: usize,
    pub(crate) kind: Kind,
}

impl Column {
    /// Whether two words are the same there.
    fn are_same(&self, word: &[u8], other: &[u8]) -> bool {
        match self.kind {
            Kind::Word => same(word, other),
            Kind::Number => decimal(word).is_some() && decimal(word) == decimal(other),
            Kind::Address => match (Address::from_text(word), Address::from_text(other)) {
                (Ok(address), Ok(other)) => address == other,
                _ => false,
            },
            Kind::Snpa => match (Snpa::from_text(word), Snpa::from_text(other)) {
                (Ok(snpa), Ok(other)) => snpa == other,
                _ => false,
            },
            Kind::Prefix => match (Prefix::from_text(word), Prefix::from_text(other)) {
                (Ok(prefix), Ok(other)) => prefix == other,
                _ => false,
            },
        }
    }
}

/// What tells a port of a system from others.
pub(crate) const PORT: &[Column] = &[
    Column {
        place: 2,
        kind: Kind::Word,
    },
    Column {
        place: 3,
        kind: Kind::Number,
    },
];

/// Whether two lines have the same words there.
pub(crate) fn are_alike(line: &[u8], other: &[u8], columns: &'static [Column]) -> bool {
    for column in columns {
        match (word_at(line, column.place), word_at(other, column.place)) {
            (Some(word), Some(other)) if column.are_same(word, other) => {}
            _ => return false,
        }
    }
    true
}

/// What a line is sought by, beside its keyword.
#[derive(Clone, Copy)]
pub(crate) enum Sought<'a> {
    /// It has no other word.
    Alone,
    /// The name of what it declares.
    Name(&'a [u8]),
    /// The number of a port, as a word tells it, of the system of a name.
    Port {
        name: &'a [u8],
        number: &'a [u8],
    },
    /// What it has in columns, as another line has.
    Like {
        line: &'a [u8],
        columns: &'static [Column],
    },
}

impl Sought<'_> {
    /// Whether a line is so.
    fn is(self, line: &[u8]) -> bool {
        match self {
            Sought::Alone => count_words(line) == 1,
            Sought::Name(name) => has_word(line, 2, name),
            Sought::Port { name, number } => {
                has_word(line, 2, name) && number_at(line, 3) == decimal(number)
            }
            Sought::Like {
                line: other,
                columns,
            } => are_alike(line, other, columns),
        }
    }
}

/// Whether a line has a word at a place.
pub(crate) fn has_word(line: &[u8], place: usize, word: &[u8]) -> bool {
    match word_at(line, place) {
        Some(other) => same(other, word),
        None => false,
    }
}

/// A line that was found, with its number.
#[derive(Clone, Copy)]
pub(crate) struct Found<'a> {
    pub(crate) number: u32,
    pub(crate) line: &'a [u8],
}

/// A line of a text, by its number from 1.
#[derive(Clone, Copy)]
pub(crate) struct Place<'a> {
    pub(crate) text: &'a [u8],
    pub(crate) number: u32,
}

impl<'a> Place<'a> {
    /// Whether the text is one of version 2.
    pub(crate) fn is_of_version_2(self) -> bool {
        for line in lines(self.text) {
            if !is_skipped(line) {
                return same(line, VERSION_2);
            }
        }
        false
    }

    /// The line, where the text has it.
    pub(crate) fn line(self) -> Option<&'a [u8]> {
        let before = self.number.checked_sub(1)?;
        lines(self.text).nth(before as usize)
    }

    /// The first line of a keyword that is sought, from a number on and before another.
    pub(crate) fn first_between(
        self,
        from: u32,
        to: u32,
        keyword: &[u8],
        sought: Sought<'_>,
    ) -> Option<Found<'a>> {
        let mut number: u32 = 1;
        for line in lines(self.text) {
            if number >= to {
                return None;
            }
            if number >= from && begins(line, keyword) && sought.is(line) {
                return Some(Found { number, line });
            }
            number = number.saturating_add(1);
        }
        None
    }

    /// The first line of a keyword that is sought before this one.
    pub(crate) fn before(self, keyword: &[u8], sought: Sought<'_>) -> Option<Found<'a>> {
        self.first_between(1, self.number, keyword, sought)
    }

    /// The first `port` line before this one of another port than that of a line that has the same words in these columns and
    /// is the last one of its port.
    pub(crate) fn port_now(self, own: &[u8], columns: &'static [Column]) -> Option<Found<'a>> {
        let mut number: u32 = 1;
        for line in lines(self.text) {
            if number >= self.number {
                return None;
            }
            if begins(line, b"port")
                && are_alike(own, line, columns)
                && !are_alike(own, line, PORT)
                && self.is_last(line, number)
            {
                return Some(Found { number, line });
            }
            number = number.saturating_add(1);
        }
        None
    }

    /// Whether no line between a `port` line and this one puts its port elsewhere.
    fn is_last(self, line: &[u8], number: u32) -> bool {
        let sought = Sought::Like {
            line,
            columns: PORT,
        };
        let from = number.saturating_add(1);
        self.first_between(from, self.number, b"port", sought)
            .is_none()
    }
}
