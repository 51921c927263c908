//! What is said, as data: pieces, and what they speak of.
use crate::advice::Advice;
use crate::form::pattern_fields;
use crate::place::{Place, number_at, word_at};

/// A piece of what is said of a line, and perhaps of another one.
pub(crate) enum Piece {
    Text(&'static str),
    /// The line, in quotes.
    Line,
    /// The word at a place of the line, from 1, in quotes.
    Word(usize),
    /// The same without quotes.
    Bare(usize),
    /// The decimal at a place of the line.
    Number(usize),
    /// The word at a place of the other line, without quotes.
    OtherBare(usize),
    /// The decimal at a place of the other line.
    OtherNumber(usize),
    /// The number of the other line.
    Other,
    /// The text that it is about.
    About,
    /// The number that it is about.
    Count,
    /// The other number that it is about.
    Most,
    /// Which word of the line it is about, and what that word is.
    WordIs,
    /// That word, without quotes.
    ItBare,
    /// That word's length and start, as a pattern has them.
    ItsFields,
    /// The character of the line at the place that the number tells, in quotes.
    Character,
}

/// What is said of a line.
#[derive(Clone, Copy)]
pub(crate) struct Saying {
    pub(crate) pieces: &'static [Piece],
    /// The place of the word that it is about, from 1.
    pub(crate) place: usize,
    /// The number of another line.
    pub(crate) other: u32,
    pub(crate) about: &'static str,
    pub(crate) count: u64,
    pub(crate) most: u64,
}

/// A saying without pieces, about nothing.
pub(crate) const NOTHING: Saying = Saying {
    pieces: &[],
    place: 0,
    other: 0,
    about: "",
    count: 0,
    most: 0,
};

impl Saying {
    /// One that is about nothing but the line.
    pub(crate) fn of(pieces: &'static [Piece]) -> Saying {
        Saying { pieces, ..NOTHING }
    }

    /// One that is about a text.
    pub(crate) fn about(pieces: &'static [Piece], about: &'static str) -> Saying {
        Saying {
            pieces,
            about,
            ..NOTHING
        }
    }

    /// One that is about a number.
    pub(crate) fn counting(pieces: &'static [Piece], count: u64) -> Saying {
        Saying {
            pieces,
            count,
            ..NOTHING
        }
    }

    /// One that is about another line, too.
    pub(crate) fn other(pieces: &'static [Piece], other: u32) -> Saying {
        Saying {
            pieces,
            other,
            ..NOTHING
        }
    }

    /// Puts it behind what is said already.
    pub(crate) fn tell(self, advice: &mut Advice, at: Place<'_>) {
        let line = at.line().unwrap_or(b"");
        let other = Place {
            text: at.text,
            number: self.other,
        };
        let other = other.line().unwrap_or(b"");
        for piece in self.pieces {
            self.put(advice, piece, line, other);
        }
    }

    /// Puts a piece of it behind what is said.
    fn put(self, advice: &mut Advice, piece: &Piece, line: &[u8], other: &[u8]) {
        match piece {
            Piece::Text(text) => advice.octets(text.as_bytes()),
            Piece::Line => advice.word(line),
            Piece::Word(place) => advice.word(word_of(line, *place)),
            Piece::Bare(place) => advice.octets(word_of(line, *place)),
            Piece::Number(place) => advice.number(number_at(line, *place).unwrap_or(0)),
            Piece::OtherBare(place) => advice.octets(word_of(other, *place)),
            Piece::OtherNumber(place) => advice.number(number_at(other, *place).unwrap_or(0)),
            Piece::Other => advice.number(self.other as u64),
            Piece::About => advice.octets(self.about.as_bytes()),
            Piece::Count => advice.number(self.count),
            Piece::Most => advice.number(self.most),
            Piece::WordIs | Piece::ItBare | Piece::ItsFields => {
                self.put_word(advice, piece, word_of(line, self.place))
            }
            Piece::Character => advice.word(character_of(line, self.count as usize)),
        }
    }

    /// Puts a piece of it behind what is said that speaks of a word.
    fn put_word(self, advice: &mut Advice, piece: &Piece, word: &[u8]) {
        match piece {
            Piece::ItBare => advice.octets(word),
            Piece::ItsFields => {
                if let Some((length, start)) = pattern_fields(word) {
                    advice.octets(b", with the length ");
                    advice.word(length);
                    advice.octets(b" and the start ");
                    advice.word(start);
                }
            }
            _ => {
                advice.octets(b"word ");
                advice.number(self.place as u64);
                advice.octets(b" is ");
                advice.word(word);
            }
        }
    }
}

/// The word at a place of a line, if it has one.
fn word_of(line: &[u8], place: usize) -> &[u8] {
    word_at(line, place).unwrap_or(b"")
}

/// The character at a place of a line, from 1, if it has one.
fn character_of(line: &[u8], place: usize) -> &[u8] {
    let (_, rest) = line.split_at(place.saturating_sub(1).min(line.len()));
    rest.get(..1).unwrap_or(b"")
}
