//! What is said of a line of a capture, or of a file of vectors.
ghost use Rattle.scenario_advice.specs.Said.{IsTold};

use crate::advice::Advice;
use crate::file::of_file;
use crate::form::{are_octets, cut_before, first_other};
use crate::place::Place;
use crate::saying::{Piece, Saying};
use scenario::Code;

/// The most octets of a frame.
const MOST_FRAME: usize = 70_000;

const NO_ARROW: &[Piece] = &[Piece::Text(
    "behind the digits of the frame stands no \" => \"; wanted: DIGITS => LINE",
)];

const TOO_LONG: &[Piece] = &[
    Piece::Text("the frame has "),
    Piece::Count,
    Piece::Text(" octets; it may have 70000"),
];

const NO_DIGIT: &[Piece] = &[
    Piece::Text("character "),
    Piece::Count,
    Piece::Text(" is "),
    Piece::Character,
    Piece::Text("; wanted: the hexadecimal digits of one frame, two an octet, and nothing else"),
];

const NO_DIGITS: &[Piece] = &[Piece::Text(
    "the line begins with a space; wanted: the digits of a frame",
)];

const ONE_DIGIT: &[Piece] = &[Piece::Text(
    "the frame has 1 digit, an odd number; wanted: two an octet",
)];

const ODD_DIGITS: &[Piece] = &[
    Piece::Text("the frame has "),
    Piece::Count,
    Piece::Text(" digits, an odd number; wanted: two an octet"),
];

/// What is said to the author of a capture that is refused at a line, from 1, with the number of a code.
pub fn of_capture(text: &[u8], line: u32, code: u8) -> Advice
    ensures told { IsTold result }
{
    of_text(Place { text, number: line }, false, code)
}

/// What is said to the author of a file of vectors that is refused at a line, from 1, with the number of a code.
pub fn of_vectors(text: &[u8], line: u32, code: u8) -> Advice
    ensures told { IsTold result }
{
    of_text(Place { text, number: line }, true, code)
}

/// What is said of a line of such a text.
fn of_text(at: Place<'_>, is_vector: bool, code: u8) -> Advice
    ensures told { IsTold result }
{
    let mut advice = Advice::new();
    if let Some(saying) = of_text_line(at, is_vector, code) {
        saying.tell(&mut advice, at);
    }
    advice.or_line(at.line());
    advice
}

/// What is found to say of a line of such a text.
fn of_text_line(at: Place<'_>, is_vector: bool, code: u8) -> Option<Saying> {
    if let Some(saying) = of_file(at.text) {
        return Some(saying);
    }
    let line = at.line()?;
    let code = Code::of_number(code)?;
    if !is_vector {
        return of_frame(line, code);
    }
    let (digits, rest) = cut_before(line, b' ');
    if code == Code::Syntax && is_frame(digits) && !rest.starts_with(b" => ") {
        return Some(Saying::of(NO_ARROW));
    }
    of_frame(digits, code)
}

/// Whether digits are those of a frame.
fn is_frame(digits: &[u8]) -> bool {
    !digits.is_empty() && are_octets(digits)
}

/// What is said of the digits of a frame, with which a line begins.
fn of_frame(digits: &[u8], code: Code) -> Option<Saying> {
    let size = digits.len() / 2;
    match code {
        Code::Syntax => of_digits(digits),
        Code::Count if size > MOST_FRAME && are_octets(digits) => {
            Some(Saying::counting(TOO_LONG, size as u64))
        }
        _ => None,
    }
}

/// What is said of what should be digits and isn't.
fn of_digits(digits: &[u8]) -> Option<Saying> {
    if let Some(place) = first_other(digits) {
        return Some(Saying::counting(NO_DIGIT, place as u64));
    }
    match digits.len() {
        0 => Some(Saying::of(NO_DIGITS)),
        1 => Some(Saying::of(ONE_DIGIT)),
        count if count % 2 == 1 => Some(Saying::counting(ODD_DIGITS, count as u64)),
        _ => None,
    }
}
