ghost use Rattle.std.specs.Prelude.{◌≡◌, ◌-◌, ◌<◌, ◌≤◌, ◌∷◌, [], drop, length, false, MatchOption, IfSome};
ghost use Rattle.std.specs.Str.{bytes_eq};
ghost use Rattle.clnp_base.specs.Text.{lines_of, words_of, begins_with, decimal_of, is_skipped};
ghost use Rattle.clnp_base.specs.Cuts.{index_of, without_return, with_digit};

use memchr::memchr;
use std::marker::Model;

/// The first line of a text and what follows it, where the text has a line.
///
/// A line ends before a `\n` or with the text; one `\r` before the `\n` is dropped. What follows is the end of the
/// text.
pub fn next_line(text: &[u8]) -> Option<(&[u8], &[u8])>
    ensures line { MatchOption result (lines_of text.now ≡ [])
        (λ cut. lines_of text.now ≡ cut.0.now ∷ lines_of cut.1.now) }
    ensures shorter { IfSome result (λ cut. length cut.1.now < length text.now) }
    ensures rest { IfSome result (λ cut. cut.1.now ≡ drop (length text.now - length cut.1.now) text.now) }
{
    if let [b'\n', rest @ ..] = text {
        return Some((&[], rest));
    }
    if text.is_empty() {
        return None;
    }
    let end = end_of_line(text);
    if end == text.len() {
        return Some((text, &[]));
    }
    let (_, rest) = text.split_at(end + 1);
    Some((without_return(&text[..end]), rest))
}

/// Whether a line is empty or begins with `#`, and is to be skipped.
pub fn is_skipped(line: &[u8]) -> bool
    ensures { result ≡ is_skipped line.now }
{
    match line {
        [first, ..] => *first == b'#',
        [] => true,
    }
}

/// The first word of a line and what follows it, where the line has a word.
///
/// Words are cut at runs of spaces.
pub fn next_word(line: &[u8]) -> Option<(&[u8], &[u8])>
    ensures word { MatchOption result (words_of line.now ≡ [])
        (λ cut. words_of line.now ≡ cut.0.now ∷ words_of cut.1.now) }
    ensures shorter { IfSome result (λ cut. length cut.1.now < length line.now) }
{
    let left = without_spaces(line);
    if left.is_empty() {
        return None;
    }
    let end = index_of(left, b' ');
    Some(left.split_at(end))
}

/// Whether two texts are the same.
pub fn same(text: &[u8], other: &[u8]) -> bool
    ensures { result ≡ bytes_eq text.now other.now }
{
    text == other
}

/// The lines of a text, in order.
pub fn lines(text: &[u8]) -> LineIter<'_>
    ensures lines { result ≡ lines_of text.now }
    ensures few { length (lines_of text.now) ≤ length text.now }
{
    LineIter { text }
}

/// The words of a line, in order.
pub fn words(line: &[u8]) -> WordIter<'_>
    ensures words { result ≡ words_of line.now }
    ensures few { length (words_of line.now) ≤ length line.now }
{
    WordIter { line }
}

/// The lines of a text that are left.
#[derive(Drop)]
pub struct LineIter<'a> {
    text: &'a [u8],
}

impl<'a> Model for LineIter<'a> {
    ghost use Rattle.std.specs.Prelude.{List, ℕ};
    ghost use Rattle.clnp_base.specs.Text.{lines_of};

    ghost Value = { List (List ℕ) };

    ghost view = { λ it. lines_of it.text.now };
}

/// The words of a line that are left.
#[derive(Drop)]
pub struct WordIter<'a> {
    line: &'a [u8],
}

impl<'a> Model for WordIter<'a> {
    ghost use Rattle.std.specs.Prelude.{List, ℕ};
    ghost use Rattle.clnp_base.specs.Text.{words_of};

    ghost Value = { List (List ℕ) };

    ghost view = { λ it. words_of it.line.now };
}

impl<'a> Iterator for LineIter<'a> {
    ghost use Rattle.std.specs.Iterator.{YieldsFirstRef, item_count};

    type Item = &'a [u8];

    ghost next_gives = { YieldsFirstRef (λ left. left) };

    ghost remaining = { item_count (λ left. left) };

    fn next(&mut self) -> Option<&'a [u8]> {
        let (line, rest) = next_line(self.text)?;
        self.text = rest;
        Some(line)
    }
}

impl<'a> Iterator for WordIter<'a> {
    ghost use Rattle.std.specs.Iterator.{YieldsFirstRef, item_count};

    type Item = &'a [u8];

    ghost next_gives = { YieldsFirstRef (λ left. left) };

    ghost remaining = { item_count (λ left. left) };

    fn next(&mut self) -> Option<&'a [u8]> {
        let (word, rest) = next_word(self.line)?;
        self.line = rest;
        Some(word)
    }
}

/// The number that a word of decimal digits spells.
///
/// `None` where there is no digit or another character, or the number passes 2^64 - 1.
pub fn decimal(word: &[u8]) -> Option<u64>
    ensures { result ≡ decimal_of word.now }
{
    if word.is_empty() {
        return None;
    }
    let mut value: u64 = 0;
    for octet in word {
        value = with_digit(value, *octet)?;
    }
    Some(value)
}

/// `value` with one more digit at its end, where the octet is a digit and the number fits.
fn with_digit(value: u64, octet: u8) -> Option<u64>
    ensures { result ≡ with_digit value octet }
{
    if !octet.is_ascii_digit() {
        return None;
    }
    value.checked_mul(10)?.checked_add(u64::from(octet - b'0'))
}

/// How many octets of a line are looked at one by one, before many are looked at at once: a short line ends sooner so.
const SHORT_LINE: usize = 4;

/// Where the first `\n` stands, or the length where there is none.
fn end_of_line(text: &[u8]) -> usize
    ensures place { result ≡ index_of 10 text.now }
    ensures within { result ≤ length text.now }
{
    let front = &text[..text.len().min(SHORT_LINE)];
    let end = index_of(front, b'\n');
    if end < front.len() {
        return end;
    }
    end_of_long_line(text)
}

/// The same, of a line that is most often long.
fn end_of_long_line(text: &[u8]) -> usize
    ensures place { result ≡ index_of 10 text.now }
    ensures within { result ≤ length text.now }
{
    match memchr(b'\n', text) {
        Some(place) => place,
        None => text.len(),
    }
}

/// Where the octet first stands, or the length where it doesn't.
fn index_of(octets: &[u8], wanted: u8) -> usize
    ensures place { result ≡ index_of wanted octets.now }
    ensures within { result ≤ length octets.now }
{
    for (i, octet) in octets.iter().enumerate() {
        if *octet == wanted {
            return i;
        }
    }
    octets.len()
}

/// The line without the `\r` at its end, if it has one.
fn without_return(line: &[u8]) -> &[u8]
    ensures { result.now ≡ without_return line.now }
{
    match line.split_last() {
        Some((last, front)) if *last == b'\r' => front,
        _ => line,
    }
}

/// The line from its first octet that isn't a space.
fn without_spaces(line: &[u8]) -> &[u8]
    ensures words { words_of result.now ≡ words_of line.now }
    ensures start { begins_with 32 result.now ≡ false }
    ensures within { length result.now ≤ length line.now }
{
    let mut left = line;
    while let [b' ', rest @ ..] = left {
        left = rest;
    }
    left
}
