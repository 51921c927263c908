//! Lines that are written: words separated by one space, each line ended by `\n`.
ghost use Rattle.std.specs.Prelude.{◌≡◌, ◌≤◌, ◌+◌, [], ◌∷◌, ◌++◌, map, take, length, replicate, OnOk, OnErr};
ghost use Rattle.std.specs.Fmt.{decimal};
ghost use Rattle.std.specs.List.{flat_map};
ghost use Rattle.clnp_plan.specs.Journal.{behind_space, line_of, octets_word, on_or_off, target_text};
ghost use Rattle.clnp_plan.specs.Words.{five_texts, word_text};
ghost use Rattle.clnp_plan.specs.Laying.{HasRoom, Lays};
ghost use Rattle.pdus.specs.PduHeader.Kinds.{kind_word};
ghost use Rattle.pdus.specs.Nsap.Prefix.{prefix_text};
ghost use Rattle.pdus.specs.Nsap.Text.{hex_text};

use crate::digits::lay_digits;
use itoa::Buffer;
use pdus::pdu_header::Kind;
use pdus::pdu_header::base::{NoMemory, copy_over, push};
use pdus::pdu_header::nsaps::{Address, Prefix, Target};
use pdus::pdu_header::views::Frame;

/// The most decimal digits of a number.
const MOST_DIGITS: usize = 20;

/// Zeros that are appended at once, as many as most lines need: to fill with them octet by octet takes longer.
static ZEROS: [u8; 128] = [0; 128];

/// A word of a line.
#[derive(Clone, Copy)]
pub enum Word<'a> {
    /// A text as it stands.
    Text(&'a [u8]),
    /// A number, in decimal digits.
    Number(u64),
    /// A number behind a key.
    KeyedNumber(&'a [u8], u64),
    /// An octet, in two hexadecimal digits.
    Octet(u8),
    /// A data unit identifier, in four hexadecimal digits.
    Identifier(u16),
    /// Octets, in two hexadecimal digits each.
    Octets(&'a [u8]),
    /// Octets in two parts, in two hexadecimal digits each.
    Parts(&'a [u8], &'a [u8]),
    /// Octets behind a key.
    KeyedOctets(&'a [u8], &'a [u8]),
    /// An address, in two hexadecimal digits an octet.
    Address(&'a Address),
    /// The digits of a prefix.
    Prefix(&'a Prefix),
    /// So many octets of a pattern, from a start.
    Pattern(u32, u8),
}

/// Appends a line.
///
/// # Errors
///
/// `NoMemory`; `out` is then as it was.
#[inline(always)]
pub fn push_line<'a>(
    first: Word<'a>,
    others: &[Word<'a>],
    out: &mut Vec<u8>,
) -> Result<(), NoMemory>
    ensures written { OnOk result (out.new.items
        ≡ out.old.items ++ line_of (word_text first.entry) (map word_text others.now)) }
    ensures same { OnErr result (out.new.items ≡ out.old.items) }
{
    // Inlined with what it calls, up to the leaves: the words that a caller names are known then where they are laid.
    let start = out.len();
    make_room(room_for_line(&first, others), out)?;
    let len = lay_line(&first, others, &mut out[start..]);
    out.truncate(start + len);
    Ok(())
}

/// Appends a line of six words, as those of what is heard again, of which a journal can have most. The words are handed over
/// one by one and stand in no list, so that nothing of them is written to memory and read again.
///
/// # Errors
///
/// `NoMemory`; `out` is then as it was.
#[inline(always)]
pub(crate) fn push_line_of_six<'a>(
    first: Word<'a>,
    one: Word<'a>,
    two: Word<'a>,
    three: Word<'a>,
    four: Word<'a>,
    five: Word<'a>,
    out: &mut Vec<u8>,
) -> Result<(), NoMemory>
    ensures written { OnOk result (out.new.items ≡ out.old.items ++ line_of (word_text first.entry)
        (five_texts one.entry two.entry three.entry four.entry five.entry)) }
    ensures same { OnErr result (out.new.items ≡ out.old.items) }
{
    push_six(&first, &one, &two, &three, &four, &five, out)
}

/// The same of words that stand elsewhere.
#[inline(always)]
fn push_six(
    first: &Word<'_>,
    one: &Word<'_>,
    two: &Word<'_>,
    three: &Word<'_>,
    four: &Word<'_>,
    five: &Word<'_>,
    out: &mut Vec<u8>,
) -> Result<(), NoMemory>
    ensures written { OnOk result (out.new.items ≡ out.old.items ++ line_of (word_text first.now)
        (five_texts one.now two.now three.now four.now five.now)) }
    ensures same { OnErr result (out.new.items ≡ out.old.items) }
{
    let start = out.len();
    let words = room_for_five(one, two, three, four, five);
    let room = room_for(first).saturating_add(words).saturating_add(1);
    make_room(room, out)?;
    let len = lay_line_of_six(first, one, two, three, four, five, &mut out[start..]);
    out.truncate(start + len);
    Ok(())
}

/// Appends words, each behind a space.
///
/// # Errors
///
/// `NoMemory`; some of them may stand then behind what was there.
pub fn push_words<'a>(words: &[Word<'a>], out: &mut Vec<u8>) -> Result<(), NoMemory>
    ensures written { OnOk result (out.new.items ≡ out.old.items ++ flat_map behind_space (map word_text words.now)) }
    ensures kept { OnErr result (take (length out.old.items) out.new.items ≡ out.old.items) }
{
    let start = out.len();
    make_room(room_for_words(words), out)?;
    let len = lay_words(words, 0, &mut out[start..]);
    out.truncate(start + len);
    Ok(())
}

/// Appends zeros, over which words are laid.
fn make_room(count: usize, out: &mut Vec<u8>) -> Result<(), NoMemory>
    ensures written { OnOk result (out.new.items ≡ out.old.items ++ replicate count 0) }
    ensures same { OnErr result (out.new.items ≡ out.old.items) }
{
    if count <= ZEROS.len() {
        return push(&ZEROS[..count], out);
    }
    out.reserve(count)?;
    out.resize(out.len() + count, 0)?;
    Ok(())
}

/// Room for a line; the greatest number where it needs as much or more, which no memory has.
#[inline(always)]
fn room_for_line(first: &Word<'_>, others: &[Word<'_>]) -> usize
    ensures { HasRoom result (line_of (word_text first.now) (map word_text others.now)) }
{
    let words = room_for(first).saturating_add(room_for_words(others));
    words.saturating_add(1)
}

/// Room for words, each behind a space.
#[inline(always)]
fn room_for_words(words: &[Word<'_>]) -> usize
    ensures { HasRoom result (flat_map behind_space (map word_text words.now)) }
{
    let mut room: usize = 0;
    for word in words {
        room = room.saturating_add(1).saturating_add(room_for(word));
    }
    room
}

/// Room for five words, each behind a space.
#[inline(always)]
fn room_for_five(
    one: &Word<'_>,
    two: &Word<'_>,
    three: &Word<'_>,
    four: &Word<'_>,
    five: &Word<'_>,
) -> usize
    ensures { HasRoom result (flat_map behind_space (five_texts one.now two.now three.now four.now five.now)) }
{
    let room = room_for(one).saturating_add(room_for(two));
    let room = room.saturating_add(room_for(three));
    let room = room.saturating_add(room_for(four));
    let room = room.saturating_add(room_for(five));
    room.saturating_add(5)
}

/// Room for a word.
#[inline(always)]
fn room_for(word: &Word<'_>) -> usize
    ensures { HasRoom result (word_text word.now) }
{
    match *word {
        Word::Text(text) => text.len(),
        Word::Number(number) => room_for_number(number),
        Word::KeyedNumber(key, number) => key.len().saturating_add(room_for_number(number)),
        Word::Octet(octet) => room_for_octets(&[octet]),
        Word::Identifier(identifier) => room_for_octets(&identifier.to_be_bytes()),
        Word::Octets(octets) => room_for_octets(octets),
        Word::Parts(front, behind) => {
            room_for_octets(front).saturating_add(room_for_octets(behind))
        }
        Word::KeyedOctets(key, octets) => key.len().saturating_add(room_for_octets(octets)),
        Word::Address(address) => room_for_octets(address.as_bytes()),
        Word::Prefix(prefix) => room_for_prefix(prefix),
        Word::Pattern(len, start) => {
            let len = b"pat:".len() + room_for_number(u64::from(len));
            let start = b":".len() + room_for_number(u64::from(start));
            len + start
        }
    }
}

/// Room for a number in decimal digits.
fn room_for_number(number: u64) -> usize
    ensures enough { length (decimal number) ≤ result }
    ensures most { result ≤ 20 }
{
    MOST_DIGITS
}

/// Room for octets in two hexadecimal digits each.
fn room_for_octets(octets: &[u8]) -> usize
    ensures { result ≡ length (hex_text octets.now) }
{
    2 * octets.len()
}

/// Room for the digits of a prefix.
#[inline(never)]
fn room_for_prefix(prefix: &Prefix) -> usize
    ensures { result ≡ length (prefix_text prefix.now) }
{
    prefix.text().len()
}

/// Lays a line at the front of a place, and tells its length.
#[inline(always)]
fn lay_line(first: &Word<'_>, others: &[Word<'_>], place: &mut [u8]) -> usize
    requires { length (line_of (word_text first.now) (map word_text others.now)) ≤ length place.old }
    ensures laid { take result place.new ≡ line_of (word_text first.now) (map word_text others.now) }
    ensures end { result ≡ length (line_of (word_text first.now) (map word_text others.now)) }
{
    let at = lay_word(first, 0, place);
    let at = lay_words(others, at, place);
    lay_octet(b'\n', at, place)
}

/// Lays a line of six words at the front of a place, and tells its length.
#[inline(always)]
fn lay_line_of_six(
    first: &Word<'_>,
    one: &Word<'_>,
    two: &Word<'_>,
    three: &Word<'_>,
    four: &Word<'_>,
    five: &Word<'_>,
    place: &mut [u8],
) -> usize
    requires { length (line_of (word_text first.now)
        (five_texts one.now two.now three.now four.now five.now)) ≤ length place.old }
    ensures laid { take result place.new ≡ line_of (word_text first.now)
        (five_texts one.now two.now three.now four.now five.now) }
    ensures end { result ≡ length (line_of (word_text first.now) (five_texts one.now two.now three.now four.now five.now)) }
{
    let end = lay_word(first, 0, place);
    let end = lay_five(one, two, three, four, five, end, place);
    lay_octet(b'\n', end, place)
}

/// Lays words from an index on, each behind a space, and tells where they end.
#[inline(always)]
fn lay_words(words: &[Word<'_>], at: usize, place: &mut [u8]) -> usize
    requires { at + length (flat_map behind_space (map word_text words.now)) ≤ length place.old }
    ensures { Lays at (flat_map behind_space (map word_text words.now)) place.old result place.new }
{
    let mut end = at;
    for word in words {
        end = lay_octet(b' ', end, place);
        end = lay_word(word, end, place);
    }
    end
}

/// Lays five words from an index on, each behind a space, and tells where they end.
#[inline(always)]
fn lay_five(
    one: &Word<'_>,
    two: &Word<'_>,
    three: &Word<'_>,
    four: &Word<'_>,
    five: &Word<'_>,
    at: usize,
    place: &mut [u8],
) -> usize
    requires { at + length (flat_map behind_space (five_texts one.now two.now three.now four.now five.now)) ≤ length place.old }
    ensures { Lays at (flat_map behind_space (five_texts one.now two.now three.now four.now five.now))
        place.old result place.new }
{
    let end = lay_spaced(one, at, place);
    let end = lay_spaced(two, end, place);
    let end = lay_spaced(three, end, place);
    let end = lay_spaced(four, end, place);
    lay_spaced(five, end, place)
}

/// Lays a word behind a space, from an index on, and tells where it ends.
#[inline(always)]
fn lay_spaced(word: &Word<'_>, at: usize, place: &mut [u8]) -> usize
    requires { at + length (behind_space (word_text word.now)) ≤ length place.old }
    ensures { Lays at (behind_space (word_text word.now)) place.old result place.new }
{
    let at = lay_octet(b' ', at, place);
    lay_word(word, at, place)
}

/// Lays a word from an index on, and tells where it ends.
#[inline(always)]
fn lay_word(word: &Word<'_>, at: usize, place: &mut [u8]) -> usize
    requires { at + length (word_text word.now) ≤ length place.old }
    ensures { Lays at (word_text word.now) place.old result place.new }
{
    match *word {
        Word::Text(text) => lay(text, at, place),
        Word::Number(number) => lay_decimal(number, at, place),
        Word::Octets(octets) => lay_hex(octets, at, place),
        Word::Address(address) => lay_hex(address.as_bytes(), at, place),
        _ => lay_other_word(word, at, place),
    }
}

/// The same of any word, apart from `lay_word` for those that few lines have: so what lays a line's words one behind the other
/// is small enough to be laid out for each word that a caller names.
#[inline(never)]
fn lay_other_word(word: &Word<'_>, at: usize, place: &mut [u8]) -> usize
    requires { at + length (word_text word.now) ≤ length place.old }
    ensures { Lays at (word_text word.now) place.old result place.new }
{
    match *word {
        Word::Text(text) => lay(text, at, place),
        Word::Number(number) => lay_decimal(number, at, place),
        Word::KeyedNumber(key, number) => lay_number(key, number, at, place),
        Word::Octet(octet) => lay_hex(&[octet], at, place),
        Word::Identifier(identifier) => lay_hex(&identifier.to_be_bytes(), at, place),
        Word::Octets(octets) => lay_hex(octets, at, place),
        Word::Parts(front, behind) => {
            let at = lay_hex(front, at, place);
            lay_hex(behind, at, place)
        }
        Word::KeyedOctets(key, octets) => {
            let at = lay(key, at, place);
            lay_hex(octets, at, place)
        }
        Word::Address(address) => lay_hex(address.as_bytes(), at, place),
        Word::Prefix(prefix) => lay_prefix(prefix, at, place),
        Word::Pattern(len, start) => {
            let at = lay_number(b"pat:", u64::from(len), at, place);
            lay_number(b":", u64::from(start), at, place)
        }
    }
}

/// Lays the digits of a prefix.
#[inline(never)]
fn lay_prefix(prefix: &Prefix, at: usize, place: &mut [u8]) -> usize
    requires { at + length (prefix_text prefix.now) ≤ length place.old }
    ensures { Lays at (prefix_text prefix.now) place.old result place.new }
{
    lay(prefix.text().as_bytes(), at, place)
}

/// Lays a label and a number in decimal digits.
#[inline(never)]
fn lay_number(label: &[u8], number: u64, at: usize, place: &mut [u8]) -> usize
    requires { at + length (label.now ++ decimal number) ≤ length place.old }
    ensures { Lays at (label.now ++ decimal number) place.old result place.new }
{
    let at = lay(label, at, place);
    lay_decimal(number, at, place)
}

/// Lays a number in decimal digits; most have one.
#[inline(always)]
fn lay_decimal(number: u64, at: usize, place: &mut [u8]) -> usize
    requires { at + length (decimal number) ≤ length place.old }
    ensures { Lays at (decimal number) place.old result place.new }
{
    if number < 10 {
        return lay_octet(b'0' + number as u8, at, place);
    }
    lay_number_of_digits(number, at, place)
}

/// The same, of however many digits.
#[inline(never)]
fn lay_number_of_digits(number: u64, at: usize, place: &mut [u8]) -> usize
    requires { at + length (decimal number) ≤ length place.old }
    ensures { Lays at (decimal number) place.old result place.new }
{
    let mut buffer = Buffer::new();
    lay(buffer.format(number).as_bytes(), at, place)
}

/// Lays octets in two hexadecimal digits each.
#[inline(never)]
fn lay_hex(octets: &[u8], at: usize, place: &mut [u8]) -> usize
    requires { at + length (hex_text octets.now) ≤ length place.old }
    ensures { Lays at (hex_text octets.now) place.old result place.new }
{
    let end = at + room_for_octets(octets);
    lay_digits(octets, &mut place[at..end]);
    end
}

/// Lays a text.
fn lay(text: &[u8], at: usize, place: &mut [u8]) -> usize
    requires { at + length text.now ≤ length place.old }
    ensures { Lays at text.now place.old result place.new }
{
    let end = at + text.len();
    copy_over(text, &mut place[at..end]);
    end
}

/// Lays an octet; one alone is laid faster than as a text.
fn lay_octet(octet: u8, at: usize, place: &mut [u8]) -> usize
    requires { at + 1 ≤ length place.old }
    ensures { Lays at (octet ∷ []) place.old result place.new }
{
    place[at] = octet;
    at + 1
}

/// The word `on`, or `off`.
pub fn on_or_off(on: bool) -> Word<'static>
    ensures { word_text result ≡ on_or_off on }
{
    if on {
        Word::Text(b"on")
    } else {
        Word::Text(b"off")
    }
}

/// The word of where a frame goes: to one system, or to a group.
pub fn target_text(target: &Target) -> Word<'_>
    ensures { word_text result ≡ target_text target.now }
{
    match target {
        Target::System(snpa) => Word::Octets(snpa.as_bytes()),
        Target::EndSystems => Word::Text(b"es"),
        Target::Routers => Word::Text(b"is"),
    }
}

/// The word of a kind of PDU.
pub fn kind_word(kind: Kind) -> Word<'static>
    ensures { word_text result ≡ kind_word kind }
{
    Word::Text(kind.word())
}

/// The word of octets, which is `-` for none.
pub fn octets_word(octets: &[u8]) -> Word<'_>
    ensures { word_text result ≡ octets_word octets.now }
{
    if octets.is_empty() {
        return Word::Text(b"-");
    }
    Word::Octets(octets)
}

/// The word of a frame's octets.
pub fn frame_word(frame: &Frame) -> Word<'_>
    ensures { word_text result ≡ octets_word frame.now }
{
    let (front, behind) = frame.parts();
    if front.is_empty() {
        return octets_word(behind);
    }
    Word::Parts(front, behind)
}
