//! The words of a line: each gives its value, or the code of what is wrong with it.
ghost use Rattle.std.specs.Prelude.{◌≡◌, ◌<◌, ◌≤◌, length, IfOk, IfSome, None, Some, Ok, Err, MatchOption, MatchResult};
ghost use Rattle.std.specs.List.{list_all, list_any, position};
ghost use Rattle.clnp_plan.specs.ClnpBase.Text.{words_of, is_digit, decimal_of};
ghost use Rattle.scenario.specs.Grammar.{is_line_of};
ghost use Rattle.scenario.specs.Words.{one_word, two_words, three_words, four_words, five_words, first_two, first_four, is_one_at_most, wanted, found, literal, is_letter_or_digit, begins_with_letter, is_name, is_digits, number_within, name_word, number_word, address_word, prefix_word, has_prefix, after_prefix, octets_behind, number_behind, is_colon, two_fields, pattern_word, data_word, life_word, options_read, options_word, target_word, frame_word};
ghost use Rattle.scenario.specs.Refusal.{Faults};
ghost use Rattle.scenario.specs.declared.code.Code.TheVariants as bad;

use crate::code::Code;
use crate::fault::LineFault;
use clnp_plan::base::{DigitValues, Octets, SharedOctets, decimal, next_word, same};
use clnp_plan::nsaps::{Address, Prefix, Snpa, Target};
use clnp_plan::options::OptionList;
use clnp_plan::scenario_plan::Body;
use std::alloc::Global;

/// The word of a line that has one word.
pub(crate) fn one_word(line: &[u8]) -> Option<&[u8]>
    ensures { MatchOption result (one_word (words_of line.now) ≡ None)
        (λ word. one_word (words_of line.now) ≡ Some word.now) }
{
    let (word, line) = next_word(line)?;
    match next_word(line) {
        Some(_) => None,
        None => Some(word),
    }
}

/// The words of a line that has two words.
pub fn two_words(line: &[u8]) -> Option<(&[u8], &[u8])>
    ensures { MatchOption result (two_words (words_of line.now) ≡ None)
        (λ words. two_words (words_of line.now) ≡ Some (words.0.now, words.1.now)) }
{
    let (a, line) = next_word(line)?;
    let b = one_word(line)?;
    Some((a, b))
}

/// The words of a line that has three words.
pub(crate) fn three_words(line: &[u8]) -> Option<(&[u8], &[u8], &[u8])>
    ensures { MatchOption result (three_words (words_of line.now) ≡ None)
        (λ words. three_words (words_of line.now) ≡ Some (words.0.now, words.1.now, words.2.now)) }
{
    let (a, line) = next_word(line)?;
    let (b, c) = two_words(line)?;
    Some((a, b, c))
}

/// The words of a line that has four words.
pub(crate) fn four_words(line: &[u8]) -> Option<(&[u8], &[u8], &[u8], &[u8])>
    ensures { MatchOption result (four_words (words_of line.now) ≡ None)
        (λ words. four_words (words_of line.now) ≡ Some (words.0.now, words.1.now, words.2.now, words.3.now)) }
{
    let (a, line) = next_word(line)?;
    let (b, c, d) = three_words(line)?;
    Some((a, b, c, d))
}

/// The words of a line that has five words.
pub fn five_words(line: &[u8]) -> Option<(&[u8], &[u8], &[u8], &[u8], &[u8])>
    ensures { MatchOption result (five_words (words_of line.now) ≡ None)
        (λ words. five_words (words_of line.now)
        ≡ Some (words.0.now, words.1.now, words.2.now, words.3.now, words.4.now)) }
{
    let (a, line) = next_word(line)?;
    let (b, c, d, e) = four_words(line)?;
    Some((a, b, c, d, e))
}

/// Whether a line has no word or one.
pub(crate) fn is_one_at_most(line: &[u8]) -> bool
    ensures { result ≡ is_one_at_most (words_of line.now) }
{
    match next_word(line) {
        Some((_, others)) => next_word(others).is_none(),
        None => true,
    }
}

/// The first two words of a line, and the rest of it.
pub(crate) fn first_two(line: &[u8]) -> Option<(&[u8], &[u8], &[u8])>
    ensures { MatchOption result (first_two (words_of line.now) ≡ None)
        (λ words. first_two (words_of line.now) ≡ Some (words.0.now, words.1.now, words_of words.2.now)) }
{
    let (a, line) = next_word(line)?;
    let (b, line) = next_word(line)?;
    Some((a, b, line))
}

/// The first four words of a line, and the rest of it.
pub(crate) fn first_four(line: &[u8]) -> Option<(&[u8], &[u8], &[u8], &[u8], &[u8])>
    ensures { MatchOption result (first_four (words_of line.now) ≡ None)
        (λ words. first_four (words_of line.now)
        ≡ Some (words.0.now, words.1.now, words.2.now, words.3.now, words_of words.4.now)) }
{
    let (a, line) = next_word(line)?;
    let (b, line) = next_word(line)?;
    let (c, line) = next_word(line)?;
    let (d, line) = next_word(line)?;
    Some((a, b, c, d, line))
}

/// Whether a line has this word alone.
pub fn is_line_of(text: &[u8], line: &[u8]) -> bool
    ensures { result ≡ is_line_of text.now (words_of line.now) }
{
    match one_word(line) {
        Some(word) => same(word, text),
        None => false,
    }
}

/// Nothing where it holds, and else the code.
pub(crate) fn wanted(holds: bool, code: Code) -> Result<(), Code>
    ensures { result ≡ wanted holds code }
{
    if holds { Ok(()) } else { Err(code) }
}

/// This very word.
pub fn literal(text: &[u8], word: &[u8]) -> Result<(), Code>
    ensures { result ≡ literal text.now word.now }
{
    wanted(same(word, text), Code::Syntax)
}

/// Whether a character is a letter a to z or a digit.
fn is_letter_or_digit(c: u8) -> bool
    ensures { result ≡ is_letter_or_digit c }
{
    c.is_ascii_lowercase() || c.is_ascii_digit()
}

/// Whether a word begins with a letter a to z.
fn begins_with_letter(word: &[u8]) -> bool
    ensures { result ≡ begins_with_letter word.now }
{
    match word {
        [first, ..] => first.is_ascii_lowercase(),
        [] => false,
    }
}

/// Whether a word has letters a to z and digits alone.
fn all_letters_or_digits(word: &[u8]) -> bool
    ensures { result ≡ list_all is_letter_or_digit word.now }
{
    word.iter().all(|c| is_letter_or_digit(*c))
}

/// Whether a word is up to 16 letters a to z and digits, the first of them a letter.
pub fn is_name(word: &[u8]) -> bool
    ensures { result ≡ is_name word.now }
{
    begins_with_letter(word) && all_letters_or_digits(word) && word.len() <= 16
}

/// A word that has the form of a name.
pub(crate) fn name_word(word: &[u8]) -> Result<&[u8], Code>
    ensures { MatchResult result (λ name. name_word word.now ≡ Ok name.now) (λ code. name_word word.now ≡ Err code) }
{
    if is_name(word) {
        Ok(word)
    } else {
        Err(Code::Syntax)
    }
}

/// A place, where a name is declared.
pub(crate) fn declared(place: Option<usize>) -> Result<usize, Code>
    ensures { result ≡ found place bad.UnknownName }
{
    match place {
        Some(place) => Ok(place),
        None => Err(Code::UnknownName),
    }
}

/// The number, where there is one from `low` to `high`.
fn number_within(low: u64, high: u64, number: Option<u64>) -> Option<u64>
    ensures number { result ≡ number_within low high number }
    ensures within { IfSome result (λ n. n ≤ high) }
{
    match number {
        Some(n) if low <= n && n <= high => Some(n),
        _ => None,
    }
}

/// A decimal from `low` to `high`.
pub fn number_word(low: u64, high: u64, word: &[u8]) -> Result<u64, Code>
    ensures number { result ≡ number_word low high word.now }
    ensures within { IfOk result (λ n. n ≤ high) }
{
    match number_within(low, high, decimal(word)) {
        Some(n) => Ok(n),
        None => Err(Code::Number),
    }
}

/// Whether a character is a digit.
fn is_digit(c: u8) -> bool
    ensures { result ≡ is_digit c }
{
    c.is_ascii_digit()
}

/// Whether a word has digits alone.
fn all_digits(word: &[u8]) -> bool
    ensures { result ≡ list_all is_digit word.now }
{
    word.iter().all(|c| is_digit(*c))
}

/// Whether a word is one or more digits.
pub fn is_digits(word: &[u8]) -> bool
    ensures { result ≡ is_digits word.now }
{
    !word.is_empty() && all_digits(word)
}

/// The number of an MTU from 512 to 65,535.
pub(crate) fn mtu_word(word: &[u8]) -> Result<u16, Code>
    ensures { result ≡ found (number_within 512 65535 (decimal_of word.now)) bad.Mtu }
{
    match number_within(512, 65535, decimal(word)) {
        Some(mtu) => Ok(mtu as u16),
        None => Err(Code::Mtu),
    }
}

/// An NSAP address.
pub fn address_word(word: &[u8]) -> Result<Address, Code>
    ensures { result ≡ address_word word.now }
{
    match Address::from_text(word) {
        Ok(address) => Ok(address),
        Err(_) => Err(Code::Address),
    }
}

/// The address of a port on its subnetwork.
pub(crate) fn snpa_word(word: &[u8]) -> Result<Snpa, Code>
    ensures { result ≡ address_word word.now }
{
    match Snpa::from_text(word) {
        Ok(snpa) => Ok(snpa),
        Err(_) => Err(Code::Address),
    }
}

/// A prefix of NSAP addresses.
pub(crate) fn prefix_word(word: &[u8]) -> Result<Prefix, Code>
    ensures { result ≡ prefix_word word.now }
{
    match Prefix::from_text(word) {
        Ok(prefix) => Ok(prefix),
        Err(_) => Err(Code::Address),
    }
}

/// Whether a word begins with a prefix.
pub(crate) fn has_prefix(prefix: &[u8], word: &[u8]) -> bool
    ensures { result ≡ has_prefix prefix.now word.now }
{
    word.starts_with(prefix)
}

/// What follows a prefix.
fn after_prefix<'a>(prefix: &[u8], word: &'a [u8]) -> Result<&'a [u8], Code>
    ensures { MatchResult result
        (λ rest. after_prefix prefix.now word.now ≡ Ok rest.now)
        (λ code. after_prefix prefix.now word.now ≡ Err code) }
{
    match word.strip_prefix(prefix) {
        Some(rest) => Ok(rest),
        None => Err(Code::Syntax),
    }
}

/// All end systems, all intermediate systems, or one address on a subnetwork.
pub(crate) fn target_word(word: &[u8]) -> Result<Target, Code>
    ensures { result ≡ target_word word.now }
{
    if same(word, b"es") {
        return Ok(Target::EndSystems);
    }
    if same(word, b"is") {
        return Ok(Target::Routers);
    }
    let snpa = snpa_word(word)?;
    Ok(Target::System(snpa))
}

/// The octets that an even number of hexadecimal digits spells. A text may have many such words, so what each character is
/// worth is known before.
pub(crate) fn frame_word(
    alloc: Global,
    values: &DigitValues,
    word: &[u8],
) -> Result<SharedOctets, LineFault>
    ensures { let reading = frame_word word.now in
        MatchResult result (λ octets. reading ≡ Ok octets) (λ fault. Faults fault reading) }
{
    if word.len() % 2 != 0 {
        return Err(LineFault::Broken(Code::Address));
    }
    let Ok(mut octets) = Vec::from_elem(alloc, 0, word.len() / 2) else {
        return Err(LineFault::NoMemory);
    };
    if !values.decode(word, &mut octets) {
        return Err(LineFault::Broken(Code::Address));
    }
    match SharedOctets::from_vec(octets) {
        Ok(octets) => Ok(octets),
        Err(_) => Err(LineFault::NoMemory),
    }
}

/// The octets that an even number of hexadecimal digits behind a prefix spells.
fn octets_behind(alloc: Global, prefix: &[u8], word: &[u8]) -> Result<Vec<u8>, LineFault>
    ensures { let reading = octets_behind prefix.now word.now in
        MatchResult result (λ octets. reading ≡ Ok octets.items) (λ fault. Faults fault reading) }
{
    let digits = after_prefix(prefix, word)?;
    match hex::decode(alloc, digits) {
        Ok(octets) => Ok(octets),
        Err(hex::FromHexError::OutOfMemory) => Err(LineFault::NoMemory),
        Err(_) => Err(LineFault::Broken(Code::Address)),
    }
}

/// A decimal behind a prefix, from `low` to `high`.
pub(crate) fn number_behind(prefix: &[u8], low: u64, high: u64, word: &[u8]) -> Result<u64, Code>
    ensures number { result ≡ number_behind prefix.now low high word.now }
    ensures within { IfOk result (λ n. n ≤ high) }
{
    let digits = after_prefix(prefix, word)?;
    number_word(low, high, digits)
}

fn is_colon(c: u8) -> bool
    ensures { result ≡ is_colon c }
{
    c == b':'
}

/// Whether a `:` stands in a text.
fn has_colon(text: &[u8]) -> bool
    ensures { result ≡ list_any is_colon text.now }
{
    text.iter().any(|c| is_colon(*c))
}

/// The place of the first `:`.
fn colon_place(text: &[u8]) -> Option<usize>
    ensures place { result ≡ position is_colon text.now }
    ensures within { IfSome result (λ at. at < length text.now) }
{
    text.iter().position(|c| is_colon(*c))
}

/// The two fields into which a text is cut by its only `:`.
fn two_fields(text: &[u8]) -> Option<(&[u8], &[u8])>
    ensures { MatchOption result (two_fields text.now ≡ None)
        (λ fields. two_fields text.now ≡ Some (fields.0.now, fields.1.now)) }
{
    let at = colon_place(text)?;
    let (first, _) = text.split_at(at);
    let (_, second) = text.split_at(at + 1);
    if has_colon(second) {
        return None;
    }
    Some((first, second))
}

/// `pat:`, how many octets, `:` and where the pattern starts.
fn pattern_word(word: &[u8]) -> Result<Body, Code>
    ensures { MatchResult result (λ body. pattern_word word.now ≡ Ok body) (λ code. pattern_word word.now ≡ Err code) }
{
    let text = after_prefix(b"pat:", word)?;
    let Some((len, start)) = two_fields(text) else {
        return Err(Code::Syntax);
    };
    let len = number_word(0, 70_000, len)? as u32;
    let start = number_word(0, 255, start)? as u8;
    Ok(Body::Pattern { len, start })
}

/// The octets of a data unit, in one of their two forms.
pub(crate) fn data_word(alloc: Global, word: &[u8]) -> Result<Body, LineFault>
    ensures { MatchResult result (λ body. data_word word.now ≡ Ok body) (λ fault. Faults fault (data_word word.now)) }
{
    if has_prefix(b"pat:", word) {
        return match pattern_word(word) {
            Ok(body) => Ok(body),
            Err(code) => Err(LineFault::Broken(code)),
        };
    }
    let octets = octets_behind(alloc, b"hex:", word)?;
    Ok(Body::Hex(Octets::from_vec(octets)))
}

/// `life=` and a decimal from 1 to 255.
pub(crate) fn life_word(word: &[u8]) -> Result<u8, Code>
    ensures { result ≡ life_word word.now }
{
    let life = number_behind(b"life=", 1, 255, word)?;
    Ok(life as u8)
}

/// The options that octets spell, as a data unit's header may have them.
fn options_read(octets: &[u8]) -> Result<OptionList, Code>
    ensures { result ≡ options_read octets.now }
{
    if octets.len() > 254 {
        return Err(Code::Address);
    }
    match OptionList::from_bytes(octets) {
        Ok(options) => Ok(options),
        Err(_) => Err(Code::Address),
    }
}

/// `opt=` and the octets of options, in hexadecimal digits.
pub(crate) fn options_word(alloc: Global, word: &[u8]) -> Result<OptionList, LineFault>
    ensures { MatchResult result (λ options. options_word word.now ≡ Ok options)
        (λ fault. Faults fault (options_word word.now)) }
{
    let octets = octets_behind(alloc, b"opt=", word)?;
    match options_read(&octets) {
        Ok(options) => Ok(options),
        Err(code) => Err(LineFault::Broken(code)),
    }
}
