//! The words behind the data of a `send`.
ghost use Rattle.std.specs.Prelude.{◌≡◌, Ok, Err, MatchResult};
ghost use Rattle.std.specs.List.{list_any};
ghost use Rattle.std.specs.Str.{bytes_eq};
ghost use Rattle.clnp_plan.specs.ClnpBase.Text.{words_of};
ghost use Rattle.scenario.specs.Events.{wish_word, wish_words, is_no_report, is_whole, wish_key, life_in, options_in, ask_of};
ghost use Rattle.scenario.specs.Words.{each_once};
ghost use Rattle.scenario.specs.Refusal.{Faults};

use crate::fault::LineFault;
use crate::word::{has_prefix, life_word, literal, options_word};
use clnp_plan::Ask;
use clnp_plan::base::{next_word, same};
use clnp_plan::options::OptionList;
use std::alloc::Global;

/// A wish for a unit that is sent.
#[derive(Clone, Copy)]
pub enum Wish {
    /// Its lifetime in ticks of 500 ms.
    Lasting(u8),
    /// No error report where it is discarded.
    NoReport,
    /// No segmentation part.
    Whole,
    /// The options of its header.
    Options(OptionList),
}

/// `life=N`, `opt=HEX`, `noreport` or `whole`.
#[tactic(auto, unfolding(crate::specs::Events::wish_word))]
fn wish_word(alloc: Global, word: &[u8]) -> Result<Wish, LineFault>
    ensures { MatchResult result (λ wish. wish_word word.now ≡ Ok wish) (λ fault. Faults fault (wish_word word.now)) }
{
    if has_prefix(b"life=", word) {
        let life = life_word(word)?;
        return Ok(Wish::Lasting(life));
    }
    if has_prefix(b"opt=", word) {
        return match options_word(alloc, word) {
            Ok(options) => Ok(Wish::Options(options)),
            Err(fault) => Err(fault),
        };
    }
    if same(word, b"noreport") {
        return Ok(Wish::NoReport);
    }
    literal(b"whole", word)?;
    Ok(Wish::Whole)
}

/// The wishes that the words of a line say.
pub(crate) fn wish_words(alloc: Global, line: &[u8]) -> Result<Vec<Wish>, LineFault>
    ensures { let reading = wish_words (words_of line.now) in
        MatchResult result (λ wishes. reading ≡ Ok wishes.items) (λ fault. Faults fault reading) }
{
    let mut wishes = Vec::new(alloc);
    let mut left = line;
    while let Some((word, rest)) = next_word(left) {
        let wish = wish_word(alloc, word)?;
        wishes.push(wish)?;
        left = rest;
    }
    Ok(wishes)
}

fn is_no_report(wish: &Wish) -> bool
    ensures { result ≡ is_no_report wish.now }
{
    matches!(wish, Wish::NoReport)
}

fn is_whole(wish: &Wish) -> bool
    ensures { result ≡ is_whole wish.now }
{
    matches!(wish, Wish::Whole)
}

/// Whether the unit is to be sent whole.
fn wants_whole(wishes: &[Wish]) -> bool
    ensures { result ≡ list_any is_whole wishes.now }
{
    wishes.iter().any(|wish| is_whole(wish))
}

/// Whether no error report is wanted.
fn wants_no_report(wishes: &[Wish]) -> bool
    ensures { result ≡ list_any is_no_report wishes.now }
{
    wishes.iter().any(|wish| is_no_report(wish))
}

/// The key of a wish.
fn wish_key(wish: &Wish) -> &'static [u8]
    ensures { result.now ≡ wish_key wish.now }
{
    match wish {
        Wish::Lasting(_) => b"life",
        Wish::NoReport => b"noreport",
        Wish::Whole => b"whole",
        Wish::Options(_) => b"opt",
    }
}

/// Whether one of the wishes has this key.
fn has_key(wishes: &[Wish], key: &[u8]) -> bool
    ensures { result ≡ list_any (λ wish. bytes_eq (wish_key wish) key.now) wishes.now }
{
    wishes.iter().any(|wish| same(wish_key(wish), key))
}

/// Whether each key is there at most once.
pub(crate) fn each_once(wishes: &[Wish]) -> bool
    ensures { result ≡ each_once wish_key wishes.now }
{
    match wishes.split_first() {
        Some((wish, others)) => !has_key(others, wish_key(wish)) && each_once(others),
        None => true,
    }
}

/// The lifetime that is wished for, or else the system's own.
fn life_in(own: u8, wishes: &[Wish]) -> u8
    ensures { result ≡ life_in own wishes.now }
{
    match wishes.split_first() {
        Some((Wish::Lasting(life), _)) => *life,
        Some((Wish::NoReport | Wish::Whole | Wish::Options(_), others)) => life_in(own, others),
        None => own,
    }
}

/// The options that are wished for.
fn options_in(wishes: &[Wish]) -> OptionList
    ensures { result ≡ options_in wishes.now }
{
    match wishes.split_first() {
        Some((Wish::Options(options), _)) => *options,
        Some((Wish::NoReport | Wish::Whole | Wish::Lasting(_), others)) => options_in(others),
        None => OptionList::new(),
    }
}

/// How a unit is to be sent: it is reported on and may be cut, unless a word says that it mustn't.
pub(crate) fn ask_of(own: u8, wishes: &[Wish]) -> Ask
    ensures { result ≡ ask_of own wishes.now }
{
    Ask {
        life: life_in(own, wishes),
        report: !wants_no_report(wishes),
        segment: !wants_whole(wishes),
        options: options_in(wishes),
    }
}
