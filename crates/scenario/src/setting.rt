//! The settings of a system, which its line may have in any order.
ghost use Rattle.std.specs.Prelude.{◌≡◌, Ok, Err, MatchResult};
ghost use Rattle.std.specs.List.{list_any};
ghost use Rattle.std.specs.Str.{bytes_eq};
ghost use Rattle.clnp_plan.specs.ClnpBase.Text.{words_of};
ghost use Rattle.scenario.specs.Declarations.{checksum_word, room_word, setting_word, setting_words, key_of, with_setting, usual_settings, settings_of};
ghost use Rattle.scenario.specs.Words.{each_once};
ghost use Rattle.scenario.specs.Refusal.{Faults};

use crate::code::Code;
use crate::fault::LineFault;
use crate::word::{has_prefix, life_word, number_behind};
use clnp_plan::Settings;
use clnp_plan::base::{next_word, same};
use std::alloc::Global;

/// A setting of a system.
#[derive(Clone, Copy)]
pub enum Setting {
    /// How often it says hello, in seconds; 0 is never.
    Hello(u16),
    /// How often a router asks end systems to say hello, in seconds; 0 is no wish.
    Suggest(u16),
    /// Its headers have a checksum, or not.
    Checksum(bool),
    /// The lifetime of its units, in ticks of 500 ms.
    Life(u8),
    /// The holding time of its redirects, in seconds.
    RedirectHold(u16),
    /// How many reassembly buffers it may have.
    Slots(u16),
    /// How many segments it may keep.
    Segments(u16),
    /// How many octets it may hold for reassembly.
    Budget(u32),
    /// How many neighbours it may keep in mind.
    Neighbours(u16),
    /// How many routers it may keep in mind.
    Routers(u16),
    /// How many redirects it may keep in mind.
    Redirects(u16),
}

/// `checksum=on` or `checksum=off`.
fn checksum_word(word: &[u8]) -> Result<Setting, Code>
    ensures { result ≡ checksum_word word.now }
{
    if same(word, b"checksum=on") {
        return Ok(Setting::Checksum(true));
    }
    if same(word, b"checksum=off") {
        return Ok(Setting::Checksum(false));
    }
    Err(Code::Syntax)
}

/// A key of what a system has room for, and its number.
#[tactic(auto, unfolding(crate::specs::Declarations::room_word))]
fn room_word(word: &[u8]) -> Result<Setting, Code>
    ensures { result ≡ room_word word.now }
{
    if has_prefix(b"slots=", word) {
        let slots = number_behind(b"slots=", 1, 1024, word)?;
        return Ok(Setting::Slots(slots as u16));
    }
    if has_prefix(b"segments=", word) {
        let segments = number_behind(b"segments=", 1, 16_384, word)?;
        return Ok(Setting::Segments(segments as u16));
    }
    if has_prefix(b"budget=", word) {
        let budget = number_behind(b"budget=", 512, 4_194_304, word)?;
        return Ok(Setting::Budget(budget as u32));
    }
    if has_prefix(b"neighbours=", word) {
        let neighbours = number_behind(b"neighbours=", 1, 1024, word)?;
        return Ok(Setting::Neighbours(neighbours as u16));
    }
    if has_prefix(b"routers=", word) {
        let routers = number_behind(b"routers=", 1, 64, word)?;
        return Ok(Setting::Routers(routers as u16));
    }
    let redirects = number_behind(b"redirects=", 1, 1024, word)?;
    Ok(Setting::Redirects(redirects as u16))
}

/// A key and its value.
#[tactic(auto, unfolding(crate::specs::Declarations::setting_word))]
fn setting_word(word: &[u8]) -> Result<Setting, Code>
    ensures { result ≡ setting_word word.now }
{
    if has_prefix(b"life=", word) {
        let life = life_word(word)?;
        return Ok(Setting::Life(life));
    }
    if has_prefix(b"checksum=", word) {
        return checksum_word(word);
    }
    if has_prefix(b"rhold=", word) {
        let seconds = number_behind(b"rhold=", 0, 65_535, word)?;
        return Ok(Setting::RedirectHold(seconds as u16));
    }
    if has_prefix(b"hello=", word) {
        let seconds = number_behind(b"hello=", 0, 600, word)?;
        return Ok(Setting::Hello(seconds as u16));
    }
    if has_prefix(b"suggest=", word) {
        let seconds = number_behind(b"suggest=", 0, 32_767, word)?;
        return Ok(Setting::Suggest(seconds as u16));
    }
    room_word(word)
}

/// The settings that the words of a line give.
pub(crate) fn setting_words(alloc: Global, line: &[u8]) -> Result<Vec<Setting>, LineFault>
    ensures { let reading = setting_words (words_of line.now) in
        MatchResult result (λ settings. reading ≡ Ok settings.items) (λ fault. Faults fault reading) }
{
    let mut settings = Vec::new(alloc);
    let mut left = line;
    while let Some((word, rest)) = next_word(left) {
        let setting = setting_word(word)?;
        settings.push(setting)?;
        left = rest;
    }
    Ok(settings)
}

/// The key of a setting.
fn key_of(setting: Setting) -> &'static [u8]
    ensures { result.now ≡ key_of setting }
{
    match setting {
        Setting::Hello(_) => b"hello",
        Setting::Suggest(_) => b"suggest",
        Setting::Checksum(_) => b"checksum",
        Setting::Life(_) => b"life",
        Setting::RedirectHold(_) => b"rhold",
        Setting::Slots(_) => b"slots",
        Setting::Segments(_) => b"segments",
        Setting::Budget(_) => b"budget",
        Setting::Neighbours(_) => b"neighbours",
        Setting::Routers(_) => b"routers",
        Setting::Redirects(_) => b"redirects",
    }
}

/// Whether one of the settings has this key.
fn has_key(settings: &[Setting], key: &[u8]) -> bool
    ensures { result ≡ list_any (λ setting. bytes_eq (key_of setting) key.now) settings.now }
{
    settings.iter().any(|setting| same(key_of(*setting), key))
}

/// Whether each key is there at most once.
pub(crate) fn each_once(settings: &[Setting]) -> bool
    ensures { result ≡ each_once key_of settings.now }
{
    match settings.split_first() {
        Some((setting, others)) => !has_key(others, key_of(*setting)) && each_once(others),
        None => true,
    }
}

fn with_setting(setting: Setting, settings: Settings) -> Settings
    ensures { result ≡ with_setting setting settings }
{
    match setting {
        Setting::Hello(hello) => Settings { hello, ..settings },
        Setting::Suggest(suggest) => Settings {
            suggest,
            ..settings
        },
        Setting::Checksum(sealed) => Settings { sealed, ..settings },
        Setting::Life(life) => Settings { life, ..settings },
        Setting::RedirectHold(rhold) => Settings { rhold, ..settings },
        Setting::Slots(slots) => Settings { slots, ..settings },
        Setting::Segments(segments) => Settings {
            segments,
            ..settings
        },
        Setting::Budget(budget) => Settings { budget, ..settings },
        Setting::Neighbours(neighbours) => Settings {
            neighbours,
            ..settings
        },
        Setting::Routers(routers) => Settings {
            routers,
            ..settings
        },
        Setting::Redirects(redirects) => Settings {
            redirects,
            ..settings
        },
    }
}

/// What a system has where no word says another value.
fn usual_settings() -> Settings
    ensures { result ≡ usual_settings }
{
    Settings {
        hello: 60,
        suggest: 0,
        rhold: 120,
        slots: 16,
        segments: 1024,
        budget: 262_144,
        neighbours: 64,
        routers: 8,
        redirects: 64,
        life: 64,
        sealed: true,
    }
}

/// The settings of a system: the first of a key counts, and a key that is missing leaves the usual
/// value.
pub(crate) fn settings_of(settings: &[Setting]) -> Settings
    ensures { result ≡ settings_of settings.now }
{
    match settings.split_first() {
        Some((setting, others)) => with_setting(*setting, settings_of(others)),
        None => usual_settings(),
    }
}
