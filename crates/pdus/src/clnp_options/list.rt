//! A list of options in octets of its own.

ghost use Rattle.std.specs.Prelude.{◌≡◌, ◌+◌, ◌≤◌, ◌↔◌, ◌∷◌, ◌++◌, [], false, length, IsOk, IfOk, OnOk, OnErr, IfErr, Some};
ghost use Rattle.pdus.specs.ClnpOptions.Parameter.{Parameter, parameters, spelling, size_of};
ghost use Rattle.pdus.specs.ClnpOptions.Rules.{refusal, AreWellFormed, IsWellFormed, Accepts};
ghost use Rattle.pdus.specs.ClnpOptions.View.{parameter_of};

use crate::clnp_options::codes::{
    PADDING, PRIORITY, QUALITY, REASON, RECORDING, SECURITY, SOURCE_ROUTE,
};
use crate::clnp_options::judge::{OptionRefusal, check};
use crate::clnp_options::kinds::OptionRef;
use clnp_base::InlineOctets;
use std::marker::Model;

/// The most octets that a list holds.
const ROOM: usize = 254;

/// An option that a list has no room for: the list would have `octets` octets, above 254. (A value
/// above 252 octets passes that in any list.)
#[derive(Clone, Copy)]
pub struct OptionTooLong {
    pub octets: usize,
}

/// A list of options as the octets that spell it, 0 to 254, that breaks none of the rules G14 to G19.
#[derive(Clone, Copy)]
pub struct OptionList {
    octets: InlineOctets<ROOM>,
}

impl Model for OptionList {
    ghost use Rattle.std.specs.Prelude.{List, ℕ};
    ghost use Rattle.pdus.specs.ClnpOptions.Rules.{IsWellFormed};

    ghost Value = { List ℕ };

    ghost view = { λ list. list.octets };

    ghost invariant = { λ list. IsWellFormed list.octets };

    ghost inverse = { λ octets. record { octets = octets } };
}

impl OptionList {
    /// The list of no options.
    pub fn new() -> OptionList
        ensures { result ≡ [] }
    {
        OptionList {
            octets: InlineOctets::new(),
        }
    }

    /// Adds an option behind the others.
    ///
    /// Answers OptionTooLong exactly where the list would pass 254 octets, with the number of octets
    /// that it would have.
    pub fn push(&mut self, option: OptionRef<'_>) -> Result<(), OptionTooLong>
        requires { AreWellFormed (parameters self.old ++ parameter_of option ∷ []) }
        ensures ok { IsOk result ↔ (length self.old + size_of (parameter_of option.entry) ≤ 254) }
        ensures pushed { OnOk result (self.new ≡ self.old ++ spelling (parameter_of option.entry)) }
        ensures options { OnOk result (parameters self.new ≡ parameters self.old ++ parameter_of option.entry ∷ []) }
        ensures too_long { IfErr result (λ e. e.octets ≡ length self.old + size_of (parameter_of option.entry)) }
        ensures unchanged { OnErr result (self.new ≡ self.old) }
    {
        match option {
            OptionRef::Padding(value) => self.put(PADDING, &[], value),
            OptionRef::Security(value) => self.put(SECURITY, &[], value),
            OptionRef::SourceRoute {
                complete,
                next,
                titles,
            } => self.put(SOURCE_ROUTE, &[complete as u8, next], titles),
            OptionRef::RecordRoute {
                complete,
                next,
                room,
            } => self.put(RECORDING, &[complete as u8, next], room),
            OptionRef::Quality(value) => self.put(QUALITY, &[], value),
            OptionRef::Priority(level) => self.put(PRIORITY, &[level], &[]),
            OptionRef::Reason { code, place } => self.put(REASON, &[code, place], &[]),
        }
    }

    /// Adds an option whose value is the two pieces.
    fn put(&mut self, code: u8, front: &[u8], back: &[u8]) -> Result<(), OptionTooLong>
        requires short { length front.now ≤ 2 }
        requires well_formed { AreWellFormed (parameters self.old ++ record { code = code; value = front.now ++ back.now } ∷ []) }
        ensures ok { IsOk result ↔ (length self.old + (2 + length (front.now ++ back.now)) ≤ 254) }
        ensures pushed { OnOk result (self.new ≡ self.old ++ spelling (record { code = code; value = front.now ++ back.now })) }
        ensures options { OnOk result (parameters self.new ≡ parameters self.old ++ record { code = code; value = front.now ++ back.now } ∷ []) }
        ensures too_long { IfErr result (λ e. e.octets ≡ length self.old + (2 + length (front.now ++ back.now))) }
        ensures unchanged { OnErr result (self.new ≡ self.old) }
    {
        let size = front.len() + back.len();
        let octets = self.octets.len() + 2 + size;
        if octets > ROOM {
            return Err(OptionTooLong { octets });
        }
        self.octets.push(&[code, size as u8]);
        self.octets.push(front);
        self.octets.push(back);
        Ok(())
    }

    /// The list that these octets, at most 254, spell. They are judged as the options part of a PDU
    /// that isn't an error report, whose first octet has place 1: see [`check`](crate::clnp_options::check).
    pub fn from_bytes(part: &[u8]) -> Result<OptionList, OptionRefusal>
        requires { length part.now ≤ 254 }
        ensures accepted { IsOk result ↔ Accepts false part.now }
        ensures value { IfOk result (λ list. list ≡ part.now) }
        ensures refused { IfErr result (λ r. refusal part.now 1 false ≡ Some r) }
    {
        check(part, 1, false)?;
        Ok(OptionList {
            octets: InlineOctets::of(part),
        })
    }

    /// The octets that spell the list.
    pub fn as_bytes(&self) -> &[u8]
        ensures value { result.now ≡ self.now }
        ensures short { length result.now ≤ 254 }
        ensures well_formed { IsWellFormed result.now }
    {
        self.octets.as_bytes()
    }
}
