//! The options of an accepted part, each read by its kind.

ghost use Rattle.std.specs.Prelude.{◌≡◌};
ghost use Rattle.std.specs.Iterator.{YieldsFirstBy, item_count};
ghost use Rattle.pdus.specs.ClnpOptions.Parameter.{Parameter, parameters};
ghost use Rattle.pdus.specs.ClnpOptions.Rules.{IsWellFormed};
ghost use Rattle.pdus.specs.ClnpOptions.View.{parameter_of};
ghost use Rattle.pdus.specs.ClnpOptions.Grammar.{HasForm};

use crate::clnp_options::codes::{
    PADDING, PRIORITY, QUALITY, REASON, RECORDING, SECURITY, SOURCE_ROUTE,
};
use crate::clnp_options::read::first_option;
use std::marker::Model;

/// An option by its kind (ISO/IEC 8473, section 7.5). Octets are borrowed from the part.
#[derive(Clone, Copy)]
pub enum OptionRef<'a> {
    /// Any octets.
    Padding(&'a [u8]),
    /// The whole value; its first octet's two high bits are the format.
    Security(&'a [u8]),
    /// A source route. `next` is the place of the next title in the option's value, where 3 is the
    /// place of the first title's length octet. `titles` are all titles, each after its length octet.
    SourceRoute {
        complete: bool,
        next: u8,
        titles: &'a [u8],
    },
    /// A recording of route. `next` is the first place in the option's value that isn't used, where
    /// `room` begins at place 3, or 255 where recording was ended.
    RecordRoute {
        complete: bool,
        next: u8,
        room: &'a [u8],
    },
    /// The whole value; its first octet's two high bits are the format.
    Quality(&'a [u8]),
    /// The priority as it stands, 0 to 255; see [`level`](crate::clnp_options::level).
    Priority(u8),
    /// A reason for discard and a place in the discarded header.
    Reason {
        code: u8,
        place: u8,
    },
}

/// The options of a part in order.
#[derive(Drop)]
pub struct Options<'a> {
    rest: &'a [u8],
}

impl<'a> Model for Options<'a> {
    ghost use Rattle.std.specs.Prelude.{List};
    ghost use Rattle.pdus.specs.ClnpOptions.Parameter.{Parameter, parameters};
    ghost use Rattle.pdus.specs.ClnpOptions.Reading.{are_readable};
    ghost use Rattle.std.specs.Prelude.{IsTrue};

    ghost Value = { List Parameter };

    ghost view = { λ s. parameters s.rest.now };

    ghost invariant = { λ s. IsTrue (are_readable (parameters s.rest.now)) };
}

/// The options of a part that [`check`](crate::clnp_options::check) accepts, in order.
pub fn walk(part: &[u8]) -> Options<'_>
    requires { IsWellFormed part.now }
    ensures { result ≡ parameters part.now }
{
    Options { rest: part }
}

impl<'a> Iterator for Options<'a> {
    type Item = OptionRef<'a>;

    ghost next_gives = { YieldsFirstBy parameter_of (λ s. s) };

    ghost remaining = { item_count (λ s. s) };

    fn next(&mut self) -> Option<OptionRef<'a>> {
        let (code, value, others) = first_option(self.rest)?;
        self.rest = others;
        Some(option_ref(code, value))
    }
}

/// An option by its kind.
fn option_ref(code: u8, value: &[u8]) -> OptionRef<'_>
    requires { HasForm (record { code = code; value = value.now }) }
    ensures { parameter_of result ≡ record { code = code; value = value.now } }
{
    match code {
        PADDING => OptionRef::Padding(value),
        SECURITY => OptionRef::Security(value),
        SOURCE_ROUTE => OptionRef::SourceRoute {
            complete: value[0] == 1,
            next: value[1],
            titles: &value[2..],
        },
        RECORDING => OptionRef::RecordRoute {
            complete: value[0] == 1,
            next: value[1],
            room: &value[2..],
        },
        QUALITY => OptionRef::Quality(value),
        PRIORITY => OptionRef::Priority(value[0]),
        REASON => OptionRef::Reason {
            code: value[0],
            place: value[1],
        },
        _ => unreachable!(),
    }
}
