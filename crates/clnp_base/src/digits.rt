//! Many hexadecimal digits read: what a character is worth is asked of `hex` once for a text.
//!
//! To ask it for each digit costs a branch that no processor foretells, and three times as much time.
ghost use Rattle.std.specs.Prelude.{◌≡◌, ◌≢◌, ◌*◌, length};
ghost use Rattle.clnp_base.specs.Hexadecimal.{AreTold, AreWorths, Spells, worth};

use hex::FromHex;
use std::marker::Model;

/// What each character is worth as a hexadecimal digit, for texts of many words: to ask it anew for each word costs
/// more than to read the word.
///
/// A contract sees the list of it, with 255 for a character that is none.
#[derive(Drop)]
pub struct DigitValues {
    values: [u8; 256],
}

impl Model for DigitValues {
    ghost use Rattle.std.specs.Prelude.{ℕ, List};
    ghost use Rattle.clnp_base.specs.Hexadecimal.{AreWorths};

    ghost Value = { List ℕ };

    ghost view = { λ digits. digits.values };

    ghost invariant = { λ digits. AreWorths digits.values };
}

impl DigitValues {
    /// What each character is worth.
    pub fn new() -> DigitValues {
        DigitValues {
            values: all_values(),
        }
    }

    /// Decodes digits, in either case, into the octets' place, and says whether all are digits.
    pub fn decode(&self, digits: &[u8], place: &mut [u8]) -> bool
        requires { length digits.now ≡ 2 * length place.old }
        ensures { Spells result digits.now place.new }
    {
        read(digits, &self.values, place)
    }
}

/// What each character is worth.
fn all_values() -> [u8; 256]
    ensures { AreWorths result }
{
    let mut values = [0; 256];
    for character in 0..256 {
        values[character] = value_of(character as u8);
    }
    values
}

/// Stands for what wasn't asked yet; no character is worth it.
const UNASKED: u8 = 254;

/// Decodes digits into the octets' place, and says whether all are digits.
pub(crate) fn decode(digits: &[u8], place: &mut [u8]) -> bool
    requires { length digits.now ≡ 2 * length place.old }
    ensures { Spells result digits.now place.new }
{
    let values = values_in(digits);
    read(digits, &values, place)
}

/// What each character of a text is worth.
fn values_in(text: &[u8]) -> [u8; 256]
    ensures { AreTold result text.now }
{
    let mut values = [UNASKED; 256];
    for character in text {
        let known = values[*character as usize];
        values[*character as usize] = told(*character, known);
    }
    values
}

/// What a character is worth, which is known unless it wasn't asked yet.
fn told(character: u8, known: u8) -> u8
    requires { known ≢ 254 → known ≡ worth character }
    ensures { result ≡ worth character }
{
    if known == UNASKED {
        value_of(character)
    } else {
        known
    }
}

/// The value of a hexadecimal digit, in either case, or 255 for another character.
fn value_of(character: u8) -> u8
    ensures { result ≡ worth character }
{
    match <[u8; 1]>::from_hex([b'0', character]) {
        Ok(octet) => octet[0],
        Err(_) => 255,
    }
}

/// Puts the octets that the digits spell into their place, by what each is worth, and says whether all are digits.
fn read(digits: &[u8], values: &[u8; 256], place: &mut [u8]) -> bool
    requires room { length digits.now ≡ 2 * length place.old }
    requires told { AreTold values.now digits.now }
    ensures { Spells result digits.now place.new }
{
    'octets: for i in 0..place.len() {
        let high = values[digits[2 * i] as usize];
        let low = values[digits[2 * i + 1] as usize];
        if high > 15 || low > 15 {
            return false;
        }
        place[i] = high * 16 + low;
    }
    true
}
