//! Prefixes of NSAP addresses.
ghost use Rattle.std.specs.Prelude.{◌≡◌, ◌<◌, ◌≤◌, ◌++◌, IfOk, OnErr, OnOk, Some, length, map, nat_eq, refl, slice_index, take};
ghost use Rattle.std.specs.Cmp.{partial_equiv_from_equiv};
ghost use Rattle.std.specs.Cmp.Lexicographic.{nat_list_cmp_total, nat_list_eq_equiv, pointwise, slice_cmp, texts_po, texts_ties};
ghost use Rattle.std.specs.Ordering.{nat_cmp};
ghost use Rattle.hex.specs.Hex.{lower_digits};
ghost use Rattle.pdus.specs.Nsap.Prefix.{IsPrefix, covers, digit_value, digits_of, prefix_of, prefix_text};

use crate::nsap::address::Address;
use crate::nsap::fault::NsapFault;
use crate::nsap::text::{collect_digits, first_bad_digit};
use clnp_base::{InlineOctets, NoMemory, push};
use hex::FromHex;
use std::cmp::Ordering;
use std::marker::Model;

/// The most digits of a prefix: those of an address of 20 octets.
const MOST: usize = 40;

/// The first hexadecimal digits of some NSAP addresses: 0 to 40 of them, each a number from 0 to 15.
///
/// A contract sees it as the list of its digits, and it is ordered as they are: the first digits that differ
/// decide, and a beginning of a prefix comes before it.
#[derive(Clone, Copy)]
pub struct Prefix {
    digits: InlineOctets<MOST>,
}

impl Model for Prefix {
    ghost use Rattle.std.specs.Prelude.{ℕ, List};
    ghost use Rattle.pdus.specs.Nsap.Prefix.{IsPrefix};

    ghost Value = { List ℕ };

    ghost view = { λ p. p.digits };

    ghost invariant = { λ p. IsPrefix p.digits };

    ghost inverse = { λ l. record { digits = l } };
}

impl Prefix {
    /// The prefix that a text spells: `*` is the prefix of no digits, and every other text spells one by its
    /// hexadecimal digits, in either case. Dots are skipped.
    ///
    /// # Errors
    ///
    /// `BadDigit` with the place, from 0 in the text, of the first character that is neither a dot nor a
    /// hexadecimal digit; else `TooManyDigits` where the digits are more than 40.
    pub fn from_text(text: &[u8]) -> Result<Prefix, NsapFault>
        ensures value { result ≡ prefix_of text.now }
        ensures bounds { IfOk result IsPrefix }
    {
        if text == b"*".as_slice() {
            return Ok(Prefix {
                digits: InlineOctets::new(),
            });
        }
        if let Some(place) = first_bad_digit(text) {
            return Err(NsapFault::BadDigit { place });
        }
        let mut digits = [0; MOST];
        let Some(count) = collect_digits(text, &mut digits) else {
            return Err(NsapFault::TooManyDigits);
        };
        let digits = &mut digits[..count];
        read_values(digits);
        Ok(Prefix {
            digits: InlineOctets::of(digits),
        })
    }

    /// The prefix of all digits of an address: two an octet, the high one first.
    pub fn of_address(address: &Address) -> Prefix
        ensures digits { result ≡ digits_of address.now }
        ensures bounds { IsPrefix result }
    {
        let mut digits = InlineOctets::new();
        for octet in address.as_bytes() {
            digits.push(&[*octet / 16, *octet % 16]);
        }
        Prefix { digits }
    }

    /// The prefix of its first `len` digits.
    pub fn first(&self, len: usize) -> Prefix
        requires { len ≤ length self.now }
        ensures { result ≡ take len self.now }
    {
        Prefix {
            digits: InlineOctets::of(&self.digits.as_bytes()[..len]),
        }
    }

    /// Whether the digits of the address begin with those of the prefix.
    pub fn covers(&self, address: &Address) -> bool
        ensures { result ≡ covers self.now address.now }
    {
        let digits = Prefix::of_address(address).digits;
        digits.as_bytes().starts_with(self.digits.as_bytes())
    }

    /// How many digits there are, 0 to 40.
    pub fn len(&self) -> usize
        ensures count { result ≡ length self.now }
        ensures few { result ≤ 40 }
    {
        self.digits.len()
    }

    /// The digit at this index, a number from 0 to 15.
    pub fn digit(&self, at: usize) -> u8
        requires { at < length self.now }
        ensures digit { result ≡ slice_index self.now at }
        ensures bound { result < 16 }
    {
        self.digits.as_bytes()[at]
    }

    /// Appends the digits to `out` in lower case, without dots; where there are none, `*`.
    ///
    /// # Errors
    ///
    /// `NoMemory`; `out` is then as it was.
    pub fn push_text(&self, out: &mut Vec<u8>) -> Result<(), NoMemory>
        ensures written { OnOk result (out.new.items ≡ out.old.items ++ prefix_text self.now) }
        ensures same { OnErr result (out.new.items ≡ out.old.items) }
    {
        push(self.text().as_bytes(), out)
    }

    /// The digits in lower case, without dots; where there are none, `*`.
    pub fn text(&self) -> InlineOctets<40>
        ensures { result ≡ prefix_text self.now }
    {
        if self.len() == 0 {
            return InlineOctets::of(b"*");
        }
        self.characters()
    }

    /// The character of each digit, in lower case.
    fn characters(&self) -> InlineOctets<MOST>
        ensures { result ≡ map (λ digit. slice_index lower_digits digit) self.now }
    {
        let mut characters = InlineOctets::new();
        for digit in self.digits.as_bytes() {
            characters.push(&[character_of(*digit)]);
        }
        characters
    }
}

impl PartialEq for Prefix {
    ghost eq = { λ a b. pointwise nat_eq a b };

    ghost laws = { partial_equiv_from_equiv nat_list_eq_equiv };

    fn eq(&self, other: &Prefix) -> bool {
        self.digits.as_bytes() == other.digits.as_bytes()
    }
}

impl Eq for Prefix {
    ghost laws = { nat_list_eq_equiv };
}

impl PartialOrd for Prefix {
    ghost partial_cmp = { λ a b. Some (slice_cmp nat_cmp a b) };

    ghost laws = { texts_po };

    fn partial_cmp(&self, other: &Prefix) -> Option<Ordering> {
        Some(self.cmp(other))
    }
}

impl Ord for Prefix {
    ghost cmp = { λ a b. slice_cmp nat_cmp a b };

    ghost total = { nat_list_cmp_total };

    ghost matches_partial_cmp = { λ a b. refl };

    ghost matches_eq = { λ a b. texts_ties a b };

    fn cmp(&self, other: &Prefix) -> Ordering {
        self.digits.as_bytes().cmp(other.digits.as_bytes())
    }
}

/// Puts the value of each hexadecimal digit in its place.
fn read_values(digits: &mut [u8])
    ensures { digits.new ≡ map digit_value digits.old }
{
    for at in 0..digits.len() {
        digits[at] = value_of(digits[at]);
    }
}

/// The value of a hexadecimal digit, in either case: that of the octet whose low digit it is.
fn value_of(digit: u8) -> u8
    ensures value { result ≡ digit_value digit }
    ensures bound { result < 16 }
{
    match <[u8; 1]>::from_hex([b'0', digit]) {
        Ok(octet) => octet[0],
        Err(_) => 0,
    }
}

/// The hexadecimal digit of a value, in lower case: the low digit of the octet of that value.
fn character_of(value: u8) -> u8
    requires { value < 16 }
    ensures { result ≡ slice_index lower_digits value }
{
    let mut digits = [0; 2];
    match hex::encode_to_slice([value], &mut digits) {
        Ok(()) => digits[1],
        Err(_) => unreachable!(),
    }
}
