//! The addresses of an end system hello.
ghost use Rattle.pdus.specs.ClnpOptions.Grammar.{joined};
ghost use Rattle.pdus.specs.EsisPdus.Fields.{address_list, are_addresses, behind_address_list, behind_addresses, is_address_list};
ghost use Rattle.std.specs.Iterator.{YieldsFirstBy, item_count};
ghost use Rattle.std.specs.Prelude.{◌≡◌, ◌+◌, IfSome, MatchOption, false, length, true};

use crate::esis_pdus::fields::field;
use crate::pdu_header::nsaps::Address;
use std::marker::Model;

/// The addresses of an end system hello in order, which are read off its frame (ISO 9542, section 7.6).
///
/// A contract sees it as the list of the addresses that are left.
#[derive(Drop)]
pub struct AddressList<'a> {
    left: u8,
    octets: &'a [u8],
}

impl<'a> Model for AddressList<'a> {
    ghost use Rattle.std.specs.Prelude.{List, ℕ};
    ghost use Rattle.pdus.specs.EsisPdus.Fields.{addresses};
    ghost use Rattle.pdus.specs.EsisPdus.Filled.{IsFilled};

    ghost Value = { List (List ℕ) };

    ghost view = { λ s. addresses s.left s.octets.now };

    ghost invariant = { λ s. IsFilled s.left s.octets.now };
}

impl<'a> AddressList<'a> {
    /// The addresses behind their number at the front of a part, and what follows them, where they lie
    /// whole in it.
    pub(crate) fn read(part: &'a [u8]) -> Option<(AddressList<'a>, &'a [u8])>
        ensures judged { MatchOption result (is_address_list part.now ≡ false) (λ _. is_address_list part.now ≡ true) }
        ensures list { IfSome result (λ r. r.0 ≡ address_list part.now) }
        ensures behind { IfSome result (λ r. r.1.now ≡ behind_address_list part.now) }
    {
        if part.is_empty() {
            return None;
        }
        let left = part[0];
        let behind_number = &part[1..];
        let size = addresses_size(behind_number, left)?;
        let (octets, others) = behind_number.split_at(size);
        let addresses = AddressList { left, octets };
        Some((addresses, others))
    }

    /// The number of addresses that are left, and their octets, each behind its length.
    pub(crate) fn parts(&self) -> (u8, &'a [u8])
        ensures count { result.0 ≡ length self.now }
        ensures octets { result.1.now ≡ joined self.now }
    {
        (self.left, self.octets)
    }
}

/// How many octets so many addresses take at the front, each behind its length, where they lie whole there.
fn addresses_size(octets: &[u8], count: u8) -> Option<usize>
    ensures judged { MatchOption result (are_addresses count octets.now ≡ false) (λ _. are_addresses count octets.now ≡ true) }
    ensures size { IfSome result (λ size. size + length (behind_addresses count octets.now) ≡ length octets.now) }
{
    let mut rest = octets;
    for _ in 0..count {
        let Some((address, others)) = field(rest) else {
            return None;
        };
        if address.is_empty() {
            return None;
        }
        rest = others;
    }
    Some(octets.len() - rest.len())
}

impl<'a> Iterator for AddressList<'a> {
    type Item = Address;

    ghost next_gives = { YieldsFirstBy (λ a. a) (λ s. s) };

    ghost remaining = { item_count (λ s. s) };

    fn next(&mut self) -> Option<Address> {
        if self.left == 0 {
            return None;
        }
        let (octets, others) = field(self.octets)?;
        let Ok(address) = Address::from_bytes(octets) else {
            return None;
        };
        self.left -= 1;
        self.octets = others;
        Some(address)
    }
}
