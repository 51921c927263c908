//! One to twenty octets, which lie in the value itself.
ghost use Rattle.std.specs.Prelude.{◌≡◌, ◌++◌, IfOk, OnOk, OnErr, Some, nat_eq, refl};
ghost use Rattle.std.specs.Cmp.{partial_equiv_from_equiv};
ghost use Rattle.std.specs.Cmp.Lexicographic.{nat_list_cmp_total, nat_list_eq_equiv, pointwise, slice_cmp, texts_po, texts_ties};
ghost use Rattle.std.specs.Ordering.{nat_cmp};
ghost use Rattle.pdus.specs.Nsap.Address.{IsAddress, address_of};
ghost use Rattle.pdus.specs.Nsap.Text.{hex_text, octets_of};

use crate::nsap::fault::NsapFault;
use crate::nsap::text::{collect_digits, first_bad_digit};
use clnp_base::{InlineOctets, NoMemory, push_hex};
use std::cmp::Ordering;
use std::marker::Model;

/// The most octets of an address.
const MOST: usize = 20;

/// One to twenty octets, which a contract sees as their list. They are ordered as lists are: the first
/// octets that differ decide, and a beginning of a list comes before it.
#[derive(Clone, Copy)]
pub(crate) struct Octets {
    octets: InlineOctets<MOST>,
}

impl Model for Octets {
    ghost use Rattle.std.specs.Prelude.{ℕ, List};
    ghost use Rattle.pdus.specs.Nsap.Address.{IsAddress};

    ghost Value = { List ℕ };

    ghost view = { λ s. s.octets };

    ghost invariant = { λ s. IsAddress s.octets };

    ghost inverse = { λ l. record { octets = l } };
}

impl Octets {
    /// These octets, where they are 1 to 20.
    pub(crate) fn from_bytes(octets: &[u8]) -> Result<Octets, NsapFault>
        ensures value { result ≡ address_of octets.now }
        ensures bounds { IfOk result IsAddress }
    {
        if octets.is_empty() || octets.len() > MOST {
            return Err(NsapFault::Length);
        }
        Ok(Octets {
            octets: InlineOctets::of(octets),
        })
    }

    /// The octets that a text spells.
    pub(crate) fn from_text(text: &[u8]) -> Result<Octets, NsapFault>
        ensures value { result ≡ octets_of text.now }
        ensures bounds { IfOk result IsAddress }
    {
        if let Some(place) = first_bad_digit(text) {
            return Err(NsapFault::BadDigit { place });
        }
        let mut digits = [0; 40];
        let Some(count) = collect_digits(text, &mut digits) else {
            return Err(NsapFault::Length);
        };
        let mut octets = [0; MOST];
        let octets = &mut octets[..count / 2];
        if hex::decode_to_slice(&digits[..count], octets).is_err() {
            return Err(NsapFault::Length);
        }
        Octets::from_bytes(octets)
    }

    /// The octets.
    pub(crate) fn as_bytes(&self) -> &[u8]
        ensures octets { result.now ≡ self.now }
        ensures bounds { IsAddress self.now }
    {
        self.octets.as_bytes()
    }

    /// Appends the octets as hexadecimal digits.
    pub(crate) fn push_text(&self, out: &mut Vec<u8>) -> Result<(), NoMemory>
        ensures written { OnOk result (out.new.items ≡ out.old.items ++ hex_text self.now) }
        ensures same { OnErr result (out.new.items ≡ out.old.items) }
    {
        push_hex(self.as_bytes(), out)
    }
}

impl PartialEq for Octets {
    ghost eq = { λ a b. pointwise nat_eq a b };

    ghost laws = { partial_equiv_from_equiv nat_list_eq_equiv };

    fn eq(&self, other: &Octets) -> bool {
        self.as_bytes() == other.as_bytes()
    }
}

impl Eq for Octets {
    ghost laws = { nat_list_eq_equiv };
}

impl PartialOrd for Octets {
    ghost partial_cmp = { λ a b. Some (slice_cmp nat_cmp a b) };

    ghost laws = { texts_po };

    fn partial_cmp(&self, other: &Octets) -> Option<Ordering> {
        Some(self.cmp(other))
    }
}

impl Ord for Octets {
    ghost cmp = { λ a b. slice_cmp nat_cmp a b };

    ghost total = { nat_list_cmp_total };

    ghost matches_partial_cmp = { λ a b. refl };

    ghost matches_eq = { λ a b. texts_ties a b };

    fn cmp(&self, other: &Octets) -> Ordering {
        self.as_bytes().cmp(other.as_bytes())
    }
}
