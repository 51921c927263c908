//! NSAP addresses.
ghost use Rattle.std.specs.Prelude.{◌≡◌, ◌++◌, IfOk, OnOk, OnErr};
ghost use Rattle.pdus.specs.Nsap.Address.{IsAddress, address_of};
ghost use Rattle.pdus.specs.Nsap.Text.{hex_text, octets_of};

use crate::nsap::fault::NsapFault;
use crate::nsap::octets::Octets;
use clnp_base::NoMemory;
use std::alloc::Global;
use std::marker::Model;

/// An NSAP address: 1 to 20 octets (ISO/IEC 8473, section 7.3).
///
/// A contract sees it as the list of its octets, and it is ordered as they are: the first octets
/// that differ decide, and a beginning of an address comes before it.
#[derive(Clone, Copy, PartialEq, Eq, PartialOrd, Ord)]
pub struct Address {
    octets: Octets,
}

impl Model for Address {
    ghost use Rattle.std.specs.Prelude.{ℕ, List};

    ghost Value = { List ℕ };

    ghost view = { λ a. a.octets };

    ghost inverse = { λ l. record { octets = l } };
}

impl Address {
    /// The address of these octets.
    ///
    /// # Errors
    ///
    /// `Length` exactly where they are none or more than 20.
    pub fn from_bytes(octets: &[u8]) -> Result<Address, NsapFault>
        ensures value { result ≡ address_of octets.now }
        ensures bounds { IfOk result IsAddress }
    {
        let octets = Octets::from_bytes(octets)?;
        Ok(Address { octets })
    }

    /// The address that a text spells: two hexadecimal digits an octet, in either case. Dots are
    /// skipped.
    ///
    /// # Errors
    ///
    /// `BadDigit` with the place, from 0 in the text, of the first character that is neither a dot
    /// nor a hexadecimal digit; else `Length` where the digits are odd in number, none or more than
    /// 40.
    pub fn from_text(text: &[u8]) -> Result<Address, NsapFault>
        ensures value { result ≡ octets_of text.now }
        ensures bounds { IfOk result IsAddress }
    {
        let octets = Octets::from_text(text)?;
        Ok(Address { octets })
    }

    /// The octets, 1 to 20.
    pub fn as_bytes(&self) -> &[u8]
        ensures octets { result.now ≡ self.now }
        ensures bounds { IsAddress self.now }
    {
        self.octets.as_bytes()
    }

    /// Appends the octets to `out` as hexadecimal digits in lower case, without dots.
    ///
    /// # Errors
    ///
    /// `NoMemory`; `out` is then as it was.
    pub fn push_text(&self, _alloc: Global, out: &mut Vec<u8>) -> Result<(), NoMemory>
        ensures written { OnOk result (out.new.items ≡ out.old.items ++ hex_text self.now) }
        ensures same { OnErr result (out.new.items ≡ out.old.items) }
    {
        self.octets.push_text(out)
    }
}
