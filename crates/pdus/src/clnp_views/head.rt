//! Up to 254 octets, which lie in the value itself.
ghost use Rattle.std.specs.Prelude.{◌≡◌, ◌+◌, ◌≤◌, ◌++◌, length};

use clnp_base::InlineOctets;
use std::marker::Model;

/// The most octets of a head, as the header of a PDU has at most 254 (ISO/IEC 8473, section 7.2.3).
pub(crate) const MOST: usize = 254;

/// 0 to 254 octets, as of a header.
///
/// A contract sees it as the list of its octets.
#[derive(Clone, Copy)]
pub struct Head {
    octets: InlineOctets<MOST>,
}

impl Model for Head {
    ghost use Rattle.std.specs.Prelude.{List, ℕ};

    ghost Value = { List ℕ };

    ghost view = { λ head. head.octets };

    ghost inverse = { λ octets. record { octets = octets } };
}

impl Head {
    /// A copy of these octets, at most 254.
    pub fn of(octets: &[u8]) -> Head
        requires { length octets.now ≤ 254 }
        ensures { result ≡ octets.now }
    {
        Head {
            octets: InlineOctets::of(octets),
        }
    }

    /// A copy of the octets of two parts, at most 254.
    pub(crate) fn of_parts(front: &[u8], behind: &[u8]) -> Head
        requires { length front.now + length behind.now ≤ 254 }
        ensures { result ≡ front.now ++ behind.now }
    {
        let mut octets = InlineOctets::of(front);
        octets.push(behind);
        Head { octets }
    }

    /// The octets.
    pub fn as_bytes(&self) -> &[u8]
        ensures octets { result.now ≡ self.now }
        ensures few { length result.now ≤ 254 }
    {
        self.octets.as_bytes()
    }
}
