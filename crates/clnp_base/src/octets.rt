ghost use Rattle.std.specs.Prelude.{◌≡◌, IfOk};
ghost use Rattle.std.specs.Rc.{rc_slice_items};

use std::alloc::{AllocError, AllocFailed, Global};
use std::marker::Model;
use std::rc::RcSlice;

/// Memory was refused.
#[derive(Clone, Copy, Debug, PartialEq, Eq)]
pub struct NoMemory;

impl From<AllocError> for NoMemory {
    fn from(_refused: AllocError) -> NoMemory {
        NoMemory
    }
}

impl<T: Drop> From<AllocFailed<T>> for NoMemory {
    fn from(_refused: AllocFailed<T>) -> NoMemory {
        NoMemory
    }
}

/// Octets in order, which contracts see as their list.
#[derive(Drop)]
pub struct Octets {
    octets: Vec<u8>,
}

impl Model for Octets {
    ghost use Rattle.std.specs.Prelude.{List, ℕ};

    ghost Value = { List ℕ };

    ghost view = { λ o. o.octets.items };
}

impl Octets {
    /// A copy of these octets.
    pub fn copy(alloc: Global, octets: &[u8]) -> Result<Octets, NoMemory>
        ensures { IfOk result (λ copy. copy ≡ octets.now) }
    {
        match Vec::from_slice(alloc, octets) {
            Ok(octets) => Ok(Octets { octets }),
            Err(_) => Err(NoMemory),
        }
    }

    /// These octets, with no copy.
    pub fn from_vec(octets: Vec<u8>) -> Octets
        ensures { result ≡ octets.items }
    {
        Octets { octets }
    }

    /// The octets.
    pub fn as_bytes(&self) -> &[u8]
        ensures { result.now ≡ self.now }
    {
        self.octets.as_slice()
    }
}

impl PartialEq for Octets {
    ghost use Rattle.std.specs.Prelude.{nat_eq};
    ghost use Rattle.std.specs.Cmp.Lexicographic.{pointwise, nat_list_eq_equiv};
    ghost use Rattle.std.specs.Cmp.{partial_equiv_from_equiv};

    ghost eq = { pointwise nat_eq };

    ghost laws = { partial_equiv_from_equiv nat_list_eq_equiv };

    fn eq(&self, other: &Octets) -> bool {
        self.octets.as_slice() == other.octets.as_slice()
    }
}

impl Eq for Octets {
    ghost use Rattle.std.specs.Cmp.Lexicographic.{nat_list_eq_equiv};

    ghost laws = { nat_list_eq_equiv };
}

/// Octets in order with several owners, none of whom changes them. A contract sees their list.
#[derive(Drop)]
pub struct SharedOctets {
    octets: RcSlice<u8>,
}

impl Model for SharedOctets {
    ghost use Rattle.std.specs.Prelude.{List, ℕ};
    ghost use Rattle.std.specs.Rc.{rc_slice_items};

    ghost Value = { List ℕ };

    ghost view = { λ o. rc_slice_items o.octets };
}

impl SharedOctets {
    /// These octets, with no copy.
    ///
    /// # Errors
    ///
    /// `NoMemory`.
    pub fn from_vec(octets: Vec<u8>) -> Result<SharedOctets, NoMemory>
        ensures { IfOk result (λ shared. shared ≡ octets.items) }
    {
        match RcSlice::from_vec(octets) {
            Ok(octets) => Ok(SharedOctets { octets }),
            Err(_) => Err(NoMemory),
        }
    }

    /// The octets.
    pub fn as_bytes(&self) -> &[u8]
        ensures { result.now ≡ self.now }
    {
        self.octets.as_slice()
    }

    /// The octets for a further owner.
    ///
    /// # Errors
    ///
    /// `NoMemory`, where a further owner is refused.
    pub fn share(&self) -> Result<RcSlice<u8>, NoMemory>
        ensures { IfOk result (λ shared. rc_slice_items shared ≡ self.now) }
    {
        match self.octets.clone() {
            Ok(octets) => Ok(octets),
            Err(_) => Err(NoMemory),
        }
    }
}
