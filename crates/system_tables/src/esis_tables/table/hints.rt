//! Where keys were found last.
use pdus::nsap::Address;
use pdus::nsap::base::NoMemory;
use std::alloc::Global;

/// At least so many hints are kept for each key that a table may keep, since keys share them.
const HINTS_FOR_A_KEY: usize = 2;

/// The place at which a key was found last, and the slot in which its entry stood.
#[derive(Clone, Copy)]
pub(super) struct Hint {
    pub(super) place: u16,
    pub(super) slot: u16,
}

/// The hint of keys that weren't found yet.
const FIRST: Hint = Hint { place: 0, slot: 0 };

/// Where keys were found last, where most are found again. Another entry may stand there by now, or none: whoever asks
/// looks whose it is.
#[derive(Drop)]
pub(super) struct Hints {
    hints: Vec<Hint>,
}

impl Hints {
    /// Hints for as many keys.
    ///
    /// # Errors
    ///
    /// `NoMemory`.
    pub(super) fn new(alloc: Global, limit: u16) -> Result<Hints, NoMemory> {
        let count = HINTS_FOR_A_KEY * usize::from(limit);
        let hints = Vec::from_elem(alloc, FIRST, count.next_power_of_two())?;
        Ok(Hints { hints })
    }

    /// The number of the hint of a key: of hints there are as many as a power of two.
    pub(super) fn number_of(&self, key: &Address) -> usize {
        scattered(key) & self.hints.len().wrapping_sub(1)
    }

    /// The hint of this number.
    pub(super) fn at(&self, number: usize) -> Hint {
        match self.hints.get(number) {
            Some(hint) => *hint,
            None => FIRST,
        }
    }

    /// Notes where a key with the hint of this number stands.
    pub(super) fn note(&mut self, number: usize, place: usize, slot: u16) {
        let Ok(place) = u16::try_from(place) else {
            return;
        };
        if number < self.hints.len() {
            self.hints[number] = Hint { place, slot };
        }
    }
}

/// A number that is another for most other addresses.
fn scattered(address: &Address) -> usize {
    let mut number = 0usize;
    for octet in address.as_bytes() {
        number = number.wrapping_mul(257).wrapping_add(usize::from(*octet));
    }
    number
}
