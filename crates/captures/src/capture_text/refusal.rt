//! Why a line isn't packed.

use crate::base::NoMemory;
use std::alloc::AllocError;

/// Why a line isn't packed.
#[derive(Clone, Copy, PartialEq, Eq)]
pub enum PackRefusal {
    /// The line is that of a refused frame, which has no value, or of one of neither protocol.
    NotPackable,
    /// No accepted frame has this shown line.
    NotShown,
    /// The frame has more than 70,000 octets.
    Count,
    /// Memory was refused.
    NoMemory,
}

impl From<NoMemory> for PackRefusal {
    ghost use Rattle.std.specs.Prelude.{◌≡◌};
    ghost use Rattle.captures.specs.declared.capture_text.refusal.PackRefusal.TheVariants.{NoMemory as memory_refused};

    ghost from_gives = { λ _ refusal. refusal ≡ memory_refused };

    fn from(_refused: NoMemory) -> PackRefusal {
        PackRefusal::NoMemory
    }
}

impl From<AllocError> for PackRefusal {
    ghost use Rattle.std.specs.Prelude.{◌≡◌};
    ghost use Rattle.captures.specs.declared.capture_text.refusal.PackRefusal.TheVariants.{NoMemory as memory_refused};

    ghost from_gives = { λ _ refusal. refusal ≡ memory_refused };

    fn from(_refused: AllocError) -> PackRefusal {
        PackRefusal::NoMemory
    }
}
