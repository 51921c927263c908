//! Why a text is refused.

use std::alloc::AllocFailed;

/// Why a text isn't one of captured traffic.
#[derive(Clone, Copy, Debug, PartialEq, Eq)]
pub enum CaptureRefusal {
    /// The first line that breaks the grammar, from 1, and the number of the `Code` of what it breaks.
    BadLine { line: u32, code: u8 },
    /// Memory was refused.
    NoMemory,
}

impl<T: Drop> From<AllocFailed<T>> for CaptureRefusal {
    ghost use Rattle.std.specs.Prelude.{◌≡◌};
    ghost use Rattle.clnp_program.specs.declared.fair_commands.fault.CaptureRefusal.TheVariants.{NoMemory};

    ghost from_gives = { λ _ refusal. refusal ≡ NoMemory };

    fn from(_refused: AllocFailed<T>) -> CaptureRefusal {
        CaptureRefusal::NoMemory
    }
}
