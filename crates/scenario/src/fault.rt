//! Why a text or one of its lines is refused.

use crate::code::Code;
use clnp_plan::base::NoMemory;
use std::alloc::{AllocError, AllocFailed};

/// Why a text is no scenario.
#[derive(Clone, Copy, Debug, PartialEq, Eq)]
pub enum ScenarioRefusal {
    /// The first line that breaks the grammar, from 1, and the number of the `Code` of what it
    /// breaks.
    BadLine { line: u32, code: u8 },
    /// Memory was refused.
    NoMemory,
}

impl From<AllocError> for ScenarioRefusal {
    ghost use Rattle.std.specs.Prelude.{◌≡◌};
    ghost use Rattle.scenario.specs.declared.fault.ScenarioRefusal.TheVariants.{NoMemory};

    ghost from_gives = { λ _ refusal. refusal ≡ NoMemory };

    fn from(_refused: AllocError) -> ScenarioRefusal {
        ScenarioRefusal::NoMemory
    }
}

impl<T: Drop> From<AllocFailed<T>> for ScenarioRefusal {
    ghost use Rattle.std.specs.Prelude.{◌≡◌};
    ghost use Rattle.scenario.specs.declared.fault.ScenarioRefusal.TheVariants.{NoMemory};

    ghost from_gives = { λ _ refusal. refusal ≡ NoMemory };

    fn from(_refused: AllocFailed<T>) -> ScenarioRefusal {
        ScenarioRefusal::NoMemory
    }
}

/// Why a line isn't read.
#[derive(Clone, Copy, Debug)]
pub enum LineFault {
    /// What the line breaks.
    Broken(Code),
    /// Memory was refused.
    NoMemory,
}

impl From<Code> for LineFault {
    ghost use Rattle.std.specs.Prelude.{◌≡◌};
    ghost use Rattle.scenario.specs.declared.fault.LineFault.TheVariants.{Broken};

    ghost from_gives = { λ code fault. fault ≡ Broken code };

    fn from(code: Code) -> LineFault {
        LineFault::Broken(code)
    }
}

impl From<NoMemory> for LineFault {
    ghost use Rattle.std.specs.Prelude.{◌≡◌};
    ghost use Rattle.scenario.specs.declared.fault.LineFault.TheVariants.{NoMemory as memory_refused};

    ghost from_gives = { λ _ fault. fault ≡ memory_refused };

    fn from(_refused: NoMemory) -> LineFault {
        LineFault::NoMemory
    }
}

impl From<AllocError> for LineFault {
    ghost use Rattle.std.specs.Prelude.{◌≡◌};
    ghost use Rattle.scenario.specs.declared.fault.LineFault.TheVariants.{NoMemory};

    ghost from_gives = { λ _ fault. fault ≡ NoMemory };

    fn from(_refused: AllocError) -> LineFault {
        LineFault::NoMemory
    }
}

impl<T: Drop> From<AllocFailed<T>> for LineFault {
    ghost use Rattle.std.specs.Prelude.{◌≡◌};
    ghost use Rattle.scenario.specs.declared.fault.LineFault.TheVariants.{NoMemory};

    ghost from_gives = { λ _ fault. fault ≡ NoMemory };

    fn from(_refused: AllocFailed<T>) -> LineFault {
        LineFault::NoMemory
    }
}
