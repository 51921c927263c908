//! The codes of lines at fault.
ghost use Rattle.std.specs.Prelude.{◌≡◌};
ghost use Rattle.captures.specs.CaptureCommands.Faults.{fault_of, unpacked_fault};

use crate::LineRefusal;
use crate::capture_text::PackRefusal;
use clnp_base::command_base::LineFault;
use clnp_base::command_base::code::{COUNT, NOT_PACKABLE, SYNTAX};

/// What is wrong with a line that was refused.
pub(crate) fn fault_of(refusal: LineRefusal) -> LineFault
    ensures { result ≡ fault_of refusal }
{
    match refusal {
        LineRefusal::Syntax => LineFault::Bad { code: SYNTAX },
        LineRefusal::Count => LineFault::Bad { code: COUNT },
        LineRefusal::NoMemory => LineFault::NoMemory,
    }
}

/// What is wrong with a line that isn't packed.
pub(crate) fn unpacked_fault(refusal: PackRefusal) -> LineFault
    ensures { result ≡ unpacked_fault refusal }
{
    match refusal {
        PackRefusal::NotPackable => LineFault::Bad { code: NOT_PACKABLE },
        PackRefusal::NotShown => LineFault::Bad { code: SYNTAX },
        PackRefusal::Count => LineFault::Bad { code: COUNT },
        PackRefusal::NoMemory => LineFault::NoMemory,
    }
}
