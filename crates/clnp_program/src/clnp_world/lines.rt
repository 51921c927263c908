//! The lines of moves, and what takes them.
ghost use Rattle.std.specs.Prelude.{◌≡◌, ◌∷◌, ℕ, List, [], OnOk};
ghost use Rattle.clnp_machine.specs.ClnpPlan.Journal.{Noted};
ghost use Rattle.clnp_program.specs.ClnpWorld.Lines.{Counted, Gains, Taken, no_lines, risen, tally, told_of};

use clnp_machine::base::NoMemory;
use clnp_machine::nsaps::{Snpa, Target};
use clnp_machine::system_plan::Note;
use clnp_machine::views::Frame;
use std::alloc::Global;

/// A line of a journal or of a trace, at a moment.
#[derive(Clone, Copy)]
pub(crate) enum Line<'a> {
    /// A system's note.
    Noted {
        now: u64,
        name: &'a [u8],
        note: &'a Note,
    },
    /// A frame that a system transmits on a port, as the copy with a number.
    Transmitted {
        now: u64,
        name: &'a [u8],
        copy: u64,
        port: u8,
        target: Target,
        frame: &'a Frame,
    },
    /// A copy that isn't there for a system to be given.
    Void {
        now: u64,
        name: &'a [u8],
        copy: u32,
    },
    /// A copy that is too old for a system to be given.
    Late {
        now: u64,
        name: &'a [u8],
        copy: u64,
    },
    /// A frame from outside that becomes the copy with a number on a subnetwork.
    Injected {
        now: u64,
        copy: u64,
        subnet: &'a [u8],
        sender: &'a Snpa,
        target: &'a Target,
    },
    /// A subnetwork that takes frames of so many octets from now on.
    Resized {
        now: u64,
        subnet: &'a [u8],
        mtu: u16,
    },
    /// A copy that comes to a system on a port.
    Received {
        now: u64,
        name: &'a [u8],
        copy: u64,
        port: u8,
    },
    /// A copy that is lost.
    Lost {
        now: u64,
        copy: u64,
    },
    /// A copy that is settled and is for nobody.
    ForNobody {
        now: u64,
        copy: u64,
    },
}

/// Where the lines of moves go.
pub(crate) trait LineSink {
    // What there is of all lines that came.
    ghost taken: { Self → Taken };

    /// Takes a line.
    fn take(&mut self, alloc: Global, line: &Line<'_>) -> Result<(), NoMemory>
        ensures { OnOk result (Gains (taken self.old) (taken self.new) (told_of line.now ∷ [])) };
}

/// How many lines of some kinds a journal has; of more than 2^64 - 1 it says that many.
#[derive(Clone, Copy, PartialEq, Eq)]
pub struct Counts {
    /// Units handed up.
    pub got: u64,
    /// Error reports told.
    pub reports: u64,
    /// Echo requests that were answered.
    pub echoed: u64,
    /// PDUs dropped.
    pub drops: u64,
    /// Reassembly buffers whose time ended.
    pub expired: u64,
}

impl Counts {
    /// Those of no lines.
    pub fn none() -> Counts
        ensures { result ≡ no_lines }
    {
        Counts {
            got: 0,
            reports: 0,
            echoed: 0,
            drops: 0,
            expired: 0,
        }
    }

    /// These, and that of a note. A count that stands at 2^64 - 1 stays there.
    fn with_note(self, note: &Note) -> Counts
        ensures { (now : ℕ) (name : List ℕ) → result ≡ risen self (tally (Noted now name note.now ∷ [])) }
    {
        match note {
            Note::Got { .. } => Counts {
                got: self.got.saturating_add(1),
                ..self
            },
            Note::Report { .. } => Counts {
                reports: self.reports.saturating_add(1),
                ..self
            },
            Note::Echoed { .. } => Counts {
                echoed: self.echoed.saturating_add(1),
                ..self
            },
            Note::Discard { .. } => Counts {
                drops: self.drops.saturating_add(1),
                ..self
            },
            Note::Expired { .. } => Counts {
                expired: self.expired.saturating_add(1),
                ..self
            },
            _ => self,
        }
    }
}

/// Lines are counted by their kinds, and their text is written nowhere.
impl LineSink for Counts {
    ghost taken = { λ counts. Counted counts };

    #[inline(always)]
    fn take(&mut self, _alloc: Global, line: &Line<'_>) -> Result<(), NoMemory> {
        if let Line::Noted { note, .. } = *line {
            *self = self.with_note(note);
        }
        Ok(())
    }
}
