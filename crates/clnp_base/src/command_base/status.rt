//! What a call of the program comes to.
ghost use Rattle.std.specs.Prelude.{◌≡◌};
ghost use Rattle.clnp_base.specs.CommandBase.Exit.{exit_number};

/// The answer of the top call.
#[derive(Clone, Copy, PartialEq, Eq)]
pub enum Status {
    /// The source was read to its end and all was written.
    Done,
    /// The words are no command, first at this place, from 0.
    BadWords { at: usize },
    /// The input has more than 16,777,216 octets.
    TooLong,
    /// The input breaks its grammar, first at this line, from 1, with the code of what it breaks.
    BadInput { line: u32, code: u8 },
    /// The copies of a simulated network weigh too much, so many octets: its run was stopped.
    WorldFull { octets: u64 },
    /// The source failed.
    ReadFault,
    /// The sink failed.
    WriteFault,
    /// At the end of a turn of a live node no port had its link any more, of so many.
    LinksGone { links: u8 },
    /// Memory was refused.
    NoMemory,
}

impl Status {
    /// The number with which the program exits.
    pub fn exit_number(self) -> u8
        ensures { result ≡ exit_number self }
    {
        match self {
            Status::Done => 0,
            Status::BadWords { .. } => 1,
            Status::TooLong => 2,
            Status::BadInput { .. } => 3,
            Status::WorldFull { .. } => 4,
            Status::ReadFault => 5,
            Status::WriteFault => 6,
            Status::LinksGone { .. } => 7,
            Status::NoMemory => 8,
        }
    }
}
