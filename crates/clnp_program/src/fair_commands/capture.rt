//! What a text of captured traffic says.

use std::marker::Model;
use system_tables::fair_reassembly::reassembling::TableLimits;
use system_tables::fair_reassembly::{Came, Share};

/// What a text of captured traffic says: the numbers of the table of all sources without a share, the sources that have a
/// share, and the frames in the order in which they came.
#[derive(Drop)]
pub struct Capture {
    pub others: TableLimits,
    pub shares: Vec<Share>,
    pub frames: Vec<Came>,
}

impl Model for Capture {
    ghost use Rattle.clnp_program.specs.FairCommands.Grammar.{Capture as CaptureOf};

    ghost Value = { CaptureOf };

    ghost view = { λ c. record { shares = record { others = c.others; shares = c.shares.items }; frames = c.frames.items } };
}
