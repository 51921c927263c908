//! Output that waits in a block, and why a line stops a command that goes over the lines of its input.
ghost use Rattle.std.specs.Prelude.{◌≡◌, ◌≤◌, [], OnOk, OnErr, Err};
ghost use Rattle.std.specs.Io.KnownBytes.{Appends};
ghost use Rattle.clnp_base.specs.Streams.{AppendsFront, Rose};
ghost use Rattle.clnp_base.specs.CommandBase.ByLine.{BlockOf, FlushOf, RefusalOf, stop_status};

use crate::command_base::status::Status;
use crate::{Failed, Sink, write_all};

/// How many octets wait before they are written in one piece.
const BLOCK: usize = 65_536;

/// What is wrong with a line.
#[derive(Clone, Copy)]
pub enum LineFault {
    /// It is bad, with the code of what it breaks.
    Bad { code: u8 },
    /// Memory was refused.
    NoMemory,
}

/// Why a command stopped at a line.
#[derive(Clone, Copy)]
pub enum LineStop {
    /// The line is bad, with the code of what it breaks.
    BadLine { code: u8 },
    /// The sink failed.
    WriteFault,
    /// Memory was refused.
    NoMemory,
}

impl LineStop {
    /// The answer where a command stopped at the line with this number.
    pub fn status(self, line: u32) -> Status
        ensures { result ≡ stop_status line self }
    {
        match self {
            LineStop::BadLine { code } => Status::BadInput { line, code },
            LineStop::WriteFault => Status::WriteFault,
            LineStop::NoMemory => Status::NoMemory,
        }
    }
}

/// Writes the block before a line at fault, and tells why the command stops there.
pub fn refuse<K: Sink>(fault: LineFault, block: &mut Vec<u8>, sink: &mut K) -> LineStop
    ensures later { K.faults sink.old ≤ K.faults sink.new }
    ensures written { RefusalOf fault block.old.items (K.written sink.old) (K.written sink.new) result }
    ensures failed { result ≡ LineStop.WriteFault → Rose (K.faults sink.old) (K.faults sink.new) }
{
    let LineFault::Bad { code } = fault else {
        return LineStop::NoMemory;
    };
    match write_block(block, sink) {
        Ok(()) => LineStop::BadLine { code },
        Err(_) => LineStop::WriteFault,
    }
}

/// Writes the block where it is full.
pub fn write_full_block<K: Sink>(block: &mut Vec<u8>, sink: &mut K) -> Result<(), LineStop>
    ensures later { K.faults sink.old ≤ K.faults sink.new }
    ensures written { BlockOf block.old.items block.new.items (K.written sink.old) (K.written sink.new) result }
    ensures failed { result ≡ Err LineStop.WriteFault → Rose (K.faults sink.old) (K.faults sink.new) }
{
    match flush_full(block, sink) {
        Ok(()) => Ok(()),
        Err(Failed) => Err(LineStop::WriteFault),
    }
}

/// Writes the block, and empties it.
pub fn write_block<K: Sink>(block: &mut Vec<u8>, sink: &mut K) -> Result<(), LineStop>
    ensures later { K.faults sink.old ≤ K.faults sink.new }
    ensures written { BlockOf block.old.items block.new.items (K.written sink.old) (K.written sink.new) result }
    ensures done { OnOk result (Appends (K.written sink.old) (K.written sink.new) block.old.items) }
    ensures front { OnErr result (AppendsFront (K.written sink.old) (K.written sink.new) block.old.items) }
    ensures failed { OnErr result (Rose (K.faults sink.old) (K.faults sink.new)) }
{
    match flush(block, sink) {
        Ok(()) => Ok(()),
        Err(Failed) => Err(LineStop::WriteFault),
    }
}

/// Writes the block where it is full, and empties it then.
pub fn flush_full<K: Sink>(block: &mut Vec<u8>, sink: &mut K) -> Result<(), Failed>
    ensures later { K.faults sink.old ≤ K.faults sink.new }
    ensures written { FlushOf block.old.items block.new.items (K.written sink.old) (K.written sink.new) result }
    ensures failed { OnErr result (Rose (K.faults sink.old) (K.faults sink.new)) }
{
    if block.len() < BLOCK {
        return Ok(());
    }
    flush(block, sink)
}

/// Writes the block, and empties it.
pub fn flush<K: Sink>(block: &mut Vec<u8>, sink: &mut K) -> Result<(), Failed>
    ensures later { K.faults sink.old ≤ K.faults sink.new }
    ensures written { FlushOf block.old.items block.new.items (K.written sink.old) (K.written sink.new) result }
    ensures emptied { OnOk result (block.new.items ≡ []) }
    ensures done { OnOk result (Appends (K.written sink.old) (K.written sink.new) block.old.items) }
    ensures front { OnErr result (AppendsFront (K.written sink.old) (K.written sink.new) block.old.items) }
    ensures failed { OnErr result (Rose (K.faults sink.old) (K.faults sink.new)) }
{
    write_all(sink, block.as_slice())?;
    block.clear();
    Ok(())
}
