ghost use Rattle.std.specs.Prelude.{◌≡◌, ◌<◌, ◌≤◌, length, IfOk, OnErr, OnOk};
ghost use Rattle.std.specs.Io.{ReadsAtMost, WritesAtMost};
ghost use Rattle.std.specs.Io.KnownBytes.{ReadConsumes, WriteAppends};
ghost use Rattle.clnp_base.specs.Streams.{Rose};

use crate::streams::{Failed, Sink, Source};
use std::io::{Read, Write};

/// A source over a reader of the machine's. It tells what the reader tells, and counts its
/// errors, an interruption too.
#[derive(Drop)]
pub struct StdSource<R> {
    reader: R,
    faults: u64,
}

impl<R: Read> StdSource<R> {
    /// A source over this reader.
    pub fn new(reader: R) -> StdSource<R>
        ensures left { ⟦<StdSource<R> as Source>⟧.left result ≡ R.remaining reader }
        ensures faults { ⟦<StdSource<R> as Source>⟧.faults result ≡ 0 }
    {
        StdSource { reader, faults: 0 }
    }

    /// The reader.
    pub fn into_inner(self) -> R
        ensures { R.remaining result ≡ ⟦<StdSource<R> as Source>⟧.left self }
    {
        let StdSource { reader, faults: _ } = self;
        reader
    }
}

impl<R: Read> Source for StdSource<R> {
    ghost left = { λ s. R.remaining s.reader };

    ghost faults = { λ s. s.faults };

    /// Fails where the reader fails, and raises the count of faults in no other call.
    fn read(&mut self, buf: &mut [u8]) -> Result<usize, Failed>
        ensures bound { ReadsAtMost result buf.new }
        ensures octets { ReadConsumes (R.remaining self.old.reader) (R.remaining self.new.reader) result buf.new }
        ensures later { self.old.faults ≤ self.new.faults }
        ensures count { OnOk result (self.new.faults ≡ self.old.faults) }
        ensures failed { OnErr result (Rose self.old.faults self.new.faults) }
    {
        match self.reader.read(buf) {
            Ok(came) => Ok(came),
            Err(_) => {
                self.faults = self.faults.saturating_add(1);
                Err(Failed)
            }
        }
    }
}

/// A sink over a writer of the machine's. It tells what the writer tells, and counts its
/// errors, an interruption and a write that takes nothing of a piece with octets too.
#[derive(Drop)]
pub struct StdSink<W> {
    writer: W,
    faults: u64,
}

impl<W: Write> StdSink<W> {
    /// A sink over this writer.
    pub fn new(writer: W) -> StdSink<W>
        ensures written { ⟦<StdSink<W> as Sink>⟧.written result ≡ W.contents writer }
        ensures faults { ⟦<StdSink<W> as Sink>⟧.faults result ≡ 0 }
    {
        StdSink { writer, faults: 0 }
    }

    /// The writer.
    pub fn into_inner(self) -> W
        ensures { W.contents result ≡ ⟦<StdSink<W> as Sink>⟧.written self }
    {
        let StdSink { writer, faults: _ } = self;
        writer
    }
}

impl<W: Write> Sink for StdSink<W> {
    ghost written = { λ s. W.contents s.writer };

    ghost faults = { λ s. s.faults };

    /// Fails where the writer fails or takes nothing of a piece with octets, and raises the count of
    /// faults in no other call.
    fn write(&mut self, piece: &[u8]) -> Result<usize, Failed>
        ensures bound { WritesAtMost result piece.now }
        ensures some { IfOk result (λ taken. 0 < length piece.now → 0 < taken) }
        ensures octets { WriteAppends (W.contents self.old.writer) (W.contents self.new.writer) result piece.now }
        ensures later { self.old.faults ≤ self.new.faults }
        ensures count { OnOk result (self.new.faults ≡ self.old.faults) }
        ensures failed { OnErr result (Rose self.old.faults self.new.faults) }
    {
        match self.writer.write(piece) {
            Ok(taken) if taken > 0 || piece.is_empty() => Ok(taken),
            _ => {
                self.faults = self.faults.saturating_add(1);
                Err(Failed)
            }
        }
    }
}
