ghost use Rattle.std.specs.Prelude.{◌≡◌, ◌≢◌, ◌<◌, ◌≤◌, ℕ, List, Option, length, IfOk, OnOk, OnErr};
ghost use Rattle.std.specs.Io.{ReadsAtMost, WritesAtMost};
ghost use Rattle.std.specs.Io.KnownBytes.{Appends, IsAtEnd, Keeps, ReadConsumes, WriteAppends};
ghost use Rattle.clnp_base.specs.Streams.{Rose, Pours, PoursCount, PoursAll, PoursMore, PoursWithin, AppendsFront};

use std::alloc::Global;

/// A source or a sink failed.
#[derive(Clone, Copy, Debug, PartialEq, Eq)]
pub struct Failed;

/// Where octets come from.
///
/// A source has the octets that are left, where it tells them, and a count of its faults, which
/// never falls.
pub trait Source {
    // The octets that are left, where they are told.
    ghost left: { Self → Option (List ℕ) };

    // How many faults there were.
    ghost faults: { Self → ℕ };

    /// Fills the front of `buf` with the next octets, and says how many came.
    ///
    /// If `buf` isn't empty, at least one comes, except at the end of the input: there none.
    /// After [`Failed`] no octet was taken; it is answered exactly where the count of faults rose.
    fn read(&mut self, buf: &mut [u8]) -> Result<usize, Failed>
        ensures bound { ReadsAtMost result buf.new }
        ensures octets { ReadConsumes (left self.old) (left self.new) result buf.new }
        ensures later { faults self.old ≤ faults self.new }
        ensures count { OnOk result (faults self.new ≡ faults self.old) }
        ensures failed { OnErr result (Rose (faults self.old) (faults self.new)) };
}

/// Where octets go.
///
/// A sink has the octets that were written, where it tells them, and a count of its faults,
/// which never falls.
pub trait Sink {
    // The octets that were written, where they are told.
    ghost written: { Self → Option (List ℕ) };

    // How many faults there were.
    ghost faults: { Self → ℕ };

    /// Takes octets from the front of `piece`, and says how many.
    ///
    /// If `piece` isn't empty, at least one is taken. After [`Failed`] none was; it is answered
    /// exactly where the count of faults rose.
    fn write(&mut self, piece: &[u8]) -> Result<usize, Failed>
        ensures bound { WritesAtMost result piece.now }
        ensures some { IfOk result (λ taken. 0 < length piece.now → 0 < taken) }
        ensures octets { WriteAppends (written self.old) (written self.new) result piece.now }
        ensures later { faults self.old ≤ faults self.new }
        ensures count { OnOk result (faults self.new ≡ faults self.old) }
        ensures failed { OnErr result (Rose (faults self.old) (faults self.new)) };
}

/// Why [`read_all`] stopped before the end of the input.
#[derive(Clone, Copy, PartialEq, Eq)]
pub enum ReadStop {
    /// The source failed.
    Failed,
    /// More octets came than were allowed.
    TooLong,
    /// Memory was refused.
    NoMemory,
}

/// How many octets are asked for in one read.
const CHUNK: usize = 65_536;

/// Reads to the end of the input, and appends what comes to `into`.
///
/// At most `limit` octets may come, and no more than `limit + 1` are taken. `TooLong` is
/// answered exactly where more than `limit` came, `Failed` exactly where the source failed, which
/// ends the reading: at every other answer the count of faults is as it was. After a refusal the
/// octets that were taken stay taken, and `into` has them.
pub fn read_all<S: Source>(
    alloc: Global,
    source: &mut S,
    limit: usize,
    into: &mut Vec<u8>,
) -> Result<(), ReadStop>
    ensures later { S.faults source.old ≤ S.faults source.new }
    ensures pours { Pours into.old.items into.new.items (S.left source.old) (S.left source.new) }
    ensures done { OnOk result (PoursAll limit into.old.items into.new.items
        (S.left source.old) (S.left source.new)) }
    ensures too_long { result ≡ Err ReadStop.TooLong → PoursMore limit into.old.items into.new.items
        (S.left source.old) (S.left source.new) }
    ensures within { result ≢ Err ReadStop.TooLong → PoursWithin limit into.old.items into.new.items
        (S.left source.old) (S.left source.new) }
    ensures count { result ≢ Err ReadStop.Failed → S.faults source.new ≡ S.faults source.old }
    ensures failed { result ≡ Err ReadStop.Failed → Rose (S.faults source.old) (S.faults source.new) }
{
    let Ok(mut chunk) = vec![in alloc; 0u8; CHUNK] else {
        return Err(ReadStop::NoMemory);
    };
    let chunk = chunk.as_mut_slice();
    let mut room = limit;
    loop {
        let most = room.min(CHUNK - 1) + 1;
        let came = read_chunk(source, &mut chunk[..most], into)?;
        if came == 0 {
            return Ok(());
        }
        if came > room {
            return Err(ReadStop::TooLong);
        }
        room -= came;
    }
}

/// Reads once into `chunk`, appends what came to `into`, and says how much.
///
/// The room in `into` is made first, so no octet that came is lost.
fn read_chunk<S: Source>(
    source: &mut S,
    chunk: &mut [u8],
    into: &mut Vec<u8>,
) -> Result<usize, ReadStop>
    requires { 0 < length chunk.old }
    ensures later { S.faults source.old ≤ S.faults source.new }
    ensures within { IfOk result (λ came. came ≤ length chunk.old) }
    ensures pours { IfOk result (λ came. PoursCount came into.old.items into.new.items
        (S.left source.old) (S.left source.new)) }
    ensures end { IfOk result (λ came. came ≡ 0 → IsAtEnd (S.left source.new)) }
    ensures kept { OnErr result (into.new.items ≡ into.old.items) }
    ensures left { OnErr result (Keeps (S.left source.old) (S.left source.new)) }
    ensures not_long { result ≢ Err ReadStop.TooLong }
    ensures count { result ≢ Err ReadStop.Failed → S.faults source.new ≡ S.faults source.old }
    ensures failed { result ≡ Err ReadStop.Failed → Rose (S.faults source.old) (S.faults source.new) }
{
    if into.reserve(chunk.len()).is_err() {
        return Err(ReadStop::NoMemory);
    }
    match source.read(chunk) {
        Ok(came) => match into.extend_from_slice(&chunk[..came]) {
            Ok(()) => Ok(came),
            Err(_) => unreachable!(),
        },
        Err(Failed) => Err(ReadStop::Failed),
    }
}

/// Writes the whole piece.
///
/// After [`Failed`], which comes exactly where the sink failed, a front of the piece was written: the first failure
/// ends the writing.
pub fn write_all<K: Sink>(sink: &mut K, piece: &[u8]) -> Result<(), Failed>
    ensures later { K.faults sink.old ≤ K.faults sink.new }
    ensures done { OnOk result (Appends (K.written sink.old) (K.written sink.new) piece.now) }
    ensures front { OnErr result (AppendsFront (K.written sink.old) (K.written sink.new) piece.now) }
    ensures count { OnOk result (K.faults sink.new ≡ K.faults sink.old) }
    ensures failed { OnErr result (Rose (K.faults sink.old) (K.faults sink.new)) }
{
    let mut at = 0;
    while at < piece.len() {
        at += sink.write(&piece[at..])?;
    }
    Ok(())
}
