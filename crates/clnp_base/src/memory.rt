ghost use Rattle.std.specs.Prelude.{◌≡◌, ◌<◌, ◌≤◌, ◌↔◌, [], length, take, IsTrue, IsErr, IfOk, OnErr, OnOk};
ghost use Rattle.std.specs.Io.{ReadsAtMost, WritesAtMost};
ghost use Rattle.std.specs.Io.KnownBytes.{ReadConsumes, WriteAppends};
ghost use Rattle.clnp_base.specs.Streams.{Rose};
ghost use Rattle.clnp_base.specs.Memory.{read_fails, read_amount, after_read, after_failed_read, write_fails, write_amount, after_write, after_failed_write};

use crate::octets::NoMemory;
use crate::streams::{Failed, Sink, Source};
use std::alloc::Global;
use std::marker::Model;

/// A source in memory: it gives at most so many octets a call, and fails at given calls.
#[derive(Drop)]
pub struct MemSource {
    octets: Vec<u8>,
    at: usize,
    most: usize,
    fails: Vec<u64>,
    calls: u64,
    faults: u64,
}

impl Model for MemSource {
    ghost use Rattle.std.specs.Prelude.{◌≤◌, drop, vec_len};
    ghost use Rattle.clnp_base.specs.Memory.{Supply};

    ghost Value = { Supply };

    ghost view = { λ s. record {
      left = drop s.at s.octets.items;
      most = s.most;
      fails = s.fails.items;
      calls = s.calls;
      faults = s.faults;
    } };

    ghost invariant = { λ s. (1 ≤ s.most) × (s.at ≤ vec_len s.octets) };
}

impl MemSource {
    /// A source that gives these octets, at most `most` of them a call, and fails at the calls
    /// whose numbers, counted from 1, are in `fails`.
    pub fn new(octets: Vec<u8>, most: usize, fails: Vec<u64>) -> MemSource
        requires { 1 ≤ most }
        ensures { result ≡ record { left = octets.items; most = most; fails = fails.items; calls = 0; faults = 0 } }
    {
        MemSource {
            octets,
            at: 0,
            most,
            fails,
            calls: 0,
            faults: 0,
        }
    }
}

impl Source for MemSource {
    ghost use Rattle.std.specs.Prelude.{Some};

    ghost left = { λ s. Some s.left };

    ghost faults = { λ s. s.faults };

    /// Fails exactly at the given calls, and raises the count of faults in no other.
    fn read(&mut self, buf: &mut [u8]) -> Result<usize, Failed>
        ensures bound { ReadsAtMost result buf.new }
        ensures octets { ReadConsumes (Some self.old.left) (Some self.new.left) result buf.new }
        ensures later { self.old.faults ≤ self.new.faults }
        ensures count { OnOk result (self.new.faults ≡ self.old.faults) }
        ensures failed { OnErr result (Rose self.old.faults self.new.faults) }

        ensures fails { IsErr result ↔ IsTrue (read_fails self.old) }
        ensures after_fault { OnErr result (self.new ≡ after_failed_read self.old) }
        ensures buffer { OnErr result (buf.new ≡ buf.old) }
        ensures amount { IfOk result (λ came. came ≡ read_amount self.old (length buf.new)) }
        ensures after { IfOk result (λ came. self.new ≡ after_read self.old came) }
    {
        self.calls = self.calls.saturating_add(1);
        if self.fails.contains(&self.calls) {
            self.faults = self.faults.saturating_add(1);
            return Err(Failed);
        }
        let left = &self.octets[self.at..];
        let came = self.most.min(buf.len()).min(left.len());
        buf[..came].copy_from_slice(&left[..came]);
        self.at += came;
        Ok(came)
    }
}

/// A sink in memory: it has room for so many octets, takes at most so many a call, and fails at
/// given calls and where it is full.
#[derive(Drop)]
pub struct MemSink {
    taken: Vec<u8>,
    room: usize,
    most: usize,
    fails: Vec<u64>,
    calls: u64,
    faults: u64,
}

impl Model for MemSink {
    ghost use Rattle.std.specs.Prelude.{◌≤◌, vec_len, vec_capacity};
    ghost use Rattle.clnp_base.specs.Memory.{Store};

    ghost Value = { Store };

    ghost view = { λ s. record {
      written = s.taken.items;
      room = s.room;
      most = s.most;
      fails = s.fails.items;
      calls = s.calls;
      faults = s.faults;
    } };

    // The room was reserved when the sink was made.
    ghost invariant = { λ s. (1 ≤ s.most) × (vec_len s.taken ≤ s.room) × (s.room ≤ vec_capacity s.taken) };
}

impl MemSink {
    /// A sink with room for `room` octets, which it reserves. It takes at most `most` a call,
    /// and fails at the calls whose numbers, counted from 1, are in `fails`.
    pub fn new(
        alloc: Global,
        room: usize,
        most: usize,
        fails: Vec<u64>,
    ) -> Result<MemSink, NoMemory>
        requires { 1 ≤ most }
        ensures { IfOk result (λ sink. sink ≡ record {
          written = [];
          room = room;
          most = most;
          fails = fails.items;
          calls = 0;
          faults = 0;
        }) }
    {
        match Vec::with_capacity(alloc, room) {
            Ok(taken) => Ok(MemSink {
                taken,
                room,
                most,
                fails,
                calls: 0,
                faults: 0,
            }),
            Err(_) => Err(NoMemory),
        }
    }

    /// What was written.
    pub fn as_bytes(&self) -> &[u8]
        ensures { result.now ≡ self.now.written }
    {
        self.taken.as_slice()
    }
}

impl Sink for MemSink {
    ghost use Rattle.std.specs.Prelude.{Some};

    ghost written = { λ s. Some s.written };

    ghost faults = { λ s. s.faults };

    /// Fails exactly at the given calls and where the piece has octets and the sink is full,
    /// and raises the count of faults in no other call.
    fn write(&mut self, piece: &[u8]) -> Result<usize, Failed>
        ensures bound { WritesAtMost result piece.now }
        ensures some { IfOk result (λ taken. 0 < length piece.now → 0 < taken) }
        ensures octets { WriteAppends (Some self.old.written) (Some self.new.written) result piece.now }
        ensures later { self.old.faults ≤ self.new.faults }
        ensures count { OnOk result (self.new.faults ≡ self.old.faults) }
        ensures failed { OnErr result (Rose self.old.faults self.new.faults) }

        ensures fails { IsErr result ↔ IsTrue (write_fails self.old piece.now) }
        ensures after_fault { OnErr result (self.new ≡ after_failed_write self.old) }
        ensures amount { IfOk result (λ taken. taken ≡ write_amount self.old piece.now) }
        ensures after { IfOk result (λ taken. self.new ≡ after_write self.old (take taken piece.now)) }
    {
        self.calls = self.calls.saturating_add(1);
        let full = !piece.is_empty() && self.taken.len() == self.room;
        if full || self.fails.contains(&self.calls) {
            self.faults = self.faults.saturating_add(1);
            return Err(Failed);
        }
        let taken = self.most.min(piece.len()).min(self.room - self.taken.len());
        let Ok(()) = self.taken.extend_from_slice(&piece[..taken]) else {
            unreachable!()
        };
        Ok(taken)
    }
}
