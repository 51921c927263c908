//! A link in memory.
ghost use Rattle.std.specs.Prelude.{◌≡◌, ◌≤◌, ◌++◌, ◌↔◌, [], length, map, IfOk, IfSome, IsErr, IsTrue, OnErr, OnOk};
ghost use Rattle.frame_links.specs.LinkBoard.Links.{PollOf, SendOf, look_of};
ghost use Rattle.frame_links.specs.LinkBoard.Memory.{after_fault, after_look, after_send, call_fails, frame_of, look_at, send_fails, state_of};

use crate::link_board::link::{Got, Link};
use crate::link_board::outbox::Outbox;
use clnp_base::{Failed, NoMemory, Octets};
use pdus::nsap::{Snpa, Target};
use std::alloc::Global;
use std::marker::Model;

/// A frame that a link in memory gives.
#[derive(Drop)]
pub struct MemFrame {
    /// The point of attachment from which it comes.
    pub from: Snpa,
    /// Whether it comes through a group.
    pub group: bool,
    /// Its octets, of which the first 70,000 come.
    pub octets: Octets,
}

/// The most octets of a frame that come.
const MOST: usize = 70_000;

/// A link in memory: it gives its frames, one a look and then nothing, keeps the frames sent, and fails at given calls and
/// where a frame has no room. It tells its looks as long as it can count the empty ones, and the frames sent always.
#[derive(Drop)]
pub struct MemLink {
    frames: Vec<MemFrame>,
    at: usize,
    outbox: Outbox,
    fails: Vec<u64>,
    calls: u64,
    faults: u64,
    empties: u64,
}

impl Model for MemLink {
    ghost use Rattle.std.specs.Prelude.{map, take, drop, vec_len};
    ghost use Rattle.frame_links.specs.LinkBoard.Memory.{IsGiving, Traffic, frame_of};

    ghost Value = { Traffic };

    ghost view = { λ l. record {
      left = map frame_of (drop l.at l.frames.items);
      came = map frame_of (take l.at l.frames.items);
      frames = l.outbox;
      fails = l.fails.items;
      calls = l.calls;
      faults = l.faults;
      empties = l.empties;
    } };

    ghost invariant = { λ l. IsGiving (vec_len l.frames) l.at l.empties };
}

impl MemLink {
    /// A link that gives these frames, has room for `sends` frames sent of together `room` octets, which it reserves, and
    /// fails at the calls, looks and sendings counted together from 1, whose numbers are in `fails`.
    pub fn new(
        alloc: Global,
        frames: Vec<MemFrame>,
        sends: usize,
        room: usize,
        fails: Vec<u64>,
    ) -> Result<MemLink, NoMemory>
        ensures { IfOk result (λ link. link ≡ record { left = map frame_of frames.items; came = []; frames = record { sent = []; sends = sends; room = room }; fails = fails.items; calls = 0; faults = 0; empties = 0 }) }
    {
        let outbox = Outbox::new(alloc, sends, room)?;
        Ok(MemLink {
            frames,
            at: 0,
            outbox,
            fails,
            calls: 0,
            faults: 0,
            empties: 0,
        })
    }
}

impl Link for MemLink {
    ghost use Rattle.frame_links.specs.LinkBoard.Memory.{state_of};

    ghost seen = { λ l. state_of l };

    /// Fails exactly at the given calls, and raises the count of faults in no other. Else it gives the next frame, or
    /// nothing exactly where all came, and raises the count of empty looks there alone.
    fn poll(&mut self, buf: &mut [u8]) -> Result<Option<Got>, Failed>
        requires { 70000 ≤ length buf.old }
        ensures polled { PollOf (state_of self.old) (state_of self.new) buf.new result }
        ensures few { IfOk result (λ look. IfSome look (λ got. got.len ≤ 70000)) }

        ensures fails { IsErr result ↔ IsTrue (call_fails self.old) }
        ensures after_fault { OnErr result (self.new ≡ after_fault self.old) }
        ensures buffer { OnErr result (buf.new ≡ buf.old) }
        ensures came { IfOk result (λ look. look_of look buf.new ≡ look_at self.old.left) }
        ensures after { OnOk result (self.new ≡ after_look self.old self.old.left) }
    {
        self.calls = self.calls.saturating_add(1);
        if self.fails.contains(&self.calls) {
            self.faults = self.faults.saturating_add(1);
            return Err(Failed);
        }
        if self.at >= self.frames.len() {
            self.empties = self.empties.saturating_add(1);
            return Ok(None);
        }
        let frame = &self.frames[self.at];
        let octets = frame.octets.as_bytes();
        let len = octets.len().min(MOST);
        buf[..len].copy_from_slice(&octets[..len]);
        let got = Got {
            len,
            from: frame.from,
            group: frame.group,
        };
        self.at += 1;
        Ok(Some(got))
    }

    /// Fails exactly at the given calls and where the frame would pass the room for frames or for octets, and raises the
    /// count of faults in no other call.
    fn send(&mut self, to: Target, head: &[u8], body: &[u8]) -> Result<(), Failed>
        ensures sent { SendOf (state_of self.old) (state_of self.new)
            (record { target = to; octets = head.now ++ body.now }) result }

        ensures fails { IsErr result ↔ IsTrue (send_fails self.old (head.now ++ body.now)) }
        ensures after_fault { OnErr result (self.new ≡ after_fault self.old) }
        ensures after { OnOk result (self.new ≡ after_send self.old (record { target = to; octets = head.now ++ body.now })) }
    {
        self.calls = self.calls.saturating_add(1);
        if self.fails.contains(&self.calls) || !self.outbox.has_room(head, body) {
            self.faults = self.faults.saturating_add(1);
            return Err(Failed);
        }
        self.outbox.keep(to, head, body);
        Ok(())
    }
}
