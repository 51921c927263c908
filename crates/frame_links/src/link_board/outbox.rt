//! Room for frames that are sent.
ghost use Rattle.std.specs.Prelude.{◌≡◌, ◌+◌, ◌≤◌, ◌∷◌, ◌++◌, [], length, nat_le, true, vec_capacity, vec_len, IfOk};
ghost use Rattle.frame_links.specs.LinkBoard.Outbox.{has_room};

use clnp_base::NoMemory;
use pdus::nsap::Target;
use std::alloc::Global;
use std::marker::Model;

/// To whom a frame was sent, and how many octets it has.
#[derive(Drop)]
struct Entry {
    to: Target,
    len: usize,
}

/// Frames that were sent, in order, in room that was reserved for them; their octets stand one behind the other.
#[derive(Drop)]
pub(crate) struct Outbox {
    entries: Vec<Entry>,
    octets: Vec<u8>,
    sends: usize,
    room: usize,
}

impl Model for Outbox {
    ghost use Rattle.std.specs.Prelude.{vec_capacity};
    ghost use Rattle.frame_links.specs.LinkBoard.Outbox.{Frames, IsKept, frames_in};

    ghost Value = { Frames };

    ghost view = { λ o. record { sent = frames_in o.entries.items o.octets.items; sends = o.sends; room = o.room } };

    ghost invariant = { λ o. IsKept o.entries.items o.octets.items o.sends o.room
        (vec_capacity o.entries) (vec_capacity o.octets) };
}

impl Outbox {
    /// No frames, and room for `sends` of them, of together `room` octets.
    pub(crate) fn new(alloc: Global, sends: usize, room: usize) -> Result<Outbox, NoMemory>
        ensures { IfOk result (λ made. made ≡ record { sent = []; sends = sends; room = room }) }
    {
        Ok(Outbox {
            entries: Vec::with_capacity(alloc, sends)?,
            octets: Vec::with_capacity(alloc, room)?,
            sends,
            room,
        })
    }

    /// Whether there is room for the frame of these two pieces.
    pub(crate) fn has_room(&self, head: &[u8], body: &[u8]) -> bool
        ensures { result ≡ has_room self.now (head.now ++ body.now) }
    {
        if self.entries.len() >= self.sends {
            return false;
        }
        fits(self.octets.len(), head, body, self.room)
    }

    /// Keeps the frame of these two pieces.
    pub(crate) fn keep(&mut self, to: Target, head: &[u8], body: &[u8])
        requires { has_room self.old (head.now ++ body.now) ≡ true }
        ensures { self.new ≡ record self.old { sent = self.old.sent ++ record { target = to; octets = head.now ++ body.now } ∷ [] } }
    {
        let len = head.len() + body.len();
        lay(&mut self.octets, head, body);
        let Ok(()) = self.entries.push(Entry { to, len }) else {
            unreachable!()
        };
    }
}

/// Whether two pieces fit behind so many octets.
fn fits(held: usize, head: &[u8], body: &[u8], room: usize) -> bool
    requires { held ≤ room }
    ensures { result ≡ nat_le (held + length (head.now ++ body.now)) room }
{
    let free = room - held;
    head.len() <= free && body.len() <= free - head.len()
}

/// Puts two pieces behind the octets, in room that is there.
fn lay(octets: &mut Vec<u8>, head: &[u8], body: &[u8])
    requires { vec_len octets.old + (length head.now + length body.now) ≤ vec_capacity octets.old }
    ensures laid { octets.new.items ≡ octets.old.items ++ (head.now ++ body.now) }
    ensures room { vec_capacity octets.old ≤ vec_capacity octets.new }
{
    let Ok(()) = octets.extend_from_slice(head) else {
        unreachable!()
    };
    let Ok(()) = octets.extend_from_slice(body) else {
        unreachable!()
    };
}
