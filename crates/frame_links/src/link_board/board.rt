//! A board of boxed links.
ghost use Rattle.std.specs.Prelude.{◌≡◌, ◌<◌, ◌≤◌, ◌++◌, length, map, true, IfOk, option_map};
ghost use Rattle.frame_links.specs.LinkBoard.Ports.{ChangesPort, KeepsAttached, KeepsOthers, PolledOf, SentOf, attached_to, is_attached_at, without_gone};

use crate::link_board::link::{Got, Link};
use crate::link_board::port::Port;
use crate::link_board::ports::{Polled, Ports, Sent};
use clnp_base::NoMemory;
use pdus::nsap::Target;
use std::alloc::Global;

/// Ports, and a boxed link for each. A link that fails is detached: it stays in the board as that call left it, is never
/// called again, and is dropped by `drop_gone` or with the board.
#[derive(Drop)]
pub struct Board {
    ports: Vec<Port>,
}

impl Ports for Board {
    ghost ports = { λ b. map (λ p. record { link = option_map (λ l. (Link-box l).seen l.value) p.link; attached = p.attached }) b.ports.items };

    fn count(&self) -> usize {
        self.len()
    }

    fn is_attached(&self, port: usize) -> bool {
        self.attached(port)
    }

    fn look(&mut self, port: usize, buf: &mut [u8]) -> Polled {
        self.poll(port, buf)
    }

    fn put(&mut self, port: usize, to: Target, head: &[u8], body: &[u8]) -> Sent {
        self.send(port, to, head, body)
    }
}

impl Board {
    /// A board with a port for each of these links, in their order, all attached.
    ///
    /// # Errors
    ///
    /// `NoMemory`; the links are dropped then.
    pub fn new(alloc: Global, links: Vec<Box<dyn Link>>) -> Result<Board, NoMemory>
        ensures { IfOk result (λ board. ⟦<Board as Ports>⟧.ports board ≡ map (λ b. attached_to (seen b)) links.items) }
    {
        let mut ports = Vec::new(alloc);
        for link in links {
            ports.push(Port {
                link: Some(link),
                attached: true,
            })?;
        }
        Ok(Board { ports })
    }

    /// How many ports there are.
    pub fn len(&self) -> usize
        ensures { result ≡ length (⟦<Board as Ports>⟧.ports self.now) }
    {
        self.ports.len()
    }

    /// Whether the link of a port is attached: until a call on that port answers that it is detached.
    pub fn attached(&self, port: usize) -> bool
        requires { port < length (⟦<Board as Ports>⟧.ports self.now) }
        ensures { result ≡ is_attached_at port (⟦<Board as Ports>⟧.ports self.now) }
    {
        self.ports[port].attached
    }

    /// Looks at a port whose link is attached, and detaches it where the link fails. Every other port is as it was, its
    /// link too.
    pub fn poll(&mut self, port: usize, buf: &mut [u8]) -> Polled
        requires place { port < length (⟦<Board as Ports>⟧.ports self.old) }
        requires attached { is_attached_at port (⟦<Board as Ports>⟧.ports self.old) ≡ true }
        requires room { 70000 ≤ length buf.old }
        ensures polled { ChangesPort port (⟦<Board as Ports>⟧.ports self.old) (⟦<Board as Ports>⟧.ports self.new)
            (λ old new. PolledOf old new buf.new result) }
        ensures others { KeepsOthers port self.old.ports.items self.new.ports.items }
        ensures few { (got : Got) → result ≡ Polled.Frame got → got.len ≤ 70000 }
    {
        let place = &mut self.ports[port];
        place.poll(buf)
    }

    /// Sends the frame of the octets of `head` and then those of `body` on a port whose link is attached, and detaches it
    /// where the link fails. Every other port is as it was, its link too.
    pub fn send(&mut self, port: usize, to: Target, head: &[u8], body: &[u8]) -> Sent
        requires place { port < length (⟦<Board as Ports>⟧.ports self.old) }
        requires attached { is_attached_at port (⟦<Board as Ports>⟧.ports self.old) ≡ true }
        ensures sent { ChangesPort port (⟦<Board as Ports>⟧.ports self.old) (⟦<Board as Ports>⟧.ports self.new)
            (λ old new. SentOf old new (record { target = to; octets = head.now ++ body.now }) result) }
        ensures others { KeepsOthers port self.old.ports.items self.new.ports.items }
    {
        let place = &mut self.ports[port];
        place.send(to, head, body)
    }

    /// Drops the links that are detached. Every attached one, the number of ports and which of them are attached stay.
    pub fn drop_gone(&mut self)
        ensures gone { ⟦<Board as Ports>⟧.ports self.new ≡ map without_gone (⟦<Board as Ports>⟧.ports self.old) }
        ensures kept { KeepsAttached (⟦<Board as Ports>⟧.ports self.old) self.old.ports.items self.new.ports.items }
    {
        for place in 0..self.ports.len() {
            let port = &mut self.ports[place];
            port.let_go();
        }
    }
}
