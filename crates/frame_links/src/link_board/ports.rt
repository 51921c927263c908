//! Ports with links, as a node sees them.
ghost use Rattle.std.specs.Prelude.{List, ◌≡◌, ◌<◌, ◌≤◌, ◌++◌, length, true};
ghost use Rattle.frame_links.specs.LinkBoard.Ports.{ChangesPort, PolledOf, PortState, SentOf, is_attached_at};

use crate::link_board::link::Got;
use pdus::nsap::Target;

/// What came of a look at a port.
#[derive(Clone, Copy, PartialEq, Eq)]
pub enum Polled {
    /// A frame had come; its octets stand at the front of the buffer.
    Frame(Got),
    /// Nothing had come.
    Nothing,
    /// The port's link failed in this call, and is detached from now on.
    Detached,
}

/// What came of a frame that was sent on a port.
#[derive(Clone, Copy, PartialEq, Eq)]
pub enum Sent {
    /// The link took it.
    Done,
    /// The port's link failed in this call, and is detached from now on.
    Detached,
}

/// Ports with links, as a node sees them; `Board` is the one that stands here.
///
/// Of each port it is seen what is seen of its link, until that is dropped, and whether the link is attached.
pub trait Ports {
    // What is seen of each port.
    ghost ports: { Self → List PortState };

    /// How many ports there are.
    fn count(&self) -> usize
        ensures { result ≡ length (ports self.now) };

    /// Whether the link of a port is attached.
    fn is_attached(&self, port: usize) -> bool
        requires { port < length (ports self.now) }
        ensures { result ≡ is_attached_at port (ports self.now) };

    /// Looks at a port whose link is attached. No other port changes.
    fn look(&mut self, port: usize, buf: &mut [u8]) -> Polled
        requires place { port < length (ports self.old) }
        requires attached { is_attached_at port (ports self.old) ≡ true }
        requires room { 70000 ≤ length buf.old }
        ensures polled { ChangesPort port (ports self.old) (ports self.new)
            (λ old new. PolledOf old new buf.new result) }
        ensures few { (got : Got) → result ≡ Polled.Frame got → got.len ≤ 70000 };

    /// Sends the frame of the octets of `head` and then those of `body` on a port whose link is attached. No other port
    /// changes.
    fn put(&mut self, port: usize, to: Target, head: &[u8], body: &[u8]) -> Sent
        requires place { port < length (ports self.old) }
        requires attached { is_attached_at port (ports self.old) ≡ true }
        ensures { ChangesPort port (ports self.old) (ports self.new)
            (λ old new. SentOf old new (record { target = to; octets = head.now ++ body.now }) result) };
}
