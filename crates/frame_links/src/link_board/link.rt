//! What a link is.
ghost use Rattle.std.specs.Prelude.{◌≤◌, ◌++◌, length, IfOk, IfSome};
ghost use Rattle.frame_links.specs.LinkBoard.Links.{LinkState, PollOf, SendOf};

use clnp_base::Failed;
use pdus::nsap::{Snpa, Target};

/// A frame that came, whose octets stand at the front of the buffer.
#[derive(Clone, Copy, PartialEq, Eq)]
pub struct Got {
    /// How many octets it has, at most 70,000.
    pub len: usize,
    /// The point of attachment from which it came.
    pub from: Snpa,
    /// Whether it came through a group.
    pub group: bool,
}

/// A link to a subnetwork: frames come from it and go to it, whole.
///
/// What is seen of a link is the list of its looks so far, each a frame or nothing, and the list of the frames sent, each
/// where the link tells it; how often it failed; and how many looks saw nothing. A list that isn't told once isn't told
/// later, and no count ever falls.
pub trait Link: Drop {
    // What is seen of it.
    ghost seen: { Self → LinkState };

    /// Looks whether a frame came, and puts its octets at the front of `buf`. A longer frame is cut to 70,000 octets.
    ///
    /// A look at which nothing had come is answered only where the count of empty looks rose. What stands in `buf` behind
    /// the frame isn't said.
    ///
    /// # Errors
    ///
    /// `Failed`, only where the count of faults rose. No look was made then.
    fn poll(&mut self, buf: &mut [u8]) -> Result<Option<Got>, Failed>
        requires { 70000 ≤ length buf.old }
        ensures polled { PollOf (seen self.old) (seen self.new) buf.new result }
        ensures few { IfOk result (λ look. IfSome look (λ got. got.len ≤ 70000)) };

    /// Sends the frame of the octets of `head` and then those of `body`.
    ///
    /// # Errors
    ///
    /// `Failed`, only where the count of faults rose. The frame isn't among those that were sent then.
    fn send(&mut self, to: Target, head: &[u8], body: &[u8]) -> Result<(), Failed>
        ensures { SendOf (seen self.old) (seen self.new)
            (record { target = to; octets = head.now ++ body.now }) result };
}
