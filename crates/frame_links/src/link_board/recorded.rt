//! A link that gives what was recorded.
ghost use Rattle.std.specs.Prelude.{◌≡◌, ◌≤◌, ◌∷◌, ◌++◌, [], length, IfOk, IfSome, IsOk};
ghost use Rattle.frame_links.specs.LinkBoard.Links.{PollOf, SendOf, look_of};
ghost use Rattle.frame_links.specs.LinkBoard.Memory.{look_at};
ghost use Rattle.frame_links.specs.LinkBoard.Recording.{after_look, frames_in, state_of};

use crate::link_board::base::Failed;
use crate::link_board::capture_line::next_frame;
use crate::link_board::nsaps::{Snpa, Target};
use crate::link_board::{Got, Link};
use std::marker::Model;

/// A link that gives the frames of a text of capture lines, one a look and then nothing, each from the SNPA 00. A capture
/// line is an even number of hexadecimal digits, at least two, and nothing else; other lines are passed over. It keeps
/// nothing that is sent, and never fails. It tells its looks as long as it can count the empty ones.
#[derive(Drop)]
pub struct RecordedLink {
    text: Vec<u8>,
    at: usize,
    empties: u64,
}

impl Model for RecordedLink {
    ghost use Rattle.std.specs.Prelude.{drop};
    ghost use Rattle.frame_links.specs.LinkBoard.Recording.{IsPlaying, Playing, came_of, frames_in};

    ghost Value = { Playing };

    ghost view = { λ l. record {
      left = frames_in (drop l.at l.text.items);
      came = came_of (frames_in l.text.items) (frames_in (drop l.at l.text.items));
      empties = l.empties;
    } };

    ghost invariant = { λ l. IsPlaying l.text.items l.at l.empties };
}

impl RecordedLink {
    /// A link that gives the frames of this text.
    pub fn new(text: Vec<u8>) -> RecordedLink
        ensures { result ≡ record { left = frames_in text.items; came = []; empties = 0 } }
    {
        RecordedLink {
            text,
            at: 0,
            empties: 0,
        }
    }
}

impl Link for RecordedLink {
    ghost use Rattle.frame_links.specs.LinkBoard.Recording.{state_of};

    ghost seen = { λ l. state_of l };

    /// Never fails. It gives the next frame, or nothing exactly where all came, and raises the count of empty looks there
    /// alone.
    fn poll(&mut self, buf: &mut [u8]) -> Result<Option<Got>, Failed>
        requires { 70000 ≤ length buf.old }
        ensures polled { PollOf (state_of self.old) (state_of self.new) buf.new result }
        ensures few { IfOk result (λ look. IfSome look (λ got. got.len ≤ 70000)) }

        ensures sound { IsOk result }
        ensures came { IfOk result (λ look. look_of look buf.new ≡ look_at self.old.left) }
        ensures after { self.new ≡ after_look self.old self.old.left }
    {
        let (_, left) = self.text.as_slice().split_at(self.at);
        match next_frame(left, buf) {
            Some((len, rest)) => {
                self.at = self.text.len() - rest.len();
                Ok(Some(Got {
                    len,
                    from: origin(),
                    group: false,
                }))
            }
            None => {
                self.empties = self.empties.saturating_add(1);
                Ok(None)
            }
        }
    }

    /// Never fails, and keeps nothing.
    fn send(&mut self, to: Target, head: &[u8], body: &[u8]) -> Result<(), Failed>
        ensures sent { SendOf (state_of self.old) (state_of self.new)
            (record { target = to; octets = head.now ++ body.now }) result }

        ensures sound { IsOk result }
        ensures same { self.new ≡ self.old }
    {
        Ok(())
    }
}

/// The SNPA from which frames come that were recorded.
fn origin() -> Snpa
    ensures { result ≡ 0 ∷ [] }
{
    match Snpa::from_bytes(&[0]) {
        Ok(snpa) => snpa,
        Err(_) => unreachable!(),
    }
}
