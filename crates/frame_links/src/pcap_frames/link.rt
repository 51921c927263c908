//! A link that plays a file.
ghost use Rattle.std.specs.Prelude.{◌≡◌, ◌≤◌, ◌++◌, List, length, IfOk, IfSome, IsOk};
ghost use Rattle.frame_links.specs.LinkBoard.Links.{PollOf, SendOf, look_of};
ghost use Rattle.frame_links.specs.LinkBoard.Memory.{look_at};
ghost use Rattle.frame_links.specs.PcapFrames.File.{Captured};
ghost use Rattle.frame_links.specs.PcapFrames.Reading.{Ending, IsReadAs};
ghost use Rattle.frame_links.specs.PcapFrames.PlayedFrames.{frames_of};
ghost use Rattle.frame_links.specs.PcapFrames.Playing.{after_look, at_first, state_of};

use crate::link_board::base::Failed;
use crate::link_board::nsaps::Target;
use crate::link_board::{Got, Link};
use crate::pcap_frames::walk::{next_frame, order_of};
use crate::pcap_frames::{HEADER, Order};
use std::marker::Model;

/// A link that plays an Ethernet capture: it gives the OSI PDUs in the frames of a file, one a look and then nothing, and
/// takes every frame that is sent without keeping it. It reads the file where it stands, takes no memory, and never
/// fails.
#[derive(Drop)]
pub struct PcapLink {
    file: Vec<u8>,
    order: Option<Order>,
    at: usize,
    empties: u64,
}

impl Model for PcapLink {
    ghost use Rattle.std.specs.Prelude.{drop, vec_len};
    ghost use Rattle.frame_links.specs.PcapFrames.Playing.{Playing};
    ghost use Rattle.frame_links.specs.PcapFrames.Walk.{IsPlaying, frames_from, gone};

    ghost Value = { Playing };

    ghost view = { λ l. record {
      left = frames_from l.order (drop l.at l.file.items);
      came = gone (frames_from l.order (drop 24 l.file.items)) (frames_from l.order (drop l.at l.file.items));
      empties = l.empties;
    } };

    ghost invariant = { λ l. IsPlaying (frames_from l.order (drop 24 l.file.items))
        (frames_from l.order (drop l.at l.file.items)) l.at (vec_len l.file) l.empties };
}

impl PcapLink {
    /// A link that plays this file: to come are the OSI PDUs in the frames of the records that its octets are read as, up
    /// to their end or to the first fault. So of octets that are no file nothing comes.
    pub fn new(file: Vec<u8>) -> PcapLink
        ensures { (records : List Captured) (ending : Ending) → IsReadAs file.items records ending
            → result ≡ at_first (frames_of records) }
    {
        let order = order_of(&file);
        let at = HEADER.min(file.len());
        PcapLink {
            file,
            order,
            at,
            empties: 0,
        }
    }
}

impl Link for PcapLink {
    ghost use Rattle.frame_links.specs.PcapFrames.Playing.{state_of};

    ghost seen = { λ l. state_of l };

    /// Gives the next PDU, or nothing exactly where all came, and raises the count of empty looks there alone. It never
    /// fails. A PDU has at most 1,497 octets, so all of them come.
    fn poll(&mut self, buf: &mut [u8]) -> Result<Option<Got>, Failed>
        requires { 70000 ≤ length buf.old }
        ensures polled { PollOf (state_of self.old) (state_of self.new) buf.new result }
        ensures few { IfOk result (λ look. IfSome look (λ got. got.len ≤ 70000)) }

        ensures never { IsOk result }
        ensures came { IfOk result (λ look. look_of look buf.new ≡ look_at self.old.left) }
        ensures after { self.new ≡ after_look self.old self.old.left }
    {
        let found = next_frame(self.order, &self.file, self.at);
        let at = found.at;
        let Some(frame) = found.frame else {
            self.at = at;
            self.empties = self.empties.saturating_add(1);
            return Ok(None);
        };
        let len = frame.pdu.len();
        buf[..len].copy_from_slice(frame.pdu);
        let got = Got {
            len,
            from: frame.from,
            group: frame.group,
        };
        self.at = at;
        Ok(Some(got))
    }

    /// Takes every frame, and keeps none: nothing that is seen of the link changes.
    fn send(&mut self, to: Target, head: &[u8], body: &[u8]) -> Result<(), Failed>
        ensures sent { SendOf (state_of self.old) (state_of self.new)
            (record { target = to; octets = head.now ++ body.now }) result }

        ensures never { IsOk result }
        ensures same { self.new ≡ self.old }
    {
        Ok(())
    }
}
