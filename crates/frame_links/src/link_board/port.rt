//! A port of a board.
ghost use Rattle.std.specs.Prelude.{◌≡◌, ◌≤◌, ◌++◌, length, true, IsTrue, IsSome, option_map};
ghost use Rattle.frame_links.specs.LinkBoard.Ports.{PolledOf, SentOf, without_gone};

use crate::link_board::link::{Got, Link};
use crate::link_board::ports::{Polled, Sent};
use clnp_base::Failed;
use pdus::nsap::Target;

/// A port: its link, until that is dropped, and whether the link is attached.
#[derive(Drop)]
pub(crate) struct Port {
    pub(crate) link: Option<Box<dyn Link>>,
    pub(crate) attached: bool,
    ghost there: { IsTrue attached → IsSome link },
}

impl Port {
    /// Looks at the link, which is detached where it fails.
    pub(crate) fn poll(&mut self, buf: &mut [u8]) -> Polled
        requires attached { self.old.attached ≡ true }
        requires room { 70000 ≤ length buf.old }
        ensures polled { PolledOf
            (record { link = option_map (λ b. seen b) self.old.link; attached = self.old.attached })
            (record { link = option_map (λ b. seen b) self.new.link; attached = self.new.attached }) buf.new result }
        ensures few { (got : Got) → result ≡ Polled.Frame got → got.len ≤ 70000 }
    {
        let Some(mut link) = self.link.take() else {
            unreachable!()
        };
        let came = link.poll(buf);
        self.link = Some(link);
        match came {
            Ok(Some(got)) => Polled::Frame(got),
            Ok(None) => Polled::Nothing,
            Err(Failed) => {
                self.attached = false;
                Polled::Detached
            }
        }
    }

    /// Sends a frame on the link, which is detached where it fails.
    pub(crate) fn send(&mut self, to: Target, head: &[u8], body: &[u8]) -> Sent
        requires { self.old.attached ≡ true }
        ensures { SentOf
            (record { link = option_map (λ b. seen b) self.old.link; attached = self.old.attached })
            (record { link = option_map (λ b. seen b) self.new.link; attached = self.new.attached })
            (record { target = to; octets = head.now ++ body.now }) result }
    {
        let Some(mut link) = self.link.take() else {
            unreachable!()
        };
        let came = link.send(to, head, body);
        self.link = Some(link);
        match came {
            Ok(()) => Sent::Done,
            Err(Failed) => {
                self.attached = false;
                Sent::Detached
            }
        }
    }

    /// Drops the link, where it is detached.
    pub(crate) fn let_go(&mut self)
        ensures gone { record { link = option_map (λ b. seen b) self.new.link; attached = self.new.attached }
            ≡ without_gone (record { link = option_map (λ b. seen b) self.old.link; attached = self.old.attached }) }
        ensures kept { self.old.attached ≡ true → self.new ≡ self.old }
    {
        if !self.attached {
            self.link = None;
        }
    }
}
