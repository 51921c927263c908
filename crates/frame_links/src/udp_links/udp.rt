//! A link over UDP.
ghost use Rattle.std.specs.Prelude.{◌≡◌, ◌+◌, ◌≤◌, ◌++◌, length, nat_le, true, vec_capacity, is_ok, Some, IfOk, IfSome};
ghost use Rattle.frame_links.specs.LinkBoard.Links.{PollOf, SendOf};
ghost use Rattle.frame_links.specs.LinkBoard.Words.{is_link_word, link_ends};
ghost use Rattle.frame_links.specs.UdpLinks.Sockets.{GivesEach, GivesOne, LooksOnce, LooksTo, Sends, state_of, told_in};

use crate::link_board::base::{Failed, NoMemory};
use crate::link_board::nsaps::Target;
use crate::link_board::{End, Got, Link, LinkEnds};
use crate::udp_links::receivers::receivers;
use crate::udp_links::socket::{Datagrams, address_of, is_again, told_of};
use crate::udp_links::traffic::Traffic;
use std::net::{Net, UdpSocket};
use std::rt::Clock;
use std::thread;
use std::time::Duration;

/// Why a link wasn't opened.
#[derive(Clone, Copy, Debug)]
pub enum LinkFault {
    /// The local end couldn't be bound.
    Refused,
    /// Memory was refused.
    NoMemory,
}

/// A link over UDP: a frame is one datagram. It tells neither its looks nor what it sent.
///
/// A frame for one system goes to the end that has its SNPA, a peer or not; there is nobody at an SNPA that is that of no
/// end. A frame for a group goes to each peer of that role. Whatever comes is from its sender alone, and never through a
/// group. A look that sees nothing waits only where all links of the same traffic were looked at and nothing came on any, and
/// little at first, so that a link where nothing comes holds up no other; where nothing has come for a while, it takes seven
/// sleeps of a millisecond.
#[derive(Drop)]
pub struct UdpLink<R: Clock + Drop, S: Datagrams + Drop = UdpSocket> {
    clock: R,
    socket: S,
    ends: LinkEnds,
    datagram: Vec<u8>,
    traffic: Traffic,
    faults: u64,
    empties: u64,
    ghost room: { 70000 ≤ vec_capacity datagram },
}

/// How a look waits for a datagram that hasn't come yet: so many sleeps, with a look at the socket behind each. A socket's own
/// timeout is rounded up to ticks of the system's, to 20 ms for one of 10.
#[derive(Clone, Copy)]
struct Wait {
    sleeps: u8,
    micros: u64,
}

/// How a look waits behind so many rounds in which nothing came on any link.
fn wait_behind(rounds: u64) -> Wait {
    let (sleeps, micros) = match rounds {
        0 => (0, 0),
        1..=4 => (1, 50),
        5..=6 => (1, 500),
        _ => (7, 1000),
    };
    Wait { sleeps, micros }
}

/// The most octets of a frame.
const MOST: usize = 70_000;

/// How often a datagram is given, a millisecond apart, before the socket counts as failed.
const TRIES: u16 = 1000;

impl<R: Net + AllocGlobal + Clock + Drop> UdpLink<R> {
    /// A link with the ends of a link word, of this traffic. It reserves all room that it needs.
    ///
    /// # Errors
    ///
    /// `Refused` only where the local end couldn't be bound, or waits where it mustn't; else `NoMemory`.
    pub fn open(machine: R, word: &[u8], traffic: Traffic) -> Result<UdpLink<R>, LinkFault>
        requires { is_link_word word.now ≡ true }
        ensures new { IfOk result (λ link. ⟦<UdpLink<R> as Link>⟧.seen link ≡ state_of 0 0) }
        ensures ends { IfOk result (λ link. link_ends word.now ≡ Some link.ends) }
    {
        let Some(ends) = LinkEnds::of_word(word) else {
            unreachable!()
        };
        let Ok(datagram) = Vec::with_capacity(machine.alloc(), MOST) else {
            return Err(LinkFault::NoMemory);
        };
        let Ok(socket) = UdpSocket::bind(&machine, address_of(ends.local())) else {
            return Err(LinkFault::Refused);
        };
        if socket.set_nonblocking(true).is_err() {
            return Err(LinkFault::Refused);
        }
        traffic.link_opens();
        Ok(UdpLink {
            clock: machine,
            socket,
            ends,
            datagram,
            traffic,
            faults: 0,
            empties: 0,
        })
    }
}

/// Looks at a socket once.
fn look_once<S: Datagrams>(socket: &mut S, buf: &mut [u8]) -> Result<Option<Got>, Failed>
    requires { 70000 ≤ length buf.old }
    ensures few { IfOk result (λ look. IfSome look (λ got. got.len ≤ 70000)) }
    ensures looked { LooksOnce (S.told socket.old) (S.told socket.new) (told_in result buf.new) }
{
    told_of(socket.receive(&mut buf[..MOST]))
}

/// Looks at a socket, and for a datagram that hasn't come yet as many times more as it waits.
fn look<S: Datagrams>(
    socket: &mut S,
    clock: &impl Clock,
    wait: Wait,
    buf: &mut [u8],
) -> Result<Option<Got>, Failed>
    requires { 70000 ≤ length buf.old }
    ensures few { IfOk result (λ look. IfSome look (λ got. got.len ≤ 70000)) }
    ensures looked { LooksTo (S.told socket.old) (S.told socket.new) (told_in result buf.new) }
{
    for _ in 0..wait.sleeps {
        match look_once(socket, buf) {
            Ok(None) => sleep(clock, wait.micros),
            look => return look,
        }
    }
    look_once(socket, buf)
}

/// Sleeps for so many microseconds.
fn sleep(clock: &impl Clock, micros: u64) {
    thread::sleep(clock, Duration::from_micros(micros));
}

/// Gives a datagram for an end to a socket, and waits for room. Whether the socket took it.
fn give<S: Datagrams>(socket: &mut S, clock: &impl Clock, datagram: &[u8], end: End) -> bool
    ensures { GivesOne end datagram.now (S.told socket.old) (S.told socket.new) result }
{
    for _ in 1..TRIES {
        let outcome = socket.give(datagram, address_of(end));
        if !is_again(&outcome) {
            return outcome.is_ok();
        }
        sleep(clock, 1000);
    }
    socket.give(datagram, address_of(end)).is_ok()
}

/// Gives a datagram for each of these ends to a socket. Whether the socket took it for all.
fn give_each<S: Datagrams>(
    socket: &mut S,
    clock: &impl Clock,
    datagram: &[u8],
    ends: &[End],
) -> bool
    ensures { GivesEach ends.now datagram.now (S.told socket.old) (S.told socket.new) result }
{
    let mut all = true;
    for end in ends {
        all &= give(socket, clock, datagram, *end);
    }
    all
}

/// Whether there is room for the datagram of two pieces, which is then made of them.
fn made_of(datagram: &mut Vec<u8>, head: &[u8], body: &[u8]) -> bool
    requires { 70000 ≤ vec_capacity datagram.old }
    ensures fits { result ≡ nat_le (length head.now + length body.now) 70000 }
    ensures made { result ≡ true → datagram.new.items ≡ head.now ++ body.now }
    ensures room { 70000 ≤ vec_capacity datagram.new }
{
    if head.len() > MOST || body.len() > MOST - head.len() {
        return false;
    }
    datagram.clear();
    let Ok(()) = datagram.extend_from_slice(head) else {
        unreachable!()
    };
    let Ok(()) = datagram.extend_from_slice(body) else {
        unreachable!()
    };
    true
}

impl<R: Clock + Drop, S: Datagrams + Drop> Link for UdpLink<R, S> {
    ghost use Rattle.frame_links.specs.UdpLinks.Sockets.{state_of};

    ghost seen = { λ l. state_of l.faults l.empties };

    /// Tells what the last of its looks at the socket saw; each before it saw nothing.
    fn poll(&mut self, buf: &mut [u8]) -> Result<Option<Got>, Failed>
        requires { 70000 ≤ length buf.old }
        ensures polled { PollOf (state_of self.old.faults self.old.empties) (state_of self.new.faults self.new.empties)
            buf.new result }
        ensures few { IfOk result (λ look. IfSome look (λ got. got.len ≤ 70000)) }

        ensures looked { LooksTo (S.told self.old.socket) (S.told self.new.socket) (told_in result buf.new) }
        ensures ends { self.new.ends ≡ self.old.ends }
    {
        let wait = wait_behind(self.traffic.empty_rounds());
        let look = look(&mut self.socket, &self.clock, wait, buf);
        match look {
            Ok(Some(_)) => self.traffic.datagram_comes(),
            Ok(None) => {
                self.traffic.nothing_comes();
                self.empties = self.empties.saturating_add(1);
            }
            Err(Failed) => self.faults = self.faults.saturating_add(1),
        }
        look
    }

    /// Gives the frame to the socket as one datagram for each of its receivers, and fails exactly where the socket didn't
    /// take it for all of them, or where it is longer than 70,000 octets.
    fn send(&mut self, to: Target, head: &[u8], body: &[u8]) -> Result<(), Failed>
        ensures sent { SendOf (state_of self.old.faults self.old.empties) (state_of self.new.faults self.new.empties)
            (record { target = to; octets = head.now ++ body.now }) result }

        ensures given { Sends self.old.ends (record { target = to; octets = head.now ++ body.now })
            (S.told self.old.socket) (S.told self.new.socket) (is_ok result) }
        ensures ends { self.new.ends ≡ self.old.ends }
    {
        if made_of(&mut self.datagram, head, body) {
            let ends = receivers(&self.ends, to);
            let datagram = self.datagram.as_slice();
            if give_each(&mut self.socket, &self.clock, datagram, ends.as_slice()) {
                return Ok(());
            }
        }
        self.faults = self.faults.saturating_add(1);
        Err(Failed)
    }
}
