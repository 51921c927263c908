//! Calls of links over UDP.
use crate::udp_opening::{
    brings, end_at, free_port, is_silent, lone_link, lone_word, no_traffic, opened,
};
use frame_links::udp_links::links::Link;
use frame_links::udp_links::nsaps::{Snpa, Target};
use frame_links::udp_links::words::{End, is_link_word};
use frame_links::udp_links::{LinkFault, UdpLink};
use std::alloc::{AllocError, Global};
use std::mem::forget;
use std::process::Abort;
use std::rt::Clock;
use std::time::{Duration, Instant};

/// A data unit of the two octets `hi` from 47002702 to 47002701: its header.
const HEAD: [u8; 19] = [
    0x81, 0x13, 0x01, 0x0a, 0x3c, 0x00, 0x15, 0xce, 0x58, 0x04, 0x47, 0x00, 0x27, 0x01, 0x04, 0x47,
    0x00, 0x27, 0x02,
];

/// The whole of it.
const UNIT: [u8; 21] = [
    0x81, 0x13, 0x01, 0x0a, 0x3c, 0x00, 0x15, 0xce, 0x58, 0x04, 0x47, 0x00, 0x27, 0x01, 0x04, 0x47,
    0x00, 0x27, 0x02, 0x68, 0x69,
];

/// Room for a frame.
fn room(rt: &impl Abort, alloc: Global) -> Vec<u8> {
    vec![in alloc; 0u8; 70_000].expect(rt, "memory")
}

/// A link without peers at a free port, and that port.
fn alone(rt: &impl Abort, machine: &HostRuntime) -> (UdpLink<HostRuntime>, u16) {
    lone_link(rt, machine, no_traffic(rt, machine.alloc()))
}

/// The system at a port of 127.0.0.1.
fn system_at(port: u16) -> Target {
    Target::System(end_at(port).snpa())
}

/// Whether the data unit comes that is sent from the link at a port to the one at another.
fn unit_goes<L: Link>(
    sender: &mut L,
    from: u16,
    receiver: &mut L,
    to: u16,
    buf: &mut [u8],
) -> bool {
    sender.send(system_at(to), &HEAD, b"hi").is_ok() && brings(receiver, buf, end_at(from), &UNIT)
}

#[test]
fn a_frame_goes_from_end_to_end(rt: HostRuntime) {
    let mut room = room(&rt, rt.alloc());
    let (mut sender, from) = alone(&rt, &rt);
    let (mut receiver, to) = alone(&rt, &rt);
    assert!(rt; unit_goes(&mut sender, from, &mut receiver, to, room.as_mut_slice()));
    forget(sender);
    forget(receiver);
}

/// How many looks of a link alone see nothing before each waits as long as any.
const SHORT_LOOKS: u8 = 7;

/// Whether so many looks see nothing.
fn is_idle<L: Link>(link: &mut L, buf: &mut [u8]) -> bool {
    for _ in 0..SHORT_LOOKS {
        if !is_silent(link, buf) {
            return false;
        }
    }
    true
}

/// How long a look takes that sees nothing.
fn time_of_look<L: Link>(machine: &impl Clock, link: &mut L, buf: &mut [u8]) -> Option<Duration> {
    let start = Instant::now(machine).ok()?;
    if !is_silent(link, buf) {
        return None;
    }
    start.elapsed(machine).ok()
}

#[test]
fn a_look_waits_some_milliseconds_where_nothing_came_for_a_while(rt: HostRuntime) {
    let mut room = room(&rt, rt.alloc());
    let (mut link, _) = alone(&rt, &rt);
    assert!(rt; is_idle(&mut link, room.as_mut_slice()));
    let took = time_of_look(&rt, &mut link, room.as_mut_slice()).expect(&rt, "a silent look");
    assert!(rt; took >= Duration::from_millis(7) && took < Duration::from_millis(1000));
    forget(link);
}

/// How often a datagram is sent to a link beside which another is idle.
const TIMES: u8 = 200;

/// Whether the unit comes as often on a busy link, and nothing on an idle one.
fn all_go<L: Link>(
    sender: &mut L,
    from: u16,
    busy: &mut L,
    to: u16,
    idle: &mut L,
    buf: &mut [u8],
) -> bool {
    for _ in 0..TIMES {
        if !(unit_goes(sender, from, busy, to, buf) && is_silent(idle, buf)) {
            return false;
        }
    }
    true
}

#[test]
fn an_idle_link_holds_up_no_other(rt: HostRuntime) {
    let mut room = room(&rt, rt.alloc());
    let (mut sender, from) = alone(&rt, &rt);
    let traffic = no_traffic(&rt, rt.alloc());
    let share = traffic.share().expect(&rt, "memory");
    let (mut busy, to) = lone_link(&rt, &rt, traffic);
    let (mut idle, _) = lone_link(&rt, &rt, share);
    let start = Instant::now(&rt).expect(&rt, "a clock");
    assert!(rt;
        all_go(
            &mut sender,
            from,
            &mut busy,
            to,
            &mut idle,
            room.as_mut_slice()
        )
    );
    let took = start.elapsed(&rt).expect(&rt, "a clock");
    assert!(rt; took < Duration::from_millis(1400));
    forget(sender);
    forget(busy);
    forget(idle);
}

/// Whether the longest datagram is sent, and one that is longer isn't.
fn sends_long<L: Link>(sender: &mut L, to: u16, long: &[u8]) -> bool {
    if long.len() != 65_507 {
        return false;
    }
    let (head, body) = long.split_at(254);
    sender.send(system_at(to), head, body).is_ok()
        && sender.send(system_at(to), long, b"7").is_err()
}

/// Whether a datagram of no octets comes where one that is too long was sent before it.
fn empty_goes<L: Link>(
    sender: &mut L,
    from: u16,
    receiver: &mut L,
    to: u16,
    buf: &mut [u8],
) -> bool {
    sender.send(system_at(to), buf, b"7").is_err()
        && sender.send(system_at(to), b"", b"").is_ok()
        && brings(receiver, buf, end_at(from), b"")
}

#[test]
fn the_longest_datagram_comes_whole(rt: HostRuntime) {
    let mut room = room(&rt, rt.alloc());
    let long = vec![in rt.alloc(); 7u8; 65_507].expect(&rt, "memory");
    let (mut sender, from) = alone(&rt, &rt);
    let (mut receiver, to) = alone(&rt, &rt);
    let buf = room.as_mut_slice();
    assert!(rt; sends_long(&mut sender, to, &long));
    assert!(rt; brings(&mut receiver, buf, end_at(from), &long));
    assert!(rt; empty_goes(&mut sender, from, &mut receiver, to, buf));
    forget(sender);
    forget(receiver);
}

/// The word of a link at a port with two hosts and a router at these ports.
fn word_of_three(
    alloc: Global,
    port: u16,
    hosts: (u16, u16),
    router: u16,
) -> Result<String, AllocError> {
    let (first, second) = hosts;
    format!(in alloc;
        "udp:127.0.0.1:{port},h127.0.0.1:{first},r127.0.0.1:{router},h127.0.0.1:{second}"
    )
}

/// Whether a link sends to both groups.
fn sends_to_groups<L: Link>(sender: &mut L) -> bool {
    sender.send(Target::EndSystems, b"to ", b"hosts").is_ok()
        && sender.send(Target::Routers, b"to ", b"routers").is_ok()
}

/// Sends to the groups of two hosts and a router at these ports, and tells from which end.
fn send_to_groups(rt: &impl Abort, machine: &HostRuntime, hosts: (u16, u16), router: u16) -> End {
    let port = free_port(machine).expect(rt, "a free port");
    let word = word_of_three(machine.alloc(), port, hosts, router).expect(rt, "memory");
    let traffic = no_traffic(rt, machine.alloc());
    let mut sender = opened(rt, machine, word.as_bytes(), traffic);
    assert!(rt; sends_to_groups(&mut sender));
    forget(sender);
    end_at(port)
}

/// Whether two hosts and a router get what is for each, and no more.
fn groups_get<L: Link>(
    first: &mut L,
    second: &mut L,
    router: &mut L,
    from: End,
    buf: &mut [u8],
) -> bool {
    brings(first, buf, from, b"to hosts")
        && brings(second, buf, from, b"to hosts")
        && brings(router, buf, from, b"to routers")
        && is_silent(first, buf)
        && is_silent(router, buf)
}

#[test]
fn a_group_is_each_peer_of_a_role(rt: HostRuntime) {
    let mut room = room(&rt, rt.alloc());
    let (mut first, a) = alone(&rt, &rt);
    let (mut second, b) = alone(&rt, &rt);
    let (mut router, c) = alone(&rt, &rt);
    let from = send_to_groups(&rt, &rt, (a, b), c);
    assert!(rt;
        groups_get(
            &mut first,
            &mut second,
            &mut router,
            from,
            room.as_mut_slice()
        )
    );
    forget(first);
    forget(second);
    forget(router);
}

/// Whether a link sends `nobody` to a system.
fn sends_to_nobody<L: Link>(link: &mut L, snpa: &[u8]) -> bool {
    match Snpa::from_bytes(snpa) {
        Ok(snpa) => link.send(Target::System(snpa), b"to", b"nobody").is_ok(),
        Err(_) => false,
    }
}

#[test]
fn nobody_gets_what_is_for_nobody(rt: HostRuntime) {
    let (mut link, _) = alone(&rt, &rt);
    assert!(rt; sends_to_nobody(&mut link, &[127, 0, 0, 1, 9]));
    assert!(rt; sends_to_nobody(&mut link, &[127, 0, 0, 1, 0, 0]));
    assert!(rt; link.send(Target::EndSystems, b"to", b"nobody").is_ok());
    forget(link);
}

#[test]
fn an_end_that_is_taken_is_refused(rt: HostRuntime) {
    let (link, port) = alone(&rt, &rt);
    let word = lone_word(&rt, rt.alloc(), port);
    assert!(rt; is_link_word(word.as_bytes()));
    let machine = rt.clone().expect(&rt, "memory");
    let again = UdpLink::open(machine, word.as_bytes(), no_traffic(&rt, rt.alloc()));
    assert!(rt; matches!(again, Err(LinkFault::Refused)));
    forget(link);
}
