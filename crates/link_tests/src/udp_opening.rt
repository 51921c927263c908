//! Links on 127.0.0.1, at ports that are free.
use frame_links::udp_links::links::{Got, Link};
use frame_links::udp_links::words::{End, is_link_word};
use frame_links::udp_links::{Traffic, UdpLink};
use std::alloc::Global;
use std::net::{Ipv4Addr, Net, SocketAddr, SocketAddrV4, UdpSocket};
use std::process::Abort;

/// A port that is free just now.
pub fn free_port<R: Net>(machine: &R) -> Option<u16> {
    let any = SocketAddrV4::new(Ipv4Addr::new(127, 0, 0, 1), 0);
    let socket = UdpSocket::bind(machine, any).ok()?;
    match socket.local_addr() {
        Ok(SocketAddr::V4(address)) => Some(address.port()),
        _ => None,
    }
}

/// The end at a port of 127.0.0.1.
pub fn end_at(port: u16) -> End {
    End {
        address: [127, 0, 0, 1],
        port,
    }
}

/// The word of a link without peers at a port.
pub fn lone_word(rt: &impl Abort, alloc: Global, port: u16) -> String {
    format!(in alloc; "udp:127.0.0.1:{port}").expect(rt, "memory")
}

/// The traffic of links that stand alone.
pub fn no_traffic(rt: &impl Abort, alloc: Global) -> Traffic {
    Traffic::new(alloc).expect(rt, "memory")
}

/// The link of this word and this traffic.
pub fn opened(
    rt: &impl Abort,
    machine: &HostRuntime,
    word: &[u8],
    traffic: Traffic,
) -> UdpLink<HostRuntime> {
    assert!(rt; is_link_word(word));
    let machine = machine.clone().expect(rt, "memory");
    UdpLink::open(machine, word, traffic)
        .ok()
        .expect(rt, "a link")
}

/// A link without peers at a free port, of this traffic, and that port.
pub fn lone_link(
    rt: &impl Abort,
    machine: &HostRuntime,
    traffic: Traffic,
) -> (UdpLink<HostRuntime>, u16) {
    let port = free_port(machine).expect(rt, "a free port");
    let word = lone_word(rt, machine.alloc(), port);
    (opened(rt, machine, word.as_bytes(), traffic), port)
}

/// How often a datagram is looked for.
const LOOKS: u8 = 200;

/// What comes on a link within some looks, where there is room for them.
pub fn look_for<L: Link>(link: &mut L, buf: &mut [u8]) -> Option<Got> {
    if buf.len() < 70_000 {
        return None;
    }
    for _ in 0..LOOKS {
        match link.poll(buf) {
            Ok(None) => {}
            Ok(Some(got)) => return Some(got),
            Err(_) => return None,
        }
    }
    None
}

/// Whether just this comes on a link, from this end, and not through a group.
pub fn brings<L: Link>(link: &mut L, buf: &mut [u8], from: End, wanted: &[u8]) -> bool {
    match look_for(link, buf) {
        Some(got) => is_from(&got, from) && buf.get(..got.len) == Some(wanted),
        None => false,
    }
}

/// Whether what came is from this end, and not through a group.
fn is_from(got: &Got, from: End) -> bool {
    !got.group && got.from.as_bytes() == from.snpa().as_bytes()
}

/// Whether a look at a link sees nothing.
pub fn is_silent<L: Link>(link: &mut L, buf: &mut [u8]) -> bool {
    buf.len() >= 70_000 && matches!(link.poll(buf), Ok(None))
}
