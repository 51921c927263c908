//! A run over a link that plays an Ethernet capture.

use crate::live_running::{new_sink, run};
use frame_links::link_board::base::NoMemory;
use frame_links::link_board::{Board, Link};
use frame_links::pcap_frames::PcapLink;
use std::alloc::Global;
use std::mem::forget;

/// A host alone.
const HOST: &[u8] = b"clnp-sim 1
subnet lan 1500
system b host hello=0
address b 47002701
port b 0 lan 02
events
end
";

/// A capture of one Ethernet frame, from 000000000001 to all end systems: a data unit of the octets 68 69, with the lifetime 10
/// and its checksum, from 47002702 to 47002701, and behind it the zeros up to the shortest frame of an Ethernet.
const CAPTURE: &[u8] =
    b"\xa1\xb2\xc3\xd4\x00\x02\x00\x04\x00\x00\x00\x00\x00\x00\x00\x00\x00\x04\x00\x00\x00\x00\x00\x01\
\x00\x00\x00\x00\x00\x00\x00\x00\x00\x00\x00\x3c\x00\x00\x00\x3c\
\x09\x00\x2b\x00\x00\x04\x00\x00\x00\x00\x00\x01\x00\x18\xfe\xfe\x03\
\x81\x13\x01\x0a\x3c\x00\x15\xce\x58\x04\x47\x00\x27\x01\x04\x47\x00\x27\x02hi\
\x00\x00\x00\x00\x00\x00\x00\x00\x00\x00\x00\x00\x00\x00\x00\x00\x00\x00\x00\x00\x00\x00";

/// The journal of a turn in which that comes.
const HANDED_UP: &[u8] = b"0 b got 47002702 47002701 6869
end 0 0
";

/// A board of a link that plays the capture.
fn board_of(alloc: Global) -> Result<Board, NoMemory> {
    let link = PcapLink::new(Vec::from_slice(alloc, CAPTURE)?);
    let mut links: Vec<Box<dyn Link>> = Vec::new(alloc);
    links.push(Box::new(alloc, link)?)?;
    Board::new(alloc, links)
}

#[test]
fn a_captured_unit_is_handed_up(rt: HostRuntime) {
    let mut board = board_of(rt.alloc()).expect(&rt, "memory");
    let mut sink = new_sink(rt.alloc()).expect(&rt, "memory");
    assert!(rt; board.len() == 1);
    assert!(rt; run(&rt, HOST, 1, &mut board, &mut sink, rt.alloc()) == Ok(()));
    assert!(rt; sink.as_bytes() == HANDED_UP);
    forget(board);
}
