ghost use Rattle.std.specs.Prelude.{◌≤◌, length};

use captures::base::NoMemory;
use pdus::nsap::base::SharedOctets;
use pdus::pdu_header::views::{Frame, View};
use std::alloc::Global;

/// Octets 7 to 12 of a frame, for a further owner.
fn last_of(frame: &Frame) -> Result<View, NoMemory>
    requires { 12 ≤ length frame.now }
{
    frame.view()?.part(6, 6)
}

/// Octets 1 to 6 of a shared frame.
fn first_of(frame: &Frame) -> Result<View, NoMemory>
    requires { 12 ≤ length frame.now }
{
    Ok(frame.share()?.into_view().narrow(0, 6))
}

/// Whether a further owner of a view sees these octets.
fn is_seen(view: View, want: &[u8]) -> bool {
    match view.share() {
        Ok(view) => {
            let (front, behind) = view.parts(0, view.len());
            front.is_empty() && behind == want
        }
        Err(_) => false,
    }
}

#[test]
fn shows_a_frame_and_its_parts(rt: HostRuntime) {
    let frame = Frame::copy(rt.alloc(), b"header, data").expect(&rt, "memory");
    let last = last_of(&frame).expect(&rt, "memory");
    assert!(rt; is_seen(last, b", data"));
    let first = first_of(&frame).expect(&rt, "memory");
    assert!(rt; is_seen(first, b"header"));
}

#[test]
fn takes_octets_over(rt: HostRuntime) {
    let octets = Vec::from_slice(rt.alloc(), b"header, data").expect(&rt, "memory");
    let frame = Frame::from_vec(octets).expect(&rt, "memory");
    assert!(rt; is_seen(frame.into_view(), b"header, data"));
}

#[test]
fn shares_octets(rt: HostRuntime) {
    let octets = Vec::from_slice(rt.alloc(), b"header, data").expect(&rt, "memory");
    let octets = SharedOctets::from_vec(octets).expect(&rt, "memory");
    let frame = Frame::of_shared(&octets).expect(&rt, "memory");
    assert!(rt; is_seen(frame.into_view(), b"header, data"));
    assert!(rt; octets.as_bytes() == b"header, data".as_slice());
}

/// A header of nine octets, as its second octet says.
const HEADER: &[u8] = b"\x81\x09\x01\x0a\x1c\x00\x0b\x00\x00";

/// The frame of a header and of octets 3 and 4 of some data.
fn with_header(alloc: Global, header: &[u8]) -> Result<Frame, NoMemory> {
    let data = Frame::copy(alloc, b"unit")?.into_view();
    Frame::with_data(alloc, header, &data, 2, 2)
}

#[test]
fn shares_data_behind_a_short_header(rt: HostRuntime) {
    let frame = with_header(rt.alloc(), HEADER).expect(&rt, "memory");
    assert!(rt; frame.parts() == (HEADER, b"it".as_slice()));
    assert!(rt; frame.len() == 11);
    let view = frame.into_view();
    assert!(rt; view.len() >= 10);
    assert!(rt; view.parts(7, 3) == (b"\x00\x00".as_slice(), b"i".as_slice()));
    let all = b"\x81\x09\x01\x0a\x1c\x00\x0b\x00\x00it";
    assert!(rt; view.first_octets().as_bytes() == all.as_slice());
}

#[test]
fn copies_data_behind_another_header(rt: HostRuntime) {
    let frame = with_header(rt.alloc(), b"header, ").expect(&rt, "memory");
    assert!(rt; frame.parts() == (b"".as_slice(), b"header, it".as_slice()));
}
