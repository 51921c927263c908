//! ES-IS PDUs. All have the holding time 120.
use captures::esis_values::{HelloRefusal, decode, encode, esh, ish, rd};
use pdus::pdu_header::nsaps::{Address, Snpa};
use std::alloc::Global;

/// The end system hello of the address 47002702.
const HOST: &[u8] = b"\x82\x0f\x01\x00\x02\x00\x78\x32\x4b\x01\x04\x47\x00\x27\x02";

/// The intermediate system hello of the title 470027ff.
const ROUTER: &[u8] = b"\x82\x0e\x01\x00\x04\x00\x78\xb1\xcd\x04\x47\x00\x27\xff";

/// The same with a suggested timer of 30 seconds.
const SUGGESTS: &[u8] = b"\x82\x12\x01\x00\x04\x00\x78\x5b\x39\x04\x47\x00\x27\xff\xc6\x02\x00\x1e";

/// The redirect towards 47002701, which is itself at the subnetwork address 02.
const REDIRECT: &[u8] = b"\x82\x11\x01\x00\x06\x00\x78\xad\xc8\x04\x47\x00\x27\x01\x01\x02\x00";

/// The redirect there by way of the title 470027ff, without a checksum.
const TITLED: &[u8] =
    b"\x82\x15\x01\x00\x06\x00\x78\x00\x00\x04\x47\x00\x27\x01\x01\x02\x04\x47\x00\x27\xff";

#[test]
fn makes_the_worked_hellos(rt: HostRuntime) {
    let host = Address::from_text(b"47002702").expect(&rt, "an address");
    assert!(rt; is_hello(&[host], true, HOST));
    let title = Address::from_text(b"470027ff").expect(&rt, "a title");
    assert!(rt; are_router_hellos(&title));
}

/// Whether an end system hello of these addresses has these octets.
fn is_hello(addresses: &[Address], sealed: bool, want: &[u8]) -> bool {
    match esh(120, addresses, sealed) {
        Ok(hello) => hello.as_bytes() == want,
        Err(_) => false,
    }
}

/// Whether the hellos of a title are those above.
fn are_router_hellos(title: &Address) -> bool {
    ish(120, title, None, true).as_bytes() == ROUTER
        && ish(120, title, Some(30), true).as_bytes() == SUGGESTS
}

#[test]
fn makes_the_worked_redirects(rt: HostRuntime) {
    let to = Address::from_text(b"47002701").expect(&rt, "an address");
    let title = Address::from_text(b"470027ff").expect(&rt, "a title");
    let via = Snpa::from_text(b"02").expect(&rt, "a subnetwork address");
    assert!(rt; are_redirects(&to, &via, &title));
}

/// Whether the redirects to these are those above.
fn are_redirects(to: &Address, via: &Snpa, title: &Address) -> bool {
    rd(120, to, via, None, true).as_bytes() == REDIRECT
        && rd(120, to, via, Some(title), false).as_bytes() == TITLED
}

#[test]
fn counts_the_octets_of_a_hello(rt: HostRuntime) {
    let address = Address::from_bytes(&[0x47; 20]).expect(&rt, "an address");
    assert!(rt; has_octets(&[address; 11], 241));
    assert!(rt; is_too_long(&[address; 12], 262));
    assert!(rt; is_hello(&[], false, b"\x82\x0a\x01\x00\x02\x00\x78\x00\x00\x00"));
}

/// Whether an end system hello of these addresses has so many octets.
fn has_octets(addresses: &[Address], octets: usize) -> bool {
    match esh(120, addresses, true) {
        Ok(hello) => hello.as_bytes().len() == octets,
        Err(_) => false,
    }
}

/// Whether an end system hello of these addresses is refused, since it would have so many octets.
fn is_too_long(addresses: &[Address], octets: usize) -> bool {
    match esh(120, addresses, true) {
        Ok(_) => false,
        Err(refusal) => refusal == HelloRefusal::TooLong { octets },
    }
}

/// The holding time of a frame's PDU, where the frame is that PDU and it is written again as it stands.
fn hold_again(alloc: Global, frame: &[u8]) -> Option<u16> {
    let Ok(pdu) = decode(frame) else {
        return None;
    };
    let mut out = Vec::new(alloc);
    match encode(alloc, &pdu, &mut out) {
        Ok(()) => (out.as_slice() == frame).then_some(pdu.hold),
        Err(_) => None,
    }
}

#[test]
fn reads_and_writes_the_worked_pdus(rt: HostRuntime) {
    for frame in [HOST, ROUTER, SUGGESTS, REDIRECT] {
        assert!(rt; hold_again(rt.alloc(), frame) == Some(120), "at {frame:?}");
    }
}

#[test]
fn laws_can_be_called() {
    captures::esis_values::laws::one_value();
    captures::esis_values::laws::spelled_where_no_rule_is_broken();
}
