//! An echo reply that is known from elsewhere, and data that answer its request.

use pdus::made_pdus::{matches, needs_id, reply};
use pdus::pdu_header::{Header, decode};

/// An echo request of lifetime 64 from 47002702 to 47002701 with the data 6869.
const REQUEST: &[u8] =
    b"\x81\x13\x01\x40\x3e\x00\x15\xb7\x37\x04\x47\x00\x27\x01\x04\x47\x00\x27\x02\x68\x69";

/// The header of the reply of lifetime 64 to the request in a frame, where it needs no identifier.
fn reply_header(frame: &[u8]) -> Option<Header> {
    let Ok(pdu) = decode(frame) else {
        return None;
    };
    let body_len = pdu.body.len();
    if body_len > 64_512 || needs_id(&pdu.to, &pdu.from, body_len) {
        return None;
    }
    Header::make(&reply(&pdu, None, 64, true), body_len).ok()
}

#[test]
fn replies_to_a_request(rt: HostRuntime) {
    let Some(header) = reply_header(REQUEST) else {
        panic!(rt; "no reply")
    };
    assert!(rt;
        header.as_bytes()
            == b"\x81\x13\x01\x40\x1f\x00\x15\x2f\xde\x04\x47\x00\x27\x02\x04\x47\x00\x27\x01".as_slice()
    );
}

/// The request with an octet behind it.
const BEHIND: &[u8] =
    b"\x81\x13\x01\x40\x3e\x00\x15\xb7\x37\x04\x47\x00\x27\x01\x04\x47\x00\x27\x02\x68\x69\x00";

/// Data of replies, and whether they answer the request.
const BODIES: [(&[u8], bool); 4] = [
    (b"hi", true),
    (REQUEST, true),
    (b"ho", false),
    (BEHIND, false),
];

#[test]
fn matches_replies(rt: HostRuntime) {
    for (body, want) in &BODIES {
        assert!(rt; matches(b"hi", body) == *want);
    }
}
