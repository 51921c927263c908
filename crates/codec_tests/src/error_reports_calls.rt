//! An error report that is known from elsewhere, made and read.

use pdus::made_pdus::{Told, read, report};
use pdus::pdu_header::decode;
use pdus::pdu_header::nsaps::Address;

/// A data PDU of lifetime 1 from 47002702 to 47002701, with a header of 19 octets.
const FRAME: &[u8] =
    b"\x81\x13\x01\x01\x3c\x00\x15\xfb\x34\x04\x47\x00\x27\x01\x04\x47\x00\x27\x02\x68\x69";
/// The report that its lifetime expired in transit, from 470027ff, with a header of 23 octets.
const REPORT: &[u8] =
    b"\x81\x17\x01\x40\x01\x00\x2a\xea\xc4\x04\x47\x00\x27\x02\x04\x47\x00\x27\xff\xc1\x02\xa0\x00\x81\x13\x01\x01\x3c\x00\x15\xfb\x34\x04\x47\x00\x27\x01\x04\x47\x00\x27\x02";

/// What the PDU in a frame tells.
fn told(frame: &[u8]) -> Option<Told<'_>> {
    let Ok(pdu) = decode(frame) else {
        return None;
    };
    read(&pdu).ok()
}

/// Whether the report of the data PDU goes to its source, has the header of the report above, and the data PDU's header
/// as its data.
fn is_reported(own: &Address) -> bool {
    match report(FRAME, own, 0xa0, 0, 64, true) {
        Some(made) => {
            made.to.as_bytes() == b"\x47\x00\x27\x02".as_slice()
                && made.head.as_bytes() == &REPORT[..23]
                && made.body_len == 19
        }
        None => false,
    }
}

#[test]
fn reports_an_expired_lifetime(rt: HostRuntime) {
    let own = Address::from_text(b"470027ff").expect(&rt, "an address");
    assert!(rt; is_reported(&own));
}

#[test]
fn reads_a_report_again(rt: HostRuntime) {
    let want = Told {
        reason: 0xa0,
        place: 0,
        header: &FRAME[..19],
    };
    assert!(rt; told(REPORT) == Some(want));
    assert!(rt; told(FRAME).is_none());
}
