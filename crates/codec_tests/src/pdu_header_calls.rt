//! Headers made and changed. All have the destination 47002701 and the source 47002702.
ghost use Rattle.std.specs.Prelude.{◌≡◌, ℕ, IfSome};
ghost use Rattle.pdus.specs.PduHeader.Parts.{AreFit};

use pdus::pdu_header::nsaps::Address;
use pdus::pdu_header::options::OptionList;
use pdus::pdu_header::{Header, Kind, Parts, decode, encode};
use std::alloc::Global;

/// A data PDU of lifetime 10 with the data 6869, sealed.
const FRAME: &[u8] =
    b"\x81\x13\x01\x0a\x3c\x00\x15\xce\x58\x04\x47\x00\x27\x01\x04\x47\x00\x27\x02\x68\x69";

/// The parts of a PDU of lifetime 10 that can't be segmented.
fn plain() -> Option<Parts>
    ensures { IfSome result (λ parts. (body_len : ℕ) → AreFit parts body_len) }
{
    pdus::pdu_header::options::laws::spelled_options_read_back();
    pdus::pdu_header::options::laws::reasons_stand_in_reports();
    let Ok(to) = Address::from_bytes(&[0x47, 0x00, 0x27, 0x01]) else {
        return None;
    };
    let Ok(from) = Address::from_bytes(&[0x47, 0x00, 0x27, 0x02]) else {
        return None;
    };
    Some(Parts {
        kind: Kind::Dt,
        life: 10,
        report: true,
        more: false,
        to,
        from,
        seg: None,
        options: OptionList::new(),
        sealed: true,
    })
}

#[test]
fn encodes_a_worked_pdu(rt: HostRuntime) {
    assert!(rt; is_encoded(rt.alloc()));
}

/// Whether the PDU of these parts is the frame.
fn is_encoded(alloc: Global) -> bool {
    let Some(parts) = plain() else {
        return false;
    };
    let mut out = Vec::new(alloc);
    encode(alloc, &parts, b"hi", &mut out).is_ok() && out.as_slice() == FRAME
}

/// A source route, a recording of route and a quality of service.
const OPTIONS: &[u8] =
    b"\xc8\x07\x00\x03\x04\x47\x00\x27\xff\xcb\x07\x00\x03\x00\x00\x00\x00\x00\xc3\x01\xc0";

/// The header of a frame with these options, its route advanced.
fn advanced(frame: &[u8]) -> Option<Header> {
    let Ok(pdu) = decode(frame) else {
        return None;
    };
    if pdu.options != OPTIONS {
        return None;
    }
    let mut header = Header::of(pdu.head);
    let target = header.route_target()?;
    if target.as_bytes() != b"\x47\x00\x27\xff".as_slice() {
        return None;
    }
    header.advance_route();
    Some(header)
}

/// A sealed header before and after a router's changes.
#[test]
fn changes_options(rt: HostRuntime) {
    let own = Address::from_text(b"47002701").expect(&rt, "a title");
    let Some(mut header) = advanced(BEFORE) else {
        panic!(rt; "no header")
    };
    assert!(rt; is_changed(&mut header, &own));
}

const BEFORE: &[u8] =
    b"\x81\x28\x01\x0a\x3c\x00\x2a\x09\x53\x04\x47\x00\x27\x01\x04\x47\x00\x27\x02\xc8\x07\x00\x03\x04\x47\x00\x27\xff\xcb\x07\x00\x03\x00\x00\x00\x00\x00\xc3\x01\xc0\x68\x69";

const AFTER: &[u8] =
    b"\x81\x28\x01\x0a\x3c\x00\x2a\x4f\x87\x04\x47\x00\x27\x01\x04\x47\x00\x27\x02\xc8\x07\x00\x08\x04\x47\x00\x27\xff\xcb\x07\x00\x08\x04\x47\x00\x27\x01\xc3\x01\xc8";

/// Whether a header has no target left and no complete route, and is the one after the changes when a title is recorded
/// and congestion marked.
fn is_changed(header: &mut Header, own: &Address) -> bool {
    if header.route_target().is_some() || header.is_route_complete() {
        return false;
    }
    header.record_title(own);
    header.mark_congestion();
    header.as_bytes() == AFTER
}
