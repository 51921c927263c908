//! Parts whose changes are known from elsewhere. A header with two addresses of four octets and no segmentation part
//! has its options from place 20 on.

use pdus::pdu_header::options::{
    advance_route, check, is_route_complete, mark_congestion, record_title, route_target,
};

const TITLE: &[u8] = b"\x47\x00\x27\xff";

/// Whether a source route leads to the title, and is this and leads nowhere when that is reached.
fn is_followed(mut route: [u8; 9], after: &[u8; 9]) -> bool {
    if check(&route, 20, false).is_err() {
        return false;
    }
    let Some(title) = route_target(&route) else {
        return false;
    };
    if title != TITLE {
        return false;
    }
    advance_route(&mut route);
    route == *after && route_target(&route).is_none() && !is_route_complete(&route)
}

#[test]
fn follows_routes(rt: HostRuntime) {
    let route = *b"\xc8\x07\x00\x03\x04\x47\x00\x27\xff";
    assert!(rt; is_followed(route, b"\xc8\x07\x00\x08\x04\x47\x00\x27\xff"));
}

#[test]
fn knows_complete_routes(rt: HostRuntime) {
    let complete = b"\xc8\x02\x01\x03";
    assert!(rt; check(complete, 20, false).is_ok() && is_route_complete(complete));
}

/// Whether a recording of route is this when the title is recorded, and this when it is recorded again.
fn is_recorded(mut recording: [u8; 9], once: &[u8; 9], twice: &[u8; 9]) -> bool {
    if check(&recording, 20, false).is_err() {
        return false;
    }
    record_title(&mut recording, TITLE);
    if recording != *once {
        return false;
    }
    record_title(&mut recording, TITLE);
    recording == *twice
}

#[test]
fn records_routes(rt: HostRuntime) {
    let recording = *b"\xcb\x07\x00\x03\x00\x00\x00\x00\x00";
    assert!(rt;
        is_recorded(
            recording,
            b"\xcb\x07\x00\x08\x04\x47\x00\x27\xff",
            b"\xcb\x07\x00\xff\x04\x47\x00\x27\xff",
        )
    );
}

/// Whether a quality of service is this when congestion is marked.
fn is_marked(mut quality: [u8; 3], after: &[u8; 3]) -> bool {
    if check(&quality, 20, false).is_err() {
        return false;
    }
    mark_congestion(&mut quality);
    quality == *after
}

#[test]
fn marks_congestion(rt: HostRuntime) {
    assert!(rt; is_marked([0xc3, 0x01, 0xc0], &[0xc3, 0x01, 0xc8]));
    assert!(rt; is_marked([0xc3, 0x01, 0x80], &[0xc3, 0x01, 0x80]));
}
