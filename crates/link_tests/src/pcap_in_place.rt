//! Records read where they stand.
use crate::pcap_told::tell_record;
use frame_links::pcap_frames::base::{NoMemory, push, push_unhex};
use frame_links::pcap_frames::{HEADER, first_record, judge_header};
use std::alloc::Global;

/// Appends what the record behind a file's header tells.
fn tell_first(file: &[u8], out: &mut Vec<u8>) -> Result<(), NoMemory> {
    if file.len() < HEADER {
        return push(b"cut", out);
    }
    let (header, rest) = file.split_at(HEADER);
    let Ok(order) = judge_header(header) else {
        return push(b"fault", out);
    };
    match first_record(order, rest) {
        Some(record) => tell_record(&record, out),
        None => push(b"none", out),
    }
}

/// Whether what a file's header and the record behind it tell is this; it is given in hexadecimal digits.
fn is_first(alloc: Global, digits: &[u8], want: &[u8]) -> bool {
    let mut file = Vec::new(alloc);
    let mut out = Vec::new(alloc);
    push_unhex(digits, &mut file).is_ok()
        && tell_first(&file, &mut out).is_ok()
        && out.as_slice() == want
}

#[test]
fn reads_a_record_where_it_stands(rt: HostRuntime) {
    let whole = b"4d3cb2a102000400070000000900000003000000010000f0\
        98badcfeffc99a3b140000003c00000009002b0000050a00000000010004fefe0382000001";
    let want = b"4275878552 999999999 60 20 09002b000005-0a0000000001-82; ".as_slice();
    assert!(rt; is_first(rt.alloc(), whole, want));
    let cut = b"4d3cb2a102000400070000000900000003000000010000f0\
        98badcfeffc99a3b140000003c00000009002b0000050a00000000010004fefe038200";
    assert!(rt; is_first(rt.alloc(), cut, b"none"));
}
