use pdus::pdu_header::nsaps::{Address, NsapFault, Prefix, Snpa};
use std::alloc::Global;

const TWENTY: &[u8] = b"0102030405060708090a0b0c0d0e0f1011121314";

/// Whether an address and a subnetwork address of this text have these octets.
fn is_read(text: &[u8], octets: &[u8]) -> bool {
    match (Address::from_text(text), Snpa::from_text(text)) {
        (Ok(address), Ok(snpa)) => address.as_bytes() == octets && snpa.as_bytes() == octets,
        _ => false,
    }
}

const READ: [(&str, &[u8]); 5] = [
    ("47002702", b"\x47\x00\x27\x02"),
    ("47.0027.02", b"\x47\x00\x27\x02"),
    (".47..002702.", b"\x47\x00\x27\x02"),
    ("4.7002702", b"\x47\x00\x27\x02"),
    ("aBCdeF", b"\xab\xcd\xef"),
];

#[test]
fn reads_texts(rt: HostRuntime) {
    for (text, octets) in &READ {
        assert!(rt; is_read(text.as_bytes(), octets), "at {text}");
    }
}

#[test]
fn reads_twenty_octets(rt: HostRuntime) {
    assert!(rt; are_twenty(TWENTY));
}

/// Whether an address of this text has twenty octets, and is the address of these.
fn are_twenty(text: &[u8]) -> bool {
    match Address::from_text(text) {
        Ok(address) => {
            address.as_bytes().len() == 20 && Address::from_bytes(address.as_bytes()) == Ok(address)
        }
        Err(_) => false,
    }
}

/// Whether an address and a subnetwork address of this text are refused with this fault.
fn is_refused(text: &[u8], fault: NsapFault) -> bool {
    Address::from_text(text) == Err(fault) && Snpa::from_text(text) == Err(fault)
}

const OF_WRONG_LENGTHS: [&str; 5] = [
    "",
    "...",
    "470",
    "4.7.0",
    "0102030405060708090a0b0c0d0e0f101112131415",
];

#[test]
fn refuses_lengths(rt: HostRuntime) {
    for text in &OF_WRONG_LENGTHS {
        assert!(rt; is_refused(text.as_bytes(), NsapFault::Length), "at {text}");
    }
}

/// Texts of which the octet at a place is no digit.
const OF_WRONG_DIGITS: [(&str, NsapFault); 5] = [
    (
        "0102030405060708090a0b0c0d0e0f1011121314g",
        NsapFault::BadDigit { place: 40 },
    ),
    ("g", NsapFault::BadDigit { place: 0 }),
    ("47.0:27", NsapFault::BadDigit { place: 4 }),
    ("47 00", NsapFault::BadDigit { place: 2 }),
    ("4g:", NsapFault::BadDigit { place: 1 }),
];

#[test]
fn refuses_digits(rt: HostRuntime) {
    for (text, fault) in &OF_WRONG_DIGITS {
        assert!(rt; is_refused(text.as_bytes(), *fault), "at {text}");
    }
}

#[test]
fn writes_texts(rt: HostRuntime) {
    let address = Address::from_text(b"47.00.FF").expect(&rt, "an address");
    let snpa = Snpa::from_bytes(&[0x02, 0xab]).expect(&rt, "a subnetwork address");
    assert!(rt; are_written(rt.alloc(), &address, &snpa));
}

/// Whether these are written, one behind the other.
fn are_written(alloc: Global, address: &Address, snpa: &Snpa) -> bool {
    let mut out = Vec::new(alloc);
    address.push_text(alloc, &mut out).is_ok()
        && snpa.push_text(alloc, &mut out).is_ok()
        && out.as_slice() == b"4700ff02ab".as_slice()
}

#[test]
fn reads_prefixes(rt: HostRuntime) {
    assert!(rt; are_ordered());
}

/// Whether a prefix of three digits is read, and one of none, which is before it.
fn are_ordered() -> bool {
    match (Prefix::from_text(b"4.a0"), Prefix::from_text(b"*")) {
        (Ok(prefix), Ok(all)) => prefix.len() == 3 && prefix.digit(1) == 10 && all < prefix,
        _ => false,
    }
}

/// Whether a prefix of this text is written so.
fn is_written(alloc: Global, text: &[u8], want: &[u8]) -> bool {
    let Ok(prefix) = Prefix::from_text(text) else {
        return false;
    };
    let mut out = Vec::new(alloc);
    prefix.push_text(&mut out).is_ok() && out.as_slice() == want
}

const WRITTEN: [(&str, &str); 4] = [
    ("4.A0f", "4a0f"),
    ("47002702", "47002702"),
    ("*", "*"),
    (".", "*"),
];

#[test]
fn writes_prefixes(rt: HostRuntime) {
    for (text, want) in &WRITTEN {
        assert!(rt;
            is_written(rt.alloc(), text.as_bytes(), want.as_bytes()),
            "at {text}"
        );
    }
}

#[test]
fn refuses_prefixes(rt: HostRuntime) {
    assert!(rt;
        Prefix::from_text(&[b'0'; 41]) == Err(NsapFault::TooManyDigits)
            && Prefix::from_text(b"47*") == Err(NsapFault::BadDigit { place: 2 })
    );
}

/// Whether an address has eight digits, and a prefix is the first three of them and covers it.
fn is_prefix_of(address: &Address, prefix: &Prefix) -> bool {
    let digits = Prefix::of_address(address);
    digits.len() == 8 && *prefix == digits.first(3) && prefix.covers(address)
}

/// Whether the digits of an address are a prefix that doesn't cover an address of these octets.
fn is_beside(address: &Address, octets: &[u8]) -> bool {
    match Address::from_bytes(octets) {
        Ok(other) => !Prefix::of_address(address).covers(&other),
        Err(_) => false,
    }
}

#[test]
fn compares_prefixes_and_addresses(rt: HostRuntime) {
    let address = Address::from_text(b"4A002701").expect(&rt, "an address");
    let prefix = Prefix::from_text(b"4.a0").expect(&rt, "a prefix");
    assert!(rt; is_prefix_of(&address, &prefix) && is_beside(&address, &[0x4a]));
}
