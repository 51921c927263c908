//! Calls on link words.
use frame_links::udp_links::nsaps::Snpa;
use frame_links::udp_links::words::{End, LinkEnds, Peer, Role, is_link_word};
use std::process::Abort;

/// A word of an end, a host and a router.
const WORD: &[u8] = b"udp:10.0.255.1:258,h1.2.3.4:5,r6.7.8.9:65535";

const PEERS: [Peer; 2] = [
    Peer {
        role: Role::EndSystem,
        end: End {
            address: [1, 2, 3, 4],
            port: 5,
        },
    },
    Peer {
        role: Role::IntermediateSystem,
        end: End {
            address: [6, 7, 8, 9],
            port: 65_535,
        },
    },
];

/// Whether an end has this SNPA, and is the end at it.
fn is_end_of(end: End, octets: &[u8]) -> bool {
    let snpa = end.snpa();
    snpa.as_bytes() == octets && End::at(&snpa) == Some(end)
}

#[test]
fn a_word_names_its_ends(rt: HostRuntime) {
    let ends = LinkEnds::of_word(WORD).expect(&rt, "a link word");
    assert!(rt; is_end_of(ends.local(), &[10, 0, 255, 1, 1, 2]));
    assert!(rt; ends.peers() == PEERS.as_slice());
}

const LINK_WORDS: [&[u8]; 3] = [
    b"udp:0.0.0.0:1",
    b"udp:255.255.255.255:65535",
    b"udp:127.0.0.1:4700,r127.0.0.1:4701,r127.0.0.1:4701",
];

#[test]
fn words_that_are_link_words(rt: HostRuntime) {
    for word in &LINK_WORDS {
        assert!(rt; is_link_word(word));
    }
}

const OTHER_WORDS: [&[u8]; 22] = [
    b"",
    b"udp",
    b"udp:",
    b"udp:1.2.3.4",
    b"udp:1.2.3.4:",
    b"udp:1.2.3.4:0",
    b"udp:1.2.3.4:65536",
    b"udp:1.2.3.4:+1",
    b"udp:1.2.3.4:01",
    b"udp:1.2.3.4:1:2",
    b"udp:1.2.3.4:1 ",
    b"udp:256.2.3.4:1",
    b"udp:1.2.3.04:1",
    b"udp:1.2.3:1",
    b"udp:1.2.3.4.5:1",
    b"udp:1..3.4:1",
    b"UDP:1.2.3.4:1",
    b"tcp:1.2.3.4:1",
    b"1.2.3.4:1",
    b"udp:1.2.3.4:1,",
    b"udp:1.2.3.4:1,1.2.3.4:2",
    b"udp:1.2.3.4:1,s1.2.3.4:2",
];

#[test]
fn words_that_are_none(rt: HostRuntime) {
    for word in &OTHER_WORDS {
        assert!(rt; !is_link_word(word));
    }
}

/// Whether a word is a link word with a peer more.
fn may_have_another(word: &mut Vec<u8>) -> bool {
    word.extend_from_slice(b",h1.2.3.4:2").is_ok() && is_link_word(word)
}

#[test]
fn a_word_names_up_to_sixteen_peers(rt: HostRuntime) {
    let mut word = Vec::from_slice(rt.alloc(), b"udp:1.2.3.4:1").expect(&rt, "memory");
    for _ in 0..16u8 {
        assert!(rt; may_have_another(&mut word));
    }
    word.extend_from_slice(b",h1.2.3.4:2").expect(&rt, "memory");
    assert!(rt; !is_link_word(&word));
}

const OTHER_SNPAS: [&[u8]; 3] = [
    &[1, 2, 3, 4, 5],
    &[1, 2, 3, 4, 0, 0],
    &[1, 2, 3, 4, 0, 1, 2],
];

/// Whether octets are an SNPA that is of no end.
fn is_of_no_end(octets: &[u8]) -> bool {
    match Snpa::from_bytes(octets) {
        Ok(snpa) => End::at(&snpa).is_none(),
        Err(_) => false,
    }
}

#[test]
fn other_snpas_are_of_no_end(rt: HostRuntime) {
    for octets in &OTHER_SNPAS {
        assert!(rt; is_of_no_end(octets));
    }
}
