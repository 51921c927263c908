//! Files of other kinds, known by their first octets.
use crate::saying::{Piece, Saying};

/// A kind of files.
struct Kind {
    /// The first octets.
    front: &'static [u8],
    said: &'static [Piece],
}

const PCAP: &[Piece] = &[Piece::Text(
    "the input is a pcap file and no text; clnp pcap-show reads it",
)];

const UTF_16: &[Piece] = &[Piece::Text(
    "the input is a text of UTF-16; one octet a character is wanted",
)];

const KINDS: &[Kind] = &[
    Kind {
        front: &[0x0a, 0x0d, 0x0d, 0x0a],
        said: &[Piece::Text(
            "the input is a pcapng file; a pcap file is made of it by editcap -F pcap IN OUT, or by tshark -F pcap -r IN -w OUT",
        )],
    },
    Kind {
        front: &[0xa1, 0xb2, 0xc3, 0xd4],
        said: PCAP,
    },
    Kind {
        front: &[0xd4, 0xc3, 0xb2, 0xa1],
        said: PCAP,
    },
    Kind {
        front: &[0xa1, 0xb2, 0x3c, 0x4d],
        said: PCAP,
    },
    Kind {
        front: &[0x4d, 0x3c, 0xb2, 0xa1],
        said: PCAP,
    },
    Kind {
        front: &[0x1f, 0x8b],
        said: &[Piece::Text("the input is a file that gzip made; gzip -d reads it")],
    },
    Kind {
        front: &[0xff, 0xfe],
        said: UTF_16,
    },
    Kind {
        front: &[0xfe, 0xff],
        said: UTF_16,
    },
];

/// What is said of a file of another kind, if a text begins as one does.
pub(crate) fn of_file(text: &[u8]) -> Option<Saying> {
    for kind in KINDS {
        if text.starts_with(kind.front) {
            return Some(Saying::of(kind.said));
        }
    }
    None
}
