//! Texts of captured traffic: how many shares and frames one has, or its first bad line.

use clnp_program::fair_commands::base::lines;
use clnp_program::fair_commands::{Capture, CaptureRefusal, read};
use std::alloc::Global;
use std::process::Abort;

/// A text, and how many shares and frames it has.
struct Good(&'static [u8], usize, usize);

/// A text, its first bad line, and the code of what that breaks.
struct Bad(&'static [u8], u32, u8);

const GOOD: &[Good] = &[
    // A source with a share beside two without one, which share one buffer.
    Good(
        b"clnp-reassemble 1\nothers 1 4 512 10\nshare 47002702 1 4 512\nframes\n0 8119010adc001b00000447002701044700270300010000001d6869\n0 8119010adc001b00000447002701044700270400010000001d6869\n0 8119010adc001b00000447002701044700270200010000001d6869\n0 8119010a9c001b00000447002701044700270200010002001d6869\n10 8119010a9c001b00000447002701044700270300010002001d6869\nend\n",
        1,
        5,
    ),
    // The same without the frames of the two.
    Good(
        b"clnp-reassemble 1\nothers 1 4 512 10\nshare 47002702 1 4 512\nframes\n0 8119010adc001b00000447002701044700270200010000001d6869\n0 8119010a9c001b00000447002701044700270200010002001d6869\nend\n",
        1,
        2,
    ),
    // A unit that is whole by itself, and octets that are no PDU.
    Good(
        b"clnp-reassemble 1\nothers 1 4 512 10\nshare 47002702 1 4 512\nframes\n3 8113010a3c0015ce58044700270104470027026869\n3 82\nend\n",
        1,
        2,
    ),
    // A PDU whose lifetime is over, a segment that comes twice, and no frame more.
    Good(
        b"clnp-reassemble 1\nothers 1 4 512 10\nshare 47002702 1 4 512\nframes\n0 81190100dc001b00000447002701044700270200010000001d6869\n1 8119010adc001b00000447002701044700270200010000001d6869\n1 8119010adc001b00000447002701044700270200010000001d6869\nend\n",
        1,
        3,
    ),
    // Lines that are skipped, and no share and no frame.
    Good(
        b"# captured\n\nclnp-reassemble 1\n#\nothers 1 4 512 10\n\nframes\n# none\nend\n#\n",
        0,
        0,
    ),
];

const BAD: &[Bad] = &[
    // no header
    Bad(b"others 1 4 512 10\n", 1, 1),
    // nothing
    Bad(b"", 1, 1),
    // no `others`
    Bad(b"clnp-reassemble 1\nshare 47002702 1 4 512\n", 2, 2),
    // a second `others`
    Bad(
        b"clnp-reassemble 1\nothers 1 4 512 10\nothers 1 4 512 10\n",
        3,
        2,
    ),
    // a word too many
    Bad(b"clnp-reassemble 1\nothers 1 4 512 10 1\n", 2, 2),
    // no buffer
    Bad(b"clnp-reassemble 1\nothers 0 4 512 10\n", 2, 3),
    // a hold of 256
    Bad(b"clnp-reassemble 1\nothers 1 4 512 256\n", 2, 3),
    // no address
    Bad(
        b"clnp-reassemble 1\nothers 1 4 512 10\nshare 4 1 4 512\n",
        3,
        4,
    ),
    // an address again
    Bad(
        b"clnp-reassemble 1\nothers 1 4 512 10\nshare 47002702 1 4 512\nshare 47002702 1 4 512\n",
        4,
        7,
    ),
    // no `frames`
    Bad(
        b"clnp-reassemble 1\nothers 1 4 512 10\nshare 47002702 1 4 512\n",
        4,
        2,
    ),
    // `frames` with a word
    Bad(b"clnp-reassemble 1\nothers 1 4 512 10\nframes 1\n", 3, 2),
    // segments in sum, with those of others
    Bad(
        b"clnp-reassemble 1\nothers 1 16384 512 10\nshare 47002700 1 16384 512\nshare 47002701 1 16384 512\nshare 47002702 1 16384 512\nshare 47002703 1 16384 512\n",
        6,
        10,
    ),
    // octets in sum, with those of others
    Bad(
        b"clnp-reassemble 1\nothers 1 4 4194304 10\nshare 47002700 1 4 4194304\nshare 47002701 1 4 4194304\nshare 47002702 1 4 4194304\nshare 47002703 1 4 4194304\n",
        6,
        10,
    ),
    // a 65th share
    Bad(
        b"clnp-reassemble 1\nothers 1 4 512 10\nshare 47002700 1 4 512\nshare 47002701 1 4 512\nshare 47002702 1 4 512\nshare 47002703 1 4 512\nshare 47002704 1 4 512\nshare 47002705 1 4 512\nshare 47002706 1 4 512\nshare 47002707 1 4 512\nshare 47002708 1 4 512\nshare 47002709 1 4 512\nshare 4700270a 1 4 512\nshare 4700270b 1 4 512\nshare 4700270c 1 4 512\nshare 4700270d 1 4 512\nshare 4700270e 1 4 512\nshare 4700270f 1 4 512\nshare 47002710 1 4 512\nshare 47002711 1 4 512\nshare 47002712 1 4 512\nshare 47002713 1 4 512\nshare 47002714 1 4 512\nshare 47002715 1 4 512\nshare 47002716 1 4 512\nshare 47002717 1 4 512\nshare 47002718 1 4 512\nshare 47002719 1 4 512\nshare 4700271a 1 4 512\nshare 4700271b 1 4 512\nshare 4700271c 1 4 512\nshare 4700271d 1 4 512\nshare 4700271e 1 4 512\nshare 4700271f 1 4 512\nshare 47002720 1 4 512\nshare 47002721 1 4 512\nshare 47002722 1 4 512\nshare 47002723 1 4 512\nshare 47002724 1 4 512\nshare 47002725 1 4 512\nshare 47002726 1 4 512\nshare 47002727 1 4 512\nshare 47002728 1 4 512\nshare 47002729 1 4 512\nshare 4700272a 1 4 512\nshare 4700272b 1 4 512\nshare 4700272c 1 4 512\nshare 4700272d 1 4 512\nshare 4700272e 1 4 512\nshare 4700272f 1 4 512\nshare 47002730 1 4 512\nshare 47002731 1 4 512\nshare 47002732 1 4 512\nshare 47002733 1 4 512\nshare 47002734 1 4 512\nshare 47002735 1 4 512\nshare 47002736 1 4 512\nshare 47002737 1 4 512\nshare 47002738 1 4 512\nshare 47002739 1 4 512\nshare 4700273a 1 4 512\nshare 4700273b 1 4 512\nshare 4700273c 1 4 512\nshare 4700273d 1 4 512\nshare 4700273e 1 4 512\nshare 4700273f 1 4 512\nshare 47002740 1 4 512\n",
        67,
        10,
    ),
    // a moment that falls
    Bad(
        b"clnp-reassemble 1\nothers 1 4 512 10\nshare 47002702 1 4 512\nframes\n2 8113010a3c0015ce58044700270104470027026869\n1 8\nend\n",
        6,
        3,
    ),
    // a moment of 2^32
    Bad(
        b"clnp-reassemble 1\nothers 1 4 512 10\nshare 47002702 1 4 512\nframes\n4294967296 8113010a3c0015ce58044700270104470027026869\nend\n",
        5,
        3,
    ),
    // an odd digit
    Bad(
        b"clnp-reassemble 1\nothers 1 4 512 10\nshare 47002702 1 4 512\nframes\n1 8\nend\n",
        5,
        4,
    ),
    // `end` with a word
    Bad(
        b"clnp-reassemble 1\nothers 1 4 512 10\nframes\nend 82\n",
        4,
        2,
    ),
    // no `end`
    Bad(
        b"clnp-reassemble 1\nothers 1 4 512 10\nframes\n1 82\n",
        5,
        2,
    ),
    // a line behind `end`
    Bad(
        b"clnp-reassemble 1\nothers 1 4 512 10\nshare 47002702 1 4 512\nframes\nend\n1 82\n",
        6,
        2,
    ),
];

/// What a text says.
fn read_text(rt: &impl Abort, alloc: Global, text: &[u8]) -> Result<Capture, CaptureRefusal> {
    assert!(rt; text.len() < 1_000_000);
    let _lines = lines(text);
    read(alloc, text)
}

#[test]
fn texts_are_read(rt: HostRuntime) {
    for row in GOOD {
        let Ok(capture) = read_text(&rt, rt.alloc(), row.0) else {
            panic!(rt; "refused");
        };
        assert_eq!(rt; capture.shares.len(), row.1);
        assert_eq!(rt; capture.frames.len(), row.2);
    }
}

#[test]
fn bad_lines_are_told(rt: HostRuntime) {
    for row in BAD {
        let Err(refusal) = read_text(&rt, rt.alloc(), row.0) else {
            panic!(rt; "accepted");
        };
        let (line, code) = (row.1, row.2);
        assert_eq!(rt; refusal, CaptureRefusal::BadLine { line, code });
    }
}
