//! The first line of a scenario text.
use crate::file::of_file;
use crate::place::{Place, VERSION_2};
use crate::saying::{Piece, Saying};
use scenario::base::same;

/// The header of a text of version 1.
const VERSION_1: &[u8] = b"clnp-sim 1";

const BYTE_ORDER_MARK: &[Piece] = &[Piece::Text(
    "octets before clnp-sim: a byte order mark (ef bb bf)",
)];

const BLANKS_AT_VERSION_1: &[Piece] = &[Piece::Text(
    "spaces or tabs before or behind clnp-sim 1, which stands alone in its line",
)];

const BLANKS_AT_VERSION_2: &[Piece] = &[Piece::Text(
    "spaces or tabs before or behind clnp-sim 2, which stands alone in its line",
)];

const IS_OF_VERSION_2: &[Piece] = &[Piece::Text(
    "the text is of version 2 already; wanted: a text of version 1",
)];

/// Which versions of scenario texts are read, and what is said of others.
pub(crate) struct Versions {
    has_version_2: bool,
    no_line: &'static [Piece],
    /// Of a header of version 2 that isn't one as it stands.
    at_version_2: &'static [Piece],
    other_line: &'static [Piece],
}

/// Texts of both versions.
pub(crate) const ALL: &Versions = &Versions {
    has_version_2: true,
    no_line: &[Piece::Text(
        "the text has no line but skipped ones; wanted: clnp-sim 1 or clnp-sim 2",
    )],
    at_version_2: BLANKS_AT_VERSION_2,
    other_line: &[
        Piece::Text("the line is "),
        Piece::Line,
        Piece::Text("; wanted: clnp-sim 1 or clnp-sim 2, as the first line that isn't skipped"),
    ],
};

/// Texts of version 1 alone.
pub(crate) const FIRST_ALONE: &Versions = &Versions {
    has_version_2: false,
    no_line: &[Piece::Text("the text has no line but skipped ones; wanted: clnp-sim 1")],
    at_version_2: IS_OF_VERSION_2,
    other_line: &[
        Piece::Text("the line is "),
        Piece::Line,
        Piece::Text("; wanted: clnp-sim 1, as the first line that isn't skipped"),
    ],
};

/// What is said of a line that isn't a header.
pub(crate) fn of_header(at: Place<'_>, versions: &'static Versions) -> Option<Saying> {
    if let Some(saying) = of_file(at.text) {
        return Some(saying);
    }
    let Some(line) = at.line() else {
        return Some(Saying::of(versions.no_line));
    };
    if line.starts_with(&[0xef, 0xbb, 0xbf]) {
        return Some(Saying::of(BYTE_ORDER_MARK));
    }
    if same(line, VERSION_1) || (versions.has_version_2 && same(line, VERSION_2)) {
        return None;
    }
    Some(Saying::of(of_other_line(line, versions)))
}

/// What is said of a line that is none of these headers.
fn of_other_line(line: &[u8], versions: &'static Versions) -> &'static [Piece] {
    let trimmed = without_blanks(line);
    if same(trimmed, VERSION_1) {
        BLANKS_AT_VERSION_1
    } else if same(trimmed, VERSION_2) {
        versions.at_version_2
    } else {
        versions.other_line
    }
}

/// A line without the spaces and tabs at its ends, and without carriage returns at its end.
fn without_blanks(line: &[u8]) -> &[u8] {
    let mut left = line;
    for _ in 0..line.len() {
        match left {
            [b' ' | b'\t', rest @ ..] | [rest @ .., b' ' | b'\t' | b'\r'] => left = rest,
            _ => break,
        }
    }
    left
}
