//! Headers written part by part.
ghost use Rattle.pdus.specs.EsisPdus.Kinds.{code_of};
ghost use Rattle.pdus.specs.EsisPdus.Spelling.{fixed_part};
ghost use Rattle.pdus.specs.PduHeader.Parts.{checked};
ghost use Rattle.std.specs.List.{slice_set};
ghost use Rattle.std.specs.Prelude.{◌≡◌, ◌≤◌, length};

use crate::esis_pdus::kind::{Kind, type_of};
use crate::pdu_header::base::InlineOctets;
use crate::pdu_header::views::Head;
use byteorder::{BigEndian, ByteOrder};

/// The network layer protocol identifier of ISO 9542 (section 7.2).
const PROTOCOL: u8 = 0x82;

/// The version of the protocol (section 7.2).
const VERSION: u8 = 1;

/// The most octets of a header (section 7.2).
pub(crate) const MOST: usize = 254;

/// A header's fixed part, with a length of 0 and a checksum that isn't in use (section 7.2).
pub(crate) fn begun(kind: Kind, hold: u16) -> InlineOctets<MOST>
    ensures { result ≡ fixed_part 0 (code_of kind) hold }
{
    let mut seconds = [0; 2];
    BigEndian::write_u16(&mut seconds, hold);
    InlineOctets::of(&[
        PROTOCOL,
        0,
        VERSION,
        0,
        type_of(kind),
        seconds[0],
        seconds[1],
        0,
        0,
    ])
}

/// The header with its length, and with a checksum where it is to have one.
pub(crate) fn finished(plain: &InlineOctets<MOST>, sealed: bool) -> Head
    requires { 9 ≤ length plain.now }
    ensures { result ≡ checked sealed (slice_set plain.now 1 (length plain.now)) }
{
    let octets = plain.as_bytes();
    let mut cells = [0; MOST];
    let head = &mut cells[..octets.len()];
    head.copy_from_slice(octets);
    head[1] = octets.len() as u8;
    if sealed {
        crate::pdu_header::checksums::seal(head);
    }
    Head::of(head)
}
