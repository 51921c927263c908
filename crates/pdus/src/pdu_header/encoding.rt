//! PDUs made from their parts.
ghost use Rattle.std.specs.Prelude.{◌≡◌, ◌++◌, length, None, OnOk, OnErr, MatchResult};
ghost use Rattle.pdus.specs.PduHeader.Spelling.{spelling};
ghost use Rattle.pdus.specs.PduHeader.Grammar.{Spells};
ghost use Rattle.pdus.specs.PduHeader.Parts.{AreFit, parts_length, parts_value, too_long};
ghost use Rattle.pdus.specs.PduHeader.Encoding.{length_refused};

use crate::pdu_header::layout::{MOST_HEADER, MOST_TOTAL};
use crate::pdu_header::parts::Parts;
use crate::pdu_header::write::{header_len, written};
use std::alloc::Global;

/// Why no PDU can be made.
#[derive(Clone, Copy)]
pub enum EncodeRefusal {
    /// The header would have this number of octets, above 254 (ISO 8473, section 7.2.3).
    HeaderTooLong { octets: usize },
    /// Header and body would have this number of octets, above 65,535 (section 7.2.8).
    TotalTooLong { octets: usize },
    /// There is no memory for the octets.
    NoMemory,
}

/// Appends the PDU that is made from these parts and this body.
///
/// # Errors
///
/// HeaderTooLong exactly where the header passes 254 octets, else TotalTooLong exactly where header and
/// body pass 65,535; each with the number of octets. NoMemory for want of memory. `out` is then as it was.
pub fn encode(
    _alloc: Global,
    parts: &Parts,
    body: &[u8],
    out: &mut Vec<u8>,
) -> Result<(), EncodeRefusal>
    requires { AreFit parts.now (length body.now) }
    ensures written { OnOk result (out.new.items ≡ out.old.items ++ spelling (parts_value parts.now body.now)) }
    ensures spells { OnOk result (Spells (parts_value parts.now body.now) (spelling (parts_value parts.now body.now))) }
    ensures refused { MatchResult result (λ _. too_long (parts_length parts.now) (length body.now) ≡ None)
        (λ refusal. too_long (parts_length parts.now) (length body.now) ≡ length_refused refusal) }
    ensures same { OnErr result (out.new.items ≡ out.old.items) }
{
    let octets = header_len(parts);
    if octets > MOST_HEADER {
        return Err(EncodeRefusal::HeaderTooLong { octets });
    }
    let total = octets + body.len();
    if total > MOST_TOTAL {
        return Err(EncodeRefusal::TotalTooLong { octets: total });
    }
    let cells = written(parts, octets as u8, total as u16);
    let before = out.len();
    if out.extend_from_slice(cells.as_bytes()).is_err() {
        return Err(EncodeRefusal::NoMemory);
    }
    if out.extend_from_slice(body).is_err() {
        out.truncate(before);
        return Err(EncodeRefusal::NoMemory);
    }
    Ok(())
}
