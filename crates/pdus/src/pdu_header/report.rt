//! Whether the discard of a frame is reported, and to whom.
ghost use Rattle.pdus.specs.Nsap.Address.{IsAddress};
ghost use Rattle.pdus.specs.PduHeader.Reading.{address_at};
ghost use Rattle.pdus.specs.PduHeader.Rules as pdu_rules;
ghost use Rattle.pdus.specs.PduHeader.Rules.{header_size, is_reportable, is_reportable_header, source_place, type_of};
ghost use Rattle.std.specs.Prelude.{◌≡◌, ◌==◌, ◌≤◌, IfSome, is_some, length};

use crate::pdu_header::decoder::{header_of, is_clnp, kind_of, read_addresses, wants_report};
use crate::pdu_header::kind::Kind;
use crate::pdu_header::pdu::ReportTo;

/// Where an error report of the frame's discard goes (section 6.10): the frame begins with 0x81 and
/// with a whole header in which both addresses lie, which wants a report and is none itself. Version
/// and checksum don't matter.
pub fn reportable(frame: &[u8]) -> Option<ReportTo>
    ensures some { is_some result ≡ is_reportable frame.now }
    ensures from { IfSome result (λ report. report.from
        ≡ address_at (pdu_rules.header_of frame.now) (source_place (pdu_rules.header_of frame.now))) }
    ensures address { IfSome result (λ report. IsAddress report.from) }
    ensures head_len { IfSome result (λ report. report.head_len ≡ header_size frame.now) }
    ensures head { IfSome result (λ report. report.head_len ≡ length (pdu_rules.header_of frame.now)) }
{
    if !is_clnp(frame) {
        return None;
    }
    let Ok((head, _)) = header_of(frame) else {
        return None;
    };
    reportable_header(head)
}

/// Where an error report of the discard of a frame goes that begins with 0x81 and this whole header.
#[tactic(auto, unfolding(crate::specs::PduHeader::Rules::addresses_refusal))]
pub(crate) fn reportable_header(head: &[u8]) -> Option<ReportTo>
    requires at_least { 9 ≤ length head.now }
    requires at_most { length head.now ≤ 254 }
    ensures some { is_some result ≡ is_reportable_header head.now }
    ensures from { IfSome result (λ report. report.from ≡ address_at head.now (source_place head.now)) }
    ensures address { IfSome result (λ report. IsAddress report.from) }
    ensures head_len { IfSome result (λ report. report.head_len ≡ length head.now) }
{
    if !wants_report(head) || is_error_report(head) {
        return None;
    }
    match read_addresses(head) {
        Ok(addresses) => Some(ReportTo {
            from: addresses.from,
            head_len: head.len() as u8,
        }),
        Err(_) => None,
    }
}

/// Whether the header's type is that of an error report.
fn is_error_report(head: &[u8]) -> bool
    requires { 9 ≤ length head.now }
    ensures { result ≡ (type_of head.now == 1) }
{
    matches!(kind_of(head), Some(Kind::Er))
}
