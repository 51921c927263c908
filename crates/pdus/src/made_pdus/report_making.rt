//! Error reports made.
ghost use Rattle.std.specs.Prelude.{◌≡◌, ◌≤◌, ◌++◌, ◌∷◌, [], ℕ, IfSome, List, None, is_some, length, take, true};
ghost use Rattle.pdus.specs.ClnpOptions.Grammar.{FitsKind};
ghost use Rattle.pdus.specs.ClnpOptions.Parameter.{parameters, spelled};
ghost use Rattle.pdus.specs.ClnpViews.Extent.{seen};
ghost use Rattle.pdus.specs.PduHeader.Grammar.{Spells};
ghost use Rattle.pdus.specs.PduHeader.Headers.{SpellsHeader};
ghost use Rattle.pdus.specs.PduHeader.Parts.{AreFit, parts_length, parts_value};
ghost use Rattle.pdus.specs.PduHeader.Rules.{header_of, is_reportable, refusal};
ghost use Rattle.pdus.specs.MadePdus.Report.{reason_option, report_of, source_of};

use crate::pdu_header::nsaps::Address;
use crate::pdu_header::options::{OptionList, OptionRef};
use crate::pdu_header::views::View;
use crate::pdu_header::{Header, Kind, Parts, ReportTo, reportable};

/// The error report of a frame's discard.
#[derive(Clone, Copy)]
pub struct MadeReport {
    /// Its destination: the discarded PDU's source.
    pub to: Address,
    /// Its header.
    pub head: Header,
    /// How many of the frame's first octets, those of the discarded PDU's header, are its data.
    pub body_len: u8,
}

/// The error report of a frame's discard, for a reason and with the place in the frame's header of the octet at fault,
/// 0 for no place (ISO 8473, sections 6.10 and 7.9). It comes from the address `own`, with a lifetime in ticks of
/// 500 ms, and with a checksum where it is `sealed`.
///
/// None exactly where the frame's discard isn't reported: see [`reportable`](crate::pdu_header::reportable).
pub fn report(
    frame: &[u8],
    own: &Address,
    reason: u8,
    place: u8,
    life: u8,
    sealed: bool,
) -> Option<MadeReport>
    ensures some { is_some result ≡ is_reportable frame.now }
    ensures to { IfSome result (λ made. made.to ≡ source_of frame.now) }
    ensures head { IfSome result
        (λ made. SpellsHeader (report_of frame.now own.now reason place life sealed) made.head) }
    ensures data { IfSome result (λ made. take made.body_len frame.now ≡ header_of frame.now) }
    ensures len { IfSome result (λ made. made.body_len ≡ length (header_of frame.now)) }
    ensures spells { IfSome result
        (λ made. Spells (report_of frame.now own.now reason place life sealed)
        (made.head ++ take made.body_len frame.now)) }
    ensures accepted { IfSome result (λ made. refusal (made.head ++ take made.body_len frame.now) ≡ None) }
{
    // Addresses have at most 20 octets, so the header isn't too long.
    prove!(own.as_bytes().len() <= 20);
    let ReportTo { from, head_len } = reportable(frame)?;
    let parts = Parts {
        kind: Kind::Er,
        life,
        report: false,
        more: false,
        to: from,
        from: *own,
        seg: None,
        options: reason_alone(reason, place),
        sealed,
    };
    Some(MadeReport {
        to: from,
        head: header(&parts, head_len),
        body_len: head_len,
    })
}

/// The same of a frame that is in view.
pub fn report_in(
    frame: &View,
    own: &Address,
    reason: u8,
    place: u8,
    life: u8,
    sealed: bool,
) -> Option<MadeReport>
    ensures some { is_some result ≡ is_reportable (seen frame.now) }
    ensures to { IfSome result (λ made. made.to ≡ source_of (seen frame.now)) }
    ensures head { IfSome result
        (λ made. SpellsHeader (report_of (seen frame.now) own.now reason place life sealed) made.head) }
    ensures data { IfSome result (λ made. take made.body_len (seen frame.now) ≡ header_of (seen frame.now)) }
    ensures len { IfSome result (λ made. made.body_len ≡ length (header_of (seen frame.now))) }
    ensures within { IfSome result (λ made. made.body_len ≤ frame.now.len) }
    ensures spells { IfSome result
        (λ made. Spells (report_of (seen frame.now) own.now reason place life sealed)
        (made.head ++ take made.body_len (seen frame.now))) }
    ensures accepted { IfSome result (λ made. refusal (made.head ++ take made.body_len (seen frame.now)) ≡ None) }
{
    let first = frame.first_octets();
    let octets = first.as_bytes();
    // Read for its range: all that is seen has the view's length.
    let _len = frame.len();
    match report(octets, own, reason, place, life, sealed) {
        Some(made) => Some(made),
        None => None,
    }
}

/// The reason for discard as the one option (section 7.9.5).
fn reason_alone(code: u8, place: u8) -> OptionList
    ensures options { parameters result ≡ reason_option code place ∷ [] }
    ensures fits { FitsKind true (parameters result) }
    ensures size { length (spelled (parameters result)) ≡ 4 }
{
    // Their clauses: formed options break no rule of form, and what they spell reads back.
    crate::pdu_header::options::laws::formed_where_no_form_rule_is_broken();
    crate::pdu_header::options::laws::spelled_options_read_back();
    let mut options = OptionList::new();
    let Ok(()) = options.push(OptionRef::Reason { code, place }) else {
        unreachable!()
    };
    options
}

/// The header of a report with so many octets of data.
fn header(parts: &Parts, body_len: u8) -> Header
    requires fit { AreFit parts.now body_len }
    requires short { parts_length parts.now ≤ 254 }
    ensures spells { (body : List ℕ) → length body ≡ body_len → SpellsHeader (parts_value parts.now body) result }
    ensures accepted { (body : List ℕ) → length body ≡ body_len → refusal (result ++ body) ≡ None }
{
    let Ok(header) = Header::make(parts, usize::from(body_len)) else {
        unreachable!()
    };
    header
}
