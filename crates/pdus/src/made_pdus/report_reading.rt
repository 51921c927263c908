//! Error reports read.
ghost use Rattle.std.specs.Prelude.{◌≡◌, ◌↔◌, ◌∷◌, [], All, Contains, IfOk, IsOk, Some, true};
ghost use Rattle.pdus.specs.ClnpOptions.Edits.{value_of};
ghost use Rattle.pdus.specs.ClnpOptions.Grammar.{FitsKind, HasForm};
ghost use Rattle.pdus.specs.ClnpOptions.Parameter.{parameters, reason};
ghost use Rattle.pdus.specs.PduHeader.Grammar.{IsPdu};
ghost use Rattle.pdus.specs.PduHeader.View.{pdu_value};
ghost use Rattle.pdus.specs.MadePdus.Report.{reason_option};
ghost use Rattle.pdus.specs.MadePdus.Told.{Tells, cause_in, place_in};

use crate::pdu_header::options::first_option;
use crate::pdu_header::{Kind, Pdu};

/// The code of the reason for discard (ISO 8473, section 7.9.5).
const REASON: u8 = 0xc1;

/// What an error report tells.
#[derive(Clone, Copy, PartialEq, Eq)]
pub struct Told<'a> {
    /// The reason for discard (ISO 8473, section 7.9.5).
    pub reason: u8,
    /// The place of the octet at fault, from 1 in the discarded header; 0 is no place.
    pub place: u8,
    /// The report's data: the discarded header.
    pub header: &'a [u8],
}

/// A PDU that is no error report.
#[derive(Clone, Copy)]
pub struct NotReport;

/// What a PDU, as `decode` finds it, tells of a discard (ISO 8473, section 7.9).
///
/// # Errors
///
/// `NotReport` exactly where the PDU is of another kind than error report.
pub fn read<'a>(pdu: &Pdu<'a>) -> Result<Told<'a>, NotReport>
    requires { IsPdu (pdu_value pdu.now) }
    ensures kind { IsOk result ↔ (pdu.now.kind ≡ Kind.Er) }
    ensures told { IfOk result (λ told. Tells (pdu_value pdu.now) told.reason told.place told.header.now) }
    ensures reason { IfOk result (λ told. told.reason ≡ cause_in (parameters pdu.now.options.now)) }
    ensures place { IfOk result (λ told. told.place ≡ place_in (parameters pdu.now.options.now)) }
{
    let Kind::Er = pdu.kind else {
        return Err(NotReport);
    };
    let (reason, place) = reason_in(pdu.options);
    Ok(Told {
        reason,
        place,
        header: pdu.body,
    })
}

/// The reason for discard among options, and its place.
fn reason_in(options: &[u8]) -> (u8, u8)
    requires formed { All HasForm (parameters options.now) }
    requires reason { FitsKind true (parameters options.now) }
    ensures octets { value_of reason (parameters options.now) ≡ Some (result.0 ∷ result.1 ∷ []) }
    ensures stands { Contains (parameters options.now) (reason_option result.0 result.1) }
{
    let mut rest = options;
    while let Some((code, value, others)) = first_option(rest) {
        if code == REASON {
            return (value[0], value[1]);
        }
        rest = others;
    }
    unreachable!()
}
