//! What data units are for.
ghost use Rattle.std.specs.Prelude.{◌≡◌};
ghost use Rattle.clnp_machine.specs.ClnpOptions.Parameter.{parameters};
ghost use Rattle.clnp_machine.specs.PduHeader.Grammar.{IsPdu};
ghost use Rattle.clnp_machine.specs.PduHeader.View.{pdu_value};
ghost use Rattle.clnp_systems.specs.Receipt.{purpose_of};

use clnp_machine::clnp::{Kind, Pdu};
use clnp_machine::reports::read;

/// What a unit is for, once it is whole.
#[derive(Clone, Copy)]
pub(crate) enum Purpose {
    /// Its data are handed up.
    Data,
    /// It tells why a PDU was discarded, and the place of the octet at fault (ISO/IEC 8473, section 7.9.5).
    Report { reason: u8, place: u8 },
    /// It is to be answered (RFC 1575).
    Request,
    /// It answers a request (RFC 1575).
    Reply,
}

/// What the unit of a PDU is for, where this PDU makes it whole.
pub(crate) fn purpose_in(pdu: &Pdu<'_>) -> Purpose
    requires { IsPdu (pdu_value pdu.now) }
    ensures { result ≡ purpose_of pdu.now.kind (parameters pdu.now.options.now) }
{
    match pdu.kind {
        Kind::Dt => Purpose::Data,
        Kind::Er => {
            let Ok(told) = read(pdu) else { unreachable!() };
            Purpose::Report {
                reason: told.reason,
                place: told.place,
            }
        }
        Kind::Erq => Purpose::Request,
        Kind::Erp => Purpose::Reply,
    }
}
