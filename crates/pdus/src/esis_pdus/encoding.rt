//! PDUs written again.
ghost use Rattle.pdus.specs.EsisPdus.Spelling.{body_octets, fixed_part, spelling, type_code};
ghost use Rattle.pdus.specs.EsisPdus.Grammar.{Spells};
ghost use Rattle.pdus.specs.EsisPdus.View.{IsWritable, pdu_value};
ghost use Rattle.std.specs.Prelude.{◌≡◌, ◌+◌, ◌≤◌, ◌++◌, OnErr, OnOk, length};

use crate::esis_pdus::hello::push_title;
use crate::esis_pdus::kind::Kind;
use crate::esis_pdus::pdu::{EsisBody, EsisPdu};
use crate::esis_pdus::write::{MOST, begun, finished};
use crate::pdu_header::base::{InlineOctets, NoMemory};
use std::alloc::Global;

/// Appends a PDU again, without what follows it in its frame (ISO 9542, section 7). Its checksum is made
/// anew, or left out where it has none.
///
/// # Errors
///
/// `NoMemory`; `out` is then as it was.
pub fn encode(_alloc: Global, pdu: &EsisPdu<'_>, out: &mut Vec<u8>) -> Result<(), NoMemory>
    requires { IsWritable pdu.now }
    ensures written { OnOk result (out.new.items ≡ out.old.items ++ spelling (pdu_value pdu.now)) }
    ensures spells { OnOk result (Spells (pdu_value pdu.now) (spelling (pdu_value pdu.now))) }
    ensures same { OnErr result (out.new.items ≡ out.old.items) }
{
    let mut plain = begun_with(&pdu.body, pdu.hold);
    plain.push(pdu.options);
    let head = finished(&plain, pdu.sum != 0);
    out.extend_from_slice(head.as_bytes()).map_err(|_| NoMemory)
}

/// The fixed part and the address parts of a header, with a length of 0 and a checksum that isn't in use.
fn begun_with(body: &EsisBody<'_>, hold: u16) -> InlineOctets<MOST>
    requires { 9 + length (body_octets body.now) ≤ 254 }
    ensures { result ≡ fixed_part 0 (type_code body.now) hold ++ body_octets body.now }
{
    match body {
        EsisBody::Esh { addresses } => {
            let (count, octets) = addresses.parts();
            let mut plain = begun(Kind::EndSystemHello, hold);
            plain.push(&[count]);
            plain.push(octets);
            plain
        }
        EsisBody::Ish { title } => {
            let mut plain = begun(Kind::IntermediateSystemHello, hold);
            plain.push_counted(title.as_bytes());
            plain
        }
        EsisBody::Rd { to, via, title } => {
            let mut plain = begun(Kind::Redirect, hold);
            plain.push_counted(to.as_bytes());
            plain.push_counted(via.as_bytes());
            push_title(&mut plain, title.as_ref());
            plain
        }
    }
}
