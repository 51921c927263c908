//! ES-IS frames as lines of text.

ghost use Rattle.std.specs.Prelude.{◌≡◌, ◌++◌, OnErr, OnOk, codes, option_map, ℕ, List};
ghost use Rattle.pdus.specs.EsisPdus.Spelling.{title_octets};
ghost use Rattle.pdus.specs.EsisPdus.View.{pdu_value};
ghost use Rattle.pdus.specs.Nsap.Text.{hex_text};
ghost use Rattle.captures.specs.Kept.{Keeps};
ghost use Rattle.captures.specs.EsisShown.{ShowsOther, addresses_text, body_text, esis_refusal_text, esis_text, esis_word};

use crate::words::{push_octets, push_options, push_pair};
use pdus::esis_pdus::base::{NoMemory, push, push_number};
use pdus::esis_pdus::nsaps::Address;
use pdus::esis_pdus::{AddressList, EsisBody, EsisPdu, EsisRefusal, decode};

/// Appends the text of a frame that doesn't begin with 0x81.
pub(crate) fn push_other(frame: &[u8], line: &mut Vec<u8>) -> Result<(), NoMemory>
    ensures written { OnOk result ((text : List ℕ) × ShowsOther frame.now text × (line.new.items ≡ line.old.items ++ text)) }
    ensures kept { OnErr result (Keeps line.old.items line.new.items) }
{
    match decode(frame) {
        Ok(pdu) => push_esis(pdu, line),
        Err(refusal) => push_refusal(refusal, line),
    }
}

/// Appends the text of a frame that is no ES-IS PDU.
fn push_refusal(refusal: EsisRefusal, line: &mut Vec<u8>) -> Result<(), NoMemory>
    ensures written { OnOk result (line.new.items ≡ line.old.items ++ esis_refusal_text refusal) }
    ensures kept { OnErr result (Keeps line.old.items line.new.items) }
{
    match refusal {
        EsisRefusal::NotEsis => push(b"alien", line),
        EsisRefusal::Broken { rule, place } => {
            push_number(b"refused E", u64::from(rule), line)?;
            push_octets(b" ", &[place], line)
        }
    }
}

/// Appends the text of an ES-IS PDU and of what follows it in its frame.
fn push_esis(pdu: EsisPdu<'_>, line: &mut Vec<u8>) -> Result<(), NoMemory>
    ensures written { OnOk result (line.new.items ≡ line.old.items
        ++ esis_text (pdu_value pdu.entry) pdu.entry.sum pdu.entry.rest.now) }
    ensures kept { OnErr result (Keeps line.old.items line.new.items) }
{
    push(kind_text(&pdu.body), line)?;
    push_number(b" hold=", u64::from(pdu.hold), line)?;
    push_pair(b" sum=", pdu.sum, line)?;
    push_body(pdu.body, line)?;
    push_options(pdu.options, line)?;
    push_octets(b" rest=", pdu.rest, line)
}

/// The word of a kind of ES-IS PDU.
fn kind_text(body: &EsisBody<'_>) -> &'static [u8]
    ensures { result.now ≡ esis_word body.now }
{
    match body {
        EsisBody::Esh { .. } => b"esh",
        EsisBody::Ish { .. } => b"ish",
        EsisBody::Rd { .. } => b"rd",
    }
}

/// Appends the addresses of an ES-IS PDU.
#[tactic(auto, unfolding(crate::specs::EsisShown::body_text))]
fn push_body(body: EsisBody<'_>, line: &mut Vec<u8>) -> Result<(), NoMemory>
    ensures written { OnOk result (line.new.items ≡ line.old.items ++ body_text body.entry) }
    ensures kept { OnErr result (Keeps line.old.items line.new.items) }
{
    match body {
        EsisBody::Esh { addresses } => push_addresses(addresses, line),
        EsisBody::Ish { title } => push_octets(b" title=", title.as_bytes(), line),
        EsisBody::Rd { to, via, title } => {
            push_octets(b" to=", to.as_bytes(), line)?;
            push_octets(b" via=", via.as_bytes(), line)?;
            push_title(title, line)
        }
    }
}

/// Appends the title of a redirect, empty where there is none.
fn push_title(title: Option<Address>, line: &mut Vec<u8>) -> Result<(), NoMemory>
    ensures written { OnOk result (line.new.items ≡ line.old.items ++ (codes " title=" ++ hex_text (title_octets title))) }
    ensures kept { OnErr result (Keeps line.old.items line.new.items) }
{
    match title {
        Some(title) => push_octets(b" title=", title.as_bytes(), line),
        None => push_octets(b" title=", &[], line),
    }
}

/// Appends the addresses of an end system hello, in order.
#[tactic(auto, unfolding(crate::specs::EsisShown::addresses_text))]
fn push_addresses(addresses: AddressList<'_>, line: &mut Vec<u8>) -> Result<(), NoMemory>
    ensures written { OnOk result (line.new.items ≡ line.old.items ++ addresses_text addresses.entry) }
    ensures kept { OnErr result (Keeps line.old.items line.new.items) }
{
    for address in addresses {
        push_octets(b" addr=", address.as_bytes(), line)?;
    }
    Ok(())
}
