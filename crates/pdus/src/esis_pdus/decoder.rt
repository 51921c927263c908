//! Frames read as ES-IS PDUs, by the rules E1 to E12.
ghost use Rattle.pdus.specs.ClnpOptions.Parameter.{parameters};
ghost use Rattle.pdus.specs.EsisPdus.Fields.{address_list, behind_address_list, field as field_octets, behind, is_address_list, is_field};
ghost use Rattle.pdus.specs.EsisPdus.Reading.{body_of, redirection, rest_of, value_of};
ghost use Rattle.pdus.specs.EsisPdus.Rules.{Gives, address_rules, first_broken, fixed_part_rules, frame_rules, is_ish, is_redirection, option_rules, options_part, options_place, refusal, why_refused};
ghost use Rattle.pdus.specs.EsisPdus.Rules as esis_rules;
ghost use Rattle.pdus.specs.EsisPdus.Timer.{place_of_wrong_timer, seconds_of};
ghost use Rattle.pdus.specs.EsisPdus.Value.{EsisValue, suggested};
ghost use Rattle.pdus.specs.EsisPdus.View.{IsWritable, pdu_value};
ghost use Rattle.pdus.specs.EsisPdus.Grammar.{BeginsWith};
ghost use Rattle.pdus.specs.EsisPdus.Kinds.{code_of};
ghost use Rattle.pdus.specs.Fletcher.Checksum.{octet};
ghost use Rattle.pdus.specs.PduHeader.Rules as pdu_rules;
ghost use Rattle.pdus.specs.PduHeader.Rules.{header_size};
ghost use Rattle.std.specs.Prelude.{◌≡◌, ◌+◌, ◌==◌, ◌≤◌, ℕ, List, IfOk, IfSome, OnErr, MatchOption, MatchResult, None, Some, false, length, option_map, true, if◌then◌else◌};

use crate::esis_pdus::addresses::AddressList;
use crate::esis_pdus::fields::field;
use crate::esis_pdus::hello::TIMER;
use crate::esis_pdus::kind::{Kind, kind_of};
use crate::esis_pdus::pdu::{EsisBody, EsisPdu, EsisRefusal};
use crate::pdu_header::nsaps::{Address, Snpa};
use crate::pdu_header::options::{first_option, place_of_unfit};
use byteorder::{BigEndian, ByteOrder};

/// The first octet: the network layer protocol identifier of ISO 9542 (section 7.2).
const PROTOCOL: u8 = 0x82;

/// The octets of the header's fixed part (ISO 9542, section 7.2).
const FIXED_PART: usize = 9;

/// The header length that is reserved.
const RESERVED_LENGTH: u8 = 255;

/// The version of the protocol (section 7.2).
const VERSION: u8 = 1;

/// A header's addresses, and the octets of its options.
struct Parts<'a> {
    body: EsisBody<'a>,
    options: &'a [u8],
}

/// The PDU at the front of a frame (ISO 9542, section 7). What follows it in the frame is its `rest`.
///
/// # Errors
///
/// `NotEsis` exactly where the frame is empty or its first octet isn't 0x82; else `Broken` exactly
/// where it breaks one of the rules E1 to E12 (see `docs/FORMATS.md`), by the least of them.
#[inline(always)]
pub fn decode(frame: &[u8]) -> Result<EsisPdu<'_>, EsisRefusal>
    ensures judged { MatchResult result (λ _. why_refused frame.now ≡ None) (λ refused. why_refused frame.now ≡ Some refused) }
    ensures found { IfOk result (λ pdu. BeginsWith frame.now (pdu_value pdu) pdu.rest.now) }
    ensures none { OnErr result ((value : EsisValue) (rest : List ℕ) → BeginsWith frame.now value rest → ⊥) }
    ensures writable { IfOk result IsWritable }
    ensures sum { IfOk result (λ pdu. pdu.sum ≡ pdu_rules.pair_at (pdu_rules.header_of frame.now) 8) }
    ensures options { IfOk result (λ pdu. pdu.options.now ≡ options_part (pdu_rules.header_of frame.now)) }
    ensures suggested { IfOk result (λ pdu. pdu.suggested ≡ suggested pdu.body (parameters pdu.options.now)) }
{
    if !is_esis(frame) {
        return Err(EsisRefusal::NotEsis);
    }
    read(frame)
}

/// Whether the frame begins with the identifier of this protocol.
fn is_esis(frame: &[u8]) -> bool
    ensures { result ≡ (octet frame.now 1 == 0x82) }
{
    matches!(frame, [PROTOCOL, ..])
}

/// The PDU at the front of a frame that begins with 0x82. Refuses by E1 to E12.
#[inline(always)]
#[tactic(auto, unfolding(crate::specs::EsisPdus::Rules::refusal, crate::specs::EsisPdus::Rules::header_refusal))]
fn read(frame: &[u8]) -> Result<EsisPdu<'_>, EsisRefusal>
    ensures judged { Gives result (refusal frame.now) }
    ensures value { IfOk result (λ pdu. pdu_value pdu ≡ value_of (pdu_rules.header_of frame.now)) }
    ensures rest { IfOk result (λ pdu. pdu.rest.now ≡ rest_of frame.now) }
    ensures sum { IfOk result (λ pdu. pdu.sum ≡ pdu_rules.pair_at (pdu_rules.header_of frame.now) 8) }
    ensures options { IfOk result (λ pdu. pdu.options.now ≡ options_part (pdu_rules.header_of frame.now)) }
    ensures suggested { IfOk result (λ pdu. pdu.suggested ≡ suggested pdu.body (parameters pdu.options.now)) }
{
    let (head, rest) = header_of(frame)?;
    let kind = check_fixed_part(head)?;
    let Parts { body, options } = match read_parts(head, kind) {
        Ok(parts) => parts,
        Err(refusal) => return Err(refusal),
    };
    let suggested = read_suggested(head, kind, options)?;
    Ok(EsisPdu {
        hold: pair_at(head, 6),
        sum: pair_at(head, 8),
        body,
        options,
        suggested,
        rest,
    })
}

/// A rule that is broken, and the place.
fn broken(rule: u8, place: u8) -> EsisRefusal
    ensures { result ≡ EsisRefusal.Broken rule place }
{
    EsisRefusal::Broken { rule, place }
}

/// The header of a frame, and what follows it. Refuses by E1 to E3.
#[tactic(auto, unfolding(crate::specs::EsisPdus::Rules::first_broken))]
fn header_of(frame: &[u8]) -> Result<(&[u8], &[u8]), EsisRefusal>
    ensures judged { Gives result (first_broken frame_rules frame.now) }
    ensures header { IfOk result (λ r. r.0.now ≡ pdu_rules.header_of frame.now) }
    ensures rest { IfOk result (λ r. r.1.now ≡ rest_of frame.now) }
    ensures size { IfOk result (λ r. length r.0.now ≡ header_size frame.now) }
    ensures at_least { IfOk result (λ r. 9 ≤ length r.0.now) }
    ensures at_most { IfOk result (λ r. length r.0.now ≤ 254) }
{
    if frame.len() < FIXED_PART {
        return Err(broken(1, 0));
    }
    let size = frame[1];
    if usize::from(size) < FIXED_PART || size == RESERVED_LENGTH {
        return Err(broken(2, 2));
    }
    if frame.len() < usize::from(size) {
        return Err(broken(3, 2));
    }
    Ok(frame.split_at(usize::from(size)))
}

/// The number of two octets whose first has this place.
fn pair_at(octets: &[u8], place: usize) -> u16
    requires first { 1 ≤ place }
    requires last { place + 1 ≤ length octets.now }
    ensures { result ≡ pdu_rules.pair_at octets.now place }
{
    BigEndian::read_u16(&octets[place - 1..place + 1])
}

/// The kind of a PDU, from the fixed part of its header. Refuses by E4 to E7.
#[tactic(auto, unfolding(crate::specs::EsisPdus::Rules::first_broken))]
fn check_fixed_part(head: &[u8]) -> Result<Kind, EsisRefusal>
    requires at_least { 9 ≤ length head.now }
    requires at_most { length head.now ≤ 254 }
    ensures judged { Gives result (first_broken fixed_part_rules head.now) }
    ensures kind { IfOk result (λ kind. octet head.now 5 ≡ code_of kind) }
{
    if head[2] != VERSION {
        return Err(broken(4, 3));
    }
    if head[3] != 0 {
        return Err(broken(5, 4));
    }
    let Some(kind) = kind_of(head[4]) else {
        return Err(broken(6, 5));
    };
    if !has_right_checksum(head) {
        return Err(broken(7, 8));
    }
    Ok(kind)
}

/// Whether the header's checksum is right, or not in use.
fn has_right_checksum(head: &[u8]) -> bool
    requires at_least { 9 ≤ length head.now }
    requires at_most { length head.now ≤ 254 }
    ensures { result ≡ pdu_rules.has_right_checksum head.now }
{
    crate::pdu_header::checksums::is_right(head)
}

/// The addresses of a header of this kind, and its options. Refuses by E8 to E10.
#[tactic(auto, unfolding(crate::specs::EsisPdus::Rules::first_broken))]
fn read_parts(head: &[u8], kind: Kind) -> Result<Parts<'_>, EsisRefusal>
    requires at_least { 9 ≤ length head.now }
    requires kind { octet head.now 5 ≡ code_of kind }
    ensures judged { Gives result (first_broken address_rules head.now) }
    ensures body { IfOk result (λ parts. parts.body ≡ body_of head.now) }
    ensures options { IfOk result (λ parts. parts.options.now ≡ options_part head.now) }
{
    let part = &head[FIXED_PART..];
    match kind {
        Kind::EndSystemHello => read_addresses(part),
        Kind::IntermediateSystemHello => read_title(part),
        Kind::Redirect => read_redirection(part),
    }
}

/// The addresses of an end system hello, and what follows them (section 7.6). Refuses by E8.
#[inline(never)]
fn read_addresses(part: &[u8]) -> Result<Parts<'_>, EsisRefusal>
    ensures judged { MatchResult result (λ _. is_address_list part.now ≡ true)
        (λ refusal. (is_address_list part.now ≡ false) × (refusal ≡ EsisRefusal.Broken 8 10)) }
    ensures body { IfOk result (λ parts. parts.body ≡ EsisBody.Esh (address_list part.now)) }
    ensures options { IfOk result (λ parts. parts.options.now ≡ behind_address_list part.now) }
{
    let Some((addresses, options)) = AddressList::read(part) else {
        return Err(broken(8, 10));
    };
    Ok(Parts {
        body: EsisBody::Esh { addresses },
        options,
    })
}

/// The title of an intermediate system hello, and what follows it (section 7.7). Refuses by E9.
#[inline(never)]
fn read_title(part: &[u8]) -> Result<Parts<'_>, EsisRefusal>
    ensures judged { MatchResult result (λ _. is_field 1 part.now ≡ true)
        (λ refusal. (is_field 1 part.now ≡ false) × (refusal ≡ EsisRefusal.Broken 9 10)) }
    ensures body { IfOk result (λ parts. parts.body ≡ EsisBody.Ish (field_octets part.now)) }
    ensures options { IfOk result (λ parts. parts.options.now ≡ behind part.now) }
{
    let Some((title, options)) = address_field(part) else {
        return Err(broken(9, 10));
    };
    Ok(Parts {
        body: EsisBody::Ish { title },
        options,
    })
}

/// The addresses of a redirect, and what follows them (section 7.8). Refuses by E10.
#[inline(never)]
fn read_redirection(part: &[u8]) -> Result<Parts<'_>, EsisRefusal>
    ensures judged { MatchResult result (λ _. is_redirection part.now ≡ true)
        (λ refusal. (is_redirection part.now ≡ false) × (refusal ≡ EsisRefusal.Broken 10 10)) }
    ensures body { IfOk result (λ parts. parts.body ≡ redirection part.now) }
    ensures options { IfOk result (λ parts. parts.options.now ≡ behind (behind (behind part.now))) }
{
    let Some((to, others)) = address_field(part) else {
        return Err(broken(10, 10));
    };
    let Some((via, others)) = snpa_field(others) else {
        return Err(broken(10, 10));
    };
    let Some((title, options)) = field(others) else {
        return Err(broken(10, 10));
    };
    Ok(Parts {
        body: EsisBody::Rd {
            to,
            via,
            title: Address::from_bytes(title).ok(),
        },
        options,
    })
}

/// The address in the field at the front, and what follows it, where it lies whole in the part and has 1 to 20 octets.
fn address_field(part: &[u8]) -> Option<(Address, &[u8])>
    ensures judged { MatchOption result (is_field 1 part.now ≡ false) (λ _. is_field 1 part.now ≡ true) }
    ensures octets { IfSome result (λ r. r.0 ≡ field_octets part.now) }
    ensures behind { IfSome result (λ r. r.1.now ≡ behind part.now) }
{
    let (octets, others) = field(part)?;
    match Address::from_bytes(octets) {
        Ok(address) => Some((address, others)),
        Err(_) => None,
    }
}

/// The same of an address on a subnetwork.
fn snpa_field(part: &[u8]) -> Option<(Snpa, &[u8])>
    ensures judged { MatchOption result (is_field 1 part.now ≡ false) (λ _. is_field 1 part.now ≡ true) }
    ensures octets { IfSome result (λ r. r.0 ≡ field_octets part.now) }
    ensures behind { IfSome result (λ r. r.1.now ≡ behind part.now) }
{
    let (octets, others) = field(part)?;
    match Snpa::from_bytes(octets) {
        Ok(snpa) => Some((snpa, others)),
        Err(_) => None,
    }
}

/// The timer that a header of this kind with these options suggests, in seconds. Refuses by E11 and E12.
#[tactic(auto, unfolding(crate::specs::EsisPdus::Rules::first_broken))]
fn read_suggested(head: &[u8], kind: Kind, options: &[u8]) -> Result<Option<u16>, EsisRefusal>
    requires at_least { 9 ≤ length head.now }
    requires at_most { length head.now ≤ 254 }
    requires kind { octet head.now 5 ≡ code_of kind }
    requires options { options.now ≡ options_part head.now }
    ensures judged { Gives result (first_broken option_rules head.now) }
    ensures seconds { IfOk result (λ seconds. seconds ≡ (if is_ish head.now then seconds_of (parameters options.now) else None)) }
{
    let first = (head.len() - options.len() + 1) as u8;
    if let Some(place) = place_of_unfit(options, first) {
        return Err(broken(11, place));
    }
    match kind {
        Kind::IntermediateSystemHello => read_timer(options, first),
        Kind::EndSystemHello | Kind::Redirect => Ok(None),
    }
}

/// The seconds that the timer among these options says, where there is one. Refuses by E12.
fn read_timer(options: &[u8], first: u8) -> Result<Option<u16>, EsisRefusal>
    requires { first + length options.now ≤ 255 }
    ensures judged { Gives result (option_map (EsisRefusal.Broken 12) (place_of_wrong_timer false first (parameters options.now))) }
    ensures seconds { IfOk result (λ seconds. seconds ≡ seconds_of (parameters options.now)) }
{
    let mut seconds = None;
    let mut place = first;
    let mut rest = options;
    while let Some((code, value, others)) = first_option(rest) {
        if code == TIMER {
            if seconds.is_some() || value.len() != 2 {
                return Err(broken(12, place));
            }
            seconds = Some(pair_at(value, 1));
        }
        place += 2 + value.len() as u8;
        rest = others;
    }
    Ok(seconds)
}
