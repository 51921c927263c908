//! Frames read as PDUs, by the rules G1 to G20.
ghost use Rattle.pdus.specs.ClnpOptions.Reasons.{reason_code};
ghost use Rattle.pdus.specs.ClnpViews.Parted.{IsShortHeader};
ghost use Rattle.pdus.specs.ClnpOptions.Rules.{Gives, refusal as options_refusal};
ghost use Rattle.pdus.specs.PduHeader.Grammar as grammar;
ghost use Rattle.pdus.specs.PduHeader.Grammar.{BeginsWith};
ghost use Rattle.pdus.specs.PduHeader.Reading as pdu_reading;
ghost use Rattle.pdus.specs.PduHeader.Reading.{body_of, rest_of, segmentation_at, value_of};
ghost use Rattle.pdus.specs.PduHeader.Rules as pdu_rules;
ghost use Rattle.pdus.specs.PduHeader.Rules.{addresses_refusal, data_size, extent_refusal, fixed_part_refusal, header_refusal, header_size, is_unfit_range, is_bad_address, lengths_refusal, octet, options_part, options_place, part_place, refusal, source_place, type_of};
ghost use Rattle.pdus.specs.PduHeader.Headers.{SpellsHeader};
ghost use Rattle.pdus.specs.PduHeader.Spelling.{header, header_length};
ghost use Rattle.pdus.specs.PduHeader.Value.{PduValue};
ghost use Rattle.pdus.specs.PduHeader.View.{part_value, pdu_value, why_refused};
ghost use Rattle.std.specs.Prelude.{IfSome, MatchResult, None, Some, ◌^◌, ◌≡◌, ◌+◌, ◌-◌, ◌==◌, ◌<◌, ◌≤◌, ℕ, true, false, List, IfOk, MatchOption, OnErr, OnOk, ◌++◌, drop, length, option_map, take};

use crate::clnp_options::{OptionRefusal, Reason, check};
use crate::clnp_views::Frame;
use crate::nsap::Address;
use crate::pdu_header::kind::Kind;
use crate::pdu_header::layout::{
    ERROR_REPORT, FIXED_PART, MORE_SEGMENTS, PROTOCOL, SEGMENTATION_PART, SEGMENTATION_PERMITTED,
    TYPES, VERSION,
};
use crate::pdu_header::pdu::{Broken, Pdu, Refusal, SegPart};
use crate::pdu_header::report::{reportable, reportable_header};
use byteorder::{BigEndian, ByteOrder};

/// The header length that is reserved (section 7.2.3).
const RESERVED_LENGTH: u8 = 255;

/// The PDU at the front of a frame (ISO 8473, section 7). What follows it in the frame is its `rest`.
///
/// # Errors
///
/// `NotClnp` exactly where the frame is empty or its first octet isn't 0x81; else `Broken` exactly
/// where it breaks one of the rules G1 to G20 (see `docs/FORMATS.md`), by the least of them.
pub fn decode(frame: &[u8]) -> Result<Pdu<'_>, Refusal>
    ensures judged { MatchResult result (λ _. why_refused frame.now ≡ None)
        (λ refused. why_refused frame.now ≡ Some refused) }
    ensures accepted { OnOk result ((octet frame.now 1 ≡ 0x81) × (refusal frame.now ≡ None)) }
    ensures found { IfOk result (λ pdu. BeginsWith frame.now (pdu_value pdu) pdu.rest.now) }
    ensures none { OnErr result ((value : PduValue) (rest : List ℕ) → BeginsWith frame.now value rest → ⊥) }
    ensures header { IfOk result (λ pdu. pdu.head.now ≡ header (pdu_value pdu)) }
    ensures spells { IfOk result (λ pdu. SpellsHeader (pdu_value pdu) pdu.head.now) }
    ensures size { IfOk result (λ pdu. length pdu.head.now ≡ header_length (pdu_value pdu)) }
    ensures head { IfOk result (λ pdu. pdu.head.now ≡ pdu_rules.header_of frame.now) }
    ensures sum { IfOk result (λ pdu. pdu.sum ≡ pdu_rules.pair_at pdu.head.now 8) }
    ensures options { IfOk result (λ pdu. pdu.options.now ≡ options_part pdu.head.now) }
{
    if !is_clnp(frame) {
        return Err(Refusal::NotClnp);
    }
    match read(frame) {
        Ok(pdu) => Ok(pdu),
        Err(refusal) => Err(Refusal::Broken(Broken {
            rule: refusal.rule,
            reason: refusal.reason,
            place: refusal.place,
            reportable: reportable(frame).is_some(),
        })),
    }
}

/// The PDU at the front of a shared frame, as `decode` finds it in its octets.
///
/// # Errors
///
/// Those of [`decode`].
pub fn decode_frame(frame: &Frame) -> Result<Pdu<'_>, Refusal>
    ensures judged { MatchResult result (λ _. why_refused frame.now ≡ None)
        (λ refused. why_refused frame.now ≡ Some refused) }
    ensures accepted { OnOk result ((octet frame.now 1 ≡ 0x81) × (refusal frame.now ≡ None)) }
    ensures found { IfOk result (λ pdu. BeginsWith frame.now (pdu_value pdu) pdu.rest.now) }
    ensures none { OnErr result ((value : PduValue) (rest : List ℕ) → BeginsWith frame.now value rest → ⊥) }
    ensures header { IfOk result (λ pdu. pdu.head.now ≡ header (pdu_value pdu)) }
    ensures spells { IfOk result (λ pdu. SpellsHeader (pdu_value pdu) pdu.head.now) }
    ensures size { IfOk result (λ pdu. length pdu.head.now ≡ header_length (pdu_value pdu)) }
    ensures head { IfOk result (λ pdu. pdu.head.now ≡ pdu_rules.header_of frame.now) }
    ensures sum { IfOk result (λ pdu. pdu.sum ≡ pdu_rules.pair_at pdu.head.now 8) }
    ensures options { IfOk result (λ pdu. pdu.options.now ≡ options_part pdu.head.now) }
{
    let (front, behind) = frame.parts();
    if front.is_empty() {
        return decode(behind);
    }
    decode_behind(front, behind)
}

/// The PDU with a short header and what is behind it, as `decode` finds it where both stand one behind the other.
fn decode_behind<'a>(head: &'a [u8], behind: &'a [u8]) -> Result<Pdu<'a>, Refusal>
    requires { IsShortHeader head.now }
    ensures judged { MatchResult result (λ _. why_refused (head.now ++ behind.now) ≡ None)
        (λ refused. why_refused (head.now ++ behind.now) ≡ Some refused) }
    ensures accepted { OnOk result ((octet (head.now ++ behind.now) 1 ≡ 0x81) × (refusal (head.now ++ behind.now) ≡ None)) }
    ensures found { IfOk result (λ pdu. BeginsWith (head.now ++ behind.now) (pdu_value pdu) pdu.rest.now) }
    ensures none { OnErr result ((value : PduValue) (rest : List ℕ) → BeginsWith (head.now ++ behind.now) value rest → ⊥) }
    ensures header { IfOk result (λ pdu. pdu.head.now ≡ header (pdu_value pdu)) }
    ensures spells { IfOk result (λ pdu. SpellsHeader (pdu_value pdu) pdu.head.now) }
    ensures size { IfOk result (λ pdu. length pdu.head.now ≡ header_length (pdu_value pdu)) }
    ensures head { IfOk result (λ pdu. pdu.head.now ≡ pdu_rules.header_of (head.now ++ behind.now)) }
    ensures sum { IfOk result (λ pdu. pdu.sum ≡ pdu_rules.pair_at pdu.head.now 8) }
    ensures options { IfOk result (λ pdu. pdu.options.now ≡ options_part pdu.head.now) }
{
    match read_behind(head, behind) {
        Ok(pdu) => Ok(pdu),
        Err(refusal) => Err(Refusal::Broken(Broken {
            rule: refusal.rule,
            reason: refusal.reason,
            place: refusal.place,
            reportable: reportable_header(head).is_some(),
        })),
    }
}

/// Whether the frame begins with the identifier of this protocol.
pub(crate) fn is_clnp(frame: &[u8]) -> bool
    ensures { result ≡ (octet frame.now 1 == 0x81) }
{
    matches!(frame, [PROTOCOL, ..])
}

/// The PDU at the front of a frame that begins with 0x81. Refuses by G1 to G20.
#[tactic(auto, unfolding(crate::specs::PduHeader::Rules::refusal))]
fn read(frame: &[u8]) -> Result<Pdu<'_>, OptionRefusal>
    ensures judged { Gives result (refusal frame.now) }
    ensures value { IfOk result (λ pdu. pdu_value pdu ≡ value_of (pdu_rules.header_of frame.now) (body_of frame.now)) }
    ensures rest { IfOk result (λ pdu. pdu.rest.now ≡ rest_of frame.now) }
    ensures head { IfOk result (λ pdu. pdu.head.now ≡ pdu_rules.header_of frame.now) }
    ensures sum { IfOk result (λ pdu. pdu.sum ≡ pdu_rules.pair_at pdu.head.now 8) }
    ensures options { IfOk result (λ pdu. pdu.options.now ≡ options_part pdu.head.now) }
{
    let (head, behind) = header_of(frame)?;
    read_behind(head, behind)
}

/// The PDU with a header that has the length that it tells, and what is behind it. Refuses by G4 to G20.
#[tactic(auto, unfolding(crate::specs::PduHeader::Rules::header_refusal))]
fn read_behind<'a>(head: &'a [u8], behind: &'a [u8]) -> Result<Pdu<'a>, OptionRefusal>
    requires at_least { 9 ≤ length head.now }
    requires at_most { length head.now ≤ 254 }
    ensures judged { Gives result (header_refusal head.now (length head.now + length behind.now)) }
    ensures value { IfOk result (λ pdu. pdu_value pdu ≡ value_of head.now (take (data_size head.now) behind.now)) }
    ensures rest { IfOk result (λ pdu. pdu.rest.now ≡ drop (data_size head.now) behind.now) }
    ensures head { IfOk result (λ pdu. pdu.head.now ≡ head.now) }
    ensures sum { IfOk result (λ pdu. pdu.sum ≡ pdu_rules.pair_at pdu.head.now 8) }
    ensures options { IfOk result (λ pdu. pdu.options.now ≡ options_part pdu.head.now) }
{
    let kind = check_fixed_part(head)?;
    let Addresses { to, from, end } = match read_addresses(head) {
        Ok(addresses) => addresses,
        Err(refusal) => return Err(refusal),
    };
    let lengths = read_lengths(head, end, head.len() + behind.len())?;
    let options = read_options(head, options_place(head, end), kind)?;
    let (body, rest) = behind.split_at(lengths.data_length);
    Ok(Pdu {
        kind,
        life: head[3],
        report: wants_report(head),
        more: has_more(head),
        sum: pair_at(head, 8),
        to,
        from,
        seg: lengths.seg,
        head,
        options,
        body,
        rest,
    })
}

/// A rule that is broken, its reason and its place.
fn broken(rule: u8, reason: Reason, place: u8) -> OptionRefusal
    ensures { result ≡ record { rule = rule; reason = reason_code reason; place = place } }
{
    OptionRefusal {
        rule,
        reason: reason.code(),
        place,
    }
}

/// The header of a frame, and what follows it. Refuses by G1 to G3.
#[tactic(auto, unfolding(crate::specs::PduHeader::Rules::extent_refusal))]
pub(crate) fn header_of(frame: &[u8]) -> Result<(&[u8], &[u8]), OptionRefusal>
    ensures judged { Gives result (extent_refusal frame.now) }
    ensures header { IfOk result (λ r. r.0.now ≡ pdu_rules.header_of frame.now) }
    ensures behind { IfOk result (λ r. r.1.now ≡ drop (header_size frame.now) frame.now) }
    ensures size { IfOk result (λ r. length r.0.now ≡ header_size frame.now) }
    ensures whole { IfOk result (λ r. length r.0.now + length r.1.now ≡ length frame.now) }
    ensures at_least { IfOk result (λ r. 9 ≤ length r.0.now) }
    ensures at_most { IfOk result (λ r. length r.0.now ≤ 254) }
{
    if frame.len() < FIXED_PART {
        return Err(broken(1, Reason::IncompletePdu, 0));
    }
    let size = frame[1];
    if usize::from(size) < FIXED_PART || size == RESERVED_LENGTH {
        return Err(broken(2, Reason::HeaderSyntaxError, 2));
    }
    if frame.len() < usize::from(size) {
        return Err(broken(3, Reason::IncompletePdu, 2));
    }
    Ok(frame.split_at(usize::from(size)))
}

/// The number of two octets whose first has this place.
fn pair_at(head: &[u8], place: usize) -> u16
    requires first { 1 ≤ place }
    requires last { place + 1 ≤ length head.now }
    ensures { result ≡ pdu_rules.pair_at head.now place }
{
    BigEndian::read_u16(&[head[place - 1], head[place]])
}

/// Whether the header has a segmentation part.
pub(crate) fn is_segmented(head: &[u8]) -> bool
    requires { 9 ≤ length head.now }
    ensures { result ≡ pdu_rules.is_segmented head.now }
{
    head[4] >= SEGMENTATION_PERMITTED
}

/// Whether data of the same unit follows behind this PDU's.
pub(crate) fn has_more(head: &[u8]) -> bool
    requires { 9 ≤ length head.now }
    ensures { result ≡ pdu_rules.has_more head.now }
{
    head[4] / MORE_SEGMENTS % 2 == 1
}

/// Whether an error report is wanted where the PDU is discarded.
pub(crate) fn wants_report(head: &[u8]) -> bool
    requires { 9 ≤ length head.now }
    ensures { result ≡ pdu_rules.wants_report head.now }
{
    head[4] / ERROR_REPORT % 2 == 1
}

/// The kind that the header's type says, where it is known.
pub(crate) fn kind_of(head: &[u8]) -> Option<Kind>
    requires { 9 ≤ length head.now }
    ensures { result ≡ pdu_rules.kind_of (type_of head.now) }
{
    Kind::from_type(head[4] % TYPES)
}

/// Whether the header's checksum is right, or not in use.
fn has_right_checksum(head: &[u8]) -> bool
    requires at_least { 9 ≤ length head.now }
    requires at_most { length head.now ≤ 254 }
    ensures { result ≡ pdu_rules.has_right_checksum head.now }
{
    crate::fletcher::is_right(head)
}

/// The kind of a PDU, from the fixed part of its header. Refuses by G4 to G7.
#[tactic(auto, unfolding(crate::specs::PduHeader::Rules::fixed_part_refusal))]
fn check_fixed_part(head: &[u8]) -> Result<Kind, OptionRefusal>
    requires at_least { 9 ≤ length head.now }
    requires at_most { length head.now ≤ 254 }
    ensures judged { Gives result (fixed_part_refusal head.now) }
    ensures kind { IfOk result (λ kind. pdu_rules.kind_of (type_of head.now) ≡ Some kind) }
{
    if head[2] != VERSION {
        return Err(broken(4, Reason::UnsupportedVersion, 3));
    }
    if !has_right_checksum(head) {
        return Err(broken(5, Reason::IncorrectChecksum, 0));
    }
    let Some(kind) = kind_of(head) else {
        return Err(broken(6, Reason::HeaderSyntaxError, 5));
    };
    if has_more(head) && !is_segmented(head) {
        return Err(broken(7, Reason::HeaderSyntaxError, 5));
    }
    Ok(kind)
}

/// The address whose length octet has this place, where it lies in the header.
fn address_at(head: &[u8], place: usize) -> Option<Address>
    requires first { 1 ≤ place }
    requires last { place ≤ 254 }
    ensures none { MatchOption result (is_bad_address head.now place ≡ true)
        (λ _. is_bad_address head.now place ≡ false) }
    ensures value { IfSome result (λ address. address ≡ pdu_reading.address_at head.now place) }
    ensures size { IfSome result (λ address. octet head.now place ≡ length address) }
    ensures within { IfSome result (λ address. place + length address ≤ length head.now) }
    ensures few { IfSome result (λ address. length address ≤ 20) }
{
    if head.len() < place {
        return None;
    }
    let size = usize::from(head[place - 1]);
    if head.len() < place + size {
        return None;
    }
    match Address::from_bytes(&head[place..place + size]) {
        Ok(address) => Some(address),
        Err(_) => None,
    }
}

/// The addresses of a header, and the place at which what follows them begins.
#[derive(Clone, Copy)]
pub(crate) struct Addresses {
    pub(crate) to: Address,
    pub(crate) from: Address,
    pub(crate) end: usize,
}

/// The addresses of a header. Refuses by G8 and G9.
#[tactic(auto, unfolding(crate::specs::PduHeader::Rules::addresses_refusal))]
pub(crate) fn read_addresses(head: &[u8]) -> Result<Addresses, OptionRefusal>
    requires at_least { 9 ≤ length head.now }
    requires at_most { length head.now ≤ 254 }
    ensures judged { Gives result (addresses_refusal head.now) }
    ensures to { IfOk result (λ addresses. addresses.to ≡ pdu_reading.address_at head.now 10) }
    ensures from { IfOk result (λ addresses. addresses.from ≡ pdu_reading.address_at head.now (source_place head.now)) }
    ensures end { IfOk result (λ addresses. addresses.end ≡ part_place head.now) }
    ensures within { IfOk result (λ addresses. addresses.end ≤ length head.now + 1) }
{
    let Some(to) = address_at(head, FIXED_PART + 1) else {
        return Err(broken(8, Reason::HeaderSyntaxError, 10));
    };
    let place = FIXED_PART + 2 + to.as_bytes().len();
    let Some(from) = address_at(head, place) else {
        return Err(broken(9, Reason::HeaderSyntaxError, place as u8));
    };
    let end = place + 1 + from.as_bytes().len();
    Ok(Addresses { to, from, end })
}

/// The segmentation part whose first octet has this place.
pub(crate) fn segmentation_part(head: &[u8], place: usize) -> SegPart
    requires first { 1 ≤ place }
    requires last { place + 5 ≤ length head.now }
    ensures id { result.id ≡ pdu_rules.pair_at head.now place }
    ensures offset { result.offset ≡ pdu_rules.pair_at head.now (place + 2) }
    ensures total { result.total ≡ pdu_rules.pair_at head.now (place + 4) }
{
    SegPart {
        id: pair_at(head, place),
        offset: pair_at(head, place + 2),
        total: pair_at(head, place + 4),
    }
}

/// Whether a segment's total length is below its header's, or its data passes the unit's end, or
/// it says of the data behind it what isn't so.
fn is_bad_range(part: SegPart, header_length: usize, data_length: usize, more: bool) -> bool
    requires { data_length < 2 ^ 16 }
    ensures { result ≡ is_unfit_range header_length part.total (part.offset + data_length) more }
{
    let total = usize::from(part.total);
    let data_end = usize::from(part.offset) + data_length;
    if total < header_length || total - header_length < data_end {
        return true;
    }
    (data_end == total - header_length) == more
}

/// What a header says of lengths: its segmentation part, and the octets of data behind it.
#[derive(Clone, Copy)]
struct Lengths {
    seg: Option<SegPart>,
    data_length: usize,
}

/// The lengths of a header whose addresses end before this place. Refuses by G10 to G13.
#[tactic(auto, unfolding(crate::specs::PduHeader::Rules::lengths_refusal))]
fn read_lengths(head: &[u8], place: usize, frame_length: usize) -> Result<Lengths, OptionRefusal>
    requires at_least { 9 ≤ length head.now }
    requires at_most { length head.now ≤ 254 }
    requires place { place ≡ part_place head.now }
    requires within { place ≤ length head.now + 1 }
    ensures judged { Gives result (lengths_refusal head.now frame_length) }
    ensures seg { IfOk result (λ lengths. option_map part_value lengths.seg ≡ segmentation_at head.now) }
    ensures data_length { IfOk result (λ lengths. lengths.data_length ≡ data_size head.now) }
    ensures fits { IfOk result (λ lengths. length head.now + lengths.data_length ≤ frame_length) }
    ensures options { OnOk result (options_place head.now ≤ length head.now + 1) }
{
    let segmented = is_segmented(head);
    if segmented && head.len() < place + (SEGMENTATION_PART - 1) {
        return Err(broken(10, Reason::HeaderSyntaxError, place as u8));
    }
    let segment_length = usize::from(pair_at(head, 6));
    if segment_length < head.len() {
        return Err(broken(11, Reason::HeaderSyntaxError, 6));
    }
    if frame_length < segment_length {
        return Err(broken(12, Reason::IncompletePdu, 6));
    }
    let data_length = segment_length - head.len();
    if !segmented {
        return Ok(Lengths {
            seg: None,
            data_length,
        });
    }
    let part = segmentation_part(head, place);
    if is_bad_range(part, head.len(), data_length, has_more(head)) {
        return Err(broken(13, Reason::HeaderSyntaxError, place as u8 + 4));
    }
    Ok(Lengths {
        seg: Some(part),
        data_length,
    })
}

/// The place at which the options begin, where the addresses end before this place.
fn options_place(head: &[u8], end: usize) -> usize
    requires long { 9 ≤ length head.now }
    requires end { end ≡ part_place head.now }
    requires within { end ≤ 255 }
    ensures { result ≡ pdu_rules.options_place head.now }
{
    if is_segmented(head) {
        end + SEGMENTATION_PART
    } else {
        end
    }
}

/// Whether a PDU of this kind is an error report.
fn is_report(kind: Kind) -> bool
    ensures { result ≡ grammar.is_report kind }
{
    matches!(kind, Kind::Er)
}

/// The octets of the options part, where the header's parts before it end before this place.
/// Refuses by G14 to G20.
fn read_options(head: &[u8], place: usize, kind: Kind) -> Result<&[u8], OptionRefusal>
    requires at_most { length head.now ≤ 254 }
    requires place { place ≡ options_place head.now }
    requires within { place ≤ length head.now + 1 }
    requires kind { pdu_rules.kind_of (type_of head.now) ≡ Some kind }
    ensures judged { Gives result
        (options_refusal (options_part head.now) (options_place head.now) (type_of head.now == 1)) }
    ensures value { IfOk result (λ options. options.now ≡ options_part head.now) }
{
    let (_, options) = head.split_at(place - 1);
    match check(options, place as u8, is_report(kind)) {
        Ok(()) => Ok(options),
        Err(refusal) => Err(refusal),
    }
}
