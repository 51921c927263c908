//! Whole headers, made from parts and changed as a router changes them.
ghost use Rattle.std.specs.Prelude.{◌≡◌, ◌+◌, ◌≤◌, ◌^◌, ◌⊎◌, ℕ, Bool, List, length, if◌then◌else◌, bit_and, bit_or, option_map, None, Some, IfOk, MatchResult};
ghost use Rattle.pdus.specs.Fletcher.Checksum.{octet};
ghost use Rattle.pdus.specs.PduHeader.Value.{PduValue};
ghost use Rattle.pdus.specs.ClnpOptions.Parameter.{parameters, source_route, recording, quality};
ghost use Rattle.pdus.specs.ClnpOptions.Rules.{IsWellFormed};
ghost use Rattle.pdus.specs.ClnpOptions.Edits.{edited, target_of, is_complete, advanced, recorded, marked};
ghost use Rattle.pdus.specs.PduHeader.Spelling.{header_length, segmentation_octets};
ghost use Rattle.pdus.specs.PduHeader.Rules.{part_place};
ghost use Rattle.pdus.specs.PduHeader.View.{part_value};
ghost use Rattle.pdus.specs.PduHeader.Parts.{AreFit, checked, parts_length, parts_value, too_long};
ghost use Rattle.pdus.specs.PduHeader.Headers.{IsHeader, SpellsHeader, with_pair, TakesSegment, MayCarry, LeadsOn, with_lifetime, with_segment, at_offset, with_options};

use crate::nsap::Address;
use crate::nsap::base::InlineOctets;
use crate::pdu_header::cells::{adjust, advance_route, mark_congestion, record_title, take_over};
use crate::pdu_header::decoder::{has_more, is_segmented, segmentation_part};
use crate::pdu_header::layout::{
    MORE_SEGMENTS, MOST_HEADER, MOST_TOTAL, SEGMENTATION_PART, SEGMENTATION_PERMITTED,
};
use crate::pdu_header::parts::Parts;
use crate::pdu_header::pdu::SegPart;
use crate::pdu_header::write::{header_len, written};
use byteorder::{BigEndian, ByteOrder};
use std::marker::Model;

/// Why no header can be made.
#[derive(Clone, Copy)]
pub enum HeaderRefusal {
    /// The header would have this number of octets, above 254 (ISO 8473, section 7.2.3).
    HeaderTooLong { octets: usize },
    /// Header and body would have this number of octets, above 65,535 (section 7.2.8).
    TotalTooLong { octets: usize },
}

/// A whole header, 9 to 254 octets.
///
/// A contract sees it as the list of its octets. They are the header of the PDUs that have a certain
/// value; of the data the header tells the length alone.
#[derive(Clone, Copy)]
pub struct Header {
    cells: InlineOctets<MOST_HEADER>,
}

impl Model for Header {
    ghost use Rattle.std.specs.Prelude.{ℕ, List};

    ghost Value = { List ℕ };

    ghost use Rattle.pdus.specs.PduHeader.Headers.{IsHeader};

    ghost view = { λ h. h.cells };

    ghost invariant = { λ h. IsHeader h.cells };

    ghost inverse = { λ l. record { cells = l } };
}

impl Header {
    /// The header with these octets, as `decode` finds them in front of a PDU.
    pub fn of(octets: &[u8]) -> Header
        requires { IsHeader octets.now }
        ensures { result ≡ octets.now }
    {
        let cells = InlineOctets::of(octets);
        Header { cells }
    }

    /// The header that is made from these parts, for a body of so many octets.
    ///
    /// # Errors
    ///
    /// HeaderTooLong exactly where the header passes 254 octets, else TotalTooLong exactly where header
    /// and body pass 65,535; each with the number of octets.
    pub fn make(parts: &Parts, body_len: usize) -> Result<Header, HeaderRefusal>
        requires fit { AreFit parts.now body_len }
        requires few { body_len ≤ 2 ^ 31 }
        ensures spells { IfOk result (λ header. (body : List ℕ) → length body ≡ body_len
            → SpellsHeader (parts_value parts.now body) header) }
        ensures refused { MatchResult result (λ _. too_long (parts_length parts.now) body_len ≡ None)
            (λ refusal. too_long (parts_length parts.now) body_len ≡ Some refusal) }
    {
        let octets = header_len(parts);
        if octets > MOST_HEADER {
            return Err(HeaderRefusal::HeaderTooLong { octets });
        }
        let total = octets + body_len;
        if total > MOST_TOTAL {
            return Err(HeaderRefusal::TotalTooLong { octets: total });
        }
        Ok(Header {
            cells: written(parts, octets as u8, total as u16),
        })
    }

    /// The octets.
    pub fn as_bytes(&self) -> &[u8]
        ensures octets { result.now ≡ self.now }
        ensures size { (v : PduValue) → SpellsHeader v self.now → length result.now ≡ header_length v }
        ensures some { 9 ≤ length result.now }
        ensures few { length result.now ≤ 254 }
    {
        self.cells.as_bytes()
    }

    /// The segmentation part, where segmentation is permitted (ISO 8473, section 7.4).
    pub fn segmentation(&self) -> Option<SegPart>
        ensures { (v : PduValue) → SpellsHeader v self.now → option_map part_value result ≡ v.segmentation }
    {
        let octets = self.cells.as_bytes();
        if !is_segmented(octets) {
            return None;
        }
        let place = part_index(octets) + 1;
        Some(segmentation_part(octets, place))
    }

    /// Whether data of the same unit follows behind this segment's (section 7.2.6.2).
    pub fn more(&self) -> bool
        ensures { (v : PduValue) → SpellsHeader v self.now → result ≡ v.more }
    {
        has_more(self.as_bytes())
    }

    /// Changes the lifetime, in ticks of 500 ms (ISO 8473, section 7.2.5).
    pub fn set_life(&mut self, life: u8)
        ensures spells { (v : PduValue) → SpellsHeader v self.old → SpellsHeader (with_lifetime life v) self.new }
        ensures len { length self.new ≡ length self.old }
    {
        adjust(&mut self.cells, 4, life);
    }

    /// Makes the header that of another segment of the same unit (ISO 8473, section 6.7): with `len` octets
    /// of data from this offset in the unit's data, and `more` where data of the unit follows behind them.
    pub fn set_segment(&mut self, offset: u16, len: u16, more: bool)
        requires { TakesSegment self.old offset len more }
        ensures spells { (v : PduValue) (carries : MayCarry v offset len more) → SpellsHeader v self.old
            → (body : List ℕ) → length body ≡ len
            → SpellsHeader (with_segment (at_offset offset carries.part) more body v) self.new }
        ensures len { length self.new ≡ length self.old }
    {
        let octets = self.cells.as_bytes();
        let part = part_index(octets);
        let flags = flags_with_more(octets[4], more);
        let total = octets.len() as u16 + len;
        adjust(&mut self.cells, 5, flags);
        put_pair(&mut self.cells, 6, total);
        put_pair(&mut self.cells, part + 3, offset);
    }

    /// The title to which the source route leads next (ISO 8473, section 7.5.4); none where there is no source route,
    /// or it is exhausted.
    pub fn route_target(&self) -> Option<Address>
        ensures { (v : PduValue) → SpellsHeader v self.now → result ≡ target_of v.options }
    {
        let title = crate::clnp_options::route_target(options_of(self.cells.as_bytes()))?;
        Address::from_bytes(title).ok()
    }

    /// Whether there is a complete source route: the PDU goes through the systems that it names and no others
    /// (section 7.5.4).
    pub fn is_route_complete(&self) -> bool
        ensures { (v : PduValue) → SpellsHeader v self.now → result ≡ is_complete v.options }
    {
        crate::clnp_options::is_route_complete(options_of(self.cells.as_bytes()))
    }

    /// Moves the pointer of the source route past the title there (ISO 8473, section 7.5.4).
    pub fn advance_route(&mut self)
        requires { LeadsOn self.old }
        ensures spells { (v : PduValue) → SpellsHeader v self.old
            → SpellsHeader (with_options (edited source_route advanced v.options) v) self.new }
        ensures len { length self.new ≡ length self.old }
    {
        let start = options_index(self.cells.as_bytes());
        let mut changed = self.cells;
        advance_route(&mut changed, start);
        take_over(&mut self.cells, changed.as_bytes(), start);
    }

    /// Notes a router's title in the recording of route (section 7.5.5): puts it where it fits, else ends
    /// the recording. A header without a recording, or whose recording was ended, stays as it is.
    pub fn record_title(&mut self, title: &Address)
        ensures spells { (v : PduValue) → SpellsHeader v self.old
            → SpellsHeader (with_options (edited recording (recorded title.now) v.options) v) self.new }
        ensures len { length self.new ≡ length self.old }
    {
        // Most headers have no options, and aren't copied for it.
        if options_of(self.cells.as_bytes()).is_empty() {
            return;
        }
        let start = options_index(self.cells.as_bytes());
        let mut changed = self.cells;
        record_title(&mut changed, start, title.as_bytes());
        take_over(&mut self.cells, changed.as_bytes(), start);
    }

    /// Sets the bit "congestion experienced" in a quality of service of the globally unique format. Another
    /// header stays as it is.
    pub fn mark_congestion(&mut self)
        ensures spells { (v : PduValue) → SpellsHeader v self.old
            → SpellsHeader (with_options (edited quality marked v.options) v) self.new }
        ensures len { length self.new ≡ length self.old }
    {
        let start = options_index(self.cells.as_bytes());
        let mut changed = self.cells;
        mark_congestion(&mut changed, start);
        take_over(&mut self.cells, changed.as_bytes(), start);
    }
}

/// The options in a header.
fn options_of(octets: &[u8]) -> &[u8]
    requires { IsHeader octets.now }
    ensures well_formed { IsWellFormed result.now }
    ensures options { (v : PduValue) → SpellsHeader v octets.now → parameters result.now ≡ v.options }
{
    let start = options_index(octets);
    &octets[start..]
}

/// The index, from 0, of the options in a header.
fn options_index(octets: &[u8]) -> usize
    requires { IsHeader octets.now }
    ensures { (v : PduValue) → SpellsHeader v octets.now
        → result ≡ 11 + length v.destination + length v.source + length (segmentation_octets v.segmentation) }
{
    let part = part_index(octets);
    if octets[4] >= SEGMENTATION_PERMITTED {
        part + SEGMENTATION_PART
    } else {
        part
    }
}

/// The index, from 0, of what follows the addresses in a header.
fn part_index(octets: &[u8]) -> usize
    requires { IsHeader octets.now }
    ensures place { (v : PduValue) → SpellsHeader v octets.now → result ≡ 11 + length v.destination + length v.source }
    ensures part { part_place octets.now ≡ result + 1 }
    ensures least { 11 ≤ result }
    ensures few { result ≤ length octets.now }
{
    let to = octets[9] as usize;
    let from = octets[10 + to] as usize;
    11 + to + from
}

/// The octet of flags and type with this flag MS (ISO 8473, section 7.2.6.2).
fn flags_with_more(flags: u8, more: bool) -> u8
    ensures { result ≡ (if more then bit_or flags 64 else bit_and flags 191) }
{
    if more {
        flags | MORE_SEGMENTS
    } else {
        flags & !MORE_SEGMENTS
    }
}

/// Writes a number of two octets at a place, counted from 1, and adjusts the checksum.
fn put_pair(cells: &mut InlineOctets<MOST_HEADER>, place: usize, number: u16)
    requires head { 9 ≤ length cells.old }
    requires first { 1 ≤ place }
    requires last { place + 1 ≤ length cells.old }
    requires few { place ≤ 253 }
    requires apart { (place ≤ 6) ⊎ (10 ≤ place) }
    ensures changed { (is_sealed : Bool) (plain : List ℕ) → octet plain 8 ≡ 0 → cells.old ≡ checked is_sealed plain
        → cells.new ≡ checked is_sealed (with_pair plain place number) }
    ensures len { length cells.new ≡ length cells.old }
{
    let mut octets = [0; 2];
    BigEndian::write_u16(&mut octets, number);
    adjust(cells, place, octets[0]);
    adjust(cells, place + 1, octets[1]);
}
