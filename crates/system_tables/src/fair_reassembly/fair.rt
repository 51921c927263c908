//! The tables of sources.
ghost use Rattle.std.specs.Prelude.{◌≡◌, ◌+◌, ◌<◌, ◌≤◌, ◌^◌, ℕ, List, [], None, Some, IfOk, IfSome, length, slice_get};
ghost use Rattle.std.specs.List.{position_from};
ghost use Rattle.std.specs.Str.{bytes_eq};
ghost use Rattle.pdus.specs.ClnpViews.Extent.{Extent, whole};
ghost use Rattle.pdus.specs.PduHeader.View.{why_refused};
ghost use Rattle.system_tables.specs.Reassembly.Arrival.{octet_in};
ghost use Rattle.system_tables.specs.Reassembly.Buffer as buffer;
ghost use Rattle.system_tables.specs.Reassembly.Buffer.{Buffer};
ghost use Rattle.system_tables.specs.Reassembly.Offered.{MayCome};
ghost use Rattle.system_tables.specs.Reassembly.NoWhole.{HasNoWhole};
ghost use Rattle.system_tables.specs.Reassembly.State.{IsReady, IsWholeSlot, Names, Stands};
ghost use Rattle.system_tables.specs.FairReassembly.Behind.{StandBehind};
ghost use Rattle.system_tables.specs.FairReassembly.Calls.{Accepts, Expires, Releases, Takes};
ghost use Rattle.system_tables.specs.FairReassembly.Coming.{value_in};
ghost use Rattle.system_tables.specs.FairReassembly.Tables.{AreDistinct, AreNew, AreOpened, At, ChangesTable, IsAt, limits_of, place_of, sources_of};
ghost use Rattle.system_tables.specs.declared.fair_reassembly.share.Share.{Share as ShareOf};

use crate::fair_reassembly::outline::{Outline, of_unit};
use crate::fair_reassembly::share::Share;
use crate::reassembly::{Accept, Expired, Pieces, Segment, SlotNo, Table, TableLimits};
use pdus::pdu_header::base::NoMemory;
use pdus::pdu_header::decode_frame;
use pdus::pdu_header::nsaps::Address;
use pdus::pdu_header::views::View;
use std::alloc::Global;
use std::marker::Model;

/// What comes of a PDU.
#[derive(Clone, Copy)]
pub enum Took {
    /// Its lifetime is over.
    Dead,
    /// It is all of its unit.
    Alone,
    /// It is a part of its unit, and was offered to the table at this place, with this answer.
    Answered { table: usize, accept: Accept },
}

/// Reassembly buffers: a table for each source that has a share, and one for all other sources.
///
/// A contract sees it as its sources and its tables. Place 0 is that of the table of all others, and place `i + 1` that of
/// share `i`.
#[derive(Drop)]
pub struct FairTable {
    sources: Vec<Address>,
    tables: Vec<Table>,
}

impl Model for FairTable {
    ghost use Rattle.std.specs.Prelude.{◌≡◌, ◌+◌, length};
    ghost use Rattle.system_tables.specs.FairReassembly.Tables.{FairState};

    ghost Value = { FairState };

    ghost view = { λ f. record { sources = f.sources.items; tables = f.tables.items } };

    ghost invariant = { λ f. length f.tables.items ≡ length f.sources.items + 1 };
}

impl FairTable {
    /// Tables without buffers, for these shares and for all other sources. They reserve all the room that they will need.
    ///
    /// # Errors
    ///
    /// `NoMemory`.
    pub fn new(alloc: Global, others: TableLimits, shares: &[Share]) -> Result<FairTable, NoMemory>
        requires { AreDistinct (sources_of shares.now) }
        ensures new { IfOk result (AreNew others shares.now) }
        ensures places { IfOk result (λ state. (i : ℕ) (share : ShareOf) → slice_get shares.now i ≡ Some share
            → place_of state.sources share.from ≡ i + 1) }
        ensures behind { IfOk result (StandBehind (record { others = others; shares = shares.now }) []) }
    {
        let sources = sources_of(alloc, shares)?;
        let tables = tables_for(alloc, others, shares)?;
        Ok(FairTable { sources, tables })
    }

    /// The place of a source's table: behind that of all others, in the order of the shares, or that of all others where the
    /// source has no share.
    pub fn place(&self, from: &Address) -> usize
        ensures place { result ≡ place_of self.now.sources from.now }
        ensures within { result < length self.now.tables }
    {
        match place_in(&self.sources, from) {
            Some(at) => at + 1,
            None => 0,
        }
    }

    /// Takes a buffer whose time has ended at a moment out of a source's table: the one with the earliest deadline, the
    /// one that was opened first among equals. None exactly where no buffer's time has ended. No other table changes.
    pub fn expire(&mut self, now: u64, from: &Address) -> Option<Expired>
        ensures { ChangesTable (place_of self.old.sources from.now) self.old self.new (Expires now result) }
    {
        let place = self.place(from);
        let table = &mut self.tables[place];
        table.expire(now)
    }

    /// Takes what comes in a frame at a moment: a PDU whose lifetime is over is dead, one that is all of its unit is told
    /// as such, and any other is offered to the table of its source. No other table changes.
    pub fn offer(&mut self, now: u64, frame: View) -> Took
        requires moment { now < 2 ^ 62 }
        requires whole { frame ≡ whole frame.frame }
        requires few { length frame.frame ≤ 70000 }
        requires accepted { why_refused frame.frame ≡ None }
        requires ready { At self.old (place_of self.old.sources (value_in frame.frame).source) (IsReady now) }
        ensures { Takes now frame.frame (value_in frame.frame) self.old self.new result }
    {
        let Ok(pdu) = decode_frame(frame.frame()) else {
            unreachable!()
        };
        if pdu.life == 0 {
            return Took::Dead;
        }
        let Some(part) = of_unit(pdu.seg, pdu.more) else {
            return Took::Alone;
        };
        let outline = Outline::of(&pdu, part);
        let table = self.place(&pdu.from);
        let accept = self.accept(now, table, outline.segment(frame));
        Took::Answered { table, accept }
    }

    /// Offers a segment to the table at a place.
    fn accept(&mut self, now: u64, place: usize, segment: Segment) -> Accept
        requires moment { now < 2 ^ 62 }
        requires offered { MayCome segment }
        requires place { place < length self.old.tables }
        requires none_whole { At self.old place HasNoWhole }
        ensures { ChangesTable place self.old self.new (Accepts now segment result) }
    {
        let table = &mut self.tables[place];
        table.accept(now, segment)
    }

    /// The data of a whole unit in a table, piece by piece, each octet from the earliest segment that has it.
    pub fn pieces(&self, table: usize, slot: SlotNo) -> Pieces<'_>
        requires { IsAt self.now table (λ one. IsWholeSlot one slot.0) }
        ensures { At self.now table (λ one. (buffers : List (Buffer Extent)) (whole : Buffer Extent) → Stands one buffers
            → buffer.buffer_of whole.key buffers ≡ Some whole → Names one slot.0 whole.key
            → result ≡ buffer.data_of octet_in whole) }
    {
        let one = &self.tables[table];
        one.pieces(slot)
    }

    /// Takes a whole buffer out of a table. No other table changes.
    pub fn release(&mut self, table: usize, slot: SlotNo)
        requires { IsAt self.old table (λ one. IsWholeSlot one slot.0) }
        ensures { ChangesTable table self.old self.new (Releases slot.0) }
    {
        let one = &mut self.tables[table];
        one.release(slot);
    }

    /// How many octets a table holds: of the whole frames in which kept segments came.
    pub fn held(&self, table: usize) -> u32
        requires { table < length self.now.tables }
        ensures held { At self.now table (λ one. (buffers : List (Buffer Extent)) → Stands one buffers
            → result ≡ buffer.held buffers) }
        ensures within { At self.now table (λ one. result ≤ one.limits.budget) }
    {
        let one = &self.tables[table];
        one.held()
    }
}

/// The place of a source among some.
fn place_in(sources: &[Address], from: &Address) -> Option<usize>
    ensures place { result ≡ position_from (λ source. bytes_eq source from.now) 0 sources.now }
    ensures within { IfSome result (λ at. at < length sources.now) }
{
    sources.iter().position(|source| is_source(source, from))
}

/// Whether two sources are the same.
fn is_source(source: &Address, from: &Address) -> bool
    ensures { result ≡ bytes_eq source.now from.now }
{
    source == from
}

/// The sources of some shares.
fn sources_of(alloc: Global, shares: &[Share]) -> Result<Vec<Address>, NoMemory>
    ensures { IfOk result (λ sources. sources.items ≡ sources_of shares.now) }
{
    let mut sources = Vec::new(alloc);
    for share in shares {
        sources.push(share.from)?;
    }
    Ok(sources)
}

/// A table without buffers for all other sources, and behind it one for each share.
fn tables_for(alloc: Global, others: TableLimits, shares: &[Share]) -> Result<Vec<Table>, NoMemory>
    ensures { IfOk result (λ tables. AreOpened (limits_of others shares.now) tables.items) }
{
    let mut tables = Vec::new(alloc);
    tables.push(Table::new(alloc, others)?)?;
    for share in shares {
        tables.push(Table::new(alloc, share.limits)?)?;
    }
    Ok(tables)
}
