//! Frames that come, one by one, and the lines that tell what comes of them.
ghost use Rattle.std.specs.Prelude.{◌≡◌, ◌≢◌, ◌++◌, ◌^◌, ◌<◌, ◌≤◌, ℕ, List, None, Some, IfOk, OnOk, length};
ghost use Rattle.clnp_program.specs.FairCommands.Claims.{IsInRange};
ghost use Rattle.clnp_program.specs.FairCommands.Output.{told_line};
ghost use Rattle.clnp_program.specs.FairCommands.Telling.{told_by};
ghost use Rattle.scenario.specs.ClnpPlan.ClnpViews.Extent.{Extent};
ghost use Rattle.scenario.specs.PduHeader.Grammar.{BeginsWith};
ghost use Rattle.scenario.specs.PduHeader.View.{part_value, pdu_value, why_refused};
ghost use Rattle.system_tables.specs.declared.fair_reassembly.came.Came.{Came as CameOf};
ghost use Rattle.system_tables.specs.declared.reassembly.segment.Key.{Key};
ghost use Rattle.system_tables.specs.declared.reassembly.segment.Segment.{Segment};
ghost use Rattle.system_tables.specs.Reassembly.Arrival.{octet_in};
ghost use Rattle.system_tables.specs.Reassembly.Buffer as buffer;
ghost use Rattle.system_tables.specs.Reassembly.Buffer.{Buffer};
ghost use Rattle.system_tables.specs.Reassembly.NoWhole.{HasNoWhole};
ghost use Rattle.system_tables.specs.Reassembly.State.{IsReady, IsWholeSlot, Names, Stands, said};
ghost use Rattle.system_tables.specs.FairReassembly.Behind.{StandBehind};
ghost use Rattle.system_tables.specs.FairReassembly.Calls.{Accepts, Releases};
ghost use Rattle.system_tables.specs.FairReassembly.Classes as classes;
ghost use Rattle.system_tables.specs.FairReassembly.Classes.{Shares, arrives, comes, expire_all, offers, takes_in, tells};
ghost use Rattle.system_tables.specs.FairReassembly.Coming.{value_in};
ghost use Rattle.system_tables.specs.FairReassembly.Tables.{At, ChangesTable, FairState, IsAt, place_of};
ghost use Rattle.clnp_program.specs.FairCommands.Frames.{GoesOn, Tells};

use crate::fair_commands::clnp::{Pdu, SegPart, decode_frame};
use crate::fair_commands::fair::{Accept, Came, FairTable, SlotNo, Took, laws};
use crate::fair_commands::nsaps::Address;
use crate::fair_commands::{Told, push_told};
use clnp_base::command_base::base::NoMemory;
use std::alloc::Global;

/// Takes in a frame, and appends the lines that tell what comes of it.
///
/// # Errors
///
/// `NoMemory`: the tables and what was appended are of no use then.
pub(crate) fn push_frame(
    alloc: Global,
    tables: &mut FairTable,
    came: &Came,
    out: &mut Vec<u8>,
) -> Result<(), NoMemory>
    requires in_range { IsInRange came.now }
    requires ready { (place : ℕ) → At tables.old place HasNoWhole }
    ensures { OnOk result ((s : Shares) (before : List CameOf) → StandBehind s before tables.old
        → GoesOn s before came.now tables.new out.old.items out.new.items) }
{
    // Its clause: a frame changes the table of its source as the model says, and no other.
    laws::tables_stand_behind_each_frame();
    match decode_frame(&came.frame) {
        Ok(pdu) => push_pdu(alloc, tables, came, &pdu, out),
        Err(_) => push_told(came.moment, Told::Unread, out),
    }
}

/// Takes in a frame with this PDU at its front, behind the buffers of its source's table whose time has ended, and appends the
/// lines that tell what comes of it.
fn push_pdu(
    alloc: Global,
    tables: &mut FairTable,
    came: &Came,
    pdu: &Pdu<'_>,
    out: &mut Vec<u8>,
) -> Result<(), NoMemory>
    requires in_range { IsInRange came.now }
    requires begins { BeginsWith came.now.frame (pdu_value pdu.now) pdu.now.rest.now }
    requires accepted { why_refused came.now.frame ≡ None }
    requires ready { At tables.old (place_of tables.old.sources pdu.now.from) HasNoWhole }
    ensures value { pdu_value pdu.now ≡ value_in came.now.frame }
    ensures tells { OnOk result (ChangesTable (place_of tables.old.sources pdu.now.from) tables.old tables.new
        (Tells (λ limits buffers. comes limits came.now buffers) came.now.moment out.old.items out.new.items)) }
{
    // Its clause: the value is read off the frame.
    laws::a_frame_has_one_value();
    push_expired(came.moment, tables, &pdu.from, out)?;
    push_arrived(alloc, tables, came, pdu, out)
}

/// Takes the buffers of a source's table whose time has ended at a moment out, one after the other, and appends the lines that
/// tell of them.
fn push_expired(
    moment: u64,
    tables: &mut FairTable,
    from: &Address,
    out: &mut Vec<u8>,
) -> Result<(), NoMemory>
    requires { At tables.old (place_of tables.old.sources from.now) HasNoWhole }
    ensures tells { OnOk result (ChangesTable (place_of tables.old.sources from.now) tables.old tables.new
        (Tells (λ limits buffers. expire_all moment buffers) moment out.old.items out.new.items)) }
    ensures ready { OnOk result (IsAt tables.new (place_of tables.old.sources from.now) (IsReady moment)) }
{
    // Its clauses: what ends behind the first that is due.
    laws::buffers_end_until_none_is_due();
    while let Some(ended) = tables.expire(moment, from) {
        let place = tables.place(from);
        let told = Told::Expired {
            from: &ended.key.from,
            to: &ended.key.to,
            id: ended.key.id,
            held: tables.held(place),
        };
        push_told(moment, told, out)?;
    }
    Ok(())
}

/// Takes in the PDU at the front of a frame, and appends the line that tells what comes of it.
fn push_arrived(
    alloc: Global,
    tables: &mut FairTable,
    came: &Came,
    pdu: &Pdu<'_>,
    out: &mut Vec<u8>,
) -> Result<(), NoMemory>
    requires in_range { IsInRange came.now }
    requires value { pdu_value pdu.now ≡ value_in came.now.frame }
    requires accepted { why_refused came.now.frame ≡ None }
    requires ready { IsAt tables.old (place_of tables.old.sources pdu.now.from) (IsReady came.now.moment) }
    ensures { OnOk result (ChangesTable (place_of tables.old.sources pdu.now.from) tables.old tables.new
        (Tells (λ limits buffers. arrives limits came.now (pdu_value pdu.now) buffers) came.now.moment out.old.items out.new.items)) }
{
    let moment = came.moment;
    let (from, to, kind) = (&pdu.from, &pdu.to, pdu.kind);
    let frame = came.frame.view()?;
    match tables.offer(moment, frame) {
        Took::Dead => push_told(moment, Told::Dead { from }, out),
        Took::Alone => {
            let octets = pdu.body;
            let told = Told::Joined {
                from,
                to,
                kind,
                octets,
            };
            push_told(moment, told, out)
        }
        Took::Answered { table, accept } => {
            let Some(part) = pdu.seg else { unreachable!() };
            push_answer(alloc, moment, tables, table, pdu, part, accept, out)
        }
    }
}

/// Appends the line that tells what came of a segment that was offered to a table, with this answer, and takes its buffer out
/// where its unit is whole.
fn push_answer(
    alloc: Global,
    moment: u64,
    tables: &mut FairTable,
    table: usize,
    pdu: &Pdu<'_>,
    part: SegPart,
    accept: Accept,
    out: &mut Vec<u8>,
) -> Result<(), NoMemory>
    requires place { table < length tables.old.tables }
    requires whole { (slot : SlotNo) → accept ≡ Accept.Whole slot
        → IsAt tables.old table (λ one. IsWholeSlot one slot.0) }
    ensures { OnOk result ((before : FairState) (segment : Segment) → ChangesTable table before tables.old (Accepts moment segment accept)
        → ChangesTable table before tables.new
        (Tells (λ limits buffers. offers limits moment (pdu_value pdu.now) (part_value part) segment buffers) moment out.old.items out.new.items)) }
{
    match accept {
        Accept::Whole(slot) => push_joined(alloc, moment, tables, table, slot, pdu, out),
        answer => {
            let held = tables.held(table);
            push_told(moment, told_of(pdu, part, answer, held), out)
        }
    }
}

/// What is told of a segment that doesn't make its unit whole, where its table holds so many octets then.
fn told_of<'a>(pdu: &'a Pdu<'_>, part: SegPart, answer: Accept, held: u32) -> Told<'a>
    requires { (slot : SlotNo) → answer ≢ Accept.Whole slot }
    ensures { (key : Key) (buffers : List (Buffer Extent)) → held ≡ buffer.held buffers
        → takes_in (pdu_value pdu.now) (part_value part) key (said answer) buffers ≡ tells (told_by result) buffers }
{
    let from = &pdu.from;
    let (id, offset) = (part.id, part.offset);
    match answer {
        Accept::Held => Told::Held {
            from,
            id,
            offset,
            held,
        },
        Accept::Repeat => Told::Repeat { from, id, offset },
        Accept::Interference { .. } => Told::Interference { from, id },
        Accept::NoSlot { live } => Told::NoSlot { from, live },
        Accept::Crowded { held, size } => Told::Crowded { from, held, size },
        Accept::Many { kept } => Told::Many { from, kept },
        Accept::Whole(_) => unreachable!(),
    }
}

/// Appends the line of a unit that is whole, and takes its buffer out of its table.
fn push_joined(
    alloc: Global,
    moment: u64,
    tables: &mut FairTable,
    table: usize,
    slot: SlotNo,
    pdu: &Pdu<'_>,
    out: &mut Vec<u8>,
) -> Result<(), NoMemory>
    requires { IsAt tables.old table (λ one. IsWholeSlot one slot.0) }
    ensures released { OnOk result (ChangesTable table tables.old tables.new (Releases slot.0)) }
    ensures told { OnOk result (At tables.old table (λ one. (buffers : List (Buffer Extent)) (whole : Buffer Extent) → Stands one buffers
        → buffer.buffer_of whole.key buffers ≡ Some whole → Names one slot.0 whole.key
        → out.new.items ≡ out.old.items ++ told_line moment (classes.Joined pdu.now.from pdu.now.to pdu.now.kind (buffer.data_of octet_in whole)))) }
{
    let octets = joined(alloc, tables, table, slot)?;
    tables.release(table, slot);
    let told = Told::Joined {
        from: &pdu.from,
        to: &pdu.to,
        kind: pdu.kind,
        octets: octets.as_slice(),
    };
    push_told(moment, told, out)
}

/// The data of a whole unit.
fn joined(
    alloc: Global,
    tables: &FairTable,
    table: usize,
    slot: SlotNo,
) -> Result<Vec<u8>, NoMemory>
    requires { IsAt tables.now table (λ one. IsWholeSlot one slot.0) }
    ensures { IfOk result (λ octets. At tables.now table (λ one. (buffers : List (Buffer Extent)) (whole : Buffer Extent) → Stands one buffers
        → buffer.buffer_of whole.key buffers ≡ Some whole → Names one slot.0 whole.key
        → octets.items ≡ buffer.data_of octet_in whole)) }
{
    let mut octets = Vec::new(alloc);
    for piece in tables.pieces(table, slot) {
        octets.extend_from_slice(piece)?;
    }
    Ok(octets)
}
