//! Segments that are offered to the reassembly buffers (ISO/IEC 8473, section 6.8).
ghost use Rattle.std.specs.Prelude.{◌≡◌, ◌≢◌, ◌≤◌, ◌<◌, ◌^◌, ◌∷◌, ℕ, false, List, IfOk, OnOk, OnErr, vec_capacity, vec_len};
ghost use Rattle.clnp_machine.specs.ClnpOptions.Parameter.{Parameter};
ghost use Rattle.clnp_machine.specs.ClnpOptions.Reasons.{reason_code};
ghost use Rattle.clnp_machine.specs.ClnpViews.Extent.{seen};
ghost use Rattle.clnp_machine.specs.Pdus.declared.pdu_header.kind.Kind.{Kind as KindOf};
ghost use Rattle.clnp_machine.specs.Reassembly.Arrival.{Arrival, data_len};
ghost use Rattle.clnp_machine.specs.Reassembly.Buffer as buffer;
ghost use Rattle.clnp_machine.specs.Reassembly.Buffer.{Buffer};
ghost use Rattle.clnp_machine.specs.Reassembly.Offered.{MayCome};
ghost use Rattle.clnp_machine.specs.Reassembly.State.{IsReady, IsWholeSlot, said, was_kept};
ghost use Rattle.clnp_machine.specs.Unit.{Packet};
ghost use Rattle.clnp_machine.specs.Content.{Content, frame_of};
ghost use Rattle.clnp_machine.specs.System.{SystemState};
ghost use Rattle.clnp_machine.specs.Local as locally;
ghost use Rattle.clnp_systems.specs.Endpoint.{StandsWith};
ghost use Rattle.clnp_systems.specs.Local.{Appends, Stands};
ghost use Rattle.clnp_systems.specs.Receipt.{AreDataAt, IsShown, purpose_of, with_answer};

use super::super::Local;
use super::noting::note;
use crate::action::Action;
use crate::endpoint::Endpoint;
use crate::purpose::Purpose;
use clnp_machine::base::{NoMemory, Octets};
use clnp_machine::options::Reason;
use clnp_machine::reassembling::{Accept, Key, Segment, Shape, SlotNo, Table};
use clnp_machine::system_plan::Note;
use clnp_machine::views::{Frame, View};
use std::alloc::Global;

impl Local {
    /// Offers a segment that came in a frame to the buffers, and appends what is noted and sent. Where its unit is whole and
    /// memory is refused, it is taken out again.
    ///
    /// # Errors
    ///
    /// `NoMemory`: nothing changes then.
    pub(super) fn offer(
        &mut self,
        alloc: Global,
        now: u64,
        segment: Segment,
        purpose: Purpose,
        frame: &Frame,
        out: &mut Vec<Action>,
    ) -> Result<(), NoMemory>
        requires moment { now < 2 ^ 62 }
        requires offered { MayCome segment }
        ensures stands { OnOk result ((s : SystemState) (content : Content) (arrival : Arrival Packet) → Stands self.old s
            → s.moment ≡ now → IsShown segment arrival → frame_of content ≡ frame.now
            → purpose ≡ purpose_of arrival.carried.unit.kind arrival.carried.options
            → Stands self.new (locally.offer s content arrival).after) }
        ensures actions { OnOk result ((s : SystemState) (content : Content) (arrival : Arrival Packet) → Stands self.old s
            → s.moment ≡ now → IsShown segment arrival → frame_of content ≡ frame.now
            → purpose ≡ purpose_of arrival.carried.unit.kind arrival.carried.options
            → Appends out.old.items out.new.items (locally.offer s content arrival).actions) }
        ensures same { OnErr result (self.new ≡ self.old) }
        ensures none { OnErr result (out.new.items ≡ out.old.items) }
        ensures config { self.new.configuration ≡ self.old.configuration }
        ensures ready { IsReady now self.old.table → IsReady now self.new.table }
    {
        let frame = frame.view()?;
        let Ok(()) = out.reserve_exact(1) else {
            return Err(NoMemory);
        };
        let key = segment.key;
        let offset = segment.offset;
        let len = data_len(segment.shape);
        match self.table.accept(now, segment) {
            Accept::Whole(slot) => {
                let table = &self.table;
                let endpoint = &mut self.endpoint;
                let Ok(()) = hand_up_whole(
                    endpoint, alloc, now, table, slot, len, purpose, key, out,
                ) else {
                    self.table.undo(slot);
                    return Err(NoMemory);
                };
                self.table.release(slot);
                Ok(())
            }
            answer => self.tell(answer, key.id, offset, frame, out),
        }
    }

    /// Appends what is noted of a segment that came in this frame and doesn't make its unit whole, once it is kept or not: it
    /// is discarded where it isn't kept and isn't a repeat.
    fn tell(
        &mut self,
        answer: Accept,
        id: u16,
        offset: u16,
        frame: View,
        out: &mut Vec<Action>,
    ) -> Result<(), NoMemory>
        requires room { vec_len out.old < vec_capacity out.old }
        requires not_whole { said answer ≢ buffer.Whole }
        ensures stands { OnOk result ((s : SystemState) (content : Content) (arrival : Arrival Packet) (kept : List (Buffer Packet))
            → Stands self.old (with_answer s kept (said answer)) → frame_of content ≡ seen frame
            → Stands self.new (locally.takes_in s content arrival kept (said answer)).after) }
        ensures actions { OnOk result ((s : SystemState) (content : Content) (arrival : Arrival Packet) (kept : List (Buffer Packet))
            → Stands self.old (with_answer s kept (said answer)) → frame_of content ≡ seen frame
            → arrival.key.id ≡ id → arrival.offset ≡ offset
            → Appends out.old.items out.new.items (locally.takes_in s content arrival kept (said answer)).actions) }
        ensures refused { OnErr result (was_kept answer ≡ false) }
        ensures same { OnErr result (self.new ≡ self.old) }
        ensures none { OnErr result (out.new.items ≡ out.old.items) }
        ensures config { self.new.configuration ≡ self.old.configuration }
        ensures table { self.new.table ≡ self.old.table }
    {
        match answer {
            Accept::Held => {
                let held = self.held();
                note(out, Note::Held { id, offset, held });
                Ok(())
            }
            Accept::Repeat => {
                note(out, Note::Repeat { id, offset });
                Ok(())
            }
            Accept::Interference { .. } => {
                let reason = Reason::ReassemblyInterference;
                self.refuse(Note::Interference { id }, reason, frame, out)
            }
            Accept::NoSlot { live } => {
                self.refuse(Note::NoSlot { live }, Reason::Congestion, frame, out)
            }
            Accept::Crowded { held, size } => {
                self.refuse(Note::Crowded { held, size }, Reason::Congestion, frame, out)
            }
            Accept::Many { kept } => {
                self.refuse(Note::Many { kept }, Reason::Congestion, frame, out)
            }
            Accept::Whole(_) => unreachable!(),
        }
    }

    /// Appends why a segment isn't kept that came in this frame, and discards it.
    fn refuse(
        &mut self,
        why: Note,
        reason: Reason,
        frame: View,
        out: &mut Vec<Action>,
    ) -> Result<(), NoMemory>
        ensures stands { OnOk result ((s : SystemState) (content : Content) → Stands self.old s → frame_of content ≡ seen frame
            → Stands self.new (locally.discard s content (reason_code reason) 0).after) }
        ensures actions { OnOk result ((s : SystemState) (content : Content) → Stands self.old s → frame_of content ≡ seen frame
            → Appends out.old.items out.new.items
            (locally.Tells why ∷ (locally.discard s content (reason_code reason) 0).actions)) }
        ensures same { OnErr result (self.new ≡ self.old) }
        ensures none { OnErr result (out.new.items ≡ out.old.items) }
        ensures config { self.new.configuration ≡ self.old.configuration }
        ensures table { self.new.table ≡ self.old.table }
    {
        let Ok(()) = out.reserve_exact(4) else {
            return Err(NoMemory);
        };
        note(out, why);
        self.endpoint.discard(frame, reason.code(), 0, out);
        Ok(())
    }
}

/// Hands up the data of the whole unit at a slot of a table; room for `len` octets is made first. The unit's buffer stays.
///
/// # Errors
///
/// `NoMemory`: nothing changes then.
fn hand_up_whole(
    endpoint: &mut Endpoint,
    alloc: Global,
    now: u64,
    table: &Table,
    slot: SlotNo,
    len: usize,
    purpose: Purpose,
    key: Key,
    out: &mut Vec<Action>,
) -> Result<(), NoMemory>
    requires moment { now < 2 ^ 62 }
    requires whole { IsWholeSlot table.now slot.0 }
    ensures stands { OnOk result ((s : SystemState) (kind : KindOf) (options : List Parameter) (octets : List ℕ)
        → StandsWith table.now endpoint.old s → s.moment ≡ now → purpose ≡ purpose_of kind options
        → AreDataAt table.now slot.0 octets
        → StandsWith table.now endpoint.new (locally.hand_up s kind key.from key.to octets options).after) }
    ensures actions { OnOk result ((s : SystemState) (kind : KindOf) (options : List Parameter) (octets : List ℕ)
        → StandsWith table.now endpoint.old s → s.moment ≡ now → purpose ≡ purpose_of kind options
        → AreDataAt table.now slot.0 octets
        → Appends out.old.items out.new.items (locally.hand_up s kind key.from key.to octets options).actions) }
    ensures same { OnErr result (endpoint.new ≡ endpoint.old) }
    ensures none { OnErr result (out.new.items ≡ out.old.items) }
    ensures config { endpoint.new.config ≡ endpoint.old.config }
{
    let octets = joined(alloc, table, slot, len)?;
    endpoint.hand_up(alloc, now, purpose, key.from, key.to, octets, out)
}

/// How many octets of data a unit of this shape has.
fn data_len(shape: Shape) -> usize
    requires { shape.head_len ≤ shape.total }
    ensures { result ≡ data_len shape }
{
    usize::from(shape.total - u16::from(shape.head_len))
}

/// The data of the whole unit at a slot; room for `len` octets is made first.
fn joined(alloc: Global, table: &Table, slot: SlotNo, len: usize) -> Result<Octets, NoMemory>
    requires { IsWholeSlot table.now slot.0 }
    ensures { IfOk result (λ octets. (whole : List ℕ) → AreDataAt table.now slot.0 whole → octets ≡ whole) }
{
    let mut octets = Vec::with_capacity(alloc, len)?;
    for piece in table.pieces(slot) {
        octets.extend_from_slice(piece)?;
    }
    Ok(Octets::from_vec(octets))
}
