//! Receipt: PDUs for the system's own addresses, and reassembly buffers whose time has ended.
ghost use Rattle.std.specs.Prelude.{◌≡◌, ◌≤◌, ◌<◌, ◌+◌, ◌^◌, ◌++◌, ◌∷◌, [], ℕ, List, IfOk, OnOk, OnErr, length};
ghost use Rattle.clnp_machine.specs.PduHeader.Grammar.{BeginsWith};
ghost use Rattle.clnp_machine.specs.PduHeader.Headers.{SpellsHeader};
ghost use Rattle.clnp_machine.specs.PduHeader.Value.{PduValue};
ghost use Rattle.clnp_machine.specs.PduHeader.View.{pdu_value};
ghost use Rattle.clnp_machine.specs.Reassembly.State.{IsReady};
ghost use Rattle.clnp_machine.specs.Unit.{Packet, IsCarriable, wire};
ghost use Rattle.clnp_machine.specs.System.{SystemState};
ghost use Rattle.clnp_machine.specs.Local as locally;
ghost use Rattle.clnp_systems.specs.Local.{Appends, Stands};
ghost use Rattle.clnp_systems.specs.Receipt.{segment_in, segment_part};

use super::Local;
use crate::action::Action;
use crate::purpose::purpose_in;
use clnp_machine::base::{NoMemory, Octets};
use clnp_machine::clnp::{Pdu, SegPart, decode_frame, laws};
use clnp_machine::laws as machine_laws;
use clnp_machine::reassembling::{Key, Segment, Shape};
use clnp_machine::views::Frame;
use std::alloc::Global;

mod expiry;
mod noting;
mod offering;

impl Local {
    /// Receives a PDU for one of the system's addresses, and appends what is noted and sent: a whole unit is handed up,
    /// a segment is offered to the buffers.
    ///
    /// # Errors
    ///
    /// `NoMemory`: nothing changes then.
    pub fn receive(
        &mut self,
        alloc: Global,
        now: u64,
        frame: &Frame,
        out: &mut Vec<Action>,
    ) -> Result<(), NoMemory>
        requires moment { now < 2 ^ 62 }
        requires few { length frame.now ≤ 70000 }
        requires alive { (v : PduValue) × (rest : List ℕ) × BeginsWith frame.now v rest × (1 ≤ v.lifetime) }
        ensures stands { OnOk result ((s : SystemState) (p : Packet) (following : List ℕ) → Stands self.old s → s.moment ≡ now
            → IsCarriable p → frame.now ≡ wire p ++ following → Stands self.new (locally.receive s p following).after) }
        ensures actions { OnOk result ((s : SystemState) (p : Packet) (following : List ℕ) → Stands self.old s → s.moment ≡ now
            → IsCarriable p → frame.now ≡ wire p ++ following
            → Appends out.old.items out.new.items (locally.receive s p following).actions) }
        ensures same { OnErr result (self.new ≡ self.old) }
        ensures none { OnErr result (out.new.items ≡ out.old.items) }
        ensures config { self.new.configuration ≡ self.old.configuration }
        ensures ready { IsReady now self.old.table → IsReady now self.new.table }
    {
        laws::one_value();
        let Ok(pdu) = decode_frame(frame) else {
            unreachable!()
        };
        self.receive_pdu(alloc, now, &pdu, frame, out)
    }

    /// Receives a PDU for one of the system's addresses that was read at the front of a frame, as `receive` does the frame.
    ///
    /// # Errors
    ///
    /// `NoMemory`: nothing changes then.
    pub fn receive_pdu(
        &mut self,
        alloc: Global,
        now: u64,
        pdu: &Pdu<'_>,
        frame: &Frame,
        out: &mut Vec<Action>,
    ) -> Result<(), NoMemory>
        requires moment { now < 2 ^ 62 }
        requires few { length frame.now ≤ 70000 }
        requires front { BeginsWith frame.now (pdu_value pdu.now) pdu.now.rest.now }
        requires header { SpellsHeader (pdu_value pdu.now) pdu.now.head.now }
        requires alive { 1 ≤ pdu.now.life }
        ensures stands { OnOk result ((s : SystemState) (p : Packet) (following : List ℕ) → Stands self.old s → s.moment ≡ now
            → IsCarriable p → frame.now ≡ wire p ++ following → Stands self.new (locally.receive s p following).after) }
        ensures actions { OnOk result ((s : SystemState) (p : Packet) (following : List ℕ) → Stands self.old s → s.moment ≡ now
            → IsCarriable p → frame.now ≡ wire p ++ following
            → Appends out.old.items out.new.items (locally.receive s p following).actions) }
        ensures same { OnErr result (self.new ≡ self.old) }
        ensures none { OnErr result (out.new.items ≡ out.old.items) }
        ensures config { self.new.configuration ≡ self.old.configuration }
        ensures ready { IsReady now self.old.table → IsReady now self.new.table }
    {
        machine_laws::a_frame_carries_one_packet();
        let purpose = purpose_in(pdu);
        let Some(part) = segment_part(pdu.seg, pdu.more) else {
            let octets = Octets::copy(alloc, pdu.body)?;
            return self
                .endpoint
                .hand_up(alloc, now, purpose, pdu.from, pdu.to, octets, out);
        };
        let segment = segment_in(frame, pdu, part)?;
        self.offer(alloc, now, segment, purpose, frame, out)
    }
}

/// The segmentation part of a PDU that isn't all of its unit (ISO/IEC 8473, section 7.4).
fn segment_part(part: Option<SegPart>, more: bool) -> Option<SegPart>
    ensures { result ≡ segment_part part more }
{
    let part = part?;
    if part.offset == 0 && !more {
        return None;
    }
    Some(part)
}

/// The segment that a PDU at the front of a frame is.
fn segment_in(frame: &Frame, pdu: &Pdu<'_>, part: SegPart) -> Result<Segment, NoMemory>
    requires head { length pdu.now.head.now ≤ 254 }
    requires octets { length pdu.now.head.now + length pdu.now.body.now ≤ length frame.now }
    ensures { IfOk result (λ segment. segment ≡ segment_in frame.now pdu.now part) }
{
    let key = Key {
        from: pdu.from,
        to: pdu.to,
        id: part.id,
    };
    let shape = Shape {
        total: part.total,
        head_len: pdu.head.len() as u8,
        kind: pdu.kind.type_code(),
    };
    let octets = pdu.head.len() + pdu.body.len();
    Ok(Segment {
        key,
        shape,
        offset: part.offset,
        life: pdu.life,
        pdu: frame.view()?.narrow(0, octets),
    })
}
