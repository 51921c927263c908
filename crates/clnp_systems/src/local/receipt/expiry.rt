//! Reassembly buffers whose time has ended (ISO/IEC 8473, section 6.9).
ghost use Rattle.std.specs.Prelude.{◌≡◌, ◌<◌, ◌≤◌, ◌+◌, ◌^◌, ◌++◌, ◌∷◌, List, Option, OnOk, OnErr, is_some, option_map, vec_capacity, vec_len};
ghost use Rattle.clnp_machine.specs.ClnpViews.Extent.{Extent, seen};
ghost use Rattle.clnp_machine.specs.Reassembly.Buffer as buffer;
ghost use Rattle.clnp_machine.specs.Reassembly.Buffer.{Buffer};
ghost use Rattle.clnp_machine.specs.Reassembly.State as table;
ghost use Rattle.clnp_machine.specs.Reassembly.State.{IsReady};
ghost use Rattle.clnp_machine.specs.ClnpPlan.declared.note.Note.TheVariants.{Expired};
ghost use Rattle.clnp_machine.specs.Unit.{Packet, wire};
ghost use Rattle.clnp_machine.specs.System.{SystemState};
ghost use Rattle.clnp_machine.specs.Local as locally;
ghost use Rattle.clnp_systems.specs.Local.{Appends, Stands};

use super::super::Local;
use super::noting::note;
use crate::action::Action;
use clnp_machine::base::NoMemory;
use clnp_machine::options::Reason;
use clnp_machine::system_plan::Note;
use clnp_machine::views::View;
use std::alloc::Global;

impl Local {
    /// Takes out the buffers whose time has ended by a moment, and appends what is noted and sent.
    ///
    /// # Errors
    ///
    /// `NoMemory`: nothing changes then.
    pub fn tick(&mut self, alloc: Global, now: u64, out: &mut Vec<Action>) -> Result<(), NoMemory>
        requires moment { now < 2 ^ 62 }
        ensures stands { OnOk result ((s : SystemState) → Stands self.old s → Stands self.new (locally.tick s now).after) }
        ensures actions { OnOk result ((s : SystemState) → Stands self.old s
            → Appends out.old.items out.new.items (locally.tick s now).actions) }
        ensures same { OnErr result (self.new ≡ self.old) }
        ensures none { OnErr result (out.new.items ≡ out.old.items) }
        ensures config { self.new.configuration ≡ self.old.configuration }
        ensures ready { OnOk result (IsReady now self.new.table) }
    {
        let live = usize::from(self.table.live());
        // A buffer's end is noted, and perhaps a discard and its report, which is noted and sent.
        let Ok(()) = out.reserve(4 * live) else {
            return Err(NoMemory);
        };
        for _ in 0..live {
            if !self.give_up(now, out) {
                return Ok(());
            }
        }
        Ok(())
    }

    /// Takes out the buffer whose time ended first by a moment, and appends what is noted. Says whether there is one.
    fn give_up(&mut self, now: u64, out: &mut Vec<Action>) -> bool
        requires { vec_len out.old + 4 ≤ vec_capacity out.old }
        ensures stands { (s : SystemState) → Stands self.old s → s.moment ≡ now
            → Stands self.new (locally.expire 1 s).after }
        ensures actions { (s : SystemState) → Stands self.old s → s.moment ≡ now
            → Appends out.old.items out.new.items (locally.expire 1 s).actions }
        ensures given { (buffers : List (Buffer Extent)) → table.Stands self.old.table buffers
            → (result ≡ is_some (buffer.due now buffers))
            × table.Stands self.new.table (buffer.without_due (buffer.due now buffers) buffers) }
        ensures len { vec_len out.new ≤ vec_len out.old + 4 }
        ensures capacity { vec_capacity out.old ≤ vec_capacity out.new }
        ensures config { self.new.configuration ≡ self.old.configuration }
    {
        let Some(ended) = self.table.expire(now) else {
            return false;
        };
        self.end(ended.key.id, ended.first, out);
        true
    }

    /// Appends what is noted of a buffer whose time has ended, once it is taken out: the PDU at the beginning of the unit, if
    /// it came, is discarded.
    fn end(&mut self, id: u16, first: Option<View>, out: &mut Vec<Action>)
        requires { vec_len out.old + 4 ≤ vec_capacity out.old }
        ensures stands { (s : SystemState) (other : Option Packet) → Stands self.old s
            → option_map seen first ≡ option_map wire other → Stands self.new (locally.discard_first s other).after }
        ensures actions { (s : SystemState) (other : Option Packet) → Stands self.old s
            → option_map seen first ≡ option_map wire other → Appends out.old.items out.new.items
            (locally.Tells (Expired id (buffer.held s.buffers)) ∷ (locally.discard_first s other).actions) }
        ensures config { self.new.configuration ≡ self.old.configuration }
        ensures table { self.new.table ≡ self.old.table }
        ensures len { vec_len out.new ≤ vec_len out.old + 4 }
        ensures capacity { vec_capacity out.old ≤ vec_capacity out.new }
    {
        let held = self.held();
        note(out, Note::Expired { id, held });
        let Some(first) = first else {
            return;
        };
        let reason = Reason::LifetimeExpiredInReassembly.code();
        self.endpoint.discard(first, reason, 0, out);
    }
}
