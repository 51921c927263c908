//! PDUs that are discarded, and the error reports of that (ISO/IEC 8473, sections 6.9 and 6.10).
ghost use Rattle.std.specs.Prelude.{◌≡◌, ◌≤◌, ◌+◌, IfSome, vec_capacity, vec_len};
ghost use Rattle.clnp_machine.specs.ClnpViews.Extent.{seen};
ghost use Rattle.clnp_machine.specs.Content.{Content, frame_of};
ghost use Rattle.clnp_machine.specs.Local as locally;
ghost use Rattle.clnp_machine.specs.Reassembly.State.{TableState};
ghost use Rattle.clnp_machine.specs.System.{SystemState};
ghost use Rattle.clnp_systems.specs.Endpoint.{StandsWith};
ghost use Rattle.clnp_systems.specs.Local.{Appends};
ghost use Rattle.clnp_systems.specs.Reporting.{IsReport};

use super::Endpoint;
use crate::action::{Action, Draft};
use clnp_machine::clnp::Kind;
use clnp_machine::reports::report_in;
use clnp_machine::system_plan::Note;
use clnp_machine::views::View;

impl Endpoint {
    /// Discards a PDU whose frame is in view, where there is room for what is noted and sent.
    pub(crate) fn discard(&mut self, frame: View, reason: u8, place: u8, out: &mut Vec<Action>)
        requires { vec_len out.old + 3 ≤ vec_capacity out.old }
        ensures stands { (table : TableState) (s : SystemState) (content : Content) → StandsWith table self.old s → frame_of content ≡ seen frame
            → StandsWith table self.new (locally.discard s content reason place).after }
        ensures actions { (table : TableState) (s : SystemState) (content : Content) → StandsWith table self.old s → frame_of content ≡ seen frame
            → Appends out.old.items out.new.items (locally.discard s content reason place).actions }
        ensures config { self.new.config ≡ self.old.config }
        ensures len { vec_len out.new ≤ vec_len out.old + 3 }
        ensures capacity { vec_capacity out.old ≤ vec_capacity out.new }
    {
        out.push_reserved(Action::Note(Note::Discard { reason, place }));
        let Some(draft) = self.report_of(frame, reason, place) else {
            return;
        };
        self.send(draft, out);
    }

    /// The error report of a frame's discard, where one is made.
    fn report_of(&self, frame: View, reason: u8, place: u8) -> Option<Draft>
        ensures report { (table : TableState) (s : SystemState) → StandsWith table self.now s → IsReport s (seen frame) reason place result }
        ensures few { IfSome result (λ draft. draft.body.len ≤ 255) }
    {
        let own = self.config.addresses().first()?;
        let settings = self.config.settings();
        let made = report_in(&frame, own, reason, place, settings.life, settings.sealed)?;
        Some(Draft {
            kind: Kind::Er,
            id: None,
            from: *own,
            to: made.to,
            head: made.head,
            body: frame.narrow(0, usize::from(made.body_len)),
        })
    }
}
