//! Notes for which there is room.
ghost use Rattle.std.specs.Prelude.{◌≡◌, ◌<◌, ◌≤◌, ◌+◌, ◌++◌, ◌∷◌, [], vec_capacity, vec_len};
ghost use Rattle.clnp_systems.specs.declared.action.Action.TheVariants.{Note as Noted};

use crate::action::Action;
use clnp_machine::system_plan::Note;

/// Appends a note.
pub(super) fn note(out: &mut Vec<Action>, note: Note)
    requires { vec_len out.old < vec_capacity out.old }
    ensures noted { out.new.items ≡ out.old.items ++ Noted note ∷ [] }
    ensures len { vec_len out.new ≡ vec_len out.old + 1 }
    ensures capacity { vec_capacity out.old ≤ vec_capacity out.new }
{
    out.push_reserved(Action::Note(note));
}
