//! Room for a segment more.
ghost use Rattle.std.specs.Prelude.{◌≡◌, ◌<◌, ◌≤◌, ◌^◌, List, length, vec_capacity};
ghost use Rattle.std.specs.List.{AllByRecursion};
ghost use Rattle.system_tables.specs.declared.reassembly.openings.Opening.{Opening};
ghost use Rattle.system_tables.specs.Reassembly.Entries.{present};
ghost use Rattle.system_tables.specs.Reassembly.Index.{IsIndexOf};

use crate::reassembly::runs::Runs;
use crate::reassembly::segments::Segments;

/// Makes room for a segment more, where there is none but in empty entries. Where no segment is kept, all entries go, so that
/// those of the next units stand where others stood.
pub(super) fn make_room(segments: &mut Segments, runs: &mut Runs, names: &mut Vec<u16>)
    requires few { length (present segments.old.entries) < segments.old.room }
    requires within { length segments.old.entries ≤ segments.old.room }
    requires fits { segments.old.room < 2 ^ 16 }
    requires named { segments.old.room ≤ vec_capacity names.old }
    ensures present { present segments.new.entries ≡ present segments.old.entries }
    ensures more { length segments.new.entries < segments.new.room }
    ensures room { segments.new.room ≡ segments.old.room }
    ensures index { (openings : List Opening) → AllByRecursion (λ opening. opening.shape.head_len < opening.shape.total) openings
        → IsIndexOf segments.old.entries openings runs.old.groups → IsIndexOf segments.new.entries openings runs.new.groups }
    ensures slots { runs.old.slots ≤ runs.new.slots }
    ensures runs { runs.old.room ≤ runs.new.room }
    ensures capacity { vec_capacity names.old ≤ vec_capacity names.new }
{
    if segments.len() == 0 {
        segments.clear();
    } else if segments.is_full() {
        segments.close_up(names);
        runs.rename(names);
    }
}
