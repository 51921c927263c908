//! The data of a whole unit, run by run.
ghost use Rattle.std.specs.Prelude.{◌≡◌, ◌++◌, ◌<◌, ◌≤◌, ℕ, [], length, map, true, MatchOption};
ghost use Rattle.std.specs.List.{AllByRecursion, range_with_len};
ghost use Rattle.system_tables.specs.Reassembly.Arrival.{are_covered, arrival_of, earliest, octet_in};
ghost use Rattle.system_tables.specs.Reassembly.Buffer.{octet_by};
ghost use Rattle.system_tables.specs.Reassembly.Entries.{present};
ghost use Rattle.system_tables.specs.Reassembly.Index.{giver};
ghost use Rattle.system_tables.specs.Reassembly.Offered.{MayCome};
ghost use Rattle.system_tables.specs.Reassembly.Runs.{AreJoined, filler};
ghost use Rattle.system_tables.specs.Reassembly.State.{segments_of};

use crate::reassembly::runs::Group;
use crate::reassembly::segment::{Key, Segment};
use std::marker::Model;

/// What is left of the data of a whole unit, by the runs of which each lies in one kept segment.
///
/// A contract sees it as the list of the octets that are left.
#[derive(Drop)]
pub(crate) struct Spans<'a> {
    entries: &'a [Option<Segment>],
    runs: Group<'a>,
    key: Key,
    place: usize,
    end: usize,
}

impl<'a> Model for Spans<'a> {
    ghost use Rattle.std.specs.Prelude.{◌≡◌, ◌-◌, ◌<◌, ◌≤◌, ℕ, List, map, true};
    ghost use Rattle.std.specs.List.{AllByRecursion, range_with_len};
    ghost use Rattle.system_tables.specs.Reassembly.Arrival.{are_covered, arrival_of, earliest, octet_in};
    ghost use Rattle.system_tables.specs.Reassembly.Buffer.{octet_by};
    ghost use Rattle.system_tables.specs.Reassembly.Entries.{present};
    ghost use Rattle.system_tables.specs.Reassembly.Index.{giver};
    ghost use Rattle.system_tables.specs.Reassembly.Offered.{MayCome};
    ghost use Rattle.system_tables.specs.Reassembly.Runs.{AreJoined, filler};
    ghost use Rattle.system_tables.specs.Reassembly.State.{segments_of};

    ghost Value = { List ℕ };

    ghost view = { λ p. map (λ place. octet_by octet_in place (earliest (map arrival_of (segments_of p.key (present p.entries.now))) place))
        (range_with_len p.place (p.end - p.place)) };

    ghost invariant = { λ p. (p.place ≤ p.end) × AllByRecursion MayCome (present p.entries.now)
        × (are_covered (map arrival_of (segments_of p.key (present p.entries.now))) p.place (p.end - p.place) ≡ true)
        × AreJoined p.place p.end p.runs
        × ((at : ℕ) → p.place ≤ at → at < p.end → filler at p.runs ≡ giver p.key at p.entries.now) };
}

impl<'a> Spans<'a> {
    /// The data of the unit whose segments are those of the key, which cover `end` places, by its runs.
    pub(crate) fn new(
        entries: &'a [Option<Segment>],
        runs: Group<'a>,
        key: Key,
        end: usize,
    ) -> Spans<'a>
        requires came { AllByRecursion MayCome (present entries.now) }
        requires covered { are_covered (map arrival_of (segments_of key (present entries.now))) 0 end ≡ true }
        requires joined { AreJoined 0 end runs }
        requires filled { (at : ℕ) → at < end → filler at runs ≡ giver key at entries.now }
        ensures { result ≡ map (λ place. octet_by octet_in place (earliest (map arrival_of (segments_of key (present entries.now))) place)) (range_with_len 0 end) }
    {
        Spans {
            entries,
            runs,
            key,
            place: 0,
            end,
        }
    }

    /// The octets of the next run, at least one, in two parts of which one may be empty.
    pub(crate) fn next(&mut self) -> Option<(&'a [u8], &'a [u8])>
        ensures { MatchOption result ((self.old ≡ []) × (self.new ≡ []))
            (λ parts. (0 < length (parts.0.now ++ parts.1.now))
            × (self.old ≡ (parts.0.now ++ parts.1.now) ++ self.new)) }
    {
        let Some(run) = self.runs.next() else {
            return None;
        };
        let Some(by) = run.by else {
            return None;
        };
        let Some(segment) = &self.entries[usize::from(by)] else {
            return None;
        };
        let len = usize::from(run.to - run.from);
        let parts = segment.octets(usize::from(run.from), len);
        self.place = usize::from(run.to);
        Some(parts)
    }
}
