//! Calls of clocks.
ghost use Rattle.std.specs.Prelude.{IfOk};
ghost use Rattle.frame_links.specs.ClnpBase.Moments.{AreMoments};

use frame_links::link_board::base::{Clock, HalfSeconds, MemClock};
use std::alloc::{AllocError, Global};

/// Moments of a clock.
fn moments(alloc: Global) -> Result<Vec<u64>, AllocError>
    ensures { IfOk result (λ list. AreMoments list.items) }
{
    Vec::from_slice(alloc, &[0, 0, 320])
}

/// Whether a clock tells these moments, one after the other.
fn tells<C: Clock>(clock: &mut C, wanted: &[u64]) -> bool {
    for moment in wanted {
        if clock.now() != *moment {
            return false;
        }
    }
    true
}

#[test]
fn tells_its_moments_in_turn(rt: HostRuntime) {
    let list = moments(rt.alloc()).expect(&rt, "memory");
    let mut clock = MemClock::new(list);
    assert!(rt; tells(&mut clock, &[0, 0, 320, 320, 320]));
}

#[test]
fn starts_at_its_first_reading(rt: HostRuntime) {
    let mut clock = HalfSeconds::new(&rt);
    assert!(rt; clock.now() == 0);
    assert!(rt; clock.now() < 1000);
}
