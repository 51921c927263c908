//! Clocks, which tell moments.
ghost use Rattle.std.specs.Prelude.{◌≡◌, ◌<◌, ◌≤◌, ◌^◌, ℕ, List, Option, None};
ghost use Rattle.clnp_base.specs.Moments.{AreMoments, GivesMoment};

use std::marker::Model;
use std::time::{Clock as MachineClock, Instant};

/// What tells moments, each a number of ticks of half a second.
///
/// A clock has the moments that it will give, where it tells them: some that don't fall, of which the last stays for
/// ever. And it has the last moment that it gave, 0 before the first.
pub trait Clock {
    // The moments that it will give, where they are told.
    ghost moments: { Self → Option (List ℕ) };

    // The last moment that it gave.
    ghost last: { Self → ℕ };

    /// The moment. It is never below the last one, and always below 2^62. A clock has no faults: one that can't be read
    /// gives its last moment again.
    fn now(&mut self) -> u64
        ensures given { GivesMoment (moments self.old) (moments self.new) result }
        ensures later { last self.old ≤ result }
        ensures kept { last self.new ≡ result }
        ensures early { result < 2 ^ 62 };
}

/// A clock in memory: it gives its moments in turn, and the last one for ever.
#[derive(Drop)]
pub struct MemClock {
    moments: Vec<u64>,
    at: usize,
    last: u64,
}

impl Model for MemClock {
    ghost use Rattle.std.specs.Prelude.{drop};
    ghost use Rattle.clnp_base.specs.Moments.{Moments, IsAt};

    ghost Value = { Moments };

    ghost view = { λ c. record { left = drop c.at c.moments.items; last = c.last } };

    ghost invariant = { λ c. IsAt c.at c.last c.moments.items };
}

impl MemClock {
    /// A clock that gives these moments.
    pub fn new(moments: Vec<u64>) -> MemClock
        requires { AreMoments moments.items }
        ensures { result ≡ record { left = moments.items; last = 0 } }
    {
        MemClock {
            moments,
            at: 0,
            last: 0,
        }
    }
}

impl Clock for MemClock {
    ghost use Rattle.std.specs.Prelude.{Some};

    ghost moments = { λ c. Some c.left };

    ghost last = { λ c. c.last };

    fn now(&mut self) -> u64 {
        let moment = self.moments[self.at];
        if self.at + 1 < self.moments.len() {
            self.at += 1;
        }
        self.last = moment;
        moment
    }
}

/// A clock over the machine's, which never goes back: half seconds since its first reading. It tells nothing of the
/// moments that it will give.
#[derive(Drop)]
pub struct HalfSeconds<R> {
    machine: R,
    start: Option<Instant>,
    last: u64,
    ghost early: { last < 2 ^ 62 },
}

/// How many milliseconds a tick has.
const TICK: u128 = 500;

/// The latest moment of a clock.
const LATEST: u128 = (1 << 62) - 1;

impl<R: MachineClock> HalfSeconds<R> {
    /// A clock over this one of the machine's. Its first reading starts it.
    pub fn new(machine: R) -> HalfSeconds<R>
        ensures moments { ⟦<HalfSeconds<R> as Clock>⟧.moments result ≡ None }
        ensures last { ⟦<HalfSeconds<R> as Clock>⟧.last result ≡ 0 }
    {
        HalfSeconds {
            machine,
            start: None,
            last: 0,
        }
    }
}

impl<R: MachineClock> Clock for HalfSeconds<R> {
    ghost moments = { λ _. None };

    ghost last = { λ c. c.last };

    fn now(&mut self) -> u64 {
        let Ok(now) = Instant::now(&self.machine) else {
            return self.last;
        };
        let start = self.start.unwrap_or(now);
        self.start = Some(start);
        let ticks = now.duration_since(start).as_millis() / TICK;
        self.last = self.last.max(ticks.min(LATEST) as u64);
        self.last
    }
}
