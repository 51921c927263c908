//! How many events came, and what they do together.
ghost use Rattle.std.specs.Prelude.{◌≡◌, true};
ghost use Rattle.scenario.specs.Events.{counted, are_few, nothing_counted};
ghost use Rattle.clnp_plan.specs.ScenarioPlan.Plan.{passed_by, ticks_of};

use clnp_plan::scenario_plan::Event;

/// The events so far, the copies that they settle and lose, and the ticks that they let pass.
#[derive(Clone, Copy)]
pub struct Counts {
    pub events: u64,
    pub passed: u64,
    pub ticks: u64,
}

impl Counts {
    /// Before the first event.
    pub(crate) fn nothing() -> Counts
        ensures { result ≡ nothing_counted }
    {
        Counts {
            events: 0,
            passed: 0,
            ticks: 0,
        }
    }

    /// The counts with one more event.
    pub(crate) fn with(self, event: &Event) -> Counts
        requires { are_few self ≡ true }
        ensures { result ≡ counted self event.now }
    {
        Counts {
            events: self.events + 1,
            passed: self.passed + u64::from(passed_by(event)),
            ticks: self.ticks + u64::from(ticks_of(event)),
        }
    }

    /// At most 100,000 events, 10,000,000 copies settled and lost, and 1,000,000 ticks.
    pub(crate) fn are_few(self) -> bool
        ensures { result ≡ are_few self }
    {
        self.events <= 100_000 && self.passed <= 10_000_000 && self.ticks <= 1_000_000
    }
}

/// The copies that an event settles or loses.
fn passed_by(event: &Event) -> u32
    ensures { result ≡ passed_by event.now }
{
    match event {
        Event::Settle { count } | Event::Lose { count } => *count,
        Event::Send { .. }
        | Event::Deliver { .. }
        | Event::Tick { .. }
        | Event::Restart { .. }
        | Event::Echo { .. }
        | Event::Congest { .. }
        | Event::Inject { .. }
        | Event::Mtu { .. }
        | Event::Route { .. }
        | Event::Unroute { .. }
        | Event::TickSystem { .. }
        | Event::Port { .. } => 0,
    }
}

/// The ticks of an event.
fn ticks_of(event: &Event) -> u32
    ensures { result ≡ ticks_of event.now }
{
    match event {
        Event::Tick { count } | Event::TickSystem { count, .. } => *count,
        Event::Send { .. }
        | Event::Deliver { .. }
        | Event::Settle { .. }
        | Event::Lose { .. }
        | Event::Restart { .. }
        | Event::Echo { .. }
        | Event::Congest { .. }
        | Event::Inject { .. }
        | Event::Mtu { .. }
        | Event::Route { .. }
        | Event::Unroute { .. }
        | Event::Port { .. } => 0,
    }
}
