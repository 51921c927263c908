//! Which events of a scenario a node has still to do.
ghost use Rattle.std.specs.Prelude.{◌≡◌, ◌<◌, ◌+◌, ◌^◌};
ghost use Rattle.clnp_plan.specs.ScenarioPlan.Plan.{ticks_of};

use clnp_plan::scenario_plan::Event;

/// The place of the next event of a scenario, and the moment at which the ticks before it are over.
#[derive(Clone, Copy)]
pub(crate) struct Agenda {
    pub(crate) next: usize,
    pub(crate) moment: u64,
}

impl Agenda {
    /// All events, the first of which is due from a start on.
    pub(crate) fn from(start: u64) -> Agenda
        ensures { result ≡ record { next = 0; moment = start } }
    {
        Agenda {
            next: 0,
            moment: start,
        }
    }

    /// Behind the next event.
    pub(crate) fn behind(self, event: &Event) -> Agenda
        requires place { self.next < 2 ^ 63 }
        requires moment { self.moment < 2 ^ 62 }
        ensures { result ≡ record { next = self.next + 1; moment = self.moment + ticks_of event.now } }
    {
        Agenda {
            next: self.next + 1,
            moment: self.moment + u64::from(ticks_of(event)),
        }
    }
}

/// The ticks of an event.
fn ticks_of(event: &Event) -> u32
    ensures { result ≡ ticks_of event.now }
{
    match event {
        Event::Tick { count } => *count,
        Event::TickSystem { system: _, count } => *count,
        Event::Send { .. }
        | Event::Deliver { .. }
        | Event::Settle { .. }
        | Event::Lose { .. }
        | Event::Restart { .. }
        | Event::Echo { .. }
        | Event::Congest { .. }
        | Event::Inject { .. }
        | Event::Mtu { .. }
        | Event::Route { .. }
        | Event::Unroute { .. }
        | Event::Port { .. } => 0,
    }
}
