//! A route, and why a list of routes is refused.
use pdus::nsap::base::NoMemory;
use pdus::nsap::{Address, Prefix, Snpa};

/// Where PDUs go whose destinations' addresses begin with a prefix.
#[derive(Clone, Copy, PartialEq, Eq)]
pub struct Route {
    /// The prefix of the destinations' NSAP addresses.
    pub prefix: Prefix,
    /// The number of the port of one's own.
    pub port: u8,
    /// The next system's address on the subnetwork of that port.
    pub snpa: Snpa,
    /// The network entity title of the next system.
    pub title: Address,
}

/// Why a list of routes is refused.
#[derive(Clone, Copy, Debug, PartialEq, Eq)]
pub enum RouteRefusal {
    /// Two entries have one prefix, by their indices.
    Twice { first: usize, second: usize },
    /// Memory was refused.
    NoMemory,
}

impl From<NoMemory> for RouteRefusal {
    ghost use Rattle.std.specs.Prelude.{◌≡◌};
    ghost use Rattle.system_tables.specs.declared.forwarding.route.RouteRefusal.TheVariants.{NoMemory as memory_refused};

    ghost from_gives = { λ _ refusal. refusal ≡ memory_refused };

    fn from(_refused: NoMemory) -> RouteRefusal {
        RouteRefusal::NoMemory
    }
}
