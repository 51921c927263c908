//! Where a system sends. The machine speaks of these types themselves.
ghost use Rattle.std.specs.Prelude.{◌≡◌};
ghost use Rattle.clnp_machine.specs.Step.{ends_at, hop_by};

use clnp_plan::hearing::Neighbour;
use clnp_plan::nsaps::{Address, Target};

/// Where a PDU goes next: the number of a port, and whom a frame is for on its subnetwork.
#[derive(Clone, Copy)]
pub struct Hop {
    pub port: u8,
    pub target: Target,
}

/// The next system on a router's way to an address: where it is, and its title where it is reached by a route.
#[derive(Clone, Copy, PartialEq, Eq)]
pub struct Way {
    pub neighbour: Neighbour,
    pub title: Option<Address>,
}

impl Way {
    /// The hop to the next system.
    pub fn hop(&self) -> Hop
        ensures { result ≡ hop_by self.now }
    {
        Hop {
            port: self.neighbour.port,
            target: Target::System(self.neighbour.snpa),
        }
    }

    /// Whether the next system on it is that of an address itself: a neighbour, or a router of this title.
    pub fn ends_at(&self, address: &Address) -> bool
        ensures { result ≡ ends_at address.now self.now.title }
    {
        match self.title {
            Some(title) => title == *address,
            None => true,
        }
    }
}
