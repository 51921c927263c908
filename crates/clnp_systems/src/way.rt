//! Where a system sends, by what it heard and by its routes.
ghost use Rattle.std.specs.Prelude.{◌≡◌};
ghost use Rattle.clnp_machine.specs.Step as step;

use clnp_machine::hearing::Neighbour;
use clnp_machine::nsaps::Target;
use clnp_machine::routing::Route;
use clnp_machine::way::{Hop, Way};

/// The way to an end system that was heard of.
pub(crate) fn to_neighbour(neighbour: Neighbour) -> Way
    ensures { result ≡ step.to_neighbour neighbour }
{
    Way {
        neighbour,
        title: None,
    }
}

/// The way by a route.
pub(crate) fn by_route(route: &Route) -> Way
    ensures { result ≡ step.by_route route.now }
{
    let neighbour = Neighbour {
        port: route.port,
        snpa: route.snpa,
    };
    Way {
        neighbour,
        title: Some(route.title),
    }
}

/// Where a host sends what is for a place, or else for a system that it knows no place of (ISO 9542, section 6.5).
pub(crate) fn host_hop(neighbour: Option<Neighbour>) -> Hop
    ensures { result ≡ step.host_hop neighbour }
{
    match neighbour {
        Some(neighbour) => Hop {
            port: neighbour.port,
            target: Target::System(neighbour.snpa),
        },
        None => Hop {
            port: 0,
            target: Target::EndSystems,
        },
    }
}
