//! Laws of attachments. The functions do nothing.
ghost use Rattle.std.specs.Prelude.{◌≡◌, ◌≢◌, ◌<◌, ℕ, List, length, slice_get, Some, None};
ghost use Rattle.std.specs.List.{find};
ghost use Rattle.clnp_plan.specs.Configuration.{IsAddressed, IsSystem, SystemConfiguration};
ghost use Rattle.clnp_plan.specs.Forwarding.Distinct.{has_prefix};
ghost use Rattle.clnp_plan.specs.SystemTables.declared.forwarding.route.Route.{Route};
ghost use Rattle.clnp_plan.specs.declared.config.PortConfig.{PortConfig};
ghost use Rattle.clnp_machine.specs.Attachment.{Attachment, IsAttached, as_declared};
ghost use Rattle.clnp_machine.specs.Change.{Change, ChangesFairly, PortIsAt, PortTakes, RouteIsGone, RouteIsSet, changed, with_mtu};

use crate::routing::laws;

/// A system is attached as it should be at its start, and a fair change leaves it so: each port has a transit of at least 1 and
/// takes at least 512 octets, each route leads out of a port that is there, and no two routes have one prefix.
pub fn attachments_stay_sound()
    ensures declared { (system : SystemConfiguration) → IsSystem system → IsAddressed system
        → IsAttached (as_declared system) }
    ensures changed { (a : Attachment) (change : Change) → IsAttached a → ChangesFairly a change
        → IsAttached (changed change a) }
{
    // Its clauses: no two routes have one prefix after one is set and after one is gone.
    laws::changed_routes_differ();
}

/// A port that moves is where it moved, one that takes frames of other lengths is as it was but for that, and every other port
/// is as it was; no port comes or goes.
pub fn each_port_is_where_it_is_put()
    ensures moved { (a : Attachment) (number : ℕ) (port : PortConfig) → number < length a.ports
        → slice_get (changed (PortIsAt number port) a).ports number ≡ Some port }
    ensures resized { (a : Attachment) (number mtu : ℕ) (port : PortConfig) → slice_get a.ports number ≡ Some port
        → slice_get (changed (PortTakes number mtu) a).ports number ≡ Some (with_mtu mtu port) }
    ensures others_moved { (a : Attachment) (number other : ℕ) (port : PortConfig) → number ≢ other
        → slice_get (changed (PortIsAt number port) a).ports other ≡ slice_get a.ports other }
    ensures others_resized { (a : Attachment) (number other mtu : ℕ) → number ≢ other
        → slice_get (changed (PortTakes number mtu) a).ports other ≡ slice_get a.ports other }
    ensures number { (a : Attachment) (change : Change) → length (changed change a).ports ≡ length a.ports }
{}

/// Changes of ports leave the routes, and changes of routes the ports. A route that is set is the one of its prefix, a prefix
/// whose route is gone has none, and each other prefix has the route that it had.
pub fn each_prefix_goes_where_it_is_set()
    ensures by_ports { (a : Attachment) (number mtu : ℕ) (port : PortConfig)
        → ((changed (PortIsAt number port) a).routes ≡ a.routes)
        × ((changed (PortTakes number mtu) a).routes ≡ a.routes) }
    ensures by_routes { (a : Attachment) (route : Route) (prefix : List ℕ)
        → ((changed (RouteIsSet route) a).ports ≡ a.ports)
        × ((changed (RouteIsGone prefix) a).ports ≡ a.ports) }
    ensures set { (a : Attachment) (route : Route)
        → find (has_prefix route.prefix) (changed (RouteIsSet route) a).routes ≡ Some route }
    ensures gone { (a : Attachment) (prefix : List ℕ)
        → find (has_prefix prefix) (changed (RouteIsGone prefix) a).routes ≡ None }
    ensures others_set { (a : Attachment) (route : Route) (other : List ℕ) → route.prefix ≢ other
        → find (has_prefix other) (changed (RouteIsSet route) a).routes ≡ find (has_prefix other) a.routes }
    ensures others_gone { (a : Attachment) (prefix other : List ℕ) → prefix ≢ other
        → find (has_prefix other) (changed (RouteIsGone prefix) a).routes ≡ find (has_prefix other) a.routes }
{
    // Its clauses: what a list of routes has of each prefix.
    laws::each_prefix_has_its_route();
}
