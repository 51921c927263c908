//! Laws of the definitions that the contracts cite. The functions do nothing.
ghost use Rattle.std.specs.Prelude.{◌≡◌, ◌≢◌, ◌↔◌, ℕ, List, Some, None, false};
ghost use Rattle.std.specs.List.{find, list_any};
ghost use Rattle.system_tables.specs.declared.forwarding.route.Route.{Route};
ghost use Rattle.system_tables.specs.Forwarding.Distinct.{AreDistinct, IsTwice, has_prefix};
ghost use Rattle.system_tables.specs.Forwarding.Longest.{IsLongest, is_covering, longest};
ghost use Rattle.system_tables.specs.Forwarding.Setting.{set_in, without};

/// The longest route for an address is one of the routes, covers the address, and no route that covers it has more digits.
pub fn what_is_longest_covers()
    ensures { (address : List ℕ) (routes : List Route) (route : Route) → longest address routes ≡ Some route
        → IsLongest address routes route }
{}

/// Where no two routes have one prefix, at most one covers an address with no longer one that does; and it is the longest.
pub fn one_alone_is_longest()
    ensures one { (address : List ℕ) (routes : List Route) (a b : Route) → AreDistinct routes
        → IsLongest address routes a → IsLongest address routes b → a ≡ b }
    ensures that { (address : List ℕ) (routes : List Route) (route : Route) → AreDistinct routes
        → IsLongest address routes route → longest address routes ≡ Some route }
{}

/// An address has no longest route exactly where no route covers it.
pub fn none_is_longest_where_none_covers()
    ensures { (address : List ℕ) (routes : List Route)
        → (longest address routes ≡ None) ↔ (list_any (is_covering address) routes ≡ false) }
{}

/// Of a list, at most one place is the second of a prefix with no earlier one; and there is none where no two routes have one
/// prefix.
pub fn one_place_is_twice()
    ensures one { (routes : List Route) (first second : ℕ) (first_again second_again : ℕ) → IsTwice routes first second
        → IsTwice routes first_again second_again → (first ≡ first_again) × (second ≡ second_again) }
    ensures none { (routes : List Route) (first second : ℕ) → IsTwice routes first second → AreDistinct routes → ⊥ }
{}

/// A route that is set is the one of its prefix, and a prefix that is removed has none; of every other prefix there is the route
/// that there was.
pub fn each_prefix_has_its_route()
    ensures set { (route : Route) (routes : List Route)
        → find (has_prefix route.prefix) (set_in route routes) ≡ Some route }
    ensures removed { (prefix : List ℕ) (routes : List Route)
        → find (has_prefix prefix) (without prefix routes) ≡ None }
    ensures others_set { (route : Route) (other : List ℕ) (routes : List Route) → route.prefix ≢ other
        → find (has_prefix other) (set_in route routes) ≡ find (has_prefix other) routes }
    ensures others_removed { (prefix other : List ℕ) (routes : List Route) → prefix ≢ other
        → find (has_prefix other) (without prefix routes) ≡ find (has_prefix other) routes }
{}

/// Where no two routes have one prefix, none have after one is set and after a prefix is removed.
pub fn changed_routes_differ()
    ensures set { (route : Route) (routes : List Route) → AreDistinct routes → AreDistinct (set_in route routes) }
    ensures removed { (prefix : List ℕ) (routes : List Route) → AreDistinct routes
        → AreDistinct (without prefix routes) }
{}
