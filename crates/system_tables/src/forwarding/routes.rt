//! The routes of a system.
ghost use Rattle.std.specs.Prelude.{◌≡◌, ◌≤◌, ℕ, List, [], Err, IfOk, OnErr, OnOk, length, take};
ghost use Rattle.std.specs.BTreeMap.{get};
ghost use Rattle.std.specs.Cmp.Lexicographic.{slice_cmp};
ghost use Rattle.std.specs.List.{find, list_any, position_from};
ghost use Rattle.std.specs.Option.{option_copied};
ghost use Rattle.std.specs.Ordering.{nat_cmp};
ghost use Rattle.system_tables.specs.declared.forwarding.route.Route.{Route};
ghost use Rattle.system_tables.specs.declared.forwarding.route.RouteRefusal.TheVariants.{Twice};
ghost use Rattle.system_tables.specs.Forwarding.Distinct.{IsTwice, has_prefix};
ghost use Rattle.system_tables.specs.Forwarding.Longest.{longest};
ghost use Rattle.system_tables.specs.Forwarding.Setting.{set_in, without};
ghost use Rattle.system_tables.specs.Forwarding.Stands.{Stands};

use crate::forwarding::route::{Route, RouteRefusal};
use pdus::nsap::base::NoMemory;
use pdus::nsap::{Address, Prefix};
use std::alloc::Global;
use std::array::from_fn;
use std::collections::BTreeMap;

/// How many lengths a prefix may have: 0 to 40 digits.
const LENGTHS: usize = 41;

/// Configured routes, no two of one prefix.
///
/// A contract sees for which list of routes they stand. Their order in that list means nothing.
#[derive(Drop)]
pub struct Routes {
    /// The routes of each length of prefix, by prefix.
    by_length: [BTreeMap<Prefix, Route>; LENGTHS],
}

impl Routes {
    /// The routes of a list.
    ///
    /// # Errors
    ///
    /// `Twice` exactly where two entries have one prefix: `second` is the least index of an entry whose prefix
    /// an entry before it has, and `first` is the index of that one. Else `NoMemory`.
    pub fn from_list(alloc: Global, list: &[Route]) -> Result<Routes, RouteRefusal>
        ensures stands { IfOk result (λ routes. Stands routes list.now) }
        ensures twice { (first second : ℕ) → result ≡ Err (Twice first second) → IsTwice list.now first second }
    {
        let mut routes = Routes::new(alloc);
        for second in 0..list.len() {
            let route = list[second];
            if routes.put(route)? {
                let Some(first) = place_of(&route.prefix, &list[..second]) else {
                    unreachable!()
                };
                return Err(RouteRefusal::Twice { first, second });
            }
        }
        Ok(routes)
    }

    /// No routes.
    fn new(alloc: Global) -> Routes
        ensures { Stands result [] }
    {
        Routes {
            by_length: from_fn(|_| BTreeMap::new(alloc)),
        }
    }

    /// Puts a route in, and tells whether there was one of its prefix, in whose place it then is.
    fn put(&mut self, route: Route) -> Result<bool, NoMemory>
        ensures there { (list : List Route) → Stands self.old list
            → IfOk result (λ there. there ≡ list_any (has_prefix route.prefix) list) }
        ensures stands { (list : List Route) → Stands self.old list
            → OnOk result (Stands self.new (set_in route list)) }
        ensures same { (list : List Route) → Stands self.old list → OnErr result (Stands self.new list) }
    {
        let old = self.by_length[route.prefix.len()].insert(route.prefix, route)?;
        Ok(old.is_some())
    }

    /// Takes the route of a prefix out, where there is one.
    fn take_out(&mut self, prefix: &Prefix) -> Option<Route>
        ensures route { (list : List Route) → Stands self.old list → result ≡ find (has_prefix prefix.now) list }
        ensures stands { (list : List Route) → Stands self.old list → Stands self.new (without prefix.now list) }
    {
        self.by_length[prefix.len()].remove(prefix)
    }

    /// Sets the route of a prefix: from now on it is the one of its prefix, in the place of the one that there was, if any.
    ///
    /// # Errors
    ///
    /// `NoMemory`; the routes are then as they were.
    pub fn set(&mut self, _alloc: Global, route: Route) -> Result<(), NoMemory>
        ensures stands { (list : List Route) → Stands self.old list
            → OnOk result (Stands self.new (set_in route list)) }
        ensures same { (list : List Route) → Stands self.old list → OnErr result (Stands self.new list) }
    {
        self.put(route)?;
        Ok(())
    }

    /// Removes the route of a prefix, and tells whether there was one. It takes no memory.
    #[tactic(auto, using(crate::proofs::ForwardingFacts::Entries::finding))]
    pub fn remove(&mut self, prefix: &Prefix) -> bool
        ensures there { (list : List Route) → Stands self.old list → result ≡ list_any (has_prefix prefix.now) list }
        ensures stands { (list : List Route) → Stands self.old list → Stands self.new (without prefix.now list) }
    {
        self.take_out(prefix).is_some()
    }

    /// The route with the most digits among those whose prefix covers the address. It takes no memory.
    ///
    /// None exactly where no prefix covers the address.
    pub fn longest(&self, address: &Address) -> Option<&Route>
        ensures { (list : List Route) → Stands self.now list → option_copied result ≡ longest address.now list }
    {
        let digits = Prefix::of_address(address);
        for len in (0..digits.len() + 1).rev() {
            let route = route_in(&self.by_length[len], &digits, len);
            if route.is_some() {
                return route;
            }
        }
        None
    }
}

/// The route of the first so many digits, among those of their length. A length without routes isn't searched.
fn route_in<'a>(
    routes: &'a BTreeMap<Prefix, Route>,
    digits: &Prefix,
    len: usize,
) -> Option<&'a Route>
    requires { len ≤ length digits.now }
    ensures { option_copied result ≡ get (slice_cmp nat_cmp) routes.now (take len digits.now) }
{
    if routes.is_empty() {
        return None;
    }
    routes.get(&digits.first(len))
}

/// The index of the first route of a prefix.
fn place_of(prefix: &Prefix, list: &[Route]) -> Option<usize>
    ensures { result ≡ position_from (has_prefix prefix.now) 0 list.now }
{
    list.iter().position(|route| route.prefix == *prefix)
}
