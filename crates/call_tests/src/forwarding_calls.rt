use scenario::scenario_writing::scenarios::nsaps::{Address, Prefix, Snpa};
use scenario::scenario_writing::scenarios::routing::{Route, RouteRefusal, Routes};
use std::alloc::Global;
use std::mem::forget;
use std::process::Abort;

fn address(rt: &impl Abort, text: &str) -> Address {
    Address::from_text(text.as_bytes()).expect(rt, "an address")
}

fn prefix(rt: &impl Abort, text: &str) -> Prefix {
    Prefix::from_text(text.as_bytes()).expect(rt, "a prefix")
}

/// A route of this prefix by a port.
fn route(rt: &impl Abort, digits: &str, port: u8) -> Route {
    Route {
        prefix: prefix(rt, digits),
        port,
        snpa: Snpa::from_bytes(&[port]).expect(rt, "an SNPA"),
        title: address(rt, "47002702"),
    }
}

/// The port of the route that an address takes.
fn port_of(routes: &Routes, address: &Address) -> Option<u8> {
    Some(routes.longest(address)?.port)
}

/// A route of no digits by port 0, and one of 47002701 by port 1.
fn two_routes<R: Abort>(rt: &R, alloc: Global) -> Routes {
    let list = [route(rt, "*", 0), route(rt, "47002701", 1)];
    Routes::from_list(alloc, &list).expect(rt, "routes")
}

/// Sees that an address takes the route by a port, or none.
fn see_lead(rt: &impl Abort, routes: &Routes, text: &str, port: Option<u8>) {
    assert!(rt; port_of(routes, &address(rt, text)) == port, "at {text}");
}

/// Sees that 47002701, 47002702 and 48 take the routes by these ports.
fn see_leads(rt: &impl Abort, routes: &Routes, ports: [Option<u8>; 3]) {
    let [first, second, third] = ports;
    see_lead(rt, routes, "47002701", first);
    see_lead(rt, routes, "47002702", second);
    see_lead(rt, routes, "48", third);
}

#[test]
fn takes_the_longest_route(rt: HostRuntime) {
    let routes = two_routes(&rt, rt.alloc());
    see_leads(&rt, &routes, [Some(1), Some(0), Some(0)]);
    forget(routes);
}

#[test]
fn refuses_a_prefix_twice(rt: HostRuntime) {
    let list = [route(&rt, "47002701", 1), route(&rt, "4700.2701", 0)];
    let refusal = RouteRefusal::Twice {
        first: 0,
        second: 1,
    };
    assert!(rt; Routes::from_list(rt.alloc(), &list).err() == Some(refusal));
}

/// Sets the route of a prefix.
fn set(rt: &impl Abort, alloc: Global, routes: &mut Routes, digits: &str, port: u8) {
    assert!(rt; routes.set(alloc, route(rt, digits, port)).is_ok());
}

#[test]
fn sets_the_route_of_a_prefix_again(rt: HostRuntime) {
    let mut routes = two_routes(&rt, rt.alloc());
    set(&rt, rt.alloc(), &mut routes, "4700.2701", 2);
    see_leads(&rt, &routes, [Some(2), Some(0), Some(0)]);
    forget(routes);
}

#[test]
fn sets_the_route_of_another_prefix(rt: HostRuntime) {
    let mut routes = two_routes(&rt, rt.alloc());
    set(&rt, rt.alloc(), &mut routes, "470", 3);
    see_leads(&rt, &routes, [Some(1), Some(3), Some(0)]);
    forget(routes);
}

/// Removes the route of a prefix, and sees whether there was one.
fn see_removal(rt: &impl Abort, routes: &mut Routes, digits: &str, removed: bool) {
    assert!(rt; routes.remove(&prefix(rt, digits)) == removed);
}

#[test]
fn removes_a_route(rt: HostRuntime) {
    let mut routes = two_routes(&rt, rt.alloc());
    see_removal(&rt, &mut routes, "*", true);
    see_leads(&rt, &routes, [Some(1), None, None]);
    see_removal(&rt, &mut routes, "*", false);
    forget(routes);
}

#[test]
fn removes_no_route_of_another_prefix(rt: HostRuntime) {
    let mut routes = two_routes(&rt, rt.alloc());
    see_removal(&rt, &mut routes, "4700", false);
    see_leads(&rt, &routes, [Some(1), Some(0), Some(0)]);
    forget(routes);
}
