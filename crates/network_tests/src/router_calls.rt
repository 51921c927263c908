use crate::network::{
    FROM_THE_HOST, FROM_THE_ROUTER, address, moved_port, prefix_of, route_to, scenario_of,
    see_frame, see_port, see_sent,
};
use clnp_machine::hearing::Neighbour;
use clnp_machine::nsaps::{Snpa, Target};
use clnp_machine::system_plan::{Limits, Output, Role, SystemConfig};
use clnp_machine::views::Frame;
use clnp_machine::way::Way;
use clnp_systems::Router;
use std::alloc::Global;
use std::process::Abort;

/// The host at the end of the router's route.
fn end_of_the_route(rt: &impl Abort) -> Snpa {
    Snpa::from_bytes(&[2]).expect(rt, "an address")
}

/// The router behind its first tick, in which it says nothing.
fn router_of(rt: &impl Abort, alloc: Global, config: &SystemConfig, limits: &Limits) -> Router {
    let Role::Router = config.role() else {
        panic!(rt; "no router");
    };
    assert!(rt; limits.hold >= 1);
    let mut out = Vec::new(alloc);
    let mut router = Router::new(alloc, config, limits, 0, 0).expect(rt, "memory");
    assert!(rt; router.tick(alloc, 1, &mut out).is_ok());
    assert!(rt; out.is_empty());
    router
}

/// A PDU for another system comes to it, from the subnetwork on which that system is.
fn forward(rt: &impl Abort, alloc: Global, router: &mut Router, out: &mut Vec<Output>) {
    let frame = Frame::copy(alloc, FROM_THE_HOST).expect(rt, "memory");
    let from = Snpa::from_bytes(&[1]).expect(rt, "an address");
    assert!(rt; router.frame(alloc, 0, from, false, &frame, out).is_ok());
}

/// It asks for an echo.
fn echo(rt: &impl Abort, alloc: Global, router: &mut Router, out: &mut Vec<Output>) {
    let asked = router.echo(alloc, address(rt, 0xff), address(rt, 1), b"hi", out);
    assert!(rt; asked.ok() == Some(1));
}

/// It is congested, and starts anew.
fn congest_and_restart(router: &mut Router) {
    router.congest(true);
    router.restart();
}

/// Its port moves.
fn move_port(rt: &impl Abort, router: &mut Router) {
    let port = moved_port(rt);
    // Its clause: a router has a port.
    let _ports = router.ports();
    router.set_port(0, port);
    see_port(rt, router.ports(), 1_000);
}

/// Its port takes shorter frames.
fn shorten(rt: &impl Abort, router: &mut Router) {
    // Its clause: a router has a port.
    let _ports = router.ports();
    router.set_mtu(0, 600);
    see_port(rt, router.ports(), 600);
}

/// A route of two more digits is set.
fn set_route(rt: &impl Abort, alloc: Global, router: &mut Router) {
    let route = route_to(rt, b"47002704");
    // Its clause: a router has a port.
    let _ports = router.ports();
    assert!(rt; router.set_route(alloc, route).is_ok());
    assert!(rt; router.next_hop(&address(rt, 4)).is_some());
}

/// It is removed, and isn't there to be removed again.
fn remove_route(rt: &impl Abort, router: &mut Router) {
    let prefix = prefix_of(rt, b"47002704");
    assert!(rt; router.remove_route(&prefix));
    assert!(rt; !router.remove_route(&prefix));
    assert!(rt; router.next_hop(&address(rt, 4)).is_none());
}

/// What it tells of itself.
fn see_router(rt: &impl Abort, router: &Router) {
    assert!(rt; router.held() == 0);
    assert!(rt; router.moment() == 1);
    assert!(rt; router.config().name() == b"r".as_slice());
    let neighbour = Neighbour {
        port: 0,
        snpa: end_of_the_route(rt),
    };
    let way = Way {
        neighbour,
        title: Some(address(rt, 1)),
    };
    assert!(rt; router.next_hop(&address(rt, 1)) == Some(way));
    assert!(rt; router.next_hop(&address(rt, 3)).is_none());
}

/// What comes to it, and what it gives out. It is lent, so that what ends the test has nothing to drop here.
fn forward_and_echo(rt: &impl Abort, alloc: Global, router: &mut Router, out: &mut Vec<Output>) {
    see_router(rt, router);
    forward(rt, alloc, router, out);
    let to = Target::System(end_of_the_route(rt));
    see_frame(rt, out.get(0), to, &FROM_THE_ROUTER[..19], b"hi");
    // The way leads back to where the PDU came from, but the router doesn't know that its source is there: no redirect follows.
    assert!(rt; out.len() == 1);
    out.clear();
    echo(rt, alloc, router, out);
    see_sent(rt, out.get(0), 1);
}

/// How it is changed.
fn change(rt: &impl Abort, alloc: Global, router: &mut Router) {
    set_route(rt, alloc, router);
    remove_route(rt, router);
    move_port(rt, router);
    shorten(rt, router);
    congest_and_restart(router);
    see_port(rt, router.ports(), 600);
    see_router(rt, router);
}

#[test]
fn a_router_forwards(rt: HostRuntime) {
    let alloc = rt.alloc();
    let scenario = scenario_of(&rt, alloc);
    let Some(config) = scenario.systems().get(1) else {
        panic!(&rt; "no router");
    };
    let mut out = Vec::new(alloc);
    let mut router = router_of(&rt, alloc, config, scenario.limits());
    forward_and_echo(&rt, alloc, &mut router, &mut out);
    change(&rt, alloc, &mut router);
}
