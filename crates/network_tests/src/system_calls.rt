use crate::network::{
    TO_THE_HOST, address, asking, moved_port, prefix_of, route_to, scenario_of, see_got, see_port,
    see_sent,
};
use clnp_machine::nsaps::Snpa;
use clnp_machine::system_plan::{Limits, Note, Output, Role, SystemConfig};
use clnp_machine::views::Frame;
use clnp_systems::{Input, System};
use std::alloc::Global;
use std::mem::forget;
use std::process::Abort;

/// The system behind its first moment, in which it says nothing.
fn system_of(rt: &impl Abort, alloc: Global, config: &SystemConfig, limits: &Limits) -> System {
    assert!(rt; limits.hold >= 1);
    let mut out = Vec::new(alloc);
    let mut system = System::new(alloc, config, limits, 0, 0).expect(rt, "memory");
    assert!(rt; system.step(alloc, &Input::Moment(1), &mut out).is_ok());
    assert!(rt; out.is_empty());
    system
}

/// It is asked to send a data unit.
fn send(rt: &impl Abort, alloc: Global, system: &mut System, out: &mut Vec<Output>) {
    let ask = asking(rt);
    let input = Input::Send {
        from: address(rt, 2),
        to: address(rt, 1),
        body: b"hi",
        ask: &ask,
    };
    assert!(rt; system.step(alloc, &input, out).is_ok());
}

/// It is asked for an echo, by an address that isn't its own.
fn echo(rt: &impl Abort, alloc: Global, system: &mut System, out: &mut Vec<Output>) {
    let input = Input::Echo {
        from: address(rt, 3),
        to: address(rt, 1),
        body: b"hi",
    };
    assert!(rt; system.step(alloc, &input, out).is_ok());
}

/// A data unit comes to it.
fn receive(rt: &impl Abort, alloc: Global, system: &mut System, out: &mut Vec<Output>) {
    let frame = Frame::copy(alloc, TO_THE_HOST).expect(rt, "memory");
    let input = Input::Frame {
        port: 0,
        from: Snpa::from_bytes(&[2]).expect(rt, "an address"),
        group: false,
        frame: &frame,
    };
    assert!(rt; system.step(alloc, &input, out).is_ok());
}

/// It is said to be congested.
fn congest(rt: &impl Abort, alloc: Global, system: &mut System, out: &mut Vec<Output>) {
    assert!(rt; system.step(alloc, &Input::Congest(true), out).is_ok());
}

/// It starts anew.
fn restart(rt: &impl Abort, alloc: Global, system: &mut System, out: &mut Vec<Output>) {
    assert!(rt; system.step(alloc, &Input::Restart, out).is_ok());
}

/// Its port moves.
fn move_port(rt: &impl Abort, system: &mut System) {
    let port = moved_port(rt);
    // Its clause: a system has a port.
    let _ports = system.ports();
    system.set_port(0, port);
    see_port(rt, system.ports(), 1_000);
}

/// Its port takes shorter frames.
fn shorten(rt: &impl Abort, system: &mut System) {
    // Its clause: a system has a port.
    let _ports = system.ports();
    system.set_mtu(0, 600);
    see_port(rt, system.ports(), 600);
}

/// A route of a router is set.
fn set_route(rt: &impl Abort, alloc: Global, system: &mut System) {
    let Role::Router = system.config().role() else {
        panic!(rt; "no router");
    };
    let route = route_to(rt, b"47002704");
    // Its clause: a system has a port.
    let _ports = system.ports();
    assert!(rt; system.set_route(alloc, route).is_ok());
}

/// It is removed.
fn remove_route(rt: &impl Abort, system: &mut System) {
    let Role::Router = system.config().role() else {
        panic!(rt; "no router");
    };
    let prefix = prefix_of(rt, b"47002704");
    assert!(rt; system.remove_route(&prefix));
}

/// Sees that nothing was made, and that this is noted.
fn see_refused(rt: &impl Abort, output: Option<&Output>) {
    let Some(Output::Note(Note::Refused { .. })) = output else {
        panic!(rt; "nothing is refused");
    };
}

/// Sees that a restart is noted.
fn see_restart(rt: &impl Abort, output: Option<&Output>) {
    let Some(Output::Note(Note::Restart)) = output else {
        panic!(rt; "no restart");
    };
}

/// What it tells of itself.
fn see_system(rt: &impl Abort, system: &System) {
    assert!(rt; system.config().name() == b"a".as_slice());
    assert!(rt; system.moment() == 1);
    assert!(rt; system.as_host().is_some());
    assert!(rt; system.as_router().is_none());
}

/// All that comes to it. It is lent, so that what ends the test has nothing to drop here.
fn step_each(rt: &impl Abort, alloc: Global, system: &mut System, out: &mut Vec<Output>) {
    see_system(rt, system);
    send(rt, alloc, system, out);
    echo(rt, alloc, system, out);
    receive(rt, alloc, system, out);
    restart(rt, alloc, system, out);
    see_all(rt, out);
    congest(rt, alloc, system, out);
}

/// What it gave out.
fn see_all(rt: &impl Abort, out: &[Output]) {
    see_sent(rt, out.get(0), 1);
    see_refused(rt, out.get(2));
    see_got(rt, out.get(3));
    see_restart(rt, out.get(4));
}

#[test]
fn whatever_comes_is_a_step(rt: HostRuntime) {
    let alloc = rt.alloc();
    let scenario = scenario_of(&rt, alloc);
    let Some(config) = scenario.systems().get(0) else {
        panic!(&rt; "no host");
    };
    let mut out = Vec::new(alloc);
    let mut system = system_of(&rt, alloc, config, scenario.limits());
    step_each(&rt, alloc, &mut system, &mut out);
    // It is left to the end of the process: to drop it would be proved once more.
    forget(system);
}

/// How it is changed.
fn change(rt: &impl Abort, alloc: Global, system: &mut System) {
    move_port(rt, system);
    shorten(rt, system);
    if system.as_router().is_some() {
        set_route(rt, alloc, system);
        remove_route(rt, system);
    }
}

#[test]
fn a_system_is_attached_elsewhere(rt: HostRuntime) {
    let alloc = rt.alloc();
    let scenario = scenario_of(&rt, alloc);
    for config in scenario.systems() {
        let mut system = system_of(&rt, alloc, config, scenario.limits());
        change(&rt, alloc, &mut system);
        forget(system);
    }
}
