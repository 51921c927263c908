use crate::network::{
    FROM_THE_HOST, TO_THE_HOST, address, asking, moved_port, scenario_of, see_frame, see_got,
    see_port, see_sent,
};
use clnp_machine::nsaps::{Snpa, Target};
use clnp_machine::system_plan::{Limits, Output, Role, SystemConfig};
use clnp_machine::views::Frame;
use clnp_systems::EndSystem;
use std::alloc::Global;
use std::process::Abort;

/// The host behind its first tick, in which it says nothing.
fn host_of(rt: &impl Abort, alloc: Global, config: &SystemConfig, limits: &Limits) -> EndSystem {
    let Role::Host = config.role() else {
        panic!(rt; "no host");
    };
    assert!(rt; limits.hold >= 1);
    let mut out = Vec::new(alloc);
    let mut host = EndSystem::new(alloc, config, limits, 0, 0).expect(rt, "memory");
    assert!(rt; host.tick(alloc, 1, &mut out).is_ok());
    assert!(rt; out.is_empty());
    host
}

/// It sends a data unit to all end systems, since it heard of none.
fn send(rt: &impl Abort, alloc: Global, host: &mut EndSystem, out: &mut Vec<Output>) {
    let ask = asking(rt);
    let sent = host.send(alloc, address(rt, 2), address(rt, 1), b"hi", &ask, out);
    assert!(rt; sent.ok() == Some(1));
}

/// It asks for an echo.
fn echo(rt: &impl Abort, alloc: Global, host: &mut EndSystem, out: &mut Vec<Output>) {
    let asked = host.echo(alloc, address(rt, 2), address(rt, 1), b"hi", out);
    assert!(rt; asked.ok() == Some(2));
}

/// A data unit comes to it.
fn receive(rt: &impl Abort, alloc: Global, host: &mut EndSystem, out: &mut Vec<Output>) {
    let frame = Frame::copy(alloc, TO_THE_HOST).expect(rt, "memory");
    let from = Snpa::from_bytes(&[2]).expect(rt, "an address");
    assert!(rt; host.frame(alloc, 0, from, false, &frame, out).is_ok());
}

/// It is congested, and starts anew.
fn congest_and_restart(host: &mut EndSystem) {
    host.congest(true);
    host.restart();
}

/// Its port moves.
fn move_port(rt: &impl Abort, host: &mut EndSystem) {
    let port = moved_port(rt);
    host.set_port(port);
    see_port(rt, host.ports(), 1_000);
}

/// Its port takes shorter frames.
fn shorten(rt: &impl Abort, host: &mut EndSystem) {
    host.set_mtu(600);
    see_port(rt, host.ports(), 600);
}

/// What it tells of itself.
fn see_host(rt: &impl Abort, host: &EndSystem) {
    assert!(rt; host.held() == 0);
    assert!(rt; host.moment() == 1);
    assert!(rt; host.config().name() == b"a".as_slice());
    assert!(rt; host.next_hop(&address(rt, 1)) == Target::EndSystems);
}

/// All that is done with it. It is lent, so that what ends the test has nothing to drop here.
fn call_each(rt: &impl Abort, alloc: Global, host: &mut EndSystem, out: &mut Vec<Output>) {
    see_host(rt, host);
    send(rt, alloc, host, out);
    echo(rt, alloc, host, out);
    receive(rt, alloc, host, out);
    move_port(rt, host);
    shorten(rt, host);
    congest_and_restart(host);
    see_port(rt, host.ports(), 600);
    see_host(rt, host);
}

/// What it gave out.
fn see_all(rt: &impl Abort, out: &[Output]) {
    assert!(rt; out.len() == 5);
    see_sent(rt, out.get(0), 1);
    see_frame(
        rt,
        out.get(1),
        Target::EndSystems,
        &FROM_THE_HOST[..19],
        b"hi",
    );
    see_sent(rt, out.get(2), 2);
    see_got(rt, out.get(4));
}

#[test]
fn a_host_sends_and_receives(rt: HostRuntime) {
    let alloc = rt.alloc();
    let scenario = scenario_of(&rt, alloc);
    let Some(config) = scenario.systems().get(0) else {
        panic!(&rt; "no host");
    };
    let mut out = Vec::new(alloc);
    let mut host = host_of(&rt, alloc, config, scenario.limits());
    call_each(&rt, alloc, &mut host, &mut out);
    see_all(&rt, &out);
}
