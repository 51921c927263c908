ghost use Rattle.std.specs.Prelude.{◌≡◌};
ghost use Rattle.scenario.specs.ClnpPlan.Configuration.{IsPort};

use crate::seeing::see;
use scenario::scenario_writing::scenarios::clnp::Kind;
use scenario::scenario_writing::scenarios::nsaps::{Address, Prefix, Snpa, Target};
use scenario::scenario_writing::scenarios::routing::Route;
use scenario::scenario_writing::scenarios::system_plan::{
    Note, PortConfig, Role, Settings, SystemConfig, Why, journal_text, late_text, push_end,
    transmission_text, void_text,
};
use scenario::scenario_writing::scenarios::views::Frame;
use std::alloc::Global;
use std::mem::forget;
use std::process::Abort;

fn address(rt: &impl Abort, text: &[u8]) -> Address {
    Address::from_text(text).expect(rt, "an address")
}

fn snpa(rt: &impl Abort, text: &[u8]) -> Snpa {
    Snpa::from_text(text).expect(rt, "an SNPA")
}

/// A unit that is sent from one system to another.
fn sent(rt: &impl Abort, kind: Kind, unit: u64, id: u16, len: u32) -> Note {
    Note::Sent {
        kind,
        unit,
        id: Some(id),
        from: address(rt, b"47002702"),
        to: address(rt, b"47002701"),
        len,
    }
}

const NOTES: &[u8] = b"12 a sent er 2 0000 47002702 47002701 0
12 a sent erq 10 0102 47002702 47002701 64513
12 a sent erp 3 ffff 47002702 47002701 1
12 a refused ids-busy 2
12 a many 12
12 a noslot 1
12 a interference 0001
12 a alien
";

/// Appends the line of a note.
fn push_note(rt: &impl Abort, alloc: Global, note: Note, out: &mut Vec<u8>) {
    journal_text(alloc, 12, b"a", &note, out).expect(rt, "memory");
    forget(note);
}

/// Appends the lines of units that are sent.
fn push_sent(rt: &impl Abort, alloc: Global, out: &mut Vec<u8>) {
    push_note(rt, alloc, sent(rt, Kind::Er, 2, 0, 0), out);
    push_note(rt, alloc, sent(rt, Kind::Erq, 10, 258, 64513), out);
    push_note(rt, alloc, sent(rt, Kind::Erp, 3, 65535, 1), out);
}

/// Appends the lines of what is refused, and of PDUs that interfere or are none.
fn push_others(rt: &impl Abort, alloc: Global, out: &mut Vec<u8>) {
    let why = Why::IdsBusy;
    push_note(rt, alloc, Note::Refused { why, value: 2 }, out);
    push_note(rt, alloc, Note::Many { kept: 12 }, out);
    push_note(rt, alloc, Note::NoSlot { live: 1 }, out);
    push_note(rt, alloc, Note::Interference { id: 1 }, out);
    push_note(rt, alloc, Note::Alien, out);
}

/// Notes that no worked example of a command has.
#[test]
fn writes_notes(rt: HostRuntime) {
    let mut out = Vec::new(rt.alloc());
    push_sent(&rt, rt.alloc(), &mut out);
    push_others(&rt, rt.alloc(), &mut out);
    assert!(rt; out.as_slice() == NOTES);
}

/// Appends the line of a frame.
fn push_frame(rt: &impl Abort, alloc: Global, target: Target, frame: &[u8], out: &mut Vec<u8>) {
    let frame = Frame::copy(alloc, frame).expect(rt, "memory");
    transmission_text(alloc, 3, b"r", 12, 7, target, &frame, out).expect(rt, "memory");
}

/// The lines of three frames.
#[test]
fn writes_frames(rt: HostRuntime) {
    let alloc = rt.alloc();
    let system = Target::System(snpa(&rt, b"02.00.00.00.00.0B"));
    let mut out = Vec::new(alloc);
    push_frame(
        &rt,
        alloc,
        Target::EndSystems,
        b"\x81\x13\x01\x0a",
        &mut out,
    );
    push_frame(&rt, alloc, system, b"\x81\x13", &mut out);
    push_frame(&rt, alloc, Target::Routers, b"", &mut out);
    let text = b"3 r tx 12 7 es 8113010a\n3 r tx 12 7 02000000000b 8113\n3 r tx 12 7 is -\n";
    assert!(rt; out.as_slice() == text.as_slice());
}

/// The line of a frame whose header and data lie apart.
#[test]
fn writes_a_frame_in_two_parts(rt: HostRuntime) {
    let alloc = rt.alloc();
    let data = Frame::copy(alloc, b"hi").expect(&rt, "memory").into_view();
    let header = b"\x81\x09\x01\x0a\x1c\x00\x0b\x00\x00";
    let frame = Frame::with_data(alloc, header, &data, 0, 2).expect(&rt, "memory");
    let mut out = Vec::new(alloc);
    transmission_text(alloc, 3, b"r", 12, 7, Target::Routers, &frame, &mut out).expect(
        &rt, "memory",
    );
    assert!(rt; out.as_slice() == b"3 r tx 12 7 is 8109010a1c000b00006869\n".as_slice());
}

/// Appends the lines of copies that come to nothing, and the last line.
fn push_last_lines(rt: &impl Abort, alloc: Global, out: &mut Vec<u8>) {
    void_text(alloc, 0, b"b", 9, out).expect(rt, "memory");
    late_text(alloc, 7, b"b", 1, out).expect(rt, "memory");
    push_end(alloc, 0, 1, out).expect(rt, "memory");
}

/// These lines, behind what was there.
#[test]
fn writes_the_end(rt: HostRuntime) {
    let alloc = rt.alloc();
    let mut out = Vec::from_slice(alloc, b"before\n").expect(&rt, "memory");
    push_last_lines(&rt, alloc, &mut out);
    assert!(rt; out.as_slice() == b"before\n0 b void 9\n7 b late 1\nend 0 1\n".as_slice());
}

const SETTINGS: Settings = Settings {
    hello: 0,
    suggest: 1,
    rhold: 2,
    slots: 3,
    segments: 4,
    budget: 512,
    neighbours: 5,
    routers: 6,
    redirects: 7,
    life: 20,
    sealed: true,
};

/// The port of the system.
fn port(rt: &impl Abort) -> PortConfig
    ensures { IsPort result }
{
    PortConfig {
        subnet: 2,
        snpa: snpa(rt, b"0200"),
        transit: 3,
        mtu: 1497,
    }
}

/// The route of the system.
fn route(rt: &impl Abort) -> Route
    ensures { result.port ≡ 0 }
{
    Route {
        prefix: Prefix::from_text(b"470028").expect(rt, "a prefix"),
        port: 0,
        snpa: snpa(rt, b"0201"),
        title: address(rt, b"470027ff"),
    }
}

/// A router.
fn router(rt: &impl Abort, alloc: Global) -> SystemConfig {
    let address = address(rt, b"47002701");
    let name = Vec::from_slice(alloc, b"r1").expect(rt, "memory");
    let addresses = Vec::from_slice(alloc, &[address]).expect(rt, "memory");
    let ports = Vec::from_slice(alloc, &[port(rt)]).expect(rt, "memory");
    let routes = Vec::from_slice(alloc, &[route(rt)]).expect(rt, "memory");
    SystemConfig::new(name, Role::Router, addresses, ports, routes, SETTINGS)
}

/// Sees that it is that router.
fn see_router(rt: &impl Abort, config: &SystemConfig) {
    see(rt, config.name() == b"r1".as_slice(), "its name");
    see(rt, config.role() == Role::Router, "its role");
    see(rt, *config.settings() == SETTINGS, "its settings");
}

/// Sees that it has what the router has.
fn see_belongings(rt: &impl Abort, config: &SystemConfig) {
    let addresses = [address(rt, b"47002701")];
    see(
        rt,
        config.addresses() == addresses.as_slice(),
        "its addresses",
    );
    see(rt, config.ports() == [port(rt)].as_slice(), "its ports");
    see(rt, config.routes() == [route(rt)].as_slice(), "its routes");
}

#[test]
fn copies_a_system(rt: HostRuntime) {
    let config = router(&rt, rt.alloc());
    let copy = config.copy(rt.alloc()).expect(&rt, "memory");
    see_router(&rt, &copy);
    see_belongings(&rt, &copy);
    forget(copy);
    forget(config);
}
