ghost use Rattle.std.specs.Prelude.{false};
ghost use Rattle.clnp_machine.specs.ClnpOptions.Grammar.{FitsKind};
ghost use Rattle.clnp_machine.specs.ClnpOptions.Parameter.{parameters};

use crate::seeing::see;
use clnp_machine::clnp::{Kind, decode_frame};
use clnp_machine::nsaps::Address;
use clnp_machine::options::{OptionList, laws};
use clnp_machine::system_plan::{Ask, Limits, SystemConfig, journal_text};
use clnp_machine::views::Frame;
use clnp_program::scenarios::{Scenario, read};
use clnp_systems::{Action, DrawRefusal, IdPool, Local};
use frame_links::link_board::base::{NoMemory, lines, push, push_decimal};
use std::alloc::Global;
use std::mem::forget;
use std::process::Abort;

/// A host on a subnetwork.
const HOST: &[u8] = b"clnp-sim 1
limits 4 2 6
subnet lan 512
system a host hello=0
address a 47002702
port a 0 lan 01
events
end
";

/// How a unit of lifetime 10 is to be sent, whole and without options.
fn asking(rt: &impl Abort) -> Ask
    ensures { FitsKind false (parameters result.options) }
{
    // Its clause: options that break no rule are in the form of their kind.
    laws::spelled_where_no_rule_is_broken();
    let Ok(options) = OptionList::from_bytes(b"") else {
        panic!(rt; "no options");
    };
    Ask {
        life: 10,
        report: true,
        segment: false,
        options,
    }
}

/// A unit from the host to itself.
const PDU: &[u8] =
    b"\x81\x13\x01\x0a\x3c\x00\x15\x00\x00\x04\x47\x00\x27\x02\x04\x47\x00\x27\x02hi";

/// What is told where the host sends a unit to itself, and then that one comes.
const LINES: &[u8] = b"0 a sent dt 1 - 47002702 47002702 2
1 goes out
0 a got 47002702 47002702 6869
";

/// The scenario of the host.
fn scenario_of(rt: &impl Abort, alloc: Global) -> Scenario {
    // Its clause: a text has no more lines than octets, so that this one is short.
    let _lines = lines(HOST);
    read(alloc, HOST).expect(rt, "a scenario")
}

/// Sees the answer to a draw at a moment.
fn see_draw(rt: &impl Abort, pool: &mut IdPool, now: u32, answer: Result<u16, DrawRefusal>) {
    assert!(rt; pool.draw(u64::from(now)) == answer);
}

#[test]
fn a_restart_makes_a_pool_quiet(rt: HostRuntime) {
    let mut pool = IdPool::new(rt.alloc(), 6, 0).expect(&rt, "memory");
    see_draw(&rt, &mut pool, 0, Ok(0));
    see_draw(&rt, &mut pool, 0, Ok(1));
    pool.restart(1);
    see_draw(&rt, &mut pool, 2, Err(DrawRefusal::Quiet { until: 7 }));
    see(&rt, pool.ready(7) == Ok(()), "it is ready");
    see_draw(&rt, &mut pool, 7, Ok(0));
    forget(pool);
}

/// Draws each identifier.
fn draw_all(rt: &impl Abort, pool: &mut IdPool) {
    for id in 0..=u16::MAX {
        see_draw(rt, pool, 3, Ok(id));
    }
}

#[test]
fn identifiers_go_round(rt: HostRuntime) {
    let mut pool = IdPool::new(rt.alloc(), 6, 0).expect(&rt, "memory");
    draw_all(&rt, &mut pool);
    see_draw(&rt, &mut pool, 8, Err(DrawRefusal::IdsBusy { used: 3 }));
    see_draw(&rt, &mut pool, 9, Ok(0));
    forget(pool);
}

/// The journal lines of what a system does, and one with the number of each unit that goes out.
fn told(rt: &impl Abort, alloc: Global, actions: &[Action]) -> Vec<u8> {
    let mut text = Vec::new(alloc);
    for action in actions {
        push_action(alloc, action, &mut text).expect(rt, "memory");
    }
    text
}

/// Appends the line of one of them.
fn push_action(alloc: Global, action: &Action, text: &mut Vec<u8>) -> Result<(), NoMemory> {
    match action {
        Action::Note(note) => journal_text(alloc, 0, b"a", note, text),
        Action::Send(made) => push_unit(made.unit, text),
    }
}

/// Appends a line with the number of a unit.
fn push_unit(unit: u64, text: &mut Vec<u8>) -> Result<(), NoMemory> {
    push_decimal(unit, text)?;
    push(b" goes out\n", text)
}

/// A host makes a unit.
fn make(
    rt: &impl Abort,
    alloc: Global,
    system: &SystemConfig,
    limits: &Limits,
    out: &mut Vec<Action>,
) {
    let own = Address::from_bytes(b"\x47\x00\x27\x02").expect(rt, "an address");
    let ask = asking(rt);
    assert!(rt; limits.hold >= 1);
    let mut local = Local::new(alloc, system, limits, 0).expect(rt, "memory");
    let made = local.make(alloc, 0, Kind::Dt, own, own, b"hi", &ask, out);
    see(rt, made.ok() == Some(1), "its number");
    forget(local);
}

/// A unit comes to a host.
fn receive(
    rt: &impl Abort,
    alloc: Global,
    system: &SystemConfig,
    limits: &Limits,
    out: &mut Vec<Action>,
) {
    let frame = Frame::copy(alloc, PDU).expect(rt, "memory");
    assert!(rt; limits.hold >= 1);
    let mut local = Local::new(alloc, system, limits, 0).expect(rt, "memory");
    let Ok(pdu) = decode_frame(&frame) else {
        panic!(rt; "no PDU");
    };
    assert!(rt; pdu.life >= 1);
    see(rt, local.receive(alloc, 0, &frame, out).is_ok(), "it comes");
    see(rt, local.held() == 0, "nothing is held");
    forget(local);
}

/// Both of these, for each system.
fn make_and_receive(rt: &impl Abort, alloc: Global, scenario: &Scenario, out: &mut Vec<Action>) {
    for system in scenario.systems() {
        make(rt, alloc, system, scenario.limits(), out);
        receive(rt, alloc, system, scenario.limits(), out);
    }
}

#[test]
fn a_unit_is_made_and_received(rt: HostRuntime) {
    let scenario = scenario_of(&rt, rt.alloc());
    let mut out = Vec::new(rt.alloc());
    make_and_receive(&rt, rt.alloc(), &scenario, &mut out);
    assert!(rt; told(&rt, rt.alloc(), &out).as_slice() == LINES);
    forget(out);
    forget(scenario);
}
