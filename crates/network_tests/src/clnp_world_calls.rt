use crate::seeing::see;
use clnp_machine::system_plan::Telling;
use clnp_program::scenarios::{Scenario, read};
use clnp_program::worlds::{Counts, Move, World};
use frame_links::link_board::base::lines;
use std::alloc::Global;
use std::mem::forget;
use std::process::Abort;

/// Two hosts and a router on a subnetwork, which change; the clocks of two systems may be one tick apart.
const TEXT: &[u8] = b"clnp-sim 2
limits 4 2 8 1
subnet lan 65535
system a host hello=0
system b host hello=0
system r router hello=0
address a 47002702
address b 47002701
address r 470027ff
port a 0 lan 01
port b 0 lan 02
port r 0 lan 0a
events
send a 47002702 47002701 hex:6869 life=10 whole
deliver 1 b
restart a
mtu lan 512
route r 47002701 0 02 47002701
unroute r 48
port b 0 lan 03
end
";

const MOVES: &[Move] = &[
    Move::One(0),
    Move::SettleOne,
    Move::LoseOne,
    Move::One(1),
    Move::TickOne,
    Move::One(3),
    Move::One(4),
    Move::One(5),
    Move::One(6),
    Move::TickSystem(0),
    Move::One(2),
];

const JOURNAL: &[u8] = b"0 a sent dt 1 - 47002702 47002701 2
0 a tx 1 0 es 8113010a3c0015ce58044700270104470027026869
0 b got 47002702 47002701 6869
0 b got 47002702 47002701 6869
1 - mtu lan 512
1 r route 47002701
1 r unroute 48 no
1 b port 0 lan 03
2 a restart
end 2 1
";

/// The scenario of the text.
fn scenario_of(rt: &impl Abort, alloc: Global) -> Scenario {
    // Its clause: a text has no more lines than octets, so that this one is short.
    let _lines = lines(TEXT);
    read(alloc, TEXT).expect(rt, "a scenario")
}

/// Makes a move, and appends its lines.
fn make(
    rt: &impl Abort,
    alloc: Global,
    scenario: &Scenario,
    world: &mut World,
    mv: &Move,
    journal: &mut Vec<u8>,
) {
    assert!(rt; world.clock() < 1_000_000);
    let made = world.step(alloc, scenario, mv, Telling::Journal, journal);
    see(rt, made.is_ok(), "the move is made");
}

/// Makes one move after the other, and appends the journal.
fn make_all(
    rt: &impl Abort,
    alloc: Global,
    scenario: &Scenario,
    world: &mut World,
    journal: &mut Vec<u8>,
) {
    for mv in MOVES {
        make(rt, alloc, scenario, world, mv, journal);
    }
    see(rt, world.finish(alloc, journal).is_ok(), "the last line");
}

/// Sees the network after these moves.
fn see_network(rt: &impl Abort, world: &World) {
    see(rt, world.clock() == 2, "its clock");
    see(rt, world.weight() == 85, "its weight");
    see(rt, world.host(2).is_none(), "the third is no host");
    see(rt, world.router(0).is_none(), "the first is no router");
    see(rt, world.router(2).is_some(), "the third is a router");
    let host = world.host(0).expect(rt, "a host");
    see(rt, host.config().name() == b"a".as_slice(), "its name");
}

/// Makes a move, and counts its lines.
fn count(
    rt: &impl Abort,
    alloc: Global,
    scenario: &Scenario,
    world: &mut World,
    mv: &Move,
) -> Counts {
    let mut counts = Counts::none();
    assert!(rt; world.clock() < 1_000_000);
    let made = world.count_step(alloc, scenario, mv, &mut counts);
    see(rt, made.is_ok(), "the move is made");
    counts
}

/// Makes a move of a network whose lines are counted, and sees how many units were handed up, and whether all is settled.
fn see_counted(
    rt: &impl Abort,
    alloc: Global,
    scenario: &Scenario,
    world: &mut World,
    mv: &Move,
    got: u64,
) {
    let wanted = Counts {
        got,
        ..Counts::none()
    };
    let counts = count(rt, alloc, scenario, world, mv);
    see(rt, counts == wanted, "what is counted");
    see(
        rt,
        world.is_settled() == (got == 1),
        "whether all is settled",
    );
}

/// Sees the journal of these moves.
fn see_journal(rt: &impl Abort, alloc: Global, scenario: &Scenario, world: &mut World) {
    let mut journal = Vec::new(alloc);
    make_all(rt, alloc, scenario, world, &mut journal);
    assert!(rt; journal.as_slice() == JOURNAL);
}

/// Sees what is counted afterwards.
fn see_counts(rt: &impl Abort, alloc: Global, scenario: &Scenario, world: &mut World) {
    see(rt, world.is_settled(), "all is settled");
    see_counted(rt, alloc, scenario, world, &Move::One(0), 0);
    see_counted(rt, alloc, scenario, world, &Move::SettleOne, 1);
}

#[test]
fn moves_are_made_and_counted(rt: HostRuntime) {
    let scenario = scenario_of(&rt, rt.alloc());
    let mut world = World::new(rt.alloc(), &scenario).expect(&rt, "memory");
    see_journal(&rt, rt.alloc(), &scenario, &mut world);
    see_network(&rt, &world);
    see_counts(&rt, rt.alloc(), &scenario, &mut world);
    // They are left to the end of the process: to drop them would be proved once more.
    forget(world);
    forget(scenario);
}
