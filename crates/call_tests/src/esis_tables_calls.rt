use crate::seeing::see;
use scenario::scenario_writing::scenarios::hearing::{
    EsisLimits, Gone, Heard, Neighbour, TableKind, Tables,
};
use scenario::scenario_writing::scenarios::nsaps::{Address, Snpa};
use std::alloc::Global;
use std::mem::forget;
use std::process::Abort;

const LIMITS: EsisLimits = EsisLimits {
    neighbours: 2,
    routers: 2,
    redirects: 1,
};

/// What is heard at tick 0, and the answer: in which table, the last octet of its key, its SNPA, and for how many seconds
/// it holds.
struct Hearing(TableKind, u8, u8, u16, Heard);

const HEARINGS: &[Hearing] = &[
    Hearing(TableKind::Is, 0xff, 0x0a, 120, Heard::New),
    Hearing(TableKind::Is, 0xff, 0x0a, 120, Heard::Again),
    Hearing(TableKind::Es, 0x02, 0x0a, 120, Heard::New),
    Hearing(TableKind::Es, 0x01, 0x0a, 120, Heard::New),
    Hearing(TableKind::Es, 0x03, 0x0a, 120, Heard::Full { entries: 2 }),
    Hearing(TableKind::Es, 0x01, 0x0a, 60, Heard::Again),
    Hearing(TableKind::Es, 0x03, 0x0a, 0, Heard::Zero),
    Hearing(TableKind::Es, 0x02, 0x0a, 0, Heard::Zero),
    Hearing(TableKind::Es, 0x03, 0x0a, 120, Heard::New),
    Hearing(TableKind::Rd, 0x01, 0x0a, 120, Heard::New),
    Hearing(TableKind::Rd, 0x04, 0x0a, 120, Heard::Full { entries: 1 }),
];

/// A router, two hosts, and a redirect.
const NEIGHBOURS: &[Hearing] = &[
    Hearing(TableKind::Is, 0xff, 0x0a, 120, Heard::New),
    Hearing(TableKind::Es, 0x02, 0x01, 120, Heard::New),
    Hearing(TableKind::Es, 0x01, 0x02, 120, Heard::New),
    Hearing(TableKind::Rd, 0x01, 0x02, 120, Heard::New),
];

/// The address 47.0027 and one more octet.
fn address(rt: &impl Abort, last: u8) -> Address {
    Address::from_bytes(&[0x47, 0x00, 0x27, last]).expect(rt, "an address")
}

fn snpa(rt: &impl Abort, octet: u8) -> Snpa {
    Snpa::from_bytes(&[octet]).expect(rt, "an SNPA")
}

/// The place of this SNPA on port 0.
fn neighbour(rt: &impl Abort, octet: u8) -> Neighbour {
    Neighbour {
        port: 0,
        snpa: snpa(rt, octet),
    }
}

/// Tables that heard this, each of which was answered as it is to be.
fn heard(rt: &impl Abort, alloc: Global, hearings: &[Hearing]) -> Tables {
    let mut tables = Tables::new(alloc, LIMITS).expect(rt, "memory");
    for Hearing(table, last, octet, hold, answer) in hearings {
        let told = tables.hear(0, *table, address(rt, *last), neighbour(rt, *octet), *hold);
        see(rt, told == *answer, "the answer to a hearing");
    }
    tables
}

#[test]
fn answers_hearings(rt: HostRuntime) {
    forget(heard(&rt, rt.alloc(), HEARINGS));
}

/// The redirect's next hop, where it holds.
fn hop(rt: &impl Abort, holds: bool) -> Option<Neighbour> {
    if holds {
        Some(neighbour(rt, 0x02))
    } else {
        None
    }
}

/// Sees whether the way to a host is told, by a redirect and by the host itself.
fn see_hops(rt: &impl Abort, tables: &Tables, now: u64, holds: bool) {
    let one = address(rt, 0x01);
    let hop = hop(rt, holds);
    let other = address(rt, 0x02);
    see(rt, tables.redirect(now, &one) == hop, "the redirect");
    see(rt, tables.system(now, &one) == hop, "the host");
    see(rt, tables.redirect(now, &other).is_none(), "no redirect");
}

/// Sees whether the router is known, and no other system as one.
fn see_routers(rt: &impl Abort, tables: &Tables, now: u64, holds: bool) {
    let router = snpa(rt, 0x0a);
    let other = snpa(rt, 0x0b);
    see(
        rt,
        tables.last_router(now).is_some() == holds,
        "a last router",
    );
    see(rt, tables.is_router(now, &router) == holds, "the router");
    see(rt, !tables.is_router(now, &other), "another system");
}

/// Sees what is known at a moment.
fn see_known(rt: &impl Abort, tables: &Tables, now: u64, holds: bool) {
    see_hops(rt, tables, now, holds);
    see_routers(rt, tables, now, holds);
}

#[test]
fn looks_up_what_holds(rt: HostRuntime) {
    let tables = heard(&rt, rt.alloc(), NEIGHBOURS);
    see_known(&rt, &tables, 0, true);
    see_known(&rt, &tables, 239, true);
    see_known(&rt, &tables, 240, false);
    forget(tables);
}

/// Sees which entry is the next that no longer holds at tick 240.
fn see_gone(rt: &impl Abort, tables: &mut Tables, table: TableKind, last: u8) {
    let key = address(rt, last);
    assert!(rt; tables.flush(240) == Some(Gone { table, key }));
}

/// Sees that all entries hold at a moment.
fn see_none_gone(rt: &impl Abort, tables: &mut Tables, now: u64) {
    assert!(rt; tables.flush(now).is_none());
}

#[test]
fn flushes_in_order(rt: HostRuntime) {
    let mut tables = heard(&rt, rt.alloc(), NEIGHBOURS);
    see_none_gone(&rt, &mut tables, 239);
    see_gone(&rt, &mut tables, TableKind::Es, 0x01);
    see_gone(&rt, &mut tables, TableKind::Es, 0x02);
    see_gone(&rt, &mut tables, TableKind::Is, 0xff);
    see_gone(&rt, &mut tables, TableKind::Rd, 0x01);
    see_none_gone(&rt, &mut tables, 240);
    forget(tables);
}
