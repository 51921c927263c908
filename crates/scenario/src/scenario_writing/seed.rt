//! The scenario that a seed makes.
ghost use Rattle.std.specs.Prelude.{◌≡◌, ◌++◌, ◌<◌, [], Some, IfOk, OnOk};
ghost use Rattle.scenario.specs.ScenarioWriting.Seeds.{round, storm, two_networks};
ghost use Rattle.scenario.specs.ScenarioWriting.Seeds as seeds;

use crate::base::NoMemory;
use crate::nsaps::Address;
use crate::{Body, Event, KeptAsk, Scenario, ScenarioRefusal, read};
use std::alloc::Global;

/// Two local networks that two routers join, with two hosts on each.
const TWO_NETWORKS: &[u8] = b"clnp-sim 1
limits 40 20 60
subnet lan1 1500
subnet mid 512
subnet lan2 1024
system a host life=32
system b host life=32
system r1 router life=32
system r2 router life=32
system c host life=32
system d host life=32
address a 4700270101
address b 4700270102
address r1 47002701ff
address r2 47002702ff
address c 4700270201
address d 4700270202
port a 0 lan1 01
port b 0 lan1 02
port r1 0 lan1 0a
port r1 1 mid 0b
port r2 0 mid 0c
port r2 1 lan2 0d
port c 0 lan2 03
port d 0 lan2 04
route r1 47002702 1 0c 47002702ff
route r2 47002701 0 0b 47002701ff
events
end
";

/// How many rounds there are.
const ROUNDS: usize = 300;

/// The most events: two at the start, two in each round, and three at the end.
const MOST_EVENTS: usize = 605;

/// The scenario that a seed makes: two local networks that two routers join, and a storm of events on them, with
/// units sent, echoes asked for, copies given again or lost, time that passes, and systems that are restarted.
///
/// # Errors
///
/// `NoMemory` where memory is refused.
pub fn from_seed(alloc: Global, seed: u64) -> Result<Scenario, NoMemory>
    ensures { IfOk result (λ scenario. scenario ≡ storm seed) }
{
    let networks = networks(alloc)?;
    // Its clause: the two networks are fit, and so they are with other events that are.
    networks.is_fit();
    let events = events(alloc, seed)?;
    Ok(networks.with_events(events))
}

/// The two networks, before anything happens.
fn networks(alloc: Global) -> Result<Scenario, NoMemory>
    ensures { IfOk result (λ scenario. scenario ≡ two_networks []) }
{
    match read(alloc, TWO_NETWORKS) {
        Ok(scenario) => Ok(scenario),
        Err(ScenarioRefusal::NoMemory) => Err(NoMemory),
        Err(ScenarioRefusal::BadLine { .. }) => unreachable!(),
    }
}

/// The events: hellos, the rounds, and time in which all comes to an end.
fn events(alloc: Global, seed: u64) -> Result<Vec<Event>, NoMemory>
    ensures { IfOk result (λ events. events.items ≡ seeds.storm_events seed) }
{
    let mut events = Vec::with_capacity(alloc, MOST_EVENTS)?;
    events.push(Event::Tick { count: 1 })?;
    events.push(Event::Settle { count: 40 })?;
    let mut state = seed;
    for _ in 0..ROUNDS {
        push_round(&mut state, &mut events)?;
    }
    events.push(Event::Settle { count: 100_000 })?;
    events.push(Event::Tick { count: 200 })?;
    events.push(Event::Settle { count: 100_000 })?;
    Ok(events)
}

/// Appends the events of a round.
#[tactic(auto, unfolding(crate::specs::ScenarioWriting::Seeds::round))]
fn push_round(state: &mut u64, events: &mut Vec<Event>) -> Result<(), NoMemory>
    ensures state { OnOk result (state.new ≡ (round state.old).1) }
    ensures events { OnOk result (events.new.items ≡ events.old.items ++ (round state.old).0) }
{
    let kind = pick(10, state);
    if let Some(event) = event_of(kind, state) {
        events.push(event)?;
    }
    let count = 1 + pick(30, state) as u32;
    events.push(Event::Settle { count })?;
    Ok(())
}

/// A number below n: the high bits of the generator's next state, modulo n.
#[tactic(auto, unfolding(crate::specs::ScenarioWriting::Seeds::next))]
fn pick(n: u64, state: &mut u64) -> u64
    requires { 0 < n }
    ensures number { result ≡ (seeds.pick n state.old).0 }
    ensures state { state.new ≡ (seeds.pick n state.old).1 }
    ensures below { result < n }
{
    *state = state
        .wrapping_mul(6_364_136_223_846_793_005)
        .wrapping_add(1_442_695_040_888_963_407);
    (*state >> 33) % n
}

/// The event of a round of one of ten kinds, where it has one.
#[tactic(auto, unfolding(crate::specs::ScenarioWriting::Seeds::event_of))]
fn event_of(kind: u64, state: &mut u64) -> Option<Event>
    ensures event { result ≡ (seeds.event_of kind state.old).0 }
    ensures state { state.new ≡ (seeds.event_of kind state.old).1 }
{
    match kind {
        0..=4 => Some(a_send(state)),
        5 => Some(an_echo(state)),
        6 => Some(a_delivery(state)),
        7 => Some(a_loss(state)),
        8 => Some(some_ticks(state)),
        _ => a_restart(state),
    }
}

/// A host sends a data unit to a host, as units are sent where no word says another thing.
fn a_send(state: &mut u64) -> Event
    ensures event { Some result ≡ (seeds.a_send state.old).0 }
    ensures state { state.new ≡ (seeds.a_send state.old).1 }
{
    let from = pick(4, state);
    let to = pick(4, state);
    let len = pick(6000, state) as u32;
    let start = pick(256, state) as u8;
    Event::Send {
        system: place_of(from),
        from: address_of(from),
        to: address_of(to),
        body: Body::Pattern { len, start },
        ask: KeptAsk::usual(32),
    }
}

/// A host asks a host for an echo.
fn an_echo(state: &mut u64) -> Event
    ensures event { Some result ≡ (seeds.an_echo state.old).0 }
    ensures state { state.new ≡ (seeds.an_echo state.old).1 }
{
    let from = pick(4, state);
    let to = pick(4, state);
    let len = pick(600, state) as u32;
    let start = pick(256, state) as u8;
    Event::Echo {
        system: place_of(from),
        from: address_of(from),
        to: address_of(to),
        body: Body::Pattern { len, start },
    }
}

/// One of the copies 1 to 2000 is given to a system.
fn a_delivery(state: &mut u64) -> Event
    ensures event { Some result ≡ (seeds.a_delivery state.old).0 }
    ensures state { state.new ≡ (seeds.a_delivery state.old).1 }
{
    let copy = 1 + pick(2000, state) as u32;
    let system = pick(6, state) as u8;
    Event::Deliver { copy, system }
}

/// 1 to 5 copies are lost.
fn a_loss(state: &mut u64) -> Event
    ensures event { Some result ≡ (seeds.a_loss state.old).0 }
    ensures state { state.new ≡ (seeds.a_loss state.old).1 }
{
    let count = 1 + pick(5, state) as u32;
    Event::Lose { count }
}

/// 1 to 10 ticks pass.
fn some_ticks(state: &mut u64) -> Event
    ensures event { Some result ≡ (seeds.some_ticks state.old).0 }
    ensures state { state.new ≡ (seeds.some_ticks state.old).1 }
{
    let count = 1 + pick(10, state) as u32;
    Event::Tick { count }
}

/// A system is restarted, once in eight times.
fn a_restart(state: &mut u64) -> Option<Event>
    ensures event { result ≡ (seeds.a_restart state.old).0 }
    ensures state { state.new ≡ (seeds.a_restart state.old).1 }
{
    if pick(8, state) != 0 {
        return None;
    }
    let system = pick(6, state) as u8;
    Some(Event::Restart { system })
}

/// The place of a host among the systems.
fn place_of(number: u64) -> u8
    ensures { result ≡ seeds.place_of number }
{
    match number {
        0 => 0,
        1 => 1,
        2 => 4,
        _ => 5,
    }
}

/// The address of a host.
fn address_of(number: u64) -> Address
    ensures { result ≡ seeds.address_of number }
{
    match number {
        0 => address_in(1, 1),
        1 => address_in(1, 2),
        2 => address_in(2, 1),
        _ => address_in(2, 2),
    }
}

/// The address of a system in a local network.
fn address_in(network: u8, system: u8) -> Address
    ensures { result ≡ seeds.address_in network system }
{
    match Address::from_bytes(&[0x47, 0, 0x27, network, system]) {
        Ok(address) => address,
        Err(_) => unreachable!(),
    }
}
