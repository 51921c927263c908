//! The event lines.
ghost use Rattle.std.specs.Prelude.{◌≡◌, ◌<◌, ◌≤◌, map, length, slice_get, IfSome, Ok, Err, MatchResult};
ghost use Rattle.std.specs.List.{position};
ghost use Rattle.std.specs.Str.{bytes_eq};
ghost use Rattle.clnp_plan.specs.ClnpBase.Text.{words_of};
ghost use Rattle.scenario.specs.Events.{own_life, is_host, is_host_at, host_word, send_line, deliver_line, count_line, tick_line, ticks_line, restart_line, echo_line, is_router_at, router_word, on_word, congest_line, inject_line, scene_of, event_line, is_live_line};
ghost use Rattle.clnp_plan.specs.ScenarioPlan.Plan.{Subnetwork};
ghost use Rattle.scenario.specs.Words.{declared_word};
ghost use Rattle.scenario.specs.Refusal.{Faults};

use crate::change_line::{Settled, change_line, tick_system_line};
use crate::code::Code;
use crate::fault::LineFault;
use crate::standing::Standing;
use crate::system::is_router;
use crate::wish::{ask_of, each_once, wish_words};
use crate::word::{
    address_word, data_word, first_four, four_words, frame_word, is_name, is_one_at_most,
    number_word, one_word, snpa_word, target_word, two_words, wanted,
};
use clnp_plan::base::{DigitValues, next_word, same};
use clnp_plan::scenario_plan::{Event, KeptAsk, Subnet};
use clnp_plan::{Role, SystemConfig};
use std::alloc::Global;

/// The place of the first system of this name.
fn first_named(systems: &[SystemConfig], name: &[u8]) -> Option<usize>
    ensures place { result ≡ position (λ system. bytes_eq system.name name.now) systems.now }
    ensures within { IfSome result (λ place. place < length systems.now) }
{
    systems.iter().position(|system| same(system.name(), name))
}

/// The place of a name among the systems'.
fn place_of(systems: &[SystemConfig], name: &[u8]) -> Option<usize>
    ensures place { result ≡ position (λ other. bytes_eq other name.now) (map (λ system. system.name) systems.now) }
    ensures within { IfSome result (λ place. place < length systems.now) }
{
    first_named(systems, name)
}

/// The place of the system that a word names.
pub(crate) fn system_word(systems: &[SystemConfig], word: &[u8]) -> Result<u8, Code>
    requires { length systems.now ≤ 64 }
    ensures { result ≡ declared_word (map (λ system. system.name) systems.now) word.now }
{
    if !is_name(word) {
        return Err(Code::Syntax);
    }
    match place_of(systems, word) {
        Some(place) => Ok(place as u8),
        None => Err(Code::UnknownName),
    }
}

fn is_host(role: Role) -> bool
    ensures { result ≡ is_host role }
{
    matches!(role, Role::Host)
}

/// Whether the system at a place is a host.
fn is_host_at(systems: &[SystemConfig], place: u8) -> bool
    ensures { result ≡ is_host_at (slice_get systems.now place) }
{
    match systems.get(usize::from(place)) {
        Some(system) => is_host(system.role()),
        None => false,
    }
}

/// The place of the host that a word names.
fn host_word(systems: &[SystemConfig], word: &[u8]) -> Result<u8, Code>
    requires { length systems.now ≤ 64 }
    ensures { result ≡ host_word (map (λ system. system.name) systems.now) systems.now word.now }
{
    let place = system_word(systems, word)?;
    wanted(is_host_at(systems, place), Code::UnknownName)?;
    Ok(place)
}

/// The lifetime that the setting of the system at a place says.
fn own_life(systems: &[SystemConfig], place: u8) -> u8
    ensures { result ≡ own_life (slice_get systems.now place) }
{
    match systems.get(usize::from(place)) {
        Some(system) => system.settings().life,
        None => 64,
    }
}

/// `NAME FROM TO DATA` and wishes, behind `send`.
#[tactic(auto, unfolding(crate::specs::Events::send_line))]
fn send_line(alloc: Global, systems: &[SystemConfig], line: &[u8]) -> Result<Event, LineFault>
    requires { length systems.now ≤ 64 }
    ensures { let reading = send_line (map (λ system. system.name) systems.now) systems.now (words_of line.now) in
        MatchResult result (λ event. reading ≡ Ok event) (λ fault. Faults fault reading) }
{
    let Some((name, from, to, body, words)) = first_four(line) else {
        return Err(LineFault::Broken(Code::Syntax));
    };
    let system = host_word(systems, name)?;
    let from = address_word(from)?;
    let to = address_word(to)?;
    let body = data_word(alloc, body)?;
    let wishes = wish_words(alloc, words)?;
    wanted(each_once(&wishes), Code::DupName)?;
    let ask = KeptAsk::of(alloc, &ask_of(own_life(systems, system), &wishes))?;
    Ok(Event::Send {
        system,
        from,
        to,
        body,
        ask,
    })
}

/// `K NAME`, behind `deliver`.
#[tactic(auto, unfolding(crate::specs::Events::deliver_line))]
fn deliver_line(systems: &[SystemConfig], line: &[u8]) -> Result<Event, Code>
    requires { length systems.now ≤ 64 }
    ensures { result ≡ deliver_line (map (λ system. system.name) systems.now) (words_of line.now) }
{
    let Some((copy, name)) = two_words(line) else {
        return Err(Code::Syntax);
    };
    let copy = number_word(1, 1_000_000_000, copy)? as u32;
    let system = system_word(systems, name)?;
    Ok(Event::Deliver { copy, system })
}

/// `N`, behind `settle` and `lose`.
#[tactic(auto, unfolding(crate::specs::Events::count_line))]
fn count_line(line: &[u8]) -> Result<u32, Code>
    ensures { result ≡ count_line (words_of line.now) }
{
    let Some(count) = one_word(line) else {
        return Err(Code::Syntax);
    };
    let count = number_word(1, 100_000, count)?;
    Ok(count as u32)
}

/// `N`, behind `tick`.
#[tactic(auto, unfolding(crate::specs::Events::tick_line))]
fn tick_line(line: &[u8]) -> Result<u32, Code>
    ensures { result ≡ tick_line (words_of line.now) }
{
    let Some(count) = one_word(line) else {
        return Err(Code::Syntax);
    };
    let count = number_word(1, 65_535, count)?;
    Ok(count as u32)
}

/// Behind `tick`: all systems tick, or one system alone.
#[tactic(auto, unfolding(crate::specs::Events::ticks_line))]
fn ticks_line(settled: Settled<'_>, standing: &Standing, line: &[u8]) -> Result<Event, Code>
    requires { length settled.systems.now ≤ 64 }
    ensures { result ≡ ticks_line
        (scene_of settled.entry.version settled.entry.subnets.now settled.entry.systems.now standing.now)
        (words_of line.now) }
{
    if settled.version == 1 || is_one_at_most(line) {
        let count = tick_line(line)?;
        return Ok(Event::Tick { count });
    }
    tick_system_line(settled, standing, line)
}

/// `NAME`, behind `restart`.
#[tactic(auto, unfolding(crate::specs::Events::restart_line))]
fn restart_line(systems: &[SystemConfig], line: &[u8]) -> Result<Event, Code>
    requires { length systems.now ≤ 64 }
    ensures { result ≡ restart_line (map (λ system. system.name) systems.now) (words_of line.now) }
{
    let Some(name) = one_word(line) else {
        return Err(Code::Syntax);
    };
    let system = system_word(systems, name)?;
    Ok(Event::Restart { system })
}

/// `NAME FROM TO DATA`, behind `echo`.
#[tactic(auto, unfolding(crate::specs::Events::echo_line))]
fn echo_line(alloc: Global, systems: &[SystemConfig], line: &[u8]) -> Result<Event, LineFault>
    requires { length systems.now ≤ 64 }
    ensures { let reading = echo_line (map (λ system. system.name) systems.now) (words_of line.now) in
        MatchResult result (λ event. reading ≡ Ok event) (λ fault. Faults fault reading) }
{
    let Some((name, from, to, body)) = four_words(line) else {
        return Err(LineFault::Broken(Code::Syntax));
    };
    let system = system_word(systems, name)?;
    let from = address_word(from)?;
    let to = address_word(to)?;
    let body = data_word(alloc, body)?;
    Ok(Event::Echo {
        system,
        from,
        to,
        body,
    })
}

/// Whether the system at a place is a router.
fn is_router_at(systems: &[SystemConfig], place: u8) -> bool
    ensures { result ≡ is_router_at (slice_get systems.now place) }
{
    match systems.get(usize::from(place)) {
        Some(system) => is_router(system.role()),
        None => false,
    }
}

/// The place of the router that a word names.
pub(crate) fn router_word(systems: &[SystemConfig], word: &[u8]) -> Result<u8, Code>
    requires { length systems.now ≤ 64 }
    ensures { result ≡ router_word (map (λ system. system.name) systems.now) systems.now word.now }
{
    let place = system_word(systems, word)?;
    wanted(is_router_at(systems, place), Code::UnknownName)?;
    Ok(place)
}

/// `on` or `off`.
fn on_word(word: &[u8]) -> Result<bool, Code>
    ensures { result ≡ on_word word.now }
{
    if same(word, b"on") {
        return Ok(true);
    }
    if same(word, b"off") {
        return Ok(false);
    }
    Err(Code::Syntax)
}

/// `NAME on` or `NAME off`, behind `congest`.
#[tactic(auto, unfolding(crate::specs::Events::congest_line))]
fn congest_line(systems: &[SystemConfig], line: &[u8]) -> Result<Event, Code>
    requires { length systems.now ≤ 64 }
    ensures { result ≡ congest_line (map (λ system. system.name) systems.now) systems.now (words_of line.now) }
{
    let Some((name, word)) = two_words(line) else {
        return Err(Code::Syntax);
    };
    let system = router_word(systems, name)?;
    let on = on_word(word)?;
    Ok(Event::Congest { system, on })
}

/// The place of the first subnetwork of this name.
fn first_subnet_named(subnets: &[Subnet], name: &[u8]) -> Option<usize>
    ensures place { result ≡ position (λ subnet. bytes_eq subnet.name name.now) subnets.now }
    ensures within { IfSome result (λ place. place < length subnets.now) }
{
    subnets.iter().position(|subnet| same(subnet.name(), name))
}

/// The place of a name among the subnetworks'.
fn subnet_place_of(subnets: &[Subnet], name: &[u8]) -> Option<usize>
    ensures place { result ≡ position (λ other. bytes_eq other name.now)
        (map (λ (subnet : Subnetwork). subnet.name) subnets.now) }
    ensures within { IfSome result (λ place. place < length subnets.now) }
{
    first_subnet_named(subnets, name)
}

/// The place of the subnetwork that a word names.
pub(crate) fn subnet_word(subnets: &[Subnet], word: &[u8]) -> Result<u8, Code>
    requires { length subnets.now ≤ 64 }
    ensures { result ≡ declared_word (map (λ (subnet : Subnetwork). subnet.name) subnets.now) word.now }
{
    if !is_name(word) {
        return Err(Code::Syntax);
    }
    match subnet_place_of(subnets, word) {
        Some(place) => Ok(place as u8),
        None => Err(Code::UnknownName),
    }
}

/// The most octets of a frame from outside.
const MOST_FRAME: usize = 70_000;

/// `SUBNET FROM TO HEX`, behind `inject`.
#[tactic(auto, unfolding(crate::specs::Events::inject_line))]
fn inject_line(
    alloc: Global,
    values: &DigitValues,
    subnets: &[Subnet],
    line: &[u8],
) -> Result<Event, LineFault>
    requires { length subnets.now ≤ 64 }
    ensures { let reading = inject_line (map (λ (subnet : Subnetwork). subnet.name) subnets.now) (words_of line.now) in
        MatchResult result (λ event. reading ≡ Ok event) (λ fault. Faults fault reading) }
{
    let Some((subnet, from, to, octets)) = four_words(line) else {
        return Err(LineFault::Broken(Code::Syntax));
    };
    let subnet = subnet_word(subnets, subnet)?;
    let from = snpa_word(from)?;
    let to = target_word(to)?;
    let octets = frame_word(alloc, values, octets)?;
    wanted(octets.as_bytes().len() <= MOST_FRAME, Code::Count)?;
    Ok(Event::Inject {
        subnet,
        from,
        to,
        octets,
    })
}

/// Whether a line begins as one of an event which a live node takes.
pub(crate) fn is_live_line(line: &[u8]) -> bool
    ensures { result ≡ is_live_line (words_of line.now) }
{
    match next_word(line) {
        Some((keyword, words)) => {
            same(keyword, b"send")
                || same(keyword, b"echo")
                || (same(keyword, b"tick") && is_one_at_most(words))
        }
        None => false,
    }
}

/// The event of a line.
#[tactic(auto, unfolding(crate::specs::Events::event_line))]
pub(crate) fn event_line(
    alloc: Global,
    settled: Settled<'_>,
    standing: &Standing,
    line: &[u8],
) -> Result<Event, LineFault>
    requires subnets { length settled.subnets.now ≤ 64 }
    requires systems { length settled.systems.now ≤ 64 }
    ensures { let reading = event_line
        (scene_of settled.entry.version settled.entry.subnets.now settled.entry.systems.now standing.now)
        (words_of line.now) in
        MatchResult result (λ event. reading ≡ Ok event) (λ fault. Faults fault reading) }
{
    let Some((keyword, line)) = next_word(line) else {
        return Err(LineFault::Broken(Code::Syntax));
    };
    if same(keyword, b"send") {
        return send_line(alloc, settled.systems, line);
    }
    if same(keyword, b"deliver") {
        return match deliver_line(settled.systems, line) {
            Ok(event) => Ok(event),
            Err(code) => Err(LineFault::Broken(code)),
        };
    }
    if same(keyword, b"settle") {
        let count = count_line(line)?;
        return Ok(Event::Settle { count });
    }
    if same(keyword, b"lose") {
        let count = count_line(line)?;
        return Ok(Event::Lose { count });
    }
    if same(keyword, b"tick") {
        return match ticks_line(settled, standing, line) {
            Ok(event) => Ok(event),
            Err(code) => Err(LineFault::Broken(code)),
        };
    }
    if same(keyword, b"restart") {
        return match restart_line(settled.systems, line) {
            Ok(event) => Ok(event),
            Err(code) => Err(LineFault::Broken(code)),
        };
    }
    if same(keyword, b"echo") {
        return echo_line(alloc, settled.systems, line);
    }
    if same(keyword, b"congest") {
        return match congest_line(settled.systems, line) {
            Ok(event) => Ok(event),
            Err(code) => Err(LineFault::Broken(code)),
        };
    }
    if same(keyword, b"inject") {
        return inject_line(alloc, settled.values, settled.subnets, line);
    }
    if settled.version == 1 {
        return Err(LineFault::Broken(Code::Syntax));
    }
    match change_line(settled, standing, keyword, line) {
        Ok(event) => Ok(event),
        Err(code) => Err(LineFault::Broken(code)),
    }
}
