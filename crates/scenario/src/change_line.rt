//! The event lines by which a network changes: those of version 2 alone.
ghost use Rattle.std.specs.Prelude.{◌≡◌, ◌≤◌, map, length, slice_get};
ghost use Rattle.clnp_plan.specs.ClnpBase.Text.{words_of};
ghost use Rattle.scenario.specs.Events.{change_line, has_number, mtu_line, port_line, port_word, route_line, scene_of, tick_system_line, unroute_line};
ghost use Rattle.clnp_plan.specs.ScenarioPlan.Plan.{Subnetwork};

use crate::code::Code;
use crate::event_line::{router_word, subnet_word, system_word};
use crate::standing::Standing;
use crate::word::{
    address_word, five_words, four_words, is_digits, mtu_word, number_word, prefix_word, snpa_word,
    two_words, wanted,
};
use clnp_plan::SystemConfig;
use clnp_plan::base::{DigitValues, same};
use clnp_plan::routing::Route;
use clnp_plan::scenario_plan::{Event, Subnet};

/// What is settled before the first event: the version of the text, the subnetworks and the systems.
#[derive(Clone, Copy)]
pub(crate) struct Settled<'a> {
    pub(crate) version: u8,
    pub(crate) subnets: &'a [Subnet],
    pub(crate) systems: &'a [SystemConfig],
    /// What each character is worth as a hexadecimal digit.
    pub(crate) values: &'a DigitValues,
}

/// Whether the system at a place has a port of this number.
fn has_number(systems: &[SystemConfig], place: u8, number: u8) -> bool
    ensures { result ≡ has_number number (slice_get systems.now place) }
{
    match systems.get(usize::from(place)) {
        Some(system) => usize::from(number) < system.ports().len(),
        None => false,
    }
}

/// The number of a port that the system at a place has.
fn port_word(systems: &[SystemConfig], place: u8, word: &[u8]) -> Result<u8, Code>
    ensures { result ≡ port_word (slice_get systems.now place) word.now }
{
    let number = number_word(0, 7, word)? as u8;
    wanted(has_number(systems, place, number), Code::UnknownName)?;
    Ok(number)
}

/// `SUBNET MTU`, behind `mtu`.
#[tactic(auto, unfolding(crate::specs::Events::mtu_line))]
fn mtu_line(subnets: &[Subnet], line: &[u8]) -> Result<Event, Code>
    requires { length subnets.now ≤ 64 }
    ensures { result ≡ mtu_line (map (λ (subnet : Subnetwork). subnet.name) subnets.now) (words_of line.now) }
{
    let Some((subnet, mtu)) = two_words(line) else {
        return Err(Code::Syntax);
    };
    let subnet = subnet_word(subnets, subnet)?;
    wanted(is_digits(mtu), Code::Number)?;
    let mtu = mtu_word(mtu)?;
    Ok(Event::Mtu { subnet, mtu })
}

/// `NAME PREFIX PORT SNPA TITLE`, behind `route`.
#[tactic(auto, unfolding(crate::specs::Events::route_line))]
fn route_line(settled: Settled<'_>, standing: &Standing, line: &[u8]) -> Result<Event, Code>
    requires { length settled.systems.now ≤ 64 }
    ensures { result ≡ route_line
        (scene_of settled.entry.version settled.entry.subnets.now settled.entry.systems.now standing.now)
        (words_of line.now) }
{
    let Some((name, prefix, port, snpa, title)) = five_words(line) else {
        return Err(Code::Syntax);
    };
    let system = router_word(settled.systems, name)?;
    let prefix = prefix_word(prefix)?;
    let port = port_word(settled.systems, system, port)?;
    let snpa = snpa_word(snpa)?;
    let title = address_word(title)?;
    wanted(standing.takes_prefix(system, &prefix), Code::Count)?;
    Ok(Event::Route {
        system,
        route: Route {
            prefix,
            port,
            snpa,
            title,
        },
    })
}

/// `NAME PREFIX`, behind `unroute`.
#[tactic(auto, unfolding(crate::specs::Events::unroute_line))]
fn unroute_line(settled: Settled<'_>, standing: &Standing, line: &[u8]) -> Result<Event, Code>
    requires { length settled.systems.now ≤ 64 }
    ensures { result ≡ unroute_line
        (scene_of settled.entry.version settled.entry.subnets.now settled.entry.systems.now standing.now)
        (words_of line.now) }
{
    let Some((name, prefix)) = two_words(line) else {
        return Err(Code::Syntax);
    };
    let router = router_word(settled.systems, name)?;
    let prefix = prefix_word(prefix)?;
    Ok(Event::Unroute {
        system: router,
        prefix,
    })
}

/// `NAME NUMBER SUBNET SNPA`, behind `port`.
#[tactic(auto, unfolding(crate::specs::Events::port_line))]
fn port_line(settled: Settled<'_>, standing: &Standing, line: &[u8]) -> Result<Event, Code>
    requires subnets { length settled.subnets.now ≤ 64 }
    requires systems { length settled.systems.now ≤ 64 }
    ensures { result ≡ port_line
        (scene_of settled.entry.version settled.entry.subnets.now settled.entry.systems.now standing.now)
        (words_of line.now) }
{
    let Some((name, number, subnet, snpa)) = four_words(line) else {
        return Err(Code::Syntax);
    };
    let system = system_word(settled.systems, name)?;
    let number = port_word(settled.systems, system, number)?;
    let subnet = subnet_word(settled.subnets, subnet)?;
    let snpa = snpa_word(snpa)?;
    wanted(!standing.has_second(system, number, subnet), Code::DupName)?;
    wanted(
        !standing.has_rival(system, number, subnet, &snpa),
        Code::DupAddress,
    )?;
    Ok(Event::Port {
        system,
        number,
        subnet,
        snpa,
    })
}

/// `NAME N`, behind `tick`: one system ticks alone.
#[tactic(auto, unfolding(crate::specs::Events::tick_system_line))]
pub(crate) fn tick_system_line(
    settled: Settled<'_>,
    standing: &Standing,
    line: &[u8],
) -> Result<Event, Code>
    requires { length settled.systems.now ≤ 64 }
    ensures { result ≡ tick_system_line
        (scene_of settled.entry.version settled.entry.subnets.now settled.entry.systems.now standing.now)
        (words_of line.now) }
{
    let Some((name, count)) = two_words(line) else {
        return Err(Code::Syntax);
    };
    let system = system_word(settled.systems, name)?;
    let count = number_word(1, 65_535, count)? as u32;
    wanted(!standing.runs_ahead(system, count), Code::Limits)?;
    Ok(Event::TickSystem { system, count })
}

/// The event of a line by its keyword.
#[tactic(auto, unfolding(crate::specs::Events::change_line))]
pub(crate) fn change_line(
    settled: Settled<'_>,
    standing: &Standing,
    keyword: &[u8],
    line: &[u8],
) -> Result<Event, Code>
    requires subnets { length settled.subnets.now ≤ 64 }
    requires systems { length settled.systems.now ≤ 64 }
    ensures { result ≡ change_line
        (scene_of settled.entry.version settled.entry.subnets.now settled.entry.systems.now standing.now)
        keyword.now (words_of line.now) }
{
    if same(keyword, b"mtu") {
        return mtu_line(settled.subnets, line);
    }
    if same(keyword, b"route") {
        return route_line(settled, standing, line);
    }
    if same(keyword, b"unroute") {
        return unroute_line(settled, standing, line);
    }
    if same(keyword, b"port") {
        return port_line(settled, standing, line);
    }
    Err(Code::Syntax)
}
