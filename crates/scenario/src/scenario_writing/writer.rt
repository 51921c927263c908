//! The writer of scenario texts.
ghost use Rattle.std.specs.Prelude.{◌≡◌, [], ◌∷◌, ◌++◌, ◌≤◌, codes, length, map, slice_get, Ok, OnOk, OnErr};
ghost use Rattle.std.specs.List.{flat_map};
ghost use Rattle.std.specs.Fmt.{decimal};
ghost use Rattle.clnp_plan.specs.Journal.{behind_space, line_of};
ghost use Rattle.clnp_plan.specs.Words.{word_text};
ghost use Rattle.scenario.specs.ScenarioWriting.Canonical as canonical;
ghost use Rattle.scenario.specs.ScenarioWriting.Canonical.{address_text, ask_words, belongings_text, event_text, header_text, limits_text, port_text, port_texts, route_text, subnet_text, system_text, text_of};
ghost use Rattle.scenario.specs.Grammar.{plan_of};

use crate::base::{NoMemory, push};
use crate::nsaps::Address;
use crate::routing::Route;
use crate::scenario_writing::laws;
use crate::system_plan::{
    Ask, Limits, PortConfig, Role, SystemConfig, Word, on_or_off, push_line, push_words,
    target_text,
};
use crate::{Body, Event, Scenario, Subnet};
use std::alloc::Global;

/// Appends the text of a scenario, from which `read` reads it again: each line with all its words, in one order, and
/// hexadecimal digits in lower case. Behind the limits, the subnetworks and the systems come, for each system, its
/// addresses, its ports and its routes, and then the events.
///
/// # Errors
///
/// `NoMemory`; `out` is then as it was.
pub fn write(alloc: Global, scenario: &Scenario, out: &mut Vec<u8>) -> Result<(), NoMemory>
    ensures written { OnOk result (out.new.items ≡ out.old.items ++ text_of scenario.now) }
    ensures read_back { OnOk result (plan_of (text_of scenario.now) ≡ Ok scenario.now) }
    ensures same { OnErr result (out.new.items ≡ out.old.items) }
{
    // Its clause: what is written of a fit scenario is read as that scenario.
    laws::what_is_written_is_read();
    // Its clause: this scenario is fit.
    scenario.is_fit();
    let mut text = Vec::new(alloc);
    push_scenario(scenario, &mut text)?;
    push(text.as_slice(), out)
}

/// Appends the text of a scenario.
fn push_scenario(scenario: &Scenario, out: &mut Vec<u8>) -> Result<(), NoMemory>
    ensures { OnOk result (out.new.items ≡ out.old.items ++ text_of scenario.now) }
{
    push_header(scenario.version(), out)?;
    push_declarations(scenario, out)?;
    push(b"events\n", out)?;
    push_events(
        scenario.subnets(),
        scenario.systems(),
        scenario.events(),
        out,
    )?;
    push(b"end\n", out)
}

/// Appends the line of the header.
fn push_header(version: u8, out: &mut Vec<u8>) -> Result<(), NoMemory>
    ensures { OnOk result (out.new.items ≡ out.old.items ++ header_text version) }
{
    push_line(
        Word::Text(b"clnp-sim"),
        &[Word::Number(u64::from(version))],
        out,
    )
}

/// Appends what is declared.
fn push_declarations(scenario: &Scenario, out: &mut Vec<u8>) -> Result<(), NoMemory>
    ensures { OnOk result (out.new.items ≡ out.old.items ++ canonical.declarations_text scenario.now) }
{
    push_limits(scenario.version(), scenario.limits(), out)?;
    push_subnets(scenario.subnets(), out)?;
    push_systems(scenario.systems(), out)?;
    push_all_belongings(scenario.subnets(), scenario.systems(), out)
}

/// Appends the line of the limits.
fn push_limits(version: u8, limits: &Limits, out: &mut Vec<u8>) -> Result<(), NoMemory>
    ensures { OnOk result (out.new.items ≡ out.old.items ++ limits_text version limits.now) }
{
    let words = [
        Word::Number(u64::from(limits.age)),
        Word::Number(u64::from(limits.hold)),
        Word::Number(u64::from(limits.reuse)),
    ];
    push(b"limits", out)?;
    push_words(&words, out)?;
    push_skew(version, limits.skew, out)?;
    push(b"\n", out)
}

/// Appends how far apart clocks may stand, where the version says it.
fn push_skew(version: u8, skew: u16, out: &mut Vec<u8>) -> Result<(), NoMemory>
    ensures { OnOk result (out.new.items ≡ out.old.items ++ flat_map behind_space (canonical.skew_words version skew)) }
{
    if version == 1 {
        return Ok(());
    }
    push_words(&[Word::Number(u64::from(skew))], out)
}

fn push_subnets(subnets: &[Subnet], out: &mut Vec<u8>) -> Result<(), NoMemory>
    ensures { OnOk result (out.new.items ≡ out.old.items ++ flat_map subnet_text subnets.now) }
{
    for subnet in subnets {
        let words = [
            Word::Text(subnet.name()),
            Word::Number(u64::from(subnet.mtu)),
        ];
        push_line(Word::Text(b"subnet"), &words, out)?;
    }
    Ok(())
}

fn push_systems(systems: &[SystemConfig], out: &mut Vec<u8>) -> Result<(), NoMemory>
    ensures { OnOk result (out.new.items ≡ out.old.items ++ flat_map system_text systems.now) }
{
    for system in systems {
        push_system(system, out)?;
    }
    Ok(())
}

/// Appends the line of a system, with all its settings.
#[tactic(auto, unfolding(crate::specs::ScenarioWriting::Canonical::system_text))]
fn push_system(system: &SystemConfig, out: &mut Vec<u8>) -> Result<(), NoMemory>
    ensures { OnOk result (out.new.items ≡ out.old.items ++ system_text system.now) }
{
    let settings = system.settings();
    let words = [
        Word::Text(system.name()),
        role_text(system.role()),
        Word::KeyedNumber(b"hello=", u64::from(settings.hello)),
        Word::KeyedNumber(b"suggest=", u64::from(settings.suggest)),
        Word::KeyedNumber(b"rhold=", u64::from(settings.rhold)),
        Word::KeyedNumber(b"slots=", u64::from(settings.slots)),
        Word::KeyedNumber(b"segments=", u64::from(settings.segments)),
        Word::KeyedNumber(b"budget=", u64::from(settings.budget)),
        Word::KeyedNumber(b"neighbours=", u64::from(settings.neighbours)),
        Word::KeyedNumber(b"routers=", u64::from(settings.routers)),
        Word::KeyedNumber(b"redirects=", u64::from(settings.redirects)),
        Word::KeyedNumber(b"life=", u64::from(settings.life)),
        checksum_text(settings.sealed),
    ];
    push_line(Word::Text(b"system"), &words, out)
}

/// Appends what each system has.
fn push_all_belongings(
    subnets: &[Subnet],
    systems: &[SystemConfig],
    out: &mut Vec<u8>,
) -> Result<(), NoMemory>
    ensures { OnOk result (out.new.items ≡ out.old.items ++ flat_map (belongings_text subnets.now) systems.now) }
{
    for system in systems {
        push_belongings(subnets, system, out)?;
    }
    Ok(())
}

/// Appends the addresses, the ports and the routes of a system.
#[tactic(auto, unfolding(crate::specs::ScenarioWriting::Canonical::belongings_text))]
fn push_belongings(
    subnets: &[Subnet],
    system: &SystemConfig,
    out: &mut Vec<u8>,
) -> Result<(), NoMemory>
    ensures { OnOk result (out.new.items ≡ out.old.items ++ belongings_text subnets.now system.now) }
{
    // Its clause: a system has up to eight ports.
    system.is_system();
    push_addresses(system.name(), system.addresses(), out)?;
    push_ports(subnets, system.name(), system.ports(), out)?;
    push_routes(system.name(), system.routes(), out)
}

fn push_addresses(name: &[u8], addresses: &[Address], out: &mut Vec<u8>) -> Result<(), NoMemory>
    ensures { OnOk result (out.new.items ≡ out.old.items ++ flat_map (address_text name.now) addresses.now) }
{
    for address in addresses {
        push_address(name, address, out)?;
    }
    Ok(())
}

fn push_address<'a>(name: &'a [u8], address: &'a Address, out: &mut Vec<u8>) -> Result<(), NoMemory>
    ensures { OnOk result (out.new.items ≡ out.old.items ++ address_text name.now address.now) }
{
    push_line(
        Word::Text(b"address"),
        &[Word::Text(name), Word::Address(address)],
        out,
    )
}

/// Appends ports, by their numbers from 0.
fn push_ports(
    subnets: &[Subnet],
    name: &[u8],
    ports: &[PortConfig],
    out: &mut Vec<u8>,
) -> Result<(), NoMemory>
    requires { length ports.now ≤ 8 }
    ensures { OnOk result (out.new.items ≡ out.old.items ++ port_texts subnets.now name.now 0 ports.now) }
{
    let mut number: u64 = 0;
    let mut left = ports;
    while let [port, others @ ..] = left {
        push_port(subnets, name, number, port, out)?;
        number += 1;
        left = others;
    }
    Ok(())
}

/// Appends the line of a port, with its transit.
fn push_port<'a>(
    subnets: &'a [Subnet],
    name: &'a [u8],
    number: u64,
    port: &'a PortConfig,
    out: &mut Vec<u8>,
) -> Result<(), NoMemory>
    ensures { OnOk result (out.new.items ≡ out.old.items ++ port_text subnets.now name.now number port.now) }
{
    let words = [
        Word::Text(name),
        Word::Number(number),
        subnet_name(subnets, port.subnet),
        Word::Octets(port.snpa.as_bytes()),
        Word::Number(u64::from(port.transit)),
    ];
    push_line(Word::Text(b"port"), &words, out)
}

fn push_routes(name: &[u8], routes: &[Route], out: &mut Vec<u8>) -> Result<(), NoMemory>
    ensures { OnOk result (out.new.items ≡ out.old.items ++ flat_map (route_text name.now) routes.now) }
{
    for route in routes {
        push_route(Word::Text(name), route, out)?;
    }
    Ok(())
}

/// Appends the line of a route, where the system's name is this word.
fn push_route<'a>(name: Word<'a>, route: &'a Route, out: &mut Vec<u8>) -> Result<(), NoMemory>
    ensures { OnOk result (out.new.items ≡ out.old.items ++ route_text (word_text name.entry) route.now) }
{
    let words = [
        name,
        Word::Prefix(&route.prefix),
        Word::Number(u64::from(route.port)),
        Word::Octets(route.snpa.as_bytes()),
        Word::Address(&route.title),
    ];
    push_line(Word::Text(b"route"), &words, out)
}

fn push_events(
    subnets: &[Subnet],
    systems: &[SystemConfig],
    events: &[Event],
    out: &mut Vec<u8>,
) -> Result<(), NoMemory>
    ensures { OnOk result (out.new.items ≡ out.old.items ++ flat_map (event_text subnets.now systems.now) events.now) }
{
    for event in events {
        push_event(subnets, systems, event, out)?;
    }
    Ok(())
}

/// Appends the line of an event.
fn push_event<'a>(
    subnets: &'a [Subnet],
    systems: &'a [SystemConfig],
    event: &'a Event,
    out: &mut Vec<u8>,
) -> Result<(), NoMemory>
    ensures { OnOk result (out.new.items ≡ out.old.items ++ event_text subnets.now systems.now event.now) }
{
    match event {
        Event::Send {
            system,
            from,
            to,
            body,
            ask,
        } => {
            let words = [
                system_name(systems, *system),
                Word::Address(from),
                Word::Address(to),
                body_text(body),
            ];
            push_send(&words, &ask.ask(), out)
        }
        Event::Deliver { copy, system } => {
            let words = [
                Word::Number(u64::from(*copy)),
                system_name(systems, *system),
            ];
            push_line(Word::Text(b"deliver"), &words, out)
        }
        Event::Settle { count } => push_count(b"settle", *count, out),
        Event::Lose { count } => push_count(b"lose", *count, out),
        Event::Tick { count } => push_count(b"tick", *count, out),
        Event::Restart { system } => push_line(
            Word::Text(b"restart"),
            &[system_name(systems, *system)],
            out,
        ),
        Event::Echo {
            system,
            from,
            to,
            body,
        } => {
            let words = [
                system_name(systems, *system),
                Word::Address(from),
                Word::Address(to),
                body_text(body),
            ];
            push_line(Word::Text(b"echo"), &words, out)
        }
        Event::Congest { system, on } => {
            push_line(
                Word::Text(b"congest"),
                &[system_name(systems, *system), on_or_off(*on)],
                out,
            )
        }
        Event::Inject {
            subnet,
            from,
            to,
            octets,
        } => {
            let words = [
                subnet_name(subnets, *subnet),
                Word::Octets(from.as_bytes()),
                target_text(to),
                Word::Octets(octets.as_bytes()),
            ];
            push_line(Word::Text(b"inject"), &words, out)
        }
        Event::Mtu { subnet, mtu } => {
            let words = [subnet_name(subnets, *subnet), Word::Number(u64::from(*mtu))];
            push_line(Word::Text(b"mtu"), &words, out)
        }
        Event::Route { system, route } => { push_route(system_name(systems, *system), route, out) }
        Event::Unroute { system, prefix } => {
            let words = [system_name(systems, *system), Word::Prefix(prefix)];
            push_line(Word::Text(b"unroute"), &words, out)
        }
        Event::TickSystem { system, count } => {
            let words = [
                system_name(systems, *system),
                Word::Number(u64::from(*count)),
            ];
            push_line(Word::Text(b"tick"), &words, out)
        }
        Event::Port {
            system,
            number,
            subnet,
            snpa,
        } => {
            let words = [
                system_name(systems, *system),
                Word::Number(u64::from(*number)),
                subnet_name(subnets, *subnet),
                Word::Octets(snpa.as_bytes()),
            ];
            push_line(Word::Text(b"port"), &words, out)
        }
    }
}

/// Appends the line of a keyword and a count.
fn push_count(keyword: &[u8], count: u32, out: &mut Vec<u8>) -> Result<(), NoMemory>
    ensures { OnOk result (out.new.items ≡ out.old.items ++ line_of keyword.now (decimal count ∷ [])) }
{
    push_line(Word::Text(keyword), &[Word::Number(u64::from(count))], out)
}

/// Appends the line of a `send`, whose words before the lifetime are given.
fn push_send<'a>(words: &[Word<'a>], ask: &Ask, out: &mut Vec<u8>) -> Result<(), NoMemory>
    ensures { OnOk result (out.new.items ≡ out.old.items
        ++ line_of (codes "send") (map word_text words.now ++ ask_words ask.now)) }
{
    push(b"send", out)?;
    push_words(words, out)?;
    push_ask(ask, out)?;
    push(b"\n", out)
}

/// Appends how a unit is to be sent.
fn push_ask(ask: &Ask, out: &mut Vec<u8>) -> Result<(), NoMemory>
    ensures { OnOk result (out.new.items ≡ out.old.items ++ flat_map behind_space (ask_words ask.now)) }
{
    push_words(&[Word::KeyedNumber(b"life=", u64::from(ask.life))], out)?;
    push_word_if(!ask.report, b"noreport", out)?;
    push_word_if(!ask.segment, b"whole", out)?;
    push_options(ask.options.as_bytes(), out)
}

/// Appends a word where it is wanted.
fn push_word_if(wanted: bool, word: &[u8], out: &mut Vec<u8>) -> Result<(), NoMemory>
    ensures { OnOk result (out.new.items ≡ out.old.items ++ flat_map behind_space (canonical.word_if wanted word.now)) }
{
    if wanted {
        return push_words(&[Word::Text(word)], out);
    }
    Ok(())
}

/// Appends the word of options, where there are some.
fn push_options(options: &[u8], out: &mut Vec<u8>) -> Result<(), NoMemory>
    ensures { OnOk result (out.new.items ≡ out.old.items
        ++ flat_map behind_space (canonical.options_words options.now)) }
{
    if options.is_empty() {
        return Ok(());
    }
    push_words(&[Word::KeyedOctets(b"opt=", options)], out)
}

/// The word of the name of the system at a place.
fn system_name(systems: &[SystemConfig], place: u8) -> Word<'_>
    ensures { word_text result ≡ canonical.system_name (slice_get systems.now place) }
{
    match systems.get(usize::from(place)) {
        Some(system) => Word::Text(system.name()),
        None => Word::Text(b""),
    }
}

/// The word of the name of the subnetwork at a place.
fn subnet_name(subnets: &[Subnet], place: u8) -> Word<'_>
    ensures { word_text result ≡ canonical.subnet_name (slice_get subnets.now place) }
{
    match subnets.get(usize::from(place)) {
        Some(subnet) => Word::Text(subnet.name()),
        None => Word::Text(b""),
    }
}

/// The word of data, in the form in which they were read.
fn body_text(body: &Body) -> Word<'_>
    ensures { word_text result ≡ canonical.body_text body.now }
{
    match body {
        Body::Hex(octets) => Word::KeyedOctets(b"hex:", octets.as_bytes()),
        Body::Pattern { len, start } => Word::Pattern(*len, *start),
    }
}

/// The word of whether a system is a host or a router.
fn role_text(role: Role) -> Word<'static>
    ensures { word_text result ≡ canonical.role_text role }
{
    match role {
        Role::Host => Word::Text(b"host"),
        Role::Router => Word::Text(b"router"),
    }
}

/// The word of whether headers get a checksum.
fn checksum_text(sealed: bool) -> Word<'static>
    ensures { word_text result ≡ canonical.checksum_text sealed }
{
    if sealed {
        Word::Text(b"checksum=on")
    } else {
        Word::Text(b"checksum=off")
    }
}
