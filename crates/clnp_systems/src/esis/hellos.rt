//! What a system says of itself (ISO 9542, section 6.2).
ghost use Rattle.std.specs.Prelude.{◌≡◌, ◌≤◌, OnOk, ℕ, length, slice_get, None};
ghost use Rattle.clnp_machine.specs.Esis.{end_system_hello as esh_of, first_of, hearers as hearers_of, hello_everywhere, holding_time as holding_time_of, intermediate_system_hello as ish_of, own_hello, wish as wish_of};
ghost use Rattle.clnp_machine.specs.Given.{Appends};
ghost use Rattle.clnp_machine.specs.System.{SystemState};
ghost use Rattle.clnp_machine.specs.EsisPdus.Grammar.{Spells};
ghost use Rattle.clnp_machine.specs.EsisPdus.Making.{esh_length};
ghost use Rattle.clnp_systems.specs.Does.{StaysInFront};

use super::output::send;
use clnp_machine::base::NoMemory;
use clnp_machine::esis::{HelloRefusal, esh, ish};
use clnp_machine::nsaps::{Address, Target};
use clnp_machine::system_plan::{Output, Role, SystemConfig};
use clnp_machine::views::Head;
use std::alloc::Global;

/// Says hello on each of so many ports, as a system that says it once in `period` seconds.
pub(crate) fn say_everywhere(
    alloc: Global,
    config: &SystemConfig,
    ports: u8,
    period: u16,
    out: &mut Vec<Output>,
) -> Result<(), NoMemory>
    ensures said { OnOk result ((s : SystemState) (moment : ℕ) → s.configuration ≡ config.now → length s.attached.ports ≡ ports
        → s.hello ≡ period → Appends moment None out.old.items out.new.items (hello_everywhere s)) }
    ensures front { StaysInFront out.old.items out.new.items }
{
    let pdu = hello(config, period);
    for port in 0..ports {
        send(alloc, port, hearers(config.role()), &pdu, out)?;
    }
    Ok(())
}

/// The hello of a system that says it once in `period` seconds.
pub(crate) fn hello(config: &SystemConfig, period: u16) -> Head
    ensures { (s : SystemState) → s.configuration ≡ config.now → s.hello ≡ period → Spells (own_hello s) result }
{
    match config.role() {
        Role::Host => end_system_hello(config, period),
        Role::Router => router_hello(config, period),
    }
}

/// An end system tells all its addresses.
fn end_system_hello(config: &SystemConfig, period: u16) -> Head
    ensures { (s : SystemState) → s.configuration ≡ config.now → s.hello ≡ period → Spells (esh_of s) result }
{
    // Its clause: a host has eight addresses at most.
    config.is_system();
    let addresses = config.addresses();
    fits(addresses);
    match esh(holding_time(period), addresses, config.settings().sealed) {
        Ok(pdu) => pdu,
        Err(HelloRefusal::TooLong { .. }) => unreachable!(),
    }
}

/// The hello of at most eight addresses always fits. The function does nothing but ask each address for its octets, since only
/// the clause of that call says how many they are: its own clause tells its caller what follows.
fn fits(addresses: &[Address])
    requires { length addresses.now ≤ 8 }
    ensures { esh_length addresses.now ≤ 254 }
{
    for address in addresses {
        let _octets = address.as_bytes();
    }
}

/// An intermediate system tells its title, and how often it wishes end systems to say hello.
fn router_hello(config: &SystemConfig, period: u16) -> Head
    ensures { (s : SystemState) → s.configuration ≡ config.now → s.hello ≡ period → Spells (ish_of s) result }
{
    let settings = config.settings();
    ish(
        holding_time(period),
        title(config),
        wish(settings.suggest),
        settings.sealed,
    )
}

/// The title of a system is its first address.
fn title(config: &SystemConfig) -> &Address
    ensures { result.now ≡ first_of (slice_get config.now.addresses 0) }
{
    // Its clause: a system has an address.
    config.is_system();
    &config.addresses()[0]
}

/// The holding time of a hello that is said once in `period` seconds: twice as long, so that one may be lost (section
/// 6.1.2).
fn holding_time(period: u16) -> u16
    ensures { result ≡ holding_time_of period }
{
    period.saturating_mul(2)
}

/// How often end systems are asked to say hello, unless there is no wish.
fn wish(seconds: u16) -> Option<u16>
    ensures { result ≡ wish_of seconds }
{
    if seconds == 0 { None } else { Some(seconds) }
}

/// Whom the hello of a system is for.
fn hearers(role: Role) -> Target
    ensures { result ≡ hearers_of role }
{
    match role {
        Role::Host => Target::Routers,
        Role::Router => Target::EndSystems,
    }
}
