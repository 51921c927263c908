//! What is declared of a system.
ghost use Rattle.std.specs.Prelude.{◌≡◌, ◌≤◌, ◌==◌, ◌&&◌, ◌||◌, [], length, map, nat_eq, Some, IfOk, MatchResult};
ghost use Rattle.std.specs.List.{list_any};
ghost use Rattle.std.specs.Cmp.Lexicographic.{pointwise};
ghost use Rattle.clnp_plan.specs.Configuration.{IsSystem};
ghost use Rattle.clnp_plan.specs.Forwarding.Distinct as prefixes;
ghost use Rattle.scenario.specs.Declarations.{role_word, most_addresses, most_ports, is_router, takes_address, takes_port, takes_route, count_below, with_address, with_port, with_route, has_number, have_no_gap, is_complete, configuration_of};
ghost use Rattle.clnp_plan.specs.ScenarioPlan.Standing.{is_among};

use crate::code::Code;
use crate::fault::LineFault;
use clnp_plan::base::same;
use clnp_plan::nsaps::{Address, Prefix, Snpa};
use clnp_plan::routing::Route;
use clnp_plan::{PortConfig, Role, Settings, SystemConfig};
use std::alloc::{AllocError, Global};
use std::marker::Model;

/// A port by its number.
#[derive(Drop)]
pub(crate) struct PortAt {
    pub(crate) number: u8,
    pub(crate) port: PortConfig,
}

impl Model for PortAt {
    ghost use Rattle.scenario.specs.Declarations.{NumberedPort};

    ghost Value = { NumberedPort };

    ghost view = { λ p. record { number = p.number; port = p.port } };
}

impl PortAt {
    /// Whether it has this number or is on this subnetwork.
    fn is_at(&self, number: u8, subnet: u8) -> bool
        ensures { result ≡ (self.now.number == number) || (self.now.port.subnet == subnet) }
    {
        self.number == number || self.port.subnet == subnet
    }

    /// Whether it has this address on this subnetwork.
    fn has_snpa(&self, subnet: u8, snpa: &Snpa) -> bool
        ensures { result ≡ (self.now.port.subnet == subnet) && pointwise nat_eq self.now.port.snpa snpa.now }
    {
        self.port.subnet == subnet && self.port.snpa == *snpa
    }
}

/// `host` or `router`: an end system or an intermediate system.
pub(crate) fn role_word(word: &[u8]) -> Result<Role, Code>
    ensures { result ≡ role_word word.now }
{
    if same(word, b"host") {
        return Ok(Role::Host);
    }
    if same(word, b"router") {
        return Ok(Role::Router);
    }
    Err(Code::Syntax)
}

/// The most addresses that a system of a role has.
fn most_addresses(role: Role) -> usize
    ensures { result ≡ most_addresses role }
{
    match role {
        Role::Host => 8,
        Role::Router => 1,
    }
}

/// The most ports that a system of a role has.
fn most_ports(role: Role) -> usize
    ensures { result ≡ most_ports role }
{
    match role {
        Role::Host => 1,
        Role::Router => 8,
    }
}

pub(crate) fn is_router(role: Role) -> bool
    ensures { result ≡ is_router role }
{
    matches!(role, Role::Router)
}

/// Whether a route has this prefix.
fn has_prefix(route: &Route, prefix: &Prefix) -> bool
    ensures { result ≡ prefixes.has_prefix prefix.now route.now }
{
    route.prefix == *prefix
}

/// How many of some ports have a lower number.
fn count_below(number: u8, ports: &[PortAt]) -> usize
    ensures below { result ≡ count_below number ports.now }
    ensures within { result ≤ length ports.now }
{
    ports.iter().filter(|port| port.number < number).count()
}

/// What is declared of a system, its ports in the order of their numbers, its routes in that of their lines.
#[derive(Drop)]
pub(crate) struct System {
    name: Vec<u8>,
    role: Role,
    settings: Settings,
    addresses: Vec<Address>,
    ports: Vec<PortAt>,
    routes: Vec<Route>,
}

impl Model for System {
    ghost use Rattle.scenario.specs.Declarations.{DeclaredSystem};

    ghost Value = { DeclaredSystem };

    ghost view = { λ s. record {
      name = s.name.items;
      role = s.role;
      settings = s.settings;
      addresses = s.addresses.items;
      ports = s.ports.items;
      routes = s.routes.items;
    } };
}

impl System {
    /// A system with neither an address nor a port nor a route.
    pub(crate) fn new(alloc: Global, name: Vec<u8>, role: Role, settings: Settings) -> System
        ensures { result ≡ record {
          name = name.items;
          role = role;
          settings = settings;
          addresses = [];
          ports = [];
          routes = [];
        } }
    {
        System {
            name,
            role,
            settings,
            addresses: Vec::new(alloc),
            ports: Vec::new(alloc),
            routes: Vec::new(alloc),
        }
    }

    pub(crate) fn name(&self) -> &[u8]
        ensures { result.now ≡ self.now.name }
    {
        self.name.as_slice()
    }

    /// Whether its role lets it have an address more.
    pub(crate) fn takes_address(&self) -> bool
        ensures { result ≡ takes_address (Some self.now) }
    {
        self.addresses.len() < most_addresses(self.role)
    }

    /// Whether its role lets it have a port more.
    pub(crate) fn takes_port(&self) -> bool
        ensures { result ≡ takes_port (Some self.now) }
    {
        self.ports.len() < most_ports(self.role)
    }

    /// Whether it is a router.
    pub(crate) fn is_router(&self) -> bool
        ensures { result ≡ is_router self.now.role }
    {
        is_router(self.role)
    }

    /// Whether it may have a route more.
    pub(crate) fn takes_route(&self) -> bool
        ensures { result ≡ takes_route (Some self.now) }
    {
        self.routes.len() < 256
    }

    /// Whether it has a route of this prefix.
    pub(crate) fn has_route(&self, prefix: &Prefix) -> bool
        ensures { result ≡ list_any (prefixes.has_prefix prefix.now) self.now.routes }
    {
        self.routes.iter().any(|route| has_prefix(route, prefix))
    }

    /// Whether it has a port with this number.
    pub(crate) fn has_number(&self, number: u8) -> bool
        ensures { result ≡ has_number self.now.ports number }
    {
        has_number(&self.ports, usize::from(number))
    }

    /// Whether it has this address.
    pub(crate) fn has_address(&self, address: &Address) -> bool
        ensures { result ≡ is_among address.now self.now.addresses }
    {
        self.addresses.contains(address)
    }

    /// Whether it has a port with this number or one on this subnetwork.
    pub(crate) fn has_port(&self, number: u8, subnet: u8) -> bool
        ensures { result ≡ list_any (λ numbered. (numbered.number == number)
            || (numbered.port.subnet == subnet)) self.now.ports }
    {
        self.ports.iter().any(|port| port.is_at(number, subnet))
    }

    /// Whether it has this address on this subnetwork.
    pub(crate) fn has_snpa(&self, subnet: u8, snpa: &Snpa) -> bool
        ensures { result ≡ list_any (λ numbered. (numbered.port.subnet == subnet)
            && pointwise nat_eq numbered.port.snpa snpa.now) self.now.ports }
    {
        self.ports.iter().any(|port| port.has_snpa(subnet, snpa))
    }

    pub(crate) fn add_address(&mut self, address: Address) -> Result<(), LineFault>
        ensures { MatchResult result (λ _. self.new ≡ with_address address self.old)
            (λ fault. fault ≡ LineFault.NoMemory) }
    {
        self.addresses.push(address)?;
        Ok(())
    }

    pub(crate) fn add_port(&mut self, port: PortAt) -> Result<(), LineFault>
        ensures { MatchResult result (λ _. self.new ≡ with_port port self.old) (λ fault. fault ≡ LineFault.NoMemory) }
    {
        let place = count_below(port.number, &self.ports);
        self.ports.insert(place, port)?;
        Ok(())
    }

    pub(crate) fn add_route(&mut self, route: Route) -> Result<(), LineFault>
        ensures { MatchResult result (λ _. self.new ≡ with_route route self.old) (λ fault. fault ≡ LineFault.NoMemory) }
    {
        self.routes.push(route)?;
        Ok(())
    }

    /// Whether it has all that it must: an address and a port at least, and its ports numbered from 0
    /// without a gap.
    pub(crate) fn is_complete(&self) -> bool
        ensures { result ≡ is_complete self.now }
    {
        !self.addresses.is_empty() && !self.ports.is_empty() && have_no_gap(&self.ports)
    }

    /// Whether it has so many ports.
    pub(crate) fn has_ports(&self, count: usize) -> bool
        ensures { result ≡ (length self.now.ports == count) }
    {
        self.ports.len() == count
    }

    /// The system as it is declared.
    pub(crate) fn into_config(self, alloc: Global) -> Result<SystemConfig, AllocError>
        requires { IsSystem (configuration_of self) }
        ensures { IfOk result (λ config. config ≡ configuration_of self) }
    {
        let ports = ports_of(alloc, &self.ports)?;
        let System {
            name,
            role,
            settings,
            addresses,
            ports: _,
            routes,
        } = self;
        Ok(SystemConfig::new(name, role, addresses, ports, routes, settings))
    }
}

/// Whether one of some ports has this number.
fn has_number(ports: &[PortAt], number: usize) -> bool
    ensures { result ≡ has_number ports.now number }
{
    ports.iter().any(|port| usize::from(port.number) == number)
}

/// Whether ports are numbered from 0 without a gap.
fn have_no_gap(ports: &[PortAt]) -> bool
    ensures { result ≡ have_no_gap ports.now }
{
    (0..ports.len()).all(|number| has_number(ports, number))
}

/// The ports without their numbers.
fn ports_of(alloc: Global, ports: &[PortAt]) -> Result<Vec<PortConfig>, AllocError>
    ensures { IfOk result (λ plain. plain.items ≡ map (λ numbered. numbered.port) ports.now) }
{
    ports.iter().map(|port| port.port).collect(alloc)
}
