//! What the lines of a text declare.
ghost use Rattle.std.specs.Prelude.{◌≡◌, ◌<◌, ◌≤◌, ◌==◌, ◌&&◌, ◌++◌, ◌∷◌, [], length, slice_get, nat_eq, None, Some, IfSome, IfOk, Ok, Err, MatchOption, MatchResult};
ghost use Rattle.std.specs.Cmp.Lexicographic.{pointwise};
ghost use Rattle.std.specs.List.{position, list_any, list_all, flat_map};
ghost use Rattle.std.specs.Str.{bytes_eq};
ghost use Rattle.clnp_plan.specs.ClnpBase.Text.{words_of};
ghost use Rattle.scenario.specs.Declarations.{nothing_declared, subnet_names, system_names, has_port, snpas_on, takes_address, takes_port, mtu_at, with_address, with_port, is_router_at, router_word, has_numbered, port_word, has_route, takes_route, with_route, settings_of, limits_words, limits_line, limits_of, subnet_line, system_line, address_line, transit_word, port_line, route_line, declaration_line, has_limits, is_complete, fits_board};
ghost use Rattle.clnp_plan.specs.ScenarioPlan.Standing.{changed_at, is_among};
ghost use Rattle.scenario.specs.Words.{declared_word};
ghost use Rattle.scenario.specs.Refusal.{Faults};

use crate::code::Code;
use crate::fault::LineFault;
use crate::setting::{each_once, setting_words, settings_of};
use crate::system::{PortAt, System, role_word};
use crate::word::{
    address_word, declared, first_four, first_two, five_words, four_words, is_digits, is_name,
    is_one_at_most, mtu_word, name_word, number_word, prefix_word, snpa_word, three_words,
    two_words, wanted,
};
use clnp_plan::base::{next_word, same};
use clnp_plan::nsaps::{Address, Prefix, Snpa};
use clnp_plan::routing::Route;
use clnp_plan::scenario_plan::Subnet;
use clnp_plan::{Limits, PortConfig, Role, Settings};
use std::alloc::Global;
use std::marker::Model;

/// The limits, the subnetworks and the systems that are declared so far, in a text of a version.
#[derive(Drop)]
pub(crate) struct Declared {
    version: u8,
    limits: Option<Limits>,
    subnets: Vec<Subnet>,
    systems: Vec<System>,
}

impl Model for Declared {
    ghost use Rattle.std.specs.Prelude.{◌≤◌, length};
    ghost use Rattle.scenario.specs.Declarations.{Declarations};

    ghost Value = { Declarations };

    ghost view = { λ d. record {
      version = d.version;
      limits = d.limits;
      subnets = d.subnets.items;
      systems = d.systems.items;
    } };

    ghost invariant = { λ d. (length d.subnets.items ≤ 64) × (length d.systems.items ≤ 64) };
}

/// Gives the system at a place an address.
fn add_address(systems: &mut [System], place: usize, address: Address) -> Result<(), LineFault>
    requires { place < length systems.old }
    ensures { MatchResult result (λ _. systems.new ≡ changed_at (with_address address) place systems.old)
        (λ fault. fault ≡ LineFault.NoMemory) }
{
    let system = &mut systems[place];
    system.add_address(address)
}

/// Gives the system at a place a port.
fn add_port(systems: &mut [System], place: usize, port: PortAt) -> Result<(), LineFault>
    requires { place < length systems.old }
    ensures { MatchResult result (λ _. systems.new ≡ changed_at (with_port port) place systems.old)
        (λ fault. fault ≡ LineFault.NoMemory) }
{
    let system = &mut systems[place];
    system.add_port(port)
}

/// Gives the system at a place a route.
fn add_route(systems: &mut [System], place: usize, route: Route) -> Result<(), LineFault>
    requires { place < length systems.old }
    ensures { MatchResult result (λ _. systems.new ≡ changed_at (with_route route) place systems.old)
        (λ fault. fault ≡ LineFault.NoMemory) }
{
    let system = &mut systems[place];
    system.add_route(route)
}

/// Whether one of the systems has this address.
fn has_address(systems: &[System], address: &Address) -> bool
    ensures { result ≡ list_any (λ system. is_among address.now system.addresses) systems.now }
{
    systems.iter().any(|system| system.has_address(address))
}

/// Whether one of the systems has this address on this subnetwork.
fn has_snpa(systems: &[System], subnet: u8, snpa: &Snpa) -> bool
    ensures { result ≡ list_any (λ system. list_any (λ numbered. (numbered.port.subnet == subnet)
        && pointwise nat_eq numbered.port.snpa snpa.now) system.ports) systems.now }
{
    systems.iter().any(|system| system.has_snpa(subnet, snpa))
}

/// How much a port takes of a lifetime, where a word says it.
fn transit_word(line: &[u8]) -> Result<u8, Code>
    ensures { result ≡ transit_word (words_of line.now) }
{
    let Some((word, _)) = next_word(line) else {
        return Ok(1);
    };
    let transit = number_word(1, 255, word)?;
    Ok(transit as u8)
}

/// The words of a line of limits. In version 1 none says how far apart clocks may stand, and they tick together.
fn limits_words(version: u8, line: &[u8]) -> Option<(&[u8], &[u8], &[u8], &[u8])>
    ensures { MatchOption result (limits_words version (words_of line.now) ≡ None)
        (λ words. limits_words version (words_of line.now)
        ≡ Some (words.0.now, words.1.now, words.2.now, words.3.now)) }
{
    if version == 1 {
        let (age, hold, reuse) = three_words(line)?;
        let skew: &[u8] = b"0";
        return Some((age, hold, reuse, skew));
    }
    four_words(line)
}

impl Declared {
    /// Nothing is declared.
    pub(crate) fn new(alloc: Global, version: u8) -> Declared
        ensures { result ≡ nothing_declared version }
    {
        Declared {
            version,
            limits: None,
            subnets: Vec::new(alloc),
            systems: Vec::new(alloc),
        }
    }

    /// The place of the first subnetwork of this name.
    fn first_subnet(&self, name: &[u8]) -> Option<usize>
        ensures place { result ≡ position (λ subnet. bytes_eq subnet.name name.now) self.now.subnets }
        ensures within { IfSome result (λ place. place < 64) }
    {
        self.subnets
            .iter()
            .position(|subnet| same(subnet.name(), name))
    }

    /// The place of the first system of this name.
    fn first_system(&self, name: &[u8]) -> Option<usize>
        ensures place { result ≡ position (λ system. bytes_eq system.name name.now) self.now.systems }
        ensures within { IfSome result (λ place. place < length self.now.systems) }
    {
        self.systems
            .iter()
            .position(|system| same(system.name(), name))
    }

    /// The place of a name among the subnetworks'.
    fn subnet_place(&self, name: &[u8]) -> Option<usize>
        ensures place { result ≡ position (λ other. bytes_eq other name.now) (subnet_names self.now) }
        ensures within { IfSome result (λ place. place < 64) }
    {
        self.first_subnet(name)
    }

    /// The place of a name among the systems'.
    fn system_place(&self, name: &[u8]) -> Option<usize>
        ensures place { result ≡ position (λ other. bytes_eq other name.now) (system_names self.now) }
        ensures within { IfSome result (λ place. place < length self.now.systems) }
    {
        self.first_system(name)
    }

    /// The place of the subnetwork that a word names.
    fn subnet_word(&self, word: &[u8]) -> Result<usize, Code>
        ensures place { result ≡ declared_word (subnet_names self.now) word.now }
        ensures within { IfOk result (λ place. place < 64) }
    {
        if !is_name(word) {
            return Err(Code::Syntax);
        }
        declared(self.subnet_place(word))
    }

    /// The place of the system that a word names.
    fn system_word(&self, word: &[u8]) -> Result<usize, Code>
        ensures place { result ≡ declared_word (system_names self.now) word.now }
        ensures within { IfOk result (λ place. place < length self.now.systems) }
    {
        if !is_name(word) {
            return Err(Code::Syntax);
        }
        declared(self.system_place(word))
    }

    /// The limits that `L R Q S` declares, or `L R Q` in version 1.
    #[tactic(auto, unfolding(crate::specs::Declarations::limits_line))]
    fn limits_of(&self, line: &[u8]) -> Result<Limits, Code>
        ensures { MatchResult result
            (λ limits. limits_line self.now (words_of line.now) ≡ Ok (record self.now { limits = Some limits }))
            (λ code. limits_line self.now (words_of line.now) ≡ Err code) }
    {
        let Some((age, hold, reuse, skew)) = limits_words(self.version, line) else {
            return Err(Code::Syntax);
        };
        let age = number_word(1, 4096, age)?;
        let hold = number_word(1, 255, hold)?;
        let reuse = number_word(1, 16_384, reuse)?;
        let skew = number_word(0, 4096, skew)?;
        wanted(self.limits.is_none(), Code::DupName)?;
        wanted(age + hold + 2 * skew <= reuse, Code::Limits)?;
        Ok(Limits {
            age: age as u16,
            hold: hold as u8,
            reuse: reuse as u16,
            skew: skew as u16,
        })
    }

    /// How long things last, behind `limits`.
    pub(crate) fn limits_line(&mut self, line: &[u8]) -> Result<(), LineFault>
        ensures { let reading = limits_line self.old (words_of line.now) in
            MatchResult result (λ _. reading ≡ Ok self.new) (λ fault. Faults fault reading) }
    {
        let limits = self.limits_of(line)?;
        self.limits = Some(limits);
        Ok(())
    }

    /// The name and the MTU of the subnetwork that `NAME MTU` declares.
    #[tactic(auto, unfolding(crate::specs::Declarations::subnet_line))]
    fn subnet_of<'a>(&self, line: &'a [u8]) -> Result<(&'a [u8], u16), Code>
        ensures reading { MatchResult result
            (λ r. subnet_line self.now (words_of line.now)
            ≡ Ok (record self.now { subnets = self.now.subnets ++ record { name = r.0.now; mtu = r.1 } ∷ [] }))
            (λ code. subnet_line self.now (words_of line.now) ≡ Err code) }
        ensures room { IfOk result (λ _. length self.now.subnets < 64) }
    {
        let Some((name, mtu)) = two_words(line) else {
            return Err(Code::Syntax);
        };
        let name = name_word(name)?;
        wanted(is_digits(mtu), Code::Number)?;
        wanted(self.subnet_place(name).is_none(), Code::DupName)?;
        let mtu = mtu_word(mtu)?;
        wanted(self.subnets.len() < 64, Code::Count)?;
        Ok((name, mtu))
    }

    /// `NAME MTU`, behind `subnet`.
    pub(crate) fn subnet_line(&mut self, alloc: Global, line: &[u8]) -> Result<(), LineFault>
        ensures { let reading = subnet_line self.old (words_of line.now) in
            MatchResult result (λ _. reading ≡ Ok self.new) (λ fault. Faults fault reading) }
    {
        let (name, mtu) = self.subnet_of(line)?;
        let name = Vec::from_slice(alloc, name)?;
        self.subnets.push(Subnet::new(name, mtu))?;
        Ok(())
    }

    /// The name, the role and the settings of the system that `NAME`, `host` or `router`, and settings
    /// declare.
    #[tactic(auto, unfolding(crate::specs::Declarations::system_line))]
    fn system_of<'a>(
        &self,
        alloc: Global,
        line: &'a [u8],
    ) -> Result<(&'a [u8], Role, Settings), LineFault>
        ensures reading { MatchResult result
            (λ r. system_line self.now (words_of line.now)
            ≡ Ok (record self.now {
              systems = self.now.systems ++ record {
                name = r.0.now;
                role = r.1;
                settings = r.2;
                addresses = [];
                ports = [];
                routes = [];
              } ∷ [];
            }))
            (λ fault. Faults fault (system_line self.now (words_of line.now))) }
        ensures room { IfOk result (λ _. length self.now.systems < 64) }
    {
        let Some((name, role, words)) = first_two(line) else {
            return Err(LineFault::Broken(Code::Syntax));
        };
        let name = name_word(name)?;
        let role = role_word(role)?;
        let settings = setting_words(alloc, words)?;
        let is_new = self.system_place(name).is_none();
        wanted(is_new && each_once(&settings), Code::DupName)?;
        wanted(self.systems.len() < 64, Code::Count)?;
        Ok((name, role, settings_of(&settings)))
    }

    /// `NAME`, `host` or `router`, and settings, behind `system`.
    pub(crate) fn system_line(&mut self, alloc: Global, line: &[u8]) -> Result<(), LineFault>
        ensures { let reading = system_line self.old (words_of line.now) in
            MatchResult result (λ _. reading ≡ Ok self.new) (λ fault. Faults fault reading) }
    {
        let (name, role, settings) = self.system_of(alloc, line)?;
        let name = Vec::from_slice(alloc, name)?;
        self.systems.push(System::new(alloc, name, role, settings))?;
        Ok(())
    }

    /// Whether a system has this address.
    fn has_address(&self, address: &Address) -> bool
        ensures { result ≡ is_among address.now (flat_map (λ system. system.addresses) self.now.systems) }
    {
        has_address(&self.systems, address)
    }

    /// Whether a system has this address on this subnetwork.
    fn has_snpa(&self, subnet: u8, snpa: &Snpa) -> bool
        ensures { result ≡ is_among snpa.now (flat_map (snpas_on subnet) self.now.systems) }
    {
        has_snpa(&self.systems, subnet, snpa)
    }

    /// Whether its role lets the system at a place have an address more.
    fn takes_address(&self, place: usize) -> bool
        ensures { result ≡ takes_address (slice_get self.now.systems place) }
    {
        match self.systems.get(place) {
            Some(system) => system.takes_address(),
            None => false,
        }
    }

    /// Whether its role lets the system at a place have a port more.
    fn takes_port(&self, place: usize) -> bool
        ensures { result ≡ takes_port (slice_get self.now.systems place) }
    {
        match self.systems.get(place) {
            Some(system) => system.takes_port(),
            None => false,
        }
    }

    /// Whether the system at a place has a port with this number or one on this subnetwork.
    fn has_port(&self, place: usize, number: u8, subnet: u8) -> bool
        ensures { result ≡ has_port number subnet (slice_get self.now.systems place) }
    {
        match self.systems.get(place) {
            Some(system) => system.has_port(number, subnet),
            None => false,
        }
    }

    /// The MTU of the subnetwork at a place.
    fn mtu_at(&self, place: usize) -> u16
        ensures { result ≡ mtu_at (slice_get self.now.subnets place) }
    {
        match self.subnets.get(place) {
            Some(subnet) => subnet.mtu,
            None => 0,
        }
    }

    /// The place of the system and the address that `NAME ADDRESS` gives it.
    #[tactic(auto, unfolding(crate::specs::Declarations::address_line))]
    fn address_of(&self, line: &[u8]) -> Result<(usize, Address), Code>
        ensures reading { MatchResult result
            (λ r. address_line self.now (words_of line.now)
            ≡ Ok (record self.now { systems = changed_at (with_address r.1) r.0 self.now.systems }))
            (λ code. address_line self.now (words_of line.now) ≡ Err code) }
        ensures within { IfOk result (λ r. r.0 < length self.now.systems) }
    {
        let Some((name, address)) = two_words(line) else {
            return Err(Code::Syntax);
        };
        let place = self.system_word(name)?;
        let address = address_word(address)?;
        wanted(!self.has_address(&address), Code::DupAddress)?;
        wanted(self.takes_address(place), Code::Count)?;
        Ok((place, address))
    }

    /// `NAME ADDRESS`, behind `address`.
    pub(crate) fn address_line(&mut self, line: &[u8]) -> Result<(), LineFault>
        ensures { let reading = address_line self.old (words_of line.now) in
            MatchResult result (λ _. reading ≡ Ok self.new) (λ fault. Faults fault reading) }
    {
        let (place, address) = match self.address_of(line) {
            Ok((place, address)) => (place, address),
            Err(code) => return Err(LineFault::Broken(code)),
        };
        add_address(&mut self.systems, place, address)
    }

    /// The port that words declare, of the system at a place.
    fn port_at(&self, number: u8, subnet: usize, snpa: Snpa, transit: u8) -> PortAt
        requires { subnet < 64 }
        ensures { result ≡ record {
          number = number;
          port = record {
            subnet = subnet;
            snpa = snpa;
            transit = transit;
            mtu = mtu_at (slice_get self.now.subnets subnet);
          };
        } }
    {
        let mtu = self.mtu_at(subnet);
        PortAt {
            number,
            port: PortConfig {
                subnet: subnet as u8,
                snpa,
                transit,
                mtu,
            },
        }
    }

    /// The place of the system and the port that `NAME NUMBER SUBNET SNPA` and perhaps TRANSIT give
    /// it.
    #[tactic(auto, unfolding(crate::specs::Declarations::port_line))]
    fn port_of(&self, line: &[u8]) -> Result<(usize, PortAt), Code>
        ensures reading { MatchResult result
            (λ r. port_line self.now (words_of line.now)
            ≡ Ok (record self.now { systems = changed_at (with_port r.1) r.0 self.now.systems }))
            (λ code. port_line self.now (words_of line.now) ≡ Err code) }
        ensures within { IfOk result (λ r. r.0 < length self.now.systems) }
    {
        let Some((name, number, on, snpa, transit)) = first_four(line) else {
            return Err(Code::Syntax);
        };
        wanted(is_one_at_most(transit), Code::Syntax)?;
        let place = self.system_word(name)?;
        let number = number_word(0, 7, number)? as u8;
        let subnet = self.subnet_word(on)?;
        let snpa = snpa_word(snpa)?;
        let transit = transit_word(transit)?;
        let port = self.port_at(number, subnet, snpa, transit);
        wanted(
            !self.has_port(place, number, port.port.subnet),
            Code::DupName,
        )?;
        wanted(!self.has_snpa(port.port.subnet, &snpa), Code::DupAddress)?;
        wanted(self.takes_port(place), Code::Count)?;
        Ok((place, port))
    }

    /// `NAME NUMBER SUBNET SNPA` and perhaps TRANSIT, behind `port`.
    pub(crate) fn port_line(&mut self, line: &[u8]) -> Result<(), LineFault>
        ensures { let reading = port_line self.old (words_of line.now) in
            MatchResult result (λ _. reading ≡ Ok self.new) (λ fault. Faults fault reading) }
    {
        let (place, port) = match self.port_of(line) {
            Ok((place, port)) => (place, port),
            Err(code) => return Err(LineFault::Broken(code)),
        };
        add_port(&mut self.systems, place, port)
    }

    /// Whether the system at a place is a router.
    fn is_router_at(&self, place: usize) -> bool
        ensures { result ≡ is_router_at (slice_get self.now.systems place) }
    {
        match self.systems.get(place) {
            Some(system) => system.is_router(),
            None => false,
        }
    }

    /// The place of the router that a word names.
    fn router_word(&self, word: &[u8]) -> Result<usize, Code>
        ensures place { result ≡ router_word self.now word.now }
        ensures within { IfOk result (λ place. place < length self.now.systems) }
    {
        let place = self.system_word(word)?;
        wanted(self.is_router_at(place), Code::UnknownName)?;
        Ok(place)
    }

    /// Whether the system at a place has a port with this number.
    fn has_numbered(&self, place: usize, number: u8) -> bool
        ensures { result ≡ has_numbered number (slice_get self.now.systems place) }
    {
        match self.systems.get(place) {
            Some(system) => system.has_number(number),
            None => false,
        }
    }

    /// The number of a port that the system at a place has so far.
    fn port_word(&self, place: usize, word: &[u8]) -> Result<u8, Code>
        ensures { result ≡ port_word (slice_get self.now.systems place) word.now }
    {
        let number = number_word(0, 7, word)? as u8;
        wanted(self.has_numbered(place, number), Code::UnknownName)?;
        Ok(number)
    }

    /// Whether the system at a place has a route of this prefix.
    fn has_route(&self, place: usize, prefix: &Prefix) -> bool
        ensures { result ≡ has_route prefix.now (slice_get self.now.systems place) }
    {
        match self.systems.get(place) {
            Some(system) => system.has_route(prefix),
            None => false,
        }
    }

    /// Whether the system at a place may have a route more.
    fn takes_route(&self, place: usize) -> bool
        ensures { result ≡ takes_route (slice_get self.now.systems place) }
    {
        match self.systems.get(place) {
            Some(system) => system.takes_route(),
            None => false,
        }
    }

    /// The place of the router and the route that `NAME PREFIX PORT SNPA TITLE` gives it (ISO/IEC 8473,
    /// section 6.5).
    #[tactic(auto, unfolding(crate::specs::Declarations::route_line))]
    fn route_of(&self, line: &[u8]) -> Result<(usize, Route), Code>
        ensures reading { MatchResult result
            (λ r. route_line self.now (words_of line.now)
            ≡ Ok (record self.now { systems = changed_at (with_route r.1) r.0 self.now.systems }))
            (λ code. route_line self.now (words_of line.now) ≡ Err code) }
        ensures within { IfOk result (λ r. r.0 < length self.now.systems) }
    {
        let Some((name, prefix, port, snpa, title)) = five_words(line) else {
            return Err(Code::Syntax);
        };
        let place = self.router_word(name)?;
        let prefix = prefix_word(prefix)?;
        let port = self.port_word(place, port)?;
        let snpa = snpa_word(snpa)?;
        let title = address_word(title)?;
        wanted(!self.has_route(place, &prefix), Code::DupAddress)?;
        wanted(self.takes_route(place), Code::Count)?;
        let route = Route {
            prefix,
            port,
            snpa,
            title,
        };
        Ok((place, route))
    }

    /// `NAME PREFIX PORT SNPA TITLE`, behind `route`.
    pub(crate) fn route_line(&mut self, line: &[u8]) -> Result<(), LineFault>
        ensures { let reading = route_line self.old (words_of line.now) in
            MatchResult result (λ _. reading ≡ Ok self.new) (λ fault. Faults fault reading) }
    {
        let (place, route) = match self.route_of(line) {
            Ok((place, route)) => (place, route),
            Err(code) => return Err(LineFault::Broken(code)),
        };
        add_route(&mut self.systems, place, route)
    }

    /// A line that declares something.
    #[tactic(auto, unfolding(crate::specs::Declarations::declaration_line))]
    pub(crate) fn declare(&mut self, alloc: Global, line: &[u8]) -> Result<(), LineFault>
        ensures { let reading = declaration_line self.old (words_of line.now) in
            MatchResult result (λ _. reading ≡ Ok self.new) (λ fault. Faults fault reading) }
    {
        let Some((keyword, words)) = next_word(line) else {
            return Err(LineFault::Broken(Code::Syntax));
        };
        if same(keyword, b"limits") {
            return self.limits_line(words);
        }
        if same(keyword, b"subnet") {
            return self.subnet_line(alloc, words);
        }
        if same(keyword, b"system") {
            return self.system_line(alloc, words);
        }
        if same(keyword, b"address") {
            return self.address_line(words);
        }
        if same(keyword, b"port") {
            return self.port_line(words);
        }
        if same(keyword, b"route") {
            return self.route_line(words);
        }
        Err(LineFault::Broken(Code::Syntax))
    }

    /// Whether the limits are there where they must be: in version 2.
    pub(crate) fn has_limits(&self) -> bool
        ensures { result ≡ has_limits self.now }
    {
        self.limits.is_some() || self.version == 1
    }

    /// Whether each system has all that it must.
    pub(crate) fn is_complete(&self) -> bool
        ensures { result ≡ list_all is_complete self.now.systems }
    {
        self.systems.iter().all(|system| system.is_complete())
    }

    /// Whether each system has so many ports.
    fn each_has_ports(&self, count: usize) -> bool
        ensures { result ≡ list_all (λ system. length system.ports == count) self.now.systems }
    {
        self.systems.iter().all(|system| system.has_ports(count))
    }

    /// Whether one system alone is declared, with a port for each of so many links.
    pub(crate) fn fits_board(&self, links: usize) -> bool
        ensures { result ≡ fits_board links self.now.systems }
    {
        self.systems.len() == 1 && self.each_has_ports(links)
    }

    /// The limits that are declared, or else the usual ones.
    pub(crate) fn limits(&self) -> Limits
        ensures { result ≡ limits_of self.now.limits }
    {
        match self.limits {
            Some(limits) => limits,
            None => Limits {
                age: 256,
                hold: 60,
                reuse: 320,
                skew: 0,
            },
        }
    }

    /// The subnetworks and the systems.
    pub(crate) fn into_parts(self) -> (Vec<Subnet>, Vec<System>)
        ensures subnets { result.0.items ≡ self.subnets }
        ensures systems { result.1.items ≡ self.systems }
        ensures few { length self.systems ≤ 64 }
    {
        let Declared {
            version: _,
            limits: _,
            subnets,
            systems,
        } = self;
        (subnets, systems)
    }
}
