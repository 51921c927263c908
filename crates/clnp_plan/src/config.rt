//! What a scenario says of one system.
ghost use Rattle.std.specs.Prelude.{◌≡◌, IfOk};
ghost use Rattle.clnp_plan.specs.Configuration.{HasItsPorts, IsSystem};

use pdus::pdu_header::base::NoMemory;
use pdus::pdu_header::nsaps::{Address, Snpa};
use std::alloc::Global;
use std::marker::Model;
use system_tables::forwarding::Route;

/// What a system is.
#[derive(Clone, Copy, PartialEq, Eq)]
pub enum Role {
    /// An end system.
    Host,
    /// An intermediate system.
    Router,
}

/// How long things last in a network, in ticks of 500 ms.
#[derive(Clone, Copy, PartialEq, Eq)]
pub struct Limits {
    /// How long after the making of its unit a copy of a frame may still be given: 1 to 4,096.
    pub age: u16,
    /// The longest time that a reassembly buffer is kept: 1 to 255.
    pub hold: u8,
    /// How long a data unit identifier isn't used again: up to 16,384, and at least `age`, `hold` and twice `skew` together.
    pub reuse: u16,
    /// How far apart the clocks of two systems may stand: 0 to 4,096. All clocks tick together where it is 0.
    pub skew: u16,
}

/// A system's port: the subnetwork's place among the declarations, from 0, the system's address
/// there, how much of its lifetime a PDU loses that a router sends there (at least 1 tick), and the most octets that a
/// frame on it may have (at least 512).
#[derive(Clone, Copy, PartialEq, Eq)]
pub struct PortConfig {
    pub subnet: u8,
    pub snpa: Snpa,
    pub transit: u8,
    pub mtu: u16,
}

/// The settings of a system.
#[derive(Clone, Copy, PartialEq, Eq)]
pub struct Settings {
    /// How often it says hello, in seconds, 0 to 600; 0 is never (ISO 9542, section 6.2).
    pub hello: u16,
    /// How often a router asks end systems to say hello, in seconds, 0 to 32,767; 0 is no wish.
    pub suggest: u16,
    /// The holding time of a router's redirects, in seconds; 0 is none (ISO 9542, section 6.4).
    pub rhold: u16,
    /// The most reassembly buffers at a time: 1 to 1,024.
    pub slots: u16,
    /// The most segments that are kept, in all buffers together: 1 to 16,384.
    pub segments: u16,
    /// The most octets that are held for reassembly, of whole frames: 512 to 4,194,304.
    pub budget: u32,
    /// The most neighbours that it keeps in mind: 1 to 1,024.
    pub neighbours: u16,
    /// The most routers that it keeps in mind: 1 to 64.
    pub routers: u16,
    /// The most redirects that it keeps in mind: 1 to 1,024.
    pub redirects: u16,
    /// The lifetime of its units, in ticks of 500 ms, where none is wished for: 1 to 255.
    pub life: u8,
    /// Whether the headers of its units get a checksum.
    pub sealed: bool,
}

/// What a scenario says of one system: its name, whether it is a host or a router, its addresses,
/// of which the first is its title, its ports, its routes and its settings.
#[derive(Drop)]
pub struct SystemConfig {
    name: Vec<u8>,
    role: Role,
    addresses: Vec<Address>,
    ports: Vec<PortConfig>,
    routes: Vec<Route>,
    settings: Settings,
}

impl Model for SystemConfig {
    ghost use Rattle.clnp_plan.specs.Configuration.{IsSystem, SystemConfiguration};

    ghost Value = { SystemConfiguration };

    ghost view = { λ c. record {
      name = c.name.items;
      role = c.role;
      addresses = c.addresses.items;
      ports = c.ports.items;
      routes = c.routes.items;
      settings = c.settings;
    } };

    ghost invariant = { λ c. IsSystem (record {
      name = c.name.items;
      role = c.role;
      addresses = c.addresses.items;
      ports = c.ports.items;
      routes = c.routes.items;
      settings = c.settings;
    }) };
}

impl SystemConfig {
    /// A system of this name and role, with these addresses, ports, routes and settings.
    pub fn new(
        name: Vec<u8>,
        role: Role,
        addresses: Vec<Address>,
        ports: Vec<PortConfig>,
        routes: Vec<Route>,
        settings: Settings,
    ) -> SystemConfig
        requires { IsSystem (record {
          name = name.items;
          role = role;
          addresses = addresses.items;
          ports = ports.items;
          routes = routes.items;
          settings = settings;
        }) }
        ensures { result ≡ record {
          name = name.items;
          role = role;
          addresses = addresses.items;
          ports = ports.items;
          routes = routes.items;
          settings = settings;
        } }
    {
        SystemConfig {
            name,
            role,
            addresses,
            ports,
            routes,
            settings,
        }
    }

    /// The name, in the octets of its text.
    pub fn name(&self) -> &[u8]
        ensures { result.now ≡ self.now.name }
    {
        self.name.as_slice()
    }

    /// Whether it is an end system or an intermediate system.
    pub fn role(&self) -> Role
        ensures { result ≡ self.now.role }
    {
        self.role
    }

    /// The addresses, of which the first is the system's title.
    pub fn addresses(&self) -> &[Address]
        ensures { result.now ≡ self.now.addresses }
    {
        self.addresses.as_slice()
    }

    /// The ports, by their numbers from 0.
    pub fn ports(&self) -> &[PortConfig]
        ensures { result.now ≡ self.now.ports }
    {
        self.ports.as_slice()
    }

    /// The routes, no two of one prefix; a host has none.
    pub fn routes(&self) -> &[Route]
        ensures { result.now ≡ self.now.routes }
    {
        self.routes.as_slice()
    }

    /// The settings.
    pub fn settings(&self) -> &Settings
        ensures { result.now ≡ self.now.settings }
    {
        &self.settings
    }

    /// A system has what its role calls for, and each number of it is within its range. The function does nothing: its
    /// clause tells this to callers.
    pub fn is_system(&self)
        ensures { IsSystem self.now }
    {
        // The look at a field brings the invariant.
        let _name = &self.name;
    }

    /// The same configuration once more.
    ///
    /// # Errors
    ///
    /// `NoMemory`.
    pub fn copy(&self, alloc: Global) -> Result<SystemConfig, NoMemory>
        ensures { IfOk result (λ copy. copy ≡ self.now) }
    {
        let name = Vec::from_slice(alloc, &self.name)?;
        let addresses = Vec::from_slice(alloc, &self.addresses)?;
        let ports = Vec::from_slice(alloc, &self.ports)?;
        let routes = Vec::from_slice(alloc, &self.routes)?;
        Ok(SystemConfig {
            name,
            role: self.role,
            addresses,
            ports,
            routes,
            settings: self.settings,
        })
    }
}
