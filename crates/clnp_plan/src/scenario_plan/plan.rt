//! What a scenario text says.
ghost use Rattle.std.specs.Prelude.{◌≡◌};
ghost use Rattle.clnp_plan.specs.ScenarioPlan.Migrated.{migrated};
ghost use Rattle.clnp_plan.specs.ScenarioPlan.Plan.{IsFit};

use crate::scenario_plan::event::Event;
use crate::scenario_plan::laws;
use crate::{Limits, SystemConfig};
use std::marker::Model;

/// A subnetwork, named by its place among the declarations, from 0.
#[derive(Drop)]
pub struct Subnet {
    /// The most octets that a frame on it may have.
    pub mtu: u16,
    name: Vec<u8>,
}

impl Model for Subnet {
    ghost use Rattle.clnp_plan.specs.ScenarioPlan.Plan.{Subnetwork};

    ghost Value = { Subnetwork };

    ghost view = { λ s. record { name = s.name.items; mtu = s.mtu } };
}

impl Subnet {
    /// The subnetwork of a name, in the octets of its text, that takes frames of so many octets.
    pub fn new(name: Vec<u8>, mtu: u16) -> Subnet
        ensures { result ≡ record { name = name.items; mtu = mtu } }
    {
        Subnet { mtu, name }
    }

    /// The name, in the octets of its text.
    pub fn name(&self) -> &[u8]
        ensures { result.now ≡ self.now.name }
    {
        self.name.as_slice()
    }
}

/// What a text declares, and its events. A contract knows of each that it is fit to be run: its version, limits,
/// settings and numbers are in their ranges, in version 1 its clocks tick together, each name is a name of the grammar,
/// each system has what its role calls for, no name, address or SNPA on a subnetwork stands twice, and no prefix at a
/// router, each port is on a declared subnetwork and has its MTU, no two ports of a system are on one subnetwork, each
/// route leads out of a port that is there, events name declared systems, hosts alone are asked to send, routers alone
/// are said to be congested and get routes, a network changes in version 2 alone, ports, subnetworks and routers that
/// change are there, at no moment are two ports of a system on one subnetwork, is an address there that of two ports,
/// has a router more than 256 routes, or comes a clock by ticks of its own to stand further above another one than it
/// may, and events are few and say only what a line may say.
#[derive(Drop)]
pub struct Scenario {
    version: u8,
    limits: Limits,
    subnets: Vec<Subnet>,
    systems: Vec<SystemConfig>,
    events: Vec<Event>,
}

impl Model for Scenario {
    ghost use Rattle.clnp_plan.specs.ScenarioPlan.Plan.{IsFit, Plan};

    ghost Value = { Plan };

    ghost view = { λ s. record {
      version = s.version;
      limits = s.limits;
      subnets = s.subnets.items;
      systems = s.systems.items;
      events = s.events.items;
    } };

    ghost invariant = { λ s. IsFit (record {
      version = s.version;
      limits = s.limits;
      subnets = s.subnets.items;
      systems = s.systems.items;
      events = s.events.items;
    }) };
}

impl Scenario {
    /// The scenario that says this.
    pub fn new(
        version: u8,
        limits: Limits,
        subnets: Vec<Subnet>,
        systems: Vec<SystemConfig>,
        events: Vec<Event>,
    ) -> Scenario
        requires fit { IsFit (record {
          version = version;
          limits = limits;
          subnets = subnets.items;
          systems = systems.items;
          events = events.items;
        }) }
        ensures { result ≡ record {
          version = version;
          limits = limits;
          subnets = subnets.items;
          systems = systems.items;
          events = events.items;
        } }
    {
        Scenario {
            version,
            limits,
            subnets,
            systems,
            events,
        }
    }

    /// The same scenario with other events.
    pub fn with_events(self, events: Vec<Event>) -> Scenario
        requires fit { IsFit (record self { events = events.items }) }
        ensures { result ≡ record self { events = events.items } }
    {
        let Scenario {
            version,
            limits,
            subnets,
            systems,
            events: _,
        } = self;
        Scenario::new(version, limits, subnets, systems, events)
    }

    /// What a contract knows of each scenario: it is fit to be run.
    pub fn is_fit(&self)
        ensures { IsFit self.now }
    {
        // The look at a field brings the invariant.
        let _limits = &self.limits;
    }

    /// The version of the texts that say it: 1, or 2.
    pub fn version(&self) -> u8
        ensures { result ≡ self.now.version }
    {
        self.version
    }

    /// The same scenario in version 2, in which all clocks tick together as they did.
    pub fn migrate(self) -> Scenario
        requires { self.version ≡ 1 }
        ensures migrated { result ≡ migrated self }
        ensures together { result.limits.skew ≡ 0 }
    {
        // Its clause: a fit scenario is fit in version 2, with clocks that tick together.
        laws::migrated_is_fit();
        // Its clause: this scenario is fit.
        self.is_fit();
        let Scenario {
            version: _,
            limits,
            subnets,
            systems,
            events,
        } = self;
        Scenario {
            version: 2,
            limits,
            subnets,
            systems,
            events,
        }
    }

    /// How long things last.
    pub fn limits(&self) -> &Limits
        ensures { result.now ≡ self.now.limits }
    {
        &self.limits
    }

    /// The subnetworks in the order of their declarations.
    pub fn subnets(&self) -> &[Subnet]
        ensures { result.now ≡ self.now.subnets }
    {
        self.subnets.as_slice()
    }

    /// The systems in the order of their declarations.
    pub fn systems(&self) -> &[SystemConfig]
        ensures { result.now ≡ self.now.systems }
    {
        self.systems.as_slice()
    }

    /// The events in the order in which they happen.
    pub fn events(&self) -> &[Event]
        ensures { result.now ≡ self.now.events }
    {
        self.events.as_slice()
    }
}
