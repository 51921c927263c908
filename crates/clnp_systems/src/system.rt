//! A system of a network.
ghost use Rattle.std.specs.Prelude.{◌≡◌, ◌≤◌, ◌<◌, ◌+◌, ◌^◌, ℕ, IfNone, IfOk, IfSome, OnOk, OnErr, IsErr, true, length, slice_get, slice_set};
ghost use Rattle.std.specs.List.{AllByRecursion, list_any};
ghost use Rattle.clnp_machine.specs.Change.{PortIsAt, PortTakes, RouteIsGone, RouteIsSet, ports_taking};
ghost use Rattle.clnp_machine.specs.ClnpPlan.Configuration.{IsPort, IsWithin};
ghost use Rattle.clnp_machine.specs.ClnpPlan.declared.config.Role.TheVariants as role;
ghost use Rattle.clnp_machine.specs.Content.{Content};
ghost use Rattle.clnp_machine.specs.Forwarding.Distinct.{has_prefix};
ghost use Rattle.clnp_machine.specs.Step.{step};
ghost use Rattle.clnp_machine.specs.System.{SystemState, IsChanged, first_state};
ghost use Rattle.clnp_systems.specs.Steps.{Carries, IsSpentIn, MayCome, TakesStep, input_with};
ghost use Rattle.clnp_systems.specs.declared.system.System.TheVariants as variant;
ghost use Rattle.clnp_systems.specs.Stands.{Stands, configuration_of, entity_of, role_of};

use crate::Input;
use crate::host::EndSystem;
use crate::router::Router;
use clnp_machine::base::NoMemory;
use clnp_machine::nsaps::Prefix;
use clnp_machine::routing::Route;
use clnp_machine::system_plan::{Limits, Output, PortConfig, Role, SystemConfig};
use std::alloc::Global;

/// A host or a router.
#[derive(Drop)]
pub enum System {
    /// An end system.
    Host(EndSystem),
    /// An intermediate system.
    Router(Router),
}

impl System {
    /// The system that is declared, at its start, at a moment. It makes no unit with an identifier before the moment
    /// `quiet`.
    ///
    /// # Errors
    ///
    /// `NoMemory`.
    pub fn new(
        alloc: Global,
        config: &SystemConfig,
        limits: &Limits,
        now: u64,
        quiet: u64,
    ) -> Result<System, NoMemory>
        requires hold { 1 ≤ limits.now.hold }
        requires moment { now < 2 ^ 62 }
        requires quiet { quiet ≤ 2 ^ 62 + 16384 }
        ensures stands { IfOk result (λ system. (place : ℕ) → Stands system (first_state place config.now limits.now now quiet)) }
        ensures moment { IfOk result (λ system. (entity_of system).moment ≡ now) }
    {
        match config.role() {
            Role::Host => Ok(System::Host(EndSystem::new(alloc, config, limits, now, quiet)?)),
            Role::Router => Ok(System::Router(Router::new(alloc, config, limits, now, quiet)?)),
        }
    }

    /// Something comes, whatever it is; what the system gives out is appended, and with it the note of a restart, of congestion, or
    /// of a unit that isn't made. A host that is congested does nothing else than before.
    ///
    /// # Errors
    ///
    /// `NoMemory`: `out` is then as it was, and the system is spent, at the moment at which it was.
    #[inline(always)]
    pub fn step(
        &mut self,
        alloc: Global,
        input: &Input<'_>,
        out: &mut Vec<Output>,
    ) -> Result<(), NoMemory>
        requires { MayCome (entity_of self.old).moment input.now }
        ensures step { OnOk result ((content : Content) → Carries input.now content
            → TakesStep (role_of self.old) (input_with content input.now) (entity_of self.old) (entity_of self.new) out.old.items out.new.items) }
        ensures spent { OnErr result (IsSpentIn (entity_of self.old) (entity_of self.new) out.old.items out.new.items) }
        ensures refused { (entity_of self.old).spent ≡ true → IsErr result }
    {
        match self {
            System::Host(host) => host.step(alloc, input, out),
            System::Router(router) => router.step(alloc, input, out),
        }
    }

    /// Its ports, by their numbers from 0: as many as were declared.
    pub fn ports(&self) -> &[PortConfig]
        ensures ports { result.now ≡ (entity_of self.now).ports }
        ensures stands { (s : SystemState) → Stands self.now s → result.now ≡ s.attached.ports }
        ensures each { AllByRecursion IsPort result.now }
        ensures few { IsWithin 1 8 (length result.now) }
        ensures number { length result.now ≡ length (configuration_of self.now).ports }
    {
        match self {
            System::Host(host) => host.ports(),
            System::Router(router) => router.ports(),
        }
    }

    /// A port is on the subnetwork of this configuration from now on, at its address and with its transit and MTU; the next hello is
    /// due.
    pub fn set_port(&mut self, port: u8, config: PortConfig)
        requires there { port < length (entity_of self.old).ports }
        requires transit { 1 ≤ config.transit }
        requires mtu { 512 ≤ config.mtu }
        ensures stands { (s : SystemState) → Stands self.old s
            → Stands self.new (step s (IsChanged (PortIsAt port config))).after }
        ensures set { entity_of self.new ≡ record (entity_of self.old) {
          ports = slice_set (entity_of self.old).ports port config;
          esis = record (entity_of self.old).esis { next_hello = (entity_of self.old).moment };
        } }
        ensures role { role_of self.new ≡ role_of self.old }
        ensures spent { (entity_of self.new).spent ≡ (entity_of self.old).spent }
        ensures moment { (entity_of self.new).moment ≡ (entity_of self.old).moment }
        ensures congested { (entity_of self.new).congested ≡ (entity_of self.old).congested }
        ensures config { configuration_of self.new ≡ configuration_of self.old }
    {
        match self {
            System::Host(host) => {
                // Its clause: a host has one port.
                let _ports = host.ports();
                host.set_port(config);
            }
            System::Router(router) => router.set_port(port, config),
        }
    }

    /// A port takes frames of so many octets from now on.
    pub fn set_mtu(&mut self, port: u8, mtu: u16)
        requires there { port < length (entity_of self.old).ports }
        requires mtu { 512 ≤ mtu }
        ensures stands { (s : SystemState) → Stands self.old s
            → Stands self.new (step s (IsChanged (PortTakes port mtu))).after }
        ensures set { entity_of self.new ≡ record (entity_of self.old) {
          ports = ports_taking port mtu (slice_get (entity_of self.old).ports port) (entity_of self.old).ports;
        } }
        ensures role { role_of self.new ≡ role_of self.old }
        ensures spent { (entity_of self.new).spent ≡ (entity_of self.old).spent }
        ensures moment { (entity_of self.new).moment ≡ (entity_of self.old).moment }
        ensures congested { (entity_of self.new).congested ≡ (entity_of self.old).congested }
        ensures config { configuration_of self.new ≡ configuration_of self.old }
    {
        match self {
            System::Host(host) => {
                // Its clause: a host has one port.
                let _ports = host.ports();
                host.set_mtu(mtu);
            }
            System::Router(router) => router.set_mtu(port, mtu),
        }
    }

    /// The route of a prefix is this one from now on, in the place of the one that there was, if any. Routers alone have routes.
    ///
    /// # Errors
    ///
    /// `NoMemory`: it stands for what it stood for, and isn't spent by it.
    pub fn set_route(&mut self, alloc: Global, route: Route) -> Result<(), NoMemory>
        requires router { (configuration_of self.old).role ≡ role.Router }
        requires there { route.port < length (entity_of self.old).ports }
        ensures stands { OnOk result ((s : SystemState) → Stands self.old s → Stands self.new (step s (IsChanged (RouteIsSet route))).after) }
        ensures same { OnErr result ((s : SystemState) → Stands self.old s → Stands self.new s) }
        ensures rest { entity_of self.new ≡ record (entity_of self.old) { routes = (entity_of self.new).routes } }
        ensures role { role_of self.new ≡ role_of self.old }
        ensures spent { (entity_of self.new).spent ≡ (entity_of self.old).spent }
        ensures moment { (entity_of self.new).moment ≡ (entity_of self.old).moment }
        ensures congested { (entity_of self.new).congested ≡ (entity_of self.old).congested }
        ensures config { configuration_of self.new ≡ configuration_of self.old }
    {
        match self {
            System::Host(host) => {
                host.is_host();
                unreachable!()
            }
            System::Router(router) => router.set_route(alloc, route),
        }
    }

    /// The route of a prefix is gone from now on. Tells whether there was one. Routers alone have routes.
    pub fn remove_route(&mut self, prefix: &Prefix) -> bool
        requires router { (configuration_of self.old).role ≡ role.Router }
        ensures there { (s : SystemState) → Stands self.old s
            → result ≡ list_any (has_prefix prefix.now) s.attached.routes }
        ensures stands { (s : SystemState) → Stands self.old s
            → Stands self.new (step s (IsChanged (RouteIsGone prefix.now))).after }
        ensures rest { entity_of self.new ≡ record (entity_of self.old) { routes = (entity_of self.new).routes } }
        ensures role { role_of self.new ≡ role_of self.old }
        ensures spent { (entity_of self.new).spent ≡ (entity_of self.old).spent }
        ensures moment { (entity_of self.new).moment ≡ (entity_of self.old).moment }
        ensures congested { (entity_of self.new).congested ≡ (entity_of self.old).congested }
        ensures config { configuration_of self.new ≡ configuration_of self.old }
    {
        match self {
            System::Host(host) => {
                host.is_host();
                unreachable!()
            }
            System::Router(router) => router.remove_route(prefix),
        }
    }

    /// Its moment, in ticks of 500 ms.
    pub fn moment(&self) -> u64
        ensures moment { result ≡ (entity_of self.now).moment }
        ensures within { result < 2 ^ 62 }
    {
        match self {
            System::Host(host) => host.moment(),
            System::Router(router) => router.moment(),
        }
    }

    /// What the scenario says of it.
    pub fn config(&self) -> &SystemConfig
        ensures { result.now ≡ configuration_of self.now }
    {
        match self {
            System::Host(host) => host.config(),
            System::Router(router) => router.config(),
        }
    }

    /// The host, where it is one.
    pub fn as_host(&self) -> Option<&EndSystem>
        ensures host { IfSome result (λ host. self.now ≡ variant.Host host.now) }
        ensures role { IfSome result (λ host. (configuration_of self.now).role ≡ role.Host) }
        ensures none { IfNone result ((configuration_of self.now).role ≡ role.Router) }
    {
        match self {
            System::Host(host) => {
                host.is_host();
                Some(host)
            }
            System::Router(router) => {
                router.is_router();
                None
            }
        }
    }

    /// The router, where it is one.
    pub fn as_router(&self) -> Option<&Router>
        ensures router { IfSome result (λ router. self.now ≡ variant.Router router.now) }
        ensures role { IfSome result (λ router. (configuration_of self.now).role ≡ role.Router) }
        ensures none { IfNone result ((configuration_of self.now).role ≡ role.Host) }
    {
        match self {
            System::Host(host) => {
                host.is_host();
                None
            }
            System::Router(router) => {
                router.is_router();
                Some(router)
            }
        }
    }
}
