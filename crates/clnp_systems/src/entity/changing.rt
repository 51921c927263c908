//! What a system is attached to, its ports and its routes, and how that is changed.
ghost use Rattle.std.specs.Prelude.{◌≡◌, ◌≤◌, ◌<◌, ℕ, OnOk, OnErr, length, slice_get, slice_set};
ghost use Rattle.std.specs.List.{AllByRecursion, list_any};
ghost use Rattle.clnp_machine.specs.Change.{PortIsAt, PortTakes, RouteIsGone, RouteIsSet, ports_taking};
ghost use Rattle.clnp_machine.specs.ClnpPlan.Configuration.{IsPort, IsWithin};
ghost use Rattle.clnp_machine.specs.Forwarding.Distinct.{has_prefix};
ghost use Rattle.clnp_machine.specs.Step.{step};
ghost use Rattle.clnp_machine.specs.System.{SystemState, IsChanged};
ghost use Rattle.clnp_systems.specs.EntityStands.{PartsStandSince, Stands};

use super::SystemEntity;
use clnp_machine::base::NoMemory;
use clnp_machine::nsaps::Prefix;
use clnp_machine::routing::Route;
use clnp_machine::system_plan::PortConfig;
use std::alloc::Global;

impl SystemEntity {
    /// Its ports, by their numbers from 0: as many as were declared.
    pub fn ports(&self) -> &[PortConfig]
        ensures ports { result.now ≡ self.now.ports }
        ensures stands { (s : SystemState) (before : ℕ) → PartsStandSince before self.now s
            → result.now ≡ s.attached.ports }
        ensures each { AllByRecursion IsPort result.now }
        ensures few { IsWithin 1 8 (length result.now) }
        ensures number { length result.now ≡ length self.now.local.configuration.ports }
    {
        // Its clause: a system has 1 to 8 ports.
        self.local.config().is_system();
        self.ports.as_slice()
    }

    /// How many ports it has.
    pub(super) fn port_count(&self) -> u8
        ensures { result ≡ length self.now.ports }
    {
        self.ports().len() as u8
    }

    /// A port is on the subnetwork of this configuration from now on, at its address and with its transit and MTU; the next hello is
    /// due.
    pub fn set_port(&mut self, port: u8, config: PortConfig)
        requires there { port < length self.old.ports }
        requires transit { 1 ≤ config.transit }
        requires mtu { 512 ≤ config.mtu }
        ensures stands { (s : SystemState) → Stands self.old s
            → Stands self.new (step s (IsChanged (PortIsAt port config))).after }
        ensures set { self.new ≡ record self.old {
          ports = slice_set self.old.ports port config;
          esis = record self.old.esis { next_hello = self.old.moment };
        } }
        ensures spent { self.new.spent ≡ self.old.spent }
        ensures moment { self.new.moment ≡ self.old.moment }
        ensures congested { self.new.congested ≡ self.old.congested }
        ensures config { self.new.local.configuration ≡ self.old.local.configuration }
    {
        self.ports[usize::from(port)] = config;
        self.esis.greets_again(self.moment);
    }

    /// A port takes frames of so many octets from now on.
    pub fn set_mtu(&mut self, port: u8, mtu: u16)
        requires there { port < length self.old.ports }
        requires mtu { 512 ≤ mtu }
        ensures stands { (s : SystemState) → Stands self.old s
            → Stands self.new (step s (IsChanged (PortTakes port mtu))).after }
        ensures set { self.new ≡ record self.old { ports = ports_taking port mtu (slice_get self.old.ports port) self.old.ports } }
        ensures spent { self.new.spent ≡ self.old.spent }
        ensures moment { self.new.moment ≡ self.old.moment }
        ensures congested { self.new.congested ≡ self.old.congested }
        ensures config { self.new.local.configuration ≡ self.old.local.configuration }
    {
        let port = &mut self.ports[usize::from(port)];
        port.mtu = mtu;
    }

    /// The route of a prefix is this one from now on, in the place of the one that there was, if any.
    ///
    /// # Errors
    ///
    /// `NoMemory`: it stands for what it stood for, and isn't spent by it.
    pub fn set_route(&mut self, alloc: Global, route: Route) -> Result<(), NoMemory>
        requires there { route.port < length self.old.ports }
        ensures stands { OnOk result ((s : SystemState) → Stands self.old s → Stands self.new (step s (IsChanged (RouteIsSet route))).after) }
        ensures same { OnErr result ((s : SystemState) → Stands self.old s → Stands self.new s) }
        ensures rest { self.new ≡ record self.old { routes = self.new.routes } }
        ensures spent { self.new.spent ≡ self.old.spent }
        ensures moment { self.new.moment ≡ self.old.moment }
        ensures congested { self.new.congested ≡ self.old.congested }
        ensures config { self.new.local.configuration ≡ self.old.local.configuration }
    {
        self.routes.set(alloc, route)
    }

    /// The route of a prefix is gone from now on. Tells whether there was one.
    pub fn remove_route(&mut self, prefix: &Prefix) -> bool
        ensures there { (s : SystemState) → Stands self.old s
            → result ≡ list_any (has_prefix prefix.now) s.attached.routes }
        ensures stands { (s : SystemState) → Stands self.old s
            → Stands self.new (step s (IsChanged (RouteIsGone prefix.now))).after }
        ensures rest { self.new ≡ record self.old { routes = self.new.routes } }
        ensures spent { self.new.spent ≡ self.old.spent }
        ensures moment { self.new.moment ≡ self.old.moment }
        ensures congested { self.new.congested ≡ self.old.congested }
        ensures config { self.new.local.configuration ≡ self.old.local.configuration }
    {
        self.routes.remove(prefix)
    }
}
