//! Events that change the network: where a port is, the routes of a router, how long the frames of a subnetwork may be.
//! One that names a system, a port or a subnetwork that isn't there does nothing.
ghost use Rattle.std.specs.Prelude.{◌≡◌, ◌<◌, IfOk, OnOk, length, slice_set, vec_len};
ghost use Rattle.std.specs.List.{range_with_len};
ghost use Rattle.clnp_machine.specs.ClnpPlan.Configuration.{IsWithin};
ghost use Rattle.clnp_machine.specs.ClnpNetwork.LabelledNetwork as network;
ghost use Rattle.clnp_program.specs.ClnpWorld.Changing.{MovesPort, RemovesRoute, SetsRoute, TakesMtu};
ghost use Rattle.clnp_program.specs.ClnpWorld.Parts.{Changes, Follows, Holds, IsRunning};

use super::Network;
use crate::clnp_world::lines::{Line, LineSink};
use clnp_machine::base::{NoMemory, Octets};
use clnp_machine::clnp_network::scenarios::Subnet;
use clnp_machine::nsaps::{Prefix, Snpa};
use clnp_machine::routing::Route;
use clnp_machine::system_plan::{Note, PortConfig, Role};
use clnp_systems::System;
use std::alloc::Global;

impl Network {
    /// Puts a port of the system at a place on the subnetwork that was declared at a place, at an address there. It takes
    /// frames as long as those of that subnetwork are now.
    pub(super) fn move_port<L: LineSink>(
        &mut self,
        alloc: Global,
        subnets: &[Subnet],
        place: usize,
        number: u8,
        subnet: u8,
        snpa: Snpa,
        lines: &mut L,
    ) -> Result<(), NoMemory>
        requires { IsRunning self.old }
        ensures { OnOk result ((model : network.LabelledNetwork) → Holds self.old model
            → Follows self.new (L.taken lines.old) (L.taken lines.new) (network.moves_port subnets.now model place number subnet snpa)) }
    {
        let at = usize::from(subnet);
        if at >= subnets.len() {
            return Ok(());
        }
        if at >= self.mtus.len() {
            return Ok(());
        }
        if place >= self.systems.len() {
            return Ok(());
        }
        let mtu = self.mtus[at];
        if !put_port(&mut self.systems[place], number, subnet, snpa, mtu) {
            return Ok(());
        }
        let name = Octets::copy(alloc, subnets[at].name())?;
        let note = Note::Port {
            port: number,
            subnet: name,
            snpa,
        };
        self.write_note(alloc, place, &note, lines)
    }

    /// Sets the route of a prefix at the router at a place, where it has the port out of which the route leads.
    pub(super) fn set_route<L: LineSink>(
        &mut self,
        alloc: Global,
        place: usize,
        route: Route,
        lines: &mut L,
    ) -> Result<(), NoMemory>
        ensures { OnOk result ((model : network.LabelledNetwork) → Holds self.old model
            → Follows self.new (L.taken lines.old) (L.taken lines.new) (network.sets_route model place route)) }
    {
        if place >= self.systems.len() {
            return Ok(());
        }
        if !put_route(alloc, &mut self.systems[place], route)? {
            return Ok(());
        }
        let note = Note::Route {
            prefix: route.prefix,
        };
        self.write_note(alloc, place, &note, lines)
    }

    /// Removes the route of a prefix at the router at a place; the line says whether there was one.
    pub(super) fn remove_route<L: LineSink>(
        &mut self,
        alloc: Global,
        place: usize,
        prefix: &Prefix,
        lines: &mut L,
    ) -> Result<(), NoMemory>
        ensures { OnOk result ((model : network.LabelledNetwork) → Holds self.old model
            → Follows self.new (L.taken lines.old) (L.taken lines.new) (network.removes_route model place prefix.now)) }
    {
        if place >= self.systems.len() {
            return Ok(());
        }
        let Some(there) = take_route(&mut self.systems[place], prefix) else {
            return Ok(());
        };
        let note = Note::Unroute {
            prefix: *prefix,
            there,
        };
        self.write_note(alloc, place, &note, lines)
    }

    /// The subnetwork that was declared at a place takes frames of so many octets from now on, and so does each port on
    /// it.
    pub(super) fn resize<L: LineSink>(
        &mut self,
        alloc: Global,
        subnets: &[Subnet],
        subnet: u8,
        mtu: u16,
        lines: &mut L,
    ) -> Result<(), NoMemory>
        requires { IsWithin 512 65535 mtu }
        ensures { OnOk result ((model : network.LabelledNetwork) → Holds self.old model
            → Follows self.new (L.taken lines.old) (L.taken lines.new) (network.resizes subnets.now model subnet mtu)) }
    {
        let at = usize::from(subnet);
        if at >= subnets.len() {
            return Ok(());
        }
        self.keep_mtu(at, mtu);
        self.resize_each(subnet, mtu);
        let line = Line::Resized {
            now: self.clock,
            subnet: subnets[at].name(),
            mtu,
        };
        lines.take(alloc, &line)
    }

    /// Keeps how long the frames of a subnetwork may be, for the ports that come to it.
    fn keep_mtu(&mut self, at: usize, mtu: u16)
        ensures mtus { self.new.mtus.items ≡ slice_set self.old.mtus.items at mtu }
        ensures others { self.new ≡ record self.old { mtus = self.new.mtus } }
    {
        if at < self.mtus.len() {
            self.mtus[at] = mtu;
        }
    }

    /// Each port on a subnetwork takes frames of so many octets, system after system.
    fn resize_each(&mut self, subnet: u8, mtu: u16)
        requires { IsWithin 512 65535 mtu }
        ensures { Changes self.old self.new
            (λ model. network.resizes_each model subnet mtu (range_with_len 0 (length model.systems))) }
    {
        for place in 0..self.systems.len() {
            self.resize_at(place, subnet, mtu);
        }
    }

    /// Each port of the system at a place that is on a subnetwork takes frames of so many octets.
    fn resize_at(&mut self, place: usize, subnet: u8, mtu: u16)
        requires place_in { place < vec_len self.old.systems }
        requires wide { IsWithin 512 65535 mtu }
        ensures changes { Changes self.old self.new (λ model. network.resizes_at model place subnet mtu) }
        ensures systems { vec_len self.new.systems ≡ vec_len self.old.systems }
    {
        let count = self.ports_at(place).len();
        for number in 0..count {
            take_mtu(&mut self.systems[place], number as u8, subnet, mtu);
        }
    }
}

/// Puts a port of a system, where it has one of the number, on a subnetwork, at an address there; its transit stays.
/// Whether it has the port.
fn put_port(system: &mut System, number: u8, subnet: u8, snpa: Snpa, mtu: u16) -> bool
    requires { IsWithin 512 65535 mtu }
    ensures { MovesPort result system.old system.new number subnet mtu snpa }
{
    let ports = system.ports();
    let at = usize::from(number);
    if at >= ports.len() {
        return false;
    }
    let before = ports[at];
    let port = PortConfig {
        subnet,
        snpa,
        transit: before.transit,
        mtu,
    };
    system.set_port(number, port);
    true
}

/// A port of a system, where it has one of the number and the port is on a subnetwork, takes frames of so many octets.
fn take_mtu(system: &mut System, number: u8, subnet: u8, mtu: u16)
    requires { IsWithin 512 65535 mtu }
    ensures { TakesMtu system.old system.new number subnet mtu }
{
    let ports = system.ports();
    let at = usize::from(number);
    if at >= ports.len() {
        return;
    }
    if ports[at].subnet == subnet {
        system.set_mtu(number, mtu);
    }
}

/// Sets the route of a prefix at a router that has the port out of which the route leads; whether it was set.
///
/// # Errors
///
/// `NoMemory`.
fn put_route(alloc: Global, system: &mut System, route: Route) -> Result<bool, NoMemory>
    ensures { IfOk result (λ set. SetsRoute set system.old system.new route) }
{
    match system.config().role() {
        Role::Host => Ok(false),
        Role::Router => {
            if usize::from(route.port) >= system.ports().len() {
                return Ok(false);
            }
            system.set_route(alloc, route)?;
            Ok(true)
        }
    }
}

/// Removes the route of a prefix at a router, and says whether there was one; a host has none to remove.
fn take_route(system: &mut System, prefix: &Prefix) -> Option<bool>
    ensures { RemovesRoute result system.old system.new prefix.now }
{
    match system.config().role() {
        Role::Host => None,
        Role::Router => Some(system.remove_route(prefix)),
    }
}
