//! What events change of what is declared: where the ports of systems are, for which prefixes routers have routes, and
//! how far clocks went on.
ghost use Rattle.std.specs.Prelude.{◌≡◌, ◌≤◌, ◌<◌, ◌+◌, ◌^◌, ◌++◌, ◌&&◌, ◌||◌, nat_lt, map, length, slice_get, IfOk, OnOk};
ghost use Rattle.std.specs.List.{AllByRecursion, list_any};
ghost use Rattle.clnp_plan.specs.ScenarioPlan.Plan.{ticks_of};
ghost use Rattle.clnp_plan.specs.ScenarioPlan.Standing.{changed_at, first_clocks, is_ahead, is_among, is_port, is_rival, is_second, moved, prefixes_of, runs_ahead, spots_from, spots_of, standing_after, standing_of, takes_prefix, with_prefix, without_prefix};

use clnp_plan::nsaps::{Prefix, Snpa};
use clnp_plan::routing::Route;
use clnp_plan::scenario_plan::{Event, Spot};
use clnp_plan::{PortConfig, SystemConfig};
use std::alloc::{AllocError, Global};
use std::marker::Model;

/// Appends the ports of a system.
fn push_ports(system: u8, ports: &[PortConfig], spots: &mut Vec<Spot>) -> Result<(), AllocError>
    requires { length ports.now ≤ 8 }
    ensures { OnOk result (spots.new.items ≡ spots.old.items ++ spots_from system 0 ports.now) }
{
    let mut number: u8 = 0;
    let mut left = ports;
    while let [port, others @ ..] = left {
        spots.push(Spot {
            system,
            number,
            subnet: port.subnet,
            snpa: port.snpa,
        })?;
        number += 1;
        left = others;
    }
    Ok(())
}

/// The ports of systems as they are declared.
fn spots_of(alloc: Global, systems: &[SystemConfig]) -> Result<Vec<Spot>, AllocError>
    requires { length systems.now ≤ 64 }
    ensures { IfOk result (λ spots. spots.items ≡ spots_of 0 systems.now) }
{
    let mut spots = Vec::new(alloc);
    let mut place: u8 = 0;
    let mut left = systems;
    while let [system, others @ ..] = left {
        // Its clause: a system has up to eight ports.
        system.is_system();
        push_ports(place, system.ports(), &mut spots)?;
        place += 1;
        left = others;
    }
    Ok(spots)
}

/// Puts the port of a system on a subnetwork, at an address there.
fn move_port(spots: &mut [Spot], system: u8, number: u8, subnet: u8, snpa: Snpa)
    ensures { spots.new ≡ map (moved system number subnet snpa) spots.old }
{
    for spot in spots.iter_mut() {
        *spot = spot.moved(system, number, subnet, snpa);
    }
}

/// The prefixes of a system's routes.
#[derive(Drop)]
struct Prefixes {
    known: Vec<Prefix>,
}

impl Model for Prefixes {
    ghost use Rattle.std.specs.Prelude.{ℕ, List};

    ghost Value = { List (List ℕ) };

    ghost view = { λ p. p.known.items };
}

impl Prefixes {
    /// Those of declared routes.
    fn of(alloc: Global, routes: &[Route]) -> Result<Prefixes, AllocError>
        ensures { IfOk result (λ prefixes. prefixes ≡ map (λ route. route.prefix) routes.now) }
    {
        Ok(Prefixes {
            known: routes.iter().map(|route| route.prefix).collect(alloc)?,
        })
    }

    /// Whether this prefix is among them.
    fn has(&self, prefix: &Prefix) -> bool
        ensures { result ≡ is_among prefix.now self.now }
    {
        self.known.contains(prefix)
    }

    /// Whether this prefix may be one of them.
    fn takes(&self, prefix: &Prefix) -> bool
        ensures { result ≡ takes_prefix prefix.now (Some self.now) }
    {
        self.has(prefix) || self.known.len() < 256
    }

    /// Adds this prefix, unless it is there.
    fn add(&mut self, prefix: Prefix) -> Result<(), AllocError>
        ensures { OnOk result (self.new ≡ with_prefix prefix self.old) }
    {
        if !self.has(&prefix) {
            self.known.push(prefix)?;
        }
        Ok(())
    }

    /// Takes this prefix out, if it is there.
    fn remove(&mut self, prefix: &Prefix)
        ensures { self.new ≡ without_prefix prefix.now self.old }
    {
        drop_prefix(&mut self.known, prefix);
    }
}

/// Takes a prefix out of some, if it is there.
fn drop_prefix(known: &mut Vec<Prefix>, prefix: &Prefix)
    ensures { known.new.items ≡ without_prefix prefix.now known.old.items }
{
    known.retain(|other| *other != *prefix);
}

/// The prefixes of systems as they are declared.
fn prefixes_of(alloc: Global, systems: &[SystemConfig]) -> Result<Vec<Prefixes>, AllocError>
    ensures { IfOk result (λ prefixes. prefixes.items ≡ map prefixes_of systems.now) }
{
    let mut prefixes = Vec::new(alloc);
    for system in systems {
        prefixes.push(Prefixes::of(alloc, system.routes())?)?;
    }
    Ok(prefixes)
}

/// The clocks of systems, at first.
fn clocks_of(alloc: Global, systems: &[SystemConfig]) -> Result<Vec<u32>, AllocError>
    ensures { IfOk result (λ clocks. clocks.items ≡ first_clocks systems.now) }
{
    systems.iter().map(|_| 0u32).collect(alloc)
}

/// Adds a prefix to those of the system at a place.
fn add_prefix(prefixes: &mut [Prefixes], place: usize, prefix: Prefix) -> Result<(), AllocError>
    ensures { OnOk result (prefixes.new ≡ changed_at (with_prefix prefix) place prefixes.old) }
{
    if place >= prefixes.len() {
        return Ok(());
    }
    let known = &mut prefixes[place];
    known.add(prefix)
}

/// Takes a prefix out of those of the system at a place.
fn remove_prefix(prefixes: &mut [Prefixes], place: usize, prefix: &Prefix)
    ensures { prefixes.new ≡ changed_at (without_prefix prefix.now) place prefixes.old }
{
    if place < prefixes.len() {
        let known = &mut prefixes[place];
        known.remove(prefix);
    }
}

/// Lets all clocks go on.
fn tick_all(clocks: &mut [u32], count: u32)
    requires { AllByRecursion (λ clock. clock + count < 2 ^ 32) clocks.old }
    ensures { clocks.new ≡ map (λ clock. clock + count) clocks.old }
{
    for clock in clocks.iter_mut() {
        *clock += count;
    }
}

/// Lets the clock of the system at a place go on.
fn tick_one(clocks: &mut [u32], place: usize, count: u32)
    requires { AllByRecursion (λ clock. clock + count < 2 ^ 32) clocks.old }
    ensures { clocks.new ≡ changed_at (λ clock. clock + count) place clocks.old }
{
    if place < clocks.len() {
        clocks[place] += count;
    }
}

/// Whether a clock stands more than so many ticks above one of some.
fn is_above(skew: u16, clock: u64, others: &[u32]) -> bool
    ensures { result ≡ list_any (λ other. nat_lt (other + skew) clock) others.now }
{
    others
        .iter()
        .any(|other| u64::from(*other) + u64::from(skew) < clock)
}

/// Whether the clock at a place would stand more than so many ticks above another one, so many ticks later.
fn runs_ahead(clocks: &[u32], skew: u16, place: usize, count: u32) -> bool
    ensures { let later = changed_at (λ clock. clock + count) place clocks.now in
        result ≡ is_ahead skew (slice_get later place) later }
{
    if place >= clocks.len() {
        return false;
    }
    let clock = ticked(clocks[place], count);
    let (before, _) = clocks.split_at(place);
    let (_, behind) = clocks.split_at(place + 1);
    is_above_both(skew, clock, before, behind)
}

/// Whether a clock stands more than so many ticks above one of some, or one of others.
fn is_above_both(skew: u16, clock: u64, before: &[u32], behind: &[u32]) -> bool
    ensures { result ≡ list_any (λ other. nat_lt (other + skew) clock) before.now
        || list_any (λ other. nat_lt (other + skew) clock) behind.now }
{
    is_above(skew, clock, before) || is_above(skew, clock, behind)
}

/// A clock so many ticks later.
fn ticked(clock: u32, count: u32) -> u64
    ensures { result ≡ clock + count }
{
    u64::from(clock) + u64::from(count)
}

/// What the events so far leave.
#[derive(Drop)]
pub(crate) struct Standing {
    spots: Vec<Spot>,
    prefixes: Vec<Prefixes>,
    /// Of each system, in ticks of 500 ms.
    clocks: Vec<u32>,
    skew: u16,
}

impl Model for Standing {
    ghost use Rattle.clnp_plan.specs.ScenarioPlan.Standing.{Standing};

    ghost Value = { Standing };

    ghost view = { λ s. record {
      spots = s.spots.items;
      prefixes = s.prefixes.items;
      clocks = s.clocks.items;
      skew = s.skew;
    } };
}

impl Standing {
    /// Before the first event, where two clocks may stand so far apart.
    pub(crate) fn of(
        alloc: Global,
        skew: u16,
        systems: &[SystemConfig],
    ) -> Result<Standing, AllocError>
        requires { length systems.now ≤ 64 }
        ensures { IfOk result (λ standing. standing ≡ standing_of skew systems.now) }
    {
        Ok(Standing {
            spots: spots_of(alloc, systems)?,
            prefixes: prefixes_of(alloc, systems)?,
            clocks: clocks_of(alloc, systems)?,
            skew,
        })
    }

    /// Whether another port of a system than that of this number is on a subnetwork.
    pub(crate) fn has_second(&self, system: u8, number: u8, subnet: u8) -> bool
        ensures { result ≡ list_any (is_second system number subnet) self.now.spots }
    {
        self.spots
            .iter()
            .any(|spot| spot.is_second(system, number, subnet))
    }

    /// Whether another port than this one, of any system, has an address on a subnetwork.
    pub(crate) fn has_rival(&self, system: u8, number: u8, subnet: u8, snpa: &Snpa) -> bool
        ensures { result ≡ list_any (is_rival system number subnet snpa.now) self.now.spots }
    {
        self.spots
            .iter()
            .any(|spot| spot.is_rival(system, number, subnet, snpa))
    }

    /// Whether the system at a place may have a route of this prefix.
    pub(crate) fn takes_prefix(&self, system: u8, prefix: &Prefix) -> bool
        ensures { result ≡ takes_prefix prefix.now (slice_get self.now.prefixes system) }
    {
        match self.prefixes.get(usize::from(system)) {
            Some(known) => known.takes(prefix),
            None => false,
        }
    }

    /// Whether the clock of a system would stand further above another one than it may, so many ticks of its own later.
    pub(crate) fn runs_ahead(&self, system: u8, count: u32) -> bool
        ensures { result ≡ runs_ahead system count self.now }
    {
        runs_ahead(&self.clocks, self.skew, usize::from(system), count)
    }

    /// Goes on to what an event leaves.
    pub(crate) fn go_on(&mut self, event: &Event) -> Result<(), AllocError>
        requires { AllByRecursion (λ clock. clock + ticks_of event.now < 2 ^ 32) self.old.clocks }
        ensures { OnOk result (self.new ≡ standing_after event.now self.old) }
    {
        match event {
            Event::Port {
                system,
                number,
                subnet,
                snpa,
            } => {
                move_port(&mut self.spots, *system, *number, *subnet, *snpa);
                Ok(())
            }
            Event::Route { system, route } => {
                add_prefix(&mut self.prefixes, usize::from(*system), route.prefix)
            }
            Event::Unroute { system, prefix } => {
                remove_prefix(&mut self.prefixes, usize::from(*system), prefix);
                Ok(())
            }
            Event::Tick { count } => {
                tick_all(&mut self.clocks, *count);
                Ok(())
            }
            Event::TickSystem { system, count } => {
                tick_one(&mut self.clocks, usize::from(*system), *count);
                Ok(())
            }
            Event::Send { .. }
            | Event::Deliver { .. }
            | Event::Settle { .. }
            | Event::Lose { .. }
            | Event::Restart { .. }
            | Event::Echo { .. }
            | Event::Congest { .. }
            | Event::Inject { .. }
            | Event::Mtu { .. } => Ok(()),
        }
    }
}
