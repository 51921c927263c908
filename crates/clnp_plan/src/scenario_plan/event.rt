ghost use Rattle.std.specs.Prelude.{◌≡◌, ◌+◌, ◌%◌, map, replicate, IfOk};
ghost use Rattle.std.specs.List.{range_with_len};
ghost use Rattle.clnp_plan.specs.ScenarioPlan.Plan.{moves_of, octets_of};
ghost use Rattle.clnp_plan.specs.declared.scenario_plan.event.Body.TheVariants.{Pattern};

use crate::base::{NoMemory, Octets, SharedOctets};
use crate::nsaps::{Address, Prefix, Snpa, Target};
use crate::routing::Route;
use crate::scenario_plan::kept_ask::KeptAsk;
use std::alloc::Global;

/// How many octets a row of a pattern has.
const ROW: usize = 256;

/// The octets of a data unit that is to be sent, in one of the two forms in which they are written.
#[derive(Drop)]
pub enum Body {
    /// The octets themselves.
    Hex(Octets),
    /// So many octets of a pattern: that at place q is q + q / 256 + `start`, modulo 256.
    Pattern { len: u32, start: u8 },
}

impl Body {
    /// The octets that are to be sent.
    ///
    /// # Errors
    ///
    /// Where memory is refused.
    pub fn octets(&self, alloc: Global) -> Result<Vec<u8>, NoMemory>
        ensures { IfOk result (λ octets. octets.items ≡ octets_of self.now) }
    {
        match self {
            Body::Hex(octets) => Ok(Vec::from_slice(alloc, octets.as_bytes())?),
            Body::Pattern { len, start } => pattern(alloc, *len, *start),
        }
    }
}

/// The octets of a pattern, row by row: 256 octets, each of them one more than the one before it.
fn pattern(alloc: Global, len: u32, start: u8) -> Result<Vec<u8>, NoMemory>
    ensures { IfOk result (λ octets. octets.items ≡ octets_of (Pattern len start)) }
{
    let all = len as usize;
    let mut octets = Vec::with_capacity(alloc, all)?;
    for number in 0..all.div_ceil(ROW) {
        let first = start.wrapping_add((number % 256) as u8);
        let row = row_from(first);
        let more = ROW.min(all - number * ROW);
        octets.extend_from_slice(&row[..more])?;
    }
    Ok(octets)
}

/// A row of a pattern whose first octet is this one.
fn row_from(first: u8) -> [u8; ROW]
    ensures { result ≡ map (λ column. (column + first) % 256) (range_with_len 0 256) }
{
    let mut row = [0; ROW];
    let mut next = first;
    for octet in row.iter_mut() {
        *octet = next;
        next = next.wrapping_add(1);
    }
    row
}

/// An event of a scenario; systems and subnetworks are named by their places, from 0.
#[derive(Drop)]
pub enum Event {
    /// A host is asked to send a data unit.
    Send {
        system: u8,
        from: Address,
        to: Address,
        body: Body,
        ask: KeptAsk,
    },
    /// The copy with this number, from 1, is given to a system.
    Deliver {
        copy: u32,
        system: u8,
    },
    /// The next copies that wait are given to their addressees.
    Settle {
        count: u32,
    },
    /// The next copies that wait are passed over.
    Lose {
        count: u32,
    },
    /// So many ticks of 500 ms pass.
    Tick {
        count: u32,
    },
    /// A system is restarted.
    Restart {
        system: u8,
    },
    /// A system is asked to send an echo request (RFC 1575).
    Echo {
        system: u8,
        from: Address,
        to: Address,
        body: Body,
    },
    /// A router is congested from now on, or else no longer.
    Congest {
        system: u8,
        on: bool,
    },
    /// A frame from outside is put on a subnetwork, from an address there to one or to a group.
    Inject {
        subnet: u8,
        from: Snpa,
        to: Target,
        octets: SharedOctets,
    },
    /// A subnetwork takes frames of so many octets from now on, and so do all ports on it.
    Mtu {
        subnet: u8,
        mtu: u16,
    },
    /// The route of a prefix is set at a router.
    Route {
        system: u8,
        route: Route,
    },
    /// The route of a prefix is removed at a router, where it is there.
    Unroute {
        system: u8,
        prefix: Prefix,
    },
    /// So many ticks of 500 ms pass for one system.
    TickSystem {
        system: u8,
        count: u32,
    },
    /// The port of a system is put on a subnetwork, at an address there.
    Port {
        system: u8,
        number: u8,
        subnet: u8,
        snpa: Snpa,
    },
}

impl Event {
    /// The move that the event at a place is made of, and how often it is made.
    pub fn moves(&self, place: usize) -> (Move, u32)
        ensures { replicate result.1 result.0 ≡ moves_of place self.now }
    {
        match self {
            Event::Settle { count } => (Move::SettleOne, *count),
            Event::Lose { count } => (Move::LoseOne, *count),
            Event::Tick { count } => (Move::TickOne, *count),
            Event::TickSystem { system, count } => (Move::TickSystem(usize::from(*system)), *count),
            Event::Send { .. }
            | Event::Echo { .. }
            | Event::Deliver { .. }
            | Event::Restart { .. }
            | Event::Congest { .. }
            | Event::Inject { .. }
            | Event::Mtu { .. }
            | Event::Route { .. }
            | Event::Unroute { .. }
            | Event::Port { .. } => (Move::One(place), 1),
        }
    }
}

/// One move of the simulated network.
#[derive(Clone, Copy)]
pub enum Move {
    /// The event at this place, from 0, which is none of `Settle`, `Lose`, `Tick` and `TickSystem`.
    One(usize),
    /// The next copy is given to each of its addressees.
    SettleOne,
    /// The next copy is passed over.
    LoseOne,
    /// One tick passes.
    TickOne,
    /// One tick passes for the system at this place.
    TickSystem(usize),
}
