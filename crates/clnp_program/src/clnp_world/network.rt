//! The network between its moves: systems, and the copies of frames on the subnetworks.
ghost use Rattle.std.specs.Prelude.{◌≡◌, IfOk, map};
ghost use Rattle.clnp_machine.specs.ScenarioPlan.Plan.{Subnetwork};
ghost use Rattle.clnp_machine.specs.ClnpNetwork.LabelledNetwork as network;
ghost use Rattle.clnp_program.specs.ClnpWorld.Parts.{Holds};
ghost use Rattle.clnp_program.specs.ClnpWorld.Stands.{StandEach};

use crate::clnp_world::copy::FrameCopy;
use clnp_machine::base::NoMemory;
use clnp_machine::clnp_network::scenarios::{Scenario, Subnet};
use clnp_machine::system_plan::Output;
use clnp_systems::System;
use std::alloc::Global;

mod changing;
mod coming;
mod giving;
mod injecting;
mod moves;
mod outputs;
mod sending;

/// For so many copies room is made at the start, so that the list of most storms never grows.
const FIRST_ROOM: usize = 2048;

/// The systems, the copies that were ever put on a subnetwork, and the clock. After memory was refused in a move it is
/// in no known state.
#[derive(Drop)]
pub(crate) struct Network {
    /// In ticks of 500 ms.
    pub(crate) clock: u64,
    pub(crate) systems: Vec<System>,
    /// The most octets that a frame on each subnetwork may have, as it now is.
    pub(crate) mtus: Vec<u16>,
    pub(crate) copies: Vec<FrameCopy>,
    /// How many of the copies were settled or lost.
    pub(crate) cursor: usize,
    /// The octets of all copies, and 64 for each.
    pub(crate) weight: u64,
    /// What a system gave out when something came to it last, in room that is made once.
    pub(crate) outputs: Vec<Output>,
}

impl Network {
    /// The network of a scenario's declarations, at the start.
    pub(crate) fn new(alloc: Global, scenario: &Scenario) -> Result<Network, NoMemory>
        ensures { IfOk result (λ code. Holds code (network.first_world scenario.now)) }
    {
        // Its clause: each subnetwork takes at least 512 octets.
        scenario.is_fit();
        let systems = systems_of(alloc, scenario)?;
        let mtus = mtus_of(alloc, scenario.subnets())?;
        Ok(Network {
            clock: 0,
            systems,
            mtus,
            copies: Vec::with_capacity(alloc, FIRST_ROOM)?,
            cursor: 0,
            weight: 0,
            outputs: Vec::new(alloc),
        })
    }
}

/// The systems that a scenario declares, at the start.
fn systems_of(alloc: Global, scenario: &Scenario) -> Result<Vec<System>, NoMemory>
    ensures { IfOk result (λ systems. StandEach systems.items (network.states_from scenario.now.limits 0 scenario.now.systems)) }
{
    // Its clause: limits and systems are within their ranges, as a system asks at its start.
    scenario.is_fit();
    let limits = scenario.limits();
    let declared = scenario.systems();
    let mut systems = Vec::new(alloc);
    for config in declared {
        let system = System::new(alloc, config, limits, 0, 0)?;
        systems.push(system)?;
    }
    Ok(systems)
}

/// The most octets that a frame on each subnetwork may have, as it is declared.
fn mtus_of(alloc: Global, subnets: &[Subnet]) -> Result<Vec<u16>, NoMemory>
    ensures { IfOk result (λ mtus. mtus.items ≡ map (λ (subnet : Subnetwork). subnet.mtu) subnets.now) }
{
    let mut mtus = Vec::new(alloc);
    for subnet in subnets {
        mtus.push(subnet.mtu)?;
    }
    Ok(mtus)
}
