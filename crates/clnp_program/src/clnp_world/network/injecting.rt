//! Frames that come from outside.
ghost use Rattle.std.specs.Prelude.{◌≤◌, OnOk, length};
ghost use Rattle.hex.specs.Hex.{IsBytes};
ghost use Rattle.clnp_machine.specs.ClnpNetwork.LabelledNetwork as network;
ghost use Rattle.clnp_program.specs.ClnpWorld.Parts.{Follows, Holds};

use super::Network;
use crate::clnp_world::copy::{FrameCopy, Origin};
use crate::clnp_world::lines::{Line, LineSink};
use clnp_machine::base::{NoMemory, SharedOctets};
use clnp_machine::clnp_network::scenarios::Subnet;
use clnp_machine::nsaps::{Snpa, Target};
use clnp_machine::views::Frame;
use std::alloc::Global;

impl Network {
    /// Puts a frame from outside on the subnetwork that was declared at a place, from an address there to a target.
    pub(super) fn inject<L: LineSink>(
        &mut self,
        alloc: Global,
        subnets: &[Subnet],
        subnet: u8,
        from: Snpa,
        to: Target,
        octets: &SharedOctets,
        lines: &mut L,
    ) -> Result<(), NoMemory>
        requires bytes { IsBytes octets.now }
        requires few { length octets.now ≤ 70000 }
        ensures { OnOk result ((model : network.LabelledNetwork) → Holds self.old model
            → Follows self.new (L.taken lines.old) (L.taken lines.new) (network.injects subnets.now model subnet from to octets.now)) }
    {
        let place = usize::from(subnet);
        if place >= subnets.len() {
            return Ok(());
        }
        // Its clause: the octets are the frame of some content of the model.
        clnp_machine::laws::octets_have_a_content();
        let line = Line::Injected {
            now: self.clock,
            copy: self.copies.len() as u64 + 1,
            subnet: subnets[place].name(),
            sender: &from,
            target: &to,
        };
        lines.take(alloc, &line)?;
        let frame = Frame::of_shared(octets)?;
        self.push_copy(FrameCopy {
            subnet,
            sender: from,
            target: to,
            origin: Origin {
                maker: None,
                birth: self.clock,
            },
            frame,
        })
    }
}
