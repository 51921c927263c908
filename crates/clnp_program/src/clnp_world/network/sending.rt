//! Data units that a host is asked to send.
ghost use Rattle.std.specs.Prelude.{OnOk, false};
ghost use Rattle.clnp_machine.specs.System.{AsksForEcho, AsksToSend};
ghost use Rattle.clnp_machine.specs.ClnpNetwork.LabelledNetwork as network;
ghost use Rattle.clnp_machine.specs.ClnpOptions.Grammar.{FitsKind};
ghost use Rattle.clnp_machine.specs.ClnpOptions.Parameter.{parameters};
ghost use Rattle.clnp_program.specs.ClnpWorld.Parts.{Follows, Holds};
ghost use Rattle.clnp_machine.specs.ScenarioPlan.Plan.{octets_of};

use super::Network;
use super::coming::names_of_inputs;
use crate::clnp_world::copy::NO_FRAME;
use crate::clnp_world::lines::LineSink;
use clnp_machine::base::NoMemory;
use clnp_machine::clnp_network::scenarios::Body;
use clnp_machine::nsaps::Address;
use clnp_machine::system_plan::{Ask, Role};
use clnp_systems::Input;
use std::alloc::Global;

impl Network {
    /// Asks the system at a place to send a unit; nobody asks a router.
    pub(super) fn send<L: LineSink>(
        &mut self,
        alloc: Global,
        place: usize,
        from: Address,
        to: Address,
        body: &Body,
        ask: &Ask,
        lines: &mut L,
    ) -> Result<(), NoMemory>
        requires { FitsKind false (parameters ask.now.options) }
        ensures { OnOk result ((model : network.LabelledNetwork) → Holds self.old model
            → Follows self.new (L.taken lines.old) (L.taken lines.new)
            (network.asks model place (AsksToSend from to (octets_of body.now) ask.now))) }
    {
        let octets = body.octets(alloc)?;
        self.send_octets(alloc, place, from, to, &octets, ask, lines)
    }

    /// Asks the system at a place to send a unit of these octets, where it is a host.
    fn send_octets<L: LineSink>(
        &mut self,
        alloc: Global,
        place: usize,
        from: Address,
        to: Address,
        body: &[u8],
        ask: &Ask,
        lines: &mut L,
    ) -> Result<(), NoMemory>
        requires { FitsKind false (parameters ask.now.options) }
        ensures { OnOk result ((model : network.LabelledNetwork) → Holds self.old model
            → Follows self.new (L.taken lines.old) (L.taken lines.new)
            (network.asks model place (AsksToSend from to body.now ask.now))) }
    {
        if place >= self.systems.len() {
            return Ok(());
        }
        names_of_inputs(None, None);
        match self.systems[place].config().role() {
            Role::Router => Ok(()),
            Role::Host => {
                let input = Input::Send {
                    from,
                    to,
                    body,
                    ask,
                };
                self.comes(alloc, place, NO_FRAME, &input, lines)
            }
        }
    }

    /// Asks the system at a place, a host or a router, for an echo request.
    pub(super) fn echo<L: LineSink>(
        &mut self,
        alloc: Global,
        place: usize,
        from: Address,
        to: Address,
        body: &Body,
        lines: &mut L,
    ) -> Result<(), NoMemory>
        ensures { OnOk result ((model : network.LabelledNetwork) → Holds self.old model
            → Follows self.new (L.taken lines.old) (L.taken lines.new)
            (network.comes model place (AsksForEcho from to (octets_of body.now)))) }
    {
        let octets = body.octets(alloc)?;
        self.echo_octets(alloc, place, from, to, &octets, lines)
    }

    /// Asks the system at a place for an echo request with these octets.
    fn echo_octets<L: LineSink>(
        &mut self,
        alloc: Global,
        place: usize,
        from: Address,
        to: Address,
        body: &[u8],
        lines: &mut L,
    ) -> Result<(), NoMemory>
        ensures { OnOk result ((model : network.LabelledNetwork) → Holds self.old model
            → Follows self.new (L.taken lines.old) (L.taken lines.new)
            (network.comes model place (AsksForEcho from to body.now))) }
    {
        names_of_inputs(None, None);
        let input = Input::Echo { from, to, body };
        self.comes(alloc, place, NO_FRAME, &input, lines)
    }
}
