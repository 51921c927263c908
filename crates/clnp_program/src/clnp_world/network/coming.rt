//! What comes to the systems.
ghost use Rattle.std.specs.Prelude.{◌≡◌, ◌≤◌, [], OnOk, Some, slice_get, vec_len};
ghost use Rattle.clnp_machine.specs.Content.{Content};
ghost use Rattle.clnp_machine.specs.ClnpNetwork.LabelledNetwork as network;
ghost use Rattle.clnp_systems.specs.Stands.{entity_of};
ghost use Rattle.clnp_systems.specs.Steps.{Carries, MayCome, input_with};
ghost use Rattle.clnp_systems.specs.declared.system.System.{System};
ghost use Rattle.clnp_program.specs.ClnpWorld.Parts.{Follows, Holds, IsTimely};
ghost use Rattle.clnp_program.specs.ClnpWorld.Stands.{IsMadeWithUnit};

use super::Network;
use crate::clnp_world::copy::Origin;
use crate::clnp_world::lines::LineSink;
use clnp_machine::base::NoMemory;
use clnp_machine::system_plan::{Ask, Output};
use clnp_machine::views::Frame;
use clnp_systems::Input;
use std::alloc::Global;

impl Network {
    /// Something comes to the system at a place, where there is one, and what the system gives out goes out. A frame that
    /// comes has the origin `came`; where none does, any origin serves.
    #[inline(always)]
    pub(super) fn comes<L: LineSink>(
        &mut self,
        alloc: Global,
        place: usize,
        came: Origin,
        input: &Input<'_>,
        lines: &mut L,
    ) -> Result<(), NoMemory>
        requires { (system : System) → slice_get self.old.systems.items place ≡ Some system
            → MayCome (entity_of system).moment input.now }
        ensures follows { OnOk result ((model : network.LabelledNetwork) (content : Content) → Holds self.old model → Carries input.now content
            → IsMadeWithUnit came content → IsTimely model place (input_with content input.now)
            → Follows self.new (L.taken lines.old) (L.taken lines.new) (network.comes model place (input_with content input.now))) }
        ensures systems { vec_len self.new.systems ≡ vec_len self.old.systems }
        ensures clock { self.new.clock ≡ self.old.clock }
        ensures copies { vec_len self.old.copies ≤ vec_len self.new.copies }
    {
        if place >= self.systems.len() {
            return Ok(());
        }
        // Its clause: what isn't forwarded is of a unit that the system itself made.
        clnp_machine::laws::first_transmissions_are_its_own();
        empty(&mut self.outputs);
        self.systems[place].step(alloc, input, &mut self.outputs)?;
        self.put_all_out(alloc, place, came, lines)
    }
}

/// Leaves no outputs. Mostly there are none, and then none are gone through.
#[inline(always)]
pub(super) fn empty(outputs: &mut Vec<Output>)
    ensures { outputs.new.items ≡ [] }
{
    if !outputs.is_empty() {
        outputs.clear();
    }
}

/// Names the types that an input may hold: the prover has to be told of them where an input is made. The function does nothing.
pub(super) fn names_of_inputs(_frame: Option<&Frame>, _ask: Option<&Ask>) {}
