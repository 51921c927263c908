//! The network that a caller moves: each move whole or not at all.
ghost use Rattle.std.specs.Prelude.{◌≡◌, ◌+◌, ◌<◌, ◌≤◌, ◌^◌, ℕ, ◌++◌, IfErr, IfNone, IfOk, IfSome, Err, MatchOption, OnOk, OnErr, Some, false, length, nat_le, slice_get, true};
ghost use Rattle.clnp_machine.specs.System.{SystemState};
ghost use Rattle.clnp_machine.specs.ClnpNetwork.Run.{told_lines, world_end};
ghost use Rattle.clnp_machine.specs.ClnpNetwork.LabelledNetwork as network;
ghost use Rattle.clnp_machine.specs.ClnpPlan.declared.config.Role.TheVariants as role;
ghost use Rattle.clnp_systems.specs.Stands.{configuration_of};
ghost use Rattle.clnp_systems.specs.declared.system.System.{System};
ghost use Rattle.clnp_systems.specs.declared.system.System.TheVariants as variant;
ghost use Rattle.clnp_program.specs.ClnpWorld.Lines.{Gains, risen, tally};
ghost use Rattle.clnp_program.specs.ClnpWorld.Stands.{IsDeclared, IsLeftBy, Stands, TellsFull};
ghost use Rattle.clnp_program.specs.declared.clnp_world.world.WorldRefusal.TheVariants.{NoMemory as WantsMemory};
ghost use Rattle.clnp_systems.specs.EndSystem.Stands as end_system;
ghost use Rattle.clnp_systems.specs.Router.Stands as router_stands;

use crate::clnp_world::lines::{Counts, LineSink};
use crate::clnp_world::network::Network;
use crate::clnp_world::writing::{Front, Writing};
use clnp_machine::base::NoMemory;
use clnp_machine::clnp_network::scenarios::{Move, Scenario};
use clnp_machine::system_plan::{Telling, push_end};
use clnp_systems::{EndSystem, Router};
use std::alloc::Global;
use std::marker::{Brand, Model, PhantomData};
use std::mem;

/// The weight of the copies, in octets, from which on no move is made.
const MOST_WEIGHT: u64 = 268_435_456;

/// Why a move isn't made.
#[derive(Clone, Copy)]
pub enum WorldRefusal {
    /// The copies weigh too much: so many octets.
    WorldFull { octets: u64 },
    /// Memory was refused.
    NoMemory,
}

/// A simulated network between two moves.
///
/// Once memory was refused in a move it is spent: every later move is refused too.
#[derive(Drop)]
pub struct World {
    network: Network,
    spent: bool,
}

impl Model for World {
    ghost use Rattle.clnp_program.specs.ClnpWorld.State.{WorldState};
    ghost use Rattle.std.specs.Coded.{codes};
    ghost use Rattle.clnp_systems.specs.contracts.system.System.{the_row as row_of_systems};

    ghost Value = { WorldState };

    ghost coded = { Prim.hlevel (codes, row_of_systems.coded) };

    ghost use Rattle.clnp_program.specs.ClnpWorld.Stands.{IsSound};
    ghost use Rattle.clnp_program.specs.ClnpWorld.Parts.{state_of};

    ghost view = { λ w. record { network = state_of w.network; spent = w.spent } };

    ghost invariant = { λ w. IsSound (record { network = state_of w.network; spent = w.spent }) };
}

impl World {
    /// The network of a scenario's declarations, at the start.
    ///
    /// # Errors
    ///
    /// `NoMemory`.
    pub fn new(alloc: Global, scenario: &Scenario) -> Result<World, NoMemory>
        ensures { IfOk result (λ world. Stands world (network.first_world scenario.now)) }
    {
        let network = Network::new(alloc, scenario)?;
        Ok(World {
            network,
            spent: false,
        })
    }

    /// Makes one move, and appends its lines to a journal or a trace.
    ///
    /// # Errors
    ///
    /// `WorldFull` exactly where the copies weigh 268,435,456 octets or more before the move: nothing changes then.
    /// `NoMemory`: the text is then as it was, and the network is spent, at the moment at which it was.
    pub fn step(
        &mut self,
        alloc: Global,
        scenario: &Scenario,
        mv: &Move,
        telling: Telling,
        out: &mut Vec<u8>,
    ) -> Result<(), WorldRefusal>
        requires { self.old.network.clock + 1 < 2 ^ 62 }
        // Whatever network of the model this one stands for, it stands for the one after the move.
        ensures stands { OnOk result ((model : network.LabelledNetwork) → Stands self.old model
            → Stands self.new (network.after scenario.now model mv.now).world) }
        ensures lines { OnOk result ((model : network.LabelledNetwork) → Stands self.old model
            → out.new.items ≡ out.old.items ++ told_lines telling (network.after scenario.now model mv.now).lines) }
        ensures full { (model : network.LabelledNetwork) → Stands self.old model → TellsFull model result }
        ensures same { OnErr result (out.new.items ≡ out.old.items) }
        ensures left { IfErr result (λ e. IsLeftBy e self.old self.new) }
        ensures clock { OnErr result (self.new.network.clock ≡ self.old.network.clock) }
        ensures refused { self.old.spent ≡ true → result ≡ Err WantsMemory }
    {
        self.write::<Brand>(alloc, scenario, mv, telling, out)
    }

    /// Makes one move, and writes its lines behind a text.
    fn write<K: Front>(
        &mut self,
        alloc: Global,
        scenario: &Scenario,
        mv: &Move,
        telling: Telling,
        out: &mut Vec<u8>,
    ) -> Result<(), WorldRefusal>
        requires clock { self.old.network.clock + 1 < 2 ^ 62 }
        requires front { out.old.items ≡ K.front }
        ensures stands { OnOk result ((model : network.LabelledNetwork) → Stands self.old model
            → Stands self.new (network.after scenario.now model mv.now).world) }
        ensures lines { OnOk result ((model : network.LabelledNetwork) → Stands self.old model
            → out.new.items ≡ out.old.items ++ told_lines telling (network.after scenario.now model mv.now).lines) }
        ensures full { (model : network.LabelledNetwork) → Stands self.old model → TellsFull model result }
        ensures same { OnErr result (out.new.items ≡ out.old.items) }
        ensures left { IfErr result (λ e. IsLeftBy e self.old self.new) }
        ensures clock { OnErr result (self.new.network.clock ≡ self.old.network.clock) }
        ensures refused { self.old.spent ≡ true → result ≡ Err WantsMemory }
    {
        let len = out.len();
        let mut lines = Writing::<K> {
            telling,
            text: mem::replace(out, Vec::new(alloc)),
            behind: PhantomData,
        };
        let made = self.make_move(alloc, scenario, mv, &mut lines);
        *out = lines.text;
        if made.is_err() {
            out.truncate(len);
        }
        made
    }

    /// Makes one move, and counts its lines: what [`World::step`] would write is written nowhere.
    ///
    /// # Errors
    ///
    /// Those of [`World::step`], where it answers them; the counts are then as they were.
    pub fn count_step(
        &mut self,
        alloc: Global,
        scenario: &Scenario,
        mv: &Move,
        counts: &mut Counts,
    ) -> Result<(), WorldRefusal>
        requires { self.old.network.clock + 1 < 2 ^ 62 }
        ensures stands { OnOk result ((model : network.LabelledNetwork) → Stands self.old model
            → Stands self.new (network.after scenario.now model mv.now).world) }
        ensures counted { OnOk result ((model : network.LabelledNetwork) → Stands self.old model
            → counts.new ≡ risen counts.old (tally (network.after scenario.now model mv.now).lines)) }
        ensures full { (model : network.LabelledNetwork) → Stands self.old model → TellsFull model result }
        ensures same { OnErr result (counts.new ≡ counts.old) }
        ensures left { IfErr result (λ e. IsLeftBy e self.old self.new) }
        ensures clock { OnErr result (self.new.network.clock ≡ self.old.network.clock) }
        ensures refused { self.old.spent ≡ true → result ≡ Err WantsMemory }
    {
        let mut lines = *counts;
        self.make_move(alloc, scenario, mv, &mut lines)?;
        *counts = lines;
        Ok(())
    }

    /// Makes one move, and its lines. Where memory is refused, some of them may have been taken.
    fn make_move<L: LineSink>(
        &mut self,
        alloc: Global,
        scenario: &Scenario,
        mv: &Move,
        lines: &mut L,
    ) -> Result<(), WorldRefusal>
        requires { self.old.network.clock + 1 < 2 ^ 62 }
        ensures stands { OnOk result ((model : network.LabelledNetwork) → Stands self.old model
            → Stands self.new (network.after scenario.now model mv.now).world) }
        ensures lines { OnOk result ((model : network.LabelledNetwork) → Stands self.old model
            → Gains (L.taken lines.old) (L.taken lines.new) (network.after scenario.now model mv.now).lines) }
        ensures full { (model : network.LabelledNetwork) → Stands self.old model → TellsFull model result }
        ensures left { IfErr result (λ e. IsLeftBy e self.old self.new) }
        ensures clock { OnErr result (self.new.network.clock ≡ self.old.network.clock) }
        ensures refused { self.old.spent ≡ true → result ≡ Err WantsMemory }
    {
        self.may_move()?;
        let clock = self.network.clock;
        match self.network.make_move(alloc, scenario, mv, lines) {
            Ok(()) => Ok(()),
            Err(NoMemory) => {
                self.spent = true;
                self.network.clock = clock;
                Err(WorldRefusal::NoMemory)
            }
        }
    }

    /// Whether a move may be made: memory was never refused, and the copies don't weigh too much.
    fn may_move(&self) -> Result<(), WorldRefusal>
        ensures spent { OnOk result (self.now.spent ≡ false) }
        ensures full { (model : network.LabelledNetwork) → Stands self.now model → TellsFull model result }
        ensures left { IfErr result (λ e. IsLeftBy e self.now self.now) }
        ensures refused { self.now.spent ≡ true → result ≡ Err WantsMemory }
    {
        if self.spent {
            return Err(WorldRefusal::NoMemory);
        }
        let octets = self.network.weight;
        if octets >= MOST_WEIGHT {
            return Err(WorldRefusal::WorldFull { octets });
        }
        Ok(())
    }

    /// Whether each copy was settled or lost: to settle or to lose one more changes nothing then.
    pub fn is_settled(&self) -> bool
        ensures settled { result ≡ nat_le (length self.now.network.copies) self.now.network.cursor }
        ensures stands { (model : network.LabelledNetwork) → Stands self.now model
            → result ≡ nat_le (length model.copies) model.cursor }
    {
        self.network.cursor >= self.network.copies.len()
    }

    /// The clock, in ticks of 500 ms.
    pub fn clock(&self) -> u64
        ensures clock { result ≡ self.now.network.clock }
        ensures stands { (model : network.LabelledNetwork) → Stands self.now model → result ≡ model.clock }
    {
        self.network.clock
    }

    /// How many copies of frames were made.
    pub fn copies(&self) -> u64
        ensures { (model : network.LabelledNetwork) → Stands self.now model → result ≡ length model.copies }
    {
        self.network.copies.len() as u64
    }

    /// What the copies weigh: the octets of their frames, and 64 for each.
    pub fn weight(&self) -> u64
        ensures { (model : network.LabelledNetwork) → Stands self.now model → result ≡ network.weight model }
    {
        self.network.weight
    }

    /// The host that was declared at a place, from 0; none where no system was, or a router.
    pub fn host(&self, at: usize) -> Option<&EndSystem>
        ensures declared { (model : network.LabelledNetwork) → Stands self.now model
            → MatchOption result (IsDeclared model at role.Host → ⊥) (λ host. IsDeclared model at role.Host) }
        ensures none { IfNone result ((system : System) → slice_get self.now.network.systems at ≡ Some system
            → (configuration_of system).role ≡ role.Router) }
        ensures host { IfSome result (λ host. slice_get self.now.network.systems at ≡ Some (variant.Host host.now)) }
        ensures stands { IfSome result (λ host. (model : network.LabelledNetwork) → Stands self.now model
            → (system : SystemState) → slice_get model.systems at ≡ Some system → end_system.Stands host.now system) }
    {
        match self.network.systems.get(at) {
            Some(system) => system.as_host(),
            None => None,
        }
    }

    /// The router that was declared at a place, from 0; none where no system was, or a host.
    pub fn router(&self, at: usize) -> Option<&Router>
        ensures declared { (model : network.LabelledNetwork) → Stands self.now model
            → MatchOption result (IsDeclared model at role.Router → ⊥) (λ router. IsDeclared model at role.Router) }
        ensures none { IfNone result ((system : System) → slice_get self.now.network.systems at ≡ Some system
            → (configuration_of system).role ≡ role.Host) }
        ensures router { IfSome result (λ router. slice_get self.now.network.systems at ≡ Some (variant.Router router.now)) }
        ensures stands { IfSome result (λ router. (model : network.LabelledNetwork) → Stands self.now model
            → (system : SystemState) → slice_get model.systems at ≡ Some system
            → router_stands.Stands router.now system) }
    {
        match self.network.systems.get(at) {
            Some(system) => system.as_router(),
            None => None,
        }
    }

    /// Appends the last line of a journal or a trace.
    ///
    /// # Errors
    ///
    /// `NoMemory`; the journal is then as it was.
    pub fn finish(&self, alloc: Global, journal: &mut Vec<u8>) -> Result<(), NoMemory>
        ensures written { OnOk result ((model : network.LabelledNetwork) → Stands self.now model
            → journal.new.items ≡ journal.old.items ++ world_end model) }
        ensures same { OnErr result (journal.new.items ≡ journal.old.items) }
    {
        push_end(
            alloc,
            self.network.clock,
            self.network.copies.len() as u64,
            journal,
        )
    }
}
