//! Laws of what a trace tells of copies, and of networks that change. Each is the clause of a function that does
//! nothing.
ghost use Rattle.std.specs.Prelude.{◌≡◌, ℕ, List, Some, slice_get};
ghost use Rattle.clnp_machine.specs.ClnpPlan.declared.config.Limits.{Limits};
ghost use Rattle.clnp_machine.specs.System.{SystemState};
ghost use Rattle.clnp_machine.specs.ScenarioPlan.Plan.{Subnetwork};
ghost use Rattle.clnp_machine.specs.ClnpNetwork.LabelledNetwork.{Copy, Numbered, LabelledNetwork};
ghost use Rattle.clnp_program.specs.ClnpWorld.Becoming.{GivesAsTold, TellsOnce};
ghost use Rattle.clnp_program.specs.ClnpWorld.Changed.{FitsEachPort};

/// Of a copy that is passed it is told to each of its addressees once that it comes, and by which port, or that it is too old, in
/// the order of the declarations; or that it is for nobody, or lost. No copy is passed twice.
pub fn what_becomes_of_a_copy_is_told_once()
    ensures { (limits : Limits) (w : LabelledNetwork) (copy : Copy) → slice_get w.copies w.cursor ≡ Some copy
        → TellsOnce limits w copy }
{}

/// What the giving of a copy to a system writes begins with what is told of the copy, and behind that stands what came of it, up
/// to where something is told of a copy again.
pub fn a_giving_is_told_before_what_it_causes()
    ensures { (limits : Limits) (given : Numbered) (w : LabelledNetwork) (place : ℕ) (system : SystemState)
        → slice_get w.systems place ≡ Some system → GivesAsTold limits given w place system }
{}

/// Where the frames of a subnetwork may be of another length, each port on it takes such frames from then on, of whatever
/// system, and every other port is as it was.
pub fn each_port_takes_what_its_subnetwork_takes()
    ensures { (subnets : List Subnetwork) (w : LabelledNetwork) (subnet mtu : ℕ) (declared : Subnetwork)
        → slice_get subnets subnet ≡ Some declared
        → FitsEachPort subnets w subnet mtu }
{}
