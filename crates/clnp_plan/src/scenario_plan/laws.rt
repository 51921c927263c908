//! A law of scenarios: it is the clause of a function that does nothing.

ghost use Rattle.std.specs.Prelude.{◌≡◌};
ghost use Rattle.clnp_plan.specs.ScenarioPlan.Migrated.{migrated};
ghost use Rattle.clnp_plan.specs.ScenarioPlan.Plan.{IsFit, Plan};

/// A scenario that is fit to be run is so in version 2, in which the clocks of one of version 1 tick together as they
/// did.
pub fn migrated_is_fit()
    ensures fit { (plan : Plan) → IsFit plan → IsFit (migrated plan) }
    ensures together { (plan : Plan) → IsFit plan → plan.version ≡ 1 → (migrated plan).limits.skew ≡ 0 }
{}
