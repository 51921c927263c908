//! Laws of what is written. Each law is the clause of a function that does nothing; one that calls others has their clauses
//! for its proof.

ghost use Rattle.std.specs.Prelude.{◌≡◌, ℕ, List, Ok};
ghost use Rattle.scenario.specs.ScenarioWriting.Canonical.{text_of};
ghost use Rattle.scenario.specs.Grammar.{plan_of};
ghost use Rattle.scenario.specs.ScenarioWriting.Migration.{migrated, migration_of};
ghost use Rattle.clnp_plan.specs.ScenarioPlan.Plan.{IsClosed, IsFit, Plan};
ghost use Rattle.scenario.specs.ScenarioWriting.Seeds.{storm};

pub use crate::laws::{accepted_is_fit, version_1_is_read_alike};

/// What is written of a scenario is read as that scenario.
pub fn what_is_written_is_read()
    ensures { (plan : Plan) → IsFit plan → plan_of (text_of plan) ≡ Ok plan }
{
    crate::nsaps::laws::text_reads_back();
}

/// What is written of a scenario that was read is read as the same scenario, and no two scenarios are written alike.
pub fn texts_and_scenarios()
    ensures again { (text : List ℕ) (plan : Plan) → plan_of text ≡ Ok plan → plan_of (text_of plan) ≡ Ok plan }
    ensures one_text { (plan other : Plan) → IsFit plan → IsFit other → text_of plan ≡ text_of other → plan ≡ other }
{
    accepted_is_fit();
    what_is_written_is_read();
}

/// The scenario of each seed is fit to be run, no frame comes from outside in it, and what is written of it is read as
/// that scenario: so what is so of each text that is a scenario is so of storms.
pub fn storms_are_scenarios()
    ensures fit { (seed : ℕ) → IsFit (storm seed) }
    ensures closed { (seed : ℕ) → IsClosed (storm seed) }
    ensures text { (seed : ℕ) → plan_of (text_of (storm seed)) ≡ Ok (storm seed) }
{
    accepted_is_fit();
    what_is_written_is_read();
}

/// A scenario that is fit to be run is so in version 2, in which the clocks of one of version 1 tick together as they
/// did, and what is written of it then is read as it.
pub fn migrated_is_fit()
    ensures fit { (plan : Plan) → IsFit plan → IsFit (migrated plan) }
    ensures together { (plan : Plan) → IsFit plan → plan.version ≡ 1 → (migrated plan).limits.skew ≡ 0 }
    ensures text { (plan : Plan) → IsFit plan → plan_of (text_of (migrated plan)) ≡ Ok (migrated plan) }
{
    crate::plans::laws::migrated_is_fit();
    what_is_written_is_read();
}

/// The text of each scenario of version 1, those of storms among them, becomes that of the scenario in version 2.
pub fn version_1_texts_migrate()
    ensures each { (plan : Plan) → IsFit plan → plan.version ≡ 1
        → migration_of (text_of plan) ≡ Ok (text_of (migrated plan)) }
    ensures storms { (seed : ℕ) → migration_of (text_of (storm seed)) ≡ Ok (text_of (migrated (storm seed))) }
{
    what_is_written_is_read();
    storms_are_scenarios();
}
