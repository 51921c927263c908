//! Scenario texts of version 1 in version 2.
ghost use Rattle.std.specs.Prelude.{◌≡◌, ◌-◌, ◌^◌, ◌<◌, length, IfOk, Ok, MatchResult};
ghost use Rattle.clnp_plan.specs.ClnpBase.Text.{lines_of};
ghost use Rattle.scenario.specs.Grammar.{plan_of, plan_of_version_1};
ghost use Rattle.scenario.specs.ScenarioWriting.Migration.{migrated, migration_of};
ghost use Rattle.scenario.specs.Refusal.{Refuses};

use crate::scenario_writing::writer::write;
use crate::{ScenarioRefusal, read_version_1};
use std::alloc::Global;

/// The text that a scenario text of version 1 becomes in version 2: `write` of the same scenario.
///
/// # Errors
///
/// As `read_version_1`.
pub fn migrate(alloc: Global, text: &[u8]) -> Result<Vec<u8>, ScenarioRefusal>
    requires { length (lines_of text.now) < 2 ^ 32 - 1 }
    ensures written { MatchResult result (λ out. migration_of text.now ≡ Ok out.items)
        (λ refusal. Refuses refusal (migration_of text.now)) }
    ensures read_back { IfOk result (λ out. IfOk (plan_of_version_1 text.now)
        (λ plan. plan_of out.items ≡ Ok (migrated plan))) }
{
    let scenario = read_version_1(alloc, text)?;
    let scenario = scenario.migrate();
    let mut out = Vec::new(alloc);
    if write(alloc, &scenario, &mut out).is_err() {
        return Err(ScenarioRefusal::NoMemory);
    }
    Ok(out)
}
