//! Laws of the grammar. Each law is the clause of a function that does nothing; one that calls others has their clauses
//! for its proof.

ghost use Rattle.std.specs.Prelude.{◌≡◌, ◌↔◌, ℕ, List, Option, Ok};
ghost use Rattle.clnp_plan.specs.ClnpBase.Text.{lines_of};
ghost use Rattle.scenario.specs.Grammar.{header_from, newest_version, plan_at, plan_of, plan_of_version_1, run_plan_of};
ghost use Rattle.scenario.specs.Versions.{IsReadAlike};
ghost use Rattle.clnp_plan.specs.ScenarioPlan.Plan.{IsFit, IsForBoard, Plan};

/// What the grammar accepts is fit to be run: its version, limits, settings and numbers are in their ranges, in version
/// 1 its clocks tick together, each name is a name of the grammar, each system has the addresses, ports and routes that
/// its role calls for, no name, address or SNPA on a subnetwork stands twice, and no prefix at a router, each port is
/// on a declared subnetwork and has its MTU, no two ports of a system are on one subnetwork, each prefix has up to 40
/// digits, each route leads out of a port that is there, events name declared systems, hosts alone are asked to send
/// data units, routers alone are said to be congested and get routes, each unit and each echo is asked for between
/// addresses, a data unit with a lifetime that an octet holds and options in their form, and none with an option that
/// an error report alone may have; a network changes in version 2 alone, what changes is there, at no moment are two
/// ports of a system on one subnetwork, is an address there that of two ports, has a router more than 256 routes, or
/// comes a clock by ticks of its own to stand further above another one than it may; events say only numbers, data and
/// options that a line may say, they are few, few copies are settled and lost, and few ticks pass.
pub fn accepted_is_fit()
    ensures { (text : List ℕ) (plan : Plan) → plan_of text ≡ Ok plan → IsFit plan }
{
    each_version_is_fit();
}

/// So is what is accepted where a version is the newest that is read, for a live node too.
pub(crate) fn each_version_is_fit()
    ensures { (links : Option ℕ) (newest : ℕ) (text : List ℕ) (plan : Plan)
        → plan_at links newest (lines_of text) ≡ Ok plan → IsFit plan }
{
    clnp_plan::options::laws::spelled_where_no_rule_is_broken();
    clnp_plan::nsaps::laws::read_is_address();
}

/// What is accepted for a live node on a board of so many links is what is accepted anyhow and is for that board: it
/// has one system, with a port for each link, and no events but those that a node takes.
pub fn accepted_for_run()
    ensures { (links : ℕ) (text : List ℕ) (plan : Plan)
        → (run_plan_of links text ≡ Ok plan) ↔ ((plan_of text ≡ Ok plan) × IsForBoard links plan) }
{}

/// The texts of version 1 are read alike, whether later versions are read too or not; where they aren't, the header of
/// version 2 is the first bad line.
pub fn version_1_is_read_alike()
    ensures accepted { (text : List ℕ) (plan : Plan)
        → (plan_of_version_1 text ≡ Ok plan) ↔ ((plan_of text ≡ Ok plan) × (plan.version ≡ 1)) }
    ensures alike { (text : List ℕ) → IsReadAlike text (header_from newest_version 1 (lines_of text)) }
{}
