//! Laws of the definitions: what hearings come to. Each law is the clause of a function that does nothing.
ghost use Rattle.std.specs.Prelude.{◌≡◌, ◌≤◌, ◌<◌, ◌&&◌, ℕ, List, [], ◌∷◌, ◌++◌, Some, false, is_none, is_some, length};
ghost use Rattle.std.specs.List.{AllByRecursion, list_any};
ghost use Rattle.std.specs.Str.{bytes_eq};
ghost use Rattle.system_tables.specs.declared.esis_tables.fact.EsisLimits.{EsisLimits};
ghost use Rattle.system_tables.specs.declared.esis_tables.fact.TableKind.{TableKind};
ghost use Rattle.system_tables.specs.declared.esis_tables.fact.TableKind.TheVariants.{Es, Is, Rd};
ghost use Rattle.system_tables.specs.declared.esis_tables.tables.Tables.{Tables};
ghost use Rattle.system_tables.specs.EsisTables.Claims.{NeverFall, heard_all};
ghost use Rattle.system_tables.specs.EsisTables.Fact.{Fact, after, current, currents, end_of, is_about, limit_of};
ghost use Rattle.system_tables.specs.EsisTables.Gone.{gone, gone_keys};
ghost use Rattle.system_tables.specs.EsisTables.NextHop.{next_hop};
ghost use Rattle.system_tables.specs.EsisTables.Order.{IsRising};
ghost use Rattle.system_tables.specs.EsisTables.Stands.{Stands};

/// A redirect that is heard changes the next hop of its destination alone: of every other destination the redirect is as before,
/// and of all addresses the end system, and the intermediate systems that are known.
pub fn a_redirect_changes_its_destination_alone()
    ensures redirects { (limits : EsisLimits) (heard : Fact) (facts : List Fact) (now : ℕ) (destination : List ℕ)
        → heard.table ≡ Rd → (heard.key ≡ destination → ⊥)
        → current now Rd destination (after limits heard facts) ≡ current now Rd destination facts }
    ensures systems { (limits : EsisLimits) (heard : Fact) (facts : List Fact) (now : ℕ) (key : List ℕ)
        → heard.table ≡ Rd → current now Es key (after limits heard facts) ≡ current now Es key facts }
    ensures routers { (limits : EsisLimits) (heard : Fact) (facts : List Fact) (now : ℕ)
        → heard.table ≡ Rd → currents now Is (after limits heard facts) ≡ currents now Is facts }
    ensures next_hop { (limits : EsisLimits) (heard : Fact) (facts : List Fact) (now : ℕ) (destination : List ℕ)
        → heard.table ≡ Rd → (heard.key ≡ destination → ⊥)
        → next_hop now destination (after limits heard facts) ≡ next_hop now destination facts }
{}

/// Whatever is heard and whenever, no table ever has more current keys than it may keep.
pub fn no_limit_is_passed()
    ensures { (limits : EsisLimits) (hearings : List Fact) (now : ℕ) (table : TableKind) → NeverFall 0 hearings now
        → length (currents now table (heard_all limits hearings)) ≤ limit_of table limits }
{}

/// What was heard is current until its time has ended, unless its key is heard of again.
pub fn what_was_heard_holds()
    ensures { (earlier later : List Fact) (fact : Fact) (now : ℕ)
        → AllByRecursion (λ other. is_about fact.table fact.key other ≡ false) later → now < end_of fact
        → current now fact.table fact.key (earlier ++ fact ∷ later) ≡ Some fact }
{}

/// The keys that are gone between two moments rise, and are those with a current fact at the first and none at the second.
pub fn gone_are_those_that_ended()
    ensures rising { (before now : ℕ) (table : TableKind) (facts : List Fact)
        → IsRising (λ key. key) (gone_keys before now table facts) }
    ensures those { (before now : ℕ) (table : TableKind) (facts : List Fact) (key : List ℕ)
        → before ≤ now → list_any (λ other. bytes_eq other key) (gone_keys before now table facts)
        ≡ (is_some (current before table key facts) && is_none (current now table key facts)) }
{}

/// When time goes on, tables with nothing left to be flushed stand for the same facts, with the keys left that are gone.
pub fn time_goes_on()
    ensures { (tables : Tables) (facts : List Fact) (before now : ℕ) → Stands tables facts before [] → before ≤ now
        → Stands tables facts now (gone before now facts) }
{}
