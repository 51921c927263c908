//! Laws of the definitions: the grammar of the options part, stated as a relation, and its rules
//! agree; what a router's edits keep of the options. Each law is the clause of a function that does nothing.

ghost use Rattle.std.specs.Prelude.{◌≡◌, ◌↔◌, ◌+◌, ◌≤◌, ℕ, Bool, List, [], IsNone, IsSome, None, Some, length};
ghost use Rattle.pdus.specs.ClnpOptions.Parameter.{Parameter, parameters, spelled, source_route, recording, quality};
ghost use Rattle.pdus.specs.ClnpOptions.Edits.{edited, value_of, pointer_of, title_at, target_of, is_complete, route_left, advanced, recorded, marked, HaveOneForm};
ghost use Rattle.pdus.specs.ClnpOptions.Grammar.{IsTitle, IsSourceRoute, Spells, AreFormed, FitsKind, Forms};
ghost use Rattle.pdus.specs.ClnpOptions.Rules.{refusal, form_refusal, place_of_reason, Accepts, IsWellFormed, AreWellFormed};

/// A part breaks no rule, wherever it begins in its header, exactly where it is the spelling of a
/// list of options that a PDU of this kind may have; and that is one list only.
pub fn spelled_where_no_rule_is_broken()
    ensures spelled { (is_report : Bool) (part : List ℕ) (first : ℕ)
        → (refusal part first is_report ≡ None) ↔ ((options : List Parameter) × Spells is_report options part) }
    ensures accepts { (is_report : Bool) (part : List ℕ)
        → Accepts is_report part ↔ Spells is_report (parameters part) part }
    ensures from_spelling { (is_report : Bool) (options : List Parameter) (part : List ℕ)
        → Spells is_report options part → Accepts is_report part }
    ensures anywhere { (is_report : Bool) (part : List ℕ) (first : ℕ)
        → (refusal part first is_report ≡ None) ↔ Accepts is_report part }
    ensures one_list { (kind other_kind : Bool) (part : List ℕ) (options others : List Parameter)
        → Spells kind options part → Spells other_kind others part → options ≡ others }
{}

/// The same without the rule on reasons for discard, which alone depends on the kind of the PDU.
pub fn formed_where_no_form_rule_is_broken()
    ensures part { (part : List ℕ) (first : ℕ)
        → (form_refusal first part ≡ None) ↔ ((options : List Parameter) × Forms options part) }
    ensures well_formed { (part : List ℕ) → IsWellFormed part ↔ Forms (parameters part) part }
    ensures from_forms { (options : List Parameter) (part : List ℕ) → Forms options part → IsWellFormed part }
    ensures list { (options : List Parameter) → AreWellFormed options ↔ AreFormed options }
{}

/// What options spell is read as these options; no octets are no options.
pub fn spelled_options_read_back()
    ensures options { (options : List Parameter) → parameters (spelled options) ≡ options }
    ensures none { parameters [] ≡ [] }
    ensures no_octets { spelled [] ≡ [] }
{}

/// No rule on reasons for discard is broken exactly where a reason stands in a report alone.
pub fn reasons_stand_in_reports()
    ensures { (is_report : Bool) (options : List Parameter)
        → IsNone (place_of_reason is_report 1 options) ↔ FitsKind is_report options }
{}

/// A router's edits keep the options' codes, and the lengths of their values; options that agree in both are spelt by
/// the same number of octets.
pub fn edits_keep_the_form()
    ensures advanced { (options : List Parameter) → HaveOneForm (edited source_route advanced options) options }
    ensures recorded { (options : List Parameter) (title : List ℕ) → AreFormed options
        → HaveOneForm (edited recording (recorded title) options) options }
    ensures marked { (options : List Parameter) → HaveOneForm (edited quality marked options) options }
    ensures same { (options : List Parameter) → HaveOneForm options options }
    ensures chained { (first second third : List Parameter) → HaveOneForm first second → HaveOneForm second third
        → HaveOneForm first third }
    ensures len { (options others : List Parameter) → HaveOneForm options others
        → length (spelled options) ≡ length (spelled others) }
{}

/// Formed options stay formed, and as fit for the kind of their PDU, when a router edits them.
pub fn edits_keep_options_formed()
    ensures advanced { (options : List Parameter) → AreFormed options → IsSome (target_of options)
        → AreFormed (edited source_route advanced options) }
    ensures recorded { (options : List Parameter) (title : List ℕ) → AreFormed options → IsTitle title
        → AreFormed (edited recording (recorded title) options) }
    ensures marked { (options : List Parameter) → AreFormed options → AreFormed (edited quality marked options) }
    ensures kind { (is_report : Bool) (code : ℕ) (change : List ℕ → List ℕ) (options : List Parameter)
        → FitsKind is_report options → FitsKind is_report (edited code change options) }
{}

/// An edit of other options leaves the source route as it is, and moving its pointer leaves it partial or complete.
pub fn edits_leave_the_source_route()
    ensures target_recorded { (change : List ℕ → List ℕ) (options : List Parameter)
        → target_of (edited recording change options) ≡ target_of options }
    ensures target_marked { (change : List ℕ → List ℕ) (options : List Parameter)
        → target_of (edited quality change options) ≡ target_of options }
    ensures complete_recorded { (change : List ℕ → List ℕ) (options : List Parameter)
        → is_complete (edited recording change options) ≡ is_complete options }
    ensures complete_marked { (change : List ℕ → List ℕ) (options : List Parameter)
        → is_complete (edited quality change options) ≡ is_complete options }
    ensures complete_advanced { (options : List Parameter)
        → is_complete (edited source_route advanced options) ≡ is_complete options }
{}

/// A source route leads to a title of 1 to 20 octets; its pointer moves on from each, and no further than behind the
/// route's last octet. So fewer of its octets are left.
pub fn a_source_route_leads_on()
    ensures title { (options : List Parameter) (title : List ℕ) → AreFormed options → target_of options ≡ Some title
        → IsTitle title }
    ensures form { (options : List Parameter) (value : List ℕ) → AreFormed options
        → value_of source_route options ≡ Some value → IsSourceRoute value }
    ensures moved { (options : List Parameter) (value : List ℕ) → value_of source_route options ≡ Some value
        → value_of source_route (edited source_route advanced options) ≡ Some (advanced value) }
    ensures further { (value : List ℕ) → IsSourceRoute value → pointer_of value + 1 ≤ pointer_of (advanced value) }
    ensures within { (value : List ℕ) → IsSourceRoute value → IsSome (title_at value)
        → pointer_of (advanced value) ≤ length value + 1 }
    ensures left { (options : List Parameter) → AreFormed options → IsSome (target_of options)
        → route_left (edited source_route advanced options) + 1 ≤ route_left options }
{}
