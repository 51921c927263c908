//! Laws of the definitions. Each law is the clause of a function that does nothing.
ghost use Rattle.std.specs.Prelude.{◌≡◌, ℕ, Bool, false, List, Some};
ghost use Rattle.pdus.specs.PduHeader.Grammar.{BeginsWith, IsPdu};
ghost use Rattle.pdus.specs.PduHeader.Rules.{header_of, is_reportable, kind_of, type_of};
ghost use Rattle.pdus.specs.PduHeader.Value.{PduValue};
ghost use Rattle.pdus.specs.declared.pdu_header.kind.Kind.TheVariants.{Er};
ghost use Rattle.pdus.specs.MadePdus.Report.{report_of};
ghost use Rattle.pdus.specs.MadePdus.Told.{Tells, cause_in, place_in};

/// The discard of an error report is never reported, be it whole or damaged; nor is that of a report that is made
/// here, so there is no report of a report (ISO 8473, section 6.10).
pub fn no_report_of_a_report()
    ensures any { (frame : List ℕ) → kind_of (type_of (header_of frame)) ≡ Some Er → is_reportable frame ≡ false }
    ensures made { (frame own : List ℕ) (cause place life : ℕ) (is_sealed : Bool) (octets rest : List ℕ)
        → BeginsWith octets (report_of frame own cause place life is_sealed) rest → is_reportable octets ≡ false }
{
    // Its clause: a frame is reported as the value says that it begins with.
    crate::pdu_header::laws::reportable_where_wanted();
}

/// A report that is made tells the reason and the place that it was made with, and the header of the discarded PDU, and
/// nothing else.
pub fn a_made_report_is_read_again()
    ensures tells { (frame own : List ℕ) (cause place life : ℕ) (is_sealed : Bool)
        → Tells (report_of frame own cause place life is_sealed) cause place (header_of frame) }
    ensures cause { (frame own : List ℕ) (cause place life : ℕ) (is_sealed : Bool)
        → cause_in (report_of frame own cause place life is_sealed).options ≡ cause }
    ensures place { (frame own : List ℕ) (cause place life : ℕ) (is_sealed : Bool)
        → place_in (report_of frame own cause place life is_sealed).options ≡ place }
{}

/// An error report tells one reason, one place and one header.
pub fn a_report_tells_one_discard()
    ensures some { (v : PduValue) → IsPdu v → v.kind ≡ Er → Tells v (cause_in v.options) (place_in v.options) v.body }
    ensures only { (v : PduValue) (cause place : ℕ) (discarded : List ℕ) → IsPdu v → Tells v cause place discarded
        → (cause ≡ cause_in v.options) × (place ≡ place_in v.options) × (discarded ≡ v.body) }
{}
