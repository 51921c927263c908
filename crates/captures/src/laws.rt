//! Laws of the definitions. Each law is the clause of a function that does nothing.

ghost use Rattle.std.specs.Prelude.{◌≡◌, ℕ, List};
ghost use Rattle.hex.specs.Hex.{IsBytes};
ghost use Rattle.captures.specs.Shown.{Shows};
ghost use Rattle.captures.specs.Vectors.{Judges};

use crate::vector::Verdict;
use pdus::esis_pdus::clnp::laws as clnp;
use pdus::esis_pdus::laws as esis;

/// Each frame of octets is shown by one line, and by no other.
pub fn one_line()
    ensures some { (frame : List ℕ) → IsBytes frame → (line : List ℕ) × Shows frame line }
    ensures one { (frame line other : List ℕ) → Shows frame line → Shows frame other → line ≡ other }
{
    // Their clauses: a frame of either protocol has one value, exactly where it breaks no rule.
    clnp::one_value();
    clnp::spelled_where_no_rule_is_broken();
    esis::one_value();
    esis::spelled_where_no_rule_is_broken();
}

/// Each vector whose frame is of octets has one verdict and one text of it, and no others.
pub fn one_verdict()
    ensures some { (number : ℕ) (octets expected : List ℕ) → IsBytes octets
        → (verdict : Verdict) × ((text : List ℕ) × Judges number octets expected verdict text) }
    ensures one { (number : ℕ) (octets expected : List ℕ) (verdict other : Verdict) (text another : List ℕ)
        → Judges number octets expected verdict text → Judges number octets expected other another
        → (verdict ≡ other) × (text ≡ another) }
{
    // Its clause: a frame has one line.
    one_line();
}
