//! Laws of the definitions: the grammar of ES-IS PDUs, stated as a relation between a value and its
//! octets, and the rules E1 to E12 agree. Each law is the clause of a function that does nothing.
ghost use Rattle.hex.specs.Hex.{IsBytes};
ghost use Rattle.pdus.specs.EsisPdus.Grammar.{BeginsWith};
ghost use Rattle.pdus.specs.EsisPdus.Rules.{refusal};
ghost use Rattle.pdus.specs.EsisPdus.Value.{EsisValue};
ghost use Rattle.pdus.specs.Fletcher.Checksum.{octet};
ghost use Rattle.std.specs.Prelude.{◌≡◌, ◌↔◌, ℕ, List, None};

/// Of a frame at most one prefix spells a value, and it spells one value only.
pub fn one_value()
    ensures { (frame : List ℕ) (v w : EsisValue) (rest others : List ℕ) → BeginsWith frame v rest
        → BeginsWith frame w others → (v ≡ w) × (rest ≡ others) }
{}

/// A frame of octets that begins with 0x82 breaks no rule exactly where a prefix of it spells a value;
/// and a frame of which a prefix spells a value begins with 0x82.
pub fn spelled_where_no_rule_is_broken()
    ensures spelled { (frame : List ℕ) → IsBytes frame → octet frame 1 ≡ 0x82
        → (refusal frame ≡ None) ↔ ((v : EsisValue) × (rest : List ℕ) × BeginsWith frame v rest) }
    ensures protocol { (frame : List ℕ) (v : EsisValue) (rest : List ℕ) → BeginsWith frame v rest
        → octet frame 1 ≡ 0x82 }
{}
