//! Laws of the definitions: the grammar of PDUs, stated as a relation between a value and its octets,
//! and the rules G1 to G20 agree; a router's edits keep what is a PDU. Each law is the clause of a function
//! that does nothing.
ghost use Rattle.pdus.specs.ClnpOptions.Edits.{advanced, edited, marked, recorded, target_of};
ghost use Rattle.pdus.specs.ClnpOptions.Parameter.{quality, recording, source_route, spelled};
ghost use Rattle.pdus.specs.declared.clnp_options.judge.OptionRefusal.{OptionRefusal};
ghost use Rattle.pdus.specs.Fletcher.Checksum.{with_checksum};
ghost use Rattle.pdus.specs.Fletcher.Laws.{HasChecksum};
ghost use Rattle.hex.specs.Hex.{IsBytes};
ghost use Rattle.pdus.specs.Nsap.Address.{IsAddress};
ghost use Rattle.pdus.specs.PduHeader.Account.{IsLaidOut};
ghost use Rattle.pdus.specs.PduHeader.Grammar.{BeginsWith, IsPdu, Spells, is_report};
ghost use Rattle.pdus.specs.PduHeader.Headers.{SpellsHeader, with_options};
ghost use Rattle.pdus.specs.PduHeader.Reading.{value_of};
ghost use Rattle.pdus.specs.PduHeader.Rules.{is_reportable, is_unfit_range, octet, refusal};
ghost use Rattle.pdus.specs.PduHeader.Segment.{FitsRange};
ghost use Rattle.pdus.specs.PduHeader.Spelling.{header, header_length, segmentation_octets};
ghost use Rattle.pdus.specs.PduHeader.Table.{AreKept, IsLeastBroken, table};
ghost use Rattle.pdus.specs.PduHeader.Value.{PduValue, SegmentationPart};
ghost use Rattle.std.specs.Prelude.{◌≡◌, ◌↔◌, ◌&&◌, ◌+◌, ◌-◌, ◌<◌, ℕ, Bool, false, IsSome, List, None, Some, length, nat_lt, not};

/// Of a frame at most one prefix spells a value, and it spells one value only.
pub fn one_value()
    ensures { (frame : List ℕ) (v w : PduValue) (rest others : List ℕ) → BeginsWith frame v rest
        → BeginsWith frame w others → (v ≡ w) × (rest ≡ others) }
{}

/// A frame of octets that begins with 0x81 breaks no rule exactly where a prefix of it spells a value;
/// and a frame of which a prefix spells a value begins with 0x81.
pub fn spelled_where_no_rule_is_broken()
    ensures spelled { (frame : List ℕ) → IsBytes frame → octet frame 1 ≡ 0x81
        → (refusal frame ≡ None) ↔ ((v : PduValue) × (rest : List ℕ) × BeginsWith frame v rest) }
    ensures protocol { (frame : List ℕ) (v : PduValue) (rest : List ℕ) → BeginsWith frame v rest
        → octet frame 1 ≡ 0x81 }
{}

/// A frame of which a prefix spells a value is reported where it is discarded exactly where the value
/// wants a report and isn't one.
pub fn reportable_where_wanted()
    ensures { (frame : List ℕ) (v : PduValue) (rest : List ℕ) → BeginsWith frame v rest
        → is_reportable frame ≡ (v.report && not (is_report v.kind)) }
{}

/// A header tells the value of a PDU that it is the header of, but for what the data hold.
pub fn a_header_tells_its_value()
    ensures value { (v : PduValue) (octets : List ℕ) → SpellsHeader v octets → v ≡ value_of octets v.body }
{}

/// The octets that spell a value are those of the layout behind any two checksum octets that the value wants: the
/// header is sealed exactly where the value wants a checksum, and has both octets 0 where it wants none; and no other
/// two octets would do.
pub fn the_checksum_is_as_wanted()
    ensures account { (v : PduValue) (octets : List ℕ) → Spells v octets ↔ IsLaidOut v octets }
    ensures wanted { (v : PduValue) (octets : List ℕ) → SpellsHeader v octets → HasChecksum v.sealed octets }
    ensures exactly { (v : PduValue) (octets : List ℕ) (is_sealed : Bool) → SpellsHeader v octets
        → HasChecksum is_sealed octets → is_sealed ≡ v.sealed }
    ensures no_other { (v : PduValue) (octets : List ℕ) (x y : ℕ) → SpellsHeader v octets → x < 256 → y < 256
        → HasChecksum v.sealed (with_checksum octets x y) → with_checksum octets x y ≡ octets }
{
    // Their clauses: one pair of octets seals a header, and what is sealed keeps its other octets.
    crate::fletcher::laws::one_checksum();
    crate::fletcher::laws::sealed_is_unique();
    crate::fletcher::laws::sealed_keeps_others();
}

/// A frame is refused by the least of the twenty rules in the table that it breaks, with that rule's reason and place,
/// and by none exactly where it breaks none.
pub fn the_least_broken_rule_is_told()
    ensures refused { (frame : List ℕ) (told : OptionRefusal)
        → (refusal frame ≡ Some told) ↔ IsLeastBroken (table frame) told }
    ensures kept { (frame : List ℕ) → (refusal frame ≡ None) ↔ AreKept (table frame) }
    ensures twenty { (frame : List ℕ) → length (table frame) ≡ 20 }
{}

/// A header has its length, which the lengths of its parts make up.
pub fn a_header_has_its_length()
    ensures header { (v : PduValue) → length (header v) ≡ header_length v }
    ensures parts { (v : PduValue) → header_length v
        ≡ 11 + length v.destination + length v.source + length (segmentation_octets v.segmentation)
        + length (spelled v.options) }
{}

/// The test of a range of data says what fits, and more follows a PDU's data exactly where its unit goes on behind
/// them.
pub fn more_follows_where_the_unit_goes_on()
    ensures test { (head_len data_len : ℕ) (more : Bool) (part : SegmentationPart)
        → (is_unfit_range head_len part.total (part.offset + data_len) more ≡ false)
        ↔ FitsRange head_len data_len more part }
    ensures more { (v : PduValue) (part : SegmentationPart) → IsPdu v → v.segmentation ≡ Some part
        → v.more ≡ nat_lt (part.offset + length v.body) (part.total - header_length v) }
{}

/// What a router makes of the options of a PDU is the options of a PDU.
pub fn edited_pdus_are_pdus()
    ensures advanced { (v : PduValue) → IsPdu v → IsSome (target_of v.options)
        → IsPdu (with_options (edited source_route advanced v.options) v) }
    ensures recorded { (v : PduValue) (title : List ℕ) → IsPdu v → IsAddress title
        → IsPdu (with_options (edited recording (recorded title) v.options) v) }
    ensures marked { (v : PduValue) → IsPdu v → IsPdu (with_options (edited quality marked v.options) v) }
{}
