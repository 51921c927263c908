//! Laws of the definitions: what cutting comes to. Each law is the clause of a function that does nothing.
ghost use Rattle.std.specs.Prelude.{◌≡◌, ◌+◌, ◌≤◌, ℕ, List, ◌∷◌, [], IfSome, Some, length, map};
ghost use Rattle.std.specs.List.{AllByRecursion};
ghost use Rattle.pdus.specs.PduHeader.Value.{PduValue, SegmentationPart};
ghost use Rattle.pdus.specs.PduHeader.Grammar.{IsPdu};
ghost use Rattle.pdus.specs.PduHeader.Spelling.{header_length};
ghost use Rattle.pdus.specs.MadePdus.Range.{Partition, Range, Tiles};
ghost use Rattle.pdus.specs.MadePdus.Cut.{cut, cut_through, data_room, ranges, segment, uncut, whole_range};
ghost use Rattle.pdus.specs.MadePdus.Pieces.{AreMtus, FillUp, Fits, HasRoomOf, IsSegmentOf, KeepsUnit, marks, ranges_of};

/// Each octet of a PDU's data is in exactly one of its pieces, which stand in the order of the data, also when
/// the pieces are cut again, for one MTU after another; and a piece of pieces is the segment that its range is
/// of the PDU cut first.
pub fn pieces_partition_the_data()
    ensures once { (v : PduValue) (mtu : ℕ) → IsPdu v → 512 ≤ mtu
        → IfSome (cut v mtu) (λ pieces. Partition (ranges_of pieces) (whole_range v)) }
    ensures again { (v : PduValue) (mtus : List ℕ) → IsPdu v → AreMtus mtus
        → IfSome (cut_through mtus (Some (uncut v ∷ []))) (λ pieces. Partition (ranges_of pieces) (whole_range v)) }
    ensures in_order { (v : PduValue) (mtus : List ℕ) → IsPdu v → AreMtus mtus
        → IfSome (cut_through mtus (Some (uncut v ∷ []))) (λ pieces. Tiles 0 (ranges_of pieces) (length v.body)) }
    ensures segments { (v : PduValue) (mtus : List ℕ) → IsPdu v → AreMtus mtus
        → IfSome (cut_through mtus (Some (uncut v ∷ []))) (AllByRecursion (IsSegmentOf v)) }
{}

/// The octet at a place of a PDU's data goes into the piece whose number, from 0, is the quotient of the
/// place by the room for data.
pub fn places_go_by_quotient()
    ensures { (room len place number : ℕ) → 8 ≤ room → HasRoomOf room len place number }
{}

/// Each piece is a PDU and fits the MTU; each but the last has data of a length that is a multiple of 8, at least 8,
/// and with 8 octets more it would not fit; the flag that more follows is set on each but the last, which has that of the PDU; identifier and total
/// length stay.
pub fn pieces_are_pdus_that_fit()
    ensures pdus { (v : PduValue) (mtu : ℕ) → IsPdu v → 512 ≤ mtu
        → IfSome (cut v mtu) (AllByRecursion (λ piece. IsPdu piece.value)) }
    ensures fit { (v : PduValue) (mtu : ℕ) → IsPdu v → 512 ≤ mtu → IfSome (cut v mtu) (AllByRecursion (Fits mtu)) }
    ensures filled { (v : PduValue) (mtu : ℕ) → IsPdu v → 512 ≤ mtu → IfSome (cut v mtu) (FillUp mtu) }
    ensures more { (v : PduValue) (mtu : ℕ) → IsPdu v → 512 ≤ mtu
        → IfSome (cut v mtu) (λ pieces. map (λ piece. piece.value.more) pieces ≡ marks v.more pieces) }
    ensures unit { (v : PduValue) (mtu : ℕ) → IsPdu v → 512 ≤ mtu → IfSome (cut v mtu) (AllByRecursion (KeepsUnit v)) }
{}

/// A range of a PDU's data is a PDU of its own; and the ranges of all segments stand one behind another, from the first
/// octet of the data to the last.
pub fn segments_are_pdus_one_behind_another()
    ensures pdu { (v : PduValue) (part : SegmentationPart) (range : Range) → v.segmentation ≡ Some part → IsPdu v
        → range.from + range.len ≤ length v.body → IsPdu (segment v part range) }
    ensures tile { (v : PduValue) (mtu : ℕ) → IsPdu v → 512 ≤ mtu
        → Tiles 0 (ranges (data_room (header_length v) mtu) (length v.body)) (length v.body) }
    ensures within { (v : PduValue) (mtu : ℕ) → IsPdu v → 512 ≤ mtu
        → AllByRecursion (λ range. range.from + range.len ≤ length v.body) (ranges (data_room (header_length v) mtu) (length v.body)) }
{}
