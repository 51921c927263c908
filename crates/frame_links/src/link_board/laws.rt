//! Laws of the definitions that the contracts cite. The functions do nothing.
ghost use Rattle.std.specs.Prelude.{◌≡◌, ℕ, List, Some};
ghost use Rattle.hex.specs.Hex.{IsBytes};
ghost use Rattle.frame_links.specs.LinkBoard.Ends.{IsEnd, end_at, snpa_of};

use crate::link_board::end::End;

/// An end, which has a port above 0, is the end with its SNPA; and an SNPA that is that of an end is the SNPA of that end.
pub fn ends_and_snpas_lead_to_one_another()
    ensures there { (end : End) → IsEnd end → end_at (snpa_of end) ≡ Some end }
    ensures back { (snpa : List ℕ) (end : End) → IsBytes snpa → end_at snpa ≡ Some end → snpa_of end ≡ snpa }
{}
