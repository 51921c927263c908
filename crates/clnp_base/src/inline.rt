//! Octets that lie in the value itself.
ghost use Rattle.std.specs.Prelude.{◌≡◌, ◌+◌, ◌≤◌, ◌∷◌, ◌++◌, [], length, take, drop, nat_eq};
ghost use Rattle.std.specs.Fn.{FnOnceReturnsAtMut, FnOnceTakesAtMut};
ghost use Rattle.std.specs.Cmp.{partial_equiv_from_equiv};
ghost use Rattle.std.specs.Cmp.Lexicographic.{nat_list_eq_equiv, pointwise};

use crate::copying::copy_over;
use std::marker::Model;

/// Up to `MOST` octets in order, at most 255, which contracts see as their list. The cells past them are 0, so that one
/// list of octets is one value.
#[derive(Clone, Copy)]
pub struct InlineOctets<const MOST: usize> {
    len: u8,
    cells: [u8; MOST],
}

impl<const MOST: usize> Model for InlineOctets<MOST> {
    ghost use Rattle.std.specs.Prelude.{◌-◌, ◌++◌, List, ℕ, length, take, replicate};
    ghost use Rattle.clnp_base.specs.Inline.{IsInline, len_again, cells_again};

    ghost Value = { List ℕ };

    ghost view = { λ s. take s.len s.cells };

    ghost invariant = { λ s. IsInline MOST s.len s.cells };

    ghost inverse = { λ v. record { len = length v; cells = v ++ replicate (MOST - length v) 0 } };

    ghost inverse_ok = { λ s h i. record {
      len = len_again MOST s.len s.cells h i;
      cells = cells_again MOST s.len s.cells h i;
    } };
}

impl<const MOST: usize> InlineOctets<MOST> {
    /// No octets.
    pub fn new() -> Self
        requires { MOST ≤ 255 }
        ensures { result ≡ [] }
    {
        InlineOctets {
            len: 0,
            cells: [0; MOST],
        }
    }

    /// A copy of these octets.
    pub fn of(octets: &[u8]) -> Self
        requires few { MOST ≤ 255 }
        requires within { length octets.now ≤ MOST }
        ensures { result ≡ octets.now }
    {
        let mut cells = [0; MOST];
        lay(&mut cells, 0, octets);
        InlineOctets {
            len: octets.len() as u8,
            cells,
        }
    }

    /// How many octets there are.
    pub fn len(&self) -> usize
        ensures count { result ≡ length self.now }
        ensures few { result ≤ MOST }
    {
        self.as_bytes().len()
    }

    /// The octets.
    pub fn as_bytes(&self) -> &[u8]
        ensures octets { result.now ≡ self.now }
        ensures few { length result.now ≤ MOST }
    {
        &self.cells[..self.len as usize]
    }

    /// Puts a piece behind the octets.
    pub fn push(&mut self, piece: &[u8])
        requires { length self.old + length piece.now ≤ MOST }
        ensures { self.new ≡ self.old ++ piece.now }
    {
        let start = self.len as usize;
        lay(&mut self.cells, start, piece);
        self.len = (start + piece.len()) as u8;
    }

    /// Puts a piece behind the octets, and before it the octet that tells its length.
    pub fn push_counted(&mut self, piece: &[u8])
        requires few { MOST ≤ 255 }
        requires room { length self.old + 1 + length piece.now ≤ MOST }
        ensures { self.new ≡ self.old ++ length piece.now ∷ piece.now }
    {
        self.push(&[piece.len() as u8]);
        self.push(piece);
    }

    /// Changes the octets from an index on in place, as the call of `change` does; their number stays.
    pub fn change<F: FnOnce(&mut [u8])>(&mut self, start: usize, change: F)
        requires start { start ≤ length self.old }
        requires callable { length self.old ≤ MOST → FnOnceTakesAtMut F.FnOnce change (drop start self.old) }
        ensures front { take start self.new ≡ take start self.old }
        ensures changed { FnOnceReturnsAtMut F.FnOnce change (drop start self.old) tt (drop start self.new) }
        ensures len { length self.new ≡ length self.old }
    {
        let len = self.len as usize;
        let cells = &mut self.cells[..];
        change_part(&mut cells[start..len], change);
    }
}

impl<const MOST: usize> PartialEq for InlineOctets<MOST> {
    ghost eq = { λ a b. pointwise nat_eq a b };

    ghost laws = { partial_equiv_from_equiv nat_list_eq_equiv };

    fn eq(&self, other: &Self) -> bool {
        self.as_bytes() == other.as_bytes()
    }
}

impl<const MOST: usize> Eq for InlineOctets<MOST> {
    ghost laws = { nat_list_eq_equiv };
}

/// Writes the piece over the cells from an index on.
#[inline(always)]
fn lay(cells: &mut [u8], at: usize, piece: &[u8])
    requires { at + length piece.now ≤ length cells.old }
    ensures { cells.new ≡ take at cells.old ++ (piece.now ++ drop (at + length piece.now) cells.old) }
{
    copy_over(piece, &mut cells[at..at + piece.len()]);
}

/// Changes the octets as the call of `change` does.
fn change_part<F: FnOnce(&mut [u8])>(part: &mut [u8], change: F)
    requires { FnOnceTakesAtMut F.FnOnce change part.old }
    ensures { FnOnceReturnsAtMut F.FnOnce change part.old tt part.new }
{
    change(part);
}
