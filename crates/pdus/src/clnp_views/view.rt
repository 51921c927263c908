//! Views of frames.
ghost use Rattle.std.specs.Prelude.{◌≡◌, ◌+◌, ◌≤◌, ◌++◌, IfOk, length, take, drop};
ghost use Rattle.pdus.specs.ClnpViews.Extent.{LiesWithin, part, seen, whole};

use crate::clnp_views::frame::Frame;
use crate::clnp_views::head::{Head, MOST as MOST_OF_HEAD};
use clnp_base::NoMemory;
use std::marker::Model;

/// A view of a frame: a range of its octets, without a copy of them.
///
/// A contract sees it as the frame's octets and the range.
#[derive(Drop)]
pub struct View {
    frame: Frame,
    from: usize,
    len: usize,
}

impl Model for View {
    ghost use Rattle.pdus.specs.ClnpViews.Extent.{Extent, LiesWithin};

    ghost Value = { Extent };

    ghost view = { λ v. record { frame = v.frame; from = v.from; len = v.len } };

    ghost invariant = { λ v. LiesWithin (record { frame = v.frame; from = v.from; len = v.len }) };
}

impl View {
    /// The view of a whole frame.
    pub(crate) fn of(frame: Frame) -> View
        ensures { result ≡ whole frame }
    {
        let len = frame.len();
        View {
            frame,
            from: 0,
            len,
        }
    }

    /// The part that has `len` of the octets, from place `from` of them, for a further owner.
    ///
    /// # Errors
    ///
    /// `NoMemory`, where a further owner is refused.
    pub fn part(&self, from: usize, len: usize) -> Result<View, NoMemory>
        requires { from + len ≤ self.now.len }
        ensures extent { IfOk result (λ view. view ≡ part from len self.now) }
        ensures octets { IfOk result (λ view. seen view ≡ take len (drop from (seen self.now))) }
    {
        Ok(self.share()?.narrow(from, len))
    }

    /// The part that has `len` of the octets, from place `from` of them.
    #[tactic(auto, using(crate::proofs::ClnpViews::Parts::seen_part))]
    pub fn narrow(self, from: usize, len: usize) -> View
        requires { from + len ≤ self.len }
        ensures extent { result ≡ part from len self }
        ensures octets { seen result ≡ take len (drop from (seen self)) }
    {
        View {
            frame: self.frame,
            from: self.from + from,
            len,
        }
    }

    /// `len` of the octets, from place `from` of them, in two parts: what of them lies in the frame's short header, and
    /// what is behind it.
    pub fn parts(&self, from: usize, len: usize) -> (&[u8], &[u8])
        requires { from + len ≤ self.now.len }
        ensures octets { result.0.now ++ result.1.now ≡ take len (drop from (seen self.now)) }
    {
        let (front, behind) = self.frame.parts();
        let start = self.from + from;
        if start >= front.len() {
            let start = start - front.len();
            return (&[], &behind[start..start + len]);
        }
        let here = front.len() - start;
        if len <= here {
            return (&front[start..start + len], &[]);
        }
        (&front[start..], &behind[..len - here])
    }

    /// A copy of the first octets that are seen, 254 of them where there are more, as many as a header may have.
    pub fn first_octets(&self) -> Head
        ensures { result ≡ take 254 (seen self.now) }
    {
        if self.len < MOST_OF_HEAD {
            return self.head(self.len);
        }
        self.head(MOST_OF_HEAD)
    }

    /// A copy of the first `len` octets that are seen.
    fn head(&self, len: usize) -> Head
        requires few { len ≤ 254 }
        requires within { len ≤ self.now.len }
        ensures { result ≡ take len (seen self.now) }
    {
        let (front, behind) = self.parts(0, len);
        Head::of_parts(front, behind)
    }

    /// The frame of which it is a view.
    pub fn frame(&self) -> &Frame
        ensures { result.now ≡ self.now.frame }
    {
        &self.frame
    }

    /// The place in the frame of its octet at a place.
    pub(crate) fn place(&self, at: usize) -> usize
        requires { at ≤ self.now.len }
        ensures place { result ≡ self.now.from + at }
        ensures within { LiesWithin self.now }
    {
        // Read for its range: no place of the view is past the frame's end.
        let _len = self.frame.len();
        self.from + at
    }

    /// How many octets are seen.
    pub fn len(&self) -> usize
        ensures len { result ≡ self.now.len }
        ensures octets { result ≡ length (seen self.now) }
    {
        self.len
    }

    /// The same view for a further owner.
    ///
    /// # Errors
    ///
    /// `NoMemory`, where a further owner is refused.
    pub fn share(&self) -> Result<View, NoMemory>
        ensures { IfOk result (λ view. view ≡ self.now) }
    {
        let frame = self.frame.share()?;
        Ok(View {
            frame,
            from: self.from,
            len: self.len,
        })
    }

    /// The number of octets of the whole frame.
    pub fn frame_len(&self) -> usize
        ensures len { result ≡ length self.now.frame }
        ensures within { LiesWithin self.now }
    {
        self.frame.len()
    }
}
