//! Frames, whose octets are shared and never change.
ghost use Rattle.std.specs.Prelude.{◌≡◌, ◌+◌, ◌≤◌, ◌++◌, ◌↔◌, IfOk, IsTrue, length, take, drop};
ghost use Rattle.std.specs.Rc.{rc_slice_items};
ghost use Rattle.pdus.specs.ClnpViews.Extent.{seen, whole};
ghost use Rattle.pdus.specs.ClnpViews.Parted.{IsFront, IsShortHeader};

use crate::clnp_views::view::View;
use clnp_base::{InlineOctets, NoMemory, SharedOctets};
use std::alloc::Global;
use std::marker::Model;
use std::rc::RcSlice;

/// The first octet of a CLNP PDU (ISO/IEC 8473, section 7.2.2).
const PROTOCOL: u8 = 0x81;

/// The octets of the fixed part of a PDU's header (section 7.2).
const FIXED_PART: usize = 9;

/// The most octets of a header that lies in the frame's value itself.
const MOST: usize = 63;

/// A frame: octets that several owners may share, and that none of them changes. Where it was made of a short header and
/// of data in view, the header lies in the value itself, and the data are a part of octets that other frames may share.
///
/// A contract sees it as the list of its octets.
#[derive(Drop)]
pub struct Frame {
    front: InlineOctets<MOST>,
    octets: RcSlice<u8>,
    from: usize,
    len: usize,
}

impl Model for Frame {
    ghost use Rattle.std.specs.Prelude.{ℕ, List, ◌+◌, ◌≤◌, ◌++◌, take, drop, length};
    ghost use Rattle.std.specs.Rc.{rc_slice_items};
    ghost use Rattle.pdus.specs.ClnpViews.Parted.{IsFront};

    ghost Value = { List ℕ };

    ghost view = { λ f. f.front ++ take f.len (drop f.from (rc_slice_items f.octets)) };

    ghost invariant = { λ f. IsFront f.front × (f.from + f.len ≤ length (rc_slice_items f.octets)) };
}

impl Frame {
    /// A frame of these octets.
    ///
    /// # Errors
    ///
    /// `NoMemory`.
    pub fn copy(alloc: Global, octets: &[u8]) -> Result<Frame, NoMemory>
        ensures { IfOk result (λ frame. frame ≡ octets.now) }
    {
        match RcSlice::from_slice(alloc, octets) {
            Ok(octets) => Ok(Frame::of(octets)),
            Err(_) => Err(NoMemory),
        }
    }

    /// The frame of octets that are handed over, and so not copied.
    ///
    /// # Errors
    ///
    /// `NoMemory`.
    pub fn from_vec(octets: Vec<u8>) -> Result<Frame, NoMemory>
        ensures { IfOk result (λ frame. frame ≡ octets.items) }
    {
        match RcSlice::from_vec(octets) {
            Ok(octets) => Ok(Frame::of(octets)),
            Err(_) => Err(NoMemory),
        }
    }

    /// The frame of octets that are shared, and so not copied.
    ///
    /// # Errors
    ///
    /// `NoMemory`, where a further owner is refused.
    pub fn of_shared(octets: &SharedOctets) -> Result<Frame, NoMemory>
        ensures { IfOk result (λ frame. frame ≡ octets.now) }
    {
        let octets = octets.share()?;
        Ok(Frame::of(octets))
    }

    /// The frame of shared octets.
    fn of(octets: RcSlice<u8>) -> Frame
        ensures { result ≡ rc_slice_items octets }
    {
        let len = octets.len();
        Frame {
            front: InlineOctets::new(),
            octets,
            from: 0,
            len,
        }
    }

    /// The frame of a header and of the data behind it: `len` of the octets in view, from place `from` of them. The data
    /// are shared and not copied, where the header is one of a CLNP PDU that tells its own length (ISO/IEC 8473, section
    /// 7.2) and has at most 63 octets.
    ///
    /// # Errors
    ///
    /// `NoMemory`, also where a further owner is refused.
    pub fn with_data(
        alloc: Global,
        head: &[u8],
        body: &View,
        from: usize,
        len: usize,
    ) -> Result<Frame, NoMemory>
        requires { from + len ≤ body.now.len }
        ensures { IfOk result (λ frame. frame ≡ head.now ++ take len (drop from (seen body.now))) }
    {
        let frame = body.frame();
        let place = body.place(from);
        let own = frame.front.len();
        if is_short_header(head) && own <= place {
            return sharing(head, &frame.octets, frame.from + (place - own), len);
        }
        joined(alloc, head, body, from, len)
    }

    /// The number of octets.
    pub fn len(&self) -> usize
        ensures { result ≡ length self.now }
    {
        self.front.len() + self.len
    }

    /// The octets, in two parts: a short header that lies in the frame's value itself, or nothing, and what is behind.
    pub fn parts(&self) -> (&[u8], &[u8])
        ensures octets { result.0.now ++ result.1.now ≡ self.now }
        ensures front { IsFront result.0.now }
    {
        (
            self.front.as_bytes(),
            &self.octets.as_slice()[self.from..self.from + self.len],
        )
    }

    /// The same frame for a further owner.
    ///
    /// # Errors
    ///
    /// `NoMemory`, where a further owner is refused.
    pub fn share(&self) -> Result<Frame, NoMemory>
        ensures { IfOk result (λ frame. frame ≡ self.now) }
    {
        match self.octets.clone() {
            Ok(octets) => Ok(Frame {
                front: self.front,
                octets,
                from: self.from,
                len: self.len,
            }),
            Err(_) => Err(NoMemory),
        }
    }

    /// The view of the whole frame, for a further owner.
    ///
    /// # Errors
    ///
    /// `NoMemory`, where a further owner is refused.
    pub fn view(&self) -> Result<View, NoMemory>
        ensures { IfOk result (λ view. view ≡ whole self.now) }
    {
        Ok(self.share()?.into_view())
    }

    /// The view of the whole frame.
    pub fn into_view(self) -> View
        ensures { result ≡ whole self }
    {
        View::of(self)
    }
}

/// Whether octets are as the header of a CLNP PDU that lies in a frame's value itself.
fn is_short_header(octets: &[u8]) -> bool
    ensures { IsTrue result ↔ IsShortHeader octets.now }
{
    octets.len() >= FIXED_PART
        && octets.len() <= MOST
        && octets[0] == PROTOCOL
        && usize::from(octets[1]) == octets.len()
}

/// The frame of a short header, and behind it `len` of some shared octets, from place `from` of them.
fn sharing(head: &[u8], octets: &RcSlice<u8>, from: usize, len: usize) -> Result<Frame, NoMemory>
    requires header { IsShortHeader head.now }
    requires within { from + len ≤ length (rc_slice_items octets.now) }
    ensures { IfOk result (λ frame. frame ≡ head.now ++ take len (drop from (rc_slice_items octets.now))) }
{
    match octets.clone() {
        Ok(octets) => Ok(Frame {
            front: InlineOctets::of(head),
            octets,
            from,
            len,
        }),
        Err(_) => Err(NoMemory),
    }
}

/// The frame of a header and of a copy of the data behind it, in room of just its length.
fn joined(
    alloc: Global,
    head: &[u8],
    body: &View,
    from: usize,
    len: usize,
) -> Result<Frame, NoMemory>
    requires { from + len ≤ body.now.len }
    ensures { IfOk result (λ frame. frame ≡ head.now ++ take len (drop from (seen body.now))) }
{
    let (front, behind) = body.parts(from, len);
    let mut octets = Vec::with_capacity(alloc, head.len().saturating_add(len))?;
    octets.extend_from_slice(head)?;
    octets.extend_from_slice(front)?;
    octets.extend_from_slice(behind)?;
    Frame::from_vec(octets)
}
