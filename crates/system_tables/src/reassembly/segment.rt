//! Segments of data units.
ghost use Rattle.std.specs.Prelude.{◌≡◌, ◌+◌, ◌≤◌, ◌++◌, map};
ghost use Rattle.std.specs.List.{range_with_len};
ghost use Rattle.system_tables.specs.Reassembly.Arrival.{arrival_of, data_len, octet_in, same_key};
ghost use Rattle.system_tables.specs.Reassembly.Offered.{MayCome};

use pdus::clnp_views::View;
use pdus::nsap::Address;

/// What the segments of one data unit share: its addresses, and the data unit identifier
/// (ISO/IEC 8473, sections 7.3 and 7.4).
#[derive(Clone, Copy, PartialEq, Eq)]
pub struct Key {
    pub from: Address,
    pub to: Address,
    pub id: u16,
}

impl Key {
    /// Whether it is this key. It tests the identifier first, in which the keys of one table differ most.
    pub(crate) fn is(&self, key: &Key) -> bool
        ensures { result ≡ same_key self.now key.now }
    {
        self.id == key.id && self.from == key.from && self.to == key.to
    }
}

/// What must agree in all segments of a unit.
#[derive(Clone, Copy, PartialEq, Eq)]
pub struct Shape {
    /// The octets of the initial PDU: header and data of the unit (section 7.4.3).
    pub total: u16,
    /// The octets of the header, which each segment has.
    pub head_len: u8,
    /// The type of the PDU, as its octet says (section 7.2.7).
    pub kind: u8,
}

impl Shape {
    /// How many octets of data the unit has.
    pub(crate) fn data_len(self) -> u16
        requires { self.head_len ≤ self.total }
        ensures { result ≡ data_len self }
    {
        self.total - u16::from(self.head_len)
    }
}

/// A segment of a data unit.
#[derive(Drop)]
pub struct Segment {
    pub key: Key,
    pub shape: Shape,
    /// The place of its data in the unit's data, in octets from 0.
    pub offset: u16,
    /// Its lifetime in ticks of 500 ms.
    pub life: u8,
    /// The whole PDU: `head_len` octets of header, and the data.
    pub pdu: View,
}

impl Segment {
    /// How many octets of data it has.
    pub(crate) fn data_len(&self) -> u16
        requires { MayCome self.now }
        ensures { result ≡ (arrival_of self.now).len }
    {
        // Read for its range: no segment has more than its unit.
        let _total = self.shape.total;
        (self.pdu.len() - usize::from(self.shape.head_len)) as u16
    }

    /// The place behind its last octet in the unit's data.
    pub(crate) fn end(&self) -> u16
        requires { MayCome self.now }
        ensures end { result ≡ self.now.offset + (arrival_of self.now).len }
        ensures within { result ≤ data_len self.now.shape }
    {
        // Read for its range: no place of the unit's data is past it.
        let _total = self.shape.total;
        self.offset + self.data_len()
    }

    /// Its octets at `len` places of the unit's data from `place`, in two parts.
    pub(crate) fn octets(&self, place: usize, len: usize) -> (&[u8], &[u8])
        requires came { MayCome self.now }
        requires from { self.now.offset ≤ place }
        requires to { place + len ≤ self.now.offset + (arrival_of self.now).len }
        ensures { result.0.now ++ result.1.now ≡ map (octet_in (arrival_of self.now)) (range_with_len place len) }
    {
        // Read for their ranges: as in `end`, and what is seen lies in the frame.
        let _total = self.shape.total;
        let _size = self.pdu.frame_len();
        let start = usize::from(self.shape.head_len) + (place - usize::from(self.offset));
        self.pdu.parts(start, len)
    }
}
