//! The table of reassembly buffers.
ghost use Rattle.std.specs.Prelude.{◌≡◌, ◌≢◌, ◌+◌, ◌<◌, ◌≤◌, ◌^◌, ◌&&◌, ◌∷◌, ◌++◌, ℕ, List, [], length, map, min, nat_le, false, true, if◌then◌else◌, IfNone, IfOk, IfSome, MatchOption, None, Some, is_none, option_map, slice_get};
ghost use Rattle.std.specs.List.{AllByRecursion};
ghost use Rattle.pdus.specs.ClnpViews.Extent.{Extent};
ghost use Rattle.system_tables.specs.Reassembly.Arrival.{are_covered, arrival_of, octet_in, same_shape};
ghost use Rattle.system_tables.specs.Reassembly.Buffer as buffer;
ghost use Rattle.system_tables.specs.Reassembly.Buffer.{Buffer};
ghost use Rattle.system_tables.specs.Reassembly.Kept.{IsKept, with_opening};
ghost use Rattle.system_tables.specs.Reassembly.NoWhole.{HasNoWhole, IsCompleted};
ghost use Rattle.system_tables.specs.Reassembly.Offered.{MayCome, openings_of};
ghost use Rattle.system_tables.specs.Reassembly.State.{IsAt, IsWholeSlot, MayKeep, Names, SlotsStay, Stands, place_of, said, segments_of, was_kept};

use crate::reassembly::openings::{Opening, Openings};
use crate::reassembly::pieces::Pieces;
use crate::reassembly::runs::{Runs, has_gap, has_hole};
use crate::reassembly::segment::{Key, Segment, Shape};
use crate::reassembly::segments::Segments;
use crate::reassembly::spans::Spans;
use pdus::clnp_views::View;
use pdus::nsap::base::NoMemory;
use std::alloc::Global;
use std::marker::Model;

mod ending;
mod room;

use room::make_room;

/// The numbers that a table keeps to.
#[derive(Clone, Copy)]
pub struct TableLimits {
    /// The most buffers at a time.
    pub slots: u16,
    /// The most segments that are kept, in all buffers together.
    pub segments: u16,
    /// The most octets that are held: of whole frames, in all buffers together.
    pub budget: u32,
    /// The longest time that a buffer is kept, in ticks of 500 ms.
    pub hold: u8,
}

/// Where a buffer stands in its table. It stays so until the buffer is taken out, whatever comes of others; a later
/// buffer may be given it then.
#[derive(Clone, Copy, PartialEq, Eq)]
pub struct SlotNo(pub usize);

/// What comes of a segment that is offered.
#[derive(Clone, Copy, PartialEq, Eq)]
pub enum Accept {
    /// It is kept, and its unit isn't whole yet.
    Held,
    /// It has no octet that isn't kept already.
    Repeat,
    /// It is kept, and its unit is whole.
    Whole(SlotNo),
    /// Its buffer is that of a unit of another shape.
    Interference { kept: Shape, offered: Shape },
    /// Every buffer is taken: so many are.
    NoSlot { live: u16 },
    /// Too many octets would be held: so many are, and it came in a frame of `size` octets.
    Crowded { held: u32, size: u32 },
    /// As many segments are kept as may be.
    Many { kept: u16 },
}

/// A buffer whose time has ended.
#[derive(Drop)]
pub struct Expired {
    pub key: Key,
    /// The PDU of the earliest segment at the beginning of the unit, if one came.
    pub first: Option<View>,
}

/// Reassembly buffers: the open ones in the order of their opening, the segments of all of them in the order in which
/// they came, and for each open one the runs of its places.
///
/// A contract sees what the table keeps; `Stands` says which buffers it stands for.
#[derive(Drop)]
pub struct Table {
    limits: TableLimits,
    openings: Openings,
    segments: Segments,
    runs: Runs,
    /// Room for other indices of the segments.
    names: Vec<u16>,
}

impl Model for Table {
    ghost use Rattle.std.specs.Prelude.{◌≤◌, vec_capacity};
    ghost use Rattle.system_tables.specs.Reassembly.State.{TableState};
    ghost use Rattle.system_tables.specs.Reassembly.Entries.{present};
    ghost use Rattle.system_tables.specs.Reassembly.Index.{IsIndexed};
    ghost use Rattle.system_tables.specs.Reassembly.Offered.{total_size};
    ghost use Rattle.system_tables.specs.Reassembly.Sound.{IsSound};

    ghost Value = { TableState };

    ghost view = { λ t. record { limits = t.limits; openings = t.openings.list; slots = t.openings.slots; segments = present t.segments.entries } };

    // Room for all that the limits allow was reserved when the table was made.
    ghost invariant = { λ t. IsSound t.limits t.openings.list (present t.segments.entries) (total_size (present t.segments.entries))
        × (t.limits.slots ≤ t.openings.room) × (t.limits.segments ≤ t.segments.room)
        × IsIndexed t.limits t.openings.list t.segments t.runs (vec_capacity t.names) };
}

impl Table {
    /// A table without buffers. It reserves all the room that it will need.
    ///
    /// # Errors
    ///
    /// `NoMemory`.
    pub fn new(alloc: Global, limits: TableLimits) -> Result<Table, NoMemory>
        ensures stands { IfOk result (λ table. Stands table []) }
        ensures none_whole { IfOk result HasNoWhole }
        ensures limits { IfOk result (λ table. table.limits ≡ limits) }
    {
        let openings = Openings::new(alloc, limits.slots)?;
        // An index of an entry has 16 bits.
        let entries = (2 * usize::from(limits.segments)).min(65_535);
        let segments = Segments::new(alloc, entries)?;
        let Ok(names) = Vec::with_capacity(alloc, entries) else {
            return Err(NoMemory);
        };
        let room = 2 * usize::from(limits.segments) + usize::from(limits.slots);
        let runs = Runs::new(alloc, usize::from(limits.slots), room)?;
        Ok(Table {
            limits,
            openings,
            segments,
            runs,
            names,
        })
    }

    /// Offers a segment, which is kept or not; it takes no memory (ISO/IEC 8473, section 6.8).
    ///
    /// It isn't kept, and nothing changes, by the first of these that holds: the buffer of its key is that of a unit of
    /// another shape (`Interference`); each of its octets is there already (`Repeat`); it has no buffer and none is free
    /// (`NoSlot`); the frames of all kept segments would pass the budget (`Crowded`); as many segments are kept as may be
    /// (`Many`). Else it is kept, in a new buffer where it has none, whose deadline is then `now` plus the lesser of
    /// `hold` and the segment's lifetime, and never moves.
    pub fn accept(&mut self, now: u64, segment: Segment) -> Accept
        requires moment { now < 2 ^ 62 }
        requires offered { MayCome segment }
        requires none_whole { HasNoWhole self.old }
        // Whatever buffers the table stands for, the answer is theirs, and it stands for those after the segment.
        ensures answered { (buffers : List (Buffer Extent)) → Stands self.old buffers
            → said result ≡ buffer.answer self.old.limits now (arrival_of segment) buffers }
        ensures stands { (buffers : List (Buffer Extent)) → Stands self.old buffers
            → Stands self.new (buffer.after self.old.limits now (arrival_of segment) buffers) }
        ensures slot { (slot : SlotNo) → result ≡ Accept.Whole slot → Names self.new slot.0 segment.key }
        // A slot that it gives is that of a whole buffer, the only one, which isn't whole without this segment; where it gives
        // none, no buffer is whole.
        ensures whole { (slot : SlotNo) → result ≡ Accept.Whole slot → IsWholeSlot self.new slot.0 }
        ensures completed { (slot : SlotNo) → result ≡ Accept.Whole slot → IsCompleted self.new slot.0 }
        ensures none_whole { ((slot : SlotNo) → result ≢ Accept.Whole slot) → HasNoWhole self.new }
        ensures same { was_kept result ≡ false → self.new ≡ self.old }
        ensures kept { was_kept result ≡ true → IsKept now segment self.old self.new }
        ensures slots { SlotsStay self.old self.new }
        ensures limits { self.new.limits ≡ self.old.limits }
    {
        let place = self.place_of(&segment.key);
        match self.refusal(place, &segment) {
            Some(refusal) => refusal,
            None => self.keep(now, place, segment),
        }
    }

    /// Why a segment isn't kept, if it isn't; its key has its opening at this place.
    fn refusal(&self, place: Option<usize>, segment: &Segment) -> Option<Accept>
        requires offered { MayCome segment.now }
        requires place { place ≡ place_of segment.now.key self.now.openings }
        ensures refused { (buffers : List (Buffer Extent)) → Stands self.now buffers
            → option_map said result ≡ buffer.refusal self.now.limits (arrival_of segment.now) buffers }
        ensures not_kept { IfSome result (λ answer. was_kept answer ≡ false) }
        ensures room { IfNone result (MayKeep self.now segment.now) }
        ensures uncovered { IfNone result (are_covered (map arrival_of (segments_of segment.now.key self.now.segments)) segment.now.offset (arrival_of segment.now).len ≡ false) }
    {
        if let Some(kept) = self.other_shape(place, segment.shape) {
            let offered = segment.shape;
            return Some(Accept::Interference { kept, offered });
        }
        let held = self.segments.held();
        if self.is_there(place, segment) {
            return Some(Accept::Repeat);
        }
        if self.lacks_slot(place) {
            let live = self.live();
            return Some(Accept::NoSlot { live });
        }
        let size = segment.pdu.frame_len() as u32;
        if size > self.limits.budget - held {
            return Some(Accept::Crowded { held, size });
        }
        if self.segments.len() >= usize::from(self.limits.segments) {
            let kept = self.kept();
            return Some(Accept::Many { kept });
        }
        None
    }

    /// The shape of the buffer at a place, if it is another one than this.
    fn other_shape(&self, place: Option<usize>, shape: Shape) -> Option<Shape>
        requires { IfSome place (λ place. place < length self.now.openings) }
        ensures { MatchOption place (result ≡ None) (λ place. (opening : Opening) → slice_get self.now.openings place ≡ Some opening
            → result ≡ (if same_shape opening.shape shape then None else Some opening.shape)) }
    {
        let kept = self.openings.at(place?).shape;
        if kept == shape { None } else { Some(kept) }
    }

    /// Whether each octet of a segment is there, whose key has its opening at this place.
    fn is_there(&self, place: Option<usize>, segment: &Segment) -> bool
        requires offered { MayCome segment.now }
        requires place { place_of segment.now.key self.now.openings ≡ place }
        requires shape { (at : ℕ) (opening : Opening) → place ≡ Some at → slice_get self.now.openings at ≡ Some opening
            → opening.shape ≡ segment.now.shape }
        ensures { result ≡ are_covered (map arrival_of (segments_of segment.now.key self.now.segments)) segment.now.offset (arrival_of segment.now).len }
    {
        let from = segment.offset;
        let to = segment.end();
        match place {
            Some(place) => !has_gap(&self.runs.pages_of(place), from, to),
            None => from == to,
        }
    }

    /// Whether there is no buffer at this place, and none is free.
    fn lacks_slot(&self, place: Option<usize>) -> bool
        ensures { result ≡ (is_none place && nat_le self.now.limits.slots (length self.now.openings)) }
    {
        place.is_none() && self.openings.len() >= usize::from(self.limits.slots)
    }

    /// Keeps a segment, whose key has its opening at this place.
    fn keep(&mut self, now: u64, place: Option<usize>, segment: Segment) -> Accept
        requires moment { now < 2 ^ 62 }
        requires offered { MayCome segment }
        requires place { place ≡ place_of segment.key self.old.openings }
        requires room { MayKeep self.old segment }
        requires uncovered { are_covered (map arrival_of (segments_of segment.key self.old.segments)) segment.offset (arrival_of segment).len ≡ false }
        ensures answered { (buffers : List (Buffer Extent)) → Stands self.old buffers
            → said result ≡ buffer.kept_answer segment.key (buffer.with_kept self.old.limits now (arrival_of segment) buffers) }
        ensures stands { (buffers : List (Buffer Extent)) → Stands self.old buffers
            → Stands self.new (buffer.with_kept self.old.limits now (arrival_of segment) buffers) }
        ensures slot { (slot : SlotNo) → result ≡ Accept.Whole slot → Names self.new slot.0 segment.key }
        ensures was_kept { was_kept result ≡ true }
        ensures kept { IsKept now segment self.old self.new }
        ensures limits { self.new.limits ≡ self.old.limits }
    {
        let place = self.place_for(now, place, &segment);
        let shape = segment.shape;
        let (from, to) = (segment.offset, segment.end());
        make_room(&mut self.segments, &mut self.runs, &mut self.names);
        let index = self.segments.entries().len() as u16;
        self.runs.fill(place, from, to, index);
        self.segments.push(segment);
        let slot = self.openings.slot_at(place);
        if has_hole(&self.runs.pages_of(place), from, to, shape.data_len()) {
            Accept::Held
        } else {
            Accept::Whole(SlotNo(slot))
        }
    }

    /// The place of the opening of a segment's key, which has it at this place, and is given one where it has none.
    fn place_for(&mut self, now: u64, place: Option<usize>, segment: &Segment) -> usize
        requires moment { now < 2 ^ 62 }
        requires offered { MayCome segment.now }
        requires place { place ≡ place_of segment.now.key self.old.openings }
        requires room { openings_of segment.now.key self.old.openings ≡ 0
            → length self.old.openings < self.old.limits.slots }
        requires same_unit { (slot : ℕ) (opening : Opening) → place_of segment.now.key self.old.openings ≡ Some slot
            → slice_get self.old.openings slot ≡ Some opening → opening.shape ≡ segment.now.shape }
        ensures opened { (slot : ℕ) × (self.new ≡ with_opening now segment.now slot self.old) }
        ensures is_at { IsAt self.new result segment.now.key }
        ensures shaped { (opening : Opening) → slice_get self.new.openings result ≡ Some opening
            → opening.shape ≡ segment.now.shape }
        ensures distinct { AllByRecursion (λ opening. openings_of opening.key self.old.openings ≡ 1) self.old.openings }
        ensures owned { AllByRecursion (λ other. openings_of other.key self.old.openings ≡ 1) self.old.segments }
    {
        let limits = self.limits;
        if let Some(place) = place {
            return place;
        }
        let end = self.openings.len();
        self.openings.push(Opening {
            key: segment.key,
            shape: segment.shape,
            deadline: deadline_of(limits, now, segment.life),
        });
        self.runs.open(segment.shape.data_len());
        end
    }

    /// The data of a whole unit, piece by piece, each octet from the earliest segment that has it.
    pub fn pieces(&self, slot: SlotNo) -> Pieces<'_>
        requires { IsWholeSlot self.now slot.0 }
        ensures { (buffers : List (Buffer Extent)) (whole : Buffer Extent) → Stands self.now buffers
            → buffer.buffer_of whole.key buffers ≡ Some whole → Names self.now slot.0 whole.key
            → result ≡ buffer.data_of octet_in whole }
    {
        let place = self.place_at(slot);
        let opening = self.openings.at(place);
        let end = usize::from(opening.shape.data_len());
        Pieces::of(Spans::new(
            self.segments.entries(),
            self.runs.group(place),
            opening.key,
            end,
        ))
    }

    /// How many octets are held: of the whole frames in which kept segments came.
    pub fn held(&self) -> u32
        ensures held { (buffers : List (Buffer Extent)) → Stands self.now buffers → result ≡ buffer.held buffers }
        ensures within { result ≤ self.now.limits.budget }
    {
        self.segments.held()
    }

    /// How many segments are kept.
    pub fn kept(&self) -> u16
        ensures kept { (buffers : List (Buffer Extent)) → Stands self.now buffers → result ≡ buffer.kept buffers }
        ensures within { result ≤ self.now.limits.segments }
    {
        self.segments.len() as u16
    }

    /// How many buffers there are.
    pub fn live(&self) -> u16
        ensures live { (buffers : List (Buffer Extent)) → Stands self.now buffers → result ≡ length buffers }
        ensures within { result ≤ self.now.limits.slots }
    {
        self.openings.len() as u16
    }

    /// The place of the opening of a key.
    fn place_of(&self, key: &Key) -> Option<usize>
        ensures { result ≡ place_of key.now self.now.openings }
    {
        self.openings.place_of(key)
    }

    /// The place of the opening in a slot.
    fn place_at(&self, slot: SlotNo) -> usize
        requires { IsWholeSlot self.now slot.0 }
        ensures { (key : Key) → Names self.now slot.0 key → IsAt self.now result key }
    {
        self.openings.place_at(slot.0)
    }
}

/// The moment from which the time of a buffer has ended that a segment of this lifetime opens.
fn deadline_of(limits: TableLimits, now: u64, life: u8) -> u64
    requires { now < 2 ^ 62 }
    ensures { result ≡ now + min limits.hold life }
{
    now + u64::from(limits.hold.min(life))
}
