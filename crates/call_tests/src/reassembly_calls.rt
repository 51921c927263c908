//! Tables of reassembly buffers. A segment has a header of 25 octets. A test is a list of what is done with a table, one
//! step after the other, and of what must come of it.
ghost use Rattle.system_tables.specs.Reassembly.Offered.{MayCome};
ghost use Rattle.system_tables.specs.Reassembly.NoWhole.{HasNoWhole, IsCompleted};
ghost use Rattle.system_tables.specs.Reassembly.State.{IsWholeSlot};

use crate::reassembly_calls::Step::{Clear, End, Fill, InSlot, Offer, Rest, Undo, Whole};
use crate::seeing::see;
use scenario::scenario_writing::scenarios::nsaps::Address;
use scenario::scenario_writing::scenarios::views::Frame;
use std::alloc::Global;
use std::mem::forget;
use std::process::Abort;
use system_tables::reassembly::{Accept, Key, Segment, Shape, SlotNo, Table, TableLimits};

const LIMITS: TableLimits = TableLimits {
    slots: 16,
    segments: 1024,
    budget: 262_144,
    hold: 60,
};

/// A part of a unit that comes in a segment: the unit's identifier, its octets with a header, the segment's lifetime, the
/// place of the part in the unit, and how many octets it has.
#[derive(Clone, Copy)]
struct Part(u16, u16, u8, u16, u16);

/// What is done with a table.
#[derive(Clone, Copy)]
enum Step {
    /// A part is offered that doesn't make its unit whole; the answer.
    Offer(Part, Accept),
    /// A part makes its unit whole; so many octets are held then, and the pieces have these lengths. Then the buffer is
    /// released.
    Whole(Part, u32, &'static [usize]),
    /// A part makes its unit whole, in this slot. Then the buffer is released.
    InSlot(Part, SlotNo),
    /// A part makes its unit whole, and is taken out again.
    Undo(Part),
    /// The time of a unit's buffer has ended, with a PDU of so many octets, or with none.
    End(u16, Option<usize>),
    /// No buffer's time has ended.
    Rest,
    /// All buffers are taken out.
    Clear,
    /// 39 octets of each of so many units come, which have the identifiers from 0.
    Fill(u16),
}

/// A moment, what is done then, and how many buffers, segments and octets are kept afterwards.
struct Row(u32, Step, (u16, u16, u32));

/// All parts of a unit of 3,000 octets come but the first one, from the end on, and two of them again. The first one makes
/// it whole, once it was taken out again.
const FROM_THE_END: &[Row] = &[
    Row(
        0,
        Offer(Part(1, 3025, 10, 2944, 56), Accept::Held),
        (1, 1, 81),
    ),
    Row(
        0,
        Offer(Part(1, 3025, 10, 2944, 56), Accept::Repeat),
        (1, 1, 81),
    ),
    Row(
        0,
        Offer(Part(1, 3025, 10, 1440, 32), Accept::Held),
        (1, 2, 138),
    ),
    Row(
        0,
        Offer(Part(1, 3025, 10, 1472, 1472), Accept::Held),
        (1, 3, 1635),
    ),
    Row(
        0,
        Offer(Part(1, 3025, 10, 1952, 480), Accept::Repeat),
        (1, 3, 1635),
    ),
    Row(
        0,
        Offer(Part(1, 3025, 10, 960, 480), Accept::Held),
        (1, 4, 2140),
    ),
    Row(0, Undo(Part(1, 3025, 10, 0, 1472)), (1, 4, 2140)),
    Row(
        0,
        Whole(Part(1, 3025, 10, 0, 1472), 3637, &[960, 480, 32, 1472, 56]),
        (0, 0, 0),
    ),
];

/// A part has what is missing between others.
const BETWEEN_OTHERS: &[Row] = &[
    Row(0, Offer(Part(1, 126, 10, 10, 10), Accept::Held), (1, 1, 35)),
    Row(0, Offer(Part(1, 126, 10, 30, 10), Accept::Held), (1, 2, 70)),
    Row(
        0,
        Offer(Part(1, 126, 10, 50, 10), Accept::Held),
        (1, 3, 105),
    ),
    Row(
        0,
        Offer(Part(1, 126, 10, 100, 1), Accept::Held),
        (1, 4, 131),
    ),
    Row(
        0,
        Whole(
            Part(1, 126, 10, 0, 100),
            256,
            &[10, 10, 10, 10, 10, 10, 40, 1],
        ),
        (0, 0, 0),
    ),
];

/// The longest unit.
const LONGEST: &[Row] = &[
    Row(
        0,
        Offer(Part(1, 65_535, 10, 40_000, 25_510), Accept::Held),
        (1, 1, 25_535),
    ),
    Row(
        0,
        Whole(Part(1, 65_535, 10, 0, 40_000), 65_560, &[40_000, 25_510]),
        (0, 0, 0),
    ),
];

/// The buffers end in the order of their deadlines, and where these are one, of their opening.
const DEADLINES: &[Row] = &[
    Row(
        0,
        Offer(Part(1, 3025, 10, 960, 960), Accept::Held),
        (1, 1, 985),
    ),
    Row(
        0,
        Offer(Part(2, 3025, 10, 0, 480), Accept::Held),
        (2, 2, 1490),
    ),
    Row(
        1,
        Offer(Part(1, 3025, 99, 0, 481), Accept::Held),
        (2, 3, 1996),
    ),
    Row(
        1,
        Offer(Part(3, 3025, 4, 960, 960), Accept::Held),
        (3, 4, 2981),
    ),
    Row(
        2,
        Offer(Part(1, 3025, 10, 0, 961), Accept::Held),
        (3, 5, 3967),
    ),
    Row(
        3,
        Offer(Part(4, 3025, 255, 0, 482), Accept::Held),
        (4, 6, 4474),
    ),
    Row(4, Rest, (4, 6, 4474)),
    Row(10, End(3, None), (3, 5, 3489)),
    Row(10, End(1, Some(506)), (2, 2, 1012)),
    Row(10, End(2, Some(505)), (1, 1, 507)),
    Row(62, Rest, (1, 1, 507)),
    Row(63, End(4, Some(507)), (0, 0, 0)),
];

const CLEARED: &[Row] = &[
    Row(
        0,
        Offer(Part(1, 3025, 10, 2944, 56), Accept::Held),
        (1, 1, 81),
    ),
    Row(
        0,
        Offer(Part(1, 3025, 10, 1440, 32), Accept::Held),
        (1, 2, 138),
    ),
    Row(0, Clear, (0, 0, 0)),
    Row(
        5,
        Offer(Part(1, 3025, 10, 0, 1472), Accept::Held),
        (1, 1, 1497),
    ),
    Row(15, End(1, Some(1497)), (0, 0, 0)),
];

/// As many buffers as may be.
const FULL: &[Row] = &[
    Row(0, Fill(1023), (1023, 1023, 65_472)),
    Row(
        0,
        Offer(Part(1023, 3025, 10, 2961, 38), Accept::Held),
        (1024, 1024, 65_535),
    ),
    Row(
        0,
        Offer(
            Part(1024, 3025, 10, 2961, 39),
            Accept::NoSlot { live: 1024 },
        ),
        (1024, 1024, 65_535),
    ),
    Row(10, End(0, None), (1023, 1023, 65_471)),
];

/// Parts that come where another part of 56 octets is kept.
const NO_SLOT: &[Row] = &[
    Row(
        0,
        Offer(Part(1, 3025, 10, 2944, 56), Accept::Held),
        (1, 1, 81),
    ),
    Row(
        0,
        Offer(Part(2, 3025, 10, 1440, 32), Accept::NoSlot { live: 1 }),
        (1, 1, 81),
    ),
];

const MANY: &[Row] = &[
    Row(
        0,
        Offer(Part(1, 3025, 10, 2944, 56), Accept::Held),
        (1, 1, 81),
    ),
    Row(
        0,
        Offer(Part(1, 3025, 10, 1440, 32), Accept::Many { kept: 1 }),
        (1, 1, 81),
    ),
    Row(
        0,
        Offer(Part(1, 3025, 10, 2944, 56), Accept::Repeat),
        (1, 1, 81),
    ),
];

const INTERFERENCE: &[Row] = &[
    Row(
        0,
        Offer(Part(1, 3025, 10, 2944, 56), Accept::Held),
        (1, 1, 81),
    ),
    Row(
        0,
        Offer(
            Part(1, 2025, 10, 1440, 32),
            Accept::Interference {
                kept: Shape {
                    total: 3025,
                    head_len: 25,
                    kind: 28,
                },
                offered: Shape {
                    total: 2025,
                    head_len: 25,
                    kind: 28,
                },
            },
        ),
        (1, 1, 81),
    ),
];

const CROWDED: &[Row] = &[
    Row(
        0,
        Offer(Part(1, 3025, 10, 2944, 56), Accept::Held),
        (1, 1, 81),
    ),
    Row(
        0,
        Offer(
            Part(1, 3025, 10, 1440, 32),
            Accept::Crowded { held: 81, size: 57 },
        ),
        (1, 1, 81),
    ),
];

const ENOUGH: &[Row] = &[
    Row(
        0,
        Offer(Part(1, 3025, 10, 2944, 56), Accept::Held),
        (1, 1, 81),
    ),
    Row(
        0,
        Offer(Part(1, 3025, 10, 1440, 32), Accept::Held),
        (1, 2, 138),
    ),
];

/// Each of three units has its slot until its buffer is released, though another is released before it, and a later one
/// takes the slot that is free.
const SLOTS: &[Row] = &[
    Row(0, Offer(Part(1, 33, 10, 0, 4), Accept::Held), (1, 1, 29)),
    Row(0, Offer(Part(2, 33, 10, 0, 4), Accept::Held), (2, 2, 58)),
    Row(0, InSlot(Part(1, 33, 10, 4, 4), SlotNo(0)), (1, 1, 29)),
    Row(0, Offer(Part(3, 33, 10, 0, 4), Accept::Held), (2, 2, 58)),
    Row(0, InSlot(Part(2, 33, 10, 4, 4), SlotNo(1)), (1, 1, 29)),
    Row(0, InSlot(Part(3, 33, 10, 4, 4), SlotNo(0)), (0, 0, 0)),
];

/// The key of a unit that goes from one system to another.
fn key(rt: &impl Abort, id: u16) -> Key {
    let from = Address::from_bytes(b"\x47\x00\x27\x02").expect(rt, "an address");
    let to = Address::from_bytes(b"\x47\x00\x27\x01").expect(rt, "an address");
    Key { from, to, id }
}

/// The octets of each unit.
fn pattern(rt: &impl Abort, alloc: Global) -> Vec<u8> {
    let mut octets = Vec::new(alloc);
    for place in 0..65_510u32 {
        let octet = ((place + place / 256) % 256) as u8;
        octets.push(octet).expect(rt, "memory");
    }
    octets
}

/// The segment with a part of a unit.
fn segment(rt: &impl Abort, alloc: Global, part: Part, unit: &[u8]) -> Segment
    ensures { MayCome result }
{
    let Part(id, total, life, at, len) = part;
    let (from, count) = (usize::from(at), usize::from(len));
    assert!(rt;
        life >= 1 && count + 25 < usize::from(total) && from + count + 25 <= usize::from(total)
    );
    let Some(data) = unit.get(from..from + count) else {
        panic!(rt; "no such part");
    };
    let mut octets = vec![in alloc; 0u8; 25].expect(rt, "memory");
    octets.extend_from_slice(data).expect(rt, "memory");
    let frame = Frame::copy(alloc, octets.as_slice()).expect(rt, "memory");
    Segment {
        key: key(rt, id),
        shape: Shape {
            total,
            head_len: 25,
            kind: 28,
        },
        offset: at,
        life,
        pdu: frame.into_view(),
    }
}

/// Sees that no buffer's time has ended.
fn see_none_ended(rt: &impl Abort, table: &mut Table, now: u32)
    requires { HasNoWhole table.old }
    ensures { HasNoWhole table.new }
{
    assert!(rt; table.expire(u64::from(now)).is_none());
}

/// Offers a part that doesn't make its unit whole, at a moment at which no buffer's time has ended, and sees the answer.
fn offer_part(
    rt: &impl Abort,
    alloc: Global,
    table: &mut Table,
    now: u32,
    part: Part,
    unit: &[u8],
    answer: Accept,
)
    requires { HasNoWhole table.old }
    ensures { HasNoWhole table.new }
{
    see_none_ended(rt, table, now);
    let told = table.accept(u64::from(now), segment(rt, alloc, part, unit));
    if let Accept::Whole(_) = told {
        panic!(rt; "the unit is whole");
    }
    see(rt, told == answer, "the answer");
}

/// Offers a part of each of so many units.
fn fill(rt: &impl Abort, alloc: Global, table: &mut Table, count: u16, unit: &[u8])
    requires { HasNoWhole table.old }
    ensures { HasNoWhole table.new }
{
    for id in 0..count {
        let part = Part(id, 3025, 10, 2961, 39);
        offer_part(rt, alloc, table, 0, part, unit, Accept::Held);
    }
}

/// Offers a part that makes its unit whole, at a moment at which no buffer's time has ended.
fn complete(
    rt: &impl Abort,
    alloc: Global,
    table: &mut Table,
    now: u32,
    part: Part,
    unit: &[u8],
) -> SlotNo
    requires { HasNoWhole table.old }
    ensures whole { IsWholeSlot table.new result.0 }
    ensures completed { IsCompleted table.new result.0 }
{
    see_none_ended(rt, table, now);
    let told = table.accept(u64::from(now), segment(rt, alloc, part, unit));
    let Accept::Whole(slot) = told else {
        panic!(rt; "the unit isn't whole");
    };
    slot
}

/// Appends the octets of a whole unit, and how long its pieces are.
fn collect(rt: &impl Abort, table: &Table, slot: SlotNo, data: &mut Vec<u8>, lens: &mut Vec<usize>)
    requires { IsWholeSlot table.now slot.0 }
{
    for piece in table.pieces(slot) {
        data.extend_from_slice(piece).expect(rt, "memory");
        lens.push(piece.len()).expect(rt, "memory");
    }
}

/// Sees that the pieces of a whole unit have these lengths, and that the octets of a unit begin with theirs.
fn see_pieces(
    rt: &impl Abort,
    alloc: Global,
    table: &Table,
    slot: SlotNo,
    unit: &[u8],
    lens: &[usize],
)
    requires { IsWholeSlot table.now slot.0 }
{
    let mut data = Vec::new(alloc);
    let mut found = Vec::new(alloc);
    collect(rt, table, slot, &mut data, &mut found);
    see(rt, unit.starts_with(&data), "the octets");
    see(rt, found.as_slice() == lens, "the lengths of the pieces");
}

/// Sees that the time of a buffer has ended.
fn see_end(rt: &impl Abort, table: &mut Table, now: u32, id: u16, len: Option<usize>)
    requires { HasNoWhole table.old }
    ensures { HasNoWhole table.new }
{
    let ended = table.expire(u64::from(now)).expect(rt, "an end");
    see(rt, ended.key == key(rt, id), "its key");
    see(rt, ended.first.map(|pdu| pdu.len()) == len, "its first PDU");
}

/// Offers a part that makes its unit whole, sees its pieces and how many octets are held, and releases the buffer.
fn join(
    rt: &impl Abort,
    alloc: Global,
    table: &mut Table,
    now: u32,
    part: Part,
    unit: &[u8],
    held: u32,
    lens: &[usize],
)
    requires { HasNoWhole table.old }
    ensures { HasNoWhole table.new }
{
    let slot = complete(rt, alloc, table, now, part, unit);
    see(rt, table.held() == held, "the octets held");
    see_pieces(rt, alloc, table, slot, unit, lens);
    table.release(slot);
}

/// Offers a part that makes its unit whole, sees its slot, and releases the buffer.
fn join_in(
    rt: &impl Abort,
    alloc: Global,
    table: &mut Table,
    now: u32,
    part: Part,
    unit: &[u8],
    slot: SlotNo,
)
    requires { HasNoWhole table.old }
    ensures { HasNoWhole table.new }
{
    let told = complete(rt, alloc, table, now, part, unit);
    see(rt, told == slot, "the slot");
    table.release(told);
}

/// Offers a part that makes its unit whole, and takes it out again.
fn undo(rt: &impl Abort, alloc: Global, table: &mut Table, now: u32, part: Part, unit: &[u8])
    requires { HasNoWhole table.old }
    ensures { HasNoWhole table.new }
{
    let slot = complete(rt, alloc, table, now, part, unit);
    table.undo(slot);
}

/// Makes a step.
fn make(rt: &impl Abort, alloc: Global, table: &mut Table, now: u32, step: Step, unit: &[u8])
    requires { HasNoWhole table.old }
    ensures { HasNoWhole table.new }
{
    match step {
        Offer(part, answer) => offer_part(rt, alloc, table, now, part, unit, answer),
        Whole(part, held, lens) => join(rt, alloc, table, now, part, unit, held, lens),
        InSlot(part, slot) => join_in(rt, alloc, table, now, part, unit, slot),
        Undo(part) => undo(rt, alloc, table, now, part, unit),
        End(id, len) => see_end(rt, table, now, id, len),
        Rest => see_none_ended(rt, table, now),
        Clear => table.clear(),
        Fill(count) => fill(rt, alloc, table, count, unit),
    }
}

/// How many buffers, segments and octets a table keeps.
fn kept_by(table: &Table) -> (u16, u16, u32) {
    (table.live(), table.kept(), table.held())
}

/// Makes one step after the other, and sees what is kept after each.
fn play(rt: &impl Abort, alloc: Global, table: &mut Table, rows: &[Row], unit: &[u8])
    requires { HasNoWhole table.old }
{
    for row in rows {
        make(rt, alloc, table, row.0, row.1, unit);
        see(rt, kept_by(table) == row.2, "what is kept");
    }
}

/// Plays a list with a table of its own.
fn play_alone(rt: &impl Abort, alloc: Global, limits: TableLimits, rows: &[Row], unit: &[u8]) {
    let mut table = Table::new(alloc, limits).expect(rt, "memory");
    play(rt, alloc, &mut table, rows, unit);
    forget(table);
}

/// Plays each of these lists with a table of its own.
fn play_all(rt: &impl Abort, alloc: Global, lists: &[(TableLimits, &[Row])]) {
    let unit = pattern(rt, alloc);
    for (limits, rows) in lists {
        play_alone(rt, alloc, *limits, rows, &unit);
    }
}

const JOINED: &[(TableLimits, &[Row])] = &[
    (LIMITS, FROM_THE_END),
    (LIMITS, BETWEEN_OTHERS),
    (
        TableLimits {
            budget: 65_560,
            ..LIMITS
        },
        LONGEST,
    ),
    (LIMITS, SLOTS),
];

#[test]
fn joins_units(rt: HostRuntime) {
    play_all(&rt, rt.alloc(), JOINED);
}

const ENDED: &[(TableLimits, &[Row])] = &[(LIMITS, DEADLINES), (LIMITS, CLEARED)];

#[test]
fn ends_in_time(rt: HostRuntime) {
    play_all(&rt, rt.alloc(), ENDED);
}

const ALL_KEPT: &[(TableLimits, &[Row])] = &[(
    TableLimits {
        slots: 1024,
        segments: 1024,
        budget: 65_535,
        hold: 255,
    },
    FULL,
)];

#[test]
fn keeps_as_many_buffers_as_may_be(rt: HostRuntime) {
    play_all(&rt, rt.alloc(), ALL_KEPT);
}

/// Offers two parts, of which the later one has an octet of the first again.
fn offer_twice(rt: &impl Abort, alloc: Global, table: &mut Table)
    requires { HasNoWhole table.old }
    ensures { HasNoWhole table.new }
{
    let first = Part(1, 33, 10, 2, 3);
    offer_part(rt, alloc, table, 0, first, b"..cde...", Accept::Held);
    let later = Part(1, 33, 10, 0, 4);
    offer_part(rt, alloc, table, 0, later, b"ABCD....", Accept::Held);
}

/// Offers the last part, and sees the pieces.
fn see_joined(rt: &impl Abort, alloc: Global, table: &mut Table)
    requires { HasNoWhole table.old }
{
    let last = Part(1, 33, 10, 3, 5);
    let slot = complete(rt, alloc, table, 0, last, b"...56789");
    see(rt, table.held() == 87, "the octets held");
    see_pieces(rt, alloc, table, slot, b"ABcde789", &[2, 3, 3]);
}

#[test]
fn keeps_the_earlier_octets(rt: HostRuntime) {
    let mut table = Table::new(rt.alloc(), LIMITS).expect(&rt, "memory");
    offer_twice(&rt, rt.alloc(), &mut table);
    see_joined(&rt, rt.alloc(), &mut table);
    forget(table);
}

const REFUSED: &[(TableLimits, &[Row])] = &[
    (TableLimits { slots: 1, ..LIMITS }, NO_SLOT),
    (
        TableLimits {
            segments: 1,
            ..LIMITS
        },
        MANY,
    ),
    (LIMITS, INTERFERENCE),
    (
        TableLimits {
            budget: 137,
            ..LIMITS
        },
        CROWDED,
    ),
    (
        TableLimits {
            budget: 138,
            ..LIMITS
        },
        ENOUGH,
    ),
];

#[test]
fn refuses_what_has_no_room(rt: HostRuntime) {
    play_all(&rt, rt.alloc(), REFUSED);
}
