//! The text of the lines of journals and traces.
ghost use Rattle.std.specs.Prelude.{◌≡◌, [], ◌∷◌, ◌++◌, codes, OnOk, OnErr};
ghost use Rattle.std.specs.Fmt.{decimal};
ghost use Rattle.pdus.specs.Nsap.Prefix.{prefix_text};
ghost use Rattle.pdus.specs.Nsap.Text.{hex_text};
ghost use Rattle.pdus.specs.PduHeader.Spelling.{pair_of};
ghost use Rattle.clnp_plan.specs.Journal.{ForNobody, Injected, Late, Lost, Noted, Received, Resized, Transmitted, Void, line_of, line_text, trace_text, end_text, heard_words, ignored_word, kind_word, table_word, why_word, octet_word, octets_word, identifier_word, rule_word, yes_or_no};
ghost use Rattle.clnp_plan.specs.Words.{line_from, word_text};

use crate::line::{
    Word, frame_word, kind_word, octets_word, on_or_off, push_line, push_line_of_six, target_text,
};
use crate::note::{Note, Why};
use pdus::pdu_header::Kind;
use pdus::pdu_header::base::{NoMemory, Octets};
use pdus::pdu_header::nsaps::{Address, Snpa, Target};
use pdus::pdu_header::views::Frame;
use std::alloc::Global;
use system_tables::esis_tables::{Heard, TableKind};

/// Which lines of moves are written.
#[derive(Clone, Copy)]
pub enum Telling {
    /// Those of a journal: what systems note and transmit, and the copies that aren't given.
    Journal,
    /// Those of a trace: beside these what becomes of each copy.
    Trace,
}

/// Appends the line of a note: the moment in ticks of 500 ms, the system's name, and the note.
///
/// # Errors
///
/// `NoMemory`; `out` is then as it was.
pub fn journal_text<'a>(
    _alloc: Global,
    now: u64,
    name: &'a [u8],
    note: &'a Note,
    out: &mut Vec<u8>,
) -> Result<(), NoMemory>
    ensures written { OnOk result (out.new.items ≡ out.old.items ++ line_text (Noted now name.now note.now)) }
    ensures same { OnErr result (out.new.items ≡ out.old.items) }
{
    let start = Start { moment: now, name };
    match *note {
        Note::Sent {
            kind,
            unit,
            id,
            ref from,
            ref to,
            len,
        } => push_sent(start, kind, unit, id, from, to, len, out),
        Note::Refused { why, value } => {
            push_two(start, b"refused", why_word(why), Word::Number(value), out)
        }
        Note::Got {
            ref from,
            ref to,
            ref octets,
        } => push_got(start, from, to, octets, out),
        Note::Report {
            ref from,
            ref to,
            reason,
            place,
            ref octets,
        } => push_report(start, from, to, reason, place, octets, out),
        Note::Echoed {
            ref from,
            ref to,
            unit,
        } => push_echoed(start, from, to, unit, out),
        Note::Stray { ref from, ref to } => push_stray(start, from, to, out),
        Note::Discard { reason, place } => {
            push_two(start, b"drop", Word::Octet(reason), Word::Octet(place), out)
        }
        Note::Held { id, offset, held } => push_held(start, id, offset, held, out),
        Note::Repeat { id, offset } => push_segment(start, b"repeat", id, u64::from(offset), out),
        Note::Crowded { held, size } => push_crowded(start, held, size, out),
        Note::Many { kept } => push_one(start, b"many", Word::Number(u64::from(kept)), out),
        Note::NoSlot { live } => push_one(start, b"noslot", Word::Number(u64::from(live)), out),
        Note::Interference { id } => push_one(start, b"interference", Word::Identifier(id), out),
        Note::Expired { id, held } => push_segment(start, b"expired", id, u64::from(held), out),
        Note::NotMine { ref to } => push_one(start, b"notmine", Word::Address(to), out),
        Note::Alien => push_label(start, b"alien", out),
        Note::BadEsis { rule, place } => {
            push_two(start, b"badesis", rule_word(rule), Word::Octet(place), out)
        }
        Note::Hear {
            table,
            ref key,
            heard,
        } => push_hearing(start, table, key, heard, out),
        Note::Gone { table, ref key } => {
            push_two(start, b"gone", table_word(table), Word::Address(key), out)
        }
        Note::Ignored { rd } => push_one(start, b"ignored", ignored_word(rd), out),
        Note::Restart => push_label(start, b"restart", out),
        Note::Congest { on } => push_one(start, b"congest", on_or_off(on), out),
        Note::Route { ref prefix } => push_one(start, b"route", Word::Prefix(prefix), out),
        Note::Unroute { ref prefix, there } => {
            push_two(
                start,
                b"unroute",
                Word::Prefix(prefix),
                yes_or_no(there),
                out,
            )
        }
        Note::Port {
            port,
            ref subnet,
            ref snpa,
        } => push_port(start, port, subnet, snpa, out),
    }
}

/// How a system's line begins.
#[derive(Clone, Copy)]
struct Start<'a> {
    /// The moment, in ticks of 500 ms.
    moment: u64,
    /// The system's name.
    name: &'a [u8],
}

/// Appends the line of a unit that was made.
fn push_sent<'a>(
    start: Start<'a>,
    kind: Kind,
    unit: u64,
    id: Option<u16>,
    from: &'a Address,
    to: &'a Address,
    len: u32,
    out: &mut Vec<u8>,
) -> Result<(), NoMemory>
    ensures written { OnOk result (out.new.items ≡ out.old.items
        ++ line_from start.entry (codes "sent" ∷ kind_word kind ∷ decimal unit ∷ identifier_word id ∷ hex_text from.now ∷ hex_text to.now ∷ decimal len ∷ [])) }
    ensures same { OnErr result (out.new.items ≡ out.old.items) }
{
    let words = [
        Word::Text(start.name),
        Word::Text(b"sent"),
        kind_word(kind),
        Word::Number(unit),
        identifier_word(id),
        Word::Address(from),
        Word::Address(to),
        Word::Number(u64::from(len)),
    ];
    push_line(Word::Number(start.moment), &words, out)
}

/// Appends the line of a data unit that was handed up.
fn push_got<'a>(
    start: Start<'a>,
    from: &'a Address,
    to: &'a Address,
    octets: &'a Octets,
    out: &mut Vec<u8>,
) -> Result<(), NoMemory>
    ensures written { OnOk result (out.new.items ≡ out.old.items
        ++ line_from start.entry (codes "got" ∷ hex_text from.now ∷ hex_text to.now ∷ octets_word octets.now ∷ [])) }
    ensures same { OnErr result (out.new.items ≡ out.old.items) }
{
    let octets = octets_word(octets.as_bytes());
    push_three(
        start,
        b"got",
        Word::Address(from),
        Word::Address(to),
        octets,
        out,
    )
}

/// Appends the line of an error report that was handed up.
fn push_report<'a>(
    start: Start<'a>,
    from: &'a Address,
    to: &'a Address,
    reason: u8,
    place: u8,
    octets: &'a Octets,
    out: &mut Vec<u8>,
) -> Result<(), NoMemory>
    ensures written { OnOk result (out.new.items ≡ out.old.items
        ++ line_from start.entry (codes "report" ∷ hex_text from.now ∷ hex_text to.now ∷ octet_word reason ∷ octet_word place ∷ octets_word octets.now ∷ [])) }
    ensures same { OnErr result (out.new.items ≡ out.old.items) }
{
    let words = [
        Word::Text(start.name),
        Word::Text(b"report"),
        Word::Address(from),
        Word::Address(to),
        Word::Octet(reason),
        Word::Octet(place),
        octets_word(octets.as_bytes()),
    ];
    push_line(Word::Number(start.moment), &words, out)
}

/// Appends the line of an echo reply for a request of the system's own.
fn push_echoed<'a>(
    start: Start<'a>,
    from: &'a Address,
    to: &'a Address,
    unit: u64,
    out: &mut Vec<u8>,
) -> Result<(), NoMemory>
    ensures written { OnOk result (out.new.items ≡ out.old.items
        ++ line_from start.entry (codes "echoed" ∷ hex_text from.now ∷ hex_text to.now ∷ decimal unit ∷ [])) }
    ensures same { OnErr result (out.new.items ≡ out.old.items) }
{
    let unit = Word::Number(unit);
    push_three(
        start,
        b"echoed",
        Word::Address(from),
        Word::Address(to),
        unit,
        out,
    )
}

/// Appends the line of a segment that was kept.
fn push_held(
    start: Start<'_>,
    id: u16,
    offset: u16,
    held: u32,
    out: &mut Vec<u8>,
) -> Result<(), NoMemory>
    ensures written { OnOk result (out.new.items ≡ out.old.items
        ++ line_from start.entry (codes "held" ∷ hex_text (pair_of id) ∷ decimal offset ∷ decimal held ∷ [])) }
    ensures same { OnErr result (out.new.items ≡ out.old.items) }
{
    let offset = Word::Number(u64::from(offset));
    let held = Word::Number(u64::from(held));
    push_three(start, b"held", Word::Identifier(id), offset, held, out)
}

/// Appends the line of an echo reply for no request.
fn push_stray<'a>(
    start: Start<'a>,
    from: &'a Address,
    to: &'a Address,
    out: &mut Vec<u8>,
) -> Result<(), NoMemory>
    ensures written { OnOk result (out.new.items ≡ out.old.items
        ++ line_from start.entry (codes "stray" ∷ hex_text from.now ∷ hex_text to.now ∷ [])) }
    ensures same { OnErr result (out.new.items ≡ out.old.items) }
{
    push_two(start, b"stray", Word::Address(from), Word::Address(to), out)
}

/// Appends the line of a segment or a buffer: its identifier and a number.
fn push_segment<'a>(
    start: Start<'a>,
    label: &'a [u8],
    id: u16,
    number: u64,
    out: &mut Vec<u8>,
) -> Result<(), NoMemory>
    ensures written { OnOk result (out.new.items ≡ out.old.items
        ++ line_from start.entry (label.now ∷ hex_text (pair_of id) ∷ decimal number ∷ [])) }
    ensures same { OnErr result (out.new.items ≡ out.old.items) }
{
    push_two(
        start,
        label,
        Word::Identifier(id),
        Word::Number(number),
        out,
    )
}

/// Appends the line of a segment that isn't kept for its octets.
fn push_crowded(start: Start<'_>, held: u32, size: u32, out: &mut Vec<u8>) -> Result<(), NoMemory>
    ensures written { OnOk result (out.new.items ≡ out.old.items
        ++ line_from start.entry (codes "crowded" ∷ decimal held ∷ decimal size ∷ [])) }
    ensures same { OnErr result (out.new.items ≡ out.old.items) }
{
    let held = Word::Number(u64::from(held));
    let size = Word::Number(u64::from(size));
    push_two(start, b"crowded", held, size, out)
}

/// Appends the line of a hearing.
fn push_hearing<'a>(
    start: Start<'a>,
    table: TableKind,
    key: &'a Address,
    heard: Heard,
    out: &mut Vec<u8>,
) -> Result<(), NoMemory>
    ensures written { OnOk result (out.new.items ≡ out.old.items
        ++ line_from start.entry (codes "hear" ∷ table_word table ∷ hex_text key.now ∷ heard_words heard)) }
    ensures same { OnErr result (out.new.items ≡ out.old.items) }
{
    match heard {
        Heard::New => push_outcome(start, table, key, b"new", out),
        Heard::Again => push_outcome(start, table, key, b"again", out),
        Heard::Zero => push_outcome(start, table, key, b"zero", out),
        Heard::Full { entries } => push_full(start, table, key, entries, out),
    }
}

/// Appends the line of a hearing whose outcome is one text.
#[inline(always)]
fn push_outcome<'a>(
    start: Start<'a>,
    table: TableKind,
    key: &'a Address,
    how: &'a [u8],
    out: &mut Vec<u8>,
) -> Result<(), NoMemory>
    ensures written { OnOk result (out.new.items ≡ out.old.items
        ++ line_from start.entry (codes "hear" ∷ table_word table ∷ hex_text key.now ∷ how.now ∷ [])) }
    ensures same { OnErr result (out.new.items ≡ out.old.items) }
{
    push_line_of_six(
        Word::Number(start.moment),
        Word::Text(start.name),
        Word::Text(b"hear"),
        table_word(table),
        Word::Address(key),
        Word::Text(how),
        out,
    )
}

/// Appends the line of a hearing that a full table has no room for.
fn push_full<'a>(
    start: Start<'a>,
    table: TableKind,
    key: &'a Address,
    entries: u16,
    out: &mut Vec<u8>,
) -> Result<(), NoMemory>
    ensures written { OnOk result (out.new.items ≡ out.old.items
        ++ line_from start.entry (codes "hear" ∷ table_word table ∷ hex_text key.now ∷ codes "full" ∷ decimal entries ∷ [])) }
    ensures same { OnErr result (out.new.items ≡ out.old.items) }
{
    let words = [
        Word::Text(start.name),
        Word::Text(b"hear"),
        table_word(table),
        Word::Address(key),
        Word::Text(b"full"),
        Word::Number(u64::from(entries)),
    ];
    push_line(Word::Number(start.moment), &words, out)
}

/// Appends the line of a port that was put on a subnetwork.
fn push_port<'a>(
    start: Start<'a>,
    port: u8,
    subnet: &'a Octets,
    snpa: &'a Snpa,
    out: &mut Vec<u8>,
) -> Result<(), NoMemory>
    ensures written { OnOk result (out.new.items ≡ out.old.items
        ++ line_from start.entry (codes "port" ∷ decimal port ∷ subnet.now ∷ hex_text snpa.now ∷ [])) }
    ensures same { OnErr result (out.new.items ≡ out.old.items) }
{
    let port = Word::Number(u64::from(port));
    let subnet = Word::Text(subnet.as_bytes());
    let snpa = Word::Octets(snpa.as_bytes());
    push_three(start, b"port", port, subnet, snpa, out)
}

/// Appends the line of a label alone.
fn push_label<'a>(start: Start<'a>, label: &'a [u8], out: &mut Vec<u8>) -> Result<(), NoMemory>
    ensures written { OnOk result (out.new.items ≡ out.old.items ++ line_from start.entry (label.now ∷ [])) }
    ensures same { OnErr result (out.new.items ≡ out.old.items) }
{
    let words = [Word::Text(start.name), Word::Text(label)];
    push_line(Word::Number(start.moment), &words, out)
}

/// Appends the line of a label and a word.
#[inline(always)]
fn push_one<'a>(
    start: Start<'a>,
    label: &'a [u8],
    word: Word<'a>,
    out: &mut Vec<u8>,
) -> Result<(), NoMemory>
    ensures written { OnOk result (out.new.items ≡ out.old.items
        ++ line_from start.entry (label.now ∷ word_text word.entry ∷ [])) }
    ensures same { OnErr result (out.new.items ≡ out.old.items) }
{
    let words = [Word::Text(start.name), Word::Text(label), word];
    push_line(Word::Number(start.moment), &words, out)
}

/// Appends the line of a label and two words.
#[inline(always)]
fn push_two<'a>(
    start: Start<'a>,
    label: &'a [u8],
    one: Word<'a>,
    two: Word<'a>,
    out: &mut Vec<u8>,
) -> Result<(), NoMemory>
    ensures written { OnOk result (out.new.items ≡ out.old.items
        ++ line_from start.entry (label.now ∷ word_text one.entry ∷ word_text two.entry ∷ [])) }
    ensures same { OnErr result (out.new.items ≡ out.old.items) }
{
    let words = [Word::Text(start.name), Word::Text(label), one, two];
    push_line(Word::Number(start.moment), &words, out)
}

/// Appends the line of a label and three words.
#[inline(always)]
fn push_three<'a>(
    start: Start<'a>,
    label: &'a [u8],
    one: Word<'a>,
    two: Word<'a>,
    three: Word<'a>,
    out: &mut Vec<u8>,
) -> Result<(), NoMemory>
    ensures written { OnOk result (out.new.items ≡ out.old.items
        ++ line_from start.entry (label.now ∷ word_text one.entry ∷ word_text two.entry ∷ word_text three.entry ∷ [])) }
    ensures same { OnErr result (out.new.items ≡ out.old.items) }
{
    let words = [Word::Text(start.name), Word::Text(label), one, two, three];
    push_line(Word::Number(start.moment), &words, out)
}

/// Appends the line of a frame that a system transmitted on a port, as the copy with a number.
///
/// # Errors
///
/// `NoMemory`; `out` is then as it was.
pub fn transmission_text<'a>(
    _alloc: Global,
    now: u64,
    name: &'a [u8],
    copy: u64,
    port: u8,
    target: Target,
    frame: &'a Frame,
    out: &mut Vec<u8>,
) -> Result<(), NoMemory>
    ensures written { OnOk result (out.new.items ≡ out.old.items
        ++ line_text (Transmitted now name.now copy port target frame.now)) }
    ensures same { OnErr result (out.new.items ≡ out.old.items) }
{
    let words = [
        Word::Text(name),
        Word::Text(b"tx"),
        Word::Number(copy),
        Word::Number(u64::from(port)),
        target_text(&target),
        frame_word(frame),
    ];
    push_line(Word::Number(now), &words, out)
}

/// Appends the line of a copy that isn't there for a system to be given.
///
/// # Errors
///
/// `NoMemory`; `out` is then as it was.
pub fn void_text(
    _alloc: Global,
    now: u64,
    name: &[u8],
    copy: u32,
    out: &mut Vec<u8>,
) -> Result<(), NoMemory>
    ensures written { OnOk result (out.new.items ≡ out.old.items ++ line_text (Void now name.now copy)) }
    ensures same { OnErr result (out.new.items ≡ out.old.items) }
{
    let words = [
        Word::Text(name),
        Word::Text(b"void"),
        Word::Number(u64::from(copy)),
    ];
    push_line(Word::Number(now), &words, out)
}

/// Appends the line of a copy that is too old for a system to be given.
///
/// # Errors
///
/// `NoMemory`; `out` is then as it was.
pub fn late_text(
    _alloc: Global,
    now: u64,
    name: &[u8],
    copy: u64,
    out: &mut Vec<u8>,
) -> Result<(), NoMemory>
    ensures written { OnOk result (out.new.items ≡ out.old.items ++ line_text (Late now name.now copy)) }
    ensures same { OnErr result (out.new.items ≡ out.old.items) }
{
    let words = [Word::Text(name), Word::Text(b"late"), Word::Number(copy)];
    push_line(Word::Number(now), &words, out)
}

/// Appends the line of a frame from outside that became the copy with a number on a subnetwork, from an address
/// there to a target.
///
/// # Errors
///
/// `NoMemory`; `out` is then as it was.
pub fn injection_text<'a>(
    _alloc: Global,
    now: u64,
    copy: u64,
    subnet: &'a [u8],
    sender: &'a Snpa,
    target: &'a Target,
    out: &mut Vec<u8>,
) -> Result<(), NoMemory>
    ensures written { OnOk result (out.new.items ≡ out.old.items
        ++ line_text (Injected now copy subnet.now sender.now target.now)) }
    ensures same { OnErr result (out.new.items ≡ out.old.items) }
{
    let words = [
        Word::Text(b"-"),
        Word::Text(b"inject"),
        Word::Number(copy),
        Word::Text(subnet),
        Word::Octets(sender.as_bytes()),
        target_text(target),
    ];
    push_line(Word::Number(now), &words, out)
}

/// Appends the line of a subnetwork that takes frames of so many octets from now on.
///
/// # Errors
///
/// `NoMemory`; `out` is then as it was.
pub fn resize_text<'a>(
    _alloc: Global,
    now: u64,
    subnet: &'a [u8],
    mtu: u16,
    out: &mut Vec<u8>,
) -> Result<(), NoMemory>
    ensures written { OnOk result (out.new.items ≡ out.old.items ++ line_text (Resized now subnet.now mtu)) }
    ensures same { OnErr result (out.new.items ≡ out.old.items) }
{
    let words = [
        Word::Text(b"-"),
        Word::Text(b"mtu"),
        Word::Text(subnet),
        Word::Number(u64::from(mtu)),
    ];
    push_line(Word::Number(now), &words, out)
}

/// Appends the line of a trace that tells of a copy that is given to a system on a port.
///
/// # Errors
///
/// `NoMemory`; `out` is then as it was.
pub fn receipt_text(
    _alloc: Global,
    now: u64,
    name: &[u8],
    copy: u64,
    port: u8,
    out: &mut Vec<u8>,
) -> Result<(), NoMemory>
    ensures written { OnOk result (out.new.items ≡ out.old.items ++ trace_text (Received now name.now copy port)) }
    ensures same { OnErr result (out.new.items ≡ out.old.items) }
{
    let words = [
        Word::Text(name),
        Word::Text(b"rx"),
        Word::Number(copy),
        Word::Number(u64::from(port)),
    ];
    push_line(Word::Number(now), &words, out)
}

/// Appends the line of a trace that tells of a copy that is lost.
///
/// # Errors
///
/// `NoMemory`; `out` is then as it was.
pub fn loss_text(_alloc: Global, now: u64, copy: u64, out: &mut Vec<u8>) -> Result<(), NoMemory>
    ensures written { OnOk result (out.new.items ≡ out.old.items ++ trace_text (Lost now copy)) }
    ensures same { OnErr result (out.new.items ≡ out.old.items) }
{
    let words = [Word::Text(b"-"), Word::Text(b"lost"), Word::Number(copy)];
    push_line(Word::Number(now), &words, out)
}

/// Appends the line of a trace that tells of a copy that is settled and is for nobody.
///
/// # Errors
///
/// `NoMemory`; `out` is then as it was.
pub fn nobody_text(_alloc: Global, now: u64, copy: u64, out: &mut Vec<u8>) -> Result<(), NoMemory>
    ensures written { OnOk result (out.new.items ≡ out.old.items ++ trace_text (ForNobody now copy)) }
    ensures same { OnErr result (out.new.items ≡ out.old.items) }
{
    let words = [Word::Text(b"-"), Word::Text(b"nobody"), Word::Number(copy)];
    push_line(Word::Number(now), &words, out)
}

/// Appends the last line of a journal: the clock and the number of copies.
///
/// # Errors
///
/// `NoMemory`; `out` is then as it was.
pub fn push_end(_alloc: Global, now: u64, copies: u64, out: &mut Vec<u8>) -> Result<(), NoMemory>
    ensures written { OnOk result (out.new.items ≡ out.old.items ++ end_text now copies) }
    ensures same { OnErr result (out.new.items ≡ out.old.items) }
{
    push_line(
        Word::Text(b"end"),
        &[Word::Number(now), Word::Number(copies)],
        out,
    )
}

/// The word of whom was heard of.
fn table_word(table: TableKind) -> Word<'static>
    ensures { word_text result ≡ table_word table }
{
    match table {
        TableKind::Es => Word::Text(b"es"),
        TableKind::Is => Word::Text(b"is"),
        TableKind::Rd => Word::Text(b"rd"),
    }
}

/// Whether a route was there.
fn yes_or_no(there: bool) -> Word<'static>
    ensures { word_text result ≡ yes_or_no there }
{
    if there {
        Word::Text(b"yes")
    } else {
        Word::Text(b"no")
    }
}

/// The word of a rule of ES-IS PDUs, by its number.
fn rule_word(rule: u8) -> Word<'static>
    ensures { word_text result ≡ rule_word rule }
{
    Word::KeyedNumber(b"E", u64::from(rule))
}

/// The word of what isn't heard: a redirect, or an intermediate system's hello.
fn ignored_word(rd: bool) -> Word<'static>
    ensures { word_text result ≡ ignored_word rd }
{
    if rd {
        Word::Text(b"rd")
    } else {
        Word::Text(b"ish")
    }
}

/// The word of why a unit wasn't made.
fn why_word(why: Why) -> Word<'static>
    ensures { word_text result ≡ why_word why }
{
    match why {
        Why::NotMine => Word::Text(b"not-mine"),
        Why::TooLong => Word::Text(b"too-long"),
        Why::Quiet => Word::Text(b"quiet"),
        Why::IdsBusy => Word::Text(b"ids-busy"),
    }
}

/// The word of a data unit identifier, which is `-` for a unit without a segmentation part.
fn identifier_word(identifier: Option<u16>) -> Word<'static>
    ensures { word_text result ≡ identifier_word identifier }
{
    match identifier {
        Some(identifier) => Word::Identifier(identifier),
        None => Word::Text(b"-"),
    }
}
