//! The lines that tell what comes of frames: words separated by one space, each line ended by `\n`.
ghost use Rattle.std.specs.Prelude.{◌≡◌, [], ◌∷◌, ◌++◌, codes, OnOk};
ghost use Rattle.std.specs.Fmt.{decimal};
ghost use Rattle.scenario.specs.Nsap.Text.{hex_text};
ghost use Rattle.scenario.specs.PduHeader.Spelling.{pair_of};
ghost use Rattle.scenario.specs.ClnpPlan.Journal.{kind_word, line_of, octets_word};
ghost use Rattle.scenario.specs.ClnpPlan.Words.{word_text};
ghost use Rattle.clnp_program.specs.FairCommands.Output.{end_line, told_line};
ghost use Rattle.clnp_program.specs.FairCommands.Telling.{told_by};

use scenario::base::NoMemory;
use scenario::clnp::Kind;
use scenario::nsaps::Address;
use scenario::system_plan::{Word, kind_word, octets_word, push_line};

/// What is told of a frame that came. `from` and `to` are source and destination of its PDU, `id` is the data unit
/// identifier, `held` is how many octets the source's table holds then.
#[derive(Clone, Copy)]
pub enum Told<'a> {
    /// No PDU stands at its front.
    Unread,
    /// The time of a buffer has ended.
    Expired {
        from: &'a Address,
        to: &'a Address,
        id: u16,
        held: u32,
    },
    /// The lifetime of its PDU is over.
    Dead {
        from: &'a Address,
    },
    /// A unit is whole, with these octets.
    Joined {
        from: &'a Address,
        to: &'a Address,
        kind: Kind,
        octets: &'a [u8],
    },
    /// Its segment is kept, whose data begin at `offset` of the unit's.
    Held {
        from: &'a Address,
        id: u16,
        offset: u16,
        held: u32,
    },
    /// Its segment has no octet that isn't kept already.
    Repeat {
        from: &'a Address,
        id: u16,
        offset: u16,
    },
    /// The buffer of its segment is that of a unit of another shape.
    Interference {
        from: &'a Address,
        id: u16,
    },
    /// Every buffer is taken: so many are.
    NoSlot {
        from: &'a Address,
        live: u16,
    },
    /// Too many octets would be held: so many are, and the frame has `size` octets.
    Crowded {
        from: &'a Address,
        held: u32,
        size: u32,
    },
    /// As many segments are kept as may be.
    Many {
        from: &'a Address,
        kept: u16,
    },
}

/// Appends the line that tells something at a moment, in ticks of 500 ms.
///
/// # Errors
///
/// `NoMemory`: some of the line may stand behind what was there.
pub fn push_told<'a>(moment: u64, told: Told<'a>, out: &mut Vec<u8>) -> Result<(), NoMemory>
    ensures { OnOk result (out.new.items ≡ out.old.items ++ told_line moment (told_by told.entry)) }
{
    match told {
        Told::Unread => push_line(Word::Number(moment), &[Word::Text(b"unread")], out),
        Told::Dead { from } => push_label(moment, b"dead", from, out),
        Told::Expired { from, to, id, held } => push_expired(moment, from, to, id, held, out),
        Told::Joined {
            from,
            to,
            kind,
            octets,
        } => push_joined(moment, from, to, kind, octets, out),
        Told::Held {
            from,
            id,
            offset,
            held,
        } => push_held(moment, from, id, offset, held, out),
        Told::Repeat { from, id, offset } => {
            let offset = Word::Number(u64::from(offset));
            push_two(moment, b"repeat", from, Word::Identifier(id), offset, out)
        }
        Told::Interference { from, id } => {
            push_one(moment, b"interference", from, Word::Identifier(id), out)
        }
        Told::NoSlot { from, live } => {
            push_one(moment, b"noslot", from, Word::Number(u64::from(live)), out)
        }
        Told::Crowded { from, held, size } => {
            let held = Word::Number(u64::from(held));
            let size = Word::Number(u64::from(size));
            push_two(moment, b"crowded", from, held, size, out)
        }
        Told::Many { from, kept } => {
            push_one(moment, b"many", from, Word::Number(u64::from(kept)), out)
        }
    }
}

/// Appends the last line, with the number of frames.
///
/// # Errors
///
/// `NoMemory`: some of the line may stand behind what was there.
pub fn push_end(frames: usize, out: &mut Vec<u8>) -> Result<(), NoMemory>
    ensures { OnOk result (out.new.items ≡ out.old.items ++ end_line frames) }
{
    push_line(Word::Text(b"end"), &[Word::Number(frames as u64)], out)
}

/// Appends the line of a buffer whose time has ended.
fn push_expired<'a>(
    moment: u64,
    from: &'a Address,
    to: &'a Address,
    id: u16,
    held: u32,
    out: &mut Vec<u8>,
) -> Result<(), NoMemory>
    ensures { OnOk result (out.new.items ≡ out.old.items
        ++ line_of (decimal moment) (codes "expired" ∷ hex_text from.now ∷ hex_text to.now ∷ hex_text (pair_of id) ∷ decimal held ∷ [])) }
{
    let words = [
        Word::Text(b"expired"),
        Word::Address(from),
        Word::Address(to),
        Word::Identifier(id),
        Word::Number(u64::from(held)),
    ];
    push_line(Word::Number(moment), &words, out)
}

/// Appends the line of a unit that is whole.
fn push_joined<'a>(
    moment: u64,
    from: &'a Address,
    to: &'a Address,
    kind: Kind,
    octets: &'a [u8],
    out: &mut Vec<u8>,
) -> Result<(), NoMemory>
    ensures { OnOk result (out.new.items ≡ out.old.items
        ++ line_of (decimal moment) (codes "unit" ∷ hex_text from.now ∷ hex_text to.now ∷ kind_word kind ∷ octets_word octets.now ∷ [])) }
{
    let words = [
        Word::Text(b"unit"),
        Word::Address(from),
        Word::Address(to),
        kind_word(kind),
        octets_word(octets),
    ];
    push_line(Word::Number(moment), &words, out)
}

/// Appends the line of a segment that is kept.
fn push_held<'a>(
    moment: u64,
    from: &'a Address,
    id: u16,
    offset: u16,
    held: u32,
    out: &mut Vec<u8>,
) -> Result<(), NoMemory>
    ensures { OnOk result (out.new.items ≡ out.old.items
        ++ line_of (decimal moment) (codes "held" ∷ hex_text from.now ∷ hex_text (pair_of id) ∷ decimal offset ∷ decimal held ∷ [])) }
{
    let words = [
        Word::Text(b"held"),
        Word::Address(from),
        Word::Identifier(id),
        Word::Number(u64::from(offset)),
        Word::Number(u64::from(held)),
    ];
    push_line(Word::Number(moment), &words, out)
}

/// Appends the line of a label and a source.
fn push_label<'a>(
    moment: u64,
    label: &'a [u8],
    from: &'a Address,
    out: &mut Vec<u8>,
) -> Result<(), NoMemory>
    ensures { OnOk result (out.new.items ≡ out.old.items ++ line_of (decimal moment) (label.now ∷ hex_text from.now ∷ [])) }
{
    let words = [Word::Text(label), Word::Address(from)];
    push_line(Word::Number(moment), &words, out)
}

/// Appends the line of a label, a source and a word.
fn push_one<'a>(
    moment: u64,
    label: &'a [u8],
    from: &'a Address,
    word: Word<'a>,
    out: &mut Vec<u8>,
) -> Result<(), NoMemory>
    ensures { OnOk result (out.new.items ≡ out.old.items
        ++ line_of (decimal moment) (label.now ∷ hex_text from.now ∷ word_text word.entry ∷ [])) }
{
    let words = [Word::Text(label), Word::Address(from), word];
    push_line(Word::Number(moment), &words, out)
}

/// Appends the line of a label, a source and two words.
fn push_two<'a>(
    moment: u64,
    label: &'a [u8],
    from: &'a Address,
    one: Word<'a>,
    two: Word<'a>,
    out: &mut Vec<u8>,
) -> Result<(), NoMemory>
    ensures { OnOk result (out.new.items ≡ out.old.items
        ++ line_of (decimal moment) (label.now ∷ hex_text from.now ∷ word_text one.entry ∷ word_text two.entry ∷ [])) }
{
    let words = [Word::Text(label), Word::Address(from), one, two];
    push_line(Word::Number(moment), &words, out)
}
