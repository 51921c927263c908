//! The lines that say how many buffers, segments and octets there are for which sources.
ghost use Rattle.std.specs.Prelude.{◌≡◌, ◌+◌, ◌<◌, ◌≤◌, ◌∷◌, ◌++◌, [], ◌^◌, map, sum, length, true, IfOk, Ok, Err, MatchResult};
ghost use Rattle.std.specs.Str.{bytes_eq};
ghost use Rattle.scenario.specs.ClnpBase.Text.{words_of};
ghost use Rattle.scenario.specs.Refusal.{Faults};
ghost use Rattle.system_tables.specs.declared.reassembly.table.TableLimits.{TableLimits as Limits};
ghost use Rattle.clnp_program.specs.FairCommands.Grammar.{are_few, budget_word, has_share, more_shares, others_line, segments_word, share_line, slots_word};
ghost use Rattle.system_tables.specs.FairReassembly.Tables.{limits_of};

use scenario::nsaps::Address;
use scenario::word::{address_word, five_words, literal, number_word};
use scenario::{Code, LineFault};
use system_tables::fair_reassembly::Share;
use system_tables::fair_reassembly::reassembling::TableLimits;

/// How many buffers a table has at most.
fn slots_word(word: &[u8]) -> Result<u16, Code>
    ensures { result ≡ slots_word word.now }
{
    let slots = number_word(1, 1024, word)?;
    Ok(slots as u16)
}

/// How many segments a table keeps at most.
fn segments_word(word: &[u8]) -> Result<u16, Code>
    ensures { result ≡ segments_word word.now }
{
    let segments = number_word(1, 16384, word)?;
    Ok(segments as u16)
}

/// How many octets a table holds at most.
fn budget_word(word: &[u8]) -> Result<u32, Code>
    ensures { result ≡ budget_word word.now }
{
    let budget = number_word(512, 4_194_304, word)?;
    Ok(budget as u32)
}

/// The numbers of the table of all sources without a share.
pub(crate) fn others_line(line: &[u8]) -> Result<TableLimits, Code>
    ensures { result ≡ others_line (words_of line.now) }
{
    let Some((word, slots, segments, budget, hold)) = five_words(line) else {
        return Err(Code::Syntax);
    };
    literal(b"others", word)?;
    let slots = slots_word(slots)?;
    let segments = segments_word(segments)?;
    let budget = budget_word(budget)?;
    let hold = number_word(1, 255, hold)? as u8;
    Ok(TableLimits {
        slots,
        segments,
        budget,
        hold,
    })
}

/// A source that has a share, and the numbers of its table, in which a buffer is kept for `hold`.
fn share_line(hold: u8, line: &[u8]) -> Result<Share, Code>
    ensures { result ≡ share_line hold (words_of line.now) }
{
    let Some((word, from, slots, segments, budget)) = five_words(line) else {
        return Err(Code::Syntax);
    };
    literal(b"share", word)?;
    let from = address_word(from)?;
    let slots = slots_word(slots)?;
    let segments = segments_word(segments)?;
    let budget = budget_word(budget)?;
    let limits = TableLimits {
        slots,
        segments,
        budget,
        hold,
    };
    Ok(Share { from, limits })
}

/// Whether a source has a share.
fn has_share(shares: &[Share], from: &Address) -> bool
    ensures { result ≡ has_share shares.now from.now }
{
    shares.iter().any(|share| is_of(share, from))
}

/// Whether a share is that of a source.
fn is_of(share: &Share, from: &Address) -> bool
    ensures { result ≡ bytes_eq share.now.from from.now }
{
    share.from == *from
}

/// How many segments and octets all tables together keep at most.
#[derive(Clone, Copy)]
pub(crate) struct Sums {
    segments: u64,
    budget: u64,
}

/// The sums over the table of all others and those of some shares, of which there are few.
fn sums_of(others: TableLimits, shares: &[Share]) -> Sums
    requires { length shares.now ≤ 65 }
    ensures segments { result.segments ≡ sum (map (λ (limits : Limits). limits.segments) (limits_of others shares.now)) }
    ensures budget { result.budget ≡ sum (map (λ (limits : Limits). limits.budget) (limits_of others shares.now)) }
{
    let mut segments = u64::from(others.segments);
    let mut budget = u64::from(others.budget);
    for share in shares {
        // Read for their ranges.
        let (more_segments, more_octets) = (share.limits.segments, share.limits.budget);
        segments += u64::from(more_segments);
        budget += u64::from(more_octets);
    }
    Sums { segments, budget }
}

/// Whether the shares are at most 64, and their tables and that of all others together keep at most so many segments and octets.
fn are_few(others: TableLimits, shares: &[Share]) -> bool
    ensures { result ≡ are_few others shares.now }
{
    if shares.len() > 64 {
        return false;
    }
    let sums = sums_of(others, shares);
    sums.segments <= 65_536 && sums.budget <= 16_777_216
}

/// Adds the share that a line tells.
///
/// # Errors
///
/// What the line breaks: `shares` is of no use then. `NoMemory`.
pub(crate) fn declare_share(
    others: TableLimits,
    shares: &mut Vec<Share>,
    line: &[u8],
) -> Result<(), LineFault>
    ensures { let reading = more_shares others shares.old.items (words_of line.now) in
        MatchResult result (λ _. reading ≡ Ok shares.new.items) (λ fault. Faults fault reading) }
{
    let share = share_line(others.hold, line)?;
    if has_share(shares, &share.from) {
        return Err(LineFault::Broken(Code::DupAddress));
    }
    shares.push(share)?;
    if !are_few(others, shares) {
        return Err(LineFault::Broken(Code::Count));
    }
    Ok(())
}
