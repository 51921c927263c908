//! Shown lines packed.
ghost use Rattle.std.specs.Prelude.{◌≡◌, ◌≢◌, ◌↔◌, ◌++◌, ℕ, List, Some, true, false, IfErr, IfOk, MatchResult};
ghost use Rattle.pdus.specs.Nsap.Text.{hex_text};
ghost use Rattle.pdus.specs.ClnpBase.Text.{words_of};
ghost use Rattle.hex.specs.Hex.{IsBytes};
ghost use Rattle.captures.specs.Captures.{is_skipped};
ghost use Rattle.captures.specs.Shown.{Shows};
ghost use Rattle.captures.specs.CaptureText.Laid as laid;
ghost use Rattle.captures.specs.CaptureText.Packing.{IsNotShown, Lacks, Packs, PacksTooMuch, PacksWithin, Tells, is_unpackable};

use crate::base::{DigitValues, push_hex, same};
use crate::capture_text::laid::frame_of;
use crate::capture_text::refusal::PackRefusal;
use crate::capture_text::words::is_unpackable;
use crate::many::show_line;
use crate::{MOST_OCTETS, is_skipped, laws};
use std::alloc::Global;

/// Appends the digits of the frame that a shown line packs to, and answers true; or answers false where the line is to
/// be skipped.
///
/// A line is skipped where it is empty or begins with `#`. Otherwise it packs to the one frame, if there is one, that
/// is accepted as a PDU of CLNP or ES-IS (ISO 8473, section 7; ISO 9542, section 7) and is shown by this very line:
/// `ish hold=120 sum=b1cd title=470027ff rest=` packs to `820e0100040078b1cd04470027ff`. The frame is written in
/// hexadecimal digits in lower case. `values` is what digits are worth, to be asked once for all lines.
///
/// # Errors
///
/// `NotPackable` where the line is `alien` or begins with `refused `; `NotShown` where it has another form and no
/// accepted frame is shown by it; `Count` where its frame has more than 70,000 octets; and `NoMemory`. Unless the
/// answer is true, `out` is as it was.
pub fn pack_line(
    alloc: Global,
    values: &DigitValues,
    line: &[u8],
    out: &mut Vec<u8>,
) -> Result<bool, PackRefusal>
    ensures skipped { (result ≡ Ok false) ↔ (is_skipped line.now ≡ true) }
    ensures not_packable { (result ≡ Err PackRefusal.NotPackable) ↔ (is_unpackable line.now ≡ true) }
    ensures not_shown { result ≢ Err PackRefusal.NoMemory
        → (result ≡ Err PackRefusal.NotShown) ↔ IsNotShown line.now }
    ensures count { result ≢ Err PackRefusal.NoMemory
        → (result ≡ Err PackRefusal.Count) ↔ PacksTooMuch line.now }
    ensures packed { result ≢ Err PackRefusal.NoMemory
        → (result ≡ Ok true) ↔ ((frame : List ℕ) × PacksWithin line.now frame) }
    ensures written { (frame : List ℕ) → result ≡ Ok true → Packs line.now frame
        → out.new.items ≡ out.old.items ++ hex_text frame }
    ensures same { result ≢ Ok true → out.new.items ≡ out.old.items }
{
    pack_told(alloc, values, line, out)
}

/// Packs a line; the answer tells what the line is.
fn pack_told(
    alloc: Global,
    values: &DigitValues,
    line: &[u8],
    out: &mut Vec<u8>,
) -> Result<bool, PackRefusal>
    ensures told { Tells result line.now }
    ensures written { (frame : List ℕ) → result ≡ Ok true → Packs line.now frame
        → out.new.items ≡ out.old.items ++ hex_text frame }
    ensures same { result ≢ Ok true → out.new.items ≡ out.old.items }
{
    if is_skipped(line) {
        return Ok(false);
    }
    if is_unpackable(line) {
        return Err(PackRefusal::NotPackable);
    }
    let frame = packed(alloc, values, line)?;
    if frame.len() > MOST_OCTETS {
        return Err(PackRefusal::Count);
    }
    push_hex(&frame, out)?;
    Ok(true)
}

/// The frame that a line packs to: the one that its words can say, where that is shown by this line.
fn packed(alloc: Global, values: &DigitValues, line: &[u8]) -> Result<Vec<u8>, PackRefusal>
    requires { is_unpackable line.now ≡ false }
    ensures { MatchResult result (λ frame. Packs line.now frame.items) (λ refusal. Lacks refusal line.now) }
{
    match frame_of(alloc, values, line) {
        Ok(frame) => shown_by(alloc, line, frame),
        Err(refusal) => Err(refusal),
    }
}

/// The frame that the words of a line can say, where it is shown by this line.
fn shown_by(alloc: Global, line: &[u8], frame: Vec<u8>) -> Result<Vec<u8>, PackRefusal>
    requires packable { is_unpackable line.now ≡ false }
    requires read { laid.frame_of (words_of line.now) ≡ Some frame.items }
    ensures { MatchResult result (λ frame. Packs line.now frame.items) (λ refusal. Lacks refusal line.now) }
{
    // Its clause: no other line shows the frame.
    laws::one_line();
    let shown = shown(alloc, &frame, line.len())?;
    if same(&shown, line) {
        Ok(frame)
    } else {
        Err(PackRefusal::NotShown)
    }
}

/// The line that shows a frame, which may have about so many octets.
fn shown(alloc: Global, frame: &[u8], room: usize) -> Result<Vec<u8>, PackRefusal>
    ensures line { IfOk result (λ line. Shows frame.now line.items) }
    ensures refused { IfErr result (λ refusal. refusal ≡ PackRefusal.NoMemory) }
    ensures octets { IsBytes frame.now }
{
    let mut line = Vec::with_capacity(alloc, room)?;
    show_line(frame, &mut line)?;
    Ok(line)
}
