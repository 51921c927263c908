//! The call of one line: what digits are worth is asked for it alone.
ghost use Rattle.std.specs.Prelude.{◌≡◌, ◌≢◌, ◌↔◌, ◌++◌, ℕ, List, true, false};
ghost use Rattle.pdus.specs.Nsap.Text.{hex_text};
ghost use Rattle.captures.specs.Captures.{is_skipped};
ghost use Rattle.captures.specs.CaptureText.Packing.{IsNotShown, Packs, PacksTooMuch, PacksWithin, is_unpackable};

use crate::base::DigitValues;
use crate::capture_text::many;
use crate::capture_text::refusal::PackRefusal;
use std::alloc::Global;

/// Appends the digits of the frame that a shown line packs to, as `many::pack_line` does.
///
/// # Errors
///
/// Those of `many::pack_line`.
pub fn pack_line(alloc: Global, line: &[u8], out: &mut Vec<u8>) -> Result<bool, PackRefusal>
    ensures skipped { (result ≡ Ok false) ↔ (is_skipped line.now ≡ true) }
    ensures not_packable { (result ≡ Err PackRefusal.NotPackable) ↔ (is_unpackable line.now ≡ true) }
    ensures not_shown { result ≢ Err PackRefusal.NoMemory
        → (result ≡ Err PackRefusal.NotShown) ↔ IsNotShown line.now }
    ensures count { result ≢ Err PackRefusal.NoMemory
        → (result ≡ Err PackRefusal.Count) ↔ PacksTooMuch line.now }
    ensures packed { result ≢ Err PackRefusal.NoMemory
        → (result ≡ Ok true) ↔ ((frame : List ℕ) × PacksWithin line.now frame) }
    ensures written { (frame : List ℕ) → result ≡ Ok true → Packs line.now frame
        → out.new.items ≡ out.old.items ++ hex_text frame }
    ensures same { result ≢ Ok true → out.new.items ≡ out.old.items }
{
    many::pack_line(alloc, &DigitValues::new(), line, out)
}
