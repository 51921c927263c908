//! Laws of the definitions. Each law is the clause of a function that does nothing.

ghost use Rattle.std.specs.Prelude.{◌≡◌, ◌≤◌, ◌*◌, ◌∷◌, ◌++◌, ℕ, List, length};
ghost use Rattle.hex.specs.Hex.{IsBytes};
ghost use Rattle.pdus.specs.ClnpBase.Text.{lines_of};
ghost use Rattle.pdus.specs.Nsap.Text.{hex_text};
ghost use Rattle.captures.specs.Captures.{capture_of, most_octets};
ghost use Rattle.captures.specs.Captures as capture;
ghost use Rattle.captures.specs.CaptureText.Packing.{IsAccepted, IsAsked, Packs};
ghost use Rattle.captures.specs.CaptureText.Outcome.{ComesOf, Outcome};

use crate::laws as shown;

/// A line packs to one frame at most.
pub fn one_frame()
    ensures { (line frame other : List ℕ) → Packs line frame → Packs line other → frame ≡ other }
{}

/// A line that packs to a frame is neither skipped nor that of a refused frame.
pub fn packed_lines_are_asked()
    ensures { (line frame : List ℕ) → Packs line frame → IsAsked line }
{}

/// One thing comes of packing a line, and one alone: the line is skipped, or that of a refused frame, or shows no
/// accepted frame, or packs to a frame of too many octets, or to one that a line of a capture may have.
pub fn the_outcome_of_a_line()
    ensures some { (line : List ℕ) → (outcome : Outcome) × ComesOf outcome line }
    ensures one { (line : List ℕ) (outcome other : Outcome) → ComesOf outcome line → ComesOf other line
        → outcome ≡ other }
{
    // Its clauses: a frame has a line, and one alone.
    shown::one_line();
}

/// The line that shows an accepted frame is one line of a text, and has at least two characters for each octet of
/// the frame.
pub fn a_shown_line_is_one_line()
    ensures one { (line frame more : List ℕ) → Packs line frame
        → lines_of (line ++ (10 ∷ more)) ≡ line ∷ lines_of more }
    ensures long { (line frame : List ℕ) → Packs line frame → 2 * length frame ≤ length line }
{}

/// The digits of an accepted frame of at most 70,000 octets are a line of a capture, of that frame.
pub fn digits_are_a_capture_line()
    ensures one { (frame more : List ℕ) → lines_of (hex_text frame ++ (10 ∷ more)) ≡ hex_text frame ∷ lines_of more }
    ensures read { (frame : List ℕ) → IsBytes frame → IsAccepted frame → length frame ≤ most_octets
        → capture_of (hex_text frame) ≡ capture.Frame frame }
{}
