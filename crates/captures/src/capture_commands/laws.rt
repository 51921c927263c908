//! Laws of the definitions. Each law is the clause of a function that does nothing.

ghost use Rattle.std.specs.Prelude.{◌≡◌, ◌≤◌, ℕ, List, length};
ghost use Rattle.captures.specs.CaptureCommands.Pack.{PackAnswers, PacksLines};
ghost use Rattle.captures.specs.CaptureCommands.RoundTrip.{EndsPlainly, IsAcceptedCapture, PacksAs, PacksTo, ShowsAs, without_skipped};

use crate::capture_text::laws as packed;
use crate::laws as shown;
use clnp_base::command_base::Status;

/// The lines that `pack` reads call for one answer, and for one output.
pub fn one_packing()
    ensures some_answer { (lines : List (List ℕ)) (number : ℕ) → (status : Status) × PackAnswers number lines status }
    ensures one_answer { (lines : List (List ℕ)) (number : ℕ) (status other : Status)
        → PackAnswers number lines status → PackAnswers number lines other → status ≡ other }
    ensures some_output { (lines : List (List ℕ)) → (output : List ℕ) × PacksLines lines output }
    ensures one_output { (lines : List (List ℕ)) (output other : List ℕ)
        → PacksLines lines output → PacksLines lines other → output ≡ other }
{
    // Its clauses: one thing comes of a line, and one alone.
    packed::the_outcome_of_a_line();
}

/// Of a capture in lower case without skipped lines, each line of which ends by `\n` alone, whose frames are accepted
/// and have at most 70,000 octets each: `pack` of what `show` writes for it is the capture, and isn't longer.
pub fn what_is_shown_is_packed_again()
    ensures { (capture : List ℕ) → IsAcceptedCapture capture
        → (text : List ℕ) × ShowsAs capture text × PacksAs text capture × (length capture ≤ length text) }
{
    // Their clauses: a frame has one line, a line packs to one frame, and either text is read line by line.
    shown::one_line();
    packed::the_outcome_of_a_line();
    packed::packed_lines_are_asked();
    packed::a_shown_line_is_one_line();
    packed::digits_are_a_capture_line();
}

/// Of a text each line of which ends by `\n` alone and on which `pack` is done: `show` of what `pack` wrote, which
/// isn't longer, is that text without its skipped lines.
pub fn what_is_packed_is_shown_again()
    ensures { (text packed : List ℕ) → EndsPlainly text → PacksTo text packed
        → ShowsAs packed (without_skipped text) × (length packed ≤ length text) }
{
    // Their clauses: a frame has one line, a line packs to one frame, and either text is read line by line.
    shown::one_line();
    packed::the_outcome_of_a_line();
    packed::packed_lines_are_asked();
    packed::a_shown_line_is_one_line();
    packed::digits_are_a_capture_line();
}
