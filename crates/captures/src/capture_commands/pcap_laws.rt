//! Laws of the definitions that the contracts cite. The functions do nothing.
ghost use Rattle.std.specs.Prelude.{◌≡◌, ℕ, List, map, take};
ghost use Rattle.std.specs.List.{AllByRecursion};
ghost use Rattle.hex.specs.Hex.{IsBytes};
ghost use Rattle.clnp_base.specs.Text.{lines_of};
ghost use Rattle.frame_links.specs.PcapFrames.File.{Captured};
ghost use Rattle.frame_links.specs.PcapFrames.Making.{Frame, HasBytes, IsFrame, frames_in, made_record};
ghost use Rattle.frame_links.specs.PcapFrames.Reading.{Ending, IsReadAs};
ghost use Rattle.captures.specs.CaptureCommands.Called.{Calls, most_octets};
ghost use Rattle.captures.specs.CaptureCommands.Laws.{lines_of_frames};
ghost use Rattle.captures.specs.CaptureCommands.Lines.{TellsRecords};
ghost use Rattle.captures.specs.CaptureCommands.Make.{frames_of, make_status};

use crate::capture_commands::form::Form;
use crate::laws as shown;
use clnp_base::command_base::Status;

/// Octets call for one answer.
pub fn one_answer()
    ensures some { (octets : List ℕ) → IsBytes (take most_octets octets) → (status : Status) × Calls octets status }
    ensures one { (octets : List ℕ) (status other : Status) → Calls octets status → Calls octets other
        → status ≡ other }
{}

/// The records that octets are read as call for one output.
pub fn one_output()
    ensures some { (form : Form) (octets : List ℕ) (records : List Captured) (ending : Ending) → IsBytes octets
        → IsReadAs octets records ending → (output : List ℕ) × TellsRecords form 1 records output }
    ensures one { (form : Form) (records : List Captured) (number : ℕ) (output other : List ℕ)
        → TellsRecords form number records output → TellsRecords form number records other → output ≡ other }
{
    // Its clause: a frame has one line.
    shown::one_line();
}

/// Of the lines that `pcap-lines` writes of a file `pcap-make` makes a file with the same OSI frames in their order,
/// but for those whose PDU has no octets.
pub fn lines_make_the_frames_again()
    ensures accepted { (octets output : List ℕ) (records : List Captured) (ending : Ending) → IsBytes octets
        → IsReadAs octets records ending → TellsRecords Form.Remade 1 records output
        → make_status 1 (lines_of output) ≡ Status.Done }
    ensures frames { (octets output : List ℕ) (records : List Captured) (ending : Ending) → IsBytes octets
        → IsReadAs octets records ending → TellsRecords Form.Remade 1 records output
        → frames_of (lines_of output) ≡ frames_in records }
{}

/// Of the file that `pcap-make` makes of lines `pcap-lines` writes the lines of its frames, and nothing else: of each
/// its seconds in decimal digits without leading zeros, its destination as `es`, `is` or twelve digits in lower case,
/// its source as twelve, and its PDU in digits in lower case, with one space between them.
pub fn a_made_file_gives_its_lines_again()
    ensures frames { (lines : List (List ℕ)) → AllByRecursion IsFrame (frames_of lines) }
    ensures bytes { (lines : List (List ℕ)) → AllByRecursion HasBytes (frames_of lines) }
    ensures lines { (frames : List Frame) (output : List ℕ) → AllByRecursion IsFrame frames
        → TellsRecords Form.Remade 1 (map made_record frames) output → output ≡ lines_of_frames frames }
    ensures again { (frames : List Frame) → AllByRecursion IsFrame frames → AllByRecursion HasBytes frames
        → frames_of (lines_of (lines_of_frames frames)) ≡ frames }
{}
