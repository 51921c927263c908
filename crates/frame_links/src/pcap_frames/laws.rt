//! Laws of the definitions that the contracts cite. The functions do nothing.
ghost use Rattle.std.specs.Prelude.{◌≡◌, ◌↔◌, ◌++◌, ℕ, List, Some, map};
ghost use Rattle.std.specs.List.{AllByRecursion};
ghost use Rattle.hex.specs.Hex.{IsBytes};
ghost use Rattle.frame_links.specs.PcapFrames.File.{Captured, IsCaptured, Pcap, captured_octets};
ghost use Rattle.frame_links.specs.PcapFrames.Frames.{IsOsiFrame, OsiFrame, frame_octets, seen_in};
ghost use Rattle.frame_links.specs.PcapFrames.InPlace.{first_in};
ghost use Rattle.frame_links.specs.PcapFrames.Making.{Frame, HasBytes, IsFrame, frames_in, made_file, made_record};
ghost use Rattle.frame_links.specs.PcapFrames.Reading.{Ending, Entire, Faulty, IsReadAs, Reading, Stands, ending_of};

use crate::pcap_frames::fault::PcapFault;
use crate::pcap_frames::order::Order;

/// A file has one order of the octets of its numbers, and one list of records.
pub fn one_order_and_one_list()
    ensures { (file : List ℕ) (order other : Order) (records others : List Captured)
        → Pcap order records file → Pcap other others file → (order ≡ other) × (records ≡ others) }
{}

/// Octets are read as one list of records, and end in one way: at a boundary, within the header or a record, or with a
/// fault.
pub fn one_reading()
    ensures some { (octets : List ℕ) → IsBytes octets
        → (records : List Captured) × ((ending : Ending) × IsReadAs octets records ending) }
    ensures one { (octets : List ℕ) (records others : List Captured) (ending other : Ending)
        → IsReadAs octets records ending → IsReadAs octets others other → (records ≡ others) × (ending ≡ other) }
{}

/// Whatever follows a fault, it is the fault, and the records before it are the records.
pub fn a_fault_stays()
    ensures { (octets more : List ℕ) (records : List Captured) (fault : PcapFault)
        → IsReadAs octets records (Faulty fault) → IsReadAs (octets ++ more) records (Faulty fault) }
{}

/// Whatever follows octets, the records that they are read as stay the first.
pub fn whatever_follows()
    ensures { (octets more : List ℕ) (records : List Captured) (ending : Ending) → IsBytes (octets ++ more)
        → IsReadAs octets records ending
        → (later : List Captured) × ((other : Ending) × IsReadAs (octets ++ more) (records ++ later) other) }
{}

/// The numbers of each record that octets are read as fit their four octets, and its frame is of octets.
pub fn what_is_read_fits()
    ensures fits { (octets : List ℕ) (records : List Captured) (ending : Ending) → IsReadAs octets records ending
        → AllByRecursion IsCaptured records }
    ensures bytes { (octets : List ℕ) (records : List Captured) (ending : Ending) → IsBytes octets
        → IsReadAs octets records ending → AllByRecursion (λ c. IsBytes c.octets) records }
{}

/// What begins as a file does has no fault.
pub fn the_front_of_a_file_has_no_fault()
    ensures { (front rest : List ℕ) (records others : List Captured) (fault : PcapFault)
        → IsReadAs (front ++ rest) records Entire → IsReadAs front others (Faulty fault) → ⊥ }
{}

/// The octets that a reader took are read as the records that it gave, and end as it says: behind a whole record,
/// within a part, or with the fault.
pub fn what_was_taken_is_read()
    ensures { (reading : Reading) (taken : List ℕ) (records : List Captured)
        → Stands reading taken records → IsReadAs taken records (ending_of reading) }
{}

/// A record stands in front of octets exactly where they begin as one is laid out.
pub fn a_whole_record_is_as_laid_out()
    ensures { (order : Order) (octets : List ℕ) (captured : Captured) → IsBytes octets
        → (first_in order octets ≡ Some captured)
        ↔ (IsCaptured captured × ((rest : List ℕ) × (octets ≡ captured_octets order captured ++ rest))) }
{}

/// An OSI PDU is seen in a frame exactly where the frame begins as one is laid out that carries it.
pub fn an_osi_frame_is_as_laid_out()
    ensures { (octets to from pdu : List ℕ) → IsBytes octets
        → (seen_in octets ≡ OsiFrame to from pdu)
        ↔ (IsOsiFrame to from pdu × ((rest : List ℕ) × (octets ≡ frame_octets to from pdu ++ rest))) }
{}

/// A file that is made of frames is a file, and its frames are these, in their order.
pub fn a_made_file_gives_its_frames_again()
    ensures file { (frames : List Frame) → AllByRecursion IsFrame frames
        → Pcap Order.HighFirst (map made_record frames) (made_file frames) }
    ensures frames { (frames : List Frame) → AllByRecursion IsFrame frames
        → frames_in (map made_record frames) ≡ frames }
{}

/// The frames with OSI PDUs that are in a file, but for those of no octet, are such that a file can be made of them.
pub fn frames_of_a_file_can_be_made()
    ensures frames { (order : Order) (records : List Captured) (file : List ℕ) → Pcap order records file
        → AllByRecursion IsFrame (frames_in records) }
    ensures bytes { (order : Order) (records : List Captured) (file : List ℕ) → Pcap order records file → IsBytes file
        → AllByRecursion HasBytes (frames_in records) }
{}
