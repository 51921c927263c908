//! Laws of the definitions that the contracts cite. The functions do nothing.
ghost use Rattle.std.specs.Prelude.{◌≡◌, List, map};
ghost use Rattle.std.specs.List.{AllByRecursion};
ghost use Rattle.frame_links.specs.PcapFrames.Making.{Frame, IsFrame, made_file, made_record};
ghost use Rattle.frame_links.specs.PcapFrames.Reading.{Entire, IsReadAs};
ghost use Rattle.frame_links.specs.PcapFrames.PlayedFrames.{came_made, frames_of};

/// A file that is made of frames is read as their records to its end, and of these the frames come, in their order.
pub fn a_made_file_plays_its_frames()
    ensures read { (frames : List Frame) → AllByRecursion IsFrame frames
        → IsReadAs (made_file frames) (map made_record frames) Entire }
    ensures frames { (frames : List Frame) → AllByRecursion IsFrame frames
        → frames_of (map made_record frames) ≡ map came_made frames }
{}
