//! Files read piece by piece.
use crate::pcap_frames::captured::Record;
use crate::pcap_frames::fault::{CutFile, PcapFault};
use crate::pcap_frames::in_place::read_record;
use crate::pcap_frames::stage::Stage;
use crate::pcap_frames::taking::{MOST_HELD, Took, take_next};
use pdus::nsap::base::NoMemory;
use std::alloc::Global;
use std::marker::Model;

/// A reader of a file that comes piece by piece. It holds the octets of one record, and takes no memory once it is
/// made.
///
/// A contract sees what the reader is in the midst of. What that says of all the octets taken before is a relation:
/// the reader stands for these octets and for the records that came whole in them.
#[derive(Drop)]
pub struct PcapReader {
    stage: Stage,
    part: Vec<u8>,
}

impl Model for PcapReader {
    ghost use Rattle.std.specs.Prelude.{◌≤◌, vec_capacity};
    ghost use Rattle.frame_links.specs.PcapFrames.Reading.{Reading};
    ghost use Rattle.frame_links.specs.PcapFrames.Stages.{IsHeld, reading_of};

    ghost Value = { Reading };

    ghost view = { λ r. reading_of r.stage r.part.items };

    // The room was reserved when the reader was made.
    ghost invariant = { λ r. IsHeld r.stage r.part.items × (262160 ≤ vec_capacity r.part) };
}

impl PcapReader {
    ghost use Rattle.std.specs.Prelude.{◌≡◌, ◌<◌, ◌≤◌, ◌↔◌, [], ℕ, Some, None, IsSome, IfOk, OnErr, MatchResult, is_some, length, take};
    ghost use Rattle.frame_links.specs.PcapFrames.Reading.{InHeader, Stands, Stopped, Takes, current_of, cut_of};
    ghost use Rattle.frame_links.specs.PcapFrames.View.{captured_value};

    /// A reader at the beginning of a file, with room for the longest record.
    ///
    /// # Errors
    ///
    /// `NoMemory`.
    pub fn new(alloc: Global) -> Result<PcapReader, NoMemory>
        ensures begins { IfOk result (λ reader. reader ≡ InHeader []) }
        ensures stands { IfOk result (λ reader. Stands reader [] []) }
    {
        match Vec::with_capacity(alloc, MOST_HELD) {
            Ok(part) => Ok(PcapReader {
                stage: Stage::Header,
                part,
            }),
            Err(_) => Err(NoMemory),
        }
    }

    /// Takes the next octets of the file: first octets of the piece, at least one of a piece that isn't empty, and at
    /// most up to the end of the next record. An empty piece lets go of a record that was whole.
    ///
    /// # Errors
    ///
    /// What is wrong with the file, exactly where the 24 octets of its header are there and wrong (the first of magic
    /// number, version and link type), or the captured length of a record is there and too great; and in every later
    /// call again.
    pub fn feed(&mut self, piece: &[u8]) -> Result<Took, PcapFault>
        ensures front { IfOk result (λ took. took.octets ≤ length piece.now) }
        ensures some { IfOk result (λ took. 0 < length piece.now → 0 < took.octets) }
        ensures whole { IfOk result (λ took. took.whole ≡ is_some (current_of self.new)) }

        // Whatever it took before, it has taken these octets behind that.
        ensures takes { IfOk result (λ took. Takes self.old (take took.octets piece.now) self.new) }
        ensures breaks { OnErr result ((count : ℕ) × (count ≤ length piece.now)
            × Takes self.old (take count piece.now) self.new) }

        ensures fault { (fault : PcapFault) → (result ≡ Err fault) ↔ (self.new ≡ Stopped fault) }
        ensures again { (fault : PcapFault) → self.old ≡ Stopped fault → self.new ≡ Stopped fault }
    {
        let fed = take_next(self.stage, &mut self.part, piece);
        self.stage = fed.stage;
        fed.answer()
    }

    /// The record that is whole with the octets that the last call took.
    pub fn current(&self) -> Record<'_>
        requires { IsSome (current_of self.now) }
        ensures { current_of self.now ≡ Some (captured_value result) }
    {
        let Stage::Whole(order) = self.stage else {
            unreachable!()
        };
        read_record(order, &self.part)
    }

    /// Says where the octets end that the reader took.
    ///
    /// # Errors
    ///
    /// `CutFile` exactly where they end within the header or within a record, with the number of its octets that came;
    /// the header counts as cut also where none came. Behind a fault the octets end where it was told: behind the
    /// header, or behind the first twelve octets of a record.
    pub fn end(&self) -> Result<(), CutFile>
        ensures { MatchResult result (λ _. cut_of self.now ≡ None) (λ cut. cut_of self.now ≡ Some cut.octets) }
    {
        match self.stage {
            Stage::Header => Err(CutFile {
                octets: self.part.len(),
            }),
            Stage::Part(_) if !self.part.is_empty() => Err(CutFile {
                octets: self.part.len(),
            }),
            Stage::Part(_) | Stage::Whole(_) => Ok(()),
            Stage::Broken(PcapFault::RecordLength { .. }) => Err(CutFile { octets: 12 }),
            Stage::Broken(_) => Ok(()),
        }
    }
}
