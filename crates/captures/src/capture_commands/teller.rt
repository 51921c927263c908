//! The records of a file told as lines, piece by piece.
ghost use Rattle.std.specs.Prelude.{◌≡◌, ◌≢◌, false, ◌+◌, ◌<◌, ◌≤◌, ◌++◌, ◌∷◌, [], ℕ, List, Option, Some, IfOk, IsSome, OnOk, OnErr, Err, length};
ghost use Rattle.std.specs.Io.KnownBytes.{Appends};
ghost use Rattle.clnp_base.specs.Streams.{AppendsFront, Rose};
ghost use Rattle.frame_links.specs.PcapFrames.File.{Captured};
ghost use Rattle.frame_links.specs.PcapFrames.Reading.{InHeader, current_of, ending_of};
ghost use Rattle.captures.specs.CaptureCommands.Called.{has_fault, most_octets, whole_status};
ghost use Rattle.captures.specs.CaptureCommands.Underway.{FedOf, FinishOf, TellsOf, Told, TookOf, Underway};

use crate::capture_commands::answer::{cut_answer, fault_answer};
use crate::capture_commands::form::Form;
use crate::capture_commands::record_lines::push_record;
use clnp_base::command_base::base::{NoMemory, Sink};
use clnp_base::command_base::{Status, flush, write_block, write_full_block};
use frame_links::pcap_frames::PcapReader;
use std::alloc::Global;

/// A reader of a file, and the lines of the records that came whole.
#[derive(Drop)]
pub(crate) struct Teller {
    /// What the lines are.
    pub(crate) form: Form,
    /// Where in the file it is.
    pub(crate) reader: PcapReader,
    /// How many records came whole and were told.
    pub(crate) number: u32,
    /// How many octets of the file were taken.
    pub(crate) size: usize,
    /// The lines that aren't written yet.
    pub(crate) block: Vec<u8>,
}

impl Teller {
    /// A teller at the beginning of a file.
    pub(crate) fn new(alloc: Global, form: Form) -> Result<Teller, NoMemory>
        ensures { IfOk result (λ teller. (teller.form ≡ form) × (teller.reader ≡ InHeader [])
            × (teller.number ≡ 0) × (teller.size ≡ 0) × (teller.block.items ≡ [])) }
    {
        let reader = PcapReader::new(alloc)?;
        Ok(Teller {
            form,
            reader,
            number: 0,
            size: 0,
            block: Vec::new(alloc),
        })
    }

    /// Takes the next octets of the file, and writes the line of each record that comes whole: none waits for the
    /// octets behind them.
    ///
    /// # Errors
    ///
    /// The answer at which telling stops: a fault of the file, whose records before it are written, a fault of the sink, or
    /// want of memory.
    pub(crate) fn take<K: Sink>(&mut self, piece: &[u8], sink: &mut K) -> Result<(), Status>
        requires few { self.old.size + length piece.now ≤ most_octets }
        requires counted { self.old.number ≤ self.old.size }
        ensures later { K.faults sink.old ≤ K.faults sink.new }
        ensures size { OnOk result (self.new.size ≡ self.old.size + length piece.now) }
        ensures counted { OnOk result (self.new.number ≤ self.new.size) }
        ensures form { OnOk result (self.new.form ≡ self.old.form) }
        ensures none_waits { OnOk result (self.new.block.items ≡ []) }
        ensures tells { (taken : List ℕ) (before : Option (List ℕ))
            → Told self.old taken before (K.written sink.old)
            → TellsOf self.old.form self.new (taken ++ piece.now) before (K.written sink.new) result }
        ensures read_fault { result ≢ Err Status.ReadFault }
        ensures failed { result ≡ Err Status.WriteFault → Rose (K.faults sink.old) (K.faults sink.new) }
    {
        match self.take_all(piece, sink) {
            Ok(()) => self.write_waiting(sink),
            Err(answer) => Err(answer),
        }
    }

    /// Writes the lines that wait.
    fn write_waiting<K: Sink>(&mut self, sink: &mut K) -> Result<(), Status>
        ensures later { K.faults sink.old ≤ K.faults sink.new }
        ensures same { self.new ≡ record self.old { block = self.new.block } }
        ensures none_waits { OnOk result (self.new.block.items ≡ []) }
        ensures done { OnOk result (Appends (K.written sink.old) (K.written sink.new) self.old.block.items) }
        ensures front { OnErr result (AppendsFront (K.written sink.old) (K.written sink.new) self.old.block.items) }
        ensures refused { (answer : Status) → result ≡ Err answer → answer ≡ Status.WriteFault }
        ensures failed { OnErr result (Rose (K.faults sink.old) (K.faults sink.new)) }
    {
        match flush(&mut self.block, sink) {
            Ok(()) => Ok(()),
            Err(_) => Err(Status::WriteFault),
        }
    }

    /// Takes the next octets of the file, and puts the line of each record that comes whole into the block, which is
    /// written where it is full.
    fn take_all<K: Sink>(&mut self, piece: &[u8], sink: &mut K) -> Result<(), Status>
        requires few { self.old.size + length piece.now ≤ most_octets }
        requires counted { self.old.number ≤ self.old.size }
        ensures later { K.faults sink.old ≤ K.faults sink.new }
        ensures size { OnOk result (self.new.size ≡ self.old.size + length piece.now) }
        ensures counted { OnOk result (self.new.number ≤ self.new.size) }
        ensures form { OnOk result (self.new.form ≡ self.old.form) }
        ensures takes { (taken : List ℕ) (before : Option (List ℕ))
            → Underway [] self.old taken before (K.written sink.old)
            → TookOf self.old.form self.new (taken ++ piece.now) before (K.written sink.new) result }
        ensures read_fault { result ≢ Err Status.ReadFault }
        ensures failed { result ≡ Err Status.WriteFault → Rose (K.faults sink.old) (K.faults sink.new) }
    {
        let mut left = piece;
        while !left.is_empty() {
            match self.take_some(left, sink) {
                Ok(count) => left = &left[count..],
                Err(answer) => return Err(answer),
            }
        }
        Ok(())
    }

    /// Takes the first octets of a piece that isn't empty, at most up to the end of the next record, and tells that record.
    fn take_some<K: Sink>(&mut self, piece: &[u8], sink: &mut K) -> Result<usize, Status>
        requires some { 0 < length piece.now }
        requires few { self.old.size + length piece.now ≤ most_octets }
        requires counted { self.old.number ≤ self.old.size }
        ensures later { K.faults sink.old ≤ K.faults sink.new }
        ensures front { IfOk result (λ count. (0 < count) × (count ≤ length piece.now)) }
        ensures size { IfOk result (λ count. self.new.size ≡ self.old.size + count) }
        ensures counted { OnOk result (self.new.number ≤ self.new.size) }
        ensures form { OnOk result (self.new.form ≡ self.old.form) }
        ensures takes { (taken : List ℕ) (before : Option (List ℕ))
            → Underway [] self.old taken before (K.written sink.old)
            → FedOf self.old.form self.new taken piece.now before (K.written sink.new) result }
        ensures read_fault { result ≢ Err Status.ReadFault }
        ensures failed { result ≡ Err Status.WriteFault → Rose (K.faults sink.old) (K.faults sink.new) }
    {
        match self.reader.feed(piece) {
            Ok(took) => {
                self.size += took.octets;
                if took.whole {
                    match self.tell_current(sink) {
                        Ok(()) => Ok(took.octets),
                        Err(answer) => Err(answer),
                    }
                } else {
                    Ok(took.octets)
                }
            }
            Err(fault) => {
                let answer = fault_answer(fault, self.number);
                Err(self.finish(answer, sink))
            }
        }
    }

    /// Tells the record that came whole, and writes the block where it is full.
    fn tell_current<K: Sink>(&mut self, sink: &mut K) -> Result<(), Status>
        requires whole { IsSome (current_of self.old.reader) }
        requires few { self.old.number ≤ most_octets }
        ensures later { K.faults sink.old ≤ K.faults sink.new }
        ensures size { OnOk result (self.new.size ≡ self.old.size) }
        ensures number { OnOk result (self.new.number ≡ self.old.number + 1) }
        ensures form { OnOk result (self.new.form ≡ self.old.form) }
        ensures told { (taken : List ℕ) (c : Captured) (before : Option (List ℕ)) → current_of self.old.reader ≡ Some c
            → Underway (c ∷ []) self.old taken before (K.written sink.old)
            → TookOf self.old.form self.new taken before (K.written sink.new) result }
        ensures read_fault { result ≢ Err Status.ReadFault }
        ensures failed { result ≡ Err Status.WriteFault → Rose (K.faults sink.old) (K.faults sink.new) }
    {
        self.number += 1;
        let record = self.reader.current();
        let Ok(()) = push_record(self.form, self.number, &record, &mut self.block) else {
            return Err(Status::NoMemory);
        };
        match write_full_block(&mut self.block, sink) {
            Ok(()) => Ok(()),
            Err(_) => Err(Status::WriteFault),
        }
    }

    /// The answer to the octets that were taken, where they are all of the file.
    pub(crate) fn end(&self) -> Status
        requires { self.now.number ≤ most_octets }
        ensures ends { has_fault (ending_of self.now.reader) ≡ false
            → result ≡ whole_status self.now.size self.now.number (ending_of self.now.reader) }
        ensures no_fault { (result ≢ Status.ReadFault) × (result ≢ Status.WriteFault) }
    {
        match self.reader.end() {
            Ok(()) => Status::Done,
            Err(_) => cut_answer(self.size, self.number),
        }
    }

    /// Writes the lines that wait, and gives this answer, or that the sink failed.
    fn finish<K: Sink>(&mut self, answer: Status, sink: &mut K) -> Status
        ensures later { K.faults sink.old ≤ K.faults sink.new }
        ensures wrote { FinishOf answer self.old.block.items (K.written sink.old) (K.written sink.new) result }
        ensures read_fault { answer ≢ Status.ReadFault → result ≢ Status.ReadFault }
        ensures failed { answer ≢ Status.WriteFault → result ≡ Status.WriteFault
            → Rose (K.faults sink.old) (K.faults sink.new) }
    {
        match write_block(&mut self.block, sink) {
            Ok(()) => answer,
            Err(_) => Status::WriteFault,
        }
    }
}
