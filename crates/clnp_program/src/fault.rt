//! How a call of the program ends: what is said on standard error, and the exit number.
ghost use Rattle.std.specs.Prelude.{◌≡◌, ◌≤◌, ◌+◌, ◌++◌, codes, length, OnOk, OnErr};
ghost use Rattle.std.specs.Fmt.{decimal};
ghost use Rattle.std.specs.Io.KnownBytes.{Appends};
ghost use Rattle.clnp_machine.specs.ClnpBase.Streams.{Rose};
ghost use Rattle.captures.specs.CommandBase.Codes.{magic_code};
ghost use Rattle.clnp_program.specs.Answers.{Tells, line_of_advice, line_of_fault};
ghost use Rattle.clnp_program.specs.FaultTexts.{code_name, fault_text};
ghost use Rattle.clnp_program.specs.Faults.{fault_of};
ghost use Rattle.clnp_program.specs.Texts.{behind_code, behind_fault, wanted};

use crate::live_commands::advising::Advice;
use crate::network_commands::Status;
use crate::network_commands::base::{Failed, Sink, write_all};
use crate::network_commands::code::{
    CUT_FILE, LINK_TYPE, MAGIC, NOT_PACKABLE, RECORD_LENGTH, VERSION,
};
use crate::network_commands::scenarios::Code;
use arrayvec::ArrayString;
use itoa::Buffer;
use thiserror::Error;

/// The end of the line of bad words, and which words are commands.
const WANTED: &str = "
clnp: wanted: sim, trace, show, check, pack, pcap-show, pcap-make, pcap-lines, reassemble, migrate, storm, or run; clnp --help tells of each
";

/// The end of the line of a magic number that is none, and what may be done.
const PCAPNG: &str = "
clnp: a file in the pcapng form is turned into one by: tshark -r FILE -F pcap -w FILE.pcap
";

/// The most octets of the text of a fault.
const MOST_TEXT: usize = 60;

/// Why a call of the program didn't do all that was asked.
#[derive(Clone, Copy, Debug, Error)]
#[error("{}", self.text())]
pub enum Fault {
    /// The words are no command, first at this place, from 0.
    BadWords { at: usize },
    /// The input has more than 16,777,216 octets.
    TooLong,
    /// The input breaks its grammar, first at this line, from 1, with the code of what it breaks.
    BadInput { line: u32, code: u8 },
    /// The copies of a simulated network weigh too much, so many octets.
    WorldFull { octets: u64 },
    /// The source failed.
    ReadFault,
    /// The sink failed.
    WriteFault,
    /// At the end of a turn of a live node no port had its link any more, of so many.
    LinksGone { links: u8 },
    /// Memory was refused.
    NoMemory,
    /// The local end of the link word at this place, from 0, couldn't be bound.
    NoLink { at: usize },
}

impl Fault {
    /// The fault of an answer, if it is one.
    pub fn of(status: Status) -> Option<Fault>
        ensures { result ≡ fault_of status }
    {
        match status {
            Status::Done => None,
            Status::BadWords { at } => Some(Fault::BadWords { at }),
            Status::TooLong => Some(Fault::TooLong),
            Status::BadInput { line, code } => Some(Fault::BadInput { line, code }),
            Status::WorldFull { octets } => Some(Fault::WorldFull { octets }),
            Status::ReadFault => Some(Fault::ReadFault),
            Status::WriteFault => Some(Fault::WriteFault),
            Status::LinksGone { links } => Some(Fault::LinksGone { links }),
            Status::NoMemory => Some(Fault::NoMemory),
        }
    }

    /// What is said of the fault.
    pub fn text(self) -> ArrayString<MOST_TEXT>
        ensures { result.bytes ≡ fault_text self }
    {
        match self {
            Fault::BadWords { at } => numbered("bad words at ", at as u64, ""),
            Fault::TooLong => numberless("input too long"),
            Fault::BadInput { line, code } => bad_input(line, code),
            Fault::WorldFull { octets } => numbered("world full at ", octets, " octets"),
            Fault::ReadFault => numberless("read fault"),
            Fault::WriteFault => numberless("write fault"),
            Fault::LinksGone { links } => numbered("all ", links as u64, " links gone"),
            Fault::NoMemory => numberless("no memory"),
            Fault::NoLink { at } => numbered("no link at ", at as u64, ""),
        }
    }
}

/// A text without a number.
fn numberless(piece: &str) -> ArrayString<MOST_TEXT>
    requires { length piece.now ≤ 20 }
    ensures { result.bytes ≡ piece.now }
{
    let mut text = ArrayString::new();
    text.push_str(piece);
    text
}

/// A number in decimal digits between two pieces.
fn numbered(front: &str, number: u64, end: &str) -> ArrayString<MOST_TEXT>
    requires front { length front.now ≤ 20 }
    requires end { length end.now ≤ 20 }
    ensures text { result.bytes ≡ front.now ++ (decimal number ++ end.now) }
    ensures short { length result.bytes ≤ length front.now + (20 + length end.now) }
{
    let mut buffer = Buffer::new();
    let mut text = numberless(front);
    text.push_str(buffer.format(number));
    text.push_str(end);
    text
}

/// The text of a bad input: its first bad line, and the name of its code.
fn bad_input(line: u32, code: u8) -> ArrayString<MOST_TEXT>
    ensures { result.bytes ≡ codes "bad input at line " ++ (decimal line ++ (codes ": " ++ code_name code)) }
{
    let mut text = numbered("bad input at line ", line as u64, ": ");
    text.push_str(code_name(code));
    text
}

/// Says what went wrong, if anything did: the line of the fault, and behind that of bad words which words are
/// commands; then the line of advice, if there is one. It takes no memory.
///
/// # Errors
///
/// `Failed` where the sink failed.
pub(crate) fn report<K: Sink>(status: Status, advice: &Advice, errors: &mut K) -> Result<(), Failed>
    ensures later { K.faults errors.old ≤ K.faults errors.new }
    ensures said { OnOk result (Tells (fault_of status) advice.now (K.written errors.old) (K.written errors.new)) }
    ensures failed { OnErr result (Rose (K.faults errors.old) (K.faults errors.new)) }
{
    match Fault::of(status) {
        None => Ok(()),
        Some(fault) => write_advised(fault, advice, errors),
    }
}

/// Writes the line of a fault, and behind it the line of advice, if there is one.
fn write_advised<K: Sink>(fault: Fault, advice: &Advice, errors: &mut K) -> Result<(), Failed>
    ensures later { K.faults errors.old ≤ K.faults errors.new }
    ensures written { OnOk result (Appends (K.written errors.old) (K.written errors.new) (line_of_fault fault ++ line_of_advice advice.now)) }
    ensures failed { OnErr result (Rose (K.faults errors.old) (K.faults errors.new)) }
{
    write_fault(fault, errors)?;
    write_advice(advice.as_bytes(), errors)
}

/// Writes the line of advice, if there is one.
fn write_advice<K: Sink>(advice: &[u8], errors: &mut K) -> Result<(), Failed>
    ensures later { K.faults errors.old ≤ K.faults errors.new }
    ensures written { OnOk result (Appends (K.written errors.old) (K.written errors.new) (line_of_advice advice.now)) }
    ensures failed { OnErr result (Rose (K.faults errors.old) (K.faults errors.new)) }
{
    if advice.is_empty() {
        return Ok(());
    }
    write_all(errors, b"clnp: ")?;
    write_pair(advice, b"\n", errors)
}

/// Writes the line of a fault, and behind that of bad words which words are commands.
pub(crate) fn write_fault<K: Sink>(fault: Fault, errors: &mut K) -> Result<(), Failed>
    ensures later { K.faults errors.old ≤ K.faults errors.new }
    ensures written { OnOk result (Appends (K.written errors.old) (K.written errors.new) (line_of_fault fault)) }
    ensures failed { OnErr result (Rose (K.faults errors.old) (K.faults errors.new)) }
{
    let text = fault.text();
    write_all(errors, b"clnp: ")?;
    write_pair(text.as_str().as_bytes(), behind(fault).as_bytes(), errors)
}

/// Writes two pieces, one behind the other.
fn write_pair<K: Sink>(front: &[u8], end: &[u8], errors: &mut K) -> Result<(), Failed>
    ensures later { K.faults errors.old ≤ K.faults errors.new }
    ensures written { OnOk result (Appends (K.written errors.old) (K.written errors.new) (front.now ++ end.now)) }
    ensures failed { OnErr result (Rose (K.faults errors.old) (K.faults errors.new)) }
{
    write_all(errors, front)?;
    write_all(errors, end)
}

/// What stands behind the text of a fault: the end of its line, behind bad words which words are commands, and behind a
/// magic number that is none how a capture in another form is turned into one that is read.
fn behind(fault: Fault) -> &'static str
    ensures { result.now ≡ behind_fault fault }
{
    match fault {
        Fault::BadWords { .. } => behind_bad_words(),
        Fault::BadInput { code: MAGIC, .. } => behind_magic(),
        _ => "\n",
    }
}

/// The end of a line, and how a capture in another form is turned into one that is read.
fn behind_magic() -> &'static str
    ensures { result.now ≡ codes "\n" ++ behind_code magic_code }
{
    PCAPNG
}

/// The end of a line, and which words are commands.
fn behind_bad_words() -> &'static str
    ensures { result.now ≡ codes "\n" ++ wanted }
{
    WANTED
}

/// The name of the code of what a line of an input breaks.
#[tactic(auto, using(crate::proofs::CodeNames::named, crate::proofs::CodeNames::no_code))]
fn code_name(code: u8) -> &'static str
    ensures name { result.now ≡ code_name code }
    ensures short { length result.now ≤ 13 }
{
    match code {
        MAGIC => "magic",
        VERSION => "version",
        LINK_TYPE => "link-type",
        RECORD_LENGTH => "record-length",
        CUT_FILE => "cut-file",
        NOT_PACKABLE => "not-packable",
        _ => match Code::of_number(code) {
            Some(code) => code.name(),
            None => "other",
        },
    }
}
