//! The answers to faults of a file and to files that are cut.
ghost use Rattle.std.specs.Prelude.{◌≡◌, ◌≢◌, ◌<◌, ◌^◌, ◌+◌};
ghost use Rattle.clnp_base.specs.CommandBase.Codes.{cut_file_code};
ghost use Rattle.captures.specs.CaptureCommands.Called.{cut_place, fault_status};

use clnp_base::command_base::Status;
use clnp_base::command_base::code::{CUT_FILE, LINK_TYPE, MAGIC, RECORD_LENGTH, VERSION};
use frame_links::pcap_frames::PcapFault;

/// The octets of a file's header.
const HEADER: usize = 24;

/// The answer to a fault behind so many whole records.
pub(crate) fn fault_answer(fault: PcapFault, whole: u32) -> Status
    requires { whole + 1 < 2 ^ 32 }
    ensures told { result ≡ fault_status whole fault }
    ensures no_fault { (result ≢ Status.ReadFault) × (result ≢ Status.WriteFault) }
{
    let (line, code) = match fault {
        PcapFault::Magic => (0, MAGIC),
        PcapFault::Version { .. } => (0, VERSION),
        PcapFault::LinkType { .. } => (0, LINK_TYPE),
        PcapFault::RecordLength { .. } => (whole + 1, RECORD_LENGTH),
    };
    Status::BadInput { line, code }
}

/// The answer to a file that ends, after so many octets, within its header or within a record behind so many whole
/// ones.
pub(crate) fn cut_answer(size: usize, whole: u32) -> Status
    requires { whole + 1 < 2 ^ 32 }
    ensures { result ≡ Status.BadInput (cut_place size whole) cut_file_code }
{
    let line = if size < HEADER { 0 } else { whole + 1 };
    Status::BadInput {
        line,
        code: CUT_FILE,
    }
}
