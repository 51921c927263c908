//! What a system is asked to send, and why it doesn't.
use pdus::pdu_header::options::OptionList;

/// How a data unit is to be sent.
#[derive(Clone, Copy)]
pub struct Ask {
    /// Its lifetime, in ticks of 500 ms (ISO 8473, section 7.2.5).
    pub life: u8,
    /// An error report is wanted where it is discarded.
    pub report: bool,
    /// It may be segmented, so it has a data unit identifier (ISO 8473, section 6.7).
    pub segment: bool,
    /// The options of its header.
    pub options: OptionList,
}

/// Why a unit isn't made.
#[derive(Clone, Copy)]
pub enum SendRefusal {
    /// The source isn't an address of the system.
    NotMine,
    /// The unit has too many octets, or else its header has.
    TooLong { octets: usize },
    /// The next data unit identifier was used at this moment, which isn't long enough ago.
    IdsBusy { used: u64 },
    /// The system is quiet until this moment.
    Quiet { until: u64 },
    /// Memory was refused.
    NoMemory,
}
