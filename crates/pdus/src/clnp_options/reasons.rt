//! The reasons for which a PDU is discarded.
ghost use Rattle.std.specs.Prelude.{◌≡◌};
ghost use Rattle.pdus.specs.ClnpOptions.Reasons.{reason_code};

/// Why a PDU is discarded, as an error report tells it (ISO/IEC 8473, section 7.9.5).
#[derive(Clone, Copy)]
pub enum Reason {
    /// Not specified.
    NotSpecified = 0x00,
    /// Protocol procedure error.
    ProtocolProcedureError = 0x01,
    /// Incorrect checksum.
    IncorrectChecksum = 0x02,
    /// PDU discarded due to congestion.
    Congestion = 0x03,
    /// Header syntax error.
    HeaderSyntaxError = 0x04,
    /// Segmentation needed but not permitted.
    SegmentationNotPermitted = 0x05,
    /// Incomplete PDU received.
    IncompletePdu = 0x06,
    /// Duplicate option.
    DuplicateOption = 0x07,
    /// Destination address unreachable.
    DestinationUnreachable = 0x80,
    /// Destination address unknown.
    DestinationUnknown = 0x81,
    /// Unspecified source routing error.
    SourceRoutingError = 0x90,
    /// Syntax error in source routing field.
    SourceRoutingSyntaxError = 0x91,
    /// Unknown address in source routing field.
    UnknownAddressInRoute = 0x92,
    /// Path not acceptable.
    PathNotAcceptable = 0x93,
    /// Lifetime expired while the data unit was in transit.
    LifetimeExpiredInTransit = 0xa0,
    /// Lifetime expired during reassembly.
    LifetimeExpiredInReassembly = 0xa1,
    /// Unsupported option not specified.
    UnsupportedOption = 0xb0,
    /// Unsupported protocol version.
    UnsupportedVersion = 0xb1,
    /// Unsupported security option.
    UnsupportedSecurity = 0xb2,
    /// Unsupported source routing option.
    UnsupportedSourceRouting = 0xb3,
    /// Unsupported recording of route option.
    UnsupportedRecording = 0xb4,
    /// Reassembly interference.
    ReassemblyInterference = 0xc0,
}

impl Reason {
    /// The octet that stands for the reason.
    pub fn code(self) -> u8
        ensures { result ≡ reason_code self }
    {
        self as u8
    }
}
