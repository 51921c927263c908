use pdus::pdu_header::Kind;
use pdus::pdu_header::base::Octets;
use pdus::pdu_header::nsaps::{Address, Prefix, Snpa};
use system_tables::esis_tables::{Heard, TableKind};

/// Why a unit wasn't made.
#[derive(Clone, Copy)]
pub enum Why {
    /// The source isn't an address of the system.
    NotMine,
    /// The unit has too many octets, or its header has.
    TooLong,
    /// The system is quiet after a restart.
    Quiet,
    /// The next data unit identifier was used too short a time ago.
    IdsBusy,
}

/// What a system notes: the words of a journal line, in their order.
#[derive(Drop)]
pub enum Note {
    /// A unit was made, with its number, its identifier, and the octets of its data.
    Sent {
        kind: Kind,
        unit: u64,
        id: Option<u16>,
        from: Address,
        to: Address,
        len: u32,
    },
    /// A unit wasn't made; the value is 0, or the octets that are too many, or the moment at which the quiet time ends, or
    /// that at which the identifier was used.
    Refused {
        why: Why,
        value: u64,
    },
    /// A data unit was handed up.
    Got {
        from: Address,
        to: Address,
        octets: Octets,
    },
    /// An error report was handed up, with the reason and the place that it tells, and its data (ISO 8473, section 7.9).
    Report {
        from: Address,
        to: Address,
        reason: u8,
        place: u8,
        octets: Octets,
    },
    /// An echo reply came for the system's own request of this number (RFC 1575).
    Echoed {
        from: Address,
        to: Address,
        unit: u64,
    },
    /// An echo reply came for no request.
    Stray {
        from: Address,
        to: Address,
    },
    /// A PDU was discarded (reasons by ISO 8473, section 7.9.5), with the place in its header.
    Discard {
        reason: u8,
        place: u8,
    },
    /// A segment was kept, with the place of its data in its unit's; so many octets are held then.
    Held {
        id: u16,
        offset: u16,
        held: u32,
    },
    /// A segment has no octet that isn't there already.
    Repeat {
        id: u16,
        offset: u16,
    },
    /// A segment of `size` octets isn't kept, since so many octets are held.
    Crowded {
        held: u32,
        size: u32,
    },
    /// A segment isn't kept, since so many are.
    Many {
        kept: u16,
    },
    /// A segment isn't kept, since so many buffers are taken.
    NoSlot {
        live: u16,
    },
    /// A segment doesn't go with those of its unit that are kept.
    Interference {
        id: u16,
    },
    /// A reassembly buffer's time has ended; so many octets are held then.
    Expired {
        id: u16,
        held: u32,
    },
    /// A host got a PDU for another address.
    NotMine {
        to: Address,
    },
    /// A frame came that begins neither as a CLNP PDU nor as an ES-IS PDU.
    Alien,
    /// An ES-IS PDU came that breaks a rule (ISO 9542, section 6.12), with the place of the octet at fault.
    BadEsis {
        rule: u8,
        place: u8,
    },
    /// A system was heard of, and what came of it (ISO 9542, section 6.3).
    Hear {
        table: TableKind,
        key: Address,
        heard: Heard,
    },
    /// A holding time has ended (ISO 9542, sections 6.4 and 6.11).
    Gone {
        table: TableKind,
        key: Address,
    },
    /// A redirect came that isn't heard, or else an intermediate system's hello.
    Ignored {
        rd: bool,
    },
    /// The system was restarted.
    Restart,
    /// The router was said to be congested, or else to be so no longer.
    Congest {
        on: bool,
    },
    /// The router's route of this prefix was set.
    Route {
        prefix: Prefix,
    },
    /// The router's route of this prefix was removed, if it was there.
    Unroute {
        prefix: Prefix,
        there: bool,
    },
    /// The system's port was put on the subnetwork of this name, at an address there.
    Port {
        port: u8,
        subnet: Octets,
        snpa: Snpa,
    },
}
