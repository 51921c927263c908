//! The labelled machine: units, packets, one system's state, what comes to it, and its steps; and
//! the laws of one step, which hold for hosts and routers alike.
#![tactic(auto)]

pub mod attaching;
pub mod clnp_network;
pub mod laws;
pub mod live_model;
pub mod way;

pub use clnp_plan::{clnp, hearing, options, routing, views};

/// NSAP addresses, their prefixes, SNPAs, and targets.
pub mod nsaps {
    pub use clnp_plan::nsaps::{Address, Prefix, Snpa, Target};
}

/// What a scenario says of a system, what a system is asked and gives out, and the lines that tell of it.
pub mod system_plan {
    pub use clnp_plan::{
        Ask, Limits, Note, Output, PortConfig, Role, SendRefusal, Sending, SystemConfig, Telling,
        Why, injection_text, journal_text, late_text, loss_text, nobody_text, push_end,
        receipt_text, resize_text, transmission_text, void_text,
    };
}

/// ES-IS PDUs.
pub mod esis {
    pub use pdus::esis_pdus::{
        AddressList, EsisBody, EsisPdu, EsisRefusal, HelloRefusal, decode, esh, ish, rd,
    };
}

/// Octets and text.
pub mod base {
    pub use clnp_plan::base::{NoMemory, Octets, SharedOctets};
}

/// The echo function.
pub mod echoing {
    pub use pdus::made_pdus::{echo_laws as laws, matches_parts, needs_id};
}

/// Error reports.
pub mod reports {
    pub use pdus::made_pdus::{read, report_in};
}

/// Reassembly buffers.
pub mod reassembling {
    pub use system_tables::reassembly::{Accept, Key, Segment, Shape, SlotNo, Table, TableLimits};
}

/// PDUs cut into segments.
pub mod segmenting {
    pub use pdus::made_pdus::{Cut, Cuts, NotPermitted};
}
