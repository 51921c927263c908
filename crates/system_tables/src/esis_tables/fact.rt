//! What is heard, and what comes of it.
use pdus::nsap::{Address, Snpa};

/// The most keys that each table keeps at a time.
#[derive(Clone, Copy)]
pub struct EsisLimits {
    /// End systems.
    pub neighbours: u16,
    /// Intermediate systems.
    pub routers: u16,
    /// Destinations with a better hop.
    pub redirects: u16,
}

/// A neighbour: where a system is reached.
#[derive(Clone, Copy, PartialEq, Eq)]
pub struct Neighbour {
    /// The number of the port of one's own.
    pub port: u8,
    /// The system's address on the subnetwork of that port.
    pub snpa: Snpa,
}

/// Which table a key stands in.
#[derive(Clone, Copy, PartialEq, Eq)]
pub enum TableKind {
    /// End systems by their NSAP addresses: the configuration information of ESHs (ISO 9542, section 6.3).
    Es,
    /// Intermediate systems by their network entity titles: the configuration information of ISHs (section 6.4).
    Is,
    /// Better hops by the NSAP addresses of destinations: the redirection information of RDs (section 6.9).
    Rd,
}

/// What comes of a hearing.
#[derive(Clone, Copy, PartialEq, Eq)]
pub enum Heard {
    /// The key is kept from now on.
    New,
    /// The key was kept already; what was heard now stands in place of what was heard before.
    Again,
    /// The holding time is 0: the key isn't kept any more.
    Zero,
    /// The key isn't kept, since the table keeps so many others.
    Full { entries: u16 },
}

/// A key whose holding time has ended.
#[derive(Clone, Copy, PartialEq, Eq)]
pub struct Gone {
    pub table: TableKind,
    pub key: Address,
}
