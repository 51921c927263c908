//! Whom a PDU is given to on a subnetwork.
use crate::nsap::snpa::Snpa;

/// Whom a PDU is given to on a subnetwork (ISO 9542).
#[derive(Clone, Copy, PartialEq, Eq)]
pub enum Target {
    /// One system, at its point of attachment.
    System(Snpa),
    /// All end systems.
    EndSystems,
    /// All intermediate systems.
    Routers,
}
