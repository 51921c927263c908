//! What the entity of a system does at the system's own addresses.
use clnp_machine::clnp::{Header, Kind};
use clnp_machine::nsaps::Address;
use clnp_machine::system_plan::Note;
use clnp_machine::views::View;

/// A data unit that was made: its number among the system's units, its destination, the header of its initial PDU, and its
/// data.
#[derive(Drop)]
pub struct Made {
    pub unit: u64,
    pub to: Address,
    pub head: Header,
    pub body: View,
}

/// What is done.
#[derive(Drop)]
pub enum Action {
    /// The unit goes out.
    Send(Made),
    /// Something is noted.
    Note(Note),
}

/// A unit that is about to be made: its kind, its identifier where it has one, its source and its destination, the header of
/// its initial PDU, and its data.
#[derive(Drop)]
pub(crate) struct Draft {
    pub kind: Kind,
    pub id: Option<u16>,
    pub from: Address,
    pub to: Address,
    pub head: Header,
    pub body: View,
}
