//! What comes to a system.
use clnp_machine::nsaps::{Address, Snpa};
use clnp_machine::system_plan::Ask;
use clnp_machine::views::Frame;

/// What comes to a system.
#[derive(Drop)]
pub enum Input<'a> {
    /// A moment, in ticks of 500 ms, that isn't before the system's own.
    Moment(u64),
    /// A frame of at most 70,000 octets at a port, from a system of this subnetwork, to the system alone or through a group.
    Frame {
        port: u8,
        from: Snpa,
        group: bool,
        frame: &'a Frame,
    },
    /// It is asked to send a data unit of some octets, with options that a data unit may have.
    Send {
        from: Address,
        to: Address,
        body: &'a [u8],
        ask: &'a Ask,
    },
    /// It is asked to send an echo request with some octets (RFC 1575).
    Echo {
        from: Address,
        to: Address,
        body: &'a [u8],
    },
    /// It is restarted.
    Restart,
    /// It is congested from now on, or no more; a restart ends it.
    Congest(bool),
}
