//! Copies of frames on a subnetwork.
ghost use Rattle.std.specs.Prelude.{◌≡◌, ◌<◌, ◌≤◌, IfSome, length};
ghost use Rattle.std.specs.List.{position};
ghost use Rattle.clnp_machine.specs.ClnpNetwork.LabelledNetwork as network;
ghost use Rattle.clnp_program.specs.ClnpWorld.Seen.{enters};

use clnp_machine::nsaps::{Snpa, Target};
use clnp_machine::system_plan::{PortConfig, Role};
use clnp_machine::views::Frame;

/// Who made what a frame carries, by its place among the declarations, and at which moment of its own clock. Where the frame
/// came from outside nobody did, and the moment is one of the network's clock.
#[derive(Clone, Copy)]
pub(crate) struct Origin {
    pub(crate) maker: Option<usize>,
    pub(crate) birth: u64,
}

/// A frame that was put on a subnetwork, by its place among the declarations.
#[derive(Drop)]
pub(crate) struct FrameCopy {
    pub(crate) subnet: u8,
    /// The sender's address there.
    pub(crate) sender: Snpa,
    pub(crate) target: Target,
    /// Of its unit, or of the ES-IS PDU that it is.
    pub(crate) origin: Origin,
    pub(crate) frame: Frame,
}

/// What any origin serves for, where no frame comes.
pub(crate) const NO_FRAME: Origin = Origin {
    maker: None,
    birth: 0,
};

/// Whether a copy is for a group of systems.
pub(crate) fn is_to_group(copy: &FrameCopy) -> bool
    ensures { result ≡ network.is_group copy.now.target }
{
    !matches!(copy.target, Target::System(_))
}

/// The least of the ports of a system of a role by which a copy comes in, if it is for the system. An octet numbers each
/// port.
#[inline(always)]
pub(crate) fn first_port(copy: &FrameCopy, role: Role, ports: &[PortConfig]) -> Option<u8>
    requires { length ports.now ≤ 8 }
    ensures { result ≡ position (enters copy.now role) ports.now }
{
    match entrance(copy, role, ports) {
        Some(first) => Some(first as u8),
        None => None,
    }
}

/// The same, as a place among the ports.
#[inline(always)]
fn entrance(copy: &FrameCopy, role: Role, ports: &[PortConfig]) -> Option<usize>
    ensures place { result ≡ position (enters copy.now role) ports.now }
    ensures within { IfSome result (λ place. place < length ports.now) }
{
    for place in 0..ports.len() {
        if enters(copy, role, &ports[place]) {
            return Some(place);
        }
    }
    None
}

/// Whether a copy comes in by a port of a system of a role.
#[inline(always)]
fn enters(copy: &FrameCopy, role: Role, port: &PortConfig) -> bool
    ensures { result ≡ enters copy.now role port.now }
{
    port.subnet == copy.subnet && reaches(role, &copy.target, &copy.sender, &port.snpa)
}

/// Whether a target reaches a port with its own address: a single system by its address, a group by
/// its role, and never its sender (ISO 9542, section 5.3).
#[inline(always)]
fn reaches(role: Role, target: &Target, sender: &Snpa, own: &Snpa) -> bool
    ensures { result ≡ network.reaches role target.now sender.now own.now }
{
    match target {
        Target::System(snpa) => own == snpa,
        Target::EndSystems => role == Role::Host && own != sender,
        Target::Routers => role == Role::Router && own != sender,
    }
}
