//! To which ends a frame goes.
ghost use Rattle.std.specs.Prelude.{◌≡◌, ◌<◌, ◌++◌, length};
ghost use Rattle.std.specs.List.{filter_map};
ghost use Rattle.std.specs.Option.{option_to_list};
ghost use Rattle.frame_links.specs.UdpLinks.Receivers.{end_of, is_same, receivers};

use crate::link_board::nsaps::Target;
use crate::link_board::{End, LinkEnds, Peer, Role};
use arrayvec::ArrayVec;

/// As many ends as a link word names peers.
pub(crate) type Receivers = ArrayVec<End, 16>;

/// Whether two roles are the same.
fn is_same(role: Role, other: Role) -> bool
    ensures { result ≡ is_same role other }
{
    role == other
}

/// Puts the end of a peer behind the others, where it has this role.
fn push_end(found: &mut Receivers, role: Role, peer: Peer)
    requires { length found.old.items < 16 }
    ensures { found.new.items ≡ found.old.items ++ option_to_list (end_of role peer) }
{
    if is_same(role, peer.role) {
        found.push(peer.end);
    }
}

/// The ends of the peers of a role, in their order.
fn ends_of(role: Role, ends: &LinkEnds) -> Receivers
    ensures { result.items ≡ filter_map (end_of role) ends.now.peers }
{
    let mut found = ArrayVec::new();
    for peer in ends.peers.as_slice() {
        push_end(&mut found, role, *peer);
    }
    found
}

/// To which ends a frame for a target goes. There may be none.
pub(crate) fn receivers(ends: &LinkEnds, to: Target) -> Receivers
    ensures { result.items ≡ receivers ends.now to }
{
    match to {
        Target::System(snpa) => {
            let mut found = ArrayVec::new();
            if let Some(end) = End::at(&snpa) {
                found.push(end);
            }
            found
        }
        Target::EndSystems => ends_of(Role::EndSystem, ends),
        Target::Routers => ends_of(Role::IntermediateSystem, ends),
    }
}
