//! When the source of a PDU that goes on is told of a better way (ISO 9542, section 6.8).
ghost use Rattle.std.specs.Prelude.{◌≡◌, ◌==◌, ◌&&◌, not};
ghost use Rattle.clnp_machine.specs.Step.{is_at};

use crate::Passing;
use clnp_machine::hearing::Neighbour;
use clnp_machine::way::Way;

/// Whether a PDU that came from a place and goes on by a way may call for a redirect: redirects hold for a time, it goes on by
/// the port by which it came, not towards a title of a source route, and it begins its unit.
pub(crate) fn may_be_redirected(
    holding: u16,
    came: &Neighbour,
    passing: &Passing<'_>,
    towards_title: bool,
    way: &Way,
) -> bool
    ensures { result ≡ (not (holding == 0)
        && (way.now.neighbour.port == came.now.port && (not towards_title && passing.now.first))) }
{
    holding != 0 && way.neighbour.port == came.port && !towards_title && passing.first
}

/// Whether something is at a place, as far as is known.
pub(crate) fn is_at(neighbour: &Neighbour, known: Option<Neighbour>) -> bool
    ensures { result ≡ is_at neighbour.now known }
{
    match known {
        Some(known) => known.port == neighbour.port && known.snpa == neighbour.snpa,
        None => false,
    }
}
