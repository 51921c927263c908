//! How a PDU for another address goes on by a port (ISO/IEC 8473, section 6.4).
ghost use Rattle.std.specs.Prelude.{◌≡◌, ◌≤◌, ℕ, IfOk, List, Some};
ghost use Rattle.clnp_machine.specs.ClnpPlan.Configuration.{IsPort};
ghost use Rattle.clnp_machine.specs.Step.{goes_on_by, options_behind};
ghost use Rattle.clnp_machine.specs.PduHeader.Headers.{SpellsHeader, with_options};
ghost use Rattle.clnp_machine.specs.System.{SystemState};
ghost use Rattle.clnp_machine.specs.Unit.{IsCarriable, Packet, value_of};
ghost use Rattle.clnp_machine.specs.SystemTables.declared.esis_tables.fact.Neighbour.{Neighbour};
ghost use Rattle.clnp_systems.specs.Comes.{HasValue};
ghost use Rattle.clnp_systems.specs.Router.Onward.{ComesTo, IsHeaderOver, life_left};

use crate::Passing;
use clnp_machine::clnp::Header;
use clnp_machine::laws;
use clnp_machine::options::Reason;
use clnp_machine::system_plan::PortConfig;
use clnp_machine::way::Way;

/// The way of a PDU, whether it is the way to a title of a source route, and the MTU there. Its header stands elsewhere, so that
/// it isn't moved with them.
#[derive(Clone, Copy)]
pub(crate) struct Onward {
    pub way: Way,
    pub towards_title: bool,
    pub mtu: u16,
}

/// How a PDU goes on with a header that was changed, by a way and its port, or for which reason it is discarded there. The header
/// is told what is left of the lifetime.
#[tactic(auto, using(crate::proofs::Going::ends))]
pub(crate) fn by_port(
    passing: &Passing<'_>,
    head: &mut Header,
    way: Way,
    port: &PortConfig,
) -> Result<Onward, Reason>
    requires port { IsPort port.now }
    requires head { IsHeaderOver passing.now.len head.old }
    ensures goes { (s : SystemState) (came : Neighbour) (p : Packet) (following : List ℕ) → IsCarriable p
        → HasValue passing.now (value_of p)
        → SpellsHeader (with_options (options_behind s p.options) (value_of p)) head.old
        → ComesTo result head.new s came p following
        (goes_on_by s came p following (options_behind s p.options) way (Some port.now)) }
    ensures head { IsHeaderOver passing.now.len head.new }
    ensures mtu { IfOk result (λ onward. 512 ≤ onward.mtu) }
{
    let Some(life) = life_left(passing.life, port) else {
        return Err(Reason::LifetimeExpiredInTransit);
    };
    laws::what_goes_on_has_its_value();
    let towards_title = head.route_target().is_some();
    head.set_life(life);
    Ok(Onward {
        way,
        towards_title,
        mtu: port.mtu,
    })
}

/// What is left of a lifetime behind a port, whose transit is 1 at least; none where it ends (section 6.4).
fn life_left(life: u8, port: &PortConfig) -> Option<u8>
    requires { IsPort port.now }
    ensures { result ≡ life_left life port.now }
{
    let transit = port.transit;
    if life <= transit {
        return None;
    }
    Some(life - transit)
}
