//! What a router changes in the options of a PDU that goes on: it passes its own title in a source route, puts it in a recording of
//! route, and notes that it is congested (ISO/IEC 8473, sections 6.14, 6.15 and 6.18).
ghost use Rattle.std.specs.Prelude.{◌≡◌, ◌&&◌, IsSome, not, true};
ghost use Rattle.clnp_machine.specs.ClnpOptions.Edits.{edited, is_complete, recorded, target_of};
ghost use Rattle.clnp_machine.specs.ClnpOptions.Parameter.{recording};
ghost use Rattle.clnp_machine.specs.ClnpOptions.Reasons.{reason_code};
ghost use Rattle.clnp_machine.specs.Esis.{title_of};
ghost use Rattle.clnp_machine.specs.Step.{ends_at, is_named, most_titles, no_way_to, noting_congestion, options_behind, passing_own, towards};
ghost use Rattle.clnp_machine.specs.System.{SystemState};
ghost use Rattle.clnp_machine.specs.PduHeader.Headers.{IsHeader, SpellsHeader, with_options};
ghost use Rattle.clnp_machine.specs.PduHeader.Value.{PduValue};

use clnp_machine::clnp::Header;
use clnp_machine::nsaps::Address;
use clnp_machine::options::Reason;
use clnp_machine::way::Way;

/// No source route has so many titles, since its pointer is an octet.
const MOST_TITLES: u8 = 255;

/// Whether a header's source route is complete, and another system than that of a title stands at its pointer.
pub(crate) fn is_off_route(head: &Header, title: &Address) -> bool
    ensures { (s : SystemState) (v : PduValue) → title_of s ≡ title.now → SpellsHeader v head.now
        → result ≡ (is_complete v.options && not (is_named s (target_of v.options))) }
{
    head.is_route_complete() && !is_named(head, title)
}

/// Whether a header's source route is complete, and the next system on a way isn't the one to whose address it leads.
pub(crate) fn is_barred(head: &Header, way: &Way, to: &Address) -> bool
    ensures { (v : PduValue) → SpellsHeader v head.now
        → result ≡ (is_complete v.options && not (ends_at to.now way.now.title)) }
{
    head.is_route_complete() && !way.ends_at(to)
}

/// What a PDU is sent towards: the title to which its header's source route leads next, else its destination.
pub(crate) fn towards(head: &Header, destination: &Address) -> Address
    ensures { (v : PduValue) → SpellsHeader v head.now → result ≡ towards destination.now (target_of v.options) }
{
    match head.route_target() {
        Some(title) => title,
        None => *destination,
    }
}

/// Why a PDU with a header is discarded where no way leads there.
pub(crate) fn no_way(head: &Header) -> Reason
    ensures { (v : PduValue) → SpellsHeader v head.now → reason_code result ≡ no_way_to (target_of v.options) }
{
    match head.route_target() {
        Some(_) => Reason::UnknownAddressInRoute,
        None => Reason::DestinationUnknown,
    }
}

/// The header of a PDU behind the router of a title, which may be congested.
pub(crate) fn behind(head: &mut Header, title: &Address, congested: bool)
    requires { IsHeader head.old }
    ensures { (s : SystemState) (v : PduValue) → title_of s ≡ title.now → s.congested ≡ congested
        → SpellsHeader v head.old
        → SpellsHeader (with_options (options_behind s v.options) v) head.new }
{
    pass_own(head, title);
    tell(head, title, congested);
}

/// Moves the pointer of a header's source route past a title while it stands there.
fn pass_own(head: &mut Header, title: &Address)
    requires { IsHeader head.old }
    ensures { (s : SystemState) (v : PduValue) → title_of s ≡ title.now → SpellsHeader v head.old
        → SpellsHeader (with_options (passing_own most_titles s v.options) v) head.new }
{
    for _ in 0..MOST_TITLES {
        if !is_named(head, title) {
            return;
        }
        head.advance_route();
    }
}

/// Puts a router's title in a header's recording of route, and says there that it is congested, where it is.
fn tell(head: &mut Header, title: &Address, congested: bool)
    ensures { (v : PduValue) → SpellsHeader v head.old
        → SpellsHeader (with_options (noting_congestion congested (edited recording (recorded title.now) v.options)) v) head.new }
{
    head.record_title(title);
    if congested {
        head.mark_congestion();
    }
}

/// Whether a title stands at the pointer of a header's source route.
#[tactic(auto, using(crate::proofs::Behind::named_where_it_stands))]
fn is_named(head: &Header, title: &Address) -> bool
    ensures named { (s : SystemState) (v : PduValue) → title_of s ≡ title.now → SpellsHeader v head.now
        → result ≡ is_named s (target_of v.options) }
    ensures leads_on { (v : PduValue) → SpellsHeader v head.now → result ≡ true → IsSome (target_of v.options) }
{
    match head.route_target() {
        Some(there) => there == *title,
        None => false,
    }
}
