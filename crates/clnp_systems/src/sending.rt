//! PDUs that go out in pieces, cut for the MTU of a port (ISO/IEC 8473, section 6.7): a unit that was made here, or a PDU that
//! is forwarded.
ghost use Rattle.std.specs.Prelude.{◌≡◌, ◌≤◌, ◌+◌, ◌++◌, [], ◌∷◌, IfOk, OnOk, OnErr, Some, drop, length, map, take, None};
ghost use Rattle.std.specs.List.{AllByRecursion};
ghost use Rattle.clnp_machine.specs.ClnpViews.Extent.{seen};
ghost use Rattle.clnp_machine.specs.Given.{Appends};
ghost use Rattle.clnp_machine.specs.Local.{Sends};
ghost use Rattle.clnp_machine.specs.Step.{first_sent, sent_on};
ghost use Rattle.clnp_machine.specs.System.{SystemState};
ghost use Rattle.clnp_machine.specs.Unit.{DataUnit};
ghost use Rattle.clnp_machine.specs.ClnpOptions.Reasons.{reason_code};
ghost use Rattle.clnp_machine.specs.ClnpPlan.Configuration.{IsPort};
ghost use Rattle.clnp_machine.specs.ClnpPlan.declared.note.Note.TheVariants.{Discard};
ghost use Rattle.clnp_machine.specs.ClnpPlan.declared.output.Output.TheVariants.{Transmit, Note as Noted};
ghost use Rattle.clnp_machine.specs.MadePdus.Left.{IsCutOf};
ghost use Rattle.clnp_systems.specs.declared.action.Action.TheVariants.{Send};
ghost use Rattle.clnp_systems.specs.Local.{Does};
ghost use Rattle.clnp_systems.specs.Sending.{transmission};

use crate::action::Made;
use clnp_machine::base::NoMemory;
use clnp_machine::clnp::Header;
use clnp_machine::options::Reason;
use clnp_machine::segmenting::{Cuts, NotPermitted};
use clnp_machine::system_plan::{Note, Output, PortConfig, Sending};
use clnp_machine::views::{Frame, View};
use clnp_machine::way::Hop;
use std::alloc::Global;

/// Sends a unit in pieces to where it goes next, by one of these ports, or notes that it may not be cut, or that there is no way
/// for it.
///
/// # Errors
///
/// `NoMemory`: `out` is then as it was.
pub fn send_unit(
    alloc: Global,
    made: &Made,
    hop: Option<Hop>,
    ports: &[PortConfig],
    out: &mut Vec<Output>,
) -> Result<(), NoMemory>
    requires made { (u : DataUnit) × Does (Send made.now) (Sends u) }
    requires ports { AllByRecursion IsPort ports.now }
    ensures sent { OnOk result ((s : SystemState) (u : DataUnit) → ports.now ≡ s.attached.ports → Does (Send made.now) (Sends u)
        → u.first_position ≡ 0 → Appends u.made None out.old.items out.new.items (first_sent s u hop)) }
    ensures none { OnErr result (out.new.items ≡ out.old.items) }
    ensures front { take (length out.old.items) out.new.items ≡ out.old.items }
{
    let Some(hop) = hop else {
        return note(Reason::DestinationUnknown, out);
    };
    let Some(port) = ports.get(usize::from(hop.port)) else {
        return note(Reason::DestinationUnknown, out);
    };
    send_on(alloc, made, hop, port, out)
}

/// Sends a unit in pieces on a port, or notes that it may not be cut.
fn send_on(
    alloc: Global,
    made: &Made,
    hop: Hop,
    port: &PortConfig,
    out: &mut Vec<Output>,
) -> Result<(), NoMemory>
    requires made { (u : DataUnit) × Does (Send made.now) (Sends u) }
    requires least { 512 ≤ port.now.mtu }
    ensures sent { OnOk result ((u : DataUnit) → Does (Send made.now) (Sends u) → u.first_position ≡ 0
        → Appends u.made None out.old.items out.new.items (sent_on hop (Some port.now) u)) }
    ensures none { OnErr result (out.new.items ≡ out.old.items) }
    ensures front { take (length out.old.items) out.new.items ≡ out.old.items }
{
    let octets = made.body.len();
    match Cuts::new(made.head, octets, port.mtu) {
        Ok(mut cuts) => give_pieces(alloc, &mut cuts, hop, &made.body, false, out),
        Err(NotPermitted { .. }) => note(Reason::SegmentationNotPermitted, out),
    }
}

/// Gives out the pieces of a PDU with these data, which is forwarded or was made here, each as a frame of its own. They are
/// taken from `cuts`, which is lent and not handed over, since it holds a header of up to 254 octets. A PDU that is its own
/// single piece stays there, for the same reason.
///
/// # Errors
///
/// `NoMemory`: `out` is then as it was.
pub fn give_pieces(
    alloc: Global,
    cuts: &mut Cuts,
    hop: Hop,
    body: &View,
    forwarded: bool,
    out: &mut Vec<Output>,
) -> Result<(), NoMemory>
    requires { AllByRecursion (IsCutOf body.now.len) cuts.old }
    ensures given { OnOk result (out.new.items ≡ out.old.items ++ map (transmission forwarded hop body.now) cuts.old) }
    ensures none { OnErr result (out.new.items ≡ out.old.items) }
    ensures front { take (length out.old.items) out.new.items ≡ out.old.items }
{
    if let Some((head, len)) = cuts.single() {
        return push_piece(alloc, head, body, 0, len, &hop, forwarded, out);
    }
    let before = out.len();
    if let Err(refused) = push_pieces(alloc, cuts, &hop, body, forwarded, out) {
        out.truncate(before);
        return Err(refused);
    }
    Ok(())
}

/// Appends the pieces of a PDU with these data; where memory is refused some of them stay.
fn push_pieces(
    alloc: Global,
    cuts: &mut Cuts,
    hop: &Hop,
    body: &View,
    forwarded: bool,
    out: &mut Vec<Output>,
) -> Result<(), NoMemory>
    requires { AllByRecursion (IsCutOf body.now.len) cuts.old }
    ensures given { OnOk result (out.new.items ≡ out.old.items ++ map (transmission forwarded hop.now body.now) cuts.old) }
    ensures front { OnErr result (take (length out.old.items) out.new.items ≡ out.old.items) }
{
    for cut in cuts {
        push_piece(
            alloc, &cut.head, body, cut.from, cut.len, hop, forwarded, out,
        )?;
    }
    Ok(())
}

/// Appends the piece of a PDU that has this header and `len` octets of these data, from place `from` of them.
fn push_piece(
    alloc: Global,
    head: &Header,
    body: &View,
    from: usize,
    len: usize,
    hop: &Hop,
    forwarded: bool,
    out: &mut Vec<Output>,
) -> Result<(), NoMemory>
    requires { from + len ≤ body.now.len }
    ensures given { OnOk result (out.new.items ≡ out.old.items
        ++ Transmit (record { port = hop.now.port; to = hop.now.target; frame = head.now ++ take len (drop from (seen body.now)); forwarded = forwarded }) ∷ []) }
    ensures none { OnErr result (out.new.items ≡ out.old.items) }
{
    let frame = Frame::with_data(alloc, head.as_bytes(), body, from, len)?;
    out.reserve(1)?;
    out.push_reserved(Output::Transmit(Sending {
        port: hop.port,
        to: hop.target,
        frame,
        forwarded,
    }));
    Ok(())
}

/// Notes that a unit is discarded for a reason, for which no place in it is told.
fn note(reason: Reason, out: &mut Vec<Output>) -> Result<(), NoMemory>
    ensures noted { OnOk result (out.new.items ≡ out.old.items ++ Noted (Discard (reason_code reason) 0) ∷ []) }
    ensures none { OnErr result (out.new.items ≡ out.old.items) }
    ensures front { take (length out.old.items) out.new.items ≡ out.old.items }
{
    let reason = reason.code();
    out.reserve(1)?;
    out.push_reserved(Output::Note(Note::Discard { reason, place: 0 }));
    Ok(())
}
