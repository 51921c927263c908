//! The lines of a node's journal: each is written at once.
ghost use Rattle.std.specs.Prelude.{◌≡◌, ◌≤◌, ◌⊎◌, OnOk, OnErr, IfErr, IfOk, Err};
ghost use Rattle.std.specs.Io.KnownBytes.{Appends};
ghost use Rattle.clnp_machine.specs.ClnpBase.Streams.{AppendsFront, Rose};
ghost use Rattle.clnp_machine.specs.ClnpPlan.Journal.{Noted, Transmitted};
ghost use Rattle.clnp_machine.specs.LiveModel.Lines.{LinkGone, Says, node_line_text};

use crate::live_node::node::Stop;
use clnp_machine::nsaps::Target;
use clnp_machine::system_plan::{Note, journal_text, transmission_text};
use clnp_machine::views::Frame;
use frame_links::link_board::base::{NoMemory, Sink, push, push_decimal, write_all};
use std::alloc::Global;

/// Writes the line of a note of a system.
pub(crate) fn write_note<K: Sink>(
    alloc: Global,
    now: u64,
    name: &[u8],
    note: &Note,
    sink: &mut K,
) -> Result<(), Stop>
    ensures written { OnOk result (Appends (K.written sink.old) (K.written sink.new)
        (node_line_text (Says (Noted now name.now note.now)))) }
    ensures front { OnErr result (AppendsFront (K.written sink.old) (K.written sink.new)
        (node_line_text (Says (Noted now name.now note.now)))) }
    ensures unwritten { IfErr result (λ stop. (stop ≡ Stop.WriteFault) ⊎ (K.written sink.new ≡ K.written sink.old)) }
    ensures later { K.faults sink.old ≤ K.faults sink.new }
    ensures failed { result ≡ Err Stop.WriteFault → Rose (K.faults sink.old) (K.faults sink.new) }
{
    let mut text = Vec::new(alloc);
    if journal_text(alloc, now, name, note, &mut text).is_err() {
        return Err(Stop::NoMemory);
    }
    write_line(&text, sink)
}

/// Writes the line of a frame that a system transmits on a port, as the copy with a number.
pub(crate) fn write_transmission<K: Sink>(
    alloc: Global,
    now: u64,
    name: &[u8],
    copy: u64,
    port: u8,
    target: Target,
    frame: &Frame,
    sink: &mut K,
) -> Result<(), Stop>
    ensures written { OnOk result (Appends (K.written sink.old) (K.written sink.new)
        (node_line_text (Says (Transmitted now name.now copy port target frame.now)))) }
    ensures front { OnErr result (AppendsFront (K.written sink.old) (K.written sink.new)
        (node_line_text (Says (Transmitted now name.now copy port target frame.now)))) }
    ensures unwritten { IfErr result (λ stop. (stop ≡ Stop.WriteFault) ⊎ (K.written sink.new ≡ K.written sink.old)) }
    ensures later { K.faults sink.old ≤ K.faults sink.new }
    ensures failed { result ≡ Err Stop.WriteFault → Rose (K.faults sink.old) (K.faults sink.new) }
{
    let mut text = Vec::new(alloc);
    if transmission_text(alloc, now, name, copy, port, target, frame, &mut text).is_err() {
        return Err(Stop::NoMemory);
    }
    write_line(&text, sink)
}

/// Writes the line of a port of a system whose link failed.
pub(crate) fn write_loss<K: Sink>(
    alloc: Global,
    now: u64,
    name: &[u8],
    port: u8,
    sink: &mut K,
) -> Result<(), Stop>
    ensures written { OnOk result (Appends (K.written sink.old) (K.written sink.new)
        (node_line_text (LinkGone now name.now port))) }
    ensures front { OnErr result (AppendsFront (K.written sink.old) (K.written sink.new)
        (node_line_text (LinkGone now name.now port))) }
    ensures unwritten { IfErr result (λ stop. (stop ≡ Stop.WriteFault) ⊎ (K.written sink.new ≡ K.written sink.old)) }
    ensures later { K.faults sink.old ≤ K.faults sink.new }
    ensures failed { result ≡ Err Stop.WriteFault → Rose (K.faults sink.old) (K.faults sink.new) }
{
    match loss_text(alloc, now, name, port) {
        Ok(text) => write_line(&text, sink),
        Err(NoMemory) => Err(Stop::NoMemory),
    }
}

/// The line of a port of a system whose link failed.
fn loss_text(alloc: Global, now: u64, name: &[u8], port: u8) -> Result<Vec<u8>, NoMemory>
    ensures { IfOk result (λ text. text.items
        ≡ node_line_text (LinkGone now name.now port)) }
{
    let mut text = Vec::new(alloc);
    push_decimal(now, &mut text)?;
    push(b" ", &mut text)?;
    push(name, &mut text)?;
    push(b" link ", &mut text)?;
    push_decimal(u64::from(port), &mut text)?;
    push(b" gone\n", &mut text)?;
    Ok(text)
}

/// Writes a line.
fn write_line<K: Sink>(line: &[u8], sink: &mut K) -> Result<(), Stop>
    ensures written { OnOk result (Appends (K.written sink.old) (K.written sink.new) line.now) }
    ensures front { OnErr result (AppendsFront (K.written sink.old) (K.written sink.new) line.now) }
    ensures unwritten { IfErr result (λ stop. (stop ≡ Stop.WriteFault) ⊎ (K.written sink.new ≡ K.written sink.old)) }
    ensures later { K.faults sink.old ≤ K.faults sink.new }
    ensures failed { result ≡ Err Stop.WriteFault → Rose (K.faults sink.old) (K.faults sink.new) }
{
    match write_all(sink, line) {
        Ok(()) => Ok(()),
        Err(_) => Err(Stop::WriteFault),
    }
}
