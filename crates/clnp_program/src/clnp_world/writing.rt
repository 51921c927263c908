//! The text of lines, written behind what there was.
ghost use Rattle.std.specs.Prelude.{◌≡◌, ◌++◌, ℕ, List, [], length, take, OnOk, OnErr};
ghost use Rattle.clnp_machine.specs.ClnpPlan.Journal.{told_text};
ghost use Rattle.clnp_program.specs.ClnpWorld.Lines.{Written, told_of};

use crate::clnp_world::lines::{Line, LineSink};
use clnp_machine::base::NoMemory;
use clnp_machine::system_plan::{
    Telling, injection_text, journal_text, late_text, loss_text, nobody_text, receipt_text,
    resize_text, transmission_text, void_text,
};
use std::alloc::Global;
use std::marker::{Brand, PhantomData};

/// A text that others are written behind.
pub(crate) trait Front {
    // Its octets.
    ghost front: { List ℕ };
}

impl Front for Brand {
    ghost front = { [] };
}

/// The text of lines in a journal or in a trace, behind a front that stays as it is, also where memory is refused.
#[derive(Drop)]
pub(crate) struct Writing<K: Front> {
    pub(crate) telling: Telling,
    pub(crate) text: Vec<u8>,
    pub(crate) behind: PhantomData<K>,
    ghost begins: { take (length K.front) text.items ≡ K.front },
}

impl<K: Front> LineSink for Writing<K> {
    ghost taken = { λ writing. Written writing.telling writing.text.items };

    #[inline(always)]
    fn take(&mut self, alloc: Global, line: &Line<'_>) -> Result<(), NoMemory> {
        push_told(alloc, self.telling, line, &mut self.text)
    }
}

/// Appends what is told of a line: its text, and nothing where a trace alone has it and a journal is written.
#[inline(always)]
fn push_told(
    alloc: Global,
    telling: Telling,
    line: &Line<'_>,
    out: &mut Vec<u8>,
) -> Result<(), NoMemory>
    ensures written { OnOk result (out.new.items ≡ out.old.items ++ told_text telling (told_of line.now)) }
    ensures same { OnErr result (out.new.items ≡ out.old.items) }
{
    match *line {
        Line::Noted { now, name, note } => journal_text(alloc, now, name, note, out),
        Line::Transmitted {
            now,
            name,
            copy,
            port,
            target,
            frame,
        } => transmission_text(alloc, now, name, copy, port, target, frame, out),
        Line::Void { now, name, copy } => void_text(alloc, now, name, copy, out),
        Line::Late { now, name, copy } => late_text(alloc, now, name, copy, out),
        Line::Injected {
            now,
            copy,
            subnet,
            sender,
            target,
        } => injection_text(alloc, now, copy, subnet, sender, target, out),
        Line::Resized { now, subnet, mtu } => resize_text(alloc, now, subnet, mtu, out),
        Line::Received {
            now,
            name,
            copy,
            port,
        } => match telling {
            Telling::Trace => receipt_text(alloc, now, name, copy, port, out),
            Telling::Journal => Ok(()),
        },
        Line::Lost { now, copy } => match telling {
            Telling::Trace => loss_text(alloc, now, copy, out),
            Telling::Journal => Ok(()),
        },
        Line::ForNobody { now, copy } => match telling {
            Telling::Trace => nobody_text(alloc, now, copy, out),
            Telling::Journal => Ok(()),
        },
    }
}
