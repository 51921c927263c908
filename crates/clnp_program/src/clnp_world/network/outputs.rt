//! What systems give out: frames become copies on a subnetwork, and notes lines.
ghost use Rattle.std.specs.Prelude.{◌≡◌, ◌+◌, ◌<◌, ◌≤◌, ◌^◌, if◌then◌else◌, List, [], ◌∷◌, IfNone, IfSome, OnOk, Some, length, slice_get, vec_len};
ghost use Rattle.clnp_machine.specs.ClnpPlan.declared.output.Output.{Output};
ghost use Rattle.clnp_machine.specs.Content.{Content};
ghost use Rattle.clnp_machine.specs.Given.{GiveAll, Gives};
ghost use Rattle.clnp_machine.specs.System as machine;
ghost use Rattle.clnp_machine.specs.System.{SystemState};
ghost use Rattle.clnp_machine.specs.Ways.{IsOwnWhereFirst};
ghost use Rattle.std.specs.List.{AllByRecursion};
ghost use Rattle.clnp_machine.specs.ClnpNetwork.LabelledNetwork as network;
ghost use Rattle.clnp_machine.specs.ClnpPlan.Journal.{Noted, Transmitted};
ghost use Rattle.clnp_program.specs.ClnpWorld.Lines.{Gains};
ghost use Rattle.clnp_program.specs.ClnpWorld.Parts.{Puts, PutsCopies, Shows};
ghost use Rattle.clnp_program.specs.ClnpWorld.Seen.{frame_copies};
ghost use Rattle.clnp_program.specs.ClnpWorld.Stands.{IsMadeWithUnit};

use super::Network;
use crate::clnp_world::copy::{FrameCopy, Origin};
use crate::clnp_world::lines::{Line, LineSink};
use clnp_machine::base::NoMemory;
use clnp_machine::nsaps::Target;
use clnp_machine::system_plan::{Note, Output, PortConfig, Sending, SystemConfig};
use clnp_machine::views::Frame;
use std::alloc::Global;

/// What a copy weighs beside the octets of its frame.
const COPY_WEIGHT: u64 = 64;

impl Network {
    /// Puts the outputs, which are of the system at a place, on the network, in their order. The frame that the system
    /// was given has the origin `came`; where none was, nothing goes on, and any origin serves.
    #[inline(always)]
    pub(super) fn put_all_out<L: LineSink>(
        &mut self,
        alloc: Global,
        place: usize,
        came: Origin,
        lines: &mut L,
    ) -> Result<(), NoMemory>
        requires { place < vec_len self.old.systems }
        ensures puts { OnOk result ((model : network.LabelledNetwork) (system : SystemState) (content : Content) (others : List machine.Output)
            → Shows self.old model → slice_get model.systems place ≡ Some system → IsMadeWithUnit came content
            → AllByRecursion (IsOwnWhereFirst system) others → GiveAll system.moment (Some content) self.old.outputs.items others
            → Puts self.new (L.taken lines.old) (L.taken lines.new) (network.put_all_out system model others)) }
        ensures systems { self.new.systems ≡ self.old.systems }
        ensures clock { self.new.clock ≡ self.old.clock }
        ensures copies { vec_len self.old.copies ≤ vec_len self.new.copies }
    {
        for at in 0..self.outputs.len() {
            self.put_out(alloc, place, came, at, lines)?;
        }
        Ok(())
    }

    /// Puts one of the outputs, which is of the system at a place, on the network: its note is written, or its frame put
    /// on the port's subnetwork. The frame that the system was given has the origin `came`.
    #[inline(never)]
    fn put_out<L: LineSink>(
        &mut self,
        alloc: Global,
        place: usize,
        came: Origin,
        at: usize,
        lines: &mut L,
    ) -> Result<(), NoMemory>
        requires place_in { place < vec_len self.old.systems }
        requires at_in { at < vec_len self.old.outputs }
        ensures puts { OnOk result ((output : Output) → slice_get self.old.outputs.items at ≡ Some output
            → (model : network.LabelledNetwork) (system : SystemState) (content : Content) (other : machine.Output)
            → Shows self.old model → slice_get model.systems place ≡ Some system → IsMadeWithUnit came content
            → IsOwnWhereFirst system other → Gives system.moment (Some content) output other
            → Puts self.new (L.taken lines.old) (L.taken lines.new) (network.put_out system model other)) }
        ensures systems { self.new.systems ≡ self.old.systems }
        ensures clock { self.new.clock ≡ self.old.clock }
        ensures outputs { self.new.outputs ≡ self.old.outputs }
        ensures copies { vec_len self.old.copies ≤ vec_len self.new.copies }
    {
        match &self.outputs[at] {
            Output::Note(note) => self.write_note(alloc, place, note, lines),
            Output::Transmit(sending) => {
                let frame = sending.frame.share()?;
                self.write_transmission(alloc, place, sending.port, sending.to, &frame, lines)?;
                let origin = self.origin_of(place, sending, came);
                let port = sending.port;
                let target = sending.to;
                self.put_copy(place, port, target, origin, frame)
            }
        }
    }

    /// The line of a note of the system at a place.
    pub(super) fn write_note<L: LineSink>(
        &self,
        alloc: Global,
        place: usize,
        note: &Note,
        lines: &mut L,
    ) -> Result<(), NoMemory>
        requires { place < vec_len self.now.systems }
        ensures { OnOk result ((model : network.LabelledNetwork) (system : SystemState) → Shows self.now model
            → slice_get model.systems place ≡ Some system
            → Gains (L.taken lines.old) (L.taken lines.new) (Noted system.moment system.configuration.name note.now ∷ [])) }
    {
        let line = Line::Noted {
            now: self.moment_at(place),
            name: self.config_at(place).name(),
            note,
        };
        lines.take(alloc, &line)
    }

    /// The line of a frame that the system at a place transmits as the next copy.
    fn write_transmission<L: LineSink>(
        &self,
        alloc: Global,
        place: usize,
        port: u8,
        target: Target,
        frame: &Frame,
        lines: &mut L,
    ) -> Result<(), NoMemory>
        requires { place < vec_len self.now.systems }
        ensures { OnOk result ((model : network.LabelledNetwork) (system : SystemState) → Shows self.now model
            → slice_get model.systems place ≡ Some system
            → Gains (L.taken lines.old) (L.taken lines.new) (Transmitted system.moment system.configuration.name
            (length model.copies + 1) port target frame.now ∷ [])) }
    {
        let line = Line::Transmitted {
            now: self.moment_at(place),
            name: self.config_at(place).name(),
            copy: self.copies.len() as u64 + 1,
            port,
            target,
            frame,
        };
        lines.take(alloc, &line)
    }

    /// The origin of a frame that the system at a place sends, where the frame that it was given has the origin `came`.
    #[inline(always)]
    fn origin_of(&self, place: usize, sending: &Sending, came: Origin) -> Origin
        requires { place < vec_len self.now.systems }
        ensures { (model : network.LabelledNetwork) (system : SystemState) → Shows self.now model
            → slice_get model.systems place ≡ Some system
            → result ≡ (if sending.now.forwarded then came else record { maker = Some place; birth = system.moment }) }
    {
        // A unit ages on its whole way: the frame that goes on is as old as the one that came, whenever it is sent.
        if sending.forwarded {
            return came;
        }
        Origin {
            maker: Some(place),
            birth: self.moment_at(place),
        }
    }

    /// Puts a frame of the system at a place on the subnetwork of its port, where it has that port.
    #[inline(always)]
    fn put_copy(
        &mut self,
        place: usize,
        port: u8,
        target: Target,
        origin: Origin,
        frame: Frame,
    ) -> Result<(), NoMemory>
        requires { place < vec_len self.old.systems }
        ensures puts { OnOk result ((model : network.LabelledNetwork) (system : SystemState) → Shows self.old model
            → slice_get model.systems place ≡ Some system
            → PutsCopies self.old self.new (frame_copies (slice_get system.attached.ports port) target origin frame)) }
        ensures others { self.new ≡ record self.old { copies = self.new.copies; weight = self.new.weight } }
        ensures more { vec_len self.old.copies ≤ vec_len self.new.copies }
    {
        let ports = self.ports_at(place);
        let number = usize::from(port);
        if number >= ports.len() {
            return Ok(());
        }
        let at = ports[number];
        self.push_copy(FrameCopy {
            subnet: at.subnet,
            sender: at.snpa,
            target,
            origin,
            frame,
        })
    }

    /// Puts a copy behind the others, and weighs it.
    #[inline(always)]
    pub(super) fn push_copy(&mut self, copy: FrameCopy) -> Result<(), NoMemory>
        ensures puts { OnOk result (PutsCopies self.old self.new (copy ∷ [])) }
        ensures others { self.new ≡ record self.old { copies = self.new.copies; weight = self.new.weight } }
        ensures more { vec_len self.old.copies ≤ vec_len self.new.copies }
    {
        let Some(weight) = weight_with(self.weight, &copy.frame) else {
            return Err(NoMemory);
        };
        self.copies.push(copy)?;
        self.weight = weight;
        Ok(())
    }

    /// What the scenario says of the system at a place.
    pub(super) fn config_at(&self, place: usize) -> &SystemConfig
        requires { place < vec_len self.now.systems }
        ensures { (model : network.LabelledNetwork) (system : SystemState) → Shows self.now model
            → slice_get model.systems place ≡ Some system
            → result.now ≡ system.configuration }
    {
        self.systems[place].config()
    }

    /// The clock of the system at a place.
    pub(super) fn moment_at(&self, place: usize) -> u64
        requires { place < vec_len self.now.systems }
        ensures moment { (model : network.LabelledNetwork) (system : SystemState) → Shows self.now model
            → slice_get model.systems place ≡ Some system
            → result ≡ system.moment }
        ensures within { result < 2 ^ 62 }
    {
        self.systems[place].moment()
    }

    /// The ports of the system at a place, as they now are.
    pub(super) fn ports_at(&self, place: usize) -> &[PortConfig]
        requires { place < vec_len self.now.systems }
        ensures ports { (model : network.LabelledNetwork) (system : SystemState) → Shows self.now model
            → slice_get model.systems place ≡ Some system
            → result.now ≡ system.attached.ports }
        ensures few { length result.now ≤ 8 }
    {
        self.systems[place].ports()
    }
}

/// The weight of some copies and of one more, exactly where a number is so great; memory is refused long before there are so many
/// copies.
fn weight_with(weight: u64, frame: &Frame) -> Option<u64>
    ensures weighed { IfSome result (λ more. more ≡ weight + (length frame.now + 64)) }
    ensures none { IfNone result (2 ^ 64 ≤ weight + (length frame.now + 64)) }
{
    let octets = frame.len() as u64;
    weight.checked_add(octets)?.checked_add(COPY_WEIGHT)
}
