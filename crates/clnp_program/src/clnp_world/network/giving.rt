//! Copies that are given to the systems that they are for.
ghost use Rattle.std.specs.Prelude.{◌≡◌, ◌+◌, ◌<◌, ◌≤◌, ◌∷◌, [], IfSome, OnOk, Some, slice_get, vec_len};
ghost use Rattle.clnp_machine.specs.System.{SystemState};
ghost use Rattle.clnp_machine.specs.ClnpNetwork.LabelledNetwork as network;
ghost use Rattle.clnp_machine.specs.ClnpPlan.Journal.{Late, Received, Void};
ghost use Rattle.clnp_program.specs.ClnpWorld.Lines.{Gains};
ghost use Rattle.clnp_program.specs.ClnpWorld.Parts.{Follows, Holds, IsRunning, Shows};
ghost use Rattle.clnp_program.specs.ClnpWorld.Seen.{IsNextAddressee, IsPortFor, place_of};
ghost use Rattle.clnp_machine.specs.Unit.{Maker};

use super::Network;
use super::coming::{empty, names_of_inputs};
use crate::clnp_world::copy::{first_port, is_to_group};
use crate::clnp_world::lines::{Line, LineSink};
use clnp_machine::base::NoMemory;
use clnp_machine::system_plan::Limits;
use clnp_systems::Input;
use std::alloc::Global;

/// A system that a copy is for.
#[derive(Clone, Copy)]
struct Addressee {
    /// Among the declarations.
    place: usize,
    /// The least of its ports by which the copy comes in.
    port: u8,
}

impl Network {
    /// Gives the copy with a number to the system at a place, where it is for it; else a line says that
    /// there is none for it.
    pub(super) fn deliver<L: LineSink>(
        &mut self,
        alloc: Global,
        limits: Limits,
        number: u32,
        place: usize,
        lines: &mut L,
    ) -> Result<(), NoMemory>
        requires { IsRunning self.old }
        ensures { OnOk result ((model : network.LabelledNetwork) → Holds self.old model
            → Follows self.new (L.taken lines.old) (L.taken lines.new) (network.deliver limits model number place)) }
    {
        if place >= self.systems.len() {
            return Ok(());
        }
        // Copies are numbered from 1.
        if number == 0 {
            return self.write_void(alloc, number, place, lines);
        }
        let at = number as usize - 1;
        if at >= self.copies.len() {
            return self.write_void(alloc, number, place, lines);
        }
        match self.port_for(at, place) {
            Some(port) => self.give(alloc, limits, u64::from(number), at, place, port, lines),
            None => self.write_void(alloc, number, place, lines),
        }
    }

    /// Gives the copy at the cursor to each of its addressees.
    pub(super) fn settle_one<L: LineSink>(
        &mut self,
        alloc: Global,
        limits: Limits,
        lines: &mut L,
    ) -> Result<(), NoMemory>
        requires { IsRunning self.old }
        ensures { OnOk result ((model : network.LabelledNetwork) → Holds self.old model
            → Follows self.new (L.taken lines.old) (L.taken lines.new) (network.settle_one limits model)) }
    {
        let at = self.cursor;
        if at >= self.copies.len() {
            return Ok(());
        }
        self.cursor = at + 1;
        self.give_each(alloc, limits, at, lines)
    }

    /// Gives a copy to each of its addressees, in the order of the declarations; where it has none, a line says so.
    fn give_each<L: LineSink>(
        &mut self,
        alloc: Global,
        limits: Limits,
        at: usize,
        lines: &mut L,
    ) -> Result<(), NoMemory>
        requires at_in { at < vec_len self.old.copies }
        requires running { IsRunning self.old }
        ensures { OnOk result ((model : network.LabelledNetwork) (copy : network.Copy) → Holds self.old model
            → slice_get model.copies at ≡ Some copy
            → Follows self.new (L.taken lines.old) (L.taken lines.new)
            (network.settle_for limits (record { number = at + 1; copy = copy }) model (network.addressees_from 0 copy model.systems))) }
    {
        let number = at as u64 + 1;
        let mut from = 0;
        let mut given = false;
        while let Some(next) = self.next_addressee(at, from) {
            self.give(alloc, limits, number, at, next.place, next.port, lines)?;
            from = next.place + 1;
            given = true;
        }
        if given {
            return Ok(());
        }
        let line = Line::ForNobody {
            now: self.clock,
            copy: number,
        };
        lines.take(alloc, &line)
    }

    /// The next system that a copy is for, from a place on in the order of the declarations, and the least of its ports
    /// by which the copy comes in. Nothing changes while it is looked for, so the copy is read once for all of them.
    #[inline(always)]
    fn next_addressee(&self, at: usize, from: usize) -> Option<Addressee>
        requires at_in { at < vec_len self.now.copies }
        ensures next { (model : network.LabelledNetwork) (copy : network.Copy) → Shows self.now model
            → slice_get model.copies at ≡ Some copy → IsNextAddressee copy model.systems from result }
        ensures within { IfSome result (λ next. (from ≤ next.place) × (next.place < vec_len self.now.systems)) }
    {
        for place in from..self.systems.len() {
            if let Some(port) = self.port_for(at, place) {
                return Some(Addressee { place, port });
            }
        }
        None
    }

    /// The least of the ports of the system at a place by which a copy comes in, if it is for that system as it now is.
    #[inline(always)]
    fn port_for(&self, at: usize, place: usize) -> Option<u8>
        requires at_in { at < vec_len self.now.copies }
        requires place_in { place < vec_len self.now.systems }
        ensures { (model : network.LabelledNetwork) (copy : network.Copy) (system : SystemState) → Shows self.now model
            → slice_get model.copies at ≡ Some copy → slice_get model.systems place ≡ Some system
            → IsPortFor copy system result }
    {
        let role = self.config_at(place).role();
        first_port(&self.copies[at], role, self.ports_at(place))
    }

    /// Gives a copy to the system at a place by a port, and a line tells by which; where the copy is late, a line tells that
    /// instead.
    fn give<L: LineSink>(
        &mut self,
        alloc: Global,
        limits: Limits,
        number: u64,
        at: usize,
        place: usize,
        port: u8,
        lines: &mut L,
    ) -> Result<(), NoMemory>
        requires at_in { at < vec_len self.old.copies }
        requires place_in { place < vec_len self.old.systems }
        requires running { IsRunning self.old }
        ensures follows { OnOk result ((model : network.LabelledNetwork) (copy : network.Copy) (system : SystemState) → Holds self.old model
            → slice_get model.copies at ≡ Some copy → slice_get model.systems place ≡ Some system
            → port ≡ network.first_port copy system.configuration.role system.attached.ports
            → Follows self.new (L.taken lines.old) (L.taken lines.new) (network.give limits (record { number = number; copy = copy }) model place)) }
        ensures systems { vec_len self.new.systems ≡ vec_len self.old.systems }
        ensures copies { vec_len self.old.copies ≤ vec_len self.new.copies }
    {
        if self.is_late(limits, at) {
            return self.write_late(alloc, number, place, lines);
        }
        names_of_inputs(None, None);
        self.write_receipt(alloc, number, port, place, lines)?;
        // Its clause: what isn't forwarded is of a unit that the system itself made.
        clnp_machine::laws::first_transmissions_are_its_own();
        let copy = &self.copies[at];
        let origin = copy.origin;
        let from = copy.sender;
        let group = is_to_group(copy);
        // As what else comes (`comes`), but the frame is lent where it stands among the copies.
        empty(&mut self.outputs);
        let input = Input::Frame {
            port,
            from,
            group,
            frame: &copy.frame,
        };
        self.systems[place].step(alloc, &input, &mut self.outputs)?;
        self.put_all_out(alloc, place, origin, lines)
    }

    /// Whether a copy is older, by its maker's clock, than one may be that is given.
    fn is_late(&self, limits: Limits, at: usize) -> bool
        requires { at < vec_len self.now.copies }
        ensures { (model : network.LabelledNetwork) (copy : network.Copy) → Shows self.now model
            → slice_get model.copies at ≡ Some copy
            → result ≡ network.is_late limits model copy }
    {
        let origin = self.copies[at].origin;
        self.clock_of(origin.maker).saturating_sub(origin.birth) > u64::from(limits.age)
    }

    /// The clock by which what somebody made grows old: its maker's, and the network's for what came from outside.
    fn clock_of(&self, maker: Option<usize>) -> u64
        ensures { (model : network.LabelledNetwork) (by : Maker) → Shows self.now model → maker ≡ place_of by
            → result ≡ network.clock_of model by }
    {
        let Some(place) = maker else {
            return self.clock;
        };
        if place >= self.systems.len() {
            return self.clock;
        }
        self.moment_at(place)
    }

    /// The line of a copy that comes to the system at a place on a port.
    fn write_receipt<L: LineSink>(
        &self,
        alloc: Global,
        number: u64,
        port: u8,
        place: usize,
        lines: &mut L,
    ) -> Result<(), NoMemory>
        requires { place < vec_len self.now.systems }
        ensures { OnOk result ((model : network.LabelledNetwork) (system : SystemState) → Shows self.now model
            → slice_get model.systems place ≡ Some system
            → Gains (L.taken lines.old) (L.taken lines.new) (Received system.moment system.configuration.name number port ∷ [])) }
    {
        let line = Line::Received {
            now: self.moment_at(place),
            name: self.config_at(place).name(),
            copy: number,
            port,
        };
        lines.take(alloc, &line)
    }

    /// The line of a copy that isn't there for the system at a place.
    fn write_void<L: LineSink>(
        &self,
        alloc: Global,
        number: u32,
        place: usize,
        lines: &mut L,
    ) -> Result<(), NoMemory>
        requires { place < vec_len self.now.systems }
        ensures { OnOk result ((model : network.LabelledNetwork) (system : SystemState) → Shows self.now model
            → slice_get model.systems place ≡ Some system
            → Gains (L.taken lines.old) (L.taken lines.new) (Void system.moment system.configuration.name number ∷ [])) }
    {
        let line = Line::Void {
            now: self.moment_at(place),
            name: self.config_at(place).name(),
            copy: number,
        };
        lines.take(alloc, &line)
    }

    /// The line of a copy that is too old for the system at a place.
    fn write_late<L: LineSink>(
        &self,
        alloc: Global,
        number: u64,
        place: usize,
        lines: &mut L,
    ) -> Result<(), NoMemory>
        requires { place < vec_len self.now.systems }
        ensures { OnOk result ((model : network.LabelledNetwork) (system : SystemState) → Shows self.now model
            → slice_get model.systems place ≡ Some system
            → Gains (L.taken lines.old) (L.taken lines.new) (Late system.moment system.configuration.name number ∷ [])) }
    {
        let line = Line::Late {
            now: self.moment_at(place),
            name: self.config_at(place).name(),
            copy: number,
        };
        lines.take(alloc, &line)
    }
}
