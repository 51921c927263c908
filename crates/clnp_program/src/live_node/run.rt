//! The run of a live node.
ghost use Rattle.std.specs.Prelude.{◌≡◌, ◌≤◌, ◌<◌, ◌^◌, ℕ, [], ◌∷◌, Err, IfErr, IfOk, List, OnErr, OnOk, Option, length};
ghost use Rattle.std.specs.Io.KnownBytes.{Appends};
ghost use Rattle.clnp_machine.specs.ClnpBase.Streams.{AppendsFront, Rose};
ghost use Rattle.clnp_machine.specs.ClnpPlan.Configuration.{SystemConfiguration};
ghost use Rattle.clnp_machine.specs.ClnpPlan.Journal.{end_text};
ghost use Rattle.clnp_systems.specs.Stands as clnp_systems;
ghost use Rattle.frame_links.specs.LinkBoard.Ports.{PortState};
ghost use Rattle.clnp_machine.specs.LiveModel.Course.{first_node};
ghost use Rattle.clnp_machine.specs.LiveModel.Node as model;
ghost use Rattle.clnp_machine.specs.LiveModel.Turn.{Due, dues_from};
ghost use Rattle.clnp_program.specs.LiveNode.Agenda.{dues_of};
ghost use Rattle.clnp_plan.specs.ScenarioPlan.Plan.{IsForBoard};
ghost use Rattle.clnp_program.specs.LiveNode.Clocks.{ClockState, ReadsMoment, clock_of};
ghost use Rattle.clnp_program.specs.LiveNode.Plays.{Stands, attached_of};
ghost use Rattle.clnp_program.specs.LiveNode.Ran.{IsBroken, RanOf, RanTo, StopsIn, broken_by, has_any_attached};

use crate::live_node::agenda::Agenda;
use crate::live_node::node::{LiveNode, Stop};
use clnp_machine::live_model::laws::a_port_is_detached_by_its_failure;
use clnp_machine::system_plan::push_end;
use clnp_plan::scenario_plan::Scenario;
use frame_links::link_board::Ports;
use frame_links::link_board::base::{Clock, NoMemory, Sink, write_all};
use std::alloc::Global;

/// Why a run of a live node stopped before its last turn was over.
#[derive(Clone, Copy, PartialEq, Eq)]
pub enum RunStop {
    /// The sink failed.
    WriteFault,
    /// At the end of a turn no port had its link any more, of so many.
    LinksGone { links: u8 },
    /// Memory was refused.
    NoMemory,
}

/// The octets of the longest frame that a look gives.
const LONGEST_FRAME: usize = 70_000;

/// Runs the system of a scenario over ports with links, so many turns.
///
/// The first moment that the clock gives is the start. The system is quiet from there for as long as identifiers rest. In a
/// turn the clock is read, and its moment comes to the system; then each event is done that is due by then, which is so from the
/// start on once all ticks that stand before it are over; then each port whose link is attached is looked at once, in order, and
/// what came is handed to the system. Each line is written at once, and behind that of a frame this is sent on its port's link.
/// A link that fails is detached. After the last turn the journal's last line is written.
///
/// # Errors
///
/// `WriteFault`, only where the sink's count of faults rose; `LinksGone`, exactly where at the end of a turn no link is attached;
/// `NoMemory`.
pub fn run_node<K: Sink, C: Clock, B: Ports>(
    alloc: Global,
    scenario: &Scenario,
    turns: u32,
    board: &mut B,
    clock: &mut C,
    sink: &mut K,
) -> Result<(), RunStop>
    requires { IsForBoard (length (B.ports board.old)) scenario.now }
    ensures later { (K.faults sink.old ≤ K.faults sink.new) × (C.last clock.old ≤ C.last clock.new) }
    ensures ran { RanOf scenario.now turns (clock_of (C.moments clock.old) (C.last clock.old)) (clock_of (C.moments clock.new) (C.last clock.new)) (B.ports board.old) (B.ports board.new)
        (K.written sink.old) (K.written sink.new) result }
    ensures failed { result ≡ Err RunStop.WriteFault → Rose (K.faults sink.old) (K.faults sink.new) }
{
    // Its clause: what a scenario that was read says is fit to be run.
    scenario.is_fit();
    // Its clauses: where a port is detached, its link failed.
    a_port_is_detached_by_its_failure();
    let start = clock.now();
    let Ok(mut room) = room_for_a_frame(alloc) else {
        return Err(RunStop::NoMemory);
    };
    let Ok(mut live) = open(alloc, scenario, start) else {
        return Err(RunStop::NoMemory);
    };
    run_opened(
        alloc, scenario, start, turns, &mut *live, board, clock, &mut room, sink,
    )
}

/// Runs a node from its start on, and writes the last line.
fn run_opened<K: Sink, C: Clock, B: Ports>(
    alloc: Global,
    scenario: &Scenario,
    start: u64,
    turns: u32,
    live: &mut LiveNode,
    board: &mut B,
    clock: &mut C,
    room: &mut [u8],
    sink: &mut K,
) -> Result<(), RunStop>
    requires moment { (clnp_systems.entity_of live.old.system).moment ≤ C.last clock.old }
    requires board { IsForBoard (length (B.ports board.old)) scenario.now }
    requires room { 70000 ≤ length room.old }
    ensures ran { (system : SystemConfiguration) (first : ClockState) → scenario.now.systems ≡ system ∷ []
        → ReadsMoment first (clock_of (C.moments clock.old) (C.last clock.old)) start
        → Stands live.old (B.ports board.old) (first_node scenario.now.limits system start (attached_of (B.ports board.old)))
        → RanOf scenario.now turns first (clock_of (C.moments clock.new) (C.last clock.new)) (B.ports board.old) (B.ports board.new) (K.written sink.old) (K.written sink.new) result }
    ensures later { (K.faults sink.old ≤ K.faults sink.new) × (C.last clock.old ≤ C.last clock.new) }
    ensures failed { result ≡ Err RunStop.WriteFault → Rose (K.faults sink.old) (K.faults sink.new) }
{
    // Its clauses: where a port is detached, its link failed.
    a_port_is_detached_by_its_failure();
    match run_turns(
        alloc, scenario, start, turns, live, board, clock, room, sink,
    ) {
        Ok(()) => write_end(alloc, live.now, live.copies, sink),
        Err(stop) => Err(stop),
    }
}

/// Room for a frame that is looked at.
fn room_for_a_frame(alloc: Global) -> Result<Vec<u8>, NoMemory>
    ensures { IfOk result (λ room. length room.items ≡ 70000) }
{
    Ok(vec![in alloc; 0u8; LONGEST_FRAME]?)
}

/// The node of the system of a scenario at its start. It is boxed, since it has many parts.
fn open(alloc: Global, scenario: &Scenario, start: u64) -> Result<Box<LiveNode>, NoMemory>
    requires one { length scenario.now.systems ≡ 1 }
    requires early { start < 2 ^ 62 }
    ensures stands { IfOk result (λ live. (system : SystemConfiguration) (ports : List PortState) → scenario.now.systems ≡ system ∷ []
        → Stands live.value ports (first_node scenario.now.limits system start (attached_of ports))) }
    ensures moment { IfOk result (λ live. (clnp_systems.entity_of live.value.system).moment ≡ start) }
{
    // Its clause: the limits are within their ranges, as a system asks at its start.
    scenario.is_fit();
    let live = LiveNode::new(alloc, &scenario.systems()[0], scenario.limits(), start)?;
    Ok(Box::new(alloc, live)?)
}

/// Takes so many turns, from the first of all events on; no more than the one behind which no link is attached.
fn run_turns<K: Sink, C: Clock, B: Ports>(
    alloc: Global,
    scenario: &Scenario,
    start: u64,
    turns: u32,
    live: &mut LiveNode,
    board: &mut B,
    clock: &mut C,
    room: &mut [u8],
    sink: &mut K,
) -> Result<(), RunStop>
    requires moment { (clnp_systems.entity_of live.old.system).moment ≤ C.last clock.old }
    requires board { IsForBoard (length (B.ports board.old)) scenario.now }
    requires room { 70000 ≤ length room.old }
    ensures ran { OnOk result ((node : model.Node) → Stands live.old (B.ports board.old) node
        → (later : List Due) × RanTo (dues_from start scenario.now.events) later node live.new turns (clock_of (C.moments clock.old) (C.last clock.old)) (clock_of (C.moments clock.new) (C.last clock.new))
        (B.ports board.old) (B.ports board.new) (K.written sink.old) (K.written sink.new)) }
    ensures stops { IfErr result (λ stop. (node : model.Node) → Stands live.old (B.ports board.old) node
        → StopsIn stop turns (dues_from start scenario.now.events) node (clock_of (C.moments clock.old) (C.last clock.old)) (clock_of (C.moments clock.new) (C.last clock.new))
        (B.ports board.old) (B.ports board.new) (K.written sink.old) (K.written sink.new)) }
    ensures later { (K.faults sink.old ≤ K.faults sink.new) × (C.last clock.old ≤ C.last clock.new) }
    ensures failed { result ≡ Err RunStop.WriteFault → Rose (K.faults sink.old) (K.faults sink.new) }
{
    let ports = count_ports(scenario, board);
    let mut agenda = Agenda::from(start);
    for made in 0..turns {
        match run_turn(
            alloc,
            scenario,
            ports,
            live,
            &mut agenda,
            board,
            clock,
            room,
            sink,
        ) {
            Ok(()) => {}
            Err(stop) => return Err(stop),
        }
    }
    Ok(())
}

/// Reads the clock and takes a turn, and sees whether any link is attached behind it.
fn run_turn<K: Sink, C: Clock, B: Ports>(
    alloc: Global,
    scenario: &Scenario,
    ports: u8,
    live: &mut LiveNode,
    agenda: &mut Agenda,
    board: &mut B,
    clock: &mut C,
    room: &mut [u8],
    sink: &mut K,
) -> Result<(), RunStop>
    requires moment { (clnp_systems.entity_of live.old.system).moment ≤ C.last clock.old }
    requires room { 70000 ≤ length room.old }
    requires counted { ports ≡ length (B.ports board.old) }
    ensures ran { OnOk result ((node : model.Node) → Stands live.old (B.ports board.old) node
        → RanTo (dues_of agenda.old scenario.now.events) (dues_of agenda.new scenario.now.events) node live.new 1
        (clock_of (C.moments clock.old) (C.last clock.old)) (clock_of (C.moments clock.new) (C.last clock.new))
        (B.ports board.old) (B.ports board.new) (K.written sink.old) (K.written sink.new)) }
    ensures stops { IfErr result (λ stop. (node : model.Node) → Stands live.old (B.ports board.old) node
        → StopsIn stop 1 (dues_of agenda.old scenario.now.events) node (clock_of (C.moments clock.old) (C.last clock.old)) (clock_of (C.moments clock.new) (C.last clock.new))
        (B.ports board.old) (B.ports board.new) (K.written sink.old) (K.written sink.new)) }
    ensures moment { OnOk result ((clnp_systems.entity_of live.new.system).moment ≤ C.last clock.new) }
    ensures ports { length (B.ports board.new) ≡ length (B.ports board.old) }
    ensures room { length room.new ≡ length room.old }
    ensures faults { K.faults sink.old ≤ K.faults sink.new }
    ensures last { C.last clock.old ≤ C.last clock.new }
    ensures failed { result ≡ Err RunStop.WriteFault → Rose (K.faults sink.old) (K.faults sink.new) }
{
    let now = clock.now();
    match live.turn(alloc, scenario, now, ports, agenda, board, room, sink) {
        Ok(()) => {
            if !is_any_attached(board) {
                return Err(RunStop::LinksGone { links: ports });
            }
            Ok(())
        }
        Err(stop) => Err(broken_by(stop)),
    }
}

/// Why a run stops that was broken off in a turn.
fn broken_by(stop: Stop) -> RunStop
    ensures { result ≡ broken_by stop }
{
    match stop {
        Stop::WriteFault => RunStop::WriteFault,
        Stop::NoMemory => RunStop::NoMemory,
    }
}

/// Whether the link of any port is attached.
fn is_any_attached<B: Ports>(board: &B) -> bool
    ensures { result ≡ has_any_attached (B.ports board.now) }
{
    for port in 0..board.count() {
        if board.is_attached(port) {
            return true;
        }
    }
    false
}

/// The number of ports, which are those of the system of a scenario.
fn count_ports<B: Ports>(scenario: &Scenario, board: &B) -> u8
    requires { IsForBoard (length (B.ports board.now)) scenario.now }
    ensures { result ≡ length (B.ports board.now) }
{
    // Its clause: a system has at most 8 ports, so that an octet counts them.
    scenario.is_fit();
    board.count() as u8
}

/// Writes the last line of a journal.
fn write_end<K: Sink>(alloc: Global, now: u64, copies: u64, sink: &mut K) -> Result<(), RunStop>
    ensures written { OnOk result (Appends (K.written sink.old) (K.written sink.new) (end_text now copies)) }
    ensures front { OnErr result (AppendsFront (K.written sink.old) (K.written sink.new) (end_text now copies)) }
    ensures stops { IfErr result (λ stop. IsBroken stop) }
    ensures later { K.faults sink.old ≤ K.faults sink.new }
    ensures failed { result ≡ Err RunStop.WriteFault → Rose (K.faults sink.old) (K.faults sink.new) }
{
    let mut text = Vec::new(alloc);
    if push_end(alloc, now, copies, &mut text).is_err() {
        return Err(RunStop::NoMemory);
    }
    match write_all(sink, &text) {
        Ok(()) => Ok(()),
        Err(_) => Err(RunStop::WriteFault),
    }
}
