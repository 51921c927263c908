//! The reader of scenario texts.
ghost use Rattle.std.specs.Prelude.{◌≡◌, ◌+◌, ◌-◌, ◌^◌, ◌≤◌, ◌<◌, true, map, length, IfOk, Ok, Err, MatchResult};
ghost use Rattle.std.specs.List.{AllByRecursion};
ghost use Rattle.clnp_plan.specs.ClnpBase.Text.{lines_of, words_of};
ghost use Rattle.clnp_plan.specs.Configuration.{IsSystem};
ghost use Rattle.scenario.specs.Declarations.{declaration_line, all_declared, configuration_of};
ghost use Rattle.scenario.specs.Events.{scene_of, first_scene, counted, are_few, nothing_counted};
ghost use Rattle.scenario.specs.Grammar.{at_line, version_of, header_from, declarations_from, nothing_after, counted_event, live_event, event_for, events_from, fit_for, plan_at, plan_of, plan_of_version_1, run_plan_of};
ghost use Rattle.scenario.specs.Codes.{number_of};
ghost use Rattle.scenario.specs.declared.fault.ScenarioRefusal.TheVariants.{BadLine};
ghost use Rattle.scenario.specs.Refusal.{Refuses};
ghost use Rattle.clnp_plan.specs.ScenarioPlan.Plan.{IsForBoard};

use crate::change_line::Settled;
use crate::code::Code;
use crate::counts::Counts;
use crate::declarations::Declared;
use crate::event_line::{event_line, is_live_line};
use crate::fault::{LineFault, ScenarioRefusal};
use crate::laws;
use crate::standing::Standing;
use crate::system::System;
use crate::word::is_line_of;
use clnp_plan::SystemConfig;
use clnp_plan::base::{DigitValues, is_skipped, next_line, same};
use clnp_plan::scenario_plan::{Event, Scenario, Subnet};
use std::alloc::{AllocError, Global};

/// A line that breaks the grammar, by its number and the code's.
fn bad_line(line: u32, code: Code) -> ScenarioRefusal
    ensures { result ≡ BadLine line (number_of code) }
{
    ScenarioRefusal::BadLine {
        line,
        code: code.number(),
    }
}

/// The newest version of scenario texts.
const NEWEST_VERSION: u8 = 2;

/// The version that a header says, of those up to the newest.
fn version_of(newest: u8, line: &[u8]) -> Option<u8>
    ensures { result ≡ version_of newest line.now }
{
    if same(line, b"clnp-sim 1") {
        return Some(1);
    }
    if same(line, b"clnp-sim 2") && 2 <= newest {
        return Some(2);
    }
    None
}

/// The version that the header says, the number of the line behind it, and the text from there on.
fn header(newest: u8, text: &[u8]) -> Result<(u8, u32, &[u8]), ScenarioRefusal>
    requires { 1 + length (lines_of text.now) < 2 ^ 32 }
    ensures header { let reading = header_from newest 1 (lines_of text.now) in
        MatchResult result (λ r. reading ≡ Ok (record { value = r.0; number = r.1; lines = lines_of r.2.now }))
        (λ refusal. Refuses refusal reading) }
    ensures few { IfOk result (λ r. r.1 + length (lines_of r.2.now) < 2 ^ 32) }
{
    let mut number: u32 = 1;
    let mut left = text;
    while let Some((line, rest)) = next_line(left) {
        if !is_skipped(line) {
            if let Some(version) = version_of(newest, line) {
                return Ok((version, number + 1, rest));
            }
            return Err(bad_line(number, Code::Header));
        }
        number += 1;
        left = rest;
    }
    Err(bad_line(number, Code::Header))
}

/// What the line of this number declares.
fn declare_at(
    alloc: Global,
    declared: &mut Declared,
    number: u32,
    line: &[u8],
) -> Result<(), ScenarioRefusal>
    ensures { let reading = at_line number (declaration_line declared.old (words_of line.now)) in
        MatchResult result (λ _. reading ≡ Ok declared.new) (λ refusal. Refuses refusal reading) }
{
    match declared.declare(alloc, line) {
        Ok(()) => Ok(()),
        Err(LineFault::NoMemory) => Err(ScenarioRefusal::NoMemory),
        Err(LineFault::Broken(code)) => Err(bad_line(number, code)),
    }
}

/// All is there that must be, at the line `events` of this number.
fn complete_at(declared: &Declared, number: u32) -> Result<(), ScenarioRefusal>
    ensures { let reading = at_line number (all_declared declared.now) in
        MatchResult result (λ _. reading ≡ Ok tt) (λ refusal. Refuses refusal reading) }
{
    if !declared.has_limits() {
        return Err(bad_line(number, Code::Syntax));
    }
    if !declared.is_complete() {
        return Err(bad_line(number, Code::Count));
    }
    Ok(())
}

/// What the lines from this number on declare, up to `events`: the number of the line behind it,
/// and the text from there on.
fn declarations<'a>(
    alloc: Global,
    declared: &mut Declared,
    number: u32,
    text: &'a [u8],
) -> Result<(u32, &'a [u8]), ScenarioRefusal>
    requires { number + length (lines_of text.now) < 2 ^ 32 }
    ensures declarations { let reading = declarations_from number declared.old (lines_of text.now) in
        MatchResult result
        (λ r. reading ≡ Ok (record { value = declared.new; number = r.0; lines = lines_of r.1.now }))
        (λ refusal. Refuses refusal reading) }
    ensures few { IfOk result (λ r. r.0 + length (lines_of r.1.now) < 2 ^ 32) }
    ensures behind { IfOk result (λ r. 1 ≤ r.0) }
{
    let mut number = number;
    let mut left = text;
    while let Some((line, rest)) = next_line(left) {
        let at = number;
        number += 1;
        left = rest;
        if is_skipped(line) {
            continue;
        }
        if is_line_of(b"events", line) {
            complete_at(declared, at)?;
            return Ok((number, rest));
        }
        declare_at(alloc, declared, at, line)?;
    }
    Err(bad_line(number, Code::Syntax))
}

/// No line but skipped ones comes after `end`.
fn nothing_after(number: u32, text: &[u8]) -> Result<(), ScenarioRefusal>
    requires { number + length (lines_of text.now) < 2 ^ 32 }
    ensures { let reading = nothing_after number (lines_of text.now) in
        MatchResult result (λ _. reading ≡ Ok tt) (λ refusal. Refuses refusal reading) }
{
    let mut number = number;
    let mut left = text;
    while let Some((line, behind)) = next_line(left) {
        if !is_skipped(line) {
            return Err(bad_line(number, Code::Syntax));
        }
        number += 1;
        left = behind;
    }
    Ok(())
}

/// The event of the line of this number, counted with the events before it.
#[tactic(auto, unfolding(crate::specs::Grammar::counted_event))]
fn counted_event(
    alloc: Global,
    settled: Settled<'_>,
    standing: &Standing,
    number: u32,
    counts: Counts,
    line: &[u8],
) -> Result<Event, ScenarioRefusal>
    requires few { are_few counts ≡ true }
    requires subnets { length settled.subnets.now ≤ 64 }
    requires systems { length settled.systems.now ≤ 64 }
    ensures event { let reading = at_line number (counted_event
        (scene_of settled.entry.version settled.entry.subnets.now settled.entry.systems.now standing.now)
        counts (words_of line.now)) in
        MatchResult result (λ event. reading ≡ Ok event) (λ refusal. Refuses refusal reading) }
    ensures few { IfOk result (λ event. are_few (counted counts event) ≡ true) }
{
    let event = match event_line(alloc, settled, standing, line) {
        Ok(event) => event,
        Err(LineFault::NoMemory) => return Err(ScenarioRefusal::NoMemory),
        Err(LineFault::Broken(code)) => return Err(bad_line(number, code)),
    };
    if !counts.with(&event).are_few() {
        return Err(bad_line(number, Code::Count));
    }
    Ok(event)
}

/// The event of the line of this number for a live node, which takes some alone.
#[tactic(auto, unfolding(crate::specs::Grammar::live_event))]
fn live_event(
    alloc: Global,
    settled: Settled<'_>,
    standing: &Standing,
    number: u32,
    counts: Counts,
    line: &[u8],
) -> Result<Event, ScenarioRefusal>
    requires few { are_few counts ≡ true }
    requires subnets { length settled.subnets.now ≤ 64 }
    requires systems { length settled.systems.now ≤ 64 }
    ensures event { let reading = at_line number (live_event
        (scene_of settled.entry.version settled.entry.subnets.now settled.entry.systems.now standing.now)
        counts (words_of line.now)) in
        MatchResult result (λ event. reading ≡ Ok event) (λ refusal. Refuses refusal reading) }
    ensures few { IfOk result (λ event. are_few (counted counts event) ≡ true) }
{
    if !is_live_line(line) {
        return Err(bad_line(number, Code::Syntax));
    }
    counted_event(alloc, settled, standing, number, counts, line)
}

/// The event of the line of this number: for a live node on a board of so many links, where there is one.
fn event_for(
    alloc: Global,
    links: Option<usize>,
    settled: Settled<'_>,
    standing: &Standing,
    number: u32,
    counts: Counts,
    line: &[u8],
) -> Result<Event, ScenarioRefusal>
    requires few { are_few counts ≡ true }
    requires subnets { length settled.subnets.now ≤ 64 }
    requires systems { length settled.systems.now ≤ 64 }
    ensures event { let reading = at_line number (event_for links
        (scene_of settled.entry.version settled.entry.subnets.now settled.entry.systems.now standing.now)
        counts (words_of line.now)) in
        MatchResult result (λ event. reading ≡ Ok event) (λ refusal. Refuses refusal reading) }
    ensures few { IfOk result (λ event. are_few (counted counts event) ≡ true) }
{
    match links {
        None => counted_event(alloc, settled, standing, number, counts, line),
        Some(_) => live_event(alloc, settled, standing, number, counts, line),
    }
}

/// The events of the lines from this number on, and `end`.
fn events_of(
    alloc: Global,
    links: Option<usize>,
    version: u8,
    skew: u16,
    subnets: &[Subnet],
    systems: &[SystemConfig],
    number: u32,
    text: &[u8],
) -> Result<Vec<Event>, ScenarioRefusal>
    requires few { number + length (lines_of text.now) < 2 ^ 32 }
    requires subnets { length subnets.now ≤ 64 }
    requires systems { length systems.now ≤ 64 }
    ensures { let reading = events_from (event_for links)
        (first_scene version skew subnets.now systems.now) number nothing_counted (lines_of text.now) in
        MatchResult result (λ events. reading ≡ Ok events.items) (λ refusal. Refuses refusal reading) }
{
    let mut events = Vec::new(alloc);
    let mut number = number;
    let mut counts = Counts::nothing();
    let values = DigitValues::new();
    let mut standing = Standing::of(alloc, skew, systems)?;
    let mut left = text;
    while let Some((line, rest)) = next_line(left) {
        let at = number;
        number += 1;
        left = rest;
        if is_skipped(line) {
            continue;
        }
        if is_line_of(b"end", line) {
            nothing_after(number, rest)?;
            return Ok(events);
        }
        let settled = Settled {
            version,
            subnets,
            systems,
            values: &values,
        };
        let event = event_for(alloc, links, settled, &standing, at, counts, line)?;
        counts = counts.with(&event);
        standing.go_on(&event)?;
        events.push(event)?;
    }
    Err(bad_line(number, Code::Syntax))
}

/// The systems as they are declared.
fn systems_of(alloc: Global, systems: Vec<System>) -> Result<Vec<SystemConfig>, AllocError>
    requires { AllByRecursion IsSystem (map configuration_of systems.items) }
    ensures { IfOk result (λ configs. configs.items ≡ map configuration_of systems.items) }
{
    let mut configs = Vec::new(alloc);
    for system in systems {
        configs.push(system.into_config(alloc)?)?;
    }
    Ok(configs)
}

/// What a scenario text says: its version, its subnetworks, its systems and its events.
///
/// # Errors
///
/// `BadLine` with the first line that breaks the grammar, from 1, and the code of what it breaks;
/// `NoMemory` where memory is refused.
pub fn read(alloc: Global, text: &[u8]) -> Result<Scenario, ScenarioRefusal>
    requires { length (lines_of text.now) < 2 ^ 32 - 1 }
    ensures { MatchResult result (λ scenario. plan_of text.now ≡ Ok scenario)
        (λ refusal. Refuses refusal (plan_of text.now)) }
{
    read_as(alloc, None, NEWEST_VERSION, text)
}

/// What a scenario text of version 1 says. That of another version has a bad header.
///
/// # Errors
///
/// As `read`.
pub fn read_version_1(alloc: Global, text: &[u8]) -> Result<Scenario, ScenarioRefusal>
    requires { length (lines_of text.now) < 2 ^ 32 - 1 }
    ensures says { MatchResult result (λ scenario. plan_of_version_1 text.now ≡ Ok scenario)
        (λ refusal. Refuses refusal (plan_of_version_1 text.now)) }
    ensures version { IfOk result (λ scenario. scenario.version ≡ 1) }
{
    // Its clause: a scenario that is accepted where version 1 alone is read is one of version 1.
    laws::version_1_is_read_alike();
    read_as(alloc, None, 1, text)
}

/// What a scenario text says for a live node on a board of so many links: what `read` gives, where one system is
/// declared alone, with a port for each link, and the events are `send`, `echo` and `tick` alone.
///
/// # Errors
///
/// As `read`. `BadLine` comes besides with the line `events` and the code of a count, where as many systems or ports
/// are not declared and nothing else is wrong there; and with the line of another event and the code of an unknown
/// word.
pub fn read_for_run(alloc: Global, text: &[u8], links: usize) -> Result<Scenario, ScenarioRefusal>
    requires { length (lines_of text.now) < 2 ^ 32 - 1 }
    ensures says { MatchResult result (λ scenario. run_plan_of links text.now ≡ Ok scenario)
        (λ refusal. Refuses refusal (run_plan_of links text.now)) }
    ensures alike { IfOk result (λ scenario. plan_of text.now ≡ Ok scenario) }
    ensures fits { IfOk result (λ scenario. IsForBoard links scenario) }
{
    // Its clause: what is accepted for a board is accepted anyhow, and fits that board.
    laws::accepted_for_run();
    read_as(alloc, Some(links), NEWEST_VERSION, text)
}

/// What is declared up to the line `events` of this number fits the board of so many links, where there is one.
fn fits_at(links: Option<usize>, number: u32, declared: &Declared) -> Result<(), ScenarioRefusal>
    ensures { let reading = fit_for links number declared.now in
        MatchResult result (λ _. reading ≡ Ok tt) (λ refusal. Refuses refusal reading) }
{
    let Some(links) = links else {
        return Ok(());
    };
    if !declared.fits_board(links) {
        return Err(bad_line(number, Code::Count));
    }
    Ok(())
}

/// What a scenario text of a version up to the newest says: for a live node on a board of so many links, where there is
/// one.
#[tactic(auto, unfolding(crate::specs::Grammar::plan_at))]
fn read_as(
    alloc: Global,
    links: Option<usize>,
    newest: u8,
    text: &[u8],
) -> Result<Scenario, ScenarioRefusal>
    requires { length (lines_of text.now) < 2 ^ 32 - 1 }
    ensures { let reading = plan_at links newest (lines_of text.now) in
        MatchResult result (λ scenario. reading ≡ Ok scenario) (λ refusal. Refuses refusal reading) }
{
    // Its clause: what the grammar accepts is fit, as a `Scenario` has to be.
    laws::each_version_is_fit();
    let (version, number, text) = header(newest, text)?;
    let mut declared = Declared::new(alloc, version);
    let (number, text) = declarations(alloc, &mut declared, number, text)?;
    fits_at(links, number - 1, &declared)?;
    let limits = declared.limits();
    let (subnets, systems) = declared.into_parts();
    let systems = systems_of(alloc, systems)?;
    let events = events_of(
        alloc,
        links,
        version,
        limits.skew,
        subnets.as_slice(),
        systems.as_slice(),
        number,
        text,
    )?;
    Ok(Scenario::new(version, limits, subnets, systems, events))
}
