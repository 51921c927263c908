//! Runs of a node, and what they say.

use crate::live_clock::moments;
use clnp_program::live_node::{RunStop, run_node};
use frame_links::link_board::Ports;
use frame_links::link_board::base::{MemClock, MemSink, NoMemory, lines};
use scenario::read_for_run;
use std::alloc::Global;
use std::mem::forget;
use std::process::Abort;

/// A sink with room for a journal of some lines.
pub(crate) fn new_sink(alloc: Global) -> Result<MemSink, NoMemory> {
    MemSink::new(alloc, 1_000, 10, Vec::new(alloc))
}

/// Runs the node of a short scenario so many turns over ports.
pub(crate) fn run<B: Ports>(
    rt: &impl Abort,
    text: &[u8],
    turns: u32,
    board: &mut B,
    sink: &mut MemSink,
    alloc: Global,
) -> Result<(), RunStop> {
    assert!(rt; text.len() < 1_000);
    // Its clause: a text has no more lines than octets, so that this one is short.
    let _lines = lines(text);
    let scenario = read_for_run(alloc, text, board.count()).expect(rt, "a scenario");
    let mut clock = MemClock::new(moments(alloc).expect(rt, "memory"));
    let came = run_node(alloc, &scenario, turns, board, &mut clock, sink);
    forget(scenario);
    came
}
