use crate::seeing::see;
use clnp_program::{Status, end, run};
use frame_links::link_board::Board;
use frame_links::link_board::base::{MemClock, MemSink, MemSource};
use std::alloc::Global;
use std::mem::forget;
use std::process::Abort;

/// What standard error gets behind bad words.
const BAD_WORDS: &str =
    "clnp: bad words at 2\nclnp: wanted: sim, trace, show, check, pack, pcap-show, pcap-make, pcap-lines, reassemble, migrate, storm, or run; clnp --help tells of each\n";

const BAD_INPUT: &str = "clnp: bad input at line 2: limits\n";

const WORLD_FULL: &str = "clnp: world full at 268481756 octets\n";

const LINKS_GONE: &str = "clnp: all 2 links gone\n";

/// A sink that takes all, but fails at the call of this number, from 1.
fn sink_of(rt: &impl Abort, alloc: Global, fails: u64) -> MemSink {
    let fails = Vec::from_slice(alloc, &[fails]).expect(rt, "memory");
    MemSink::new(alloc, 4096, 4096, fails).expect(rt, "memory")
}

/// Sees with which number a call ends that has a status, and what it says on standard error.
fn see_end(rt: &impl Abort, alloc: Global, status: Status, number: u8, said: &str) {
    let mut errors = sink_of(rt, alloc, 0);
    let ended = end(status, &mut errors);
    see(rt, ended == number, "the number");
    see(rt, errors.as_bytes() == said.as_bytes(), "what it says");
    forget(errors);
}

#[test]
fn says_each_fault(rt: HostRuntime) {
    let alloc = rt.alloc();
    let full = 268_481_756;
    see_end(&rt, alloc, Status::Done, 0, "");
    see_end(&rt, alloc, Status::BadWords { at: 2 }, 1, BAD_WORDS);
    see_end(&rt, alloc, Status::TooLong, 2, "clnp: input too long\n");
    see_end(
        &rt,
        alloc,
        Status::BadInput { line: 2, code: 8 },
        3,
        BAD_INPUT,
    );
    see_end(
        &rt,
        alloc,
        Status::WorldFull { octets: full },
        4,
        WORLD_FULL,
    );
    see_end(&rt, alloc, Status::ReadFault, 5, "clnp: read fault\n");
    see_end(&rt, alloc, Status::WriteFault, 6, "clnp: write fault\n");
    see_end(&rt, alloc, Status::LinksGone { links: 2 }, 7, LINKS_GONE);
    see_end(&rt, alloc, Status::NoMemory, 8, "clnp: no memory\n");
}

/// The word `show`.
fn show(rt: &impl Abort, alloc: Global) -> Vec<String> {
    let mut words = Vec::new(alloc);
    let word = String::from_str(alloc, "show").expect(rt, "memory");
    words.push(word).expect(rt, "memory");
    words
}

/// A source of a frame, which fails at the call of this number.
fn source_of(rt: &impl Abort, alloc: Global, fails: u64) -> MemSource {
    let octets = Vec::from_slice(alloc, b"81\n").expect(rt, "memory");
    let fails = Vec::from_slice(alloc, &[fails]).expect(rt, "memory");
    MemSource::new(octets, 4096, fails)
}

/// The number with which a call of `show` ends over these objects and no links.
fn run_show(
    rt: &impl Abort,
    alloc: Global,
    source: &mut MemSource,
    sink: &mut MemSink,
    errors: &mut MemSink,
) -> u8 {
    let words = show(rt, alloc);
    let mut board = Board::new(alloc, Vec::new(alloc)).expect(rt, "memory");
    let mut clock = MemClock::new(Vec::from_slice(alloc, &[0]).expect(rt, "memory"));
    let ended = run(
        alloc,
        words.as_slice(),
        source,
        sink,
        &mut board,
        &mut clock,
        errors,
    );
    forget(clock);
    forget(board);
    forget(words);
    ended
}

/// Sees a call of `show` on a frame, whose source and sink fail at the calls of these numbers.
fn see_show(rt: &impl Abort, alloc: Global, fails: (u64, u64), number: u8, said: &str) {
    let mut source = source_of(rt, alloc, fails.0);
    let mut sink = sink_of(rt, alloc, fails.1);
    let mut errors = sink_of(rt, alloc, 0);
    let ended = run_show(rt, alloc, &mut source, &mut sink, &mut errors);
    see(rt, ended == number, "the number");
    see(rt, errors.as_bytes() == said.as_bytes(), "what it says");
    forget(errors);
    forget(sink);
    forget(source);
}

#[test]
fn tells_which_stream_failed(rt: HostRuntime) {
    let alloc = rt.alloc();
    see_show(&rt, alloc, (0, 0), 0, "");
    see_show(&rt, alloc, (1, 0), 5, "clnp: read fault\n");
    see_show(&rt, alloc, (2, 0), 5, "clnp: read fault\n");
    see_show(&rt, alloc, (0, 1), 6, "clnp: write fault\n");
}
