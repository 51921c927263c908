//! Calls of the program that run one system over links in memory: what is written, what is said, and the exit number. A
//! frame for the system comes from 01; all of these texts are those of one system alone, or of none.
ghost use Rattle.std.specs.Prelude.{◌≡◌, ◌<◌, ◌^◌, None};

use crate::live_noting::link_of;
use crate::seeing::see;
use clnp_program::run;
use frame_links::link_board::base::{Clock, MemSink, MemSource, NoMemory};
use frame_links::link_board::{Board, Link};
use std::alloc::Global;
use std::mem::forget;
use std::process::Abort;

/// A link: the numbers of its calls that fail, and the frames that come on it.
type LinkCase = (&'static [u64], &'static [&'static [u8]]);

/// A call of the program, and what it must come to.
struct Case {
    name: &'static str,
    /// The number of turns.
    turns: &'static str,
    /// The moments that the clock gives, the last of them for ever; 0 where there is none.
    moments: &'static [u64],
    /// The scenario.
    text: &'static [u8],
    links: &'static [LinkCase],
    /// The exit number.
    number: u8,
    output: &'static [u8],
    said: &'static [u8],
}

/// A router between two subnetworks, with a route into each.
const ROUTER: &[u8] = b"\
clnp-sim 1
subnet one 1500
subnet two 1500
system r router hello=0
address r 470027ff
port r 0 one 0a
port r 1 two 0b
route r 47002701 1 02 47002701
route r 47002702 0 01 47002702
events
end
";

/// A data unit of the octets 68 69, with the lifetime 10 and its checksum, from 47002702 to 47002701.
const UNIT: &[u8] =
    b"\x81\x13\x01\x0a\x3c\x00\x15\xce\x58\x04\x47\x00\x27\x01\x04\x47\x00\x27\x02hi";

/// A link on which nothing comes, and that never fails.
const QUIET: LinkCase = (&[], &[]);

/// One that fails at once.
const GONE: LinkCase = (&[1], &[]);

const CASES: [Case; 9] = [
    Case {
        name: "a router passes a unit on and loses a link",
        turns: "2",
        moments: &[],
        text: ROUTER,
        links: &[(&[], &[UNIT]), GONE],
        number: 0,
        output: b"\
0 r tx 1 1 02 811301093c0015d354044700270104470027026869
0 r link 1 gone
end 0 1
",
        said: b"",
    },
    Case {
        name: "all links are gone",
        turns: "2",
        moments: &[],
        text: ROUTER,
        links: &[GONE, GONE],
        number: 7,
        output: b"0 r link 0 gone\n0 r link 1 gone\n",
        said: b"clnp: all 2 links gone\n",
    },
    Case {
        name: "the start is quiet",
        turns: "2",
        moments: &[0, 0, 320],
        text: b"\
clnp-sim 1
subnet lan 1500
system a host hello=0
address a 47002702
port a 0 lan 01
events
send a 47002702 47002701 hex:6869
tick 320
send a 47002702 47002701 hex:6869
end
",
        links: &[QUIET],
        number: 0,
        output: b"\
0 a refused quiet 320
320 a sent dt 1 0000 47002702 47002701 2
320 a tx 1 0 es 81190140bc001b39100447002701044700270200000000001b6869
end 320 1
",
        said: b"",
    },
    Case {
        name: "no link for a port",
        turns: "1",
        moments: &[],
        text: b"\
clnp-sim 1
subnet lan 1500
system a host hello=0
address a 47002702
port a 0 lan 01
events
end
",
        links: &[],
        number: 3,
        output: b"",
        said: b"\
clnp: bad input at line 6: count
clnp: the number of ports of a is 1; wanted: 0, one for each link
",
    },
    Case {
        name: "no system is no node",
        turns: "1",
        moments: &[],
        text: b"\
clnp-sim 1
subnet lan 1500
events
end
",
        links: &[],
        number: 3,
        output: b"",
        said: b"\
clnp: bad input at line 3: count
clnp: the number of systems is 0; wanted: 1, which is the node
",
    },
    Case {
        name: "a unit is handed up",
        turns: "1",
        moments: &[],
        text: b"\
clnp-sim 1
subnet lan 1500
system b host hello=0
address b 47002701
port b 0 lan 02
events
end
",
        links: &[(&[], &[UNIT])],
        number: 0,
        output: b"\
0 b got 47002702 47002701 6869
end 0 0
",
        said: b"",
    },
    Case {
        name: "an event is done once in its turn",
        turns: "4",
        moments: &[0, 0, 1, 3, 3],
        text: b"\
clnp-sim 1
subnet lan 1500
system a host hello=0
address a 47002702
port a 0 lan 01
events
tick 2
send a 47002702 47002701 hex:6869 life=10 whole
end
",
        links: &[QUIET],
        number: 0,
        output: b"\
3 a sent dt 1 - 47002702 47002701 2
3 a tx 1 0 es 8113010a3c0015ce58044700270104470027026869
end 3 1
",
        said: b"",
    },
    Case {
        name: "a frame for a detached port is written alone",
        turns: "2",
        moments: &[0, 0, 1],
        text: ROUTER,
        links: &[(&[], &[UNIT, UNIT]), GONE],
        number: 0,
        output: b"\
0 r tx 1 1 02 811301093c0015d354044700270104470027026869
0 r link 1 gone
1 r tx 2 1 02 811301093c0015d354044700270104470027026869
end 1 2
",
        said: b"",
    },
    Case {
        name: "a text of version 2 is run",
        turns: "1",
        moments: &[],
        text: b"\
clnp-sim 2
limits 256 60 320 0
subnet one 1500
subnet two 1500
system r router hello=0
address r 470027ff
port r 0 one 0a
port r 1 two 0b
route r 47002701 1 02 47002701
route r 47002702 0 01 47002702
events
tick 1
end
",
        links: &[(&[], &[UNIT]), QUIET],
        number: 0,
        output: b"\
0 r tx 1 1 02 811301093c0015d354044700270104470027026869
end 0 1
",
        said: b"",
    },
];

/// The latest moment of a clock.
const LATEST: u64 = (1 << 62) - 1;

/// A clock that gives some moments, and then the last of them for ever. It never goes back, and tells nothing of the moments
/// that it will give.
#[derive(Drop)]
struct CaseClock {
    moments: Vec<u64>,
    at: usize,
    last: u64,
    ghost early: { last < 2 ^ 62 },
}

impl Clock for CaseClock {
    ghost moments = { λ _. None };

    ghost last = { λ c. c.last };

    fn now(&mut self) -> u64 {
        if let Some(moment) = self.moments.get(self.at) {
            self.last = self.last.max((*moment).min(LATEST));
            self.at += 1;
        }
        self.last
    }
}

/// The words of a run of so many turns.
fn words_of(rt: &impl Abort, alloc: Global, turns: &str) -> Vec<String> {
    let mut words = Vec::new(alloc);
    for word in ["run", "--turns", turns] {
        let word = String::from_str(alloc, word).expect(rt, "memory");
        words.push(word).expect(rt, "memory");
    }
    words
}

/// A board of these links.
fn board_of(alloc: Global, cases: &[LinkCase]) -> Result<Board, NoMemory> {
    let mut links: Vec<Box<dyn Link>> = Vec::new(alloc);
    for (fails, frames) in cases {
        let link = link_of(alloc, frames, fails)?;
        links.push(Box::new(alloc, link)?)?;
    }
    Board::new(alloc, links)
}

/// A sink that never fails.
fn sink_of(rt: &impl Abort, alloc: Global) -> MemSink {
    MemSink::new(alloc, 4096, 4096, Vec::new(alloc)).expect(rt, "memory")
}

/// Sees what a call comes to.
fn see_case(rt: &impl Abort, alloc: Global, case: &Case) {
    let words = words_of(rt, alloc, case.turns);
    let text = Vec::from_slice(alloc, case.text).expect(rt, "memory");
    let moments = Vec::from_slice(alloc, case.moments).expect(rt, "memory");
    let mut source = MemSource::new(text, 4096, Vec::new(alloc));
    let mut sink = sink_of(rt, alloc);
    let mut errors = sink_of(rt, alloc);
    let mut board = board_of(alloc, case.links).expect(rt, "memory");
    let mut clock = CaseClock {
        moments,
        at: 0,
        last: 0,
    };
    let number = run(
        alloc,
        words.as_slice(),
        &mut source,
        &mut sink,
        &mut board,
        &mut clock,
        &mut errors,
    );
    see(rt, number == case.number, case.name);
    see(rt, sink.as_bytes() == case.output, case.name);
    see(rt, errors.as_bytes() == case.said, case.name);
    forget(words);
    forget(source);
    forget(sink);
    forget(errors);
    forget(board);
    forget(clock);
}

#[test]
fn runs_one_system(rt: HostRuntime) {
    let alloc = rt.alloc();
    for case in &CASES {
        see_case(&rt, alloc, case);
    }
}
