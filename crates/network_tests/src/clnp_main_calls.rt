use crate::seeing::see;
use clnp_program::{Advice, Status, clnp_main};
use frame_links::link_board::Board;
use frame_links::link_board::base::{Failed, MemClock, MemSink, MemSource, Sink, Source};
use std::alloc::Global;
use std::mem::forget;
use std::process::Abort;

/// Two vectors, and the verdicts on them.
const VECTORS: &[u8] = b"81 => refused G1 06 00 silent\n00 => alien\n";

const VERDICTS: &[u8] = b"1 pass\n2 pass\npassed 2 failed 0\n";

/// A host that has no room for all segments of a unit, at its deadline too.
const CROWDED: &[u8] = b"\
clnp-sim 1
subnet lan 512
system a host hello=0
system b host hello=0 budget=1010
address a 47002702
address b 47002701
port a 0 lan 01
port b 0 lan 02
events
send a 47002702 47002701 pat:2000:0 life=10
deliver 1 b
deliver 2 b
deliver 3 b
tick 10
end
";

/// Its last line.
const CROWDED_END: &[u8] = b"end 10 7\n";

/// How objects in memory behave: how many octets they move at most in a call, how many the sink has room for, and the
/// numbers of the calls, from 1, at which the source and the sink fail.
#[derive(Clone, Copy)]
struct Streams {
    most: usize,
    room: usize,
    read_fails: u64,
    write_fails: u64,
}

/// Objects that move seven octets a call, and never fail.
const SEVEN: Streams = Streams {
    most: 7,
    room: 65_536,
    read_fails: 0,
    write_fails: 0,
};

/// The source of a text.
fn source_of(rt: &impl Abort, alloc: Global, text: &[u8], streams: Streams) -> MemSource {
    assert!(rt; streams.most >= 1);
    let octets = Vec::from_slice(alloc, text).expect(rt, "memory");
    let fails = Vec::from_slice(alloc, &[streams.read_fails]).expect(rt, "memory");
    MemSource::new(octets, streams.most, fails)
}

fn sink_of(rt: &impl Abort, alloc: Global, streams: Streams) -> MemSink {
    assert!(rt; streams.most >= 1);
    let fails = Vec::from_slice(alloc, &[streams.write_fails]).expect(rt, "memory");
    MemSink::new(alloc, streams.room, streams.most, fails).expect(rt, "memory")
}

/// A list of one word.
fn words_of(rt: &impl Abort, alloc: Global, word: &str) -> Vec<String> {
    let mut words = Vec::new(alloc);
    let word = String::from_str(alloc, word).expect(rt, "memory");
    words.push(word).expect(rt, "memory");
    words
}

/// The status of a call over no links.
fn call_without_links<S: Source, K: Sink>(
    rt: &impl Abort,
    alloc: Global,
    words: &[String],
    source: &mut S,
    sink: &mut K,
) -> Status {
    let mut board = Board::new(alloc, Vec::new(alloc)).expect(rt, "memory");
    let mut clock = MemClock::new(Vec::from_slice(alloc, &[0]).expect(rt, "memory"));
    let mut advice = Advice::new();
    let status = clnp_main(
        alloc,
        words,
        source,
        sink,
        &mut board,
        &mut clock,
        &mut advice,
    );
    forget(clock);
    forget(board);
    status
}

/// The status of a call with one word.
fn call_over<K: Sink>(
    rt: &impl Abort,
    alloc: Global,
    word: &str,
    text: &[u8],
    streams: Streams,
    sink: &mut K,
) -> Status {
    let words = words_of(rt, alloc, word);
    let mut source = source_of(rt, alloc, text, streams);
    let status = call_without_links(rt, alloc, words.as_slice(), &mut source, sink);
    forget(source);
    forget(words);
    status
}

/// The status of a call with one word, which appends what it writes.
fn call(
    rt: &impl Abort,
    alloc: Global,
    word: &str,
    text: &[u8],
    streams: Streams,
    out: &mut Vec<u8>,
) -> Status {
    let mut sink = sink_of(rt, alloc, streams);
    let status = call_over(rt, alloc, word, text, streams, &mut sink);
    out.extend_from_slice(sink.as_bytes()).expect(rt, "memory");
    forget(sink);
    status
}

/// Sees the status of a call, and all that it writes.
fn see_call(
    rt: &impl Abort,
    alloc: Global,
    word: &str,
    text: &[u8],
    streams: Streams,
    status: Status,
    written: &[u8],
) {
    let mut out = Vec::new(alloc);
    let told = call(rt, alloc, word, text, streams, &mut out);
    see(rt, told == status, "the status");
    see(rt, out.as_slice() == written, "what is written");
}

#[test]
fn stops_where_the_sink_fails(rt: HostRuntime) {
    let alloc = rt.alloc();
    let streams = Streams {
        write_fails: 1,
        ..SEVEN
    };
    let fault = Status::WriteFault;
    see_call(&rt, alloc, "show", b"81\n", streams, fault, b"");
    see_call(&rt, alloc, "check", VECTORS, streams, fault, b"");
}

/// The vectors have 42 octets, so six calls of the source give some and one more tells the end.
#[test]
fn stops_where_the_source_fails(rt: HostRuntime) {
    for number in 1..9u64 {
        let streams = Streams {
            read_fails: number,
            ..SEVEN
        };
        let (status, written) = if number < 8 {
            (Status::ReadFault, b"".as_slice())
        } else {
            (Status::Done, VERDICTS)
        };
        see_call(&rt, rt.alloc(), "check", VECTORS, streams, status, written);
    }
}

#[test]
fn stops_where_the_sink_fails_in_a_long_journal(rt: HostRuntime) {
    let mut whole = Vec::new(rt.alloc());
    let status = call(&rt, rt.alloc(), "sim", CROWDED, SEVEN, &mut whole);
    see(&rt, status == Status::Done, "the status");
    see(
        &rt,
        whole.as_slice().ends_with(CROWDED_END),
        "its last line",
    );
    see_fronts(&rt, rt.alloc(), &whole);
}

/// Sees that what is written is a front of the whole journal, whichever call of the sink fails.
fn see_fronts(rt: &impl Abort, alloc: Global, whole: &[u8]) {
    let mut front = 0usize;
    for number in 1..=whole.len().div_ceil(7) as u64 {
        let Some(written) = whole.get(..front) else {
            panic!(rt; "too few octets");
        };
        let streams = Streams {
            write_fails: number,
            ..SEVEN
        };
        see_call(
            rt,
            alloc,
            "sim",
            CROWDED,
            streams,
            Status::WriteFault,
            written,
        );
        front = front.saturating_add(7);
    }
}

/// One call of the source more than those that give the octets tells the end.
#[test]
fn writes_nothing_where_the_source_of_a_scenario_fails(rt: HostRuntime) {
    let calls = CROWDED.len().div_ceil(7) as u64;
    for number in 0..=calls {
        let streams = Streams {
            read_fails: number.saturating_add(1),
            ..SEVEN
        };
        see_call(
            &rt,
            rt.alloc(),
            "sim",
            CROWDED,
            streams,
            Status::ReadFault,
            b"",
        );
    }
}

#[test]
fn refuses_a_long_text(rt: HostRuntime) {
    let text = vec![in rt.alloc(); b'a'; 16_777_217].expect(&rt, "memory");
    let streams = Streams {
        most: usize::MAX,
        ..SEVEN
    };
    see_call(&rt, rt.alloc(), "sim", &text, streams, Status::TooLong, b"");
}

/// So many times a line.
fn repeated(rt: &impl Abort, alloc: Global, front: &[u8], line: &[u8], count: usize) -> Vec<u8> {
    let mut text = Vec::from_slice(alloc, front).expect(rt, "memory");
    for _ in 0..count {
        text.extend_from_slice(line).expect(rt, "memory");
    }
    text
}

/// The sink is full within the line of frame number 11,667.
#[test]
fn writes_many_blocks(rt: HostRuntime) {
    let text = repeated(&rt, rt.alloc(), b"", b"00\n", 16_000);
    let mut lines = repeated(&rt, rt.alloc(), b"", b"alien\n", 11_666);
    lines.extend_from_slice(b"alie").expect(&rt, "memory");
    let streams = Streams {
        most: 4096,
        room: 70_000,
        ..SEVEN
    };
    see_call(
        &rt,
        rt.alloc(),
        "show",
        &text,
        streams,
        Status::WriteFault,
        &lines,
    );
}

/// A sink that counts the octets that it takes, and keeps none.
#[derive(Drop)]
struct Counter {
    octets: u64,
}

impl Sink for Counter {
    ghost use Rattle.std.specs.Prelude.{None};

    ghost written = { λ s. None };

    ghost faults = { λ s. 0 };

    fn write(&mut self, piece: &[u8]) -> Result<usize, Failed> {
        self.octets = self.octets.saturating_add(piece.len() as u64);
        Ok(piece.len())
    }
}

/// Two hosts on a subnetwork.
const HOSTS: &[u8] = b"clnp-sim 1
subnet lan 65535
system a host hello=0
system b host hello=0
address a 47002702
address b 47002701
port a 0 lan 01
port b 0 lan 02
events
";

/// The octets that a simulation writes which stops since its network is full: of so many.
fn count_until_full(rt: &impl Abort, alloc: Global, text: &[u8], full: u64) -> u64 {
    let streams = Streams {
        most: 4096,
        ..SEVEN
    };
    let mut sink = Counter { octets: 0 };
    let status = call_over(rt, alloc, "sim", text, streams, &mut sink);
    assert!(rt; status == Status::WorldFull { octets: full });
    sink.octets
}

/// Each unit is one copy that weighs 64,601, so there is room for 4,156 of them. Two lines are written for each unit,
/// 129,130 octets and twice the digits of its number, and no last line.
#[test]
fn stops_where_the_network_is_full(rt: HostRuntime) {
    let send = b"send a 47002702 47002701 pat:64512:0\n";
    let mut text = repeated(&rt, rt.alloc(), HOSTS, send, 4157);
    text.extend_from_slice(b"end\n").expect(&rt, "memory");
    let octets = count_until_full(&rt, rt.alloc(), &text, 268_481_756);
    assert!(rt; octets == 536_695_314);
}
