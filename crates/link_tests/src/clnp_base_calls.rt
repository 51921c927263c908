use frame_links::link_board::base::{
    Failed, MemSink, MemSource, NoMemory, Octets, ReadStop, Sink, Source, StdSink, StdSource,
    decimal, push, push_decimal, push_hex, push_unhex, read_all, write_all,
};
use std::alloc::Global;
use std::io;
use std::io::{ErrorKind, Read, Write};

/// A source of `abcdefgh`, three octets a call, that fails at these calls.
fn letters(alloc: Global, fails: &[u64]) -> Result<MemSource, NoMemory> {
    let octets = Vec::from_slice(alloc, b"abcdefgh")?;
    Ok(MemSource::new(octets, 3, Vec::from_slice(alloc, fails)?))
}

/// Whether reading of at most so many octets behind a `-` answers this, and this then stands there.
fn is_read<S: Source>(
    alloc: Global,
    source: &mut S,
    most: usize,
    answer: Result<(), ReadStop>,
    held: &[u8],
) -> bool {
    let Ok(mut into) = Vec::from_slice(alloc, b"-") else {
        return false;
    };
    read_all(alloc, source, most, &mut into) == answer && into.as_slice() == held
}

#[test]
fn reads_to_the_end(rt: HostRuntime) {
    let alloc = rt.alloc();
    let mut source = letters(alloc, &[]).expect(&rt, "memory");
    assert!(rt; is_read(alloc, &mut source, 8, Ok(()), b"-abcdefgh"));
    let mut source = letters(alloc, &[]).expect(&rt, "memory");
    let long = Err(ReadStop::TooLong);
    assert!(rt; is_read(alloc, &mut source, 7, long, b"-abcdefgh"));
}

#[test]
fn stops_where_the_source_fails(rt: HostRuntime) {
    let alloc = rt.alloc();
    let mut source = letters(alloc, &[2]).expect(&rt, "memory");
    let failed = Err(ReadStop::Failed);
    assert!(rt; is_read(alloc, &mut source, 100, failed, b"-abc"));
    assert!(rt; is_read(alloc, &mut source, 5, Ok(()), b"-defgh"));
}

/// Whether writing of a piece answers this, and the sink then holds this.
fn is_held(sink: &mut MemSink, piece: &[u8], answer: Result<(), Failed>, held: &[u8]) -> bool {
    write_all(sink, piece) == answer && sink.as_bytes() == held
}

#[test]
fn writes_whole_pieces(rt: HostRuntime) {
    let mut sink = MemSink::new(rt.alloc(), 5, 1, Vec::new(rt.alloc())).expect(&rt, "memory");
    assert!(rt; fills_up(&mut sink));
}

/// Whether a sink with room for five octets takes the first of these pieces, two octets of the next, and an empty one.
fn fills_up(sink: &mut MemSink) -> bool {
    is_held(sink, b"abc", Ok(()), b"abc")
        && is_held(sink, b"def", Err(Failed), b"abcde")
        && sink.write(b"") == Ok(0)
}

#[test]
fn stops_where_the_sink_fails(rt: HostRuntime) {
    let fails = Vec::from_slice(rt.alloc(), &[2]).expect(&rt, "memory");
    let mut sink = MemSink::new(rt.alloc(), 9, 2, fails).expect(&rt, "memory");
    assert!(rt; is_held(&mut sink, b"abcd", Err(Failed), b"ab"));
}

/// A reader and a writer that take and give nothing.
#[derive(Debug, Drop)]
struct Broken;

impl Read for Broken {
    fn read(&mut self, _buf: &mut [u8]) -> io::Result<usize> {
        Err(io::Error::from(ErrorKind::Interrupted))
    }
}

impl Write for Broken {
    fn write(&mut self, _piece: &[u8]) -> io::Result<usize> {
        Ok(0)
    }

    fn flush(&mut self) -> io::Result<()> {
        Ok(())
    }
}

#[test]
fn reads_over_the_machine(rt: HostRuntime) {
    let mut source = StdSource::new(b"abc".as_slice());
    assert!(rt; is_read(rt.alloc(), &mut source, 3, Ok(()), b"-abc"));
    assert!(rt; source.into_inner().is_empty());
}

#[test]
fn writes_over_the_machine(rt: HostRuntime) {
    let mut sink = StdSink::new(Vec::new(rt.alloc()));
    assert!(rt; write_all(&mut sink, b"abc") == Ok(()));
    assert!(rt; sink.into_inner().as_slice() == b"abc".as_slice());
}

#[test]
fn fails_where_the_machine_fails(rt: HostRuntime) {
    assert!(rt; StdSource::new(Broken).read(&mut [0; 4]) == Err(Failed));
    assert!(rt; StdSink::new(Broken).write(b"abc") == Err(Failed));
    assert!(rt; StdSink::new(Broken).write(b"") == Ok(0));
}

/// Words, and the numbers that they are.
const DECIMALS: [(&[u8], Option<u64>); 9] = [
    (b"0", Some(0)),
    (b"007", Some(7)),
    (b"18446744073709551615", Some(u64::MAX)),
    (b"18446744073709551616", None),
    (b"123456789012345678901234567890", None),
    (b"", None),
    (b"12a", None),
    (b"-1", None),
    (b"+1", None),
];

#[test]
fn reads_decimals(rt: HostRuntime) {
    for (word, want) in &DECIMALS {
        assert!(rt; decimal(word) == *want);
    }
}

/// Appends a word, octets, and the least and the largest number.
fn push_each(out: &mut Vec<u8>) -> Result<(), NoMemory> {
    push(b"id ", out)?;
    push_hex(&[0x00, 0x9f, 0xa0, 0xff], out)?;
    push(b" ", out)?;
    push_decimal(0, out)?;
    push(b" ", out)?;
    push_decimal(u64::MAX, out)
}

#[test]
fn puts_text_out(rt: HostRuntime) {
    let mut out = Vec::new(rt.alloc());
    assert!(rt; push_each(&mut out).is_ok() && push_unhex(b"009Fa0fF", &mut out).is_ok());
    let octets = Octets::copy(rt.alloc(), &out).expect(&rt, "memory");
    assert!(rt;
        octets.as_bytes() == b"id 009fa0ff 0 18446744073709551615\x00\x9f\xa0\xff".as_slice()
    );
}
