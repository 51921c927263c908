use captures::base::{DigitValues, push};
use captures::{LineRefusal, Verdict, check_line, push_spelled, read_capture, show_line};
use std::alloc::Global;

/// A PDU in hexadecimal digits, and the line that shows it.
const FRAME: &[u8] = b"8113010a3c0015ce58044700270104470027026869";

const SHOWN: &[u8] =
    b"before\nclnp dt e life=10 sum=ce58 to=47002701 from=47002702 data=6869 rest=";

#[test]
fn shows_a_frame_behind_what_stands_there(rt: HostRuntime) {
    let mut frame = Vec::new(rt.alloc());
    assert!(rt; read_capture(FRAME, &mut frame) == Ok(true));
    assert!(rt; is_shown(rt.alloc(), &frame));
}

/// Whether a frame is shown behind what stands there.
fn is_shown(alloc: Global, frame: &[u8]) -> bool {
    let mut out = Vec::new(alloc);
    push(b"before\n", &mut out).is_ok()
        && show_line(alloc, frame, &mut out).is_ok()
        && out.as_slice() == SHOWN
}

#[test]
fn reads_digits_behind_what_stands_there(rt: HostRuntime) {
    assert!(rt; is_read(rt.alloc()));
}

/// Whether digits are read behind what stands there.
fn is_read(alloc: Global) -> bool {
    let mut out = Vec::new(alloc);
    push(b"before ", &mut out).is_ok()
        && push_spelled(&DigitValues::new(), b"009Fa0fF", &mut out).is_ok()
        && out.as_slice() == b"before \x00\x9f\xa0\xff".as_slice()
}

/// Whether the line is made of the digits of 70,000 octets, and this behind them.
fn is_lengthened(more: &[u8], line: &mut Vec<u8>) -> bool {
    line.resize(140_000, b'0').is_ok() && push(more, line).is_ok()
}

/// Whether reading of the line with this behind the digits answers this, and the frame then has 70,000 octets.
fn is_answered(
    alloc: Global,
    more: &[u8],
    answer: Result<bool, LineRefusal>,
    frame: &mut Vec<u8>,
) -> bool {
    let mut line = Vec::new(alloc);
    is_lengthened(more, &mut line) && read_capture(&line, frame) == answer && frame.len() == 70_000
}

/// What stands behind the digits, and the answer to that.
const READ: [(&[u8], Result<bool, LineRefusal>); 4] = [
    (b"", Ok(true)),
    (b"0", Err(LineRefusal::Syntax)),
    (b"00", Err(LineRefusal::Count)),
    (b"00g0", Err(LineRefusal::Syntax)),
];

#[test]
fn reads_70000_octets_and_no_more(rt: HostRuntime) {
    let mut frame = Vec::new(rt.alloc());
    for (more, answer) in &READ {
        assert!(rt; is_answered(rt.alloc(), more, *answer, &mut frame));
    }
}

/// Whether the line with this behind the digits is judged so, and the judgement of the first one then stands there.
fn is_judged(
    alloc: Global,
    more: &[u8],
    answer: Result<Verdict, LineRefusal>,
    out: &mut Vec<u8>,
) -> bool {
    let mut line = Vec::new(alloc);
    is_lengthened(more, &mut line)
        && check_line(alloc, &line, 3, out) == answer
        && out.as_slice() == b"3 pass".as_slice()
}

#[test]
fn judges_70000_octets_and_no_more(rt: HostRuntime) {
    let mut out = Vec::new(rt.alloc());
    assert!(rt;
        is_judged(rt.alloc(), b" => alien", Ok(Verdict::Pass), &mut out)
            && is_judged(
                rt.alloc(),
                b"00 => alien",
                Err(LineRefusal::Count),
                &mut out
            )
    );
}
