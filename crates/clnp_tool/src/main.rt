//! The program `clnp`: it simulates a connectionless network (ISO/IEC 8473, RFC 994), runs one system over UDP, shows frames
//! as text, and judges vectors of frames.
#![tactic(auto)]

mod arguments;
mod opening;

use crate::arguments::words;
use crate::opening::open;
use clnp_program::base::{HalfSeconds, StdSink, StdSource};
use clnp_program::{Status, end, end_without_link, link_places, run};
use frame_links::udp_links::links::{Board, Link};
use frame_links::udp_links::{LinkFault, Traffic};
use std::io;
use std::process::ExitCode;

fn main(rt: HostRuntime) -> ExitCode {
    let alloc = rt.alloc();
    let mut errors = StdSink::new(rt.stderr());
    let Ok(words) = words(&rt) else {
        return ExitCode::from(end(Status::NoMemory, &mut errors));
    };
    let Ok(traffic) = Traffic::new(alloc) else {
        return ExitCode::from(end(Status::NoMemory, &mut errors));
    };
    let mut links: Vec<Box<dyn Link>> = Vec::new(alloc);
    for at in link_places(words.as_slice()) {
        let Ok(machine) = rt.clone() else {
            return ExitCode::from(end(Status::NoMemory, &mut errors));
        };
        match open(machine, words.as_slice(), at, &traffic) {
            Ok(link) => {
                let Ok(link) = Box::new(alloc, link) else {
                    return ExitCode::from(end(Status::NoMemory, &mut errors));
                };
                if links.push(link).is_err() {
                    return ExitCode::from(end(Status::NoMemory, &mut errors));
                }
            }
            Err(LinkFault::Refused) => return ExitCode::from(end_without_link(at, &mut errors)),
            Err(LinkFault::NoMemory) => {
                return ExitCode::from(end(Status::NoMemory, &mut errors));
            }
        }
    }
    let Ok(mut board) = Board::new(alloc, links) else {
        return ExitCode::from(end(Status::NoMemory, &mut errors));
    };
    let Ok(machine) = rt.clone() else {
        return ExitCode::from(end(Status::NoMemory, &mut errors));
    };
    let mut clock = HalfSeconds::new(machine);
    let mut source = StdSource::new(rt.reader());
    let mut sink = StdSink::new(io::writer(&rt));
    let number = run(
        alloc,
        words.as_slice(),
        &mut source,
        &mut sink,
        &mut board,
        &mut clock,
        &mut errors,
    );
    board.drop_gone();
    ExitCode::from(number)
}
