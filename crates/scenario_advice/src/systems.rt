//! What systems lack at the line `events`.
use crate::place::{Place, begins, number_at, word_at};
use crate::saying::{NOTHING, Piece, Saying};
use scenario::base::{lines, same};

/// The most systems of a scenario.
const MOST: usize = 64;

const NO_ADDRESS: &[Piece] = &[
    Piece::Text("system "),
    Piece::OtherBare(2),
    Piece::Text(" has no address"),
];

const NO_PORT: &[Piece] = &[
    Piece::Text("system "),
    Piece::OtherBare(2),
    Piece::Text(" has no port"),
];

const GAP: &[Piece] = &[
    Piece::Text("system "),
    Piece::OtherBare(2),
    Piece::Text(" has no port "),
    Piece::Count,
    Piece::Text("; its ports are numbered from 0 without a gap"),
];

const SYSTEMS: &[Piece] = &[
    Piece::Text("the number of systems is "),
    Piece::Count,
    Piece::Text("; wanted: 1, which is the node"),
];

const PORTS: &[Piece] = &[
    Piece::Text("the number of ports of "),
    Piece::OtherBare(2),
    Piece::Text(" is "),
    Piece::Count,
    Piece::Text("; wanted: "),
    Piece::Most,
    Piece::Text(", one for each link"),
];

/// What the lines before another give a system.
#[derive(Clone, Copy)]
struct Given<'a> {
    /// The system's name; empty where there is no system.
    name: &'a [u8],
    /// The line that declares it.
    line: u32,
    has_address: bool,
    /// A bit for each number of a port.
    ports: u8,
}

impl Given<'_> {
    /// How many ports the system has.
    fn count_ports(self) -> u64 {
        let mut left = self.ports;
        let mut count: u64 = 0;
        for _ in 0..8 {
            count = count.saturating_add(u64::from(left % 2));
            left /= 2;
        }
        count
    }

    /// What the system lacks, if it lacks anything.
    fn lack(self) -> Option<Saying> {
        if !self.has_address {
            return Some(Saying::other(NO_ADDRESS, self.line));
        }
        if self.ports == 0 {
            return Some(Saying::other(NO_PORT, self.line));
        }
        Some(Saying {
            pieces: GAP,
            other: self.line,
            count: first_gap(self.ports)?,
            ..NOTHING
        })
    }
}

/// The bits of the numbers of ports.
const BITS: [u8; 8] = [0x01, 0x02, 0x04, 0x08, 0x10, 0x20, 0x40, 0x80];

/// The bit of the number of a port line.
fn bit_of(line: &[u8]) -> u8 {
    match number_at(line, 3) {
        Some(number) if number < 8 => BITS[number as usize],
        _ => 0,
    }
}

/// The least number without a bit that is below one with a bit.
fn first_gap(ports: u8) -> Option<u64> {
    let mut left = ports;
    for number in 0..8 {
        if left == 0 {
            return None;
        }
        if left % 2 == 0 {
            return Some(number);
        }
        left /= 2;
    }
    None
}

/// What is said at the line `events`: the first system that isn't complete, or else why the systems aren't those for a board
/// of so many links, where there is one. The lines before it are read once.
pub(crate) fn of_systems(at: Place<'_>, links: Option<usize>) -> Option<Saying> {
    let mut systems = [Given {
        name: b"",
        line: 0,
        has_address: false,
        ports: 0,
    }; MOST];
    let mut number: u32 = 1;
    for line in lines(at.text) {
        if number >= at.number {
            break;
        }
        take_in(&mut systems, line, number);
        number = number.saturating_add(1);
    }
    for system in &systems {
        if system.name.is_empty() {
            break;
        }
        let lack = system.lack();
        if lack.is_some() {
            return lack;
        }
    }
    of_misfit(&systems, links?)
}

/// Takes in a line that declares a system, or gives one an address or a port.
fn take_in<'a>(systems: &mut [Given<'a>], line: &'a [u8], number: u32) {
    let Some(name) = word_at(line, 2) else {
        return;
    };
    let declares = begins(line, b"system");
    let has_address = begins(line, b"address");
    let has_port = begins(line, b"port");
    if !declares && !has_address && !has_port {
        return;
    }
    let sought = if declares { b"" } else { name };
    let ports = if has_port { bit_of(line) } else { 0 };
    for system in systems.iter_mut() {
        if same(system.name, sought) {
            *system = Given {
                name,
                line: if declares { number } else { system.line },
                has_address: system.has_address || has_address,
                ports: system.ports | ports,
            };
            return;
        }
    }
}

/// What is said of systems that aren't one alone with a port for each of so many links.
fn of_misfit(systems: &[Given<'_>], links: usize) -> Option<Saying> {
    let count = count_declared(systems);
    match systems {
        [node, ..] if count == 1 => Some(Saying {
            pieces: PORTS,
            other: node.line,
            count: node.count_ports(),
            most: links as u64,
            ..NOTHING
        }),
        _ => Some(Saying::counting(SYSTEMS, count)),
    }
}

/// How many systems are declared.
fn count_declared(systems: &[Given<'_>]) -> u64 {
    let mut count: u64 = 0;
    for system in systems {
        if system.name.is_empty() {
            return count;
        }
        count = count.saturating_add(1);
    }
    count
}
