//! The commands of the program.
ghost use Rattle.std.specs.Prelude.{◌≡◌, ◌≤◌, IfSome, length, map, string_bytes};
ghost use Rattle.clnp_program.specs.Words.{ArePlaces, alone, command_named, command_of, no_link_from, reads, run_of, run_over, storm_of, turns_of};

use crate::network_commands::base::decimal;
use frame_links::link_board::is_link_word;
use std::ops::Range;

/// The most turns of a run.
const MOST_TURNS: u64 = 1_000_000_000;

/// The most links of a run.
const MOST_LINKS: usize = 8;

/// A command of the program. The name of one that reads an input stands alone on the command line.
#[derive(Clone, Copy)]
pub enum Command {
    /// One that writes nothing before it has read its whole input, if it reads one.
    Whole(WholeCommand),
    /// One that works while it reads.
    Streamed(StreamedCommand),
    /// Runs the system of a scenario over links, for so many turns.
    Run { turns: u32 },
}

/// A command that writes nothing before it has read its whole input, if it reads one.
#[derive(Clone, Copy)]
pub enum WholeCommand {
    /// Writes the journal of a scenario.
    Sim,
    /// Writes the trace of a scenario: its journal, and what becomes of each copy.
    Trace,
    /// Shows the frames of a capture.
    Show,
    /// Judges vectors.
    Check,
    /// Packs shown lines back to frames.
    Pack,
    /// Makes an Ethernet capture of the lines of frames.
    PcapMake,
    /// Joins the units of captured traffic, with a share for each source.
    Reassemble,
    /// Writes what a scenario of version 1 is in version 2.
    Migrate,
    /// Counts what a run of the scenario of a seed comes to.
    Storm { seed: u64 },
}

/// A command that works while it reads.
#[derive(Clone, Copy)]
pub enum StreamedCommand {
    /// Shows the records of an Ethernet capture.
    PcapShow,
    /// Writes the frames of an Ethernet capture as lines of which one can be made.
    PcapLines,
}

impl Command {
    /// The command that the words are, or the first place at which they are none.
    pub fn of(words: &[String]) -> Result<Command, usize>
        ensures { result ≡ command_of (map string_bytes words.now) }
    {
        match words {
            [] => Err(0),
            [word, others @ ..] if word.as_str() == "storm" => Command::storm(others),
            [word, others @ ..] if word.as_str() == "run" => Command::run(others),
            [word, others @ ..] => Command::alone(word.as_str(), others),
        }
    }

    /// The command of this name, behind which no word stands, or the first place at which the words are none.
    fn alone(name: &str, others: &[String]) -> Result<Command, usize>
        ensures { result ≡ alone (command_named name.now) (map string_bytes others.now) }
    {
        match Command::named(name) {
            None => Err(0),
            Some(command) if others.is_empty() => Ok(command),
            Some(_) => Err(1),
        }
    }

    /// The storm that the words behind its name are, or the first place at which they are none.
    fn storm(others: &[String]) -> Result<Command, usize>
        ensures { result ≡ storm_of (map string_bytes others.now) }
    {
        let [word, behind @ ..] = others else {
            return Err(1);
        };
        match decimal(word.as_bytes()) {
            Some(seed) if behind.is_empty() => Ok(Command::Whole(WholeCommand::Storm { seed })),
            Some(_) => Err(2),
            None => Err(1),
        }
    }

    /// The run that the words behind its name are, or the first place at which they are none.
    fn run(others: &[String]) -> Result<Command, usize>
        ensures { result ≡ run_of (map string_bytes others.now) }
    {
        match others {
            [word, behind @ ..] if word.as_str() == "--turns" => Command::run_for(behind),
            _ => Err(1),
        }
    }

    /// The run that the words behind `--turns` are, or the first place of all at which they are none.
    fn run_for(behind: &[String]) -> Result<Command, usize>
        ensures { result ≡ turns_of (map string_bytes behind.now) }
    {
        let [word, links @ ..] = behind else {
            return Err(2);
        };
        match decimal(word.as_bytes()) {
            Some(turns) if (1..=MOST_TURNS).contains(&turns) => Command::run_over(
                turns as u32,
                links,
            ),
            _ => Err(2),
        }
    }

    /// The run over links for so many turns, or the first place of all words at which these are none.
    fn run_over(turns: u32, links: &[String]) -> Result<Command, usize>
        requires { turns ≤ 1000000000 }
        ensures { result ≡ run_over turns (no_link_from 0 (map string_bytes links.now)) }
    {
        match no_link_from(0, links) {
            None => Ok(Command::Run { turns }),
            Some(place) => Err(place + 3),
        }
    }

    /// The command of this name that reads an input.
    fn named(word: &str) -> Option<Command>
        ensures { result ≡ command_named word.now }
    {
        if word == "sim" {
            Some(Command::Whole(WholeCommand::Sim))
        } else if word == "trace" {
            Some(Command::Whole(WholeCommand::Trace))
        } else if word == "show" {
            Some(Command::Whole(WholeCommand::Show))
        } else if word == "check" {
            Some(Command::Whole(WholeCommand::Check))
        } else if word == "pack" {
            Some(Command::Whole(WholeCommand::Pack))
        } else if word == "pcap-show" {
            Some(Command::Streamed(StreamedCommand::PcapShow))
        } else if word == "pcap-make" {
            Some(Command::Whole(WholeCommand::PcapMake))
        } else if word == "pcap-lines" {
            Some(Command::Streamed(StreamedCommand::PcapLines))
        } else if word == "reassemble" {
            Some(Command::Whole(WholeCommand::Reassemble))
        } else if word == "migrate" {
            Some(Command::Whole(WholeCommand::Migrate))
        } else {
            None
        }
    }
}

impl WholeCommand {
    /// Whether the command reads an input.
    pub fn reads(self) -> bool
        ensures { result ≡ reads self }
    {
        match self {
            WholeCommand::Sim
            | WholeCommand::Trace
            | WholeCommand::Show
            | WholeCommand::Check
            | WholeCommand::Pack
            | WholeCommand::PcapMake
            | WholeCommand::Reassemble
            | WholeCommand::Migrate => true,
            WholeCommand::Storm { .. } => false,
        }
    }
}

/// The first place, from a place on, at which words are no link words, or are too many.
fn no_link_from(place: usize, words: &[String]) -> Option<usize>
    requires { place ≤ 8 }
    ensures found { result ≡ no_link_from place (map string_bytes words.now) }
    ensures early { IfSome result (λ at. at ≤ 8) }
{
    match words {
        [] => None,
        [word, others @ ..] if place < MOST_LINKS && is_link_word(word.as_bytes()) => {
            no_link_from(place + 1, others)
        }
        _ => Some(place),
    }
}

/// The places of the link words among words that run a node, in order; none of other words.
pub fn link_places(words: &[String]) -> Range<usize>
    ensures places { ArePlaces (command_of (map string_bytes words.now)) (length words.now) result.start result.end }
{
    match Command::of(words) {
        Ok(Command::Run { .. }) => 3..words.len(),
        _ => 0..0,
    }
}
