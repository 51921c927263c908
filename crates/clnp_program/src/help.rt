//! What the program says of itself.
ghost use Rattle.std.specs.Prelude.{◌≡◌, map, string_bytes, option_copied};
ghost use Rattle.clnp_program.specs.Texts.{asks_for_help, help_text, information, information_on, version_text};

use crate::pages::page_of;

const VERSION: &str = "clnp 0.1.0\n";

const HELP: &str = "\
clnp simulates a connectionless network (ISO/IEC 8473, RFC 994), and reads and
makes captures of its frames.

  clnp sim < SCENARIO    reads a scenario and writes its journal
  clnp trace < SCENARIO  reads a scenario and writes its journal with what becomes of each copy
  clnp show < CAPTURE    reads frames in hexadecimal digits and writes a line for each
  clnp check < VECTORS   reads frames with the lines expected of show and writes which pass
  clnp pack < SHOWN      reads lines that show frames and writes the frame of each
  clnp pcap-show < FILE  reads an Ethernet capture and writes a line for each record
  clnp pcap-make < LINES reads lines of frames and writes an Ethernet capture of them
  clnp pcap-lines < FILE reads an Ethernet capture and writes lines for clnp pcap-make
  clnp reassemble < TEXT reads captured frames and writes the units that they make
  clnp migrate < SCENARIO
                         reads a scenario of version 1 and writes it in version 2
  clnp storm SEED        runs the scenario that the seed makes and writes a line of what it counts
  clnp run --turns N LINK.. < SCENARIO
                         runs one system over links and writes its journal
  clnp COMMAND --help    writes what a command reads and writes, with an example
  clnp --help            writes this text, as clnp -h and clnp help do
  clnp --version         writes the version

Exit numbers:
  0  done
  1  the words are no command
  2  the input has more than 16,777,216 octets, or an Ethernet capture more
     than 1,073,741,824
  3  the input isn't what the command reads: a line of it is bad
  4  the frames of the simulated network weigh 268,435,456 octets or more
  5  standard input failed
  6  standard output failed
  7  all links of a run failed
  8  no memory
  9  a link of a run can't be opened

A scenario, in which the host a sends two octets to the host b:

  clnp-sim 1
  subnet lan 1500
  system a host hello=0
  system b host hello=0
  address a 47002702
  address b 47002701
  port a 0 lan 01
  port b 0 lan 02
  events
  send a 47002702 47002701 hex:6869 life=10 whole
  settle 1
  end
";

/// The text that the words ask for about the program itself, if they do: a word that stands alone, or a command and
/// `--help`.
pub(crate) fn information(words: &[String]) -> Option<&'static str>
    ensures { option_copied result ≡ information (map string_bytes words.now) }
{
    match words {
        [word] => information_on(word.as_str()),
        [word, second] if second.as_str() == "--help" => page_of(word.as_str()),
        _ => None,
    }
}

/// The text that a word asks for about the program itself, if it does.
fn information_on(word: &str) -> Option<&'static str>
    ensures { option_copied result ≡ information_on word.now }
{
    if asks_for_help(word) {
        Some(help())
    } else if word == "--version" {
        Some(version())
    } else {
        None
    }
}

/// Whether a word asks for help.
fn asks_for_help(word: &str) -> bool
    ensures { result ≡ asks_for_help word.now }
{
    word == "--help" || word == "-h" || word == "help"
}

/// The answer to `--help`.
fn help() -> &'static str
    ensures { result.now ≡ help_text }
{
    HELP
}

/// The answer to `--version`.
fn version() -> &'static str
    ensures { result.now ≡ version_text }
{
    VERSION
}
