//! What the program says of each command.
ghost use Rattle.std.specs.Prelude.{◌≡◌, option_copied};
ghost use Rattle.clnp_program.specs.Texts.{check_form, commands, migrate_form, pack_form, page_among, page_text, pcap_lines_form, pcap_make_form, pcap_show_form, reassemble_form, run_form, show_form, sim_form, storm_form, trace_form};

const SIM: &str = "\
clnp sim < SCENARIO

Reads a scenario text and writes the journal of its run: a line for each thing
that happened, with its moment in ticks, the system's name and a note. Nothing is
written before the whole text was accepted; a bad line is told on standard error.

Example:

  $ clnp sim < hi.txt
  0 a sent dt 1 - 47002702 47002701 2
  0 a tx 1 0 es 8113010a3c0015ce58044700270104470027026869
  0 b got 47002702 47002701 6869
  end 0 1

where hi.txt is the scenario at the end of clnp --help.
";

const TRACE: &str = "\
clnp trace < SCENARIO

Reads a scenario text and writes the trace of its run: its journal, as clnp sim
writes it, and between its lines what becomes of each copy of a frame: rx where one
comes to a system, before what comes of it; lost; or nobody where it is for no system.

Example:

  $ clnp trace < hi.txt
  0 a sent dt 1 - 47002702 47002701 2
  0 a tx 1 0 es 8113010a3c0015ce58044700270104470027026869
  0 b rx 1 0
  0 b got 47002702 47002701 6869
  end 0 1

where hi.txt is the scenario at the end of clnp --help.
";

const SHOW: &str = "\
clnp show < CAPTURE

Reads a capture and writes a line of text for each of its frames, up to the first
bad line. A frame stands in a line of its own, in hexadecimal digits, two an octet,
and nothing else; lines that are empty or begin with # are skipped.

Example:

  $ echo 8113010a3c0015ce58044700270104470027026869 | clnp show
  clnp dt e life=10 sum=ce58 to=47002701 from=47002702 data=6869 rest=
";

const CHECK: &str = "\
clnp check < VECTORS

Reads vectors and writes for each whether it passes, up to the first bad line, and
at the end how many passed and failed. A vector is a frame in hexadecimal digits,
then \" => \", then the line that show must write for it; lines that are empty or
begin with # are skipped. Vectors that fail don't change the exit number.

Example:

  $ echo '83 => alien' | clnp check
  1 pass
  passed 1 failed 0
";

const PACK: &str = "\
clnp pack < SHOWN

Reads lines of text as clnp show writes them and writes the frame that each of them
shows, in hexadecimal digits, up to the first line that shows no accepted frame;
lines that are empty or begin with # are skipped. Each checksum must be right: show
a frame, change a line, and the line is refused where it is no frame's any more.

Example:

  $ echo 'rd hold=120 sum=adc8 to=47002701 via=02 title= rest=' | clnp pack
  82110100060078adc80447002701010200
";

const PCAP_SHOW: &str = "\
clnp pcap-show < FILE

Reads an Ethernet capture in a pcap file, as tcpdump -w and tshark -F pcap write it,
of up to 1,073,741,824 octets, and writes a line for each record while it reads: its
number, from 1, then other, or cut, or the destination, the source and the line that
shows the OSI PDU in it. It stops at the first fault of the file.

Example:

  $ clnp pcap-show < hello.pcap
  1 is 0a0000000001 esh hold=120 sum=324b addr=47002702 rest=

where hello.pcap is what the example of clnp pcap-make --help makes.
";

const PCAP_MAKE: &str = "\
clnp pcap-make < LINES

Reads lines SECONDS DST SRC HEX and writes a pcap file with an Ethernet frame for each,
up to the first bad line: the second at which it came, its destination (es, is, or six
octets in hexadecimal digits), its source, and the OSI PDU in it, of up to 1,497
octets. Lines that are empty or begin with # are skipped.

Example:

  $ echo '0 is 0a0000000001 820f0100020078324b010447002702' | clnp pcap-make > hello.pcap
";

const PCAP_LINES: &str = "\
clnp pcap-lines < FILE

Reads an Ethernet capture as clnp pcap-show does and writes for each record with an OSI
PDU the line of which clnp pcap-make makes its frame, and for every other record a
remark: # N other, # N cut, or # N empty where the PDU has no octets.

Example:

  $ clnp pcap-lines < hello.pcap
  0 is 0a0000000001 820f0100020078324b010447002702
";

const REASSEMBLE: &str = "\
clnp reassemble < TEXT

Reads captured frames with the moment of each, and writes what comes of each of them:
the units that their segments make, and what is held, repeated or refused. Sources
that have a share have reassembly buffers of their own, so that nothing that comes
from others takes them. Nothing is written before the whole text was accepted.

Example:

  $ clnp reassemble < traffic.txt
  3 unit 47002702 47002701 dt 6869
  end 1

where traffic.txt is

  clnp-reassemble 1
  others 1 4 512 10
  share 47002702 1 4 512
  frames
  3 8113010a3c0015ce58044700270104470027026869
  end
";

const MIGRATE: &str = "\
clnp migrate < SCENARIO

Reads a scenario text of version 1 and writes the same scenario in version 2, with
each setting said. Its journal is the same. A bad line is told on standard error.

Example:

  $ clnp migrate < hi.txt | head -n 2
  clnp-sim 2
  limits 256 60 320 0

where hi.txt is the scenario at the end of clnp --help.
";

const STORM: &str = "\
clnp storm SEED

Reads nothing. Runs the scenario that the seed makes, four hosts and two routers
with some 600 events, and writes one line of what its journal counts. A seed is a
decimal number below 2^64; the same seed always gives the same line.

Example:

  $ clnp storm 1
  storm 1 events 577 copies 1315 got 88 reports 84 echoed 13 drops 116 expired 6 end 399

that is how many event lines and copies there were, how many lines of each kind the
journal has, and the clock at its end, in ticks of half a second.
";

const RUN: &str = "\
clnp run --turns N LINK.. < SCENARIO

Reads a scenario of one system and runs that system over links, one for each of its
ports in their order, for N turns, 1 to 1,000,000,000; it writes the system's journal
while it runs. In a turn it reads the clock, which ticks twice a second from 0 on, does
the events that are due, which are send, echo and tick alone, and looks once at each
link. There are up to 8 links: udp:A.B.C.D:P is one that receives at this address and
port, and behind it stand up to 16 peers, as ,hA.B.C.D:P for a host and ,rA.B.C.D:P for
a router, who get the frames for all of them. A frame is a datagram, and a system's
subnetwork address is the six octets of its address and port. Where a link fails the
node goes on with the others.

Example:

  $ clnp run --turns 1 udp:127.0.0.1:7001,h127.0.0.1:7002 < one.txt
  0 a sent dt 1 - 47002702 47002701 2
  0 a tx 1 0 es 8113010a3c0015ce58044700270104470027026869
  end 0 1

where one.txt is

  clnp-sim 1
  subnet lan 1500
  system a host hello=0
  address a 47002702
  port a 0 lan 7f0000011b59
  events
  send a 47002702 47002701 hex:6869 life=10 whole
  end
";

/// The page of the command of a name.
pub(crate) fn page_of(name: &str) -> Option<&'static str>
    ensures { option_copied result ≡ page_among commands name.now }
{
    if name == "sim" {
        Some(sim())
    } else if name == "trace" {
        Some(trace())
    } else if name == "show" {
        Some(show())
    } else if name == "check" {
        Some(check())
    } else if name == "pack" {
        Some(pack())
    } else if name == "pcap-show" {
        Some(pcap_show())
    } else if name == "pcap-make" {
        Some(pcap_make())
    } else if name == "pcap-lines" {
        Some(pcap_lines())
    } else if name == "reassemble" {
        Some(reassemble())
    } else if name == "migrate" {
        Some(migrate())
    } else if name == "storm" {
        Some(storm())
    } else if name == "run" {
        Some(run())
    } else {
        None
    }
}

/// The answer to `sim --help`.
fn sim() -> &'static str
    ensures { result.now ≡ page_text sim_form }
{
    SIM
}

/// The answer to `trace --help`.
fn trace() -> &'static str
    ensures { result.now ≡ page_text trace_form }
{
    TRACE
}

/// The answer to `show --help`.
fn show() -> &'static str
    ensures { result.now ≡ page_text show_form }
{
    SHOW
}

/// The answer to `check --help`.
fn check() -> &'static str
    ensures { result.now ≡ page_text check_form }
{
    CHECK
}

/// The answer to `pack --help`.
fn pack() -> &'static str
    ensures { result.now ≡ page_text pack_form }
{
    PACK
}

/// The answer to `pcap-show --help`.
fn pcap_show() -> &'static str
    ensures { result.now ≡ page_text pcap_show_form }
{
    PCAP_SHOW
}

/// The answer to `pcap-make --help`.
fn pcap_make() -> &'static str
    ensures { result.now ≡ page_text pcap_make_form }
{
    PCAP_MAKE
}

/// The answer to `pcap-lines --help`.
fn pcap_lines() -> &'static str
    ensures { result.now ≡ page_text pcap_lines_form }
{
    PCAP_LINES
}

/// The answer to `reassemble --help`.
fn reassemble() -> &'static str
    ensures { result.now ≡ page_text reassemble_form }
{
    REASSEMBLE
}

/// The answer to `migrate --help`.
fn migrate() -> &'static str
    ensures { result.now ≡ page_text migrate_form }
{
    MIGRATE
}

/// The answer to `storm --help`.
fn storm() -> &'static str
    ensures { result.now ≡ page_text storm_form }
{
    STORM
}

/// The answer to `run --help`.
fn run() -> &'static str
    ensures { result.now ≡ page_text run_form }
{
    RUN
}
