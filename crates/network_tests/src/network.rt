//! A network of a host and a router, and what they give out.
ghost use Rattle.std.specs.Prelude.{◌≡◌, false};
ghost use Rattle.clnp_machine.specs.ClnpOptions.Grammar.{FitsKind};
ghost use Rattle.clnp_machine.specs.ClnpOptions.Parameter.{parameters};

use clnp_machine::nsaps::{Address, Prefix, Snpa, Target};
use clnp_machine::options::{OptionList, laws};
use clnp_machine::routing::Route;
use clnp_machine::system_plan::{Ask, Note, Output, PortConfig};
use scenario::base::lines;
use scenario::{Scenario, read};
use std::alloc::Global;
use std::process::Abort;

const TEXT: &[u8] = b"clnp-sim 1
limits 4 2 6
subnet lan 1500
system a host hello=0
system r router hello=0
address a 47002702
address r 470027ff
port a 0 lan 01
port r 0 lan 0a
route r 47002701 0 02 47002701
events
end
";

/// A data unit of the octets 68 69, with the lifetime 10 and no checksum, from 47002701 to 47002702.
pub const TO_THE_HOST: &[u8] =
    b"\x81\x13\x01\x0a\x3c\x00\x15\x00\x00\x04\x47\x00\x27\x02\x04\x47\x00\x27\x01hi";

/// The same from 47002702 to 47002701, with its checksum.
pub const FROM_THE_HOST: &[u8] =
    b"\x81\x13\x01\x0a\x3c\x00\x15\xce\x58\x04\x47\x00\x27\x01\x04\x47\x00\x27\x02hi";

/// The same one hop later.
pub const FROM_THE_ROUTER: &[u8] =
    b"\x81\x13\x01\x09\x3c\x00\x15\xd3\x54\x04\x47\x00\x27\x01\x04\x47\x00\x27\x02hi";

/// The scenario of the network.
pub fn scenario_of(rt: &impl Abort, alloc: Global) -> Scenario {
    let _lines = lines(TEXT);
    read(alloc, TEXT).expect(rt, "a scenario")
}

/// The address 470027 and one octet more.
pub fn address(rt: &impl Abort, last: u8) -> Address {
    Address::from_bytes(&[0x47, 0, 0x27, last]).expect(rt, "an address")
}

/// How a unit of lifetime 10 is to be sent, whole and without options.
pub fn asking(rt: &impl Abort) -> Ask
    ensures { FitsKind false (parameters result.options) }
{
    laws::spelled_where_no_rule_is_broken();
    let Ok(options) = OptionList::from_bytes(b"") else {
        panic!(rt; "no options");
    };
    Ask {
        life: 10,
        report: true,
        segment: false,
        options,
    }
}

/// A port on another subnetwork, at the address 03 there.
pub fn moved_port(rt: &impl Abort) -> PortConfig
    ensures transit { result.transit ≡ 3 }
    ensures mtu { result.mtu ≡ 1000 }
{
    PortConfig {
        subnet: 1,
        snpa: Snpa::from_bytes(&[3]).expect(rt, "an address"),
        transit: 3,
        mtu: 1_000,
    }
}

/// Sees that the one port is the one that moved, and takes frames of so many octets.
pub fn see_port(rt: &impl Abort, ports: &[PortConfig], mtu: u16) {
    assert!(rt; ports.len() == 1);
    let port = &ports[0];
    assert!(rt; port.subnet == 1 && port.transit == 3);
    assert!(rt; port.snpa.as_bytes() == b"\x03".as_slice());
    assert!(rt; port.mtu == mtu);
}

/// The route of a prefix by port 0, to the system at the address 04.
pub fn route_to(rt: &impl Abort, prefix: &[u8]) -> Route
    ensures { result.port ≡ 0 }
{
    Route {
        prefix: prefix_of(rt, prefix),
        port: 0,
        snpa: Snpa::from_bytes(&[4]).expect(rt, "an address"),
        title: address(rt, 4),
    }
}

/// The prefix of some digits.
pub fn prefix_of(rt: &impl Abort, digits: &[u8]) -> Prefix {
    Prefix::from_text(digits).expect(rt, "a prefix")
}

/// Sees that a frame goes out: by port 0, of these octets, the header in the frame's value itself.
pub fn see_frame(rt: &impl Abort, output: Option<&Output>, to: Target, head: &[u8], body: &[u8]) {
    let Some(Output::Transmit(sending)) = output else {
        panic!(rt; "no frame");
    };
    assert!(rt; sending.port == 0);
    assert!(rt; sending.to == to);
    let (front, behind) = sending.frame.parts();
    assert!(rt; front == head);
    assert!(rt; behind == body);
}

/// Sees that a unit is noted as sent, with this number.
pub fn see_sent(rt: &impl Abort, output: Option<&Output>, number: u64) {
    let Some(Output::Note(Note::Sent { unit, .. })) = output else {
        panic!(rt; "no unit");
    };
    assert!(rt; *unit == number);
}

/// Sees that a data unit of the octets 68 69 is handed up.
pub fn see_got(rt: &impl Abort, output: Option<&Output>) {
    let Some(Output::Note(Note::Got { octets, .. })) = output else {
        panic!(rt; "nothing is handed up");
    };
    assert!(rt; octets.as_bytes() == b"hi".as_slice());
}
