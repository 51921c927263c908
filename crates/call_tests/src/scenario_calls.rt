use crate::seeing::see;
use scenario::scenario_writing::scenarios::base::lines;
use scenario::scenario_writing::scenarios::system_plan::{Limits, PortConfig, Role, SystemConfig};
use scenario::scenario_writing::scenarios::{
    Body, Event, Scenario, ScenarioRefusal, Subnet, read, read_for_run, read_version_1,
};
use scenario::scenario_writing::{from_seed, migrate, write};
use std::alloc::Global;
use std::mem::forget;
use std::process::Abort;

const TEXT: &[u8] = b"# two subnetworks

clnp-sim 1
subnet lan 1500
# hosts
system a host hello=0
system b host life=7 checksum=off rhold=0 hello=0 slots=1024 segments=1 budget=512 neighbours=2 routers=3 redirects=4
subnet wan 512
address a 4701
address b 47.02
address b 4703
port a 0 lan 01

port b 0 wan 01 255
limits 4 2 6
events
# what happens
send a 4701 4702 hex:6869
send b 4703 4701 hex: noreport whole opt=
send b 4702 4701 pat:70000:255 opt=c501c0cd0105 life=9
deliver 3 b
settle 2

lose 5
tick 65535
restart b
end

# nothing more
";

const ROUTER: &[u8] = b"clnp-sim 1
subnet one 1500
subnet two 512
system r router suggest=30
port r 1 two 0b
port r 0 one 0a
address r 470027ff
events
end
";

/// What `write` makes of the first one.
const TEXT_WRITTEN: &[u8] = b"clnp-sim 1
limits 4 2 6
subnet lan 1500
subnet wan 512
system a host hello=0 suggest=0 rhold=120 slots=16 segments=1024 budget=262144 neighbours=64 routers=8 redirects=64 life=64 checksum=on
system b host hello=0 suggest=0 rhold=0 slots=1024 segments=1 budget=512 neighbours=2 routers=3 redirects=4 life=7 checksum=off
address a 4701
port a 0 lan 01 1
address b 4702
address b 4703
port b 0 wan 01 255
events
send a 4701 4702 hex:6869 life=64
send b 4703 4701 hex: life=7 noreport whole
send b 4702 4701 pat:70000:255 life=9 opt=c501c0cd0105
deliver 3 b
settle 2
lose 5
tick 65535
restart b
end
";

/// What `write` makes of the router's.
const ROUTER_WRITTEN: &[u8] = b"clnp-sim 1
limits 256 60 320
subnet one 1500
subnet two 512
system r router hello=60 suggest=30 rhold=120 slots=16 segments=1024 budget=262144 neighbours=64 routers=8 redirects=64 life=64 checksum=on
address r 470027ff
port r 0 one 0a 1
port r 1 two 0b 1
events
end
";

const TWO_HOSTS: &[u8] = b"# two hosts on one subnetwork
clnp-sim 1
subnet lan 1500
system a host hello=0
system b host hello=0
address a 47002702
address b 47002701
port a 0 lan 01
port b 0 lan 02
events
tick 1
end
";

/// What `write` makes of it.
const TWO_HOSTS_WRITTEN: &[u8] = b"clnp-sim 1
limits 256 60 320
subnet lan 1500
system a host hello=0 suggest=0 rhold=120 slots=16 segments=1024 budget=262144 neighbours=64 routers=8 redirects=64 life=64 checksum=on
system b host hello=0 suggest=0 rhold=120 slots=16 segments=1024 budget=262144 neighbours=64 routers=8 redirects=64 life=64 checksum=on
address a 47002702
port a 0 lan 01 1
address b 47002701
port b 0 lan 02 1
events
tick 1
end
";

/// What it becomes in version 2, in which it is written alike.
const TWO_HOSTS_MIGRATED: &[u8] = b"clnp-sim 2
limits 256 60 320 0
subnet lan 1500
system a host hello=0 suggest=0 rhold=120 slots=16 segments=1024 budget=262144 neighbours=64 routers=8 redirects=64 life=64 checksum=on
system b host hello=0 suggest=0 rhold=120 slots=16 segments=1024 budget=262144 neighbours=64 routers=8 redirects=64 life=64 checksum=on
address a 47002702
port a 0 lan 01 1
address b 47002701
port b 0 lan 02 1
events
tick 1
end
";

/// A network that changes.
const CHANGING: &[u8] = b"clnp-sim 2
limits 4 2 10 2
subnet one 1500
subnet two 512
subnet three 600
system a host hello=0
system r router hello=0
address a 4701
address r 47ff
port a 0 one 01
port r 0 one 0a
port r 1 two 0b
route r 48 1 0c 48ff
events
mtu one 65535
route r 4.8A 0 01 4701
route r * 1 0D 48fe
port r 1 two 0B
port r 0 three 0a
port a 0 three 02
unroute r 48
unroute r 48
tick r 2
tick a 4
tick 3
end
";

/// What `write` makes of it.
const CHANGING_WRITTEN: &[u8] = b"clnp-sim 2
limits 4 2 10 2
subnet one 1500
subnet two 512
subnet three 600
system a host hello=0 suggest=0 rhold=120 slots=16 segments=1024 budget=262144 neighbours=64 routers=8 redirects=64 life=64 checksum=on
system r router hello=0 suggest=0 rhold=120 slots=16 segments=1024 budget=262144 neighbours=64 routers=8 redirects=64 life=64 checksum=on
address a 4701
port a 0 one 01 1
address r 47ff
port r 0 one 0a 1
port r 1 two 0b 1
route r 48 1 0c 48ff
events
mtu one 65535
route r 48a 0 01 4701
route r * 1 0d 48fe
port r 1 two 0b
port r 0 three 0a
port a 0 three 02
unroute r 48
unroute r 48
tick r 2
tick a 4
tick 3
end
";

/// The answer to a text, which is short.
fn answer(rt: &impl Abort, alloc: Global, text: &[u8]) -> Result<Scenario, ScenarioRefusal> {
    let _lines = lines(text);
    assert!(rt; text.len() <= 4_000_000);
    read(alloc, text)
}

/// The scenario of a text.
fn scenario_of(rt: &impl Abort, alloc: Global, text: &[u8]) -> Scenario {
    answer(rt, alloc, text).expect(rt, "a scenario")
}

/// What is written of what is read of a text.
fn written(rt: &impl Abort, alloc: Global, text: &[u8]) -> Vec<u8> {
    written_of(rt, alloc, scenario_of(rt, alloc, text))
}

/// What is written of a scenario.
fn written_of(rt: &impl Abort, alloc: Global, scenario: Scenario) -> Vec<u8> {
    let mut out = Vec::new(alloc);
    write(alloc, &scenario, &mut out).expect(rt, "memory");
    forget(scenario);
    out
}

/// Sees what is written of what is read of a text.
fn see_written(rt: &impl Abort, alloc: Global, text: &[u8], wanted: &[u8]) {
    assert!(rt; written(rt, alloc, text).as_slice() == wanted);
}

#[test]
fn writes_what_was_read(rt: HostRuntime) {
    let alloc = rt.alloc();
    see_written(&rt, alloc, TEXT, TEXT_WRITTEN);
    see_written(&rt, alloc, ROUTER, ROUTER_WRITTEN);
    see_written(&rt, alloc, TWO_HOSTS, TWO_HOSTS_WRITTEN);
    see_written(&rt, alloc, TWO_HOSTS_MIGRATED, TWO_HOSTS_MIGRATED);
    see_written(&rt, alloc, CHANGING, CHANGING_WRITTEN);
    see_written(&rt, alloc, CHANGING_WRITTEN, CHANGING_WRITTEN);
}

/// What migration makes of a text, which is short.
fn migrated(rt: &impl Abort, alloc: Global, text: &[u8]) -> Result<Vec<u8>, ScenarioRefusal> {
    let _lines = lines(text);
    assert!(rt; text.len() <= 4_000_000);
    migrate(alloc, text)
}

/// Sees what migration makes of a text of version 1.
fn see_migrated(rt: &impl Abort, alloc: Global, text: &[u8], wanted: &[u8]) {
    let found = migrated(rt, alloc, text).expect(rt, "a text of version 1");
    assert!(rt; found.as_slice() == wanted);
}

#[test]
fn migrates_texts_of_version_1_alone(rt: HostRuntime) {
    see_migrated(&rt, rt.alloc(), TWO_HOSTS, TWO_HOSTS_MIGRATED);
    let refusal = ScenarioRefusal::BadLine { line: 1, code: 1 };
    assert!(rt; migrated(&rt, rt.alloc(), TWO_HOSTS_MIGRATED).err() == Some(refusal));
}

/// The scenario of a text of version 1, which is short.
fn first_version_of(rt: &impl Abort, alloc: Global, text: &[u8]) -> Scenario {
    let _lines = lines(text);
    assert!(rt; text.len() <= 4_000_000);
    read_version_1(alloc, text).expect(rt, "a scenario of version 1")
}

#[test]
fn tells_the_version(rt: HostRuntime) {
    let scenario = first_version_of(&rt, rt.alloc(), TWO_HOSTS);
    assert!(rt; scenario.version() == 1);
    let scenario = scenario.migrate();
    see(&rt, scenario.version() == 2, "version 2");
    see(&rt, scenario.limits().skew == 0, "clocks that agree");
    forget(scenario);
}

/// What a host on a board of one link declares, up to `events`.
const HOST_DECLARED: &[u8] = b"clnp-sim 1
subnet lan 1500
system a host hello=0
address a 47002702
port a 0 lan 01
events
";

/// The same with what it is asked.
const HOST: &[u8] = b"clnp-sim 1
subnet lan 1500
system a host hello=0
address a 47002702
port a 0 lan 01
events
send a 47002702 47002701 hex:6869
tick 320
echo a 47002702 47002701 hex:
end
";

/// What `write` makes of it.
const HOST_WRITTEN: &[u8] = b"clnp-sim 1
limits 256 60 320
subnet lan 1500
system a host hello=0 suggest=0 rhold=120 slots=16 segments=1024 budget=262144 neighbours=64 routers=8 redirects=64 life=64 checksum=on
address a 47002702
port a 0 lan 01 1
events
send a 47002702 47002701 hex:6869 life=64
tick 320
echo a 47002702 47002701 hex:
end
";

const NO_SYSTEM: &[u8] = b"clnp-sim 1
subnet lan 1500
events
end
";

/// Neither limits, which version 2 wants, nor a system.
const NO_LIMITS: &[u8] = b"clnp-sim 2
events
end
";

/// The answer to a text for a live node on a board of so many links. The text is short.
fn answer_for_run(
    rt: &impl Abort,
    alloc: Global,
    text: &[u8],
    links: usize,
) -> Result<Scenario, ScenarioRefusal> {
    let _lines = lines(text);
    assert!(rt; text.len() <= 4_000_000);
    read_for_run(alloc, text, links)
}

/// What is written of what is read of it.
fn written_for_run(rt: &impl Abort, alloc: Global, text: &[u8], links: usize) -> Vec<u8> {
    let scenario = answer_for_run(rt, alloc, text, links).expect(rt, "a scenario for a live node");
    written_of(rt, alloc, scenario)
}

/// Sees what is written of what is read of it.
fn see_written_for_run(rt: &impl Abort, alloc: Global, text: &[u8], links: usize, wanted: &[u8]) {
    assert!(rt; written_for_run(rt, alloc, text, links).as_slice() == wanted);
}

#[test]
fn reads_for_a_live_node(rt: HostRuntime) {
    see_written_for_run(&rt, rt.alloc(), HOST, 1, HOST_WRITTEN);
    see_written_for_run(&rt, rt.alloc(), ROUTER, 2, ROUTER_WRITTEN);
}

/// Sees at which line a text for a board of so many links is refused, and with which code.
fn see_refused(rt: &impl Abort, alloc: Global, text: &[u8], links: usize, line: u32, code: u8) {
    let refusal = ScenarioRefusal::BadLine { line, code };
    assert!(rt; answer_for_run(rt, alloc, text, links).err() == Some(refusal));
}

/// Texts that don't fit a board of so many links.
#[test]
fn refuses_what_fits_no_board(rt: HostRuntime) {
    let alloc = rt.alloc();
    see_refused(&rt, alloc, HOST, 0, 6, 10);
    see_refused(&rt, alloc, HOST, 2, 6, 10);
    see_refused(&rt, alloc, ROUTER, 1, 8, 10);
    see_refused(&rt, alloc, ROUTER, 3, 8, 10);
    see_refused(&rt, alloc, TWO_HOSTS, 1, 10, 10);
    see_refused(&rt, alloc, TWO_HOSTS, 2, 10, 10);
    see_refused(&rt, alloc, NO_SYSTEM, 0, 3, 10);
    see_refused(&rt, alloc, NO_LIMITS, 0, 2, 2);
}

/// A text of a host in which a tick passes, and this happens then.
fn host_with(rt: &impl Abort, alloc: Global, event: &str) -> Vec<u8> {
    let mut text = Vec::from_slice(alloc, HOST_DECLARED).expect(rt, "memory");
    text.extend_from_slice(b"tick 1\n").expect(rt, "memory");
    text.extend_from_slice(event.as_bytes())
        .expect(rt, "memory");
    text.extend_from_slice(b"\nend\n").expect(rt, "memory");
    text
}

/// Sees that this event is refused.
fn see_event_refused(rt: &impl Abort, alloc: Global, event: &str) {
    let text = host_with(rt, alloc, event);
    see_refused(rt, alloc, &text, 1, 8, 2);
}

#[test]
fn refuses_events_of_networks(rt: HostRuntime) {
    let alloc = rt.alloc();
    see_event_refused(&rt, alloc, "deliver 1 a");
    see_event_refused(&rt, alloc, "settle 1");
    see_event_refused(&rt, alloc, "lose 1");
    see_event_refused(&rt, alloc, "restart a");
    see_event_refused(&rt, alloc, "congest a on");
    see_event_refused(&rt, alloc, "inject lan 05 is 81");
}

/// Sees the octets of what is sent.
fn see_octets(rt: &impl Abort, alloc: Global, body: &Body, octets: &[u8]) {
    let found = body.octets(alloc).expect(rt, "memory");
    assert!(rt; found.as_slice() == octets);
}

/// Sees the octets of what is sent first.
fn see_first_octets(rt: &impl Abort, alloc: Global, events: &[Event], octets: &[u8]) {
    let [Event::Send { body, .. }, ..] = events else {
        panic!(rt; "no send first");
    };
    see_octets(rt, alloc, body, octets);
}

#[test]
fn gives_the_octets_of_bodies(rt: HostRuntime) {
    let scenario = answer_for_run(&rt, rt.alloc(), HOST, 1).expect(&rt, "a scenario");
    see_first_octets(&rt, rt.alloc(), scenario.events(), b"hi");
    let pattern = Body::Pattern { len: 3, start: 254 };
    see_octets(&rt, rt.alloc(), &pattern, &[254, 255, 0]);
    forget(pattern);
    forget(scenario);
}

const LIMITS: Limits = Limits {
    age: 4,
    hold: 2,
    reuse: 6,
    skew: 0,
};

/// Sees the name and the MTU of a subnetwork.
fn see_subnet(rt: &impl Abort, subnet: &Subnet, name: &[u8], mtu: u16) {
    see(rt, subnet.name() == name, "its name");
    see(rt, subnet.mtu == mtu, "its MTU");
}

/// Sees the names and the MTUs of two subnetworks.
fn see_subnets(rt: &impl Abort, subnets: &[Subnet]) {
    let [lan, wan] = subnets else {
        panic!(rt; "not two subnetworks");
    };
    see_subnet(rt, lan, b"lan", 1500);
    see_subnet(rt, wan, b"wan", 512);
}

/// Sees the second host.
fn see_host(rt: &impl Abort, host: &SystemConfig) {
    see(rt, host.name() == b"b".as_slice(), "its name");
    see(rt, host.role() == Role::Host, "its role");
    see_port(rt, host.ports());
}

/// Sees the second of two systems.
fn see_systems(rt: &impl Abort, systems: &[SystemConfig]) {
    let [_, host] = systems else {
        panic!(rt; "not two systems");
    };
    see_host(rt, host);
}

/// Sees the port of a host, which has the MTU of its subnetwork.
fn see_port(rt: &impl Abort, ports: &[PortConfig]) {
    let [port] = ports else {
        panic!(rt; "not one port");
    };
    see(rt, port.subnet == 1, "its subnetwork");
    see(rt, port.mtu == 512, "its MTU");
}

#[test]
fn reads_what_is_declared(rt: HostRuntime) {
    let scenario = scenario_of(&rt, rt.alloc(), TEXT);
    see(&rt, *scenario.limits() == LIMITS, "its limits");
    see_subnets(&rt, scenario.subnets());
    see_systems(&rt, scenario.systems());
    forget(scenario);
}

/// Sees the first events of the scenario of the seed 0.
fn see_first_events(rt: &impl Abort, events: &[Event]) {
    let [
        Event::Tick { count: 1 },
        Event::Settle { count: 40 },
        Event::Lose { count: 5 },
        ..
    ] = events
    else {
        panic!(rt; "other events");
    };
}

#[test]
fn makes_the_scenario_of_a_seed(rt: HostRuntime) {
    let scenario = from_seed(rt.alloc(), 0).expect(&rt, "memory");
    see(&rt, scenario.systems().len() == 6, "six systems");
    see(&rt, scenario.events().len() == 582, "582 events");
    see_first_events(&rt, scenario.events());
    forget(scenario);
}

/// A text with a frame from outside of so many octets.
fn injection(rt: &impl Abort, alloc: Global, octets: usize) -> Vec<u8> {
    let front = b"clnp-sim 1\nsubnet lan 512\nevents\ninject lan 05 is ";
    let mut text = Vec::from_slice(alloc, front).expect(rt, "memory");
    for _ in 0..octets {
        text.extend_from_slice(b"81").expect(rt, "memory");
    }
    text.extend_from_slice(b"\nend\n").expect(rt, "memory");
    text
}

/// How many octets come from outside, where that is the only event.
fn injected(scenario: &Scenario) -> Option<usize> {
    let [Event::Inject { octets, .. }] = scenario.events() else {
        return None;
    };
    Some(octets.as_bytes().len())
}

#[test]
fn reads_frames_of_70000_octets(rt: HostRuntime) {
    let text = injection(&rt, rt.alloc(), 70_000);
    let scenario = scenario_of(&rt, rt.alloc(), &text);
    see(&rt, injected(&scenario) == Some(70_000), "70,000 octets");
    forget(scenario);
}

#[test]
fn refuses_longer_frames(rt: HostRuntime) {
    let text = injection(&rt, rt.alloc(), 70_001);
    let refusal = ScenarioRefusal::BadLine { line: 4, code: 10 };
    assert!(rt; answer(&rt, rt.alloc(), &text).err() == Some(refusal));
}
