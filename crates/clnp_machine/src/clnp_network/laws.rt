//! Laws of runs and their journals. Each is the clause of a function that does nothing; one that calls others has their
//! clauses for its proof.
ghost use Rattle.std.specs.Prelude.{◌≡◌, ◌<◌, ◌≤◌, ◌++◌, ℕ, List, None, Some, length, slice_get};
ghost use Rattle.std.specs.List.{flat_map, list_any};
ghost use Rattle.clnp_plan.specs.Journal.{Noted, Resized};
ghost use Rattle.clnp_plan.specs.declared.config.Limits.{Limits};
ghost use Rattle.clnp_plan.specs.declared.config.PortConfig.{PortConfig};
ghost use Rattle.clnp_plan.specs.declared.config.Role.TheVariants.{Host, Router};
ghost use Rattle.clnp_plan.specs.declared.note.Note.TheVariants as note;
ghost use Rattle.clnp_plan.specs.Forwarding.Distinct.{has_prefix};
ghost use Rattle.clnp_plan.specs.Forwarding.Setting.{set_in, without};
ghost use Rattle.clnp_plan.specs.SystemTables.declared.forwarding.route.Route.{Route};
ghost use Rattle.clnp_machine.specs.System.{SystemState};
ghost use Rattle.clnp_plan.specs.ScenarioPlan.Migrated.{migrated};
ghost use Rattle.clnp_plan.specs.ScenarioPlan.Plan.{Plan, Subnetwork};
ghost use Rattle.clnp_plan.specs.declared.scenario_plan.event.Event.{Event};
ghost use Rattle.clnp_plan.specs.declared.scenario_plan.event.Event.TheVariants as event;
ghost use Rattle.clnp_plan.specs.declared.scenario_plan.event.Move.{Move};
ghost use Rattle.clnp_machine.specs.ClnpNetwork.Changed.{ChangesNetwork, KeepsAttachments, KeepsTraffic, with_frames, with_moved, with_routes, with_system};
ghost use Rattle.clnp_machine.specs.ClnpNetwork.LabelledNetwork.{LabelledNetwork, event_happens, nothing, writes};
ghost use Rattle.clnp_machine.specs.ClnpNetwork.Run.{ending, entries_of, entry_text, entry_trace, entry_without, journal, last_world, moves_made, moves_of_plan, run, stopped_at, text_of, trace};

/// The journal of a scenario is the text of its run, each line of each entry in order, and then the last line, where the run
/// wasn't stopped. So is the text of whatever moves that of their entries.
pub fn the_journal_is_the_text_of_the_run()
    ensures journal { (plan : Plan)
        → journal plan ≡ flat_map entry_text (run plan) ++ ending (stopped_at plan) (last_world plan) }
    ensures moves { (plan : Plan) (w : LabelledNetwork) (moves : List Move)
        → text_of plan w moves ≡ flat_map entry_text (entries_of plan w moves) }
{}

/// The trace of a scenario is the text of its run, each line of each entry in order, and then the last line, where the run
/// wasn't stopped. Without the lines that tell what becomes of copies it is the journal.
pub fn the_trace_without_its_own_lines_is_the_journal()
    ensures trace { (plan : Plan) → trace plan ≡ flat_map entry_trace (run plan) ++ ending (stopped_at plan) (last_world plan) }
    ensures journal { (plan : Plan)
        → flat_map entry_without (run plan) ++ ending (stopped_at plan) (last_world plan) ≡ journal plan }
{}

/// A scenario of version 1 runs in version 2 as it did: the same moves are called for and made, each writes the same lines, the
/// network is the same at the end, and so is the journal.
pub fn migrated_scenarios_run_alike()
    ensures moves { (plan : Plan) → moves_of_plan (migrated plan) ≡ moves_of_plan plan }
    ensures made { (plan : Plan) → moves_made (migrated plan) ≡ moves_made plan }
    ensures run { (plan : Plan) → run (migrated plan) ≡ run plan }
    ensures world { (plan : Plan) → last_world (migrated plan) ≡ last_world plan }
    ensures stopped { (plan : Plan) → stopped_at (migrated plan) ≡ stopped_at plan }
    ensures journal { (plan : Plan) → journal (migrated plan) ≡ journal plan }
{}

/// After the event `mtu` the subnetwork takes frames of so many octets, and so does each port of each system exactly where it is
/// on it; all else is as before, and the network's line tells of it. A subnetwork that isn't there changes nothing.
pub fn an_mtu_comes_to_the_ports_on_its_subnetwork()
    ensures there { (subnets : List Subnetwork) (limits : Limits) (w : LabelledNetwork) (subnet mtu : ℕ) (declared : Subnetwork)
        → slice_get subnets subnet ≡ Some declared
        → event_happens subnets limits w (Some (event.Mtu subnet mtu))
        ≡ writes (with_frames subnet mtu w) (Resized w.clock declared.name mtu) }
    ensures absent { (subnets : List Subnetwork) (limits : Limits) (w : LabelledNetwork) (subnet mtu : ℕ)
        → slice_get subnets subnet ≡ None
        → event_happens subnets limits w (Some (event.Mtu subnet mtu)) ≡ nothing w }
{}

/// After the event `port` the port is at that address on that subnetwork, and takes frames as long as this does now; its transit
/// stays, the system's next hello is due, all else is as before, and a line of the system tells of it. Where the subnetwork, the
/// system or the port isn't there, nothing changes.
pub fn a_port_comes_to_its_subnetwork()
    ensures there { (subnets : List Subnetwork) (limits : Limits) (w : LabelledNetwork) (place number subnet mtu : ℕ) (snpa : List ℕ) (declared : Subnetwork)
        (s : SystemState) (port : PortConfig) → slice_get subnets subnet ≡ Some declared
        → slice_get w.mtus subnet ≡ Some mtu
        → slice_get w.systems place ≡ Some s → slice_get s.attached.ports number ≡ Some port
        → event_happens subnets limits w (Some (event.Port place number subnet snpa))
        ≡ writes (with_system place (with_moved number subnet mtu snpa port s) w)
        (Noted s.moment s.configuration.name (note.Port number declared.name snpa)) }
    ensures no_subnetwork { (subnets : List Subnetwork) (limits : Limits) (w : LabelledNetwork) (place number subnet : ℕ) (snpa : List ℕ)
        → slice_get subnets subnet ≡ None
        → event_happens subnets limits w (Some (event.Port place number subnet snpa)) ≡ nothing w }
    ensures no_system { (subnets : List Subnetwork) (limits : Limits) (w : LabelledNetwork) (place number subnet : ℕ) (snpa : List ℕ)
        → slice_get w.systems place ≡ None
        → event_happens subnets limits w (Some (event.Port place number subnet snpa)) ≡ nothing w }
    ensures no_port { (subnets : List Subnetwork) (limits : Limits) (w : LabelledNetwork) (place number subnet : ℕ) (snpa : List ℕ) (s : SystemState)
        → slice_get w.systems place ≡ Some s → slice_get s.attached.ports number ≡ None
        → event_happens subnets limits w (Some (event.Port place number subnet snpa)) ≡ nothing w }
{}

/// After the event `route` a router has the route, and no other one of its prefix; all else is as before, and a line of the router
/// tells of it. Nothing changes where the router isn't there, is a host, or has no such port.
pub fn a_route_comes_to_its_router()
    ensures there { (subnets : List Subnetwork) (limits : Limits) (w : LabelledNetwork) (place : ℕ) (route : Route) (s : SystemState)
        → slice_get w.systems place ≡ Some s → s.configuration.role ≡ Router → route.port < length s.attached.ports
        → event_happens subnets limits w (Some (event.Route place route))
        ≡ writes (with_system place (with_routes (set_in route s.attached.routes) s) w) (Noted s.moment s.configuration.name (note.Route route.prefix)) }
    ensures no_system { (subnets : List Subnetwork) (limits : Limits) (w : LabelledNetwork) (place : ℕ) (route : Route)
        → slice_get w.systems place ≡ None
        → event_happens subnets limits w (Some (event.Route place route)) ≡ nothing w }
    ensures host { (subnets : List Subnetwork) (limits : Limits) (w : LabelledNetwork) (place : ℕ) (route : Route) (s : SystemState)
        → slice_get w.systems place ≡ Some s → s.configuration.role ≡ Host
        → event_happens subnets limits w (Some (event.Route place route)) ≡ nothing w }
    ensures no_port { (subnets : List Subnetwork) (limits : Limits) (w : LabelledNetwork) (place : ℕ) (route : Route) (s : SystemState)
        → slice_get w.systems place ≡ Some s → length s.attached.ports ≤ route.port
        → event_happens subnets limits w (Some (event.Route place route)) ≡ nothing w }
{}

/// After the event `unroute` a router has no route of the prefix; all else is as before, and a line of the router tells whether
/// it had one. Nothing changes where the router isn't there, or is a host.
pub fn a_route_leaves_its_router()
    ensures there { (subnets : List Subnetwork) (limits : Limits) (w : LabelledNetwork) (place : ℕ) (prefix : List ℕ) (s : SystemState)
        → slice_get w.systems place ≡ Some s → s.configuration.role ≡ Router
        → event_happens subnets limits w (Some (event.Unroute place prefix))
        ≡ writes (with_system place (with_routes (without prefix s.attached.routes) s) w)
        (Noted s.moment s.configuration.name (note.Unroute prefix (list_any (has_prefix prefix) s.attached.routes))) }
    ensures no_system { (subnets : List Subnetwork) (limits : Limits) (w : LabelledNetwork) (place : ℕ) (prefix : List ℕ) → slice_get w.systems place ≡ None
        → event_happens subnets limits w (Some (event.Unroute place prefix)) ≡ nothing w }
    ensures host { (subnets : List Subnetwork) (limits : Limits) (w : LabelledNetwork) (place : ℕ) (prefix : List ℕ) (s : SystemState)
        → slice_get w.systems place ≡ Some s → s.configuration.role ≡ Host
        → event_happens subnets limits w (Some (event.Unroute place prefix)) ≡ nothing w }
{}

/// What systems heard, keep and wait for, their moments and identifiers, and all units, copies, the cursor and the clock stay as they are where
/// an event changes the network, whatever the network and whatever the event names.
pub fn changes_leave_the_traffic()
    ensures { (subnets : List Subnetwork) (limits : Limits) (w : LabelledNetwork) (changing : Event)
        → ChangesNetwork changing
        → KeepsTraffic w (event_happens subnets limits w (Some changing)).world }
{}

/// A restart leaves the ports and routes of each system as they are, and what each subnetwork takes.
pub fn a_restart_leaves_ports_and_routes()
    ensures { (subnets : List Subnetwork) (limits : Limits) (w : LabelledNetwork) (place : ℕ)
        → KeepsAttachments w (event_happens subnets limits w (Some (event.Restart place))).world }
{}
