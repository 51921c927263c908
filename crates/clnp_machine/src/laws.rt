//! Laws of one step of a system: each holds for every state and whatever comes, and its function
//! does nothing; one that calls others has their clauses for its proof.
ghost use Rattle.std.specs.Prelude.{All, Bool, false, true, ◌≡◌, ◌≢◌, ◌==◌, ◌&&◌, ◌↔◌, ◌⊎◌, ◌<◌, ◌≤◌, ◌+◌, ◌*◌, ◌-◌, ℕ, IsTrue, None, Some, List, [], ◌∷◌, ◌++◌, length, map, not, option_map, slice_get};
ghost use Rattle.std.specs.List.{AllByRecursion, Contains, filter, flat_map, list_any};
ghost use Rattle.hex.specs.Hex.{IsBytes};
ghost use Rattle.clnp_plan.specs.Pdus.declared.pdu_header.kind.Kind.{Kind};
ghost use Rattle.clnp_plan.specs.Pdus.declared.pdu_header.kind.Kind.TheVariants.{Dt, Er, Erp, Erq};
ghost use Rattle.clnp_plan.specs.PduHeader.Spelling.{header_length, type_code};
ghost use Rattle.clnp_plan.specs.PduHeader.Value.{PduValue};
ghost use Rattle.pdus.specs.MadePdus.Report.{report_of};
ghost use Rattle.pdus.specs.MadePdus.Reply.{reply_of};
ghost use Rattle.pdus.specs.MadePdus.Cut as segmenter;
ghost use Rattle.clnp_plan.specs.Nsap.Address.{IsAddress};
ghost use Rattle.clnp_plan.specs.Pdus.declared.nsap.target.Target.TheVariants.{System, EndSystems};
ghost use Rattle.clnp_plan.specs.ClnpOptions.Edits.{is_complete, target_of, value_of as option_value};
ghost use Rattle.clnp_plan.specs.ClnpOptions.Parameter.{Parameter};
ghost use Rattle.clnp_plan.specs.SystemTables.declared.forwarding.route.Route.{Route};
ghost use Rattle.clnp_plan.specs.Forwarding.Longest.{longest};
ghost use Rattle.clnp_plan.specs.PduHeader.Rules.{header_of, is_reportable, kind_of, octet, type_of};
ghost use Rattle.pdus.specs.EsisPdus.Grammar.{IsPdu};
ghost use Rattle.pdus.specs.EsisPdus.Spelling.{spelling};
ghost use Rattle.pdus.specs.EsisPdus.Value.{EsisValue};
ghost use Rattle.system_tables.specs.declared.reassembly.segment.Shape.{Shape};
ghost use Rattle.system_tables.specs.declared.reassembly.table.TableLimits.{TableLimits};
ghost use Rattle.system_tables.specs.Reassembly.Arrival.{Arrival};
ghost use Rattle.system_tables.specs.Reassembly.Buffer as buffer;
ghost use Rattle.system_tables.specs.Reassembly.Buffer.{Buffer, buffer_of, clashes, due, first_carried, held, without};
ghost use Rattle.clnp_plan.specs.Configuration.{IsAddressedRoute, IsPort, IsSystem};
ghost use Rattle.clnp_plan.specs.SystemTables.declared.esis_tables.fact.Neighbour.{Neighbour};
ghost use Rattle.clnp_plan.specs.SystemTables.declared.esis_tables.fact.TableKind.TheVariants.{Es, Rd};
ghost use Rattle.clnp_plan.specs.EsisTables.NextHop.{current_neighbour, last_router};
ghost use Rattle.clnp_plan.specs.EsisTables.Gone.{gone};
ghost use Rattle.clnp_plan.specs.declared.ask.Ask.{Ask};
ghost use Rattle.clnp_plan.specs.declared.config.Limits.{Limits};
ghost use Rattle.clnp_plan.specs.declared.config.PortConfig.{PortConfig};
ghost use Rattle.clnp_plan.specs.declared.config.Role.TheVariants.{Host, Router};
ghost use Rattle.clnp_plan.specs.declared.note.Note.TheVariants.{Crowded, Discard, Echoed, Expired, Interference, Many, NoSlot, Restart, Stray};
ghost use Rattle.clnp_machine.specs.Attachment.{IsAttached};
ghost use Rattle.clnp_machine.specs.Change.{Change, PortIsAt, changed};
ghost use Rattle.clnp_machine.specs.Identifiers.{Identifiers, not_drawn};
ghost use Rattle.clnp_machine.specs.Unit.{DataUnit, Packet, IsCarriable, cut, value_of, whole_packet, wire};
ghost use Rattle.clnp_machine.specs.Content.{Content, Esis, IsCarried, Labelled, Unlabelled, content_of, frame_of};
ghost use Rattle.clnp_machine.specs.Esis.{esis_comes, forgets, gone_note, hello_everywhere, own_hello, redirect, says_hello, tells_new, tells_of_itself, title_of};
ghost use Rattle.clnp_machine.specs.Local.{Action, Tells, and_then, at_moment, discard, discard_first, echo_ask, gives_up, header_size, is_all, is_replied, made_in, make, makes, receive, refusal, report_unit, takes_in, tells, tick, unit_of};
ghost use Rattle.clnp_machine.specs.System.{SystemState, Input, AsksForEcho, AsksToSend, FrameComes, IsChanged, IsRestarted, MomentComes, Notes, SendsEsis, Effect};
ghost use Rattle.clnp_plan.specs.PduHeader.Headers.{with_lifetime, with_options};
ghost use Rattle.clnp_machine.specs.EditLaws.{EditLaws};
ghost use Rattle.clnp_machine.specs.Edited.{AreEdited, Edit, with_edits};
ghost use Rattle.clnp_machine.specs.Step.{Hop, Way, first_sent, forwarded, hop_to, loss_at, next_hop, octets_come, options_behind, outputs_of, packet_comes, passes_by, responds, step, transmissions, way_of};
ghost use Rattle.clnp_machine.specs.Due.{FollowsTimer, IsAskedByGroup, IsHelloDue, IsSuggested, KeepsHello, StaysUnlessEnded, begun_anew};
ghost use Rattle.clnp_machine.specs.Ports.{ComesByPort, GoesByPort};
ghost use Rattle.clnp_machine.specs.Requests.{AnswersNone, AnswersNothing, AnswersOldest, StayUnlessAnswered, newest};
ghost use Rattle.clnp_machine.specs.Ways.{BeginsWithDiscard, CallsForRedirect, IsAllOfItsUnit, IsAllowedWay, IsDiscardedFor, IsFirstOrGoesOn, IsOnRoute, IsOwnWhereFirst, SendsItsWay, aim_of};
ghost use Rattle.clnp_machine.specs.Whereabouts.{GivesOutFor, HasOneFate, HasOneFateInFrame, HaveOneOfEachKey, IsTheOneOfItsKey, MakesOrRefuses, NothingVanishes, SegmentsStayOrAreTold, StaysOrIsTold, TellsOfOctets};
ghost use Rattle.clnp_machine.specs.EveryStep.{AreCarriable, AreNumbered, IsAtMostReportOf, IsFairChange, IsMadeFor, IsNoChange, IsNoRestart, IsRedirectFor, KeepsAsOffered, KeepsNextHops, KnowsAddresses, ReportsOn, RestartsNothing, WasPendingOrMade, BreaksNoEsisRule, BreaksNoRule, CarriesOneEsisValue, CarriesOnePacket, IsAtMostItsHello, IsAtMostOneTo, IsDeed, IsEffect, IsFair, IsForOwn, GoesOnOrIsReported, IsFresh, IsRangeOf, IsWithinBudget, NotesOnly, OnlyHellos, SendsCarriable, SendsEsisPdus, SendsItsOwn, SendsRangesOrGoesOn, StaysItself, WasKeptOrComes, attached_after, moment_after, segments_in, sends_esis, sends_frame};
ghost use Rattle.clnp_machine.specs.Told.{IsAllowed, IsRefusal, IsToldBy, LeavesRefused, MayBeDrawn, NoteIsQuiet, NotesNoRule, SpellsPdus, TellsNoInterference, TellsOnly, WasThereOrTakes};

use crate::attaching;

/// A step leaves a system at its place with its configuration, at the moment that came last, and attached as it was but where that is
/// changed; no port comes or goes, and a fair change leaves it attached as it should be.
pub fn a_system_stays_itself()
    ensures itself { (s : SystemState) (input : Input) → StaysItself s (step s input).after }
    ensures moment { (s : SystemState) (input : Input) → (step s input).after.moment ≡ moment_after s input }
    ensures attached { (s : SystemState) (input : Input) → (step s input).after.attached ≡ attached_after s input }
    ensures ports { (s : SystemState) (input : Input)
        → length (step s input).after.attached.ports ≡ length s.attached.ports }
    ensures soundly { (s : SystemState) (input : Input) → IsFairChange s input → IsAttached s.attached
        → IsAttached (step s input).after.attached }
{
    attaching::attachments_stay_sound();
}

/// A change of what a system is attached to leaves all else of it as it was, but that its next hello is due at once where a port is
/// elsewhere from then on; nothing is given out, and no unit is made.
pub fn changes_leave_the_rest()
    ensures rest { (s : SystemState) (change : Change) → let after = (step s (IsChanged change)).after in
        after ≡ record s { attached = changed change s.attached; next_hello = after.next_hello } }
    ensures moved { (s : SystemState) (number : ℕ) (port : PortConfig)
        → (step s (IsChanged (PortIsAt number port))).after.next_hello ≡ s.moment }
    ensures unmoved { (s : SystemState) (change : Change)
        → ((number : ℕ) (port : PortConfig) → change ≢ PortIsAt number port)
        → (step s (IsChanged change)).after.next_hello ≡ s.next_hello }
    ensures outputs { (s : SystemState) (change : Change) → (step s (IsChanged change)).outputs ≡ [] }
    ensures units { (s : SystemState) (change : Change) → (step s (IsChanged change)).units ≡ [] }
{}

/// Whatever a system does at its addresses, it stays the system that it is, at its moment and with what
/// it heard, and the units that it makes are its own and new.
pub fn deeds_are_of_their_moment()
    ensures make { (s : SystemState) (kind : Kind) (from to octets : List ℕ) (ask : Ask)
        → IsDeed s (make s kind from to octets ask) }
    ensures receive { (s : SystemState) (p : Packet) (following : List ℕ) → IsDeed s (receive s p following) }
    ensures discard { (s : SystemState) (content : Content) (reason place : ℕ)
        → IsDeed s (discard s content reason place) }
    ensures packet { (s : SystemState) (came : Neighbour) (p : Packet) (following : List ℕ)
        → IsEffect s (packet_comes s came p following) }
    ensures octets { (s : SystemState) (octets : List ℕ) → IsDeed s (octets_come s octets) }
    ensures tick { (s : SystemState) (now : ℕ) → IsDeed (at_moment now s) (tick s now) }
{}

/// What a system says and hears of others leaves all else of it as it is; it makes no unit and sends
/// no packet.
pub fn hellos_leave_the_rest()
    ensures comes { (s : SystemState) (neighbour : Neighbour) (value : EsisValue)
        → OnlyHellos s (esis_comes s neighbour value) }
    ensures tells { (s : SystemState) (port : ℕ) (snpa : List ℕ) → OnlyHellos s (tells_of_itself s port snpa) }
    ensures responds { (s : SystemState) (neighbour : Neighbour) (to_group : Bool) (p : Packet)
        → OnlyHellos s (responds s neighbour to_group p) }
    ensures forgets { (s : SystemState) (before : ℕ) → OnlyHellos s (forgets before s) }
    ensures says_hello { (s : SystemState) → OnlyHellos s (says_hello s) }
{}

/// The units that are made in a step are made now by the system, of a source that is its own, and
/// their initial PDU carries all of their data; they are numbered one behind another; and one that
/// isn't asked for is an error report or an echo reply.
pub fn new_units_are_fresh()
    ensures fresh { (s : SystemState) (input : Input)
        → AllByRecursion (IsFresh s (moment_after s input)) (step s input).units }
    ensures numbered { (s : SystemState) (input : Input) → AreNumbered s.count (step s input).units }
    ensures asked { (s : SystemState) (input : Input) → AllByRecursion (IsMadeFor input) (step s input).units }
{}

/// Each packet that is sent in a step is a range of a unit that was made in it, and meets the bound
/// on hops and lifetime; or it goes on, of a packet that came in the step.
pub fn ranges_of_units_are_sent()
    ensures { (s : SystemState) (input : Input)
        → AllByRecursion (SendsRangesOrGoesOn s input (step s input).units) (step s input).outputs }
{
    laws_of_edits();
}

/// Each packet that forwarding sends has one hop more than the one that came, and a lifetime that is
/// lower by the transit of the port by which it goes on, at least by one; or the one that came doesn't
/// go on, and what is sent is at most the report of its discard.
pub fn forwarding_costs_lifetime()
    ensures { (s : SystemState) (came : Neighbour) (p : Packet) (following : List ℕ)
        → GoesOnOrIsReported s p (wire p ++ following) (passes_by s.configuration.role s came p following) }
{
    laws_of_edits();
}

/// Hops count routers: each packet that is sent in a step has none, or goes on from the packet that came in the step, with one more.
pub fn hops_count_routers()
    ensures { (s : SystemState) (input : Input) → AllByRecursion (IsFirstOrGoesOn s input) (step s input).outputs }
{
    laws_of_edits();
}

/// A packet that is sent in a step and that nobody forwarded yet is of a unit of the system's own.
pub fn first_transmissions_are_its_own()
    ensures { (s : SystemState) (input : Input) → AllByRecursion (IsOwnWhereFirst s) (step s input).outputs }
{
    laws_of_edits();
}

/// The header of a packet is as long as that of its unit's initial PDU, however often it was forwarded: a
/// router changes the values of options, and never their lengths.
pub fn headers_keep_their_length()
    ensures { (units : List DataUnit) (p : Packet) → IsRangeOf units p
        → header_length (value_of p) ≡ header_size p.unit }
{
    laws_of_edits();
}

/// What routers make of options leaves the value of each option but source routes, recordings and qualities of service as it was; and
/// what a router makes of those of a packet is made by such edits.
pub fn edits_change_three_options()
    ensures others { (edits : List Edit) (code : ℕ) → code ≢ 0xc8 → code ≢ 0xcb → code ≢ 0xc3
        → (options : List Parameter)
        → option_value code (with_edits edits options) ≡ option_value code options }
    ensures behind { (s : SystemState) (options : List Parameter) → AreEdited options (options_behind s options) }
{}

/// The PDU of a packet that goes on has the value of the one that came, but for its lifetime and options;
/// and where a router has a title, a PDU can carry it.
pub fn what_goes_on_has_its_value()
    ensures value { (s : SystemState) (p : Packet) (loss : ℕ) → IsCarriable p
        → value_of (forwarded p loss (options_behind s p.options))
        ≡ with_options (options_behind s p.options) (with_lifetime (p.lifetime - loss) (value_of p)) }
    ensures carriable { (s : SystemState) (p : Packet) (loss : ℕ) → IsAddress (title_of s) → IsCarriable p
        → IsCarriable (forwarded p loss (options_behind s p.options)) }
{
    laws_of_edits();
}

/// PDUs can carry each packet that is sent in a step of a system of sound configuration with addresses, whose ports take frames that
/// are long enough, where what comes to it is fair, and the segments that it keeps can be carried.
pub fn what_is_sent_is_carriable()
    ensures sent { (s : SystemState) (input : Input) → IsSystem s.configuration → AllByRecursion IsPort s.attached.ports
        → IsFair input
        → All IsAddress s.configuration.addresses → KeepsAsOffered s
        → AllByRecursion SendsCarriable (step s input).outputs }
    ensures kept { (s : SystemState) (input : Input) → IsFair input → KeepsAsOffered s
        → KeepsAsOffered (step s input).after }
{
    laws_of_edits();
}

/// All that a system sends goes by a port that is there, where what comes in a frame came by one.
pub fn what_is_sent_goes_by_a_port()
    ensures { (s : SystemState) (input : Input) → ComesByPort s input
        → AllByRecursion (GoesByPort s) (step s input).outputs }
{}

/// Behind a router no source route leads to the router itself, wherever in the route its title stands.
pub fn a_source_route_leads_elsewhere()
    ensures { (s : SystemState) (p : Packet) → IsCarriable p → (title : List ℕ)
        → target_of (options_behind s p.options) ≡ Some title
        → title ≢ title_of s }
{
    clnp_plan::options::laws::edits_leave_the_source_route();
    clnp_plan::options::laws::edits_keep_options_formed();
    clnp_plan::options::laws::a_source_route_leads_on();
}

/// What is sent of a packet for another address goes by the way to the title to which its source route leads next, else to its
/// destination, unless the packet is discarded. With a complete source route it goes on only where it was led to this router, and
/// to no other system before the next one of its route (ISO 8473, section 6.14).
pub fn packets_go_their_way()
    ensures { (s : SystemState) (came : Neighbour) (p : Packet) (following : List ℕ)
        → let outputs = (passes_by Router s came p following).outputs in
        AllByRecursion (SendsItsWay s p) outputs ⊎ BeginsWithDiscard outputs }
{}

/// A packet that comes has exactly one fate, whatever the state: it goes on, all of it; it is discarded with a note of the
/// reason; it is handed up with the data that it makes whole; it is kept; it was kept before; or it is left by a host that doesn't
/// have its destination. So it is of one that comes in a frame. Octets that spell no PDU are told of. Where nothing is given
/// out for a packet, it has none of these fates.
pub fn each_packet_has_one_fate()
    ensures packet { (s : SystemState) (came : Neighbour) (p : Packet) (following : List ℕ)
        → AllByRecursion IsPort s.attached.ports → IsCarriable p
        → HasOneFate s p following (packet_comes s came p following) }
    ensures frame { (s : SystemState) (port : ℕ) (sender : List ℕ) (to_group : Bool) (p : Packet) (following : List ℕ)
        → AllByRecursion IsPort s.attached.ports → IsCarriable p
        → let comes = FrameComes port sender to_group (Labelled p following) in
        HasOneFateInFrame s p following (step s comes) }
    ensures octets { (s : SystemState) (port : ℕ) (sender : List ℕ) (to_group : Bool) (octets : List ℕ)
        → TellsOfOctets (step s (FrameComes port sender to_group (Unlabelled octets))).outputs }
    ensures told { (s : SystemState) (p : Packet) (following : List ℕ) (effect : Effect)
        → HasOneFate s p following effect → effect.outputs ≢ [] }
{
    laws_of_edits();
}

/// Why a packet that comes is discarded, where it is for another address: its lifetime is over, before it came (`over`) or on
/// the way (`transit`); its complete source route doesn't lead here (`off_route`), or another system stands before the next one
/// of it (`not_next`); no way is known to its destination (`unknown`), or to the next title of its route (`unknown_in_route`); it
/// may not be cut (`uncut`). Each with the octet of its reason (ISO 8473, section 7.9.5).
pub fn discards_have_their_reasons()
    ensures over { (s : SystemState) (came : Neighbour) (p : Packet) (following : List ℕ) → p.lifetime ≡ 0
        → IsDiscardedFor 0xa0 s p following (packet_comes s came p following) }
    ensures off_route { (s : SystemState) (came : Neighbour) (p : Packet) (following : List ℕ)
        → is_complete p.options ≡ true
        → ¬ (target_of p.options ≡ Some (title_of s))
        → IsDiscardedFor 0x93 s p following (passes_by Router s came p following) }
    ensures unknown { (s : SystemState) (came : Neighbour) (p : Packet) (following : List ℕ) → IsOnRoute s p
        → way_of s (aim_of s p) ≡ None
        → target_of (options_behind s p.options) ≡ None
        → IsDiscardedFor 0x81 s p following (passes_by Router s came p following) }
    ensures unknown_in_route { (s : SystemState) (came : Neighbour) (p : Packet) (following : List ℕ) → IsOnRoute s p
        → way_of s (aim_of s p) ≡ None → (title : List ℕ) → target_of (options_behind s p.options) ≡ Some title
        → IsDiscardedFor 0x92 s p following (passes_by Router s came p following) }
    ensures not_next { (s : SystemState) (came : Neighbour) (p : Packet) (following : List ℕ) → IsOnRoute s p
        → (way : Way)
        → way_of s (aim_of s p) ≡ Some way → is_complete (options_behind s p.options) ≡ true → (title : List ℕ)
        → way.title ≡ Some title
        → title ≢ aim_of s p → IsDiscardedFor 0x93 s p following (passes_by Router s came p following) }
    ensures transit { (s : SystemState) (came : Neighbour) (p : Packet) (following : List ℕ) → IsOnRoute s p
        → (way : Way)
        → way_of s (aim_of s p) ≡ Some way → IsAllowedWay s p way → (port : PortConfig)
        → slice_get s.attached.ports way.neighbour.port ≡ Some port → p.lifetime ≤ loss_at port
        → IsDiscardedFor 0xa0 s p following (passes_by Router s came p following) }
    ensures uncut { (s : SystemState) (came : Neighbour) (p : Packet) (following : List ℕ) → IsOnRoute s p → (way : Way)
        → way_of s (aim_of s p) ≡ Some way → IsAllowedWay s p way → (port : PortConfig)
        → slice_get s.attached.ports way.neighbour.port ≡ Some port → loss_at port < p.lifetime
        → cut (forwarded p (loss_at port) (options_behind s p.options)) port.mtu ≡ None
        → IsDiscardedFor 0x05 s p following (passes_by Router s came p following) }
{}

/// Why segments are discarded: one that meets another unit's in a buffer, one for which there is no room, and the first of a unit
/// whose buffer's time has ended. And why a unit isn't sent: no way is known to its destination, or it may not be cut.
pub fn discards_at_the_own_addresses_have_their_reasons()
    ensures interference { (s : SystemState) (frame : Content) (arrival : Arrival Packet) (kept : List (Buffer Packet)) (there other : Shape)
        → takes_in s frame arrival kept (buffer.Interference there other)
        ≡ and_then (tells s (Interference arrival.key.id)) (λ t. discard t frame 0xc0 0) }
    ensures no_slot { (s : SystemState) (frame : Content) (arrival : Arrival Packet) (kept : List (Buffer Packet)) (live : ℕ)
        → takes_in s frame arrival kept (buffer.NoSlot live) ≡ and_then (tells s (NoSlot live)) (λ t. discard t frame 0x03 0) }
    ensures crowded { (s : SystemState) (frame : Content) (arrival : Arrival Packet) (kept : List (Buffer Packet)) (held size : ℕ)
        → takes_in s frame arrival kept (buffer.Crowded held size) ≡ and_then (tells s (Crowded held size)) (λ t. discard t frame 0x03 0) }
    ensures many { (s : SystemState) (frame : Content) (arrival : Arrival Packet) (kept : List (Buffer Packet)) (segments : ℕ)
        → takes_in s frame arrival kept (buffer.Many segments) ≡ and_then (tells s (Many segments)) (λ t. discard t frame 0x03 0) }
    ensures expired { (s : SystemState) (p : Packet) → discard_first s (Some p) ≡ discard s (Labelled p []) 0xa1 0 }
    ensures unknown { (s : SystemState) (u : DataUnit) → first_sent s u None ≡ Notes (Discard 0x81 0) ∷ [] }
    ensures uncut { (hop : Hop) → transmissions hop None ≡ Notes (Discard 0x05 0) ∷ [] }
{}

/// A host sends towards an address to the better hop of a redirect for it, else to the end system of that address, else to the
/// intermediate system that it heard last, else to all end systems on its first port (ISO 9542, section 6.5). A router
/// sends to the end system of the address, else by the longest route that covers it.
pub fn next_hops_are_what_is_known()
    ensures redirected { (s : SystemState) (to : List ℕ) (neighbour : Neighbour) → s.configuration.role ≡ Host
        → current_neighbour s.moment Rd to s.facts ≡ Some neighbour → next_hop s to ≡ Some (hop_to neighbour) }
    ensures end_system { (s : SystemState) (to : List ℕ) (neighbour : Neighbour) → s.configuration.role ≡ Host
        → current_neighbour s.moment Rd to s.facts ≡ None → current_neighbour s.moment Es to s.facts ≡ Some neighbour
        → next_hop s to ≡ Some (hop_to neighbour) }
    ensures intermediate_system { (s : SystemState) (to : List ℕ) (neighbour : Neighbour) → s.configuration.role ≡ Host
        → current_neighbour s.moment Rd to s.facts ≡ None → current_neighbour s.moment Es to s.facts ≡ None
        → last_router s.moment s.facts ≡ Some neighbour → next_hop s to ≡ Some (hop_to neighbour) }
    ensures everyone { (s : SystemState) (to : List ℕ) → s.configuration.role ≡ Host
        → current_neighbour s.moment Rd to s.facts ≡ None
        → current_neighbour s.moment Es to s.facts ≡ None → last_router s.moment s.facts ≡ None
        → next_hop s to ≡ Some (record { port = 0; target = EndSystems }) }
    ensures neighbour { (s : SystemState) (to : List ℕ) (neighbour : Neighbour) → s.configuration.role ≡ Router
        → current_neighbour s.moment Es to s.facts ≡ Some neighbour → next_hop s to ≡ Some (hop_to neighbour) }
    ensures by_route { (s : SystemState) (to : List ℕ) (route : Route) → s.configuration.role ≡ Router
        → current_neighbour s.moment Es to s.facts ≡ None → longest to s.attached.routes ≡ Some route
        → next_hop s to ≡ Some (record { port = route.port; target = System route.snpa }) }
    ensures nowhere { (s : SystemState) (to : List ℕ) → s.configuration.role ≡ Router
        → current_neighbour s.moment Es to s.facts ≡ None
        → longest to s.attached.routes ≡ None → next_hop s to ≡ None }
{}

/// A system sends no ES-IS PDU but its own hello and, as a router, redirects. Where it is configured as
/// a system with addresses, its routes lead to systems with addresses, what comes is fair, and what it
/// heard of is at addresses, each is one that a PDU can carry; and what it heard of then is at addresses
/// again.
pub fn hellos_are_pdus()
    ensures own { (s : SystemState) (input : Input) → AllByRecursion (SendsItsOwn s) (step s input).outputs }
    ensures hello { (s : SystemState) → IsSystem s.configuration → All IsAddress s.configuration.addresses
        → IsPdu (own_hello s) }
    ensures pdus { (s : SystemState) (input : Input) → IsSystem s.configuration
        → All IsAddress s.configuration.addresses
        → AllByRecursion IsAddressedRoute s.attached.routes → IsFair input → KnowsAddresses s
        → AllByRecursion SendsEsisPdus (step s input).outputs }
    ensures known { (s : SystemState) (input : Input) → IsFair input → KnowsAddresses s
        → KnowsAddresses (step s input).after }
{
    clnp_plan::routing::laws::what_is_longest_covers();
}

/// A redirect that comes to a system changes where it sends towards the redirect's destination alone, and no way of a router's.
pub fn a_redirect_changes_one_next_hop()
    ensures { (s : SystemState) (port : ℕ) (sender : List ℕ) (to_group : Bool) (content : Content) (destination : List ℕ)
        → IsRedirectFor destination content
        → KeepsNextHops destination s (step s (FrameComes port sender to_group content)).after }
{
    clnp_plan::hearing::laws::a_redirect_changes_its_destination_alone();
}

/// A router that sends a packet on tells its source of a better way exactly where that is called for (ISO 9542, section 6.8):
/// of the way to the packet's destination, in one redirect, to the place from which the packet came.
pub fn redirects_are_sent_where_called_for()
    ensures sent { (s : SystemState) (came : Neighbour) (p : Packet) (following : List ℕ)
        → let outputs = (passes_by Router s came p following).outputs in (list_any sends_esis outputs ≡ true) ↔ CallsForRedirect s came p outputs }
    ensures better { (s : SystemState) (came : Neighbour) (p : Packet) (following : List ℕ) (way : Way)
        → way_of s p.unit.destination ≡ Some way
        → let sent = filter sends_esis (passes_by Router s came p following).outputs in
        (sent ≡ []) ⊎ (sent ≡ SendsEsis came.port (System came.snpa) (redirect s p.unit.destination way.neighbour.snpa way.title) ∷ []) }
{}

/// A hello is said exactly where one is due when a moment comes: on each port, in order; the next one is due a period later,
/// from that moment on. Where none is due, none is said, and the next one stays as it was.
pub fn a_hello_is_said_where_one_is_due()
    ensures said { (s : SystemState) (now : ℕ) → IsHelloDue s now
        → filter sends_esis (step s (MomentComes now)).outputs ≡ hello_everywhere s }
    ensures next { (s : SystemState) (now : ℕ) → IsHelloDue s now
        → (step s (MomentComes now)).after.next_hello ≡ now + 2 * s.hello }
    ensures silent { (s : SystemState) (now : ℕ) → ¬ (IsHelloDue s now)
        → filter sends_esis (step s (MomentComes now)).outputs ≡ [] }
    ensures stays { (s : SystemState) (now : ℕ) → ¬ (IsHelloDue s now)
        → (step s (MomentComes now)).after.next_hello ≡ s.next_hello }
{}

/// A system says hello as often as before, and its next one is due as before, whatever ES-IS PDU comes, but where a host that
/// says hello at all hears an intermediate system suggest a period above 0: that period counts from then on, and the next
/// hello is due no later than one such period from that moment on (ISO 9542:1988).
pub fn a_suggested_period_is_followed()
    ensures follows { (s : SystemState) (port : ℕ) (sender : List ℕ) (to_group : Bool) (value : EsisValue) (following : List ℕ) (seconds : ℕ)
        → IsSuggested s value seconds → FollowsTimer seconds s (step s (FrameComes port sender to_group (Esis value following))).after }
    ensures stays { (s : SystemState) (port : ℕ) (sender : List ℕ) (to_group : Bool) (value : EsisValue) (following : List ℕ)
        → ((seconds : ℕ) → ¬ (IsSuggested s value seconds))
        → KeepsHello s (step s (FrameComes port sender to_group (Esis value following))).after }
{}

/// When a moment comes, a system first tells of the buffers that end, each with the discard of the segment at the beginning of its
/// unit, if one came; then of what it heard that has ended since its last moment; and then it says hello, if one is due.
pub fn a_moment_is_told_in_order()
    ensures order { (s : SystemState) (now : ℕ) → let ticked = tick s now in (step s (MomentComes now)).outputs
        ≡ flat_map (outputs_of ticked.after) ticked.actions ++ (map gone_note (gone s.moment now s.facts) ++ (says_hello ticked.after).outputs) }
    ensures ended { (s : SystemState) (ended : Buffer Packet)
        → let rest = without ended.key s.buffers in (gives_up s ended).actions
        ≡ Tells (Expired ended.key.id (held rest)) ∷ (discard_first (record s { buffers = rest }) (first_carried ended)).actions }
{}

/// A host to which a packet comes tells the sender of itself exactly where it was asked for by a group (ISO 9542, section 6.6),
/// whatever else comes of the packet.
pub fn a_group_is_answered()
    ensures answered { (s : SystemState) (port : ℕ) (sender : List ℕ) (to_group : Bool) (p : Packet) (following : List ℕ)
        → s.configuration.role ≡ Host → IsAskedByGroup s to_group p
        → filter sends_esis (step s (FrameComes port sender to_group (Labelled p following))).outputs
        ≡ SendsEsis port (System sender) (own_hello s) ∷ [] }
    ensures unanswered { (s : SystemState) (port : ℕ) (sender : List ℕ) (to_group : Bool) (p : Packet) (following : List ℕ)
        → s.configuration.role ≡ Host → ¬ (IsAskedByGroup s to_group p)
        → filter sends_esis (step s (FrameComes port sender to_group (Labelled p following))).outputs ≡ [] }
{}

/// An ES-IS PDU that comes makes a system send at most its own hello, to where the PDU came from, and
/// no packet. A packet makes it send at most its own hello or one redirect, to where the packet came
/// from, beside the packets that are sent then. Octets that spell no PDU are
/// answered by no ES-IS PDU, and by nothing at all but the report of their discard, where they are
/// reportable.
pub fn a_hello_causes_at_most_one()
    ensures hello { (s : SystemState) (port : ℕ) (sender : List ℕ) (to_group : Bool) (value : EsisValue) (following : List ℕ)
        → IsAtMostItsHello s (record { port = port; snpa = sender })
        (filter sends_frame (step s (FrameComes port sender to_group (Esis value following))).outputs) }
    ensures packet { (s : SystemState) (port : ℕ) (sender : List ℕ) (to_group : Bool) (p : Packet) (following : List ℕ)
        → IsAtMostOneTo s (record { port = port; snpa = sender })
        (filter sends_esis (step s (FrameComes port sender to_group (Labelled p following))).outputs) }
    ensures octets { (s : SystemState) (port : ℕ) (sender : List ℕ) (to_group : Bool) (octets : List ℕ)
        → filter sends_esis (step s (FrameComes port sender to_group (Unlabelled octets))).outputs ≡ [] }
    ensures unreported { (s : SystemState) (port : ℕ) (sender : List ℕ) (to_group : Bool) (octets : List ℕ)
        → is_reportable octets ≡ false → filter sends_frame (step s (FrameComes port sender to_group (Unlabelled octets))).outputs ≡ [] }
    ensures reported { (s : SystemState) (port : ℕ) (sender : List ℕ) (to_group : Bool) (octets : List ℕ)
        → IsAtMostReportOf octets (step s (FrameComes port sender to_group (Unlabelled octets))).units }
{}

/// An exchange of answers ends: an ES-IS PDU that comes again at the same moment is answered by
/// nothing, and so is one in which nothing new is heard.
pub fn an_exchange_of_answers_ends()
    ensures again { (s : SystemState) (port : ℕ) (sender : List ℕ) (to_group : Bool) (value : EsisValue) (following : List ℕ)
        → let comes = FrameComes port sender to_group (Esis value following) in
        filter sends_frame (step (step s comes).after comes).outputs ≡ [] }
    ensures known { (s : SystemState) (port : ℕ) (sender : List ℕ) (to_group : Bool) (value : EsisValue) (following : List ℕ)
        → let comes = FrameComes port sender to_group (Esis value following) in
        list_any tells_new (step s comes).outputs ≡ false → filter sends_frame (step s comes).outputs ≡ [] }
{}

/// What a step hands up is for one of the system's own addresses.
pub fn only_owners_hand_up()
    ensures { (s : SystemState) (input : Input) → AllByRecursion (NotesOnly (IsForOwn s)) (step s input).outputs }
{}

/// A unit is made exactly where its source is the system's own, data and header are short enough, and
/// an identifier can be drawn for it, if it needs one; where it isn't made, a refusal is noted, and
/// nothing changes. An identifier can be drawn exactly where the quiet time is over, and it rested long
/// enough since its last use.
pub fn units_are_made_where_allowed()
    ensures allowed { (s : SystemState) (u : DataUnit) → (refusal s u ≡ None) ↔ IsAllowed s u }
    ensures refused { (s : SystemState) (u : DataUnit) → IsRefusal (refusal s u) }
    ensures made { (s : SystemState) (kind : Kind) (from to octets : List ℕ) (ask : Ask)
        → IsAllowed s (unit_of s kind from to octets ask)
        → make s kind from to octets ask ≡ makes s (unit_of s kind from to octets ask) }
    ensures unmade { (s : SystemState) (kind : Kind) (from to octets : List ℕ) (ask : Ask)
        → ¬ (IsAllowed s (unit_of s kind from to octets ask))
        → LeavesRefused s (make s kind from to octets ask) }
    ensures drawn { (now : ℕ) (ids : Identifiers) → (not_drawn now ids ≡ None) ↔ MayBeDrawn now ids }
{}

/// What is noted is told, or says that a unit is dropped; and where a moment comes, nothing is told of
/// what is handed up or refused, of interference, or of a frame of no protocol.
pub fn what_is_noted_was_told()
    ensures told { (s : SystemState) (actions : List Action)
        → AllByRecursion (NotesOnly (IsToldBy actions)) (flat_map (outputs_of s) actions) }
    ensures tick { (s : SystemState) (now : ℕ) → AllByRecursion (TellsOnly NoteIsQuiet) (tick s now).actions }
{}

/// A unit that is asked for is made, noted, and sent whole to its next hop, or its discard is noted with the reason; or it is
/// refused with a note. So is each unit that a step makes: it is sent whole, or its discard is noted.
pub fn each_unit_is_sent_or_dropped()
    ensures asked { (s : SystemState) (from to octets : List ℕ) (ask : Ask) → AllByRecursion IsPort s.attached.ports
        → MakesOrRefuses s Dt from to octets (step s (AsksToSend from to octets ask)) }
    ensures echo { (s : SystemState) (from to octets : List ℕ) → AllByRecursion IsPort s.attached.ports
        → MakesOrRefuses s Erq from to octets (step s (AsksForEcho from to octets)) }
    ensures each { (s : SystemState) (input : Input) → IsSystem s.configuration → AllByRecursion IsPort s.attached.ports
        → IsFair input → All IsAddress s.configuration.addresses → KeepsAsOffered s
        → let effect = step s input in
        AllByRecursion (GivesOutFor (at_moment (moment_after s input) s) effect.outputs) effect.units }
{}

/// A discard for a rule of PDUs is noted only where octets come that spell no PDU.
pub fn rules_are_noted_of_octets_alone()
    ensures { (s : SystemState) (input : Input) → SpellsPdus input
        → AllByRecursion (NotesOnly NotesNoRule) (step s input).outputs }
{}

/// A buffer whose time has ended is taken out, and all else stays, but for the count of units where a
/// report is made.
pub fn ended_buffers_are_taken_out()
    ensures { (s : SystemState) (ended : Buffer Packet)
        → (gives_up s ended).after ≡ record s { buffers = without ended.key s.buffers; count = (gives_up s ended).after.count } }
{}

/// When a moment comes, each buffer whose time has ended is taken out: none is due afterwards. Each that is left was there
/// before, and each that was there is left, unless one of its key has ended.
pub fn each_ended_buffer_is_taken_out()
    ensures none_due { (s : SystemState) (now : ℕ) → due now (step s (MomentComes now)).after.buffers ≡ None }
    ensures there { (s : SystemState) (now : ℕ)
        → AllByRecursion (Contains s.buffers) (step s (MomentComes now)).after.buffers }
    ensures stays { (s : SystemState) (now : ℕ)
        → AllByRecursion (StaysUnlessEnded now s.buffers (step s (MomentComes now)).after.buffers) s.buffers }
{}

/// What is kept stays or is told of, whatever comes: each buffer is left as it is, or with the segment that comes, kept in it; or
/// that segment makes its unit whole, which is told with the unit's data; or its time has ended, or the system is restarted, which
/// is noted. So each segment is still kept, or one of these is told of its buffer. Where no two buffers have one key, each is the
/// one of its key, and no step changes that.
pub fn what_is_kept_stays_or_is_told()
    ensures buffers { (s : SystemState) (input : Input) → AllByRecursion IsPort s.attached.ports
        → AllByRecursion (StaysOrIsTold s input (step s input)) s.buffers }
    ensures segments { (s : SystemState) (input : Input) → AllByRecursion IsPort s.attached.ports
        → AllByRecursion (SegmentsStayOrAreTold s input (step s input)) s.buffers }
    ensures one_of_a_key { (buffers : List (Buffer Packet)) → HaveOneOfEachKey buffers
        → AllByRecursion (IsTheOneOfItsKey buffers) buffers }
    ensures keys { (s : SystemState) (input : Input) → HaveOneOfEachKey s.buffers
        → HaveOneOfEachKey (step s input).after.buffers }
{}

/// In no step does anything vanish: one record has the laws of packets, units and what is kept.
pub fn nothing_vanishes()
    ensures { NothingVanishes }
{
    each_packet_has_one_fate();
    each_unit_is_sent_or_dropped();
    what_is_kept_stays_or_is_told();
}

/// A restart leaves a system as at its start, quiet for as long as an identifier rests, but for its place, its moment, the count of
/// its units, and what it is attached to. It is noted, nothing else is given out, and no unit is made.
pub fn a_restart_begins_anew()
    ensures after { (s : SystemState) (limits : Limits) → limits.hold ≡ s.hold → limits.reuse ≡ s.identifiers.reuse
        → (step s IsRestarted).after ≡ begun_anew s limits }
    ensures outputs { (s : SystemState) → (step s IsRestarted).outputs ≡ Notes Restart ∷ [] }
    ensures units { (s : SystemState) → (step s IsRestarted).units ≡ [] }
{}

/// Reports make no storm: where a frame is discarded at most one unit is made, which is its report and
/// of which no report is wanted; the discard of an error report makes none.
pub fn reports_make_no_storm()
    ensures one { (s : SystemState) (frame : Content) (reason place : ℕ)
        → IsAtMostReportOf (frame_of frame) (made_in (discard s frame reason place).actions) }
    ensures none { (s : SystemState) (frame : Content) (reason place : ℕ)
        → kind_of (type_of (header_of (frame_of frame))) ≡ Some Er
        → made_in (discard s frame reason place).actions ≡ [] }
{
    pdus::made_pdus::report_laws::no_report_of_a_report();
}

/// Whatever comes in a frame makes a system make at most one unit.
pub fn a_frame_makes_at_most_one_unit()
    ensures { (s : SystemState) (port : ℕ) (sender : List ℕ) (to_group : Bool) (content : Content)
        → length (step s (FrameComes port sender to_group content)).units ≤ 1 }
{}

/// The discard of a packet is reported exactly where its unit wants a report and isn't one; and the PDU
/// of a report is that of the definition.
pub fn discards_are_reported_as_wanted()
    ensures wanted { (p : Packet) (following : List ℕ) → IsCarriable p
        → is_reportable (wire p ++ following) ≡ (p.unit.report && not (type_code p.unit.kind == type_code Er)) }
    ensures report { (s : SystemState) (own frame : List ℕ) (reason place : ℕ)
        → value_of (whole_packet (report_unit s own frame reason place))
        ≡ report_of frame own reason place s.configuration.settings.life s.configuration.settings.sealed }
{
    clnp_plan::clnp::laws::reportable_where_wanted();
}

/// An error report that is made in a step in which no octets come that spell no PDU is that of a packet
/// that came in it, or was kept before.
pub fn reports_are_of_packets()
    ensures { (s : SystemState) (input : Input) → IsFair input → SpellsPdus input → KeepsAsOffered s
        → AllByRecursion (ReportsOn s input) (step s input).units }
{}

/// The PDU of a reply is the reply to a request of which it has the data, and goes the other way.
pub fn replies_are_replies()
    ensures { (s : SystemState) (request : PduValue)
        → let reply = unit_of s Erp request.destination request.source request.body
        (echo_ask s request.destination request.source (length request.body) false) in
        value_of (whole_packet reply)
        ≡ reply_of request reply.identifier s.configuration.settings.life s.configuration.settings.sealed }
{}

/// The requests that are to be answered are at most eight; each was so before a step or was made in it;
/// a restart forgets them.
pub fn requests_are_kept()
    ensures few { (s : SystemState) (input : Input) → length s.pending ≤ 8 → length (step s input).after.pending ≤ 8 }
    ensures made { (s : SystemState) (input : Input)
        → AllByRecursion (WasPendingOrMade s (step s input)) (step s input).after.pending }
    ensures forgotten { (s : SystemState) → (step s IsRestarted).after.pending ≡ [] }
{}

/// Where an echo is asked for, the requests that are to be answered are then the last eight of those before and the one that is
/// made, if it isn't refused. Else they stay, whatever comes, until a restart or a reply: a reply answers the oldest request that
/// it may answer, which is then answered, and no other; where there is none it is stray.
pub fn requests_are_the_last_and_answered_in_order()
    ensures made { (s : SystemState) (from to octets : List ℕ) → length s.pending ≤ 8
        → let effect = step s (AsksForEcho from to octets) in
        effect.after.pending ≡ newest 8 (s.pending ++ effect.units) }
    ensures stay { (s : SystemState) (input : Input) → AnswersNothing input → (step s input).after.pending ≡ s.pending }
    ensures unless_answered { (s : SystemState) (port : ℕ) (sender : List ℕ) (to_group : Bool) (p : Packet) (following : List ℕ)
        → StayUnlessAnswered p s.pending (step s (FrameComes port sender to_group (Labelled p following))).after.pending }
    ensures answered { (s : SystemState) (source destination octets : List ℕ) (before : List DataUnit) (request : DataUnit) (behind : List DataUnit)
        → AnswersOldest source destination octets s.pending before request behind
        → is_replied s source destination octets ≡ tells (record s { pending = before ++ behind }) (Echoed source destination request.number) }
    ensures stray { (s : SystemState) (source destination octets : List ℕ)
        → AnswersNone source destination octets s.pending
        → is_replied s source destination octets ≡ tells s (Stray source destination) }
{}

/// That a system was restarted is noted only where it is.
pub fn only_restarts_are_noted_as_such()
    ensures { (s : SystemState) (input : Input) → RestartsNothing input
        → AllByRecursion (NotesOnly IsNoRestart) (step s input).outputs }
{}

/// No step notes that a route was set or is gone, or that a port is elsewhere.
pub fn no_step_notes_a_change()
    ensures { (s : SystemState) (input : Input) → AllByRecursion (NotesOnly IsNoChange) (step s input).outputs }
{}

/// A segment that is offered leaves each buffer as it was, or opens one, or is kept in that of its key;
/// the buffers of other keys stay, budgets are kept, and where no buffer clashes with the segment,
/// nothing interferes.
pub fn a_segment_is_kept_in_its_buffer()
    ensures buffers { (limits : TableLimits) (moment : ℕ) (arrival : Arrival Packet) (buffers : List (Buffer Packet))
        → AllByRecursion (WasThereOrTakes limits moment arrival buffers) (buffer.after limits moment arrival buffers) }
    ensures others { (limits : TableLimits) (moment : ℕ) (arrival : Arrival Packet) (buffers : List (Buffer Packet))
        → AllByRecursion (Contains buffers) (without arrival.key (buffer.with_kept limits moment arrival buffers)) }
    ensures within { (limits : TableLimits) (moment : ℕ) (arrival : Arrival Packet) (buffers : List (Buffer Packet))
        → held buffers ≤ limits.budget → held (buffer.after limits moment arrival buffers) ≤ limits.budget }
    ensures apart { (limits : TableLimits) (moment : ℕ) (arrival : Arrival Packet) (buffers : List (Buffer Packet))
        → clashes (buffer_of arrival.key buffers) arrival.shape ≡ false
        → TellsNoInterference (buffer.answer limits moment arrival buffers) }
{}

/// A system that keeps its budget for reassembly keeps it after each step.
pub fn budgets_are_kept()
    ensures { (s : SystemState) (input : Input) → IsWithinBudget s → IsWithinBudget (step s input).after }
{}

/// A segment that is kept after a step was kept before it, or came in it.
pub fn segments_were_kept_or_come()
    ensures { (s : SystemState) (input : Input)
        → AllByRecursion (WasKeptOrComes s input) (segments_in (step s input).after.buffers) }
{}

/// The pieces of a packet are those of its PDU: their values, in order, and none exactly where the
/// PDU may not be cut.
pub fn packets_are_cut_as_their_values()
    ensures values { (p : Packet) (mtu : ℕ) → IsCarriable p → 512 ≤ mtu
        → option_map (map value_of) (cut p mtu) ≡ option_map (map (λ piece. piece.value)) (segmenter.cut (value_of p) mtu) }
    ensures carriable { (p : Packet) (mtu : ℕ) → IsCarriable p → 512 ≤ mtu → AreCarriable (cut p mtu) }
{}

/// A packet is taken for all of its unit exactly where the unit can't be segmented, or the packet's range has all places of the
/// unit's data.
pub fn a_packet_may_be_all_of_its_unit()
    ensures { (p : Packet) → IsTrue (is_all p) ↔ IsAllOfItsUnit p }
{}

/// All octets from outside have a content: they are its frame, and a frame may carry it.
pub fn octets_have_a_content()
    ensures frame { (number moment : ℕ) (octets : List ℕ) → IsBytes octets
        → frame_of (content_of number moment octets) ≡ octets }
    ensures carried { (number moment : ℕ) (octets : List ℕ) → IsBytes octets
        → IsCarried (content_of number moment octets) }
{}

/// The PDU at the front of a frame that carries a packet is the packet's, and what follows it is what
/// follows the packet.
pub fn a_frame_carries_one_packet()
    ensures { CarriesOnePacket }
{
    clnp_plan::clnp::laws::one_value();
}

/// A frame that carries a packet that a PDU can carry breaks no rule of PDUs, whatever follows in it.
pub fn carriable_packets_break_no_rule()
    ensures { (p : Packet) (following : List ℕ) → IsCarriable p → BreaksNoRule (wire p ++ following) }
{}

/// A frame that carries an ES-IS value that a PDU can carry breaks no rule of ES-IS PDUs, whatever
/// follows in it.
pub fn esis_pdus_break_no_rule()
    ensures { (value : EsisValue) (following : List ℕ) → IsPdu value → BreaksNoEsisRule (spelling value ++ following) }
{}

/// The ES-IS PDU at the front of a frame that carries an ES-IS value is that value, and what follows
/// it is what follows the value.
pub fn a_frame_carries_one_esis_value()
    ensures { CarriesOneEsisValue }
{
    pdus::esis_pdus::laws::one_value();
}

/// No frame is of both protocols: one that carries a packet begins with 0x81, one that carries an ES-IS
/// value with 0x82.
pub fn no_frame_is_of_both_protocols()
    ensures packet { (p : Packet) (following : List ℕ) → IsCarriable p → octet (wire p ++ following) 1 ≡ 0x81 }
    ensures esis { (value : EsisValue) (following : List ℕ) → IsPdu value
        → octet (spelling value ++ following) 1 ≡ 0x82 }
{
    clnp_plan::clnp::laws::spelled_where_no_rule_is_broken();
    pdus::esis_pdus::laws::spelled_where_no_rule_is_broken();
}

/// What the laws of options and of PDUs say of a router's edits.
fn laws_of_edits()
    ensures { EditLaws }
{
    clnp_plan::options::laws::edits_keep_the_form();
    clnp_plan::options::laws::edits_keep_options_formed();
    clnp_plan::clnp::laws::edited_pdus_are_pdus();
}
