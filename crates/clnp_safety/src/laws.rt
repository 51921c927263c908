//! Laws of runs: each holds for every scenario, and its function does nothing; one that calls others has their clauses for
//! its proof.
ghost use Rattle.std.specs.Prelude.{◌≡◌, ℕ, List, [], IfOk, None, Some};
ghost use Rattle.std.specs.List.{AllByRecursion};
ghost use Rattle.clnp_machine.specs.ClnpPlan.declared.config.Limits.{Limits};
ghost use Rattle.clnp_machine.specs.ScenarioPlan.Plan.{Plan, IsClosed, IsFit};
ghost use Rattle.clnp_machine.specs.ClnpPlan.declared.scenario_plan.event.Move.{Move};
ghost use Rattle.clnp_machine.specs.ClnpNetwork.LabelledNetwork.{LabelledNetwork, after, first_world};
ghost use Rattle.clnp_machine.specs.ClnpNetwork.Clocks.{AreCurrent, NoneIsAhead, StaysTogether, TickTogether, clock_after, clocks_after, clocks_of};
ghost use Rattle.clnp_machine.specs.ClnpNetwork.Run.{Entry, entries_of, full_weight, moves_made, moves_of_plan, run, text_of, until_full, world_after};
ghost use Rattle.clnp_machine.specs.ClnpNetwork.Safe.{CarriesRanges, EachIsFounded, EachWasSent, FramesAreUnbroken, HoldsUnitsApart, HopsCountCopies, IdentifiersRest, IsHonest, IsSend, NoRefusal, IsWithinBudgets, IsWithinLifetimes, KeepsHeaders, KeepsWhatCame, NoInterference, NoneIsAlien, RedirectsChangeOneNextHop, TellsNoRule};
ghost use Rattle.clnp_safety.specs.Attached.{IsAttachedThroughout};
ghost use Rattle.clnp_safety.specs.Invariant.{NetworkIsSound};
ghost use Rattle.scenario.specs.Grammar.{plan_of_version_1};
ghost use Rattle.clnp_safety.specs.Migrated.{IsMigrated};
ghost use Rattle.clnp_safety.specs.Growth.{IsFront, IsFullAt, IsWithinCopies, TellsItsCopy};
ghost use Rattle.clnp_safety.specs.Outside.{CarriesRangesOrOutside, EachHasItsMaker, PdusAreUnbroken};
ghost use Rattle.clnp_safety.specs.Owners.{IsByOwner};
ghost use Rattle.clnp_safety.specs.Refusal.{LeavesNothing};
ghost use Rattle.clnp_safety.specs.Runs.{RunsAreSafe};
ghost use Rattle.clnp_safety.specs.StepLaws.{StepLaws};

use clnp_machine::laws as machine;

/// Without frames from outside a run hands up only what it sent before: from the same source to the
/// same destination, with the same octets, and not refused. So does each series of moves, in whatever
/// order they come: copies that are lost, late, given twice or out of order, ticks and restarts change
/// nothing of it. The clock of one system may go on alone, while no two clocks stand further apart than
/// the scenario lets them.
pub fn handed_up_was_sent()
    ensures run { (plan : Plan) → IsFit plan → IsClosed plan → IsHonest plan (run plan) }
    ensures moves { (plan : Plan) → IsFit plan → IsClosed plan → (moves : List Move) → TickTogether moves
        → EachWasSent plan [] (entries_of plan (first_world plan) moves) }
    ensures together { (plan : Plan) → IsFit plan → IsClosed plan → (moves : List Move) → StaysTogether plan moves
        → EachWasSent plan [] (entries_of plan (first_world plan) moves) }
{
    laws_of_steps();
}

/// Without frames from outside no segment of a unit ever meets one of another unit in a reassembly
/// buffer, since a data unit identifier rests until none of its unit can be on its way (ISO 8473,
/// section 6.8): in the run of a scenario, and in whatever moves that take on no clock alone, or leave no
/// two clocks further apart than the scenario lets them.
pub fn no_unit_meets_another()
    ensures run { (plan : Plan) → IsFit plan → IsClosed plan
        → AllByRecursion (λ (entry : Entry). NoInterference entry.lines) (run plan) }
    ensures moves { (plan : Plan) → IsFit plan → IsClosed plan → (moves : List Move) → TickTogether moves
        → AllByRecursion (λ (entry : Entry). NoInterference entry.lines) (entries_of plan (first_world plan) moves) }
    ensures together { (plan : Plan) → IsFit plan → IsClosed plan → (moves : List Move) → StaysTogether plan moves
        → AllByRecursion (λ (entry : Entry). NoInterference entry.lines) (entries_of plan (first_world plan) moves) }
{
    laws_of_steps();
}

/// Without frames from outside each frame of a run carries a range of a unit that was made, however
/// often it was cut, or an ES-IS value that a PDU can carry, and nothing behind its PDU.
pub fn ranges_of_units_are_carried()
    ensures { (plan : Plan) → IsFit plan → IsClosed plan → (moves : List Move)
        → CarriesRanges (world_after plan (first_world plan) moves) }
{
    laws_of_steps();
}

/// Whatever frames come from outside, each frame of a run that carries nothing made outside carries a
/// range of a unit that was made, however often it was cut, or an ES-IS value that a PDU can carry, and
/// nothing behind its PDU.
pub fn all_but_frames_from_outside_carry_ranges()
    ensures { (plan : Plan) → IsFit plan → (moves : List Move)
        → CarriesRangesOrOutside (world_after plan (first_world plan) moves) }
{
    laws_of_steps();
}

/// Each copy was made by who made the unit of which it carries a packet, whatever the moves of whatever plan. What was made outside
/// is what an event brought from outside, or a packet of the unit that this made known.
pub fn copies_have_their_makers()
    ensures { (plan : Plan) (moves : List Move) → EachHasItsMaker plan (world_after plan (first_world plan) moves) }
{
    laws_of_steps();
}

/// Without frames from outside each frame of a run breaks no rule of its protocol: it begins with 0x81,
/// and none of the rules of PDUs refuses it, or it begins with 0x82, and none of the rules of ES-IS PDUs
/// does.
pub fn no_frame_breaks_a_rule()
    ensures { (plan : Plan) → IsFit plan → IsClosed plan → (moves : List Move)
        → FramesAreUnbroken (world_after plan (first_world plan) moves) }
{
    laws_of_steps();
}

/// The header of each packet of a run is as long as that of its unit's initial PDU, however often the
/// packet was cut and forwarded, and whatever frames come from outside: routers change the values of
/// options, and never their lengths.
pub fn headers_keep_their_length()
    ensures { (plan : Plan) → IsFit plan → (moves : List Move)
        → KeepsHeaders (world_after plan (first_world plan) moves) }
{
    laws_of_steps();
}

/// Whatever frames come from outside, each frame of a run that carries a packet or an ES-IS value breaks
/// no rule of its protocol: what systems send and send on is never broken.
pub fn no_pdu_breaks_a_rule()
    ensures { (plan : Plan) → IsFit plan → (moves : List Move)
        → PdusAreUnbroken (world_after plan (first_world plan) moves) }
{
    laws_of_steps();
}

/// Without frames from outside no line of a run says that a frame was discarded for a rule of PDUs, or
/// broke one of ES-IS PDUs.
pub fn no_frame_is_refused()
    ensures { (plan : Plan) → IsFit plan → IsClosed plan → (moves : List Move)
        → AllByRecursion (λ (entry : Entry). AllByRecursion TellsNoRule entry.lines) (entries_of plan (first_world plan) moves) }
{
    laws_of_steps();
}

/// Without frames from outside no frame of a run belongs to no protocol, and no line says so.
pub fn no_frame_is_alien()
    ensures { (plan : Plan) → IsFit plan → IsClosed plan → (moves : List Move)
        → AllByRecursion (λ (entry : Entry). NoneIsAlien entry.lines) (entries_of plan (first_world plan) moves) }
{
    laws_of_steps();
}

/// Without frames from outside each reassembly buffer of a run holds segments of one unit that was
/// made, each of which stands in a copy; so it is after whatever moves that take on no clock alone, or
/// leave no two clocks further apart than the scenario lets them.
pub fn units_are_held_apart()
    ensures moves { (plan : Plan) → IsFit plan → IsClosed plan → (moves : List Move) → TickTogether moves
        → HoldsUnitsApart (world_after plan (first_world plan) moves) }
    ensures together { (plan : Plan) → IsFit plan → IsClosed plan → (moves : List Move) → StaysTogether plan moves
        → HoldsUnitsApart (world_after plan (first_world plan) moves) }
{
    laws_of_steps();
}

/// After each series of moves that take on no clock alone, or leave no two clocks further apart than they may stand, the network of a
/// fit plan without frames from outside is sound, beside the entries that led to it: each unit is founded on them, and rests behind
/// those before it; each copy carries a range of one, or an ES-IS value that a PDU can carry; no two clocks stand further apart than
/// they may; each system is that of its declaration, with the uses of its identifiers in order, each of its units since its last
/// restart among them, with buffers that hold segments of one unit each, that are neither due nor whole, and end before another unit
/// can come to them, with requests that it made since its last restart, and with ports and routes that are as they should be. What it
/// keeps stands in copies, and so does the packet of which an error report is.
pub fn networks_of_runs_are_sound()
    ensures moves { (plan : Plan) → IsFit plan → IsClosed plan → (moves : List Move) → TickTogether moves
        → NetworkIsSound plan (entries_of plan (first_world plan) moves) (world_after plan (first_world plan) moves) }
    ensures together { (plan : Plan) → IsFit plan → IsClosed plan → (moves : List Move) → StaysTogether plan moves
        → NetworkIsSound plan (entries_of plan (first_world plan) moves) (world_after plan (first_world plan) moves) }
{
    laws_of_steps();
}

/// Each segment that a system keeps came in a copy, as which it was offered, whatever the moves of whatever plan, and whatever
/// frames come from outside.
pub fn what_is_kept_came_in_copies()
    ensures { (plan : Plan) (moves : List Move) → KeepsWhatCame (world_after plan (first_world plan) moves) }
{
    laws_of_steps();
}

/// Without frames from outside, what a line of a run says of error reports and echo replies that came to
/// a system is founded on what the system made: the data of a report are the header of a packet of a unit
/// of its own, which a copy carries, and an echo reply answers a request that it made since its last restart, and was made by
/// an owner of its source. So it is in whatever moves that take on no clock alone, or leave no two clocks further apart than the
/// scenario lets them.
pub fn reports_and_echoes_are_of_its_own()
    ensures moves { (plan : Plan) → IsFit plan → IsClosed plan → (moves : List Move) → TickTogether moves
        → EachIsFounded plan (first_world plan) [] moves }
    ensures together { (plan : Plan) → IsFit plan → IsClosed plan → (moves : List Move) → StaysTogether plan moves
        → EachIsFounded plan (first_world plan) [] moves }
{
    laws_of_steps();
}

/// Where a copy that carries a redirect is given to a system, its next hop towards each address but the
/// redirect's destination is as before, and each other system is as it was: whatever the network, and
/// whatever the copy.
pub fn a_redirect_changes_one_next_hop()
    ensures { (limits : Limits) (w : LabelledNetwork) → RedirectsChangeOneNextHop limits w }
{
    machine::a_redirect_changes_one_next_hop();
}

/// Two units that one system made with one identifier were made at least so long apart as an
/// identifier rests, whatever the moves of whatever plan, and whatever frames come from outside.
pub fn identifiers_rest()
    ensures { (plan : Plan) (moves : List Move)
        → IdentifiersRest plan.limits.reuse (world_after plan (first_world plan) moves) }
{
    laws_of_steps();
}

/// No system ever holds more octets for reassembly than its budget, whatever the moves of whatever
/// plan, and whatever frames come from outside.
pub fn budgets_are_kept()
    ensures { (plan : Plan) (moves : List Move) → IsWithinBudgets (world_after plan (first_world plan) moves) }
{
    laws_of_steps();
}

/// No PDU is forwarded more often than its lifetime allowed: hops and lifetime of each packet are
/// together at most the lifetime of its unit, whatever the moves of whatever plan, and whatever frames
/// come from outside.
pub fn hops_are_within_lifetimes()
    ensures { (plan : Plan) (moves : List Move) → IsWithinLifetimes (world_after plan (first_world plan) moves) }
{
    laws_of_steps();
}

/// Hops count copies: where a copy carries a packet with hops, another one carries a packet of the same unit with one hop less, of
/// which that is a range; whatever the moves of whatever plan, and whatever frames come from outside.
pub fn hops_count_copies()
    ensures { (plan : Plan) (moves : List Move) → HopsCountCopies (world_after plan (first_world plan) moves) }
{
    laws_of_steps();
}

/// The copies of a world stay, in their order, and no more of them are settled than there are.
pub fn copies_only_grow()
    ensures copies { (plan : Plan) (w : LabelledNetwork) (move : Move)
        → IsFront w.copies (after plan w move).world.copies }
    ensures cursor { (plan : Plan) (moves : List Move) → IsWithinCopies (world_after plan (first_world plan) moves) }
{}

/// Where a line of a move tells of a transmission, the copy with its number is for that target, and its frame is those octets,
/// whatever the world and whatever the move: all that is sent goes by a port that is there.
pub fn transmissions_are_copies()
    ensures { (plan : Plan) (w : LabelledNetwork) (move : Move)
        → AllByRecursion (TellsItsCopy (after plan w move).world.copies) (after plan w move).lines }
{
    laws_of_steps();
    machine::what_is_sent_goes_by_a_port();
}

/// A send that is refused leaves the world as it was, and hands nothing up.
pub fn refused_leaves_nothing()
    ensures { (plan : Plan) (w : LabelledNetwork) (move : Move) (from to octets : List ℕ)
        → IsSend plan move from to octets
        → ¬ (NoRefusal (after plan w move).lines) → LeavesNothing w (after plan w move) }
{
    laws_of_steps();
}

/// A unit is handed up only by a system that has its destination among its addresses, whatever the
/// move: a line that says so has the name of one.
pub fn only_owners_hand_up()
    ensures { (plan : Plan) (w : LabelledNetwork) (move : Move)
        → AllByRecursion (IsByOwner w.systems) (after plan w move).lines }
{
    laws_of_steps();
}

/// The moves that are made are the first of the scenario's: all of them, or those up to the first at
/// which the network is full.
pub fn moves_are_made_until_full()
    ensures front { (plan : Plan) (w : LabelledNetwork) (moves : List Move) → IsFront (until_full plan w moves) moves }
    ensures all { (plan : Plan) (w : LabelledNetwork) (moves : List Move) → full_weight plan w moves ≡ None
        → until_full plan w moves ≡ moves }
    ensures stopped { (plan : Plan) (w : LabelledNetwork) (moves : List Move) (weighs : ℕ)
        → full_weight plan w moves ≡ Some weighs
        → IsFullAt (world_after plan w (until_full plan w moves)) weighs }
{}

/// What some moves write stands at the beginning of what they write with others behind them.
pub fn text_only_grows()
    ensures { (plan : Plan) (w : LabelledNetwork) (moves later : List Move) → IsFront moves later
        → IsFront (text_of plan w moves) (text_of plan w later) }
{}

/// Each move takes on the clocks of all systems by one tick, or that of one, or none, as its kind says, whatever the network; and the
/// network's clock with all, and where a system's passes it. So no system's clock comes to stand ahead of the network's, where none
/// does before.
pub fn clocks_go_on_by_moves()
    ensures systems { (plan : Plan) (w : LabelledNetwork) (move : Move)
        → clocks_of (after plan w move).world ≡ clocks_after (clocks_of w) move }
    ensures network { (plan : Plan) (w : LabelledNetwork) (move : Move)
        → (after plan w move).world.clock ≡ clock_after w.clock (clocks_of w) move }
    ensures none_ahead { (plan : Plan) (w : LabelledNetwork) (move : Move) → NoneIsAhead w
        → NoneIsAhead (after plan w move).world }
    ensures runs { (plan : Plan) (moves : List Move) → NoneIsAhead (world_after plan (first_world plan) moves) }
{
    laws_of_steps();
}

/// Where no move takes on the clock of one system alone, each system is at the moment of the network's clock, and no two clocks ever
/// stand apart. The moves of a scenario of version 1 are such.
pub fn clocks_that_tick_together_are_one()
    ensures current { (plan : Plan) (moves : List Move) → TickTogether moves
        → AreCurrent (world_after plan (first_world plan) moves) }
    ensures together { (plan : Plan) (moves : List Move) → TickTogether moves → StaysTogether plan moves }
    ensures version_1 { (plan : Plan) → IsFit plan → plan.version ≡ 1 → TickTogether (moves_of_plan plan) }
{
    laws_of_steps();
}

/// In the moves of a fit scenario, in those of them that are made, and in each front of moves in which it is so, no two clocks ever
/// stand further apart than the scenario lets them.
pub fn clocks_of_runs_stay_together()
    ensures called { (plan : Plan) → IsFit plan → StaysTogether plan (moves_of_plan plan) }
    ensures made { (plan : Plan) → IsFit plan → StaysTogether plan (moves_made plan) }
    ensures front { (plan : Plan) (moves later : List Move) → IsFront moves later → StaysTogether plan later
        → StaysTogether plan moves }
{}

/// The runs of a fit scenario are safe: what the laws above say of its journal, of its lines and of its networks, in one record with
/// a part by its name for each, so that one clause may say it of the scenario that a text is.
pub fn runs_are_safe()
    ensures { (plan : Plan) → IsFit plan → RunsAreSafe plan }
{
    handed_up_was_sent();
    no_unit_meets_another();
    no_frame_is_refused();
    no_frame_is_alien();
    reports_and_echoes_are_of_its_own();
    ranges_of_units_are_carried();
    no_frame_breaks_a_rule();
    units_are_held_apart();
    networks_of_runs_are_sound();
    all_but_frames_from_outside_carry_ranges();
    no_pdu_breaks_a_rule();
    copies_have_their_makers();
    what_is_kept_came_in_copies();
    budgets_are_kept();
    identifiers_rest();
    hops_are_within_lifetimes();
    hops_count_copies();
    headers_keep_their_length();
    transmissions_are_copies();
    a_redirect_changes_one_next_hop();
    attachments_of_runs_are_sound();
    clocks_go_on_by_moves();
    clocks_that_tick_together_are_one();
    clocks_of_runs_stay_together();
    clnp_machine::clnp_network::laws::the_journal_is_the_text_of_the_run();
}

/// Whatever frames come from outside, and however the network was changed, each subnetwork of a run has an MTU of at least 512, and
/// each system as many ports as at its declaration, each with a transit of at least 1 and an MTU of at least 512, at an address; each
/// of its routes leads out of one of its ports, to a system at addresses, and no two of them have one prefix.
pub fn attachments_of_runs_are_sound()
    ensures { (plan : Plan) → IsFit plan → (moves : List Move)
        → IsAttachedThroughout plan (world_after plan (first_world plan) moves) }
{
    laws_of_steps();
}

/// What becomes of each text of version 1 in version 2 is written, read and run as it should be.
pub fn texts_of_version_1_migrate()
    ensures { (text : List ℕ) → IfOk (plan_of_version_1 text) (IsMigrated text) }
{
    scenario::scenario_writing::laws::accepted_is_fit();
    scenario::scenario_writing::laws::version_1_is_read_alike();
    scenario::scenario_writing::laws::migrated_is_fit();
    clnp_machine::clnp_network::laws::migrated_scenarios_run_alike();
}

/// What the machine's laws say of each step of a system.
fn laws_of_steps()
    ensures { StepLaws }
{
    machine::a_system_stays_itself();
    machine::new_units_are_fresh();
    machine::ranges_of_units_are_sent();
    machine::hops_count_routers();
    machine::what_is_sent_is_carriable();
    machine::hellos_leave_the_rest();
    machine::hellos_are_pdus();
    machine::rules_are_noted_of_octets_alone();
    machine::only_owners_hand_up();
    machine::budgets_are_kept();
    machine::segments_were_kept_or_come();
    machine::units_are_made_where_allowed();
    machine::what_is_noted_was_told();
    machine::ended_buffers_are_taken_out();
    machine::reports_are_of_packets();
    machine::requests_are_kept();
    machine::only_restarts_are_noted_as_such();
    machine::a_segment_is_kept_in_its_buffer();
    machine::carriable_packets_break_no_rule();
    machine::esis_pdus_break_no_rule();
    machine::octets_have_a_content();
    clnp_machine::attaching::attachments_stay_sound();
    clnp_machine::options::laws::edits_keep_the_form();
    clnp_machine::options::laws::edits_keep_options_formed();
    clnp_machine::clnp::laws::edited_pdus_are_pdus();
    clnp_machine::echoing::laws::the_test_is_the_rule();
}
