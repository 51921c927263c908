//! Laws of a live node's runs: each holds for every transcript, and its function does nothing.
ghost use Rattle.std.specs.Prelude.{◌≡◌, ◌++◌, ◌∷◌, ◌+◌, ◌<◌, ◌≤◌, ℕ, Bool, List, [], None, Some, false};
ghost use Rattle.std.specs.List.{AllByRecursion};
ghost use Rattle.clnp_machine.specs.Attachment.{as_declared};
ghost use Rattle.clnp_plan.specs.Configuration.{SystemConfiguration};
ghost use Rattle.clnp_plan.specs.declared.config.Limits.{Limits};
ghost use Rattle.clnp_machine.specs.Identifiers.{IsQuiet, not_drawn};
ghost use Rattle.clnp_machine.specs.System.{Input};
ghost use Rattle.clnp_plan.specs.ScenarioPlan.Plan.{Plan};
ghost use Rattle.clnp_plan.specs.declared.scenario_plan.event.Event.{Event};
ghost use Rattle.clnp_machine.specs.LiveModel.Lines.{NodeLine};
ghost use Rattle.clnp_machine.specs.LiveModel.Node.{Goes, Node, Outcome, Played, Strays, and_then};
ghost use Rattle.clnp_machine.specs.LiveModel.Turn.{Due, comes_at, due_by, dues_from, takes_turn};
ghost use Rattle.clnp_machine.specs.LiveModel.Course.{IsNone, Transcript, Turn, course, course_behind, first_node, moments_of, node_run, outcomes_of};
ghost use Rattle.clnp_machine.specs.LiveModel.Events.{IsFirstDue, IsLaterThan, done_in, waiting_behind};
ghost use Rattle.clnp_machine.specs.LiveModel.Parts.{CourseBeginsWith, HasNextCall, IfAny, IfBreaks, IfRuns, IfWhole, IsLonger, IsUnfinished, call_of, is_of};
ghost use Rattle.clnp_machine.specs.LiveModel.Ports.{EachLooksOnce, PortsGo, TakesWritten, failed_in, gone_in};
ghost use Rattle.clnp_machine.specs.LiveModel.Safe.{LiveRunsAreSafe};
ghost use Rattle.clnp_machine.specs.LiveModel.Steps.{TakesSteps, inputs_of, last_moment};

/// The run of a scenario of one system is that of this system's turns, from the moment at which it started. Its system is quiet
/// then for as long as identifiers rest: none is drawn before, and from then on none is refused for quiet (ISO 8473, section 6.8).
pub fn a_run_begins_quiet()
    ensures run { (plan : Plan) (system : SystemConfiguration) (attached : List Bool) (transcript : Transcript)
        → plan.systems ≡ system ∷ []
        → node_run plan attached transcript
        ≡ course (dues_from transcript.start plan.events) (first_node plan.limits system transcript.start attached) transcript.turns }
    ensures quiet { (limits : Limits) (system : SystemConfiguration) (start now : ℕ) (attached : List Bool)
        → now < start + limits.reuse
        → not_drawn now (first_node limits system start attached).system.identifiers ≡ Some (IsQuiet (start + limits.reuse)) }
    ensures rested { (limits : Limits) (system : SystemConfiguration) (start now : ℕ) (attached : List Bool)
        → start + limits.reuse ≤ now
        → not_drawn now (first_node limits system start attached).system.identifiers ≡ None }
{}

/// It doesn't matter which parts of a run are taken together.
pub fn parts_follow_one_another()
    ensures { (part : Played) (next last : Node → List Outcome → Played)
        → and_then (and_then part next) last ≡ and_then part (λ node left. and_then (next node left) last) }
{}

/// More outcomes behind those of a turn change nothing of what came of it: where it was over they are left, where its own
/// outcomes ended within it what was written is a front of what is written then, and where they strayed they still do. So
/// turns follow one another: behind turns that are over come the others as if they had begun there. And what was written by a
/// run that ends within a turn is a front of what each longer run writes that begins with its outcomes.
pub fn what_comes_later_changes_nothing_before()
    ensures turn { (inputs : List Input) (node : Node) (outcomes later : List Outcome)
        → IsLonger later (takes_turn inputs node outcomes) (takes_turn inputs node (outcomes ++ later)) }
    ensures turns { (dues : List Due) (node : Node) (turns later : List Turn) → IfRuns (course dues node turns)
        (λ last lines. course dues node (turns ++ later) ≡ course_behind lines (course (waiting_behind (moments_of turns) dues) last later)) }
    ensures front { (dues : List Due) (node : Node) (turns : List Turn) (turn : Turn) (more : List Outcome) (others : List Turn)
        → IfBreaks (course dues node (turns ++ turn ∷ [])) (λ there lines.
        CourseBeginsWith lines (course dues node (turns ++ record turn { outcomes = turn.outcomes ++ more } ∷ others))) }
{}

/// A turn has the outcomes of its calls, no fewer and no more, each at its place. Where outcomes end within it, the next one is
/// that of one call, and whatever comes of that the turn goes on. Any front of the outcomes of a turn ends within it; with another
/// call's outcome at one of their places they stray, whatever follows. Where outcomes stray, or are left behind a turn, the run
/// is none.
pub fn each_outcome_is_of_its_call()
    ensures next { (inputs : List Input) (node : Node) (front : List Outcome)
        → IsUnfinished (takes_turn inputs node front)
        → HasNextCall (λ outcomes. takes_turn inputs node outcomes) front }
    ensures fewer { (inputs : List Input) (node : Node) (front : List Outcome) (outcome : Outcome) (rest : List Outcome) (last : Node) (lines : List NodeLine)
        → takes_turn inputs node (front ++ outcome ∷ rest) ≡ Goes last [] lines
        → IsUnfinished (takes_turn inputs node front) }
    ensures others { (inputs : List Input) (node : Node) (front : List Outcome) (outcome : Outcome) (rest : List Outcome) (last : Node) (lines : List NodeLine)
        → takes_turn inputs node (front ++ outcome ∷ rest) ≡ Goes last [] lines
        → (other : Outcome) (others : List Outcome) → is_of (call_of outcome) other ≡ false
        → takes_turn inputs node (front ++ other ∷ others) ≡ Strays }
    ensures strays { (dues : List Due) (node : Node) (turn : Turn) (turns : List Turn)
        → takes_turn (comes_at turn.moment node.system.configuration.role dues) node turn.outcomes ≡ Strays
        → course dues node (turn ∷ turns) ≡ IsNone }
    ensures more { (dues : List Due) (node : Node) (turn : Turn) (turns : List Turn) (last : Node) (outcome : Outcome) (left : List Outcome)
        (lines : List NodeLine)
        → takes_turn (comes_at turn.moment node.system.configuration.role dues) node turn.outcomes ≡ Goes last (outcome ∷ left) lines
        → course dues node (turn ∷ turns) ≡ IsNone }
{}

/// In each turn each port whose link is attached when the turn comes to it is looked at once, in order, and no other; all other
/// outcomes are those of frames that were sent.
pub fn each_port_is_looked_at_once()
    ensures { (dues : List Due) (node : Node) (turns : List Turn)
        → IfWhole (course dues node turns) (λ last lines. EachLooksOnce node.attached turns) }
{}

/// A port is detached where its link failed, and nowhere else: the outcomes at a port end with the failure, if one is there; a
/// port that is attached at the end has none; and a detached one stays so, and has no outcome. The lines tell of the links that
/// failed, of each once, in order.
pub fn a_port_is_detached_by_its_failure()
    ensures ports { (dues : List Due) (node : Node) (turns : List Turn)
        → IfAny (course dues node turns) (λ last lines. PortsGo node.attached last.attached (outcomes_of turns)) }
    ensures told { (dues : List Due) (node : Node) (turns : List Turn)
        → IfAny (course dues node turns) (λ last lines. gone_in lines ≡ failed_in (outcomes_of turns)) }
{}

/// What links took are frames that were written as transmitted, in the order of their lines: one for each outcome that says so,
/// at its port.
pub fn links_take_what_is_written()
    ensures { (dues : List Due) (node : Node) (turns : List Turn)
        → IfAny (course dues node turns) (λ last lines. TakesWritten node.taken last.taken (outcomes_of turns) lines) }
{}

/// Whatever came of the links, what is written, but for the lines that tell of links, are the lines of the machine's steps for
/// what came to its system: in each turn the moment, what the events ask that are due by then, and what looks saw, in this
/// order; the frames are numbered one behind another. And the system's moment is the one that was read last.
pub fn what_is_written_is_the_machines()
    ensures steps { (dues : List Due) (node : Node) (turns : List Turn) → IfWhole (course dues node turns)
        (λ last lines. TakesSteps node last (inputs_of node.system.configuration.role dues node.polled turns) lines) }
    ensures moment { (dues : List Due) (node : Node) (turns : List Turn) → IfWhole (course dues node turns)
        (λ last lines. last.system.moment ≡ last_moment node.system.moment (moments_of turns)) }
{}

/// Whatever comes to a node's system, its ports and routes are for ever those that the scenario declares.
pub fn a_node_is_attached_as_declared()
    ensures first { (limits : Limits) (system : SystemConfiguration) (start : ℕ) (attached : List Bool)
        → (first_node limits system start attached).system.attached ≡ as_declared system }
    ensures stays { (dues : List Due) (node : Node) (turns : List Turn) → IfWhole (course dues node turns)
        (λ last lines. last.system.attached ≡ node.system.attached) }
{}

/// Events are done in the order in which they stand, each once: those that were done in turns at some moments, and then those
/// that wait still, are all. Each is done in the first turn whose moment is at or behind its own, and those that wait are due
/// later than at each moment of a turn.
pub fn events_are_done_in_order()
    ensures once { (start : ℕ) (events : List Event) (moments : List ℕ)
        → done_in moments (dues_from start events) ++ waiting_behind moments (dues_from start events) ≡ dues_from start events }
    ensures first { (before : List ℕ) (now : ℕ) (dues : List Due)
        → AllByRecursion (IsFirstDue before now) (due_by now (waiting_behind before dues)) }
    ensures waiting { (moments : List ℕ) (dues : List Due)
        → AllByRecursion (IsLaterThan moments) (waiting_behind moments dues) }
{}

/// Whatever comes of its links, and whatever frames they give, the one system of a scenario never holds more octets for
/// reassembly than its budget, and a redirect that it sees changes the next hop towards the redirect's destination alone (ISO
/// 9542, section 6.9).
pub fn live_runs_are_safe()
    ensures { (plan : Plan) → LiveRunsAreSafe plan }
{
    crate::laws::a_redirect_changes_one_next_hop();
}
