//! Laws about the definitions, each the contract of a function that does nothing.

ghost use Rattle.std.specs.Prelude.{◌≡◌, ◌↔◌, ◌≤◌, ◌+◌, ℕ, [], ◌∷◌, ◌++◌, All, IsSome, List, Some, None, Ok, length};
ghost use Rattle.net_model.specs.NetworkKeeps.{Keeps};
ghost use Rattle.net_model.specs.Network.{Network};
ghost use Rattle.srv6_rules.specs.Packet.{Content};
ghost use Rattle.trace_replay.specs.ReplayJudging.{Replays};
ghost use Rattle.trace_replay.specs.TraceLaws.{walk_lines};
ghost use Rattle.trace_replay.specs.TraceLawsTerms.{IsChoiceLine, IsOutcomeLine, state_behind};
ghost use Rattle.trace_replay.specs.TraceLines.{stage_text, stages_text};
ghost use Rattle.trace_replay.specs.Numbered.{IsNumbered};
ghost use Rattle.trace_replay.specs.TraceReading.{bad_line, lines_of};
ghost use Rattle.trace_replay.specs.TraceReadingTerms.{Reads};
ghost use Rattle.trace_replay.specs.Replays.{choice_given, wrong_from};
ghost use Rattle.trace_replay.specs.Written.{Traced, entry_place, packet_line, packet_trace, trace_text, unended_text};
ghost use Rattle.trace_replay.specs.WrittenTerms.{IsTraced, counts_written, packets_lines, trace_lines, walk_trace};
ghost use Rattle.walk_rules.specs.declared.limits.TheConstants.{MAX_STAGES};
ghost use Rattle.net_model.specs.declared.limits.TheConstants.{MAX_TEXT_BYTES};
ghost use Rattle.trace_replay.specs.declared.state.ReplayState.{ReplayState};
ghost use Rattle.trace_replay.specs.declared.state.ReplayState.TheVariants as states;
ghost use Rattle.walk_rules.specs.Relation.{IsPlace};
ghost use Rattle.walk_rules.specs.Treatment.{step_of};
ghost use Rattle.walk_rules.specs.Walk.{decisions, next_place, walk_of};
ghost use Rattle.walk_rules.specs.declared.place.Place.{Place};

/// A line is right exactly where it is the line of an outcome that there is at the place, and
/// exactly where some choice gives it.
pub fn a_line_is_right_where_an_outcome_has_it()
    ensures outcome { (net : Network) (place : Place) (content : Content) (line : List ℕ) →
        Keeps net → IsPlace net place →
        IsSome (choice_given net place content line) ↔ IsOutcomeLine net place content line }
    ensures choice { (net : Network) (place : Place) (content : Content) (line : List ℕ) →
        Keeps net → IsPlace net place →
        IsSome (choice_given net place content line) ↔ IsChoiceLine net place content line }
{}

/// The lines of a walk that may have some stages are right for a packet that may have as many,
/// whichever choices the walk took, and after them the packet has ended; so it is with the 10,000
/// stages that a packet may have.
pub fn printed_traces_replay()
    ensures { (net : Network) (place : Place) (content : Content) →
        (pick : ℕ → ℕ) (taken left : ℕ) → Keeps net → IsPlace net place →
        state_behind net (states.Going place content left)
        (walk_lines net (Some place) (walk_of (left + 1) net (Some place) content pick taken))
        ≡ Some states.Ended }
{}

/// Where none of some lines is wrong, the first wrong line is that of the lines after them.
pub fn right_lines_are_passed()
    ensures { (net : Network) (state next : ReplayState) (n : ℕ) (lines more : List (List ℕ)) →
        state_behind net state lines ≡ Some next →
        wrong_from net state n (lines ++ more) ≡ wrong_from net next (n + length lines) more }
{}

/// What is written of packets that entered is a trace, whose lines are those of the packets between
/// its head and its end, and each of these is right; its counts are those of what was written.
pub fn what_is_written_is_accepted()
    ensures lines { (net : Network) (packets : List Traced) →
        Keeps net → All (IsTraced net) packets →
        (bad_line net (trace_text net packets) ≡ None)
        × (lines_of (trace_text net packets) ≡ trace_lines net packets) }
    ensures read { (net : Network) (packets : List Traced) →
        Keeps net → All (IsTraced net) packets →
        length (trace_text net packets) ≤ MAX_TEXT_BYTES →
        Reads net (trace_text net packets) (Ok (trace_lines net packets)) }
    ensures replayed { (net : Network) (packets : List Traced) →
        Keeps net → All (IsTraced net) packets →
        Replays net (trace_lines net packets) (Ok (counts_written net packets)) }
{}

/// A trace that has no end is refused at the line after its last.
pub fn what_is_not_finished_is_refused()
    ensures { (net : Network) (packets : List Traced) → Keeps net → All (IsTraced net) packets →
        bad_line net (unended_text net packets) ≡ Some (length (packets_lines net packets) + 2) }
{}

/// What is written of a packet is its first line and then its walk; of a walk from a place the line
/// of the stage there, and then the walk from the next place; of a walk to a place from which it
/// may have no stage more the line that says so; and of one that has ended nothing.
pub fn a_packet_is_written_stage_by_stage()
    ensures first { (net : Network) (p : Traced) → packet_trace net p
        ≡ packet_line net p ++ 10 ∷ walk_trace MAX_STAGES net
        (Some (entry_place p)) p.content p.pick 0 }
    ensures stage { (left : ℕ) (net : Network) (place : Place) (content : Content) →
        (pick : ℕ → ℕ) (taken : ℕ) →
        let gave = step_of net place content (pick taken) in
        walk_trace (left + 1) net (Some place) content pick taken
        ≡ stage_text net gave ++ 10 ∷ walk_trace left net (next_place net place gave.outcome)
        gave.after pick (taken + decisions gave.outcome) }
    ensures used { (net : Network) (place : Place) (content : Content) →
        (pick : ℕ → ℕ) (taken : ℕ) →
        walk_trace 0 net (Some place) content pick taken ≡ stages_text ++ 10 ∷ [] }
    ensures ended { (left : ℕ) (net : Network) (content : Content) (pick : ℕ → ℕ) (taken : ℕ) →
        walk_trace left net None content pick taken ≡ [] }
{}

/// What a stage's outcome names is one of the network's parts.
pub fn an_outcome_names_what_is_there()
    ensures { (net : Network) (place : Place) (content : Content) (choice : ℕ) →
        Keeps net → IsPlace net place →
        IsNumbered net (step_of net place content choice).outcome }
{}
