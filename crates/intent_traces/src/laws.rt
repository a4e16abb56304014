//! Laws about the definitions, each the contract of a function that does nothing.

ghost use Rattle.std.specs.Prelude.{◌≡◌, ◌++◌, ◌↔◌, List, Some, true};
ghost use Rattle.intent_traces.specs.Traces.{Ends, StepEvent, IsPart, Matches, left_by};
ghost use Rattle.intent_traces.specs.TracesTerms.{IsStrict, Leaves, follows, meet_each};
ghost use Rattle.intent_traces.specs.declared.trace_steps.TraceStep.{TraceStep};

/// A trace matches steps exactly where, event by event, it leaves none of them: each event of it
/// belongs to one step, and which is known when it comes. And what stands in front of a trace as a
/// step's part is determined.
pub fn traces_split_in_one_way()
    ensures follows { (to : Ends) (ts : List TraceStep) (es : List StepEvent)
        → Matches to ts es ↔ (follows to es ts ≡ true) }
    ensures one { (to : Ends) (t : TraceStep) (part rest other behind : List StepEvent)
        → IsPart to t part → IsPart to t other → part ++ rest ≡ other ++ behind
        → (part ≡ other) × (rest ≡ behind) }
{}

/// The steps that are left behind events, one after the other, are those that are left where the
/// trace is split: into the parts of the finished steps, and the links that a reach has begun with,
/// all of which lead to another node. So the number of steps that are left is all that a walk has
/// to know of its past.
pub fn left_steps_are_a_state()
    ensures { (to : Ends) (ts us : List TraceStep) (es : List StepEvent)
        → (left_by to ts es ≡ Some us) ↔ Leaves to ts es us }
{}

/// Where no step is a reach a trace matches exactly where its events meet the steps, one each.
pub fn strict_steps_meet_one_event_each()
    ensures { (to : Ends) (ts : List TraceStep) (es : List StepEvent) → IsStrict ts
        → follows to es ts ≡ meet_each ts es }
{}
