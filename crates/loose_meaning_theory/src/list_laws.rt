//! Laws of the definitions: each is the contract of an empty function.

ghost use Rattle.std.specs.Prelude.{List, length, ℕ, ◌+◌, ◌<◌, ◌↔◌, ◌≤◌};
ghost use Rattle.srv6_rules.specs.Packet.{Content};
ghost use Rattle.net_model.specs.Network.{Network};
ghost use Rattle.net_model.specs.NetworkRulesTerms.{IsNetwork};
ghost use Rattle.net_flatness.specs.Flat.{IsFlat};
ghost use Rattle.intent_reader.specs.declared.intent.Intent.{Intent};
ghost use Rattle.list_pack.specs.Meaning.{Means};
ghost use Rattle.list_pack.specs.SidLists.{IsLegalList, list_values, prefixes_in};
ghost use Rattle.list_pack.specs.declared.types.Container.{Container};
ghost use Rattle.intent_traces.specs.declared.trace_steps.TraceStep.{TraceStep};
ghost use Rattle.leg_table.specs.LegMeaning.{IsExecuting, IsHanding, IsRealizing};
ghost use Rattle.leg_table.specs.Realizes.{IsInner};
ghost use Rattle.loose_legs_theory.specs.LooseStepsTerms.{AreSteps};
ghost use Rattle.loose_meaning_theory.specs.LooseKind.{loose_kind};
ghost use Rattle.loose_spec.specs.LooseLegsValue.{loose_legs_value};
ghost use Rattle.loose_spec.specs.LooseExecutions.{Execution};
ghost use Rattle.loose_spec.specs.LooseRealizes.{ExecutesEach, LooseAlwaysHands, LooseListExecutes, LooseListHands, LooseListRealizes, LooseReaches};
ghost use Rattle.loose_spec.specs.LooseSmall.{LooseIsSmall};
ghost use Rattle.loose_meaning_theory.specs.LooseSmallTerms.{LooseKeepsTo};

/// What the kind of these legs says of a list is what the stages of its walks say: in a flat
/// network of at most 128 SIDs a legal list realizes the steps, with a need, exactly where the
/// kind says that it realizes them with that need and that as many SIDs are executed as the list
/// has; and any list executes as many SIDs, and hands over even one packet at a hop limit, exactly
/// where the kind says so.
pub fn lists_do_what_their_kind_says()
    ensures realizes { (net : Network) (intent : Intent) (steps : List TraceStep) →
        IsNetwork net → IsFlat net → AreSteps net intent steps → length net.sids ≤ 128 →
        (list : List Container) (need : ℕ) → IsLegalList net list →
        LooseListRealizes net intent steps list need
        ↔ (IsRealizing (loose_kind net intent steps) list need
        × IsExecuting (loose_kind net intent steps) list (length (prefixes_in list))) }
    ensures executes { (net : Network) (intent : Intent) (steps : List TraceStep) →
        (list : List Container) (count : ℕ) →
        LooseListExecutes net intent steps list count
        ↔ IsExecuting (loose_kind net intent steps) list count }
    ensures hands { (net : Network) (intent : Intent) (steps : List TraceStep) →
        (list : List Container) (hop : ℕ) →
        LooseListHands net intent steps list hop
        ↔ IsHanding (loose_kind net intent steps) list hop }
{}

/// In a flat network of at most 128 SIDs the legs along steps of which some may be loose
/// mean the lists that realize the steps: each path is a legal list that realizes them, with the
/// path's hops as its need, and all its SIDs are executed; each legal list that realizes them is
/// such a path, of as many containers and no more hops; and for each that hands over even one
/// packet at a hop limit, with the same executions for all choices, there is a path of as many
/// containers and of fewer hops.
pub fn loose_legs_mean_lists()
    ensures { (net : Network) (intent : Intent) (steps : List TraceStep) →
        IsNetwork net → IsFlat net → AreSteps net intent steps → length net.sids ≤ 128 →
        Means (loose_legs_value net intent steps) net (LooseListRealizes net intent steps)
        (LooseListExecutes net intent steps) (LooseListHands net intent steps) }
{}

/// One packet shows what becomes of all: in a flat network of at most 128 SIDs, where a legal list
/// hands over even one packet at one outer hop limit, for every list of choices with the same
/// executions, one for each SID of the list in list order, it does so at that limit and above for
/// every inner packet of the intent's family, and the executions are the same for all of them
pub fn one_packet_shows_what_becomes_of_all()
    ensures { (net : Network) (intent : Intent) (steps : List TraceStep) →
        IsNetwork net → IsFlat net → AreSteps net intent steps → length net.sids ≤ 128 →
        (list : List Container) (n : ℕ) (inner : Content) (executions : List Execution) →
        IsLegalList net list → ExecutesEach net list executions →
        LooseAlwaysHands net intent steps (list_values net list) inner (n + 1) executions →
        LooseReaches net intent steps list n }
{}

/// Where a list realizes steps of which some may be loose, every inner packet that may
/// be encapsulated, at an outer hop limit above the need, and that is small, keeps to the steps
/// for every list of choices: in its walk with all MTUs and at most 10,000 stages the trace up to
/// the first hand-over matches the steps, no binding SID is executed up to there, and
/// what is handed over is the inner packet lowered by one. It is small where bytes spell it with
/// its header, each packet up to there fits the link that it is sent on, and there are fewer
/// stages than a walk may have (RFC 8200 sections 3 and 5; own rule).
pub fn what_is_small_keeps_to_the_steps()
    ensures { (net : Network) (intent : Intent) (steps : List TraceStep) (list : List Container) →
        (inner : Content) (need hop : ℕ) (choices : List ℕ) →
        LooseListRealizes net intent steps list need → IsInner intent.inner inner → need < hop →
        LooseIsSmall net intent (list_values net list) inner hop → 0 < length choices →
        LooseKeepsTo net intent steps (list_values net list) inner hop choices }
{}
