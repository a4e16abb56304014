//! Laws about the definitions, each the contract of a function that does nothing.

ghost use Rattle.std.specs.Prelude.{◌≡◌, ◌+◌, ◌<◌, ◌≤◌, List, None, Option, Some, [], ◌∷◌, length, ℕ};
ghost use Rattle.net_flatness.specs.Flat.{IsFlat};
ghost use Rattle.intent_reader.specs.declared.intent.Intent.{Intent};
ghost use Rattle.leg_table.specs.OneLegLaws.{GoesOver, HandsOver, KindLaws, LegLaws, OnWay};
ghost use Rattle.leg_table.specs.WalkTrace.{Handed};
ghost use Rattle.list_pack.specs.declared.types.Leg.{Leg};
ghost use Rattle.sid_list_theory.specs.ListPlaces.{ListPlace, Tunnel, next_of};
ghost use Rattle.loose_meaning_theory.specs.LooseKind.{loose_kind};
ghost use Rattle.loose_meaning_theory.specs.LongestWays.{Longest};
ghost use Rattle.loose_spec.specs.LooseLegs.{finish_of, leg_of};
ghost use Rattle.loose_legs_theory.specs.LooseStepsTerms.{AreSteps};
ghost use Rattle.net_model.specs.Network.{Network};
ghost use Rattle.net_model.specs.NetworkRulesTerms.{IsNetwork};
ghost use Rattle.srv6_rules.specs.Packet.{Packet};
ghost use Rattle.intent_traces.specs.declared.trace_steps.TraceStep.{TraceStep};

/// What is handed over of a packet at a place of a list from which a leg along steps of which some
/// may be to reach a node leads on is handed over from the list's next place, with the leg's SID
/// executed before; under choices by which its way is longest the hop limit has fallen by the leg's
/// hops there, and the way is longest from there on. Where a finish leads on, its SID alone is
/// executed, and under such choices the hop limit was above the finish's number.
pub fn what_is_handed_over_on_a_loose_leg_is_handed_over_behind_it()
    ensures leg { (net : Network) (intent : Intent) (steps : List TraceStep) → IsNetwork net →
        IsFlat net → AreSteps net intent steps → (t : Tunnel) (x y : ListPlace) (position : ℕ) →
        (via : Option ℕ) (next : ℕ) (leg : Leg) (hop : ℕ) (p : Packet) (pick : ℕ → ℕ) (taken : ℕ)
        (h : Handed) →
        leg_of net intent steps position via next ≡ Some leg →
        OnWay (loose_kind net intent steps) t x hop p next → next_of x ≡ Some y →
        HandsOver (loose_kind net intent steps) via p pick taken h →
        GoesOver (loose_kind net intent steps) (Longest net intent) t y via next leg hop p pick
        taken h }
    ensures finish { (net : Network) (intent : Intent) (steps : List TraceStep) → IsNetwork net →
        IsFlat net → AreSteps net intent steps → (t : Tunnel) → t.inner ≡ intent.inner →
        (x : ListPlace) (position : ℕ) (via : Option ℕ) (next lowered hop : ℕ) (p : Packet) →
        (pick : ℕ → ℕ) (taken : ℕ) (h : Handed) →
        finish_of net intent steps position via next ≡ Some lowered →
        OnWay (loose_kind net intent steps) t x hop p next → next_of x ≡ None →
        HandsOver (loose_kind net intent steps) via p pick taken h →
        (h.sids ≡ next ∷ []) × (Longest net intent via p pick taken → 0 < hop → lowered < hop) }
{}

/// Each packet has a longest way, whatever becomes of it.
pub fn each_packet_has_a_longest_way()
    ensures { (net : Network) (intent : Intent) (via : Option ℕ) (p : Packet) →
        (pick : ℕ → ℕ) × Longest net intent via p pick 0 }
{}

/// In a flat network of at most 128 SIDs the kind of loose legs keeps the laws from which follows
/// what lists mean, where it keeps those of one leg for all packets of the intent.
pub fn the_laws_of_one_loose_leg_are_those_of_its_kind()
    ensures { (net : Network) (intent : Intent) (steps : List TraceStep) → IsNetwork net → IsFlat net →
        AreSteps net intent steps → length net.sids ≤ 128 → ((t : Tunnel) → t.inner ≡ intent.inner →
        LegLaws (loose_kind net intent steps) (Longest net intent) t) →
        KindLaws (loose_kind net intent steps) (Longest net intent) }
{}

/// As many choices matter to a packet from the headend that is handed over as its hop limit says,
/// and one more: each link but the first behind the headend or behind an execution lowers it, and
/// so does each execution, since no binding SID is executed.
pub fn as_many_choices_matter_as_the_hop_limit_says()
    ensures { (net : Network) (intent : Intent) (steps : List TraceStep) (p : Packet) →
        (pick other : ℕ → ℕ) (h : Handed) → ((d : ℕ) → d < p.hop_limit + 1 → pick d ≡ other d) →
        HandsOver (loose_kind net intent steps) None p pick 0 h →
        HandsOver (loose_kind net intent steps) None p other 0 h }
{}
