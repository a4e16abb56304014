//! Laws about the definitions, each the contract of a function that does nothing.

ghost use Rattle.std.specs.Prelude.{◌≡◌, ◌-◌, ◌<◌, ◌↔◌, IsTrue, List, Option, Some, drop, length, ℕ};
ghost use Rattle.net_flatness.specs.Flat.{IsFlat};
ghost use Rattle.intent_reader.specs.declared.intent.Intent.{Intent};
ghost use Rattle.leg_table.specs.StrictLegsTerms.{IsAddressOf, IsLastAddressOf, has_next_segment, has_packet_inside, is_again, is_hand};
ghost use Rattle.leg_table.specs.PositionSids.{is_last, is_middle, sid_address};
ghost use Rattle.list_pack.specs.declared.types.Leg.{Leg};
ghost use Rattle.loose_spec.specs.LooseLegs.{finish_of, leg_of};
ghost use Rattle.loose_legs_theory.specs.LooseSentences.{AlwaysExecutes, IsFinish, IsLeg};
ghost use Rattle.loose_spec.specs.LooseSids.{origin_of};
ghost use Rattle.loose_legs_theory.specs.LooseStepsTerms.{AreSteps};
ghost use Rattle.net_model.specs.NetworkKeeps.{Keeps};
ghost use Rattle.net_model.specs.Network.{Network};
ghost use Rattle.net_model.specs.NetworkRulesTerms.{IsNetwork};
ghost use Rattle.srv6_rules.specs.Packet.{Packet};
ghost use Rattle.intent_traces.specs.declared.trace_steps.TraceStep.{TraceStep};
ghost use Rattle.walk_rules.specs.declared.place.Place.{Place};

/// A leg by look-ups alone is there exactly where for all choices a packet to the next SID is taken
/// to that SID, along links that keep to the steps, and executed there, with as many steps left
/// behind it as the leg's end leaves; where the step that is left first is loose, the
/// links behind the steps before it lead to other nodes. Its hops are the greatest number of
/// lowerings over all choices, with that of the execution. So it is for a packet to the first
/// address of the SID's prefix, and in a flat network for one to any address of the SID's own that
/// is multicast exactly where the first one is. Where even one packet, with whatever hop limit, is
/// executed so, there is a leg; so there is none exactly where choices disagree, where one is lost,
/// and where a loop of routes can be passed any number of times.
pub fn a_loose_leg_is_for_all_choices()
    ensures first { (net : Network) (intent : Intent) (steps : List TraceStep) (position : ℕ) →
        (via : Option ℕ) (next : ℕ) (leg : Leg) → Keeps net → AreSteps net intent steps →
        (leg_of net intent steps position via next ≡ Some leg)
        ↔ IsLeg net intent steps (sid_address net next) position via next leg }
    ensures each { (net : Network) (intent : Intent) (steps : List TraceStep) (position : ℕ) →
        (via : Option ℕ) (next address : ℕ) (leg : Leg) → IsNetwork net → IsFlat net →
        AreSteps net intent steps → IsAddressOf net next address →
        (leg_of net intent steps position via next ≡ Some leg)
        ↔ IsLeg net intent steps address position via next leg }
    ensures one { (net : Network) (intent : Intent) (steps : List TraceStep) (position : ℕ) →
        (via : Option ℕ) (next address left : ℕ) (place : Place) (p : Packet) →
        IsNetwork net → IsFlat net → AreSteps net intent steps → IsAddressOf net next address →
        origin_of net intent steps position via ≡ Some place → IsTrue (is_middle net next) →
        p.destination ≡ address → IsTrue (has_next_segment net next p) → 0 < p.hop_limit →
        AlwaysExecutes net is_again (drop position steps) next left p place →
        (leg : Leg) × (leg_of net intent steps position via next ≡ Some leg)
        × (leg.to ≡ length steps - left) × (leg.hops < p.hop_limit) }
{}

/// A finish by look-ups alone is there exactly where for all choices a packet to the last SID is
/// taken to that SID along links that keep to the steps, and the packet inside exposed there with
/// no step left. Its number is the greatest number of lowerings over all choices. So it is for a
/// packet to the first address of the SID's prefix, and in a flat network for one to any address of
/// the SID's own that is multicast exactly where the first one is and has no further SID after it.
/// Where even one packet, with whatever hop limit, is exposed so, there is a finish.
pub fn a_loose_finish_is_for_all_choices()
    ensures first { (net : Network) (intent : Intent) (steps : List TraceStep) (position : ℕ) →
        (via : Option ℕ) (next lowered : ℕ) → Keeps net → AreSteps net intent steps →
        (finish_of net intent steps position via next ≡ Some lowered)
        ↔ IsFinish net intent steps (sid_address net next) position via next lowered }
    ensures each { (net : Network) (intent : Intent) (steps : List TraceStep) (position : ℕ) →
        (via : Option ℕ) (next address lowered : ℕ) → IsNetwork net → IsFlat net →
        AreSteps net intent steps → IsLastAddressOf net next address →
        (finish_of net intent steps position via next ≡ Some lowered)
        ↔ IsFinish net intent steps address position via next lowered }
    ensures one { (net : Network) (intent : Intent) (steps : List TraceStep) (position : ℕ) →
        (via : Option ℕ) (next address : ℕ) (place : Place) (p : Packet) →
        IsNetwork net → IsFlat net → AreSteps net intent steps → IsAddressOf net next address →
        origin_of net intent steps position via ≡ Some place →
        IsTrue (is_last net intent.inner next) → p.destination ≡ address →
        IsTrue (has_packet_inside net next p) → 0 < p.hop_limit →
        AlwaysExecutes net is_hand (drop position steps) next 0 p place →
        (lowered : ℕ) × (finish_of net intent steps position via next ≡ Some lowered)
        × (lowered < p.hop_limit) }
{}
