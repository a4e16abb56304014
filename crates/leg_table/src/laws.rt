//! Laws about the definitions, each the contract of a function that does nothing.

ghost use Rattle.std.specs.Prelude.{◌≡◌, ◌<◌, ℕ, Bool, List, Option, Some, None, ◌↔◌, IsTrue, is_some, map, length, ◌++◌};
ghost use Rattle.std.specs.Option.{option_and_then};
ghost use Rattle.srv6_rules.specs.Packet.{Packet, Content, V6};
ghost use Rattle.net_model.specs.Network.{Network};
ghost use Rattle.net_model.specs.NetworkKeeps.{Keeps};
ghost use Rattle.net_model.specs.NetworkRulesTerms.{IsNetwork};
ghost use Rattle.walk_rules.specs.Relation.{IsPlace};
ghost use Rattle.walk_rules.specs.declared.place.Place.{Place};
ghost use Rattle.walk_rules.specs.Walk as walks;
ghost use Rattle.intent_reader.specs.declared.intent.Step.{Step};
ghost use Rattle.intent_reader.specs.IntentRules.{stand_after};
ghost use Rattle.leg_table.specs.AllChoices.{ForAllChoices, EveryWay};
ghost use Rattle.leg_table.specs.Transits.{transit_of};
ghost use Rattle.leg_table.specs.TransitsTerms.{TransitEnds};
ghost use Rattle.intent_reader.specs.IntentRulesTerms.{IsIntent};
ghost use Rattle.intent_reader.specs.declared.intent.Intent.{Intent};
ghost use Rattle.list_pack.specs.declared.types.Leg.{Leg};
ghost use Rattle.list_pack.specs.declared.types.Container.{Container};
ghost use Rattle.list_pack.specs.SidLists.{IsLegalList, prefixes_in, list_values};
ghost use Rattle.leg_table.specs.StrictLegsTerms.{leg_of, IsLeg, finish_of, IsFinish, IsAddressOf, IsLastAddressOf};
ghost use Rattle.leg_table.specs.PositionSids.{sid_address, prefix_at, sids_of};
ghost use Rattle.leg_table.specs.PositionSidsTerms.{AreSidsAt};
ghost use Rattle.leg_table.specs.StepMatching.{matches};
ghost use Rattle.leg_table.specs.StepMatchingTerms.{left_by, is_done};
ghost use Rattle.leg_table.specs.WalkTrace.{TraceEvent, Handed, handed_over, through_hand};
ghost use Rattle.leg_table.specs.WalkTraceTerms.{trace_of};
ghost use Rattle.leg_table.specs.Realizes.{Realizes, ListRealizes, AlwaysHandsOver};
ghost use Rattle.leg_table.specs.RealizesTerms.{path_need, Executes, IsPathAlong};
ghost use Rattle.net_flatness.specs.Flat.{IsFlat};
ghost use Rattle.sid_list_theory.specs.ListPlaces.{Tunnel};
ghost use Rattle.leg_table.specs.OneLegLaws.{LegLaws};
ghost use Rattle.leg_table.specs.StrictLegsValue.{AnyWay, strict_kind};

/// A way to an execution is there for all lists of choices exactly where it is there whatever is
/// chosen at each stage.
pub fn every_way_is_for_all_choices()
    ensures { (net : Network) (end : List Step → walks.Stage → Bool) (steps : List Step) →
        (place : Place) (content : Content) →
        ForAllChoices net end steps place content ↔ EveryWay net end steps place content }
{}

/// In a network, from a place of it, along steps each of which starts where the one before it
/// ended: a packet has a way to an execution whatever is chosen exactly where the transit by look-ups
/// alone, which goes to the end of the first equal next hop, has it.
pub fn every_way_is_a_transit()
    ensures { (net : Network) (end : List Step → walks.Stage → Bool) (steps : List Step) →
        (place : Place) (p : Packet) → Keeps net → IsPlace net place →
        IsTrue (is_some (stand_after net place.node steps)) → 0 < p.hop_limit →
        EveryWay net end steps place (V6 p)
        ↔ TransitEnds net end p (transit_of net p.destination steps place) }
{}

/// The leg by look-ups alone is there exactly where for all choices a packet to the next SID is
/// taken to that SID along exactly the steps up to the leg's end, and executed there: a packet to
/// the first address of its prefix, and in a flat network one to any address of the SID's own,
/// which no SID nested in it holds, that is multicast exactly where the first one is.
pub fn a_leg_is_for_all_choices()
    ensures first { (net : Network) (intent : Intent) (position : ℕ) (via : Option ℕ) (next : ℕ) →
        (leg : Leg) → Keeps net → IsIntent net intent →
        (leg_of net intent position via next ≡ Some leg)
        ↔ IsLeg net intent (sid_address net next) position via next leg }
    ensures each { (net : Network) (intent : Intent) (position : ℕ) (via : Option ℕ) (next : ℕ) →
        (address : ℕ) (leg : Leg) → IsNetwork net → IsFlat net → IsIntent net intent →
        IsAddressOf net next address →
        (leg_of net intent position via next ≡ Some leg)
        ↔ IsLeg net intent address position via next leg }
{}

/// The finish by look-ups alone is there exactly where for all choices a packet to the last SID is
/// taken to that SID along exactly the steps that are left, and the packet inside exposed there: a
/// packet to the first address of its prefix, and in a flat network one to any address of the SID's
/// own that is multicast exactly where the first one is and has no further SID after it.
pub fn a_finish_is_for_all_choices()
    ensures first { (net : Network) (intent : Intent) (position : ℕ) (via : Option ℕ) (next : ℕ) →
        (lowered : ℕ) → Keeps net → IsIntent net intent →
        (finish_of net intent position via next ≡ Some lowered)
        ↔ IsFinish net intent (sid_address net next) position via next lowered }
    ensures each { (net : Network) (intent : Intent) (position : ℕ) (via : Option ℕ) (next : ℕ) →
        (address lowered : ℕ) → IsNetwork net → IsFlat net → IsIntent net intent →
        IsLastAddressOf net next address →
        (finish_of net intent position via next ≡ Some lowered)
        ↔ IsFinish net intent address position via next lowered }
{}

/// The SIDs of a position stand in order, each once: those at the node where the walk stands there
/// which have no title or are the function of the step that ends there.
pub fn sids_of_a_position_are_in_order()
    ensures { (net : Network) (intent : Intent) (position : ℕ) → Keeps net →
        AreSidsAt net intent position (sids_of net intent position) }
{}

/// The legs of strict steps keep the laws of one leg and one finish: what a leg or a finish says
/// comes of each packet on it, under every row of choices; and a packet that is handed over under
/// all rows has one. What paths are is shown by these laws alone, whatever kind of legs keeps them.
pub fn strict_legs_keep_the_laws_of_one_leg()
    ensures { (net : Network) (intent : Intent) (t : Tunnel) → IsNetwork net → IsFlat net →
        IsIntent net intent → t.inner ≡ intent.inner → LegLaws (strict_kind net intent) AnyWay t }
{}

/// In a flat network a path of legs and a finish through the SIDs of a legal list realizes the
/// intent in both forms of the header, and the sum of its lowerings is the need: above that outer
/// hop limit, for all inner packets of the intent's family and all choices, the packet crosses
/// exactly the steps and the inner packet is handed over lowered by one; above no lower one is it
/// so. Wherever it is handed over, all SIDs of the list were executed. (RFC 8986 sections 4 and 5,
/// RFC 9800 section 4)
pub fn a_path_realizes_the_intent()
    ensures realizes { (net : Network) (intent : Intent) (list : List Container) (sids : List ℕ)
        (need : ℕ) → IsNetwork net → IsFlat net → IsIntent net intent → IsLegalList net list →
        map (prefix_at net) sids ≡ prefixes_in list →
        path_need net intent 0 None sids ≡ Some need →
        Realizes net intent (list_values net list) need }
    ensures executes { (net : Network) (intent : Intent) (list : List Container) (sids : List ℕ)
        (need : ℕ) → IsNetwork net → IsFlat net → IsIntent net intent → IsLegalList net list →
        map (prefix_at net) sids ≡ prefixes_in list →
        path_need net intent 0 None sids ≡ Some need →
        Executes net intent (list_values net list) (length (prefixes_in list)) }
{}

/// In a flat network a legal list by which an inner packet is handed over along exactly the steps
/// for all choices at one outer hop limit has a path of legs and a finish along it, whose need is
/// below that hop limit; for each choice the path's SIDs are those that are executed.
pub fn a_list_that_always_hands_over_is_a_path()
    ensures { (net : Network) (intent : Intent) (list : List Container) (inner : Content)
        (hop : ℕ) → IsNetwork net → IsFlat net → IsIntent net intent → IsLegalList net list →
        0 < hop → (always : AlwaysHandsOver net intent (list_values net list) inner hop) →
        (sids : List ℕ) × (need : ℕ) × IsPathAlong net intent list sids need × (need < hop)
        × ((choices : List ℕ) (some : 0 < length choices) →
        (always choices some).handed.sids ≡ sids) }
{}

/// In a flat network, where a legal list hands over even one inner packet along exactly the steps
/// for all choices at one outer hop limit, there is a legal list of as many containers that
/// realizes the intent with a need below that hop limit.
pub fn a_list_that_hands_over_has_one_that_realizes()
    ensures { (net : Network) (intent : Intent) (list : List Container) (inner : Content)
        (hop : ℕ) → IsNetwork net → IsFlat net → IsIntent net intent → IsLegalList net list →
        0 < hop → AlwaysHandsOver net intent (list_values net list) inner hop →
        (other : List Container) × (need : ℕ) × IsLegalList net other
        × ListRealizes net intent other need × (length other ≡ length list) × (need < hop) }
{}

/// The trace that comes with what stages hand over is that of the stages up to and with the first
/// hand-over.
pub fn what_is_handed_over_has_its_trace()
    ensures { (net : Network) (stages : List walks.Stage) (h : Handed) →
        handed_over net stages ≡ Some h →
        h.trace ≡ trace_of net (through_hand stages) }
{}

/// Whether a trace meets steps is told event by event: each event takes the step that is left
/// first, which it has to meet, and none is left after the last. Events that others follow leave
/// the steps that the others take.
pub fn a_trace_is_matched_event_by_event()
    ensures matched { (steps : List Step) (events : List TraceEvent) →
        matches steps events ≡ is_done (left_by steps events) }
    ensures parts { (steps : List Step) (events more : List TraceEvent) →
        left_by steps (events ++ more)
        ≡ option_and_then (λ (rest : List Step). left_by rest more) (left_by steps events) }
{}
