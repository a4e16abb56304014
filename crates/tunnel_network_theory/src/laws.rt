//! Laws of the definitions: each is the contract of an empty function.

ghost use Rattle.std.specs.Prelude.{◌↔◌, Bool, ◌≡◌, ◌<◌, List, [], ◌∷◌, ℕ, Some, suc, true, is_some};
ghost use Rattle.std.specs.Option.{option_and_then, option_map};
ghost use Rattle.srv6_rules.specs.Packet.{Content, Packet, V6};
ghost use Rattle.srv6_rules.specs.Policies.{outer_by};
ghost use Rattle.srv6_rules.specs.declared.policy.Policy.{Policy};
ghost use Rattle.srv6_rules.specs.declared.family.Family.{Family};
ghost use Rattle.net_model.specs.NetworkKeeps.{Keeps};
ghost use Rattle.net_model.specs.Network.{Network};
ghost use Rattle.walk_rules.specs.declared.place.Place.{Place};
ghost use Rattle.walk_rules.specs.Relation.{IsHow, IsPlace};
ghost use Rattle.intent_reader.specs.IntentRules.{stand_after};
ghost use Rattle.intent_reader.specs.IntentRulesTerms.{IsIntent};
ghost use Rattle.intent_reader.specs.declared.intent.Intent.{Intent};
ghost use Rattle.intent_reader.specs.declared.intent.Step.{Step};
ghost use Rattle.leg_table.specs.Transits as transits;
ghost use Rattle.leg_table.specs.TransitsTerms.{with_hop_limit};
ghost use Rattle.binding_spec.specs.OwnHands.{handed_own, most_stages};
ghost use Rattle.binding_spec.specs.BindingRealizes.{AlwaysHands, OwnHandsOver};
ghost use Rattle.binding_spec.specs.TunnelWalks.{tunnel_walk};
ghost use Rattle.binding_spec.specs.TunnelPackets.{tunnel_of};
ghost use Rattle.tunnel_walks_theory.specs.TunnelPacketsTerms.{AreJoined, Met, tunnel_at, open_at, own_move};
ghost use Rattle.tunnel_walks_theory.specs.TunnelLegs.{HasPath, LegBehind, Path, transit_of};
ghost use Rattle.binding_spec.specs.Machines.{End};
ghost use Rattle.tunnel_walks_theory.specs.MachinesTerms.{got_of};
ghost use Rattle.tunnel_walks_theory.specs.HopNeeds.{look_of};
ghost use Rattle.tunnel_network_theory.specs.HopLimitsAlike.{kind_at, of_hop_limit};
ghost use Rattle.binding_spec.specs.NetworkWorld.{look_at, step_events, world};
ghost use Rattle.tunnel_network_theory.specs.FirstExecutions.{AlwaysMeets, MeetsFrom, MetAs};
ghost use Rattle.tunnel_network_theory.specs.IntentPaths.{HasPathFor};
ghost use Rattle.tunnel_network_theory.specs.NetworkTransits.{met_there};
ghost use Rattle.tunnel_network_theory.specs.HeaderOrigins.{IsHead, OriginsBehind};
ghost use Rattle.tunnel_network_theory.specs.NetworkWalks.{AlwaysHandsFrom, HandsFrom, handed_of};

/// Under any choices a network's walk hands over what the machine's walk does, after as many
/// stages: from a place where nothing is below, and from one where packets are, `n + 1` stages
/// behind the push of the lowest header (RFC 8986 sections 4.13 and 4.14).
pub fn a_network_walks_as_its_machine()
    ensures alone { (net : Network) (fuel : ℕ) (place : Place) (p : Packet) →
        (pick : ℕ → ℕ) (n taken : ℕ) →
        handed_own net n (tunnel_walk fuel net (Some place) (V6 p) [] pick taken)
        ≡ option_map handed_of
        (got_of step_events (own_move (world net most_stages)) fuel (open_at place p) pick taken) }
    ensures under { (net : Network) (fuel : ℕ) (place : Place) (p q : Packet) (below : List Packet) →
        (pick : ℕ → ℕ) (n taken : ℕ) →
        handed_own net n (tunnel_walk fuel net (Some place) (V6 p) (q ∷ below) pick taken)
        ≡ option_map handed_of
        (got_of step_events (own_move (world net most_stages)) fuel
        (tunnel_at p (q ∷ below) (suc n) place) pick taken) }
{}

/// The links of steps, each of which origins where the one before it ended, lead a packet to one
/// place.
pub fn steps_that_follow_lead_to_one_place()
    ensures { (net : Network) (limit node : ℕ) (ts : List Step) →
        is_some (stand_after net node ts) ≡ true → AreJoined (world net limit) ts }
{}

/// A header that is pushed at a place of the network, and walks alone along a beginning of steps
/// that go on from there, leads to a place of the network where an IPv6 packet goes on: the steps
/// up to it are done, and those that are left go on from it. Policies push such headers (RFC 8986
/// sections 4.13 and 4.14; own rule).
pub fn a_pushed_header_leads_to_an_origin()
    ensures origins { (net : Network) (limit : ℕ) (ts : List Step) (place : Place) (new : Packet) →
        (e : End Step ℕ Place) →
        Keeps net → IsHead new → IsPlace net place →
        is_some (stand_after net place.node ts) ≡ true →
        tunnel_of (world net limit) ts place new ≡ Some e → OriginsBehind net ts place.node e }
    ensures head { (policy : Policy) (reduced : Bool) → IsHead (outer_by policy reduced Family.V6 []) }
{}

/// The transit of the own packet to its next execution is the transit by look-ups alone, where the hop
/// limit is above the lowerings of that transit, and what the SID at its end does with the packet then
/// (RFC 8200 section 3; own rule).
pub fn a_transit_is_by_look_ups()
    ensures { (net : Network) (limit : ℕ) (ts : List Step) (place : Place) (p : Packet) →
        Keeps net → IsHow net place.node place.how → 0 < p.hop_limit →
        transit_of (world net limit) ts place p
        ≡ option_and_then (met_there net limit p) (transits.transit_of net p.destination ts place) }
{}

/// Where the links of each step lead to one place, a packet comes from a place, for all choices, to
/// its own hand-over with the steps as its trace exactly where there is a path of legs and a finish
/// along the steps; and each choice then executes the path's SIDs on the own packet, and hands over
/// what the path does.
pub fn a_network_hands_over_exactly_along_a_path()
    ensures has { (net : Network) (ts : List Step) (place : Place) (p : Packet) →
        AreJoined (world net most_stages) ts → AlwaysHandsFrom net ts place p →
        (path : Path ℕ Place Content) × HasPath (world net most_stages) ts place p path }
    ensures hands { (net : Network) (ts : List Step) (place : Place) (p : Packet) →
        AreJoined (world net most_stages) ts →
        (path : Path ℕ Place Content) → HasPath (world net most_stages) ts place p path →
        AlwaysHandsFrom net ts place p }
    ensures each { (net : Network) (ts : List Step) (place : Place) (p : Packet) →
        AreJoined (world net most_stages) ts →
        (path : Path ℕ Place Content) → HasPath (world net most_stages) ts place p path →
        (choices : List ℕ) (h : HandsFrom net ts place p choices) →
        (h.handed.sids ≡ path.sids) × (h.handed.content ≡ path.bared.inside) }
{}

/// Where the links of each step lead to one place, and a packet comes, for all choices, to its own
/// hand-over along the steps at one hop limit above 0, there is a number, its need, so that packets
/// that differ from it in their hop limit alone do so at just the hop limits above that number.
/// What a node does with such packets is the same but that it lowers their hop limit, and drops
/// those that it cannot lower (RFC 8200 section 3, RFC 8986 section 4.1).
pub fn a_packet_of_a_network_has_a_need()
    ensures shows { (net : Network) (place : Place) (form : Packet) (hop : ℕ) →
        look_at net place (with_hop_limit hop form)
        ≡ look_of of_hop_limit (kind_at net place form) hop }
    ensures need { (net : Network) (ts : List Step) (place : Place) (form : Packet) (hop : ℕ) →
        AreJoined (world net most_stages) ts → 0 < hop →
        AlwaysHandsFrom net ts place (with_hop_limit hop form) →
        (n : ℕ) × ((other : ℕ) → 0 < other →
        (n < other) ↔ AlwaysHandsFrom net ts place (with_hop_limit other form)) }
{}

/// The packet that a headend makes for an intent round an inner packet comes, for all choices, to
/// its own hand-over with the intent's steps as its trace, and hands over the inner packet lowered
/// by one, exactly where it has a path of legs along the intent's steps that does; and then each
/// choice executes the path's SIDs on it.
pub fn an_intent_is_realized_exactly_along_paths()
    ensures path { (net : Network) (intent : Intent) (segments : List ℕ) (inner : Content) →
        (hop : ℕ) → IsIntent net intent →
        AlwaysHands (OwnHandsOver net intent segments) inner hop
        ↔ HasPathFor net intent segments inner hop }
    ensures sids { (net : Network) (intent : Intent) (segments : List ℕ) (inner : Content) →
        (hop : ℕ) → IsIntent net intent → (x : HasPathFor net intent segments inner hop) →
        (choices : List ℕ) (h : OwnHandsOver net intent segments inner hop choices) →
        h.handed.sids ≡ x.path.sids }
{}

/// Where the links of each step lead to one place, a packet comes to its first execution, along a
/// beginning of the steps and for all choices: right below a header exactly where that header walks
/// alone to a place and the packet transits from there, and with nothing below exactly where there is
/// a transit. All choices then come to the same SID with the same steps left, and go on from the same
/// place as the same packet over the same packets (RFC 8986 sections 4.13 and 4.14; own rule).
pub fn a_leg_of_a_network_is_for_all_choices()
    ensures behind { (net : Network) (ts : List Step) (place : Place) (new own : Packet) →
        AreJoined (world net most_stages) ts →
        AlwaysMeets net ts place new (own ∷ []) ↔ LegBehind (world net most_stages) ts place new own }
    ensures behind_each { (net : Network) (ts : List Step) (place : Place) (new own : Packet) →
        AreJoined (world net most_stages) ts →
        (leg : LegBehind (world net most_stages) ts place new own) →
        (choices : List ℕ) (h : MeetsFrom net ts place new (own ∷ []) choices) → MetAs leg.end h }
    ensures alone { (net : Network) (ts : List Step) (place : Place) (own : Packet) →
        AreJoined (world net most_stages) ts →
        AlwaysMeets net ts place own []
        ↔ ((e : End Step ℕ (Met Place Packet Content)) ×
        (transit_of (world net most_stages) ts place own ≡ Some e)) }
    ensures alone_each { (net : Network) (ts : List Step) (place : Place) (own : Packet) →
        AreJoined (world net most_stages) ts → (e : End Step ℕ (Met Place Packet Content)) →
        transit_of (world net most_stages) ts place own ≡ Some e →
        (choices : List ℕ) (h : MeetsFrom net ts place own [] choices) → MetAs e h }
{}
