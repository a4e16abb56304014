//! Laws about the definitions, each the contract of a function that does nothing.

ghost use Rattle.std.specs.Prelude.{◌≡◌, ◌-◌, ◌+◌, ◌*◌, ◌<◌, ◌≤◌, ◌↔◌, List, ℕ, drop, length, Some};
ghost use Rattle.std.specs.Option.{option_map};
ghost use Rattle.srv6_rules.specs.Packet.{Packet, V6};
ghost use Rattle.srv6_rules.specs.declared.family.Family.{Family};
ghost use Rattle.net_model.specs.Network.{Network};
ghost use Rattle.net_model.specs.NetworkKeeps.{Keeps};
ghost use Rattle.walk_rules.specs.declared.place.Place.{Place};
ghost use Rattle.walk_rules.specs.Relation.{IsPlace};
ghost use Rattle.walk_rules.specs.Walk.{choice_at, free_walk_of};
ghost use Rattle.intent_traces.specs.declared.trace_steps.TraceStep.{TraceStep};
ghost use Rattle.choice_graph.specs.declared.vertices.Vertex.{Vertex};
ghost use Rattle.choice_graph.specs.declared.vertices.Found.{Found};
ghost use Rattle.choice_graph.specs.declared.vertices.FirstMove.{FirstMove};
ghost use Rattle.choice_graph.specs.GraphWalksTerms.{walk_from};
ghost use Rattle.choice_graph.specs.FoundInGraphs.{found_at, found_from};
ghost use Rattle.loose_walks.specs.WalkStopsTerms.{ComesTo, answer_of_coming, coming, coming_of};
ghost use Rattle.loose_walks.specs.WayGraphs.{Numbers, found_in, graph_in, numbers_of, start_at};
ghost use Rattle.loose_walks.specs.WayGraphsTerms.{IsGraph, IsLeft};

/// The stages of a packet's walk come to a SID, with so many steps left and so much of the hop
/// limit, exactly where the walk over the graph comes to that answer with that hops_left, under the same
/// choices. Two stages more than its hop limit says are enough.
pub fn walks_are_ways_over_the_graph()
    ensures { (net : Network) (steps ts : List TraceStep) (numbers : Numbers) (graph : List Vertex)
        → (place : Place) (p : Packet) (pick : ℕ → ℕ) (fuel : ℕ)
        → Keeps net → IsGraph net p.destination steps numbers graph → IsLeft steps ts
        → IsPlace net place → place.family ≡ Family.V6 → p.hop_limit + 1 < fuel
        → option_map coming_of (walk_from graph (p.hop_limit - 1) pick
        (start_at net numbers ts place p.destination))
        ≡ coming net p.destination numbers.code ts
        (free_walk_of fuel net (Some place) (V6 p) pick 0) }
{}

/// Under every list of choices the stages of a packet's walk come to one SID with one number of
/// steps left exactly where that is found from its start in the graph, and the greatest number of
/// lowerings on the way, over all choices, is at most the hop limit less one.
pub fn all_choices_come_where_the_graph_finds()
    ensures { (net : Network) (steps ts : List TraceStep) (numbers : Numbers) (graph : List Vertex)
        → (place : Place) (p : Packet) (fuel answer : ℕ)
        → Keeps net → IsGraph net p.destination steps numbers graph → IsLeft steps ts
        → IsPlace net place → place.family ≡ Family.V6 → p.hop_limit + 1 < fuel
        → ((choices : List ℕ) → 0 < length choices
        → answer_of_coming (coming net p.destination numbers.code ts
        (free_walk_of fuel net (Some place) (V6 p) (choice_at choices) 0)) ≡ Some answer)
        ↔ ((f : Found) × (found_from graph (start_at net numbers ts place p.destination) ≡ Some f)
        × (f.answer ≡ answer) × (f.most ≤ p.hop_limit - 1)) }
{}

/// Under every row of choices the stages of a packet's walk come first to SID n with so many steps
/// left, and leave its hop limit so high that it can be lowered so many times more there, exactly
/// where that SID with those steps is found from its place, and the greatest number of lowerings
/// over all choices and those at the SID are together at most the hop limit less one.
pub fn all_choices_come_to_a_sid_that_is_found()
    ensures { (net : Network) (steps : List TraceStep) (left : ℕ) (place : Place) (p : Packet)
        → (fuel n rest lowers : ℕ) → Keeps net → length steps ≤ 48 → rest < 64
        → IsPlace net place → place.family ≡ Family.V6 → p.hop_limit + 1 < fuel
        → ((pick : ℕ → ℕ) → ComesTo net p.destination (drop (length steps - left) steps) n rest
        lowers (free_walk_of fuel net (Some place) (V6 p) pick 0))
        ↔ ((f : Found) × (found_in net p.destination steps left place ≡ Some f)
        × (f.answer ≡ n * 64 + rest) × (f.most + lowers ≤ p.hop_limit - 1)) }
{}

/// The graph of rows, one of nodes for each number of steps left, is such a graph.
pub fn networks_have_graphs()
    ensures { (net : Network) (destination : ℕ) (steps : List TraceStep)
        → IsGraph net destination steps (numbers_of net (length steps))
        (graph_in net destination steps) }
{}

/// What is found in that graph takes fewer lowerings than there are nodes, though it has a vertex for
/// each node and each number of steps left; from a start at most as many.
pub fn lowerings_are_fewer_than_the_nodes()
    ensures vertex { (net : Network) (destination : ℕ) (steps : List TraceStep) (v : ℕ) (f : Found)
        → Keeps net → found_at (graph_in net destination steps) v ≡ Some f
        → f.most < length net.nodes }
    ensures start { (net : Network) (destination : ℕ) (steps : List TraceStep) (start : FirstMove)
        → (f : Found) → Keeps net → found_from (graph_in net destination steps) start ≡ Some f
        → f.most ≤ length net.nodes }
{}
