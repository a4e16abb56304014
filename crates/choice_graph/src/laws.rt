//! Laws about the definitions, each the contract of a function that does nothing.

ghost use Rattle.std.specs.Prelude.{◌≡◌, ◌<◌, ◌≤◌, ◌↔◌, List, ℕ, length, true, Some, None};
ghost use Rattle.choice_graph.specs.GraphWalks.{vertex_at};
ghost use Rattle.choice_graph.specs.GraphWalksTerms.{AlwaysComes, AlwaysComesFrom, answer_of, picks_of, walk_from};
ghost use Rattle.choice_graph.specs.FoundInGraphs.{found_at, found_by, found_from, found_in};
ghost use Rattle.choice_graph.specs.FoundInGraphsTerms.{IsOver, StandsOver, found_under};
ghost use Rattle.choice_graph.specs.GraphLegs.{AlwaysGoesThrough, Leg, need};
ghost use Rattle.choice_graph.specs.declared.vertices.Found.{Found};
ghost use Rattle.choice_graph.specs.declared.vertices.Vertex.{Vertex};
ghost use Rattle.choice_graph.specs.declared.vertices.FirstMove.{FirstMove};

/// What is found at a vertex is where all choices come: its number is enough for all of them, and no
/// lower one is. Nothing is found exactly where no number is enough for all choices to come to one
/// answer: where choices disagree, where one is lost, and where a loop can be passed any number of
/// times.
pub fn found_vertices_are_where_all_choices_come()
    ensures most { (vertices : List Vertex) (v : ℕ) (f : Found) → (found_at vertices v ≡ Some f)
        ↔ ((hops_left : ℕ) → (f.most ≤ hops_left) ↔ AlwaysComes vertices hops_left v f.answer) }
    ensures none { (vertices : List Vertex) (v : ℕ) → (found_at vertices v ≡ None)
        ↔ ((hops_left answer : ℕ) → ¬ AlwaysComes vertices hops_left v answer) }
{}

/// So it is for a start in front of a graph, whether its first move lowers or not.
pub fn found_starts_are_where_all_choices_come()
    ensures most { (vertices : List Vertex) (start : FirstMove) (f : Found)
        → (found_from vertices start ≡ Some f)
        ↔ ((hops_left : ℕ) → (f.most ≤ hops_left) ↔ AlwaysComesFrom vertices hops_left start f.answer) }
    ensures none { (vertices : List Vertex) (start : FirstMove) → (found_from vertices start ≡ None)
        ↔ ((hops_left answer : ℕ) → ¬ AlwaysComesFrom vertices hops_left start answer) }
{}

/// What is found at a vertex is made of what is found at its next ones, and a deeper look than by as
/// many moves as there are vertices finds no more.
pub fn deeper_looks_find_no_more()
    ensures made { (vertices : List Vertex) (v : ℕ)
        → found_by true (found_at vertices) (vertex_at vertices v) ≡ found_at vertices v }
    ensures deeper { (vertices : List Vertex) (depth v : ℕ) → length vertices ≤ depth
        → found_in vertices depth v ≡ found_at vertices v }
    ensures few { (vertices : List Vertex) (v : ℕ) (f : Found) → found_at vertices v ≡ Some f
        → f.most < length vertices }
{}

/// A walk asks for no more choices than it has moves, so to come to an answer for every list of
/// choices, which begins anew at its end, and for all choices without an end is the same.
pub fn lists_of_choices_are_enough()
    ensures { (vertices : List Vertex) (hops_left : ℕ) (start : FirstMove) (answer : ℕ)
        → ((choices : List ℕ) → 0 < length choices
        → answer_of (walk_from vertices hops_left (picks_of choices) start) ≡ Some answer)
        ↔ AlwaysComesFrom vertices hops_left start answer }
{}

/// A graph that stands over a smaller one, as one of nodes and steps left over that of the nodes
/// alone, finds nothing that isn't found there, with the same number of lowerings. So there are
/// fewer of them than nodes, though there are many more vertices.
pub fn lowerings_are_fewer_than_nodes()
    ensures under { (under answer_under : ℕ → ℕ) (vertices nodes : List Vertex)
        → StandsOver under answer_under vertices nodes → (v : ℕ) (f : Found)
        → found_at vertices v ≡ Some f → found_at nodes (under v) ≡ Some (found_under answer_under f) }
    ensures few { (under answer_under : ℕ → ℕ) (vertices nodes : List Vertex)
        → StandsOver under answer_under vertices nodes → (v : ℕ) (f : Found)
        → found_at vertices v ≡ Some f → f.most < length nodes }
    ensures start { (under answer_under : ℕ → ℕ) (vertices nodes : List Vertex)
        → StandsOver under answer_under vertices nodes → (start below : FirstMove) (f : Found)
        → start.lowers ≡ below.lowers → IsOver vertices under answer_under start.vertex below.vertex
        → found_from vertices start ≡ Some f
        → found_from nodes below ≡ Some (found_under answer_under f) }
    ensures few_from { (under answer_under : ℕ → ℕ) (vertices nodes : List Vertex)
        → StandsOver under answer_under vertices nodes → (start : FirstMove) (f : Found)
        → found_from vertices start ≡ Some f → f.most ≤ length nodes }
{}

/// For legs one after the other the sum of their needs is enough for all choices, and no lower
/// number is, since the choices of different legs don't depend on one another. The way back: where
/// some number is enough for all choices, each leg is found with the answer that it has to have. So
/// no need is there exactly where no number is enough.
pub fn needs_of_legs_add_up()
    ensures most { (legs : List Leg) (n : ℕ) → (need legs ≡ Some n)
        ↔ ((hops_left : ℕ) → (n ≤ hops_left) ↔ AlwaysGoesThrough legs hops_left) }
    ensures none { (legs : List Leg) → (need legs ≡ None)
        ↔ ((hops_left : ℕ) → ¬ AlwaysGoesThrough legs hops_left) }
{}
