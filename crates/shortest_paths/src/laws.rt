//! Laws of the definitions, each the contract of a function that does nothing.

ghost use Rattle.std.specs.Prelude.{◌≡◌, ◌+◌, ◌≤◌, ◌⊎◌, ◌↔◌, ◌∷◌, List, ℕ, length, slice_get, Option, Some, Contains};
ghost use Rattle.shortest_paths.specs.Walks.{AreDistances, IsDistance, IsNetwork, at};
ghost use Rattle.shortest_paths.specs.LeastWalks.{cost, BeginsLeast};
ghost use Rattle.shortest_paths.specs.NextHops.{Forwards, LeadsOn};
ghost use Rattle.shortest_paths.specs.Routes.{AreRoutes, Destinations, Follows, Takes};
ghost use Rattle.shortest_paths.specs.declared.links.Link.{Link};
ghost use Rattle.shortest_paths.specs.declared.routes.Route.{Route};

/// A node has one distance, so `distances` leaves no choice.
pub fn distances_are_determined()
    ensures { (links : List Link) (targets : List ℕ) (node : ℕ) (first second : Option ℕ)
        → IsDistance links targets node first → IsDistance links targets node second
        → first ≡ second }
{}

/// Where the distances are right, the next hops of a node are the links with which its least walks
/// to a target begin.
pub fn next_hops_begin_least_walks()
    ensures { (links : List Link) (distances : List (Option ℕ)) (targets : List ℕ)
        → AreDistances links targets distances → (node : ℕ) (link : Link) → Contains links link
        → LeadsOn distances node link ↔ BeginsLeast links targets node link }
{}

/// Whichever next hop is taken at each node, the distance falls with each hop by the link's metric,
/// so there are no more hops than the first distance, and no node is met twice.
pub fn forwarding_has_no_loop()
    ensures falls { (nodes : ℕ) (links : List Link) (distances : List (Option ℕ))
        → IsNetwork nodes links → (way : List Link) (node last d : ℕ)
        → at distances node ≡ Some d → Forwards links distances node way last
        → (rest : ℕ) × (at distances last ≡ Some rest) × (cost way + rest ≡ d)
        × (length way + rest ≤ d) }
    ensures no_loop { (nodes : ℕ) (links : List Link) (distances : List (Option ℕ))
        → IsNetwork nodes links → (node : ℕ) (link : Link) (way : List Link)
        → ¬ Forwards links distances node (link ∷ way) node }
{}

/// Where the distances are right, a target has no next hop, and any other node with a distance has
/// one. So a way from hop to hop that can't go on is at a target, and it cost the distance.
pub fn forwarding_comes_to_a_target()
    ensures target { (nodes : ℕ) (links : List Link) (distances : List (Option ℕ))
        → IsNetwork nodes links → (targets : List ℕ) → AreDistances links targets distances
        → (node : ℕ) (link : Link) → Contains links link → Contains targets node
        → ¬ LeadsOn distances node link }
    ensures goes_on { (nodes : ℕ) (links : List Link) (distances : List (Option ℕ))
        → IsNetwork nodes links → (targets : List ℕ) → AreDistances links targets distances
        → (node d : ℕ) → at distances node ≡ Some d
        → Contains targets node ⊎ ((link : Link) × Contains links link
        × LeadsOn distances node link) }
    ensures arrives { (nodes : ℕ) (links : List Link) (distances : List (Option ℕ))
        → IsNetwork nodes links → (targets : List ℕ) → AreDistances links targets distances
        → (node d last : ℕ) (way : List Link) → at distances node ≡ Some d
        → Forwards links distances node way last
        → ((link : Link) → Contains links link → ¬ LeadsOn distances last link)
        → Contains targets last × (cost way ≡ d) }
{}

/// Under the routes that `plan_routes` gives, whichever link of a route is taken at each node: what
/// is left to a destination's originators falls with each hop by the link's metric, so no node is
/// met twice. A way that can't go on is at an originator, and it cost the least. It holds for each
/// packet from a node from which some walk leads to an originator.
pub fn routed_packets_arrive()
    ensures falls { (nodes : ℕ) (links : List Link) → IsNetwork nodes links
        → (destinations : Destinations) (routes : List Route)
        → AreRoutes links destinations routes → (destination : ℕ) (originators : List ℕ)
        → slice_get destinations destination ≡ Some originators → (way : List Link)
        (node last d : ℕ) → IsDistance links originators node (Some d)
        → Follows links routes destination node way last
        → (rest : ℕ) × IsDistance links originators last (Some rest)
        × (cost way + rest ≡ d) × (length way + rest ≤ d) }
    ensures no_loop { (nodes : ℕ) (links : List Link) → IsNetwork nodes links
        → (destinations : Destinations) (routes : List Route)
        → AreRoutes links destinations routes → (destination : ℕ) (originators : List ℕ)
        → slice_get destinations destination ≡ Some originators → (node : ℕ) (link : Link)
        (way : List Link) → ¬ Follows links routes destination node (link ∷ way) node }
    ensures arrives { (nodes : ℕ) (links : List Link) → IsNetwork nodes links
        → (destinations : Destinations) (routes : List Route)
        → AreRoutes links destinations routes → (destination : ℕ) (originators : List ℕ)
        → slice_get destinations destination ≡ Some originators → (node d last : ℕ)
        (way : List Link) → IsDistance links originators node (Some d)
        → Follows links routes destination node way last
        → ((link : Link) → ¬ Takes links routes destination last link)
        → Contains originators last × (cost way ≡ d) }
{}
