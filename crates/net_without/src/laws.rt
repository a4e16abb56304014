//! Laws of the definitions: each is the contract of an empty function.

ghost use Rattle.std.specs.Prelude.{◌≡◌, ℕ, Bool, true, [], slice_get, Some, Ok};
ghost use Rattle.srv6_rules.specs.declared.family.Family.{Family};
ghost use Rattle.net_model.specs.declared.parts.Route.{Route};
ghost use Rattle.net_model.specs.Network.{Network};
ghost use Rattle.net_model.specs.NetworkRulesTerms.{IsNetwork};
ghost use Rattle.net_model.specs.NetworkJudging.{judging};
ghost use Rattle.net_model.specs.NetworkJudgingTerms.{InRange};
ghost use Rattle.net_model.specs.Best.{lookup_of};
ghost use Rattle.update_theory.specs.LookupsTerms.{shown_lookup};
ghost use Rattle.net_without.specs.Without.{is_left_route, cut_route, network_left};
ghost use Rattle.net_without.specs.WithoutTerms.{place_left, renumbered, is_left_hit};

/// A network in which some links are down keeps all rules of networks, and its parts are in range
/// and have no fault.
pub fn networks_left_keep_the_rules()
    ensures rules { (net : Network) (up : ℕ → Bool) → IsNetwork net → InRange net
        → IsNetwork (network_left up net) }
    ensures range { (net : Network) (up : ℕ → Bool) → InRange net → InRange (network_left up net) }
    ensures faultless { (net : Network) (up : ℕ → Bool) → IsNetwork net → InRange net
        → judging (network_left up net) [] ≡ Ok tt }
{}

/// Where nothing is hidden, a look-up in a network in which some links are down finds what the
/// look-up among the entries that stay finds, by the number that it has then; and a route that
/// stays has that number, and its links that are up.
pub fn networks_left_look_up_what_is_left()
    ensures lookups { (net : Network) (up : ℕ → Bool) (node table : ℕ) (family : Family) (a : ℕ)
        → net.hidden ≡ []
        → lookup_of (network_left up net) node table family a
        ≡ renumbered up net (shown_lookup (is_left_hit up net) net node table family a) }
    ensures routes { (net : Network) (up : ℕ → Bool) (n : ℕ) (r : Route)
        → slice_get net.routes n ≡ Some r → is_left_route up r ≡ true
        → slice_get (network_left up net).routes (place_left (is_left_route up) net.routes n)
        ≡ Some (cut_route up r) }
{}
