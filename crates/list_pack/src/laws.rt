//! Laws of costs, potentials, paths as lists, and SIDs of lists, each the contract of a function
//! that does nothing.

ghost use Rattle.std.specs.Prelude.{◌≡◌, ◌*◌, ◌<◌, ℕ, List, Option, Some, None, All, length, map, take};
ghost use Rattle.list_pack.specs.declared.types.Cost.{Cost};
ghost use Rattle.list_pack.specs.declared.types.State.{State};
ghost use Rattle.list_pack.specs.LegsValue.{LegsValue};
ghost use Rattle.list_pack.specs.LegsValueTerms.{KeepsLaws};
ghost use Rattle.list_pack.specs.Costs.{Move, cost_of, start, IsState};
ghost use Rattle.list_pack.specs.Least.{IsLeast, IsGoodAt, IsSolution, step_of};
ghost use Rattle.list_pack.specs.declared.types.Solution.{Solution};
ghost use Rattle.net_model.specs.Network.{Network};
ghost use Rattle.sid_list_spec.specs.SegmentLists.{IsLegal};
ghost use Rattle.list_pack.specs.declared.types.Container.{Container};
ghost use Rattle.net_flatness.specs.Flat.{IsFlat};
ghost use Rattle.net_flatness.specs.Nests.{MayFollow};
ghost use Rattle.net_model.specs.NetworkRulesTerms.{IsNetwork};
ghost use Rattle.list_pack.specs.SidLists.{KeepsNests, list_sid, list_in, prefixes_in, steps_in};
ghost use Rattle.list_pack.specs.SidListsTerms.{AreListSids};
ghost use Rattle.list_pack.specs.PathsTerms.{hops_of, sids_of_moves, opened, split_cost, SuitsLists};
ghost use Rattle.list_pack.specs.PathLists.{IsListOfPath, before_last, IsPathAlong, list_of};

/// Where potentials are good at all states, a path whose cost is the potential of the state that it
/// starts from is a least one: its edges are tight.
pub fn a_path_of_tight_edges_is_least()
    ensures { (v : LegsValue) (p : State → Option Cost) (s : State) (moves : List Move) (c : Cost) →
        KeepsLaws v →
        ((t : State) → IsState v t → IsGoodAt v p t) → IsState v s →
        p s ≡ Some c → cost_of v s moves ≡ Some c → IsLeast v s (Some c) }
{}

/// Where potentials are good at all states, no path leads from a state without one to the end.
pub fn unlisted_states_have_no_path()
    ensures { (v : LegsValue) (p : State → Option Cost) (s : State) (moves : List Move) →
        KeepsLaws v →
        ((t : State) → IsState v t → IsGoodAt v p t) → IsState v s →
        p s ≡ None → cost_of v s moves ≡ None }
{}

/// Potentials that are the least costs of all states are good at all states.
pub fn least_costs_are_good()
    ensures { (v : LegsValue) (p : State → Option Cost) (s : State) → KeepsLaws v →
        ((t : State) → IsState v t → IsLeast v t (p t)) → IsState v s → IsGoodAt v p s }
{}

/// A path's cost is told by rooms and legs apart: it has one exactly where each SID can stand as
/// its move says and its legs lead to a finish; it costs as many containers as moves open, what its
/// SIDs cost, and the hops of the legs.
pub fn a_cost_is_containers_sids_and_hops()
    ensures splits { (v : LegsValue) (s : State) (moves : List Move) →
        cost_of v s moves ≡ split_cost v s.position s.via s.room moves }
    ensures containers { (v : LegsValue) (s : State) (moves : List Move) (c : Cost) →
        cost_of v s moves ≡ Some c → c.containers ≡ opened moves }
    ensures sids { (v : LegsValue) (s : State) (moves : List Move) (c : Cost) →
        cost_of v s moves ≡ Some c → c.sids ≡ v.sid_cost * length moves }
    ensures hops { (v : LegsValue) (s : State) (moves : List Move) (c : Cost) →
        cost_of v s moves ≡ Some c →
        hops_of v s.position s.via (sids_of_moves moves) ≡ Some c.hops }
{}

/// A path from the start is a legal list, with the path's steps and as many containers as it costs
/// (RFC 9800 sections 6.2 to 6.4, and own rule).
pub fn a_path_is_a_legal_list()
    ensures { (v : LegsValue) (net : Network) (moves : List Move) (c : Cost) →
        KeepsLaws v → SuitsLists v (list_sid net) (MayFollow net) →
        cost_of v start moves ≡ Some c → IsListOfPath net (map (step_of v) moves) c.containers }
{}

/// SIDs whose prefixes are the first of a legal list's, up to one in its last container, and whose
/// legs lead to a finish are a path: it has the list's steps, and costs its containers, what its
/// SIDs cost, and the hops of the legs (RFC 9800 sections 6.2 to 6.4, and own rule).
pub fn a_legal_list_is_a_path()
    ensures { (v : LegsValue) (net : Network) (list : List Container) (sids : List ℕ) (hops : ℕ) →
        KeepsLaws v → SuitsLists v (list_sid net) (MayFollow net) → IsLegal (list_in net list) →
        All (KeepsNests net) list → hops_of v 0 None sids ≡ Some hops →
        map (λ (n : ℕ). (v.shape n).prefix) sids ≡ take (length sids) (prefixes_in list) →
        before_last list < length sids → IsPathAlong v list sids hops }
{}

/// What a search has to find is one: which states are listed, in what order and with what costs,
/// and the first least path.
pub fn a_search_has_one_solution()
    ensures { (v : LegsValue) (s t : Solution) → IsSolution v s → IsSolution v t → s ≡ t }
{}

/// A legal list is the list of its own steps: the rules of lists say which of its containers are
/// full and which hold CSIDs alone, so no other legal list has the same steps (RFC 9800 sections
/// 6.2 to 6.4, and own rule).
pub fn a_legal_list_is_the_list_of_its_steps()
    ensures { (net : Network) (list : List Container) → IsLegal (list_in net list) →
        list_of net (steps_in list) ≡ list }
{}

/// Each SID of a flat network stands on its prefix as lists know it: it suits its block, and one
/// from which packets go on has the flavour of its prefix (RFC 9800 section 4, and own rules).
pub fn sids_of_a_flat_network_suit_lists()
    ensures { (net : Network) → IsNetwork net → IsFlat net → AreListSids net }
{}
