//! Laws about the definitions, each the contract of a function that does nothing.

ghost use Rattle.std.specs.Prelude.{◌≡◌, ℕ, [], Ok, Some, length};
ghost use Rattle.srv6_rules.specs.Packet.{Content};
ghost use Rattle.net_model.specs.Network.{Network};
ghost use Rattle.net_model.specs.NetworkRulesTerms.{IsNetwork};
ghost use Rattle.walk_rules.specs.Walk.{walk_of};
ghost use Rattle.walk_rules.specs.declared.place.Place.{Place};
ghost use Rattle.update_spec.specs.Changes.{added_entries, removed_entries};
ghost use Rattle.update_spec.specs.Planning.{planning};
ghost use Rattle.update_flight.specs.Transition.{edits};
ghost use Rattle.update_plan.specs.UpdateStateTerms.{tables_between};
ghost use Rattle.update_spec.specs.Alike.{SamePlace, SameStages};
ghost use Rattle.update_walks_theory.specs.AlikeTerms.{LooksAs};

/// In two networks that look up to equal entries, walks of one packet from the same place take the
/// same stages, but for the numbers of SIDs.
pub fn walks_look_alike()
    ensures { (a b : Network) (fuel : ℕ) (p q : Place) (content : Content) (pick : ℕ → ℕ)
        (taken : ℕ) → LooksAs a b → SamePlace a b p q →
        SameStages a b (walk_of fuel a (Some p) content pick taken)
        (walk_of fuel b (Some q) content pick taken) }
{}

/// The first tables between two descriptions look up to entries that are equal to those of the old
/// one, and the last to entries that are equal to those of the new one; so walks by them are the walks
/// of the descriptions themselves.
pub fn tables_between_look_as_both()
    ensures old { (old new : Network) → IsNetwork old → old.hidden ≡ [] →
        LooksAs (tables_between old new 0) old }
    ensures new { (old new : Network) → IsNetwork old → IsNetwork new → new.hidden ≡ [] →
        planning old new ≡ Ok tt →
        let last = length (edits (added_entries old new) (removed_entries old new)) in
        LooksAs (tables_between old new last) new }
{}
