//! Laws about the definitions, each the contract of a function that does nothing.

ghost use Rattle.std.specs.Prelude.{◌≡◌, ℕ, suc, [], All, List, Ok, if◌then◌else◌, length, take};
ghost use Rattle.net_model.specs.Best.{lookup_of};
ghost use Rattle.net_model.specs.Network.{Network};
ghost use Rattle.net_model.specs.NetworkRulesTerms.{IsNetwork};
ghost use Rattle.srv6_rules.specs.declared.family.Family.{Family};
ghost use Rattle.packet_walk.specs.Flight.{InFlight};
ghost use Rattle.packet_walk.specs.FlightTerms.{IsCounted};
ghost use Rattle.packet_walk.specs.Rest.{rest_of};
ghost use Rattle.update_spec.specs.Changes.{added_entries, removed_entries};
ghost use Rattle.update_spec.specs.Joined.{joined_of};
ghost use Rattle.update_spec.specs.Lookups.{SameHit};
ghost use Rattle.update_spec.specs.Planning.{planning};
ghost use Rattle.update_flight.specs.Interleaving.{Move, given_to, moved_all, turns_of};
ghost use Rattle.update_flight.specs.MomentTables.{HasRoute};
ghost use Rattle.update_flight.specs.Transition.{edits, entered, is_before_switch};
ghost use Rattle.update_plan.specs.UpdateState.{plan_of, starting_by};
ghost use Rattle.update_plan.specs.UpdateStateTerms.{tables_between};

/// Over any sequence of packets that enter, turns and edits of an accepted plan, each packet takes the
/// walk of one description alone: the stages that are given to it are the beginning of its walk in the
/// old description, as many as it had turns, where it entered before the switch, and else in the new
/// one. It is so of each packet whose own walk has a route at each stage.
pub fn each_packet_takes_one_walk()
    ensures { (old new : Network) (moves more : List Move) (before after : InFlight) →
        IsNetwork old → planning old new ≡ Ok tt → IsCounted before → IsCounted after →
        let tables = tables_between old new in
        let t = moved_all tables (starting_by (plan_of old new)).transition moves in
        let own = if is_before_switch t then tables 0
        else tables (length (edits (added_entries old new) (removed_entries old new))) in
        let p = if is_before_switch t then before else after in
        let number = suc (length t.packets.packets) in
        All HasRoute (rest_of own p) →
        given_to tables number (entered t before after) more
        ≡ take (turns_of number more) (rest_of own p) }
{}

/// The first tables between two descriptions, of which nothing is hidden, look up as the old one, at
/// its numbers, and the last find what is equal in all fields to what the new one finds.
pub fn tables_between_are_both()
    ensures old { (old new : Network) (node table : ℕ) (family : Family) (a : ℕ) → old.hidden ≡ [] →
        lookup_of (tables_between old new 0) node table family a
        ≡ lookup_of old node table family a }
    ensures new { (old new : Network) (node table : ℕ) (family : Family) (a : ℕ) → IsNetwork old →
        IsNetwork new → new.hidden ≡ [] → planning old new ≡ Ok tt →
        let last = length (edits (added_entries old new) (removed_entries old new)) in
        SameHit (joined_of old new) new (lookup_of (tables_between old new last) node table family a)
        (lookup_of new node table family a) }
{}
