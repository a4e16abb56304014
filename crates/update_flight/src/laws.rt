//! Laws about the definitions, each the contract of a function that does nothing.

ghost use Rattle.std.specs.Prelude.{◌≡◌, ℕ, suc, ◌-◌, ◌≤◌, [], All, IfSome, List, None, Ok, Some, if◌then◌else◌, length, take};
ghost use Rattle.net_model.specs.Best.{lookup_of};
ghost use Rattle.net_model.specs.Network.{Network};
ghost use Rattle.net_model.specs.NetworkRulesTerms.{IsNetwork};
ghost use Rattle.srv6_rules.specs.Packet.{Content};
ghost use Rattle.srv6_rules.specs.declared.family.Family.{Family};
ghost use Rattle.walk_rules.specs.Walk.{stage_of};
ghost use Rattle.walk_rules.specs.declared.place.Place.{Place};
ghost use Rattle.packet_walk.specs.Flight.{InFlight, packet_in};
ghost use Rattle.packet_walk.specs.FlightTerms.{IsCounted};
ghost use Rattle.packet_walk.specs.Rest.{rest_of};
ghost use Rattle.update_spec.specs.Joined.{joined_of};
ghost use Rattle.update_spec.specs.Lookups.{SameHit};
ghost use Rattle.update_spec.specs.Planning.{planning};
ghost use Rattle.net_model.specs.declared.net.EntryId.{EntryId};
ghost use Rattle.update_flight.specs.Interleaving.{Move, PassOver, given_to, moved, own_of, turns_of};
ghost use Rattle.update_flight.specs.Planned.{added_entries, removed_entries};
ghost use Rattle.update_flight.specs.PlannedTerms.{ShowsEdits};
ghost use Rattle.update_flight.specs.MomentTables.{HasRoute};
ghost use Rattle.update_flight.specs.MomentTablesTerms.{KeepsOwn};
ghost use Rattle.update_flight.specs.Transition.{Transition, edit_count, edited, edits, entered, first_early, is_before_switch, starting};
ghost use Rattle.update_flight.specs.TransitionTerms.{HaveEnded, IsTransition};

/// A stage that is no drop for want of a route in a packet's own description is the same by tables
/// that keep the description's own matches.
pub fn own_stages_stay()
    ensures { (own now : Network) → KeepsOwn own now →
        (place : Place) (content : Content) (choice : ℕ) →
        HasRoute (stage_of own place content choice) →
        stage_of now place content choice ≡ stage_of own place content choice }
{}

/// Over any sequence of packets that enter, turns and edits, by tables that pass from an old
/// description to a new one, the stages that are given to a packet are the beginning of its walk in
/// one description, as many as it had turns: in the old one where it entered before the switch, else
/// in the new one. It is so of each packet whose own walk has a route at each stage.
pub fn a_packet_takes_the_walk_of_its_description()
    ensures rest { (tables : ℕ → Network) (t : Transition) (number : ℕ) (moves : List Move) →
        (p : InFlight) → PassOver tables t.added t.removed → IsTransition t →
        packet_in t.packets.packets number ≡ Some p → IsCounted p →
        All HasRoute (rest_of (own_of tables t number) p) →
        given_to tables number t moves
        ≡ take (turns_of number moves) (rest_of (own_of tables t number) p) }
    ensures own { (tables : ℕ → Network) (t : Transition) (old new : InFlight) → IsTransition t →
        own_of tables (entered t old new) (suc (length t.packets.packets))
        ≡ (if is_before_switch t then tables 0 else tables (edit_count t)) }
{}

/// What is so of a transition stays so, whatever comes, and an edit changes no packet.
pub fn a_transition_stays_one()
    ensures start { (added removed : List EntryId) → IsTransition (starting added removed) }
    ensures move_ { (tables : ℕ → Network) (t : Transition) (move : Move) → IsTransition t →
        IsTransition (moved tables t move) }
    ensures packets { (t : Transition) → (edited t).packets ≡ t.packets }
{}

/// The packet that keeps a removal waiting is the first of those that entered before the switch and
/// are in flight, and there is none exactly where all those have ended.
pub fn a_removal_waits_for_the_first_early_packet()
    ensures waits { (t : Transition) (number : ℕ) → first_early t ≡ Some number →
        (number ≤ t.early) × IfSome (packet_in t.packets.packets number) (λ p. p.ended ≡ None)
        × HaveEnded (number - 1) t.packets.packets }
    ensures none { (t : Transition) → first_early t ≡ None → HaveEnded t.early t.packets.packets }
    ensures ended { (t : Transition) → HaveEnded t.early t.packets.packets → first_early t ≡ None }
{}

/// Tables that show what the edits of an accepted plan leave pass from the old description to the
/// new one, in the sense of that law. The first look up as the old description, at its numbers, and the
/// last find what is equal in all fields to what the new one finds.
pub fn planned_tables_pass_over()
    ensures pass { (old new : Network) (tables : ℕ → Network) → IsNetwork old →
        planning old new ≡ Ok tt → ShowsEdits old new tables →
        PassOver tables (added_entries old new) (removed_entries old new) }
    ensures old { (old new : Network) (tables : ℕ → Network) →
        (node table : ℕ) (family : Family) (a : ℕ) → old.hidden ≡ [] → ShowsEdits old new tables →
        lookup_of (tables 0) node table family a ≡ lookup_of old node table family a }
    ensures new { (old new : Network) (tables : ℕ → Network) →
        (node table : ℕ) (family : Family) (a : ℕ) → IsNetwork old → IsNetwork new →
        new.hidden ≡ [] → planning old new ≡ Ok tt → ShowsEdits old new tables →
        let last = length (edits (added_entries old new) (removed_entries old new)) in
        SameHit (joined_of old new) new (lookup_of (tables last) node table family a)
        (lookup_of new node table family a) }
{}
