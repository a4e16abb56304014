//! Laws of the definitions: each is the contract of an empty function.

ghost use Rattle.std.specs.Prelude.{◌≡◌, ◌≢◌, ℕ, Bool, true, List, [], slice_get, Some, Ok};
ghost use Rattle.srv6_rules.specs.declared.family.Family.{Family};
ghost use Rattle.srv6_rules.specs.declared.sid.SidEntry.{SidEntry};
ghost use Rattle.net_model.specs.declared.parts.Route.{Route};
ghost use Rattle.net_model.specs.declared.net.Hit.{Hit};
ghost use Rattle.net_model.specs.declared.net.Hit.TheVariants.{Nothing};
ghost use Rattle.net_model.specs.Network.{Network, is_shown};
ghost use Rattle.net_model.specs.NetworkRulesTerms.{IsNetwork};
ghost use Rattle.net_model.specs.NetworkJudging.{title_text};
ghost use Rattle.net_model.specs.NetworkJudgingTerms.{InRange};
ghost use Rattle.net_model.specs.Best.{lookup_of};
ghost use Rattle.update_spec.specs.Joined.{joined_of};
ghost use Rattle.update_spec.specs.Lookups.{SameHit};
ghost use Rattle.update_theory.specs.LookupsTerms.{shown_lookup, is_of_old, is_of_new};
ghost use Rattle.update_spec.specs.Planning.{planning};

/// Where nothing keeps a network from passing from an old description to a new one, the network
/// that has the entries of both keeps all rules of networks, and its parts are in range.
pub fn joined_networks_keep_the_rules()
    ensures rules { (old new : Network) → IsNetwork old → IsNetwork new → InRange old → InRange new
        → planning old new ≡ Ok tt → IsNetwork (joined_of old new) }
    ensures range { (old new : Network) → IsNetwork old → IsNetwork new → InRange old → InRange new
        → planning old new ≡ Ok tt → InRange (joined_of old new) }
{}

/// Look-ups in the joined network are those of both descriptions, in which nothing is hidden: with
/// the added entries hidden each address is looked up to what the old description has at that
/// number, and with the removed ones hidden, where nothing keeps the network from passing over, to
/// an entry that is equal in all fields to the one that the new description has.
pub fn joined_networks_look_up_as_both()
    ensures old { (old new : Network) (node table : ℕ) (family : Family) (a : ℕ) → old.hidden ≡ []
        → shown_lookup (is_of_old old) (joined_of old new) node table family a
        ≡ lookup_of old node table family a }
    ensures old_routes { (old new : Network) (n : ℕ) (r : Route) → slice_get old.routes n ≡ Some r
        → slice_get (joined_of old new).routes n ≡ Some r }
    ensures old_sids { (old new : Network) (n : ℕ) (s : SidEntry) → IsNetwork old
        → slice_get old.sids n ≡ Some s → (slice_get (joined_of old new).sids n ≡ Some s)
        × (title_text (joined_of old new).titles s ≡ title_text old.titles s) }
    ensures new { (old new : Network) (node table : ℕ) (family : Family) (a : ℕ) → IsNetwork old
        → IsNetwork new → new.hidden ≡ [] → planning old new ≡ Ok tt → SameHit (joined_of old new) new
        (shown_lookup (is_of_new old new) (joined_of old new) node table family a)
        (lookup_of new node table family a) }
    ensures hidden { (net : Network) (hidden : List Hit) (node table : ℕ) (family : Family) (a : ℕ)
        → net.hidden ≡ [] → shown_lookup (is_shown hidden) net node table family a
        ≡ lookup_of (record net { hidden = hidden }) node table family a }
{}

/// Where nothing keeps the network from passing over, an address that a description has an entry
/// for is looked up to the same entry of it, whatever else of the other description is shown.
pub fn own_matches_stay()
    ensures old { (old new : Network) (shown : Hit → Bool) (node table : ℕ) (family : Family)
        (a : ℕ) → planning old new ≡ Ok tt
        → ((h : Hit) → is_of_old old h ≡ true → shown h ≡ true)
        → shown_lookup (is_of_old old) (joined_of old new) node table family a ≢ Nothing
        → shown_lookup shown (joined_of old new) node table family a
        ≡ shown_lookup (is_of_old old) (joined_of old new) node table family a }
    ensures new { (old new : Network) (shown : Hit → Bool) (node table : ℕ) (family : Family)
        (a : ℕ) → IsNetwork old → planning old new ≡ Ok tt
        → ((h : Hit) → is_of_new old new h ≡ true → shown h ≡ true)
        → shown_lookup (is_of_new old new) (joined_of old new) node table family a ≢ Nothing
        → shown_lookup shown (joined_of old new) node table family a
        ≡ shown_lookup (is_of_new old new) (joined_of old new) node table family a }
{}
