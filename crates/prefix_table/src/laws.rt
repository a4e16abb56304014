//! Laws of the definitions: each is the contract of an empty function.

ghost use Rattle.std.specs.Prelude.{◌≡◌, ◌↔◌, ℕ, true, List, [], ◌∷◌, ◌++◌, if◌then◌else◌, Option, Some, None, IsSome, slice_get, Contains};
ghost use Rattle.std.specs.List.{swap_remove};
ghost use Rattle.v6_addr.specs.Address.{PrefixValue};
ghost use Rattle.prefix_table.specs.PrefixTable.{IsTable, HasPrefix, IsBest, IsBestMatch, IsBetter, is_one_prefix, value_at, with_value};

/// A law: since each prefix stands once, the longest entry that holds an address is one (RFC 1812
/// section 5.2.4.3, rule 2).
pub fn best_is_one<T>()
    ensures { (entries : List (PrefixValue × T)) (a : ℕ) (e f : PrefixValue × T) → IsTable entries
        → IsBest entries a e → IsBest entries a f → e ≡ f }
{}

/// A law: an entry after the others is the best match where it holds the address and is longer
/// than the best match before it, and else that stays (RFC 1812 section 5.2.4.3, rule 2).
pub fn best_with_one_more<T>()
    ensures better { (entries : List (PrefixValue × T)) (a : ℕ) (e : PrefixValue × T)
        (best : Option (PrefixValue × T)) → IsBestMatch entries a best → IsBetter best a e
        → IsBestMatch (entries ++ e ∷ []) a (Some e) }
    ensures no_better { (entries : List (PrefixValue × T)) (a : ℕ) (e : PrefixValue × T)
        (best : Option (PrefixValue × T)) → IsBestMatch entries a best → ¬ IsBetter best a e
        → IsBestMatch (entries ++ e ∷ []) a best }
{}

/// A law: a table has a value at the prefixes of its entries alone, and it is the entry's.
pub fn values_are_of_entries<T>()
    ensures one { (p q : PrefixValue) → is_one_prefix p q ≡ true ↔ p ≡ q }
    ensures there { (entries : List (PrefixValue × T)) (p : PrefixValue)
        → IsSome (value_at entries p) ↔ HasPrefix entries p }
    ensures value { (entries : List (PrefixValue × T)) (p : PrefixValue) (t : T) → IsTable entries
        → Contains entries (p, t) → value_at entries p ≡ Some t }
{}

/// A law: an entry more, an entry less and another value change what stands at that prefix alone,
/// and leave a table.
pub fn edits_change_one_prefix<T>()
    ensures more { (entries : List (PrefixValue × T)) (p q : PrefixValue) (t : T)
        → ¬ HasPrefix entries p → value_at (entries ++ (p, t) ∷ []) q
        ≡ (if is_one_prefix p q then Some t else value_at entries q) }
    ensures less { (entries : List (PrefixValue × T)) (place : ℕ) (p q : PrefixValue) (t : T)
        → IsTable entries → slice_get entries place ≡ Some (p, t)
        → value_at (swap_remove entries place (p, t)) q
        ≡ (if is_one_prefix p q then None else value_at entries q) }
    ensures other { (entries : List (PrefixValue × T)) (p q : PrefixValue) (t : T)
        → HasPrefix entries p → value_at (with_value entries p t) q
        ≡ (if is_one_prefix p q then Some t else value_at entries q) }
    ensures less_is_table { (entries : List (PrefixValue × T)) (place : ℕ) (e : PrefixValue × T)
        → IsTable entries → slice_get entries place ≡ Some e
        → IsTable (swap_remove entries place e) }
    ensures other_is_table { (entries : List (PrefixValue × T)) (p : PrefixValue) (t : T)
        → IsTable entries → IsTable (with_value entries p t) }
{}
