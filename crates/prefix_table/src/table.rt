//! The table: a list of entries, and where each stands by its prefix.

ghost use Rattle.std.specs.Prelude.{◌≡◌, ℕ, ◌<◌, ◌≤◌, ◌↔◌, IsTrue, ◌∷◌, ◌++◌, [], if◌then◌else◌, length, slice_get, Some, None, IsSome, IfSome, IfNone, MatchOption, MatchResult, OnOk, OnErr};
ghost use Rattle.std.specs.List.{swap_remove};
ghost use Rattle.std.specs.Vec.{vec_len, vec_capacity};
ghost use Rattle.std.specs.BTreeMap as map;
ghost use Rattle.v6_addr.specs.Address.{PrefixValue};
ghost use Rattle.prefix_table.specs.PrefixTable.{HasPrefix, InsertFails, IsTable, HoldsNone, IsBest, HasAround, is_one_prefix, value_at, with_value};
ghost use Rattle.prefix_table.specs.Index.{key_cmp, key_of, place_at, AreLengths, IsTold};
ghost use Rattle.prefix_table.specs.declared.index.Key.{Key};

use crate::fault::TableFault;
use crate::index::{Index, Key, key_of};
use std::alloc::{AllocError, AllocFailed, Global};
use std::marker::Model;
use v6_addr::{Addr, Prefix};

/// Prefixes with a value each. Each prefix stands once. An entry that is added stands
/// after the others; where one is taken out the last takes its place.
///
/// A look-up takes as many steps as lengths occur, each a look-up in an ordered map.
#[derive(Debug, Drop)]
pub struct Table<T> {
    entries: Vec<(Prefix, T)>,
    index: Index,
}

impl<T> Model for Table<T> {
    ghost use Rattle.std.specs.Prelude.{List};
    ghost use Rattle.v6_addr.specs.Address.{PrefixValue};
    ghost use Rattle.prefix_table.specs.Index.{IsWhole};

    ghost Value = { List (PrefixValue × T) };

    ghost view = { λ t. t.entries.items };

    ghost invariant = { λ t. IsWhole t.entries.items t.index };
}

/// Room is made for one more entry, and its place is put to its key.
fn make_room<T>(
    entries: &mut Vec<(Prefix, T)>,
    index: &mut Index,
    key: Key,
) -> Result<(), AllocError>
    requires lengths { AreLengths index.old }
    requires few { key.len ≤ 128 }
    ensures entries { entries.new.items ≡ entries.old.items }
    ensures lengths { AreLengths index.new }
    ensures room { OnOk result (vec_len entries.new < vec_capacity entries.new) }
    ensures ok { OnOk result (map.Updates key_cmp index.old.places index.new.places key
        (Some (length entries.old.items))) }
    ensures err { OnErr result ((k : Key) → place_at index.new k ≡ place_at index.old k) }
{
    entries.reserve(1)?;
    index.put(key, entries.len())
}

/// The key of the entry at a place is told the place, where an entry stands there.
fn tell_place<T>(entries: &[(Prefix, T)], index: &mut Index, place: usize)
    requires lengths { AreLengths index.old }
    requires there { (e : PrefixValue × T) → slice_get entries.now place ≡ Some e
        → IsSome (place_at index.old (key_of e.0)) }
    ensures lengths { AreLengths index.new }
    ensures told { IsTold entries.now index.old index.new place }
{
    if let Some(entry) = entries.get(place) {
        index.move_to(key_of(entry.0), place);
    }
}

impl<T> Table<T> {
    /// A table without entries.
    pub fn new(alloc: Global) -> Table<T>
        ensures { result ≡ [] }
    {
        Table {
            entries: Vec::new(alloc),
            index: Index::new(alloc),
        }
    }

    /// Adds an entry after the others. `Taken` exactly where the prefix is there, whatever its
    /// value; want of memory is free. After both the table is as it was.
    pub fn insert(&mut self, p: Prefix, t: T) -> Result<(), TableFault>
    where
        T: Drop,
        ensures cases { MatchResult result
            (λ _. (¬ HasPrefix self.old p) × (self.new ≡ self.old ++ (p, t) ∷ []))
            (λ fault. (self.new ≡ self.old) × InsertFails self.old p fault) }
    {
        if self.has(p) {
            return Err(TableFault::Taken { prefix: p });
        }
        self.insert_new(p, t)?;
        Ok(())
    }

    /// Whether a prefix is that of one of the entries.
    fn has(&self, p: Prefix) -> bool
        ensures { IsTrue result ↔ HasPrefix self.now p }
    {
        self.index.has(key_of(p))
    }

    /// Adds an entry, whose prefix is known not to be there, after the others. After
    /// want of memory the table is as it was.
    pub fn insert_new(&mut self, p: Prefix, t: T) -> Result<(), AllocFailed<(Prefix, T)>>
        requires { ¬ HasPrefix self.old p }
        ensures ok { OnOk result (self.new ≡ self.old ++ (p, t) ∷ []) }
        ensures err { OnErr result (self.new ≡ self.old) }
    {
        let key = key_of(p);
        match make_room(&mut self.entries, &mut self.index, key) {
            Err(_) => Err(AllocFailed { value: (p, t) }),
            Ok(()) => {
                self.entries.push((p, t))?;
                Ok(())
            }
        }
    }

    /// Takes the entry with a prefix out, and gives its value; the last entry takes its place. `None` exactly where the prefix is not there, and then nothing changes. It takes no
    /// memory.
    pub fn swap_remove(&mut self, p: &Prefix) -> Option<T>
    where
        T: Drop,
        ensures value { result ≡ value_at self.old p.now }
        ensures gone { IfSome result (λ t. (place : ℕ)
            × (slice_get self.old place ≡ Some (p.now, t))
            × (self.new ≡ swap_remove self.old place (p.now, t))) }
        ensures none { IfNone result (self.new ≡ self.old) }
        ensures others { (q : PrefixValue) → value_at self.new q
            ≡ (if is_one_prefix p.now q then None else value_at self.old q) }
    {
        match self.index.take(key_of(*p)) {
            None => None,
            Some(place) => {
                let gone = self.entries.swap_remove(place);
                tell_place(&self.entries, &mut self.index, place);
                Some(gone.1)
            }
        }
    }

    /// Puts a value in place of that of a prefix, and gives the old one. `None` exactly
    /// where the prefix is not there, and then nothing changes. It takes no memory.
    pub fn replace(&mut self, p: &Prefix, t: T) -> Option<T>
    where
        T: Copy + Drop,
        ensures value { result ≡ value_at self.old p.now }
        ensures entries { self.new ≡ with_value self.old p.now t }
    {
        match self.index.place(key_of(*p)) {
            None => None,
            Some(place) => {
                let old = self.entries[place].1;
                self.entries[place] = (*p, t);
                Some(old)
            }
        }
    }

    /// The value of a prefix. `None` exactly where the prefix is not there.
    pub fn get(&self, p: &Prefix) -> Option<T>
    where
        T: Copy,
        ensures { result ≡ value_at self.now p.now }
    {
        match self.index.place(key_of(*p)) {
            None => None,
            Some(place) => Some(self.entries[place].1),
        }
    }

    /// The longest entry that holds the address (RFC 1812 section 5.2.4.3, rule 2). `None` exactly
    /// where no entry holds it.
    pub fn best(&self, a: Addr) -> Option<(&Prefix, &T)>
        ensures best { MatchOption result (HoldsNone self.now a.value)
            (λ e. IsBest self.now a.value (e.0.now, e.1.now)) }
        ensures table { IsTable self.now }
    {
        match self.index.longest(a) {
            None => None,
            Some(place) => Some(self.entry(place)),
        }
    }

    /// Whether a prefix lies strictly inside that of an entry.
    pub fn has_around(&self, p: Prefix) -> bool
        ensures { IsTrue result ↔ HasAround self.now p }
    {
        self.index.has_shorter(p.value(), p.len())
    }

    /// The number of entries.
    pub fn len(&self) -> usize
        ensures len { result ≡ length self.now }
        ensures table { IsTable self.now }
    {
        self.entries.len()
    }

    /// Entry `i`, counted from 0.
    pub fn entry(&self, i: usize) -> (&Prefix, &T)
        requires { i < length self.now }
        ensures { slice_get self.now i ≡ Some (result.0.now, result.1.now) }
    {
        let entry = &self.entries[i];
        (&entry.0, &entry.1)
    }
}
