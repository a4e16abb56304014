//! Where the entries of a table stand, by the lengths and the first bits of their prefixes.

ghost use Rattle.std.specs.Prelude.{◌≡◌, ℕ, ◌/◌, ◌^◌, ◌<◌, ◌≤◌, ◌↔◌, IsTrue, length, slice_index, is_some, Some, None, IsSome, OnOk, OnErr, MatchOption};
ghost use Rattle.std.specs.BTreeMap as map;
ghost use Rattle.v6_addr.specs.AddressTerms.{IsPrefix};
ghost use Rattle.prefix_table.specs.Index.{key_cmp, key_at, key_of, place_at, AreFalling, HasLength, Keeps, AreLengths, HasNoKey, IsLongest, HasBelow, HasShorter};

use std::alloc::{AllocError, Global};
use std::collections::BTreeMap;
use v6_addr::{Addr, Prefix};

/// What tells prefixes apart: a length, and that many of an address's first bits as a number.
#[derive(Clone, Copy, Debug, PartialEq, Eq, PartialOrd, Ord)]
pub(crate) struct Key {
    len: u8,
    bits: u128,
}

/// The bits of a number above its lowest `rest`.
fn bits_above(a: u128, rest: u8) -> u128
    requires { rest ≤ 128 }
    ensures { result ≡ a / 2 ^ rest }
{
    if rest == 128 { 0 } else { a >> rest }
}

/// The key of an address's first bits, `len` of them.
fn key_at(a: Addr, len: u8) -> Key
    requires { len ≤ 128 }
    ensures { result ≡ key_at a.value len }
{
    Key {
        len,
        bits: bits_above(a.value, 128 - len),
    }
}

/// The key of a prefix.
pub(crate) fn key_of(p: Prefix) -> Key
    ensures key { result ≡ key_of p }
    ensures is_prefix { IsPrefix p }
{
    key_at(p.value(), p.len())
}

/// The place of the first length that is not above another; their number where there is none.
fn place_of_length(lengths: &[u8], len: u8) -> usize
    ensures within { result ≤ length lengths.now }
    ensures above { (k : ℕ) → k < result → len < slice_index lengths.now k }
    ensures here { result < length lengths.now → slice_index lengths.now result ≤ len }
{
    for (i, other) in lengths.iter().enumerate() {
        if *other <= len {
            return i;
        }
    }
    lengths.len()
}

/// Whether a length stands at a place.
fn is_at(lengths: &[u8], place: usize, len: u8) -> bool
    ensures { IsTrue result
        ↔ ((place < length lengths.now) × (slice_index lengths.now place ≡ len)) }
{
    place < lengths.len() && lengths[place] == len
}

/// A length is put among the others, which fall, unless it is there.
fn note_length(lengths: &mut Vec<u8>, len: u8) -> Result<(), AllocError>
    requires falling { AreFalling lengths.old.items }
    requires few { len ≤ 128 }
    ensures falling { AreFalling lengths.new.items }
    ensures kept { Keeps lengths.old.items lengths.new.items }
    ensures noted { OnOk result (HasLength lengths.new.items len) }
{
    let place = place_of_length(lengths, len);
    if is_at(lengths, place, len) {
        return Ok(());
    }
    lengths.insert(place, len)?;
    Ok(())
}

/// The places of entries by the keys of their prefixes, and the lengths of the keys, from the
/// longest down. A length may stay that no key has.
#[derive(Debug, Drop)]
pub(crate) struct Index {
    places: BTreeMap<Key, usize>,
    lengths: Vec<u8>,
}

impl Index {
    /// No places.
    pub(crate) fn new(alloc: Global) -> Index
        ensures none { (k : Key) → place_at result k ≡ None }
        ensures lengths { AreLengths result }
    {
        Index {
            places: BTreeMap::new(alloc),
            lengths: Vec::new(alloc),
        }
    }

    /// Whether a key has a place.
    pub(crate) fn has(&self, key: Key) -> bool
        ensures { result ≡ is_some (place_at self.now key) }
    {
        self.places.contains_key(&key)
    }

    /// The place of the longest key of an address; none exactly where none of its keys has one.
    pub(crate) fn longest(&self, a: Addr) -> Option<usize>
        requires { AreLengths self.now }
        ensures { MatchOption result (HasNoKey self.now a.value) (IsLongest self.now a.value) }
    {
        for len in &self.lengths {
            if let Some(place) = self.places.get(&key_at(a, *len)) {
                return Some(*place);
            }
        }
        None
    }

    /// Whether a length is below another, and that many of an address's first bits have a place.
    fn has_below(&self, a: Addr, len: u8, other: u8) -> bool
        requires { other ≤ 128 }
        ensures { IsTrue result ↔ HasBelow self.now a.value len other }
    {
        if other >= len {
            return false;
        }
        self.has(key_at(a, other))
    }

    /// Whether a key of an address has a place that has fewer bits than a length.
    pub(crate) fn has_shorter(&self, a: Addr, len: u8) -> bool
        requires { AreLengths self.now }
        ensures { IsTrue result ↔ HasShorter self.now a.value len }
    {
        for other in &self.lengths {
            if self.has_below(a, len, *other) {
                return true;
            }
        }
        false
    }

    /// A key gets a place.
    pub(crate) fn put(&mut self, key: Key, place: usize) -> Result<(), AllocError>
        requires lengths { AreLengths self.old }
        requires few { key.len ≤ 128 }
        ensures lengths { AreLengths self.new }
        ensures ok { OnOk result (map.Updates key_cmp self.old.places self.new.places key
            (Some place)) }
        ensures err { OnErr result ((k : Key) → place_at self.new k ≡ place_at self.old k) }
    {
        note_length(&mut self.lengths, key.len)?;
        self.places.insert(key, place)?;
        Ok(())
    }

    /// The place of a key.
    pub(crate) fn place(&self, key: Key) -> Option<usize>
        ensures { result ≡ place_at self.now key }
    {
        self.places.get(&key).copied()
    }

    /// The place of a key is given up, if it has one; the other keys keep theirs.
    pub(crate) fn take(&mut self, key: Key) -> Option<usize>
        requires { AreLengths self.old }
        ensures place { result ≡ place_at self.old key }
        ensures lengths { AreLengths self.new }
        ensures gone { map.Updates key_cmp self.old.places self.new.places key None }
    {
        self.places.remove(&key)
    }

    /// A key that has a place gets another. It takes no memory.
    pub(crate) fn move_to(&mut self, key: Key, place: usize)
        requires lengths { AreLengths self.old }
        requires there { IsSome (place_at self.old key) }
        ensures lengths { AreLengths self.new }
        ensures moved { map.Updates key_cmp self.old.places self.new.places key (Some place) }
    {
        if let Some(old) = self.places.get_mut(&key) {
            *old = place;
        }
    }
}
