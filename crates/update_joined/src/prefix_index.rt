//! The prefixes of entries in an order, so that whether one of them meets another is found without
//! a scan: there may be tens of thousands.

ghost use Rattle.std.specs.Prelude.{◌≡◌, ℕ, ◌-◌, ◌/◌, ◌^◌, ◌<◌, ◌≤◌, true, false, All, OnOk, IfOk};
ghost use Rattle.std.specs.List.{list_any};
ghost use Rattle.v6_addr.specs.Address.{holds_address};
ghost use Rattle.update_joined.specs.declared.entry.PlanEntry.{PlanEntry};
ghost use Rattle.update_joined.specs.PrefixKeys.{key_of, key_at, has_key, has_length, are_meeting, IsIndexed};

use crate::entry::PlanEntry;
use net_model::same_family;
use srv6_rules::Family;
use std::alloc::{AllocError, Global};
use std::collections::BTreeSet;
use v6_addr::{Addr, Prefix};

/// The first bits of addresses in a table: how many, and these bits as a number.
#[derive(Clone, Copy, PartialEq, Eq, PartialOrd, Ord)]
pub(crate) struct PrefixKey {
    node: u32,
    table: u32,
    is_ipv6: bool,
    len: u8,
    bits: u128,
}

/// Two keys of each entry, that of its prefix and that of all bits of its address, and the lengths
/// of the prefixes.
#[derive(Drop)]
pub(crate) struct PrefixIndex {
    keys: BTreeSet<PrefixKey>,
    lengths: Vec<u8>,
}

/// The key of some first bits in an entry's table.
fn key_of(e: &PlanEntry, len: u8, bits: u128) -> PrefixKey
    ensures { result ≡ key_of e.now len bits }
{
    PrefixKey {
        node: e.node,
        table: e.table,
        is_ipv6: same_family(e.family, Family::V6),
        len,
        bits,
    }
}

/// The first bits of an address as a number, all where there are fewer than `len`.
fn first_bits(a: Addr, len: u8) -> u128
    ensures { result ≡ a.value / 2 ^ (128 - len) }
{
    if len == 0 {
        0
    } else {
        a.value >> 128u8.saturating_sub(len)
    }
}

/// The key of so many of an address's first bits in an entry's table.
fn key_at(e: &PlanEntry, a: Addr, len: u8) -> PrefixKey
    ensures { result ≡ key_at e.now a.value len }
{
    key_of(e, len, first_bits(a, len))
}

/// The greatest number of some bits.
fn ones(bits: u8) -> u128
    requires { bits ≤ 128 }
    ensures { result ≡ 2 ^ bits - 1 }
{
    if bits == 128 {
        u128::MAX
    } else {
        (1u128 << bits) - 1
    }
}

/// The last address of a prefix.
fn last_of(p: &Prefix) -> u128
    ensures first { p.now.value ≤ result }
    ensures all { (a : ℕ) → a < 2 ^ 128 → holds_address p.now a ≡ true
        → (p.now.value ≤ a) × (a ≤ result) }
{
    p.value().value.saturating_add(ones(128 - p.len()))
}

/// A length is noted beside the others.
fn note_length(lengths: &mut Vec<u8>, len: u8) -> Result<(), AllocError>
    ensures kept { (other : ℕ) → has_length lengths.old.items other ≡ true
        → OnOk result (has_length lengths.new.items other ≡ true) }
    ensures noted { OnOk result (has_length lengths.new.items len ≡ true) }
{
    if lengths.contains(&len) {
        return Ok(());
    }
    lengths.push(len)?;
    Ok(())
}

/// An entry is put into an index, beside those that are there.
fn put_entry(index: &mut PrefixIndex, e: &PlanEntry) -> Result<(), AllocError>
    ensures kept { (other : PlanEntry) → IsIndexed index.old other
        → OnOk result (IsIndexed index.new other) }
    ensures put { OnOk result (IsIndexed index.new e.now) }
{
    let address = e.prefix.value();
    let len = e.prefix.len();
    note_length(&mut index.lengths, len)?;
    index.keys.insert(key_at(e, address, len))?;
    index.keys.insert(key_of(e, 128, address.value))?;
    Ok(())
}

/// The index of some entries.
pub(crate) fn index_entries(alloc: Global, entries: &[PlanEntry]) -> Result<PrefixIndex, AllocError>
    ensures { IfOk result (λ index. All (IsIndexed index) entries.now) }
{
    let mut index = PrefixIndex {
        keys: BTreeSet::new(alloc),
        lengths: Vec::new(alloc),
    };
    for e in entries {
        put_entry(&mut index, e)?;
    }
    Ok(index)
}

/// Whether the prefix of an entry of the index holds this one's address, in one table.
fn has_around(index: &PrefixIndex, a: &PlanEntry) -> bool
    ensures { result ≡ list_any (λ len. has_key index.now (key_at a.now a.now.prefix.value len))
        index.now.lengths.items }
{
    let mut rest = index.lengths.as_slice();
    while let [len, more @ ..] = rest {
        if index.keys.contains(&key_at(a, a.prefix.value(), *len)) {
            return true;
        }
        rest = more;
    }
    false
}

/// Whether this prefix holds the address of an entry of the index, in one table.
fn has_inside(index: &PrefixIndex, a: &PlanEntry) -> bool
    ensures { result ≡ false → (value : ℕ) → value < 2 ^ 128
        → holds_address a.now.prefix value ≡ true
        → has_key index.now (key_of a.now 128 value) ≡ false }
{
    let first = key_of(a, 128, a.prefix.value().value);
    let last = key_of(a, 128, last_of(&a.prefix));
    match index.keys.range(first..=last).next() {
        None => false,
        Some(_) => true,
    }
}

/// Whether an entry meets one of an index: where it says no, there is none in its table whose
/// prefix holds its address or whose address its prefix holds.
pub(crate) fn may_meet(index: &PrefixIndex, a: &PlanEntry) -> bool
    ensures { result ≡ false → (b : PlanEntry) → IsIndexed index.now b
        → are_meeting a.now b ≡ false }
{
    if has_around(index, a) {
        return true;
    }
    has_inside(index, a)
}
