//! Full containers, read back from their addresses.

ghost use Rattle.std.specs.Prelude.{◌≡◌, ℕ, ◌+◌, ◌<◌, List, length, slice_get, Some, IfOk};
ghost use Rattle.v6_addr.specs.Address.{PrefixValue};
ghost use Rattle.srv6_rules.specs.declared.sid.SidEntry.{SidEntry};
ghost use Rattle.srv6_rules.specs.Compressed.{argument_of, shift_of};
ghost use Rattle.net_model.specs.NetworkRulesTerms.{IsNetwork};
ghost use Rattle.net_flatness.specs.Flat.{IsFlat};
ghost use Rattle.sid_list_spec.specs.SegmentLists.{block_len};
ghost use Rattle.list_pack.specs.SidLists.{list_sid};
ghost use Rattle.segment_reading.specs.Readings.{IsFullAt, LongestOf, NextAt};

use crate::asked::block_of;
use base::NoMemory;
use net_model::Net;
use std::alloc::Global;
use v6_addr::{Addr, Prefix, field, with_field};

/// The most SIDs that a container has after its first: each has a bit of its own
const MAX_MORE: usize = 128;

/// The longer one of a prefix, where it has an address in it, and of the longest one so far
fn longer_of(prefix: &Prefix, address: Addr, longest: Option<Prefix>) -> Option<Prefix>
    ensures { (sids : List SidEntry) (count : ℕ) (s : SidEntry)
        → LongestOf sids count address.value longest → slice_get sids count ≡ Some s
        → s.prefix ≡ prefix.now → LongestOf sids (count + 1) address.value result }
{
    if !prefix.holds(address) {
        return longest;
    }
    match longest {
        None => Some(*prefix),
        Some(other) => {
            if other.len() < prefix.len() {
                Some(*prefix)
            } else {
                Some(other)
            }
        }
    }
}

/// The longest prefix of a SID that has an address in it
pub(crate) fn longest_at(net: &Net, address: Addr) -> Option<Prefix>
    ensures { LongestOf net.now.sids (length net.now.sids) address.value result }
{
    let mut longest = None;
    for n in 0..net.sids() {
        longest = longer_of(&net.sid(n).prefix, address, longest);
    }
    longest
}

/// The bits of an address after a prefix
#[tactic(auto, using(next_csid::proofs::ShiftLemmas::arguments))]
fn argument_at(address: Addr, prefix: &Prefix) -> u128
    ensures { result ≡ argument_of address.value prefix.now.len }
{
    let len = prefix.len();
    if len == 128 {
        return 0;
    }
    field(address, len, 128 - len)
}

/// The address whose bits after a prefix are moved up to directly after a block of so many bits
fn shifted(address: Addr, block_bits: u8, prefix: &Prefix) -> Addr
    requires longer { block_bits < prefix.now.len }
    requires some { prefix.now.len < 128 }
    ensures { result.value ≡ shift_of address.value block_bits prefix.now.len }
{
    let len = prefix.len();
    let csid_bits = len - block_bits;
    let argument = argument_at(address, prefix);
    let moved = with_field(address, block_bits, 128 - len, argument);
    with_field(moved, 128 - csid_bits, csid_bits, 0)
}

/// The bits of the block that a prefix lies strictly inside; 0 where it lies in none
fn block_bits(net: &Net, prefix: &Prefix) -> u8
    ensures { result ≡ block_len (list_sid net.now prefix.now).block }
{
    match block_of(net, prefix) {
        None => 0,
        Some(block) => block.prefix.len(),
    }
}

/// The address with which the SID after one comes, if one comes after it
fn next_at(net: &Net, address: Addr, prefix: &Prefix) -> Option<Addr>
    ensures { NextAt net.now prefix.now address.value result }
{
    let bits = block_bits(net, prefix);
    if argument_at(address, prefix) == 0 || prefix.len() <= bits || prefix.len() == 128 {
        return None;
    }
    Some(shifted(address, bits, prefix))
}

/// The prefixes of the SIDs after the first, in a full container whose first SID's prefix is given
pub(crate) fn more_at(
    alloc: Global,
    net: &Net,
    address: Addr,
    first: &Prefix,
) -> Result<Vec<Prefix>, NoMemory>
    requires network { IsNetwork net.now }
    requires flat { IsFlat net.now }
    ensures { IfOk result (λ more. (others : List PrefixValue)
        → IsFullAt net.now first.now others address.value → more.items ≡ others) }
{
    let mut more = Vec::new(alloc);
    let mut last = *first;
    let mut at = address;
    'sids: while more.len() < MAX_MORE {
        let Some(next) = next_at(net, at, &last) else {
            return Ok(more);
        };
        let Some(prefix) = longest_at(net, next) else {
            return Ok(more);
        };
        more.push(prefix)?;
        last = prefix;
        at = next;
    }
    Ok(more)
}
