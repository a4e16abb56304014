//! The values of lists: the segments as addresses.

ghost use Rattle.std.specs.Prelude.{◌≡◌, ◌+◌, ◌-◌, ◌*◌, ◌^◌, ◌<◌, ◌≤◌, ◌∷◌, length, map, IfOk};
ghost use Rattle.std.specs.Option.{option_map};
ghost use Rattle.v6_addr.specs.declared.address.Addr as addresses;
ghost use Rattle.srv6_rules.specs.Compressed.{csid_of, csid_count, container_of, packed_entry};
ghost use Rattle.srv6_rules.specs.CompressedTerms.{IsCsidLen};
ghost use Rattle.sid_list_spec.specs.SegmentLists.{block_len, value_of};
ghost use Rattle.sid_list_theory.specs.SegmentListsTerms.{IsFlatList};
ghost use Rattle.list_pack.specs.SidLists.{IsLegalList, container_in, list_in, list_values, sid_block};
ghost use Rattle.list_pack.specs.SegmentValues.{FitBehind, HaveCsids, IsValued, addr_value};

use crate::flavours::block_of;
use crate::lists::csids_of;
use crate::types::{Container, SidList};
use base::NoMemory;
use net_model::{Block, Net};
use std::alloc::Global;
use v6_addr::{Addr, Prefix, field, with_field};

/// The bits of a block; 0 where there is none
fn block_bits(block: &Option<Block>) -> u8
    ensures { result ≡ block_len (option_map sid_block block.now) }
{
    match block {
        None => 0,
        Some(block) => block.prefix.len(),
    }
}

/// A full container: the first SID, and directly after it the CSIDs of the others
fn full_value(block_bits: u8, first: &Prefix, more: &[Prefix]) -> Addr
    requires { FitBehind block_bits first.now.len more.now }
    ensures { result.value ≡ container_of block_bits (first.now ∷ more.now) }
{
    let mut value = first.value();
    let mut at = first.len();
    for sid in more {
        let width = sid.len() - block_bits;
        value = with_field(value, at, width, field(sid.value(), block_bits, width));
        at += width;
    }
    value
}

/// An entry with the CSID of a SID put in front of the bits that are left after it
fn with_csid(entry: Addr, block: &Block, behind: u8, sid: &Prefix) -> Addr
    requires some { 0 < block.now.csid }
    requires fits { behind + block.now.csid ≤ 128 }
    requires long { sid.now.len ≡ block.now.prefix.len + block.now.csid }
    requires below { entry.value < 2 ^ behind }
    ensures value { result.value ≡ csid_of block.now.prefix.len sid.now * 2 ^ behind + entry.value }
    ensures below { result.value < 2 ^ (behind + block.now.csid) }
{
    let csid = field(sid.value(), block.prefix.len(), block.csid);
    with_field(entry, 128 - behind - block.csid, block.csid, csid)
}

/// A REPLACE container: the CSIDs of its SIDs, the first at the greatest index
fn packed_value(block: &Block, first: &Prefix, more: &[Prefix]) -> Addr
    requires csid { IsCsidLen block.now.csid }
    requires long { HaveCsids block.now.prefix.len block.now.csid (first.now ∷ more.now) }
    requires few { length (first.now ∷ more.now) ≤ csid_count block.now.csid }
    ensures { result.value ≡ packed_entry block.now.csid
        (map (csid_of block.now.prefix.len) (first.now ∷ more.now)) }
{
    let zero = Addr { value: 0 };
    let mut value = with_csid(zero, block, 0, first);
    let mut behind = block.csid;
    for sid in more {
        value = with_csid(value, block, behind, sid);
        behind += block.csid;
    }
    value
}

/// The value of a container
fn value_of(net: &Net, container: &Container) -> Addr
    requires { IsValued (container_in net.now container.now) }
    ensures { result.value ≡ value_of (container_in net.now container.now) }
{
    match container {
        Container::Full(first, more) => {
            let block = block_of(net, first);
            full_value(block_bits(&block), first, more.as_slice())
        }
        Container::Packed(first, more) => match block_of(net, first) {
            Some(block) => packed_value(&block, first, more.as_slice()),
            None => Addr { value: 0 },
        },
    }
}

/// The segments of a legal list over SIDs of a flat network, the first to be visited first (RFC
/// 9800 sections 4.1 and 4.2).
pub fn values(alloc: Global, net: &Net, list: &SidList) -> Result<Vec<Addr>, NoMemory>
    requires legal { IsLegalList net.now list.now }
    requires flat { IsFlatList (list_in net.now list.now) }
    ensures { IfOk result (λ values. map addr_value values.items ≡ list_values net.now list.now) }
{
    let mut values = Vec::new(alloc);
    for container in list.as_slice() {
        values.push(value_of(net, container))?;
    }
    Ok(values)
}
