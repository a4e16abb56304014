//! Lists read back from the addresses of their segments.

ghost use Rattle.std.specs.Prelude.{◌≡◌, ◌↔◌, ◌∷◌, IsTrue, List, map, None, Some, IfOk, IfSome};
ghost use Rattle.std.specs.Option.{option_map};
ghost use Rattle.v6_addr.specs.Address.{PrefixValue};
ghost use Rattle.net_model.specs.NetworkRulesTerms.{IsNetwork};
ghost use Rattle.net_flatness.specs.Flat.{IsFlat};
ghost use Rattle.list_pack.specs.declared.types.Container as containers;
ghost use Rattle.list_pack.specs.SegmentValues.{addr_value};
ghost use Rattle.list_pack.specs.SidLists.{sid_block};
ghost use Rattle.segment_reading.specs.Readings.{AreAt, IsAt, IsSized, equal_values};
ghost use Rattle.segment_reading.specs.Spellings.{IsSpelled, Reads};

use crate::asked::asked_behind;
use crate::full::{longest_at, more_at};
use crate::packed::packed_at;
use base::NoMemory;
use list_pack::{Container, Prefixes, SidList, is_legal, values};
use net_model::{Block, Net};
use std::alloc::Global;
use v6_addr::{Addr, Prefix};

/// Why addresses are no list.
#[derive(Clone, Copy, Debug, PartialEq, Eq)]
pub enum ListFault {
    /// No legal list of the network is spelled so.
    NotLegal,
    /// Want of memory.
    NoMemory,
}

/// A full container at an address, if one is there
fn full_at(alloc: Global, net: &Net, address: Addr) -> Result<Option<Container>, NoMemory>
    requires network { IsNetwork net.now }
    requires flat { IsFlat net.now }
    ensures { IfOk result (λ found. (c : containers.Container) → IsAt net.now None c address.value
        → found ≡ Some c) }
{
    let Some(first) = longest_at(net, address) else {
        return Ok(None);
    };
    let more = more_at(alloc, net, address, &first)?;
    Ok(Some(Container::Full(first, Prefixes::new(more))))
}

/// A REPLACE container of prefixes, if there are some
fn packed_of(alloc: Global, prefixes: &[Prefix]) -> Result<Option<Container>, NoMemory>
    ensures { IfOk result (λ found. (p : PrefixValue) (more : List PrefixValue)
        → prefixes.now ≡ p ∷ more → found ≡ Some (Container.Packed p more)) }
{
    match prefixes.split_first() {
        None => Ok(None),
        Some((first, more)) => {
            let more = more.to_vec(alloc)?;
            Ok(Some(Container::Packed(*first, Prefixes::new(more))))
        }
    }
}

/// The container at an address, if one is there: a REPLACE container of a block where one has to
/// come, else a full one
fn container_at(
    alloc: Global,
    net: &Net,
    asked: &Option<Block>,
    address: Addr,
) -> Result<Option<Container>, NoMemory>
    requires network { IsNetwork net.now }
    requires flat { IsFlat net.now }
    requires sized { IfSome asked.now IsSized }
    ensures { IfOk result (λ found. (c : containers.Container)
        → IsAt net.now (option_map sid_block asked.now) c address.value → found ≡ Some c) }
{
    match asked {
        None => full_at(alloc, net, address),
        Some(block) => {
            let prefixes = packed_at(alloc, net, block, address)?;
            packed_of(alloc, prefixes.as_slice())
        }
    }
}

/// The list at addresses, if one is there
fn list_at(alloc: Global, net: &Net, segments: &[Addr]) -> Result<Option<SidList>, NoMemory>
    requires network { IsNetwork net.now }
    requires flat { IsFlat net.now }
    ensures { IfOk result (λ found. (list : List containers.Container)
        → AreAt net.now None list (map addr_value segments.now) → found ≡ Some list) }
{
    let mut list = Vec::new(alloc);
    let mut asked: Option<Block> = None;
    for address in segments {
        let Some(container) = container_at(alloc, net, &asked, *address)? else {
            return Ok(None);
        };
        asked = asked_behind(net, &asked, &container);
        list.push(container)?;
    }
    Ok(Some(SidList::new(list)))
}

/// Both have the same addresses
fn are_same(a: &[Addr], b: &[Addr]) -> bool
    ensures { result ≡ equal_values a.now b.now }
{
    let mut a_rest = a;
    let mut b_rest = b;
    while let [x, x_more @ ..] = a_rest {
        let [y, y_more @ ..] = b_rest else {
            return false;
        };
        if x.value != y.value {
            return false;
        }
        a_rest = x_more;
        b_rest = y_more;
    }
    b_rest.is_empty()
}

/// Whether a list is a legal one that is spelled so
fn is_spelled(alloc: Global, net: &Net, segments: &[Addr], list: &SidList) -> Result<bool, NoMemory>
    requires network { IsNetwork net.now }
    requires flat { IsFlat net.now }
    ensures { IfOk result (λ is. IsTrue is ↔ IsSpelled net.now segments.now list.now) }
{
    if !is_legal(net, list) {
        return Ok(false);
    }
    let values = values(alloc, net, list)?;
    Ok(are_same(values.as_slice(), segments))
}

/// The one legal list of a flat network that is spelled by addresses, as the segments in the order
/// in which they are visited (a segment routing header has them in the reverse order, RFC 8754
/// section 2). `NotLegal` exactly where no legal list has these values (own profile of RFC 9800
/// sections 6.2 to 6.4); so for no addresses at all. Want of memory may come in place of any answer.
pub fn list_of_segments(alloc: Global, net: &Net, segments: &[Addr]) -> Result<SidList, ListFault>
    requires flat { IsFlat net.now }
    ensures { Reads net.now segments.now result }
{
    net.keeps_rules();
    let list = match list_at(alloc, net, segments) {
        Ok(Some(list)) => list,
        Ok(None) => return Err(ListFault::NotLegal),
        Err(NoMemory) => return Err(ListFault::NoMemory),
    };
    match is_spelled(alloc, net, segments, &list) {
        Ok(true) => Ok(list),
        Ok(false) => Err(ListFault::NotLegal),
        Err(NoMemory) => Err(ListFault::NoMemory),
    }
}
