//! Lists of containers: that of a path, and the header bytes that one takes.

ghost use Rattle.std.specs.Prelude.{◌≡◌, ◌<◌, List, Option, Some, None, map, IfSome, IfOk};
ghost use Rattle.std.specs.Option.{option_map};
ghost use Rattle.v6_addr.specs.Address.{PrefixValue};
ghost use Rattle.srv6_rules.specs.Compressed.{csid_count};
ghost use Rattle.srv6_rules.specs.Encapsulation as encapsulation;
ghost use Rattle.net_model.specs.declared.parts.Block.{Block};
ghost use Rattle.sid_list_spec.specs.SegmentLists as lists;
ghost use Rattle.list_pack.specs.SidLists.{list_sid, sid_block};
ghost use Rattle.list_pack.specs.PathLists as paths;

use crate::flavours::{block_of, flavour_of};
use crate::types::{Container, PathStep, Prefixes, SidList};
use base::NoMemory;
use net_model::{Block, Net};
use srv6_rules::Csid;
use std::alloc::Global;
use v6_addr::Prefix;

/// The bytes of headers in front of the inner packet: an IPv6 header, and a segment routing header
/// with as many segments as containers; in the reduced form the first segment stands in the
/// destination alone, and one container takes no segment routing header (RFC 8986 sections 5.1 and
/// 5.2, RFC 8754 section 2).
pub fn header_bytes(containers: u32, reduced: bool) -> u64
    ensures { result ≡ encapsulation.header_bytes reduced containers }
{
    let containers = u64::from(containers);
    if !reduced {
        48 + 16 * containers
    } else if containers > 1 {
        32 + 16 * containers
    } else {
        40
    }
}

/// How many CSIDs of a block a REPLACE container holds
pub(crate) fn csids_of(block: &Block) -> u8
    requires { 0 < block.now.csid }
    ensures { result ≡ csid_count block.now.csid }
{
    128 / block.csid
}

/// The block whose REPLACE container has to follow after a SID, if one has to
pub(crate) fn asked_behind(net: &Net, last: &Prefix) -> Option<Block>
    ensures value { option_map sid_block result ≡ lists.asked_behind (list_sid net.now last.now) }
    ensures sized { IfSome result (λ b. 0 < b.csid) }
{
    match flavour_of(net, last) {
        Csid::Replace => block_of(net, last),
        Csid::Plain | Csid::Next => None,
    }
}

/// The last prefix of a container
fn last_of(first: &Prefix, more: &[Prefix]) -> Prefix
    ensures { (sid_on : PrefixValue → lists.ListSid) →
        lists.last_of (sid_on first.now) (map sid_on more.now) ≡ sid_on result }
{
    match more.last() {
        None => *first,
        Some(last) => *last,
    }
}

/// The block whose REPLACE container has to follow a container, if one has to
pub(crate) fn asked_after(
    net: &Net,
    asked: &Option<Block>,
    first: &Prefix,
    more: &[Prefix],
) -> Option<Block>
    requires sized { IfSome asked.now (λ b. 0 < b.csid) }
    ensures value { option_map sid_block result
        ≡ paths.asked_after (option_map sid_block asked.now) (list_sid net.now first.now)
        (map (list_sid net.now) more.now) }
    ensures sized { IfSome result (λ b. 0 < b.csid) }
{
    let last = last_of(first, more);
    match asked {
        None => asked_behind(net, &last),
        Some(block) => {
            if more.len() + 1 == usize::from(csids_of(block)) {
                asked_behind(net, &last)
            } else {
                None
            }
        }
    }
}

/// The prefixes of the steps that stay, up to the first that opens a container
fn staying(alloc: Global, path: &[PathStep]) -> Result<Vec<Prefix>, NoMemory>
    ensures { IfOk result (λ prefixes. prefixes.items ≡ paths.staying path.now) }
{
    let mut prefixes = Vec::new(alloc);
    for step in path {
        if !step.stays {
            return Ok(prefixes);
        }
        prefixes.push(step.prefix)?;
    }
    Ok(prefixes)
}

/// A REPLACE container where one has to come, else a full one
fn container_as(asked: &Option<Block>, first: Prefix, more: Vec<Prefix>) -> Container
    ensures { result ≡ paths.container_as (option_map sid_block asked.now) first more.items }
{
    match asked {
        None => Container::Full(first, Prefixes::new(more)),
        Some(_) => Container::Packed(first, Prefixes::new(more)),
    }
}

/// The list of a path: a container for each step that opens one, of its SID and of those that stay
/// in it; a REPLACE container where one has to follow, else a full one (RFC 9800 sections 6.2 to
/// 6.4, and own rule).
pub fn list_of(alloc: Global, net: &Net, path: &[PathStep]) -> Result<SidList, NoMemory>
    ensures { IfOk result (λ list. list ≡ paths.list_of net.now path.now) }
{
    let mut containers = Vec::new(alloc);
    let mut asked: Option<Block> = None;
    for (i, step) in path.iter().enumerate() {
        if !step.stays {
            let more = staying(alloc, path.split_at(i + 1).1)?;
            let next = asked_after(net, &asked, &step.prefix, more.as_slice());
            containers.push(container_as(&asked, step.prefix, more))?;
            asked = next;
        }
    }
    Ok(SidList::new(containers))
}
