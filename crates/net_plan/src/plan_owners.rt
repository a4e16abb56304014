//! The nodes that have the prefixes of a plan.

ghost use Rattle.std.specs.Prelude.{◌≡◌, ◌≤◌, IfOk, length};
ghost use Rattle.std.specs.List.{list_any, filter_map, flat_map};
ghost use Rattle.net_model.specs.declared.limits.TheConstants.{MAX_NODES};
ghost use Rattle.net_plan.specs.PlanOwners.{locator_owners, is_end_behaviour, is_outer_of, is_number, is_of_node, is_held_by, is_locator, sid_owner, address_owners, exit_owner, end_owners, node_owners, owners_of};

use crate::exits::{Exit, owner_of};
use net_model::{MAX_NODES, Net, Node, address_prefix, same_family};
use plan_syntax::{DescribedLocator, DescribedPlan};
use planned_routes::Owner;
use srv6_rules::{Behaviour, Family, SidEntry};
use std::alloc::{AllocError, Global};

/// The nodes of a locator.
fn locator_owners(
    alloc: Global,
    net: &Net,
    locator: &DescribedLocator,
) -> Result<Vec<Owner>, AllocError>
    ensures { IfOk result (λ all. all.items ≡ locator_owners net.now.nodes locator.now) }
{
    let mut all = Vec::new(alloc);
    for name in locator.nodes.as_slice() {
        if let Some(node) = net.node_named(name.as_bytes()) {
            all.push(owner_of(locator.table, &locator.prefix, node))?;
        }
    }
    Ok(all)
}

/// The nodes of locators.
fn all_locator_owners(
    alloc: Global,
    net: &Net,
    locators: &[DescribedLocator],
) -> Result<Vec<Owner>, AllocError>
    ensures { IfOk result (λ all. all.items
        ≡ flat_map (locator_owners net.now.nodes) locators.now) }
{
    let mut all = Vec::new(alloc);
    for locator in locators {
        let mut new = locator_owners(alloc, net, locator)?;
        all.append(&mut new)?;
    }
    Ok(all)
}

/// Whether a behaviour is End.
fn is_end_behaviour(behaviour: Behaviour) -> bool
    ensures { result ≡ is_end_behaviour behaviour }
{
    match behaviour {
        Behaviour::End => true,
        Behaviour::EndX
        | Behaviour::EndT { .. }
        | Behaviour::Dx6
        | Behaviour::Dx4
        | Behaviour::Dt6 { .. }
        | Behaviour::Dt4 { .. }
        | Behaviour::Dt46 { .. }
        | Behaviour::B6 { .. }
        | Behaviour::B6Red { .. } => false,
    }
}

/// Whether a SID of the node is 16 bits shorter than another and holds it, which is nested in it.
fn is_outer_of(sid: &SidEntry, outer: &SidEntry) -> bool
    ensures { result ≡ is_outer_of sid.now outer.now }
{
    outer.node == sid.node
        && u32::from(outer.prefix.len()) + 16 == u32::from(sid.prefix.len())
        && outer.prefix.holds(sid.prefix.value())
}

/// Whether a SID is nested in another one of its node.
fn is_nested(sids: &[SidEntry], sid: &SidEntry) -> bool
    ensures { result ≡ list_any (is_outer_of sid.now) sids.now }
{
    sids.iter().any(|outer| is_outer_of(sid, outer))
}

/// Whether a number is there, and is that of the node.
fn is_number(node: u32, number: Option<u32>) -> bool
    ensures { result ≡ is_number node number }
{
    match number {
        None => false,
        Some(n) => n == node,
    }
}

/// Whether a node is one of the locator's.
fn is_of_node(net: &Net, node: u32, locator: &DescribedLocator) -> bool
    ensures { result ≡ is_of_node net.now.nodes node locator.now }
{
    locator
        .nodes
        .as_slice()
        .iter()
        .any(|name| is_number(node, net.node_named(name.as_bytes())))
}

/// Whether a locator of its node, in table 0, holds a SID, or is its prefix.
fn is_held_by(net: &Net, sid: &SidEntry, locator: &DescribedLocator) -> bool
    ensures { result ≡ is_held_by net.now.nodes sid.now locator.now }
{
    locator.table == 0
        && same_family(locator.prefix.family, Family::V6)
        && locator.prefix.prefix.len() <= sid.prefix.len()
        && locator.prefix.prefix.holds(sid.prefix.value())
        && is_of_node(net, sid.node, locator)
}

/// Whether one of the locators holds a SID so.
fn is_held(net: &Net, locators: &[DescribedLocator], sid: &SidEntry) -> bool
    ensures { result ≡ list_any (is_held_by net.now.nodes sid.now) locators.now }
{
    locators.iter().any(|locator| is_held_by(net, sid, locator))
}

/// Whether a SID's prefix is a locator: it is an End, nested in no SID of its node, and no locator
/// of the node holds it.
fn is_locator(net: &Net, locators: &[DescribedLocator], sid: &SidEntry) -> bool
    ensures { result ≡ is_locator net.now.nodes net.now.sids locators.now sid.now }
{
    is_end_behaviour(sid.behaviour)
        && !is_nested(net.parts().sids.as_slice(), sid)
        && !is_held(net, locators, sid)
}

/// The nodes of SIDs that are locators.
fn sid_owners(
    alloc: Global,
    net: &Net,
    locators: &[DescribedLocator],
    sids: &[SidEntry],
) -> Result<Vec<Owner>, AllocError>
    ensures { IfOk result (λ all. all.items
        ≡ filter_map (sid_owner net.now.nodes net.now.sids locators.now) sids.now) }
{
    let mut all = Vec::new(alloc);
    for sid in sids {
        if is_locator(net, locators, sid) {
            all.push(Owner {
                table: 0,
                family: Family::V6,
                prefix: sid.prefix,
                node: sid.node,
            })?;
        }
    }
    Ok(all)
}

/// The nodes of SIDs of End, where a plan has them as locators.
fn end_owners(alloc: Global, plan: &DescribedPlan, net: &Net) -> Result<Vec<Owner>, AllocError>
    ensures { IfOk result (λ all. all.items ≡ end_owners plan.now net.now) }
{
    if plan.ends {
        let sids = net.parts().sids.as_slice();
        return sid_owners(alloc, net, plan.locators.as_slice(), sids);
    }
    Ok(Vec::new(alloc))
}

/// The nodes of addresses.
fn address_owners(alloc: Global, nodes: &[Node]) -> Result<Vec<Owner>, AllocError>
    requires { length nodes.now ≤ MAX_NODES }
    ensures { IfOk result (λ all. all.items ≡ address_owners 0 nodes.now) }
{
    let mut all = Vec::new(alloc);
    for (n, node) in nodes.iter().enumerate() {
        all.push(Owner {
            table: 0,
            family: Family::V6,
            prefix: address_prefix(node.address),
            node: n as u32,
        })?;
    }
    Ok(all)
}

/// The nodes of addresses, where a plan has them as locators.
fn node_owners(alloc: Global, plan: &DescribedPlan, net: &Net) -> Result<Vec<Owner>, AllocError>
    ensures { IfOk result (λ all. all.items ≡ node_owners plan.now net.now) }
{
    if plan.addresses {
        net.keeps_rules();
        return address_owners(alloc, net.parts().nodes.as_slice());
    }
    Ok(Vec::new(alloc))
}

/// The nodes of the sites of table 0.
fn exit_owners(alloc: Global, exits: &[Exit]) -> Result<Vec<Owner>, AllocError>
    ensures { IfOk result (λ all. all.items ≡ filter_map exit_owner exits.now) }
{
    let mut all = Vec::new(alloc);
    for exit in exits {
        if exit.at.table == 0 {
            all.push(exit.at)?;
        }
    }
    Ok(all)
}

/// The nodes that have the prefixes of a plan: of its locators, of SIDs of End and of addresses
/// where it has them as locators, and of sites of table 0.
pub(crate) fn owners_of(
    alloc: Global,
    plan: &DescribedPlan,
    net: &Net,
    exits: &[Exit],
) -> Result<Vec<Owner>, AllocError>
    ensures { IfOk result (λ owners. owners.items ≡ owners_of plan.now net.now exits.now) }
{
    let mut owners = all_locator_owners(alloc, net, plan.locators.as_slice())?;
    let mut ends = end_owners(alloc, plan, net)?;
    let mut nodes = node_owners(alloc, plan, net)?;
    let mut sites = exit_owners(alloc, exits)?;
    owners.append(&mut ends)?;
    owners.append(&mut nodes)?;
    owners.append(&mut sites)?;
    Ok(owners)
}
