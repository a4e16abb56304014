//! The nodes that have a prefix.

ghost use Rattle.std.specs.Prelude.{◌≡◌, [], IfOk};
ghost use Rattle.net_model.specs.NetworkJudging.{stands_before};
ghost use Rattle.planned_routes.specs.Owners.{same_key};
ghost use Rattle.planned_routes.specs.Grouping.{destination_of, grouped, nodes_with};

use crate::destination::Destination;
use base::{NoMemory, Seq};
use net_model::{same_family, same_prefix};
use srv6_rules::Family;
use std::alloc::Global;
use v6_addr::Prefix;

/// A node that has a prefix, which routes of a table lead to.
#[derive(Clone, Copy, Debug)]
pub struct Owner {
    /// The number of the table.
    pub table: u32,
    /// The family of the packets.
    pub family: Family,
    /// The prefix; that of IPv4 stands in the first 32 bits.
    pub prefix: Prefix,
    /// The number of the node.
    pub node: u32,
}

/// Whether two have one prefix, in one table.
fn same_key(a: &Owner, b: &Owner) -> bool
    ensures { result ≡ same_key a.now b.now }
{
    a.table == b.table && same_family(a.family, b.family) && same_prefix(&a.prefix, &b.prefix)
}

/// The nodes that have the prefix of an owner, in the order of the owners.
fn nodes_with(alloc: Global, owners: &[Owner], key: &Owner) -> Result<Vec<u32>, NoMemory>
    ensures { IfOk result (λ nodes. nodes.items ≡ nodes_with owners.now key.now) }
{
    let mut nodes = Vec::new(alloc);
    for owner in owners {
        if same_key(key, owner) {
            nodes.push(owner.node)?;
        }
    }
    Ok(nodes)
}

/// Whether an owner before has the prefix.
fn stands_before(before: &[Owner], owner: &Owner) -> bool
    ensures { result ≡ stands_before same_key before.now owner.now }
{
    before.iter().any(|earlier| same_key(earlier, owner))
}

/// The destination that has an owner's prefix.
fn destination_of(alloc: Global, owners: &[Owner], owner: &Owner) -> Result<Destination, NoMemory>
    ensures { IfOk result (λ d. d ≡ destination_of owners.now owner.now) }
{
    let nodes = nodes_with(alloc, owners, owner)?;
    Ok(Destination {
        table: owner.table,
        family: owner.family,
        prefix: owner.prefix,
        nodes: Seq::new(nodes),
    })
}

/// The destinations that owners have: one for each table and prefix, in the order of their first
/// owners, with all nodes that have it.
pub(crate) fn group(alloc: Global, owners: &[Owner]) -> Result<Vec<Destination>, NoMemory>
    ensures { IfOk result (λ all. all.items ≡ grouped owners.now [] owners.now) }
{
    let mut all = Vec::new(alloc);
    for (n, owner) in owners.iter().enumerate() {
        if !stands_before(owners.split_at(n).0, owner) {
            all.push(destination_of(alloc, owners, owner)?)?;
        }
    }
    Ok(all)
}
