//! What sites send out of a network.

ghost use Rattle.std.specs.Prelude.{◌≡◌, IfOk, map};
ghost use Rattle.net_without.specs.Without.{is_up};
ghost use Rattle.net_plan.specs.PlanOwners.{owner_of, exit_of, exits_over, site_exits, exits_of};

use crate::link_metrics::is_up_link;
use net_model::Net;
use net_syntax::FamilyPrefix;
use plan_syntax::{DescribedPlan, DescribedSite};
use planned_routes::Owner;
use std::alloc::{AllocError, Global};

/// A prefix that a node sends out of the network over a link.
#[derive(Clone, Copy, Debug)]
pub(crate) struct Exit {
    /// The node, with the table and the prefix.
    pub at: Owner,
    /// The number of the link.
    pub link: u32,
}

/// That a node has a prefix, which routes of a table lead to.
pub(crate) fn owner_of(table: u32, prefix: &FamilyPrefix, node: u32) -> Owner
    ensures { result ≡ owner_of table prefix.now node }
{
    Owner {
        table,
        family: prefix.family,
        prefix: prefix.prefix,
        node,
    }
}

/// Whether the link with a number is up: it is there, is none of these, and neither starts nor ends
/// at these nodes.
fn is_up(net: &Net, down: &[u32], nodes: &[u32], n: u32) -> bool
    ensures { result ≡ is_up net.now down.now nodes.now n }
{
    match net.parts().links.get(n as usize) {
        None => false,
        Some(link) => is_up_link(down, nodes, n, link),
    }
}

/// The prefixes of a site, at a node and over a link.
fn exits_over(
    alloc: Global,
    site: &DescribedSite,
    node: u32,
    link: u32,
) -> Result<Vec<Exit>, AllocError>
    ensures { IfOk result (λ exits. exits.items
        ≡ map (exit_of site.now node link) site.now.prefixes) }
{
    let mut exits = Vec::new(alloc);
    for prefix in site.prefixes.as_slice() {
        exits.push(Exit {
            at: owner_of(site.table, prefix, node),
            link,
        })?;
    }
    Ok(exits)
}

/// What a site sends out of the network: nothing where its node or its link isn't there, or the
/// link is down.
fn site_exits(
    alloc: Global,
    net: &Net,
    down: &[u32],
    nodes: &[u32],
    site: &DescribedSite,
) -> Result<Vec<Exit>, AllocError>
    ensures { IfOk result (λ exits. exits.items
        ≡ site_exits (is_up net.now down.now nodes.now) net.now site.now) }
{
    match (
        net.node_named(site.node.as_bytes()),
        net.link_named(site.link.as_bytes()),
    ) {
        (Some(node), Some(link)) => {
            if is_up(net, down, nodes, link) {
                return exits_over(alloc, site, node, link);
            }
            Ok(Vec::new(alloc))
        }
        (None, _) | (Some(_), None) => Ok(Vec::new(alloc)),
    }
}

/// What the sites of a plan send out of a network, of whose links these are down and those from and
/// to these nodes.
pub(crate) fn exits_of(
    alloc: Global,
    plan: &DescribedPlan,
    down: &[u32],
    nodes: &[u32],
    net: &Net,
) -> Result<Vec<Exit>, AllocError>
    ensures { IfOk result (λ exits. exits.items ≡ exits_of plan.now down.now nodes.now net.now) }
{
    let mut exits = Vec::new(alloc);
    for site in plan.sites.as_slice() {
        let mut new = site_exits(alloc, net, down, nodes, site)?;
        exits.append(&mut new)?;
    }
    Ok(exits)
}
