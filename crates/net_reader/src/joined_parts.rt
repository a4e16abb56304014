//! The parts of a network from a whole description.

ghost use Rattle.std.specs.Prelude.{◌≡◌, ◌<◌, ◌^◌, IfOk, map, length};
ghost use Rattle.net_model.specs.NetworkTerms.{network_of};
ghost use Rattle.net_reader.specs.Joining.{node_names, link_names, policy_names, joined_node, joined_link, joined_route, joined_policy, joined};

use crate::joined_sids::join_sids;
use crate::joining::{Blocks, Names, Nodes, Policies, each};
use crate::numbering::Numbering;
use net_model::{Block, Link, NamedPolicy, NetParts, Node, Route};
use net_syntax::{
    DescribedBlock, DescribedLink, DescribedNode, DescribedPolicy, DescribedRoute, Description,
};
use std::alloc::{AllocError, Global};

/// The names that a description has.
fn names_of<'a>(alloc: Global, said: &'a Description) -> Result<Names<'a>, AllocError>
    requires few_nodes { length said.now.nodes < 2 ^ 32 }
    requires few_links { length said.now.links < 2 ^ 32 }
    requires few_policies { length said.now.policies < 2 ^ 32 }
    ensures nodes { IfOk result (λ names. names.nodes ≡ node_names said.now) }
    ensures links { IfOk result (λ names. names.links ≡ link_names said.now) }
    ensures policies { IfOk result (λ names. names.policies ≡ policy_names said.now) }
{
    let nodes = Numbering::of::<DescribedNode>(alloc, said.nodes.as_slice())?;
    let links = Numbering::of::<DescribedLink>(alloc, said.links.as_slice())?;
    let policies = Numbering::of::<DescribedPolicy>(alloc, said.policies.as_slice())?;
    Ok(Names {
        nodes,
        links,
        policies,
    })
}

/// The nodes and the links of a description.
fn join_graph(
    alloc: Global,
    names: &Names<'_>,
    said: &Description,
) -> Result<(Vec<Node>, Vec<Link>), AllocError>
    ensures nodes { IfOk result (λ r. r.0.items ≡ map joined_node said.now.nodes) }
    ensures links { IfOk result (λ r. r.1.items ≡ map (joined_link names.now.nodes)
        said.now.links) }
{
    let nodes = each::<DescribedNode, Node, Nodes>(alloc, &Nodes, said.nodes.as_slice())?;
    let links = each::<DescribedLink, Link, Names<'_>>(alloc, names, said.links.as_slice())?;
    Ok((nodes, links))
}

/// The routes and the policies of a description.
fn join_routes(
    alloc: Global,
    names: &Names<'_>,
    said: &Description,
) -> Result<(Vec<Route>, Vec<NamedPolicy>), AllocError>
    ensures routes { IfOk result (λ r. r.0.items ≡ map (joined_route names.now.nodes
        names.now.links) said.now.routes) }
    ensures policies { IfOk result (λ r. r.1.items ≡ map joined_policy said.now.policies) }
{
    let routes = each::<DescribedRoute, Route, Names<'_>>(alloc, names, said.routes.as_slice())?;
    let policies = each::<DescribedPolicy, NamedPolicy, Policies>(
        alloc,
        &Policies,
        said.policies.as_slice(),
    )?;
    Ok((routes, policies))
}

/// The parts of the network that a description says, with numbers in place of names. A
/// name that nothing has becomes the count of the items that it might name.
pub fn join(alloc: Global, said: &Description) -> Result<NetParts, AllocError>
    requires few_nodes { length said.now.nodes < 2 ^ 32 }
    requires few_links { length said.now.links < 2 ^ 32 }
    requires few_policies { length said.now.policies < 2 ^ 32 }
    requires few_sids { length said.now.sids < 2 ^ 32 }
    ensures { IfOk result (λ parts. network_of parts ≡ joined said.now) }
{
    let names = names_of(alloc, said)?;
    let blocks = each::<DescribedBlock, Block, Blocks>(alloc, &Blocks, said.blocks.as_slice())?;
    let (titles, sids) = join_sids(alloc, &names, blocks.as_slice(), said.sids.as_slice())?;
    let (nodes, links) = join_graph(alloc, &names, said)?;
    let (routes, policies) = join_routes(alloc, &names, said)?;
    Ok(NetParts {
        blocks,
        nodes,
        links,
        routes,
        policies,
        titles,
        sids,
    })
}
