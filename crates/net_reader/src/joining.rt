//! The parts of a network from what a description says.

ghost use Rattle.std.specs.Prelude.{◌≡◌, IfOk, map};
ghost use Rattle.net_reader.specs.Numbering.{number_of};
ghost use Rattle.net_reader.specs.Joining.{joined_block, joined_node, joined_link, joined_route, joined_policy};

use crate::numbering::Numbering;
use base::Seq;
use net_model::{Block, Link, Name, NamedPolicy, Node, Route};
use net_syntax::{DescribedBlock, DescribedLink, DescribedNode, DescribedPolicy, DescribedRoute};
use srv6_rules::{LinkSet, Policy};
use std::alloc::{AllocError, Global};

/// What is made of the items of a kind.
pub(crate) trait Joins<D, P> {
    /// What is made of an item.
    ghost of: { Self → D → P };

    /// What is made of the item.
    fn join(&self, alloc: Global, item: &D) -> Result<P, AllocError>
        ensures { IfOk result (λ part. part ≡ of self.now item.now) };
}

/// What is made of items, one after another.
pub(crate) fn each<D, P: Drop, J: Joins<D, P>>(
    alloc: Global,
    by: &J,
    items: &[D],
) -> Result<Vec<P>, AllocError>
    ensures { IfOk result (λ parts. parts.items ≡ map (J.of by.now) items.now) }
{
    let mut parts = Vec::new(alloc);
    for item in items {
        let part = by.join(alloc, item)?;
        parts.push(part)?;
    }
    Ok(parts)
}

/// A name once more.
pub(crate) fn same_name(alloc: Global, name: &Name) -> Result<Name, AllocError>
    ensures { IfOk result (λ same. same ≡ name.now) }
{
    Ok(Name::new(name.as_str().to_string(alloc)?))
}

/// The numbers of names.
pub(crate) fn numbers(
    alloc: Global,
    names: &Numbering<'_>,
    list: &[Name],
) -> Result<LinkSet, AllocError>
    ensures { IfOk result (λ numbers. numbers ≡ map (number_of names.now) list.now) }
{
    let mut all = Vec::new(alloc);
    for name in list {
        all.push(names.number(name))?;
    }
    Ok(LinkSet::new(all))
}

/// Blocks.
pub(crate) struct Blocks;

impl Joins<DescribedBlock, Block> for Blocks {
    ghost of = { λ _ b. joined_block b };

    fn join(&self, _alloc: Global, block: &DescribedBlock) -> Result<Block, AllocError> {
        Ok(Block {
            prefix: block.prefix,
            kind: block.kind,
            csid: block.csid,
        })
    }
}

/// Nodes.
pub(crate) struct Nodes;

impl Joins<DescribedNode, Node> for Nodes {
    ghost of = { λ _ n. joined_node n };

    fn join(&self, alloc: Global, node: &DescribedNode) -> Result<Node, AllocError> {
        let name = same_name(alloc, &node.name)?;
        let allow = node.allow.as_slice().to_vec(alloc)?;
        Ok(Node {
            name,
            address: node.address,
            allow: Seq::new(allow),
        })
    }
}

/// The names that a description has.
#[derive(Drop)]
pub(crate) struct Names<'a> {
    pub(crate) nodes: Numbering<'a>,
    pub(crate) links: Numbering<'a>,
    pub(crate) policies: Numbering<'a>,
}

impl<'a> Joins<DescribedLink, Link> for Names<'a> {
    ghost of = { λ names l. joined_link names.nodes l };

    fn join(&self, alloc: Global, link: &DescribedLink) -> Result<Link, AllocError> {
        let name = same_name(alloc, &link.name)?;
        let to = match &link.to {
            Some(end) => Some(self.nodes.number(end)),
            None => None,
        };
        Ok(Link {
            name,
            from: self.nodes.number(&link.from),
            to,
            mtu: link.mtu,
        })
    }
}

impl<'a> Joins<DescribedRoute, Route> for Names<'a> {
    ghost of = { λ names r. joined_route names.nodes names.links r };

    fn join(&self, alloc: Global, route: &DescribedRoute) -> Result<Route, AllocError> {
        let via = numbers(alloc, &self.links, route.via.as_slice())?;
        Ok(Route {
            node: self.nodes.number(&route.node),
            table: route.table,
            family: route.prefix.family,
            prefix: route.prefix.prefix,
            via,
        })
    }
}

/// Policies.
pub(crate) struct Policies;

impl Joins<DescribedPolicy, NamedPolicy> for Policies {
    ghost of = { λ _ p. joined_policy p };

    fn join(&self, alloc: Global, described: &DescribedPolicy) -> Result<NamedPolicy, AllocError> {
        let name = same_name(alloc, &described.name)?;
        let segments = described.segments.as_slice().to_vec(alloc)?;
        Ok(NamedPolicy {
            name,
            policy: Policy {
                source: described.source,
                segments: Seq::new(segments),
                traffic_class: described.traffic_class,
                flow_label: described.flow_label,
                hop_limit: described.hop_limit,
                reduced: false,
            },
        })
    }
}
