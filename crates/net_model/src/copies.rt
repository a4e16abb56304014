//! What can be copied, and lists of it.

ghost use Rattle.std.specs.Prelude.{◌≡◌, IfOk};

use crate::parts::{Block, Link, Name, NamedPolicy, Node, Route};
use base::Seq;
use srv6_rules::{Policy, SidEntry};
use std::alloc::{AllocError, Global};

/// What can be copied where there is memory.
pub trait Copied {
    /// The same once more, in memory of its own.
    fn copied(&self, alloc: Global) -> Result<Self, AllocError>
        ensures { IfOk result (λ copy. copy ≡ self.now) };
}

impl<T: Copy> Copied for Seq<T> {
    fn copied(&self, alloc: Global) -> Result<Seq<T>, AllocError> {
        let mut items = Vec::new(alloc);
        items.extend_from_slice(self.as_slice())?;
        Ok(Seq::new(items))
    }
}

impl Copied for Block {
    fn copied(&self, _alloc: Global) -> Result<Block, AllocError> {
        Ok(*self)
    }
}

impl Copied for Name {
    fn copied(&self, alloc: Global) -> Result<Name, AllocError> {
        Ok(Name::new(self.as_str().to_string(alloc)?))
    }
}

impl Copied for Node {
    fn copied(&self, alloc: Global) -> Result<Node, AllocError> {
        Ok(Node {
            name: self.name.copied(alloc)?,
            address: self.address,
            allow: self.allow.copied(alloc)?,
        })
    }
}

impl Copied for Link {
    fn copied(&self, alloc: Global) -> Result<Link, AllocError> {
        Ok(Link {
            name: self.name.copied(alloc)?,
            from: self.from,
            to: self.to,
            mtu: self.mtu,
        })
    }
}

impl Copied for Route {
    fn copied(&self, alloc: Global) -> Result<Route, AllocError> {
        Ok(Route {
            node: self.node,
            table: self.table,
            family: self.family,
            prefix: self.prefix,
            via: self.via.copied(alloc)?,
        })
    }
}

impl Copied for Policy {
    fn copied(&self, alloc: Global) -> Result<Policy, AllocError> {
        Ok(Policy {
            source: self.source,
            segments: self.segments.copied(alloc)?,
            traffic_class: self.traffic_class,
            flow_label: self.flow_label,
            hop_limit: self.hop_limit,
            reduced: self.reduced,
        })
    }
}

impl Copied for NamedPolicy {
    fn copied(&self, alloc: Global) -> Result<NamedPolicy, AllocError> {
        Ok(NamedPolicy {
            name: self.name.copied(alloc)?,
            policy: self.policy.copied(alloc)?,
        })
    }
}

impl Copied for SidEntry {
    fn copied(&self, alloc: Global) -> Result<SidEntry, AllocError> {
        Ok(SidEntry {
            node: self.node,
            prefix: self.prefix,
            behaviour: self.behaviour,
            csid: self.csid,
            block_len: self.block_len,
            psp: self.psp,
            usp: self.usp,
            usd: self.usd,
            title: self.title,
            links: self.links.copied(alloc)?,
        })
    }
}

/// Copies of items, in their order.
#[tactic(auto, using(crate::proofs::CopyLemmas::pushed_one))]
pub fn copy_all<X: Copied + Drop>(alloc: Global, items: &[X]) -> Result<Vec<X>, AllocError>
    ensures { IfOk result (λ copies. copies.items ≡ items.now) }
{
    let mut copies = Vec::new(alloc);
    let mut rest = items;
    while let [item, more @ ..] = rest {
        copies.push(item.copied(alloc)?)?;
        rest = more;
    }
    Ok(copies)
}
