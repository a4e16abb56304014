//! The links of a network by the node that they lead to.

ghost use Rattle.std.specs.Prelude.{◌≡◌, ◌<◌, ℕ, All, OnOk, IfOk, Some, length};
ghost use Rattle.shortest_paths.specs.Incoming.{AreEmpty, AreIncoming, PutsLink, PutsLinks};

use crate::links::Link;
use base::NoMemory;
use std::alloc::Global;

/// Puts a link to those that lead to the same node; one out of the network is left out.
fn put_link(groups: &mut [Vec<Link>], link: Link) -> Result<(), NoMemory>
    requires { (far : ℕ) → link.to ≡ Some far → far < length groups.old }
    ensures { OnOk result (PutsLink groups.old groups.new link) }
{
    if let Some(far) = link.to {
        groups[far as usize].push(link)?;
    }
    Ok(())
}

/// Puts each link to those that lead to the same node.
fn put_links(groups: &mut [Vec<Link>], links: &[Link]) -> Result<(), NoMemory>
    requires { All (λ link. (far : ℕ) → link.to ≡ Some far → far < length groups.old) links.now }
    ensures { OnOk result (PutsLinks groups.old links.now groups.new) }
{
    for link in links {
        put_link(groups, *link)?;
    }
    Ok(())
}

/// Makes so many groups without links.
fn make_groups(alloc: Global, count: u32) -> Result<Vec<Vec<Link>>, NoMemory>
    ensures { IfOk result (λ groups. AreEmpty count groups.items) }
{
    let mut groups = Vec::new(alloc);
    for _i in 0..count {
        groups.push(Vec::new(alloc))?;
    }
    Ok(groups)
}

/// Groups links by the node that they lead to, one group for each of so many nodes.
///
/// Errors: want of memory.
pub fn group_incoming(alloc: Global, count: u32, links: &[Link]) -> Result<Vec<Vec<Link>>, NoMemory>
    requires { All (λ link. (far : ℕ) → link.to ≡ Some far → far < count) links.now }
    ensures { IfOk result (λ groups. AreIncoming links.now count groups.items) }
{
    let mut groups = make_groups(alloc, count)?;
    put_links(groups.as_mut_slice(), links)?;
    Ok(groups)
}
