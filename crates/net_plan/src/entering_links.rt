//! Links that enter where none of their names is there.

ghost use Rattle.std.specs.Prelude.{◌≡◌, IfOk};
ghost use Rattle.text_faults.specs.TextReading.{Gives};
ghost use Rattle.net_plan.specs.CableLinks.{is_node, is_end, same_end, same_ends, ends_there, enter_link, enter_links};

use crate::cable_names::same_name;
use crate::plan_links::PlanLink;
use net_model::{Name, is_name};
use net_syntax::{DescribedLink, DescribedNode};
use plan_syntax::{PlanError, PlanFaultKind};
use std::alloc::{AllocError, Global};
use text_faults::OrNoMemory;

/// Whether a node has a name.
pub(crate) fn is_node(nodes: &[DescribedNode], name: &Name) -> bool
    ensures { result ≡ is_node nodes.now name.now }
{
    nodes
        .iter()
        .any(|node| node.name.as_bytes() == name.as_bytes())
}

/// Whether a link leaves the network, or ends at a node.
fn is_end(nodes: &[DescribedNode], to: &Option<Name>) -> bool
    ensures { result ≡ is_end nodes.now to.now }
{
    match to {
        None => true,
        Some(to) => is_node(nodes, to),
    }
}

/// Whether two ends are the same.
fn same_end(a: &Option<Name>, b: &Option<Name>) -> bool
    ensures { result ≡ same_end a.now b.now }
{
    match (a, b) {
        (None, None) => true,
        (Some(a), Some(b)) => a.as_bytes() == b.as_bytes(),
        (None, Some(_)) | (Some(_), None) => false,
    }
}

/// Whether two links start at one node and end at one.
fn same_ends(m: &DescribedLink, l: &DescribedLink) -> bool
    ensures { result ≡ same_ends m.now l.now }
{
    m.from.as_bytes() == l.from.as_bytes() && same_end(&m.to, &l.to)
}

/// Whether the first link of that name has the same ends; `None` where there is none.
fn ends_there(there: &[DescribedLink], link: &DescribedLink) -> Option<bool>
    ensures { result ≡ ends_there there.now link.now }
{
    match there
        .iter()
        .find(|m| m.name.as_bytes() == link.name.as_bytes())
    {
        Some(m) => Some(same_ends(m, link)),
        None => None,
    }
}

/// A link once more.
fn same_link(alloc: Global, link: &DescribedLink) -> Result<DescribedLink, AllocError>
    ensures { IfOk result (λ same. same ≡ link.now) }
{
    let to = match &link.to {
        None => None,
        Some(to) => Some(same_name(alloc, to)?),
    };
    Ok(DescribedLink {
        name: same_name(alloc, &link.name)?,
        from: same_name(alloc, &link.from)?,
        to,
        mtu: link.mtu,
    })
}

/// Links with one more, where none of its name is there: `UnknownName` where a node of it isn't
/// there, then `BadName` where its name is none, then `DoubleName` where a link has it with other
/// ends.
fn enter_link(
    alloc: Global,
    nodes: &[DescribedNode],
    there: Vec<DescribedLink>,
    more: &PlanLink,
) -> Result<Vec<DescribedLink>, PlanError>
    ensures { Gives (λ links. links.items) result (enter_link nodes.now there.items more.now) }
{
    let place = more.place;
    let link = &more.link;
    if !(is_node(nodes, &link.from) && is_end(nodes, &link.to)) {
        return Err(OrNoMemory::Fault(place.fault(PlanFaultKind::UnknownName)));
    }
    if !is_name(link.name.as_bytes()) {
        return Err(OrNoMemory::Fault(place.fault(PlanFaultKind::BadName)));
    }
    match ends_there(there.as_slice(), link) {
        None => {
            let mut links = there;
            links.push(same_link(alloc, link)?)?;
            Ok(links)
        }
        Some(true) => Ok(there),
        Some(false) => Err(OrNoMemory::Fault(place.fault(PlanFaultKind::DoubleName))),
    }
}

/// Links with others, one after the other.
pub(crate) fn enter_links(
    alloc: Global,
    nodes: &[DescribedNode],
    there: Vec<DescribedLink>,
    links: &[PlanLink],
) -> Result<Vec<DescribedLink>, PlanError>
    ensures { Gives (λ all. all.items) result (enter_links nodes.now there.items links.now) }
{
    let mut all = there;
    for link in links {
        all = enter_link(alloc, nodes, all, link)?;
    }
    Ok(all)
}
