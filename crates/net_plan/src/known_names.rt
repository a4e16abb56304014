//! Names of a plan that have to be known.

ghost use Rattle.std.specs.Prelude.{◌≡◌, ◌<◌, ◌^◌, length};
ghost use Rattle.std.specs.List.{list_all};
ghost use Rattle.net_plan.specs.CableLinks.{is_node, is_link, know_links, know_nodes};

use crate::entering_links::is_node;
use net_model::Name;
use net_syntax::{DescribedLink, DescribedNode};
use plan_syntax::{
    DescribedLocator, DescribedMetric, PlanFault, PlanFaultKind, PlanPlace, PlanTable,
};

/// Whether a link has a name.
fn is_link(links: &[DescribedLink], name: &Name) -> bool
    ensures { result ≡ is_link links.now name.now }
{
    links
        .iter()
        .any(|link| link.name.as_bytes() == name.as_bytes())
}

/// Whether nodes have these names.
fn are_nodes(nodes: &[DescribedNode], names: &[Name]) -> bool
    ensures { result ≡ list_all (is_node nodes.now) names.now }
{
    names.iter().all(|name| is_node(nodes, name))
}

/// That each link is there that a plan names; else `UnknownName`.
pub(crate) fn know_links(
    links: &[DescribedLink],
    metrics: &[DescribedMetric],
) -> Result<(), PlanFault>
    requires { length metrics.now < 2 ^ 31 }
    ensures { result ≡ know_links 1 links.now metrics.now }
{
    for (n, metric) in metrics.iter().enumerate() {
        if !is_link(links, &metric.name) {
            let place = PlanPlace::of_item(PlanTable::Link, n);
            return Err(place.fault(PlanFaultKind::UnknownName));
        }
    }
    Ok(())
}

/// That the nodes of each locator are there; else `UnknownName`.
pub(crate) fn know_nodes(
    nodes: &[DescribedNode],
    locators: &[DescribedLocator],
) -> Result<(), PlanFault>
    requires { length locators.now < 2 ^ 31 }
    ensures { result ≡ know_nodes 1 nodes.now locators.now }
{
    for (n, locator) in locators.iter().enumerate() {
        if !are_nodes(nodes, locator.nodes.as_slice()) {
            let place = PlanPlace::of_item(PlanTable::Locator, n);
            return Err(place.fault(PlanFaultKind::UnknownName));
        }
    }
    Ok(())
}
