//! The routes to prefixes, beside those that are there.

ghost use Rattle.std.specs.Prelude.{◌≡◌, ◌<◌, ◌^◌, All, IfOk, length};
ghost use Rattle.planned_routes.specs.PlannedRoutes.{ArePlanned, weighed_links};
ghost use Rattle.planned_routes.specs.PlannedRoutesTerms.{IsMetric};

use crate::entering::{enter, originators};
use crate::owners::{Owner, group};
use crate::weighing::weighed_links;
use base::NoMemory;
use net_model::{Net, Route};
use shortest_paths::plan_routes;
use std::alloc::Global;

/// Plans the routes to the prefixes that owners have, beside routes that are there: for each table
/// and prefix and each node from which some path leads to a node that has it, but that hasn't it
/// itself, a route over exactly the links with which the node's shortest paths begin. There is none
/// where a route of that node, table and prefix is there.
///
/// A path's length is the sum of its links' metrics; `metrics` has that of each link by its number,
/// from 1 on, and none of one that is down. Nodes and links are numbered from 0, as in the network.
/// The one error is want of memory.
pub fn planned_routes(
    alloc: Global,
    net: &Net,
    metrics: &[Option<u32>],
    owners: &[Owner],
    there: &[Route],
) -> Result<Vec<Route>, NoMemory>
    requires metrics { All IsMetric metrics.now }
    requires nodes { All (λ o. o.node < length net.now.nodes) owners.now }
    requires few { length owners.now < 2 ^ 32 }
    ensures { IfOk result (λ routes. ArePlanned (weighed_links metrics.now net.now.links)
        owners.now there.now routes.items) }
{
    net.keeps_rules();
    let links = weighed_links(alloc, metrics, net.parts().links.as_slice())?;
    let destinations = group(alloc, owners)?;
    let originators = originators(alloc, destinations.as_slice())?;
    let routes = plan_routes(alloc, net.nodes(), links.as_slice(), originators.as_slice())?;
    let new = enter(alloc, destinations.as_slice(), there, routes.as_slice())?;
    Ok(new)
}
