//! The routes of all nodes to all destinations.

ghost use Rattle.std.specs.Prelude.{◌<◌, ◌^◌, All, length, IfOk, OnOk};
ghost use Rattle.shortest_paths.specs.Walks.{IsNetwork};
ghost use Rattle.shortest_paths.specs.Routes.{AreRoutes};
ghost use Rattle.shortest_paths.specs.RoutesTerms.{PlansSoFar};

use crate::hops::next_hops;
use crate::links::Link;
use crate::settling::distances;
use base::{NoMemory, Seq};
use std::alloc::Global;

/// The route of a node to a destination.
#[derive(Debug, Drop)]
pub struct Route {
    /// The number of the node that has it.
    pub node: u32,
    /// The destination's number.
    pub destination: u32,
    /// The equal-cost next hops: the numbers of links, from the lowest up.
    pub via: Seq<u32>,
}

/// Adds the routes of all nodes to one destination.
fn add_routes(
    alloc: Global,
    nodes: u32,
    links: &[Link],
    destinations: &[Seq<u32>],
    destination: u32,
    routes: &mut Vec<Route>,
) -> Result<(), NoMemory>
    requires network { IsNetwork nodes links.now }
    requires within { destination < length destinations.now }
    requires originators { All (λ nodes_of. All (λ node. node < nodes) nodes_of) destinations.now }
    requires so_far { PlansSoFar links.now destinations.now destination 0 routes.old.items }
    ensures { OnOk result (PlansSoFar links.now destinations.now destination nodes routes.new.items) }
{
    let originators = destinations[destination as usize].as_slice();
    let to = distances(alloc, nodes, links, originators)?;
    for node in 0..nodes {
        let via = next_hops(alloc, links, to.as_slice(), node)?;
        if !via.is_empty() {
            routes.push(Route {
                node,
                destination,
                via: Seq::new(via),
            })?;
        }
    }
    Ok(())
}

/// Plans the routes of a network: for each destination, given by the nodes that originate it, the
/// route of each node from which a least walk to them begins with a link. The originators have
/// none, nor has a node from which no walk leads to one of them. They come by destinations, then
/// by nodes.
///
/// Errors: want of memory.
pub fn plan_routes(
    alloc: Global,
    nodes: u32,
    links: &[Link],
    destinations: &[Seq<u32>],
) -> Result<Vec<Route>, NoMemory>
    requires network { IsNetwork nodes links.now }
    requires originators { All (λ nodes_of. All (λ node. node < nodes) nodes_of) destinations.now }
    requires few { length destinations.now < 2 ^ 32 }
    ensures { IfOk result (λ routes. AreRoutes links.now destinations.now routes.items) }
{
    let mut routes = Vec::new(alloc);
    for destination in 0..destinations.len() as u32 {
        add_routes(alloc, nodes, links, destinations, destination, &mut routes)?;
    }
    Ok(routes)
}
