//! Routes that enter where none of their node, table and prefix is there.

ghost use Rattle.std.specs.Prelude.{◌≡◌, ◌<◌, IfOk, All, length, map};
ghost use Rattle.planned_routes.specs.Entering.{entering, entries, entry};

use crate::destination::Destination;
use crate::route_keys::{keys_of, put_new};
use base::{NoMemory, Seq};
use net_model::Route;
use std::alloc::Global;

/// The nodes of destinations, in their order.
pub(crate) fn originators(
    alloc: Global,
    destinations: &[Destination],
) -> Result<Vec<Seq<u32>>, NoMemory>
    ensures { IfOk result (λ all. all.items ≡ map (λ d. d.nodes) destinations.now) }
{
    let mut all = Vec::new(alloc);
    for destination in destinations {
        let nodes = destination.nodes.as_slice().to_vec(alloc)?;
        all.push(Seq::new(nodes))?;
    }
    Ok(all)
}

/// A route of shortest paths as an entry of a table.
fn entry(
    alloc: Global,
    destination: &Destination,
    route: &shortest_paths::Route,
) -> Result<Route, NoMemory>
    ensures { IfOk result (λ r. r ≡ entry destination.now route.now) }
{
    let via = route.via.as_slice().to_vec(alloc)?;
    Ok(Route {
        node: route.node,
        table: destination.table,
        family: destination.family,
        prefix: destination.prefix,
        via: Seq::new(via),
    })
}

/// The entries of routes, without those whose node, table and prefix a route has that is there or
/// came before.
pub(crate) fn enter(
    alloc: Global,
    destinations: &[Destination],
    there: &[Route],
    routes: &[shortest_paths::Route],
) -> Result<Vec<Route>, NoMemory>
    requires { All (λ r. r.destination < length destinations.now) routes.now }
    ensures { IfOk result (λ new. new.items
        ≡ entering there.now (entries destinations.now routes.now)) }
{
    let mut keys = keys_of(alloc, there)?;
    let mut new = Vec::new(alloc);
    for route in routes {
        let entry = entry(alloc, &destinations[route.destination as usize], route)?;
        if put_new(&mut keys, &entry)? {
            new.push(entry)?;
        }
    }
    Ok(new)
}
