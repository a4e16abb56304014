//! The routes by which nodes send to their sites.

ghost use Rattle.std.specs.Prelude.{◌≡◌, [], ◌++◌, IfOk};
ghost use Rattle.net_model.specs.NetworkRules.{same_route};
ghost use Rattle.net_model.specs.NetworkJudging.{stands_before};
ghost use Rattle.planned_routes.specs.Owners.{same_key};
ghost use Rattle.net_plan.specs.ExitRoutes.{same_exit, with_link, links_from, exit_route, routes_out};

use crate::exits::Exit;
use crate::link_metrics::is_among;
use base::Seq;
use net_model::{Route, same_family, same_prefix};
use planned_routes::Owner;
use std::alloc::{AllocError, Global};

/// Whether two have one prefix, in one table.
fn same_key(a: &Owner, b: &Owner) -> bool
    ensures { result ≡ same_key a.now b.now }
{
    a.table == b.table && same_family(a.family, b.family) && same_prefix(&a.prefix, &b.prefix)
}

/// Whether two are at one node, in one table, to one prefix.
fn same_exit(e: &Exit, f: &Exit) -> bool
    ensures { result ≡ same_exit e.now f.now }
{
    e.at.node == f.at.node && same_key(&e.at, &f.at)
}

/// Whether two routes are of one node, table and prefix.
fn same_route(q: &Route, r: &Route) -> bool
    ensures { result ≡ same_route q.now r.now }
{
    q.node == r.node
        && q.table == r.table
        && same_family(q.family, r.family)
        && same_prefix(&q.prefix, &r.prefix)
}

/// Links with that of an exit behind them, where it is at the same node, in the same table and to
/// the same prefix as another, and its link isn't there.
fn with_link(exit: &Exit, via: Vec<u32>, other: &Exit) -> Result<Vec<u32>, AllocError>
    ensures { IfOk result (λ all. all.items ≡ with_link exit.now via.items other.now) }
{
    let mut all = via;
    if same_exit(exit, other) && !is_among(all.as_slice(), other.link) {
        all.push(other.link)?;
    }
    Ok(all)
}

/// The links over which the node of an exit sends to its prefix, each once.
fn links_of(alloc: Global, exits: &[Exit], exit: &Exit) -> Result<Vec<u32>, AllocError>
    ensures { IfOk result (λ via. via.items ≡ links_from exit.now [] exits.now) }
{
    let mut via = Vec::new(alloc);
    for other in exits {
        via = with_link(exit, via, other)?;
    }
    Ok(via)
}

/// The route of an exit's node to its prefix.
fn exit_route(alloc: Global, exits: &[Exit], exit: &Exit) -> Result<Route, AllocError>
    ensures { IfOk result (λ route. route ≡ exit_route exits.now exit.now) }
{
    let via = links_of(alloc, exits, exit)?;
    Ok(Route {
        node: exit.at.node,
        table: exit.at.table,
        family: exit.at.family,
        prefix: exit.at.prefix,
        via: Seq::new(via),
    })
}

/// Whether an exit before is at the same node, in the same table and to the same prefix.
fn stood_before(before: &[Exit], exit: &Exit) -> bool
    ensures { result ≡ stands_before same_exit before.now exit.now }
{
    before.iter().any(|earlier| same_exit(earlier, exit))
}

/// Whether a route of its node, table and prefix is there.
fn is_there(there: &[Route], route: &Route) -> bool
    ensures { result ≡ stands_before same_route there.now route.now }
{
    there.iter().any(|other| same_route(other, route))
}

/// The routes out of the network: one for each node, table and prefix of which no route is there.
pub(crate) fn routes_out(
    alloc: Global,
    exits: &[Exit],
    there: &[Route],
) -> Result<Vec<Route>, AllocError>
    ensures { IfOk result (λ routes. routes.items ≡ routes_out exits.now there.now [] exits.now) }
{
    let mut routes = Vec::new(alloc);
    for (n, exit) in exits.iter().enumerate() {
        let route = exit_route(alloc, exits, exit)?;
        if !(stood_before(exits.split_at(n).0, exit) || is_there(there, &route)) {
            routes.push(route)?;
        }
    }
    Ok(routes)
}
