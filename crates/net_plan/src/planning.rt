//! A network with the routes of a plan.

ghost use Rattle.std.specs.Prelude.{◌≡◌, ◌<◌, ◌≤◌, ◌^◌, [], ◌++◌, All, IfOk, length};
ghost use Rattle.toml_reader.specs.TomlReading.{read_map};
ghost use Rattle.toml_reader.specs.Tree.{few};
ghost use Rattle.text_faults.specs.TextReading.{Gives};
ghost use Rattle.net_model.specs.Network.{Network};
ghost use Rattle.net_model.specs.declared.limits.TheConstants.{MAX_ROUTES};
ghost use Rattle.net_model.specs.NetworkTerms.{network_of};
ghost use Rattle.net_model.specs.NetworkJudgingTerms.{InRange};
ghost use Rattle.net_without.specs.Without.{without_of};
ghost use Rattle.planned_routes.specs.PlannedRoutes.{ArePlanned, weighed_links};
ghost use Rattle.net_plan.specs.LinkMetrics.{metrics_of};
ghost use Rattle.net_plan.specs.PlanOwners.{exits_of, owners_of};
ghost use Rattle.net_plan.specs.ExitRoutes.{routes_out};
ghost use Rattle.net_plan.specs.PlannedNetwork.{judge_vias, with_routes, HasPlanned, IsPlanned, Answers};
ghost use Rattle.net_plan.specs.PlanRanges.{IsPlan, AreRoutesInRange};

use crate::exit_routes::routes_out;
use crate::exits::{Exit, exits_of};
use crate::link_metrics::link_metrics;
use crate::plan::Plan;
use crate::plan_links::plan_links;
use crate::plan_owners::owners_of;
use base::NoMemory;
use net_model::{MAX_LINKS_OF_SET, MAX_ROUTES, Net, NetParts, Route};
use net_without::without;
use plan_syntax::DescribedPlan;
use planned_routes::planned_routes;
use std::alloc::Global;
use text_faults::{FaultKind, FaultPlace, Key, NetFault, OrNoMemory, TableKind, TextFault};

/// That no route has too many equal next hops; else `Limit` of the first that has.
fn judge_vias(routes: &[Route]) -> Result<(), TextFault>
    requires { length routes.now ≤ MAX_ROUTES }
    ensures { result ≡ judge_vias 1 routes.now }
{
    for (n, route) in routes.iter().enumerate() {
        let count = route.via.as_slice().len();
        if count > MAX_LINKS_OF_SET {
            let place = FaultPlace::of_item(TableKind::Route, n);
            return Err(place.fault(FaultKind::Limit {
                what: Key::Via,
                value: count as i64,
            }));
        }
    }
    Ok(())
}

/// That there are not too many routes; else `Limit` of their table.
fn few_routes(routes: &Vec<Route>) -> Result<(), TextFault>
    ensures exact { read_map (λ _. routes.now.items) result
        ≡ few (record { table = TableKind.Route; item = 0 }) Key.Route MAX_ROUTES routes.now.items }
    ensures within { IfOk result (λ _. length routes.now.items ≤ MAX_ROUTES) }
{
    if routes.len() <= MAX_ROUTES {
        return Ok(());
    }
    let table = FaultPlace::whole(TableKind::Route);
    Err(table.fault(FaultKind::Limit {
        what: Key::Route,
        value: routes.len() as i64,
    }))
}

/// The network of parts, as their routes are judged.
fn build_with(alloc: Global, parts: NetParts) -> Result<Net, NetFault>
    requires range { InRange (record (network_of parts) { routes = [] }) }
    requires routes { AreRoutesInRange (network_of parts).routes }
    ensures { Gives (λ net. net) result (with_routes (network_of parts) (network_of parts).routes) }
{
    few_routes(&parts.routes)?;
    judge_vias(parts.routes.as_slice())?;
    Net::build(alloc, parts, &[])
}

/// The routes of a plan along shortest paths, beside those that are there.
fn plan_routes(
    alloc: Global,
    net: &Net,
    plan: &DescribedPlan,
    down: &[u32],
    nodes: &[u32],
    exits: &[Exit],
    there: &[Route],
) -> Result<Vec<Route>, NoMemory>
    requires plan { IsPlan plan.now }
    requires exits { exits.now ≡ exits_of plan.now down.now nodes.now net.now }
    ensures { IfOk result (λ routes. ArePlanned
        (weighed_links (metrics_of plan.now down.now nodes.now net.now.links) net.now.links)
        (owners_of plan.now net.now exits.now) there.now routes.items) }
{
    net.keeps_rules();
    let links = plan_links(alloc, plan)?;
    let all = net.parts().links.as_slice();
    let metrics = link_metrics(alloc, plan, links.as_slice(), down, nodes, all)?;
    let owners = owners_of(alloc, plan, net, exits)?;
    planned_routes(alloc, net, metrics.as_slice(), owners.as_slice(), there)
}

/// The routes of a network, and behind them those out of it.
fn routes_there(alloc: Global, net: &Net, exits: &[Exit]) -> Result<Vec<Route>, NoMemory>
    ensures { IfOk result (λ there. there.items
        ≡ net.now.routes ++ routes_out exits.now net.now.routes [] exits.now) }
{
    let parts = net.copy_parts(alloc)?;
    let mut there = parts.routes;
    let mut out = routes_out(alloc, exits, there.as_slice())?;
    there.append(&mut out)?;
    Ok(there)
}

/// The routes of a network with those of a plan behind them, over the links that are up: these links
/// are down, and all from and to these nodes.
fn routes_over(
    alloc: Global,
    net: &Net,
    plan: &DescribedPlan,
    down: &[u32],
    nodes: &[u32],
) -> Result<Vec<Route>, NoMemory>
    requires { IsPlan plan.now }
    ensures { IfOk result (λ all. HasPlanned plan.now down.now nodes.now net.now all.items) }
{
    let exits = exits_of(alloc, plan, down, nodes, net)?;
    let mut there = routes_there(alloc, net, exits.as_slice())?;
    let slice = exits.as_slice();
    let mut routes = plan_routes(alloc, net, plan, down, nodes, slice, there.as_slice())?;
    there.append(&mut routes)?;
    Ok(there)
}

/// A network with the routes of a plan over the links that are up.
fn plan_over(
    alloc: Global,
    net: &Net,
    plan: &DescribedPlan,
    down: &[u32],
    nodes: &[u32],
) -> Result<Net, NetFault>
    requires { IsPlan plan.now }
    ensures { Answers (λ net. net) result (IsPlanned plan.now down.now nodes.now net.now) }
{
    net.keeps_rules();
    let Ok(routes) = routes_over(alloc, net, plan, down, nodes) else {
        return Err(OrNoMemory::NoMemory);
    };
    let mut parts = net.copy_parts(alloc)?;
    parts.routes = routes;
    build_with(alloc, parts)
}

/// A network with the routes of a plan behind those that are there. For each prefix that a node has
/// by the plan, each node from which a path leads to one that has it, but that hasn't it itself,
/// has a route over exactly the links with which its shortest paths begin; and each node of a site
/// has one out of the network. There is none where a route of that node, table and prefix is there.
///
/// The faults are those of the routes that come: `Limit` at their table where there are too many,
/// `Limit` at the first that has too many equal next hops, and what `Net::build` has of the whole.
/// `NoMemory` may come at any time.
pub fn planned_net(alloc: Global, base: &Net, plan: &Plan) -> Result<Net, NetFault>
    ensures { Answers (λ net. net) result (IsPlanned plan.now [] [] base.now) }
{
    plan_over(alloc, base, plan.said(), &[], &[])
}

/// The same over the links that are up, where these links are down and all from and to these nodes:
/// the network without them, as `net_without::without` has it, with the routes of the plan found
/// anew. `base` is the network before any route of the plan, with none of its entries hidden. A site
/// whose link is down isn't there.
pub fn again(
    alloc: Global,
    base: &Net,
    plan: &Plan,
    links: &[u32],
    nodes: &[u32],
) -> Result<Net, NetFault>
    requires { base.now.hidden ≡ [] }
    ensures { Answers (λ net. net) result (IsPlanned plan.now links.now nodes.now
        (without_of base.now links.now nodes.now)) }
{
    let Ok(left) = without(alloc, base, links, nodes) else {
        return Err(OrNoMemory::NoMemory);
    };
    plan_over(alloc, &left, plan.said(), links, nodes)
}
