//! A network without some of its links and nodes.

ghost use Rattle.std.specs.Prelude.{◌≡◌, [], IfOk};
ghost use Rattle.net_model.specs.Network.{Network};
ghost use Rattle.net_model.specs.NetworkTerms.{network_of};
ghost use Rattle.net_model.specs.NetworkRulesTerms.{IsNetwork};
ghost use Rattle.net_model.specs.NetworkJudgingTerms.{InRange};
ghost use Rattle.net_without.specs.Without.{network_left, without_of};
ghost use Rattle.net_without.specs.WithoutTerms.{flag_at};

use crate::left::{routes_left, sids_left};
use crate::up::links_up;
use base::NoMemory;
use net_model::{Net, NetParts};
use std::alloc::Global;

/// The parts that stay.
fn parts_left(alloc: Global, up: &[bool], parts: NetParts) -> Result<NetParts, NoMemory>
    requires { InRange (network_of parts) }
    ensures { IfOk result (λ left. network_of left ≡ network_left (flag_at up.now) (network_of parts)) }
{
    let routes = routes_left(alloc, up, parts.routes.as_slice())?;
    let left = sids_left(alloc, up, parts.titles.as_slice(), parts.sids.as_slice())?;
    let mut parts = parts;
    parts.routes = routes;
    parts.titles = left.titles;
    parts.sids = left.sids;
    Ok(parts)
}

/// The network of parts that keep the rules, so that they have no fault.
fn build_of(alloc: Global, parts: NetParts) -> Result<Net, NoMemory>
    requires rules { IsNetwork (network_of parts) }
    requires range { InRange (network_of parts) }
    ensures { IfOk result (λ net. net ≡ network_of parts) }
{
    match Net::build(alloc, parts, &[]) {
        Ok(net) => Ok(net),
        Err(_) => Err(NoMemory),
    }
}

/// The network in which the links with these numbers are down, and all links from and to the nodes
/// with these numbers; a number that no link or node has counts for nothing. Blocks, nodes, links
/// and policies stay, with their numbers. Each route's and SID's links are those that are up, in
/// their order; a route or SID that had links and has none left is gone, a SID with its title, and
/// the others keep their order. Nothing may be hidden in the network. The one error is want of
/// memory, since what is left keeps all rules of networks.
pub fn without(alloc: Global, net: &Net, links: &[u32], nodes: &[u32]) -> Result<Net, NoMemory>
    requires { net.now.hidden ≡ [] }
    ensures { IfOk result (λ left. left ≡ without_of net.now links.now nodes.now) }
{
    net.keeps_rules();
    let parts = net.copy_parts(alloc)?;
    let up = links_up(alloc, parts.links.as_slice(), links, nodes)?;
    let left = parts_left(alloc, up.as_slice(), parts)?;
    build_of(alloc, left)
}
