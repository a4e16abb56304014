//! The links with which a node's least walks begin.

ghost use Rattle.std.specs.Prelude.{◌≡◌, ◌≤◌, ◌↔◌, IsTrue, length, IfOk};
ghost use Rattle.shortest_paths.specs.Walks.{at};
ghost use Rattle.shortest_paths.specs.NextHops.{AreNextHops, LeadsOn};

use crate::links::Link;
use base::NoMemory;
use std::alloc::Global;

/// Reads what is listed for a node; none for one that is not listed.
fn read_distance(distances: &[Option<u64>], node: u32) -> Option<u64>
    ensures { result ≡ at distances.now node }
{
    match distances.get(node as usize) {
        Some(distance) => *distance,
        None => None,
    }
}

/// Says whether a link is from the node and on one of its least walks.
fn leads_on(link: Link, distances: &[Option<u64>], node: u32) -> bool
    ensures { IsTrue result ↔ LeadsOn distances.now node link }
{
    if link.from != node {
        return false;
    }
    let Some(here) = read_distance(distances, node) else {
        return false;
    };
    let Some(far) = link.to else {
        return false;
    };
    let Some(rest) = read_distance(distances, far) else {
        return false;
    };
    let metric = u64::from(link.metric);
    metric <= here && here - metric == rest
}

/// Collects the equal-cost next hops of a node: the numbers, from the lowest up, of the links from
/// it whose metric and the distance of the far end are its own distance. `distances` are sums of
/// metrics, as `distances` gives them, and links are numbered from 0 in their order. There is none
/// at a target and none where there is no distance.
///
/// Errors: want of memory.
pub fn next_hops(
    alloc: Global,
    links: &[Link],
    distances: &[Option<u64>],
    node: u32,
) -> Result<Vec<u32>, NoMemory>
    requires { length links.now ≤ 4096 }
    ensures { IfOk result (λ hops. AreNextHops links.now distances.now node hops.items) }
{
    let mut hops = Vec::new(alloc);
    for (number, link) in links.iter().enumerate() {
        if leads_on(*link, distances, node) {
            hops.push(number as u32)?;
        }
    }
    Ok(hops)
}
