//! The distance of each node.

ghost use Rattle.std.specs.Prelude.{◌≡◌, ◌<◌, ◌≤◌, All, false, replicate, length, IfOk, OnOk};
ghost use Rattle.shortest_paths.specs.Walks.{AreDistances, IsNetwork};
ghost use Rattle.shortest_paths.specs.Settling.{AreStarts};

use crate::incoming::group_incoming;
use crate::links::Link;
use crate::nearest::find_nearest;
use crate::relaxing::relax_links;
use base::NoMemory;
use std::alloc::Global;

/// Makes the entries of so many nodes, of which the targets are at 0 and the others unknown.
fn start_entries(alloc: Global, nodes: u32, targets: &[u32]) -> Result<Vec<Option<u64>>, NoMemory>
    requires { All (λ target. target < nodes) targets.now }
    ensures long { IfOk result (λ entries. length entries.items ≡ nodes) }
    ensures starts { IfOk result (λ entries. AreStarts targets.now entries.items) }
{
    let mut entries = vec![in alloc; None; nodes as usize]?;
    for target in targets {
        entries[*target as usize] = Some(0);
    }
    Ok(entries)
}

/// Makes the marks of so many nodes, none of which is settled.
fn start_marks(alloc: Global, nodes: u32) -> Result<Vec<bool>, NoMemory>
    ensures { IfOk result (λ settled. settled.items ≡ replicate nodes false) }
{
    let settled = vec![in alloc; false; nodes as usize]?;
    Ok(settled)
}

/// Computes the distance of each node, by the nodes' numbers: the least sum of metrics over all
/// walks along links from it to any of the targets, 0 at a target itself, and none where there is
/// no such walk. It takes time by the square of the nodes and the number of links.
///
/// Errors: want of memory.
pub fn distances(
    alloc: Global,
    nodes: u32,
    links: &[Link],
    targets: &[u32],
) -> Result<Vec<Option<u64>>, NoMemory>
    requires network { IsNetwork nodes links.now }
    requires targets { All (λ target. target < nodes) targets.now }
    ensures long { IfOk result (λ distances. length distances.items ≡ nodes) }
    ensures exact { IfOk result (λ distances. AreDistances links.now targets.now distances.items) }
{
    let into = group_incoming(alloc, nodes, links)?;
    let mut entries = start_entries(alloc, nodes, targets)?;
    let mut settled = start_marks(alloc, nodes)?;
    while let Some(nearest) = find_nearest(entries.as_slice(), settled.as_slice()) {
        settled[nearest.node] = true;
        let incoming = into[nearest.node].as_slice();
        relax_links(entries.as_mut_slice(), incoming, nearest.distance);
    }
    Ok(entries)
}
