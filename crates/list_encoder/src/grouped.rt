//! The edges within a position by the cell that they lead to.

ghost use Rattle.std.specs.Prelude.{OnOk, IfOk};
ghost use Rattle.list_encoder.specs.Grouped.{AreEmpty, PutsEdge, PutsEdges, AreGrouped};

use crate::cell_table::CellEdge;
use base::NoMemory;
use std::alloc::Global;

/// An edge is put to those that lead to its cell
fn put_edge(groups: &mut [Vec<CellEdge>], edge: CellEdge) -> Result<(), NoMemory>
    ensures { OnOk result (PutsEdge groups.old groups.new edge) }
{
    let Some(to) = edge.to else {
        return Ok(());
    };
    if to >= groups.len() {
        return Ok(());
    }
    groups[to].push(edge)?;
    Ok(())
}

/// Each edge is put to those that lead to its cell
fn put_edges(groups: &mut [Vec<CellEdge>], edges: &[CellEdge]) -> Result<(), NoMemory>
    ensures { OnOk result (PutsEdges groups.old edges.now groups.new) }
{
    for edge in edges {
        put_edge(groups, *edge)?;
    }
    Ok(())
}

/// So many groups without edges
fn no_groups(alloc: Global, count: usize) -> Result<Vec<Vec<CellEdge>>, NoMemory>
    ensures { IfOk result (λ groups. AreEmpty count groups.items) }
{
    let mut groups = Vec::new(alloc);
    for _i in 0..count {
        groups.push(Vec::new(alloc))?;
    }
    Ok(groups)
}

/// The edges into each of the first cells.
pub fn grouped(
    alloc: Global,
    edges: &[CellEdge],
    count: usize,
) -> Result<Vec<Vec<CellEdge>>, NoMemory>
    ensures { IfOk result (λ groups. AreGrouped edges.now count groups.items) }
{
    let mut groups = no_groups(alloc, count)?;
    put_edges(groups.as_mut_slice(), edges)?;
    Ok(groups)
}
