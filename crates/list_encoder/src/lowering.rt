//! The costs of a position, lowered by the finishes and by the legs to later positions.

ghost use Rattle.std.specs.Prelude.{◌≡◌, ◌+◌, ◌*◌, ◌≤◌, ◌<◌, true, false, length, Some, None, IfOk};
ghost use Rattle.list_pack.specs.LegsValueTerms.{KeepsLaws};
ghost use Rattle.list_encoder.specs.Cells.{AreCells};
ghost use Rattle.list_encoder.specs.CellTable as tables;

use crate::cell_table::{CellEdge, either, lower, rest_at};
use crate::cells::{Cell, is_barred, shape_of};
use base::NoMemory;
use list_pack::{Cost, Legs, Shape, move_cost, plus, room_behind};
use std::alloc::Global;

/// The cells of a position: from one on and before another.
#[derive(Clone, Copy, Debug)]
pub struct Span {
    /// The place of the first.
    pub first: usize,
    /// The place behind the last.
    pub later: usize,
}

/// One room of an edge's first cell is lowered by the edge, where a room is left after it
fn relax_room<L: Legs>(
    legs: &L,
    cells: &[Cell],
    table: &mut [Option<Cost>],
    edge: CellEdge,
    stays: bool,
    room: u8,
    left: Option<u8>,
) -> bool
    requires laws { KeepsLaws (L.seen legs.now) }
    requires cells { AreCells (L.seen legs.now) cells.now }
    requires edge { tables.IsCellEdge (L.seen legs.now) cells.now edge }
    requires sound { tables.IsSound (L.seen legs.now) cells.now table.old }
    requires room { room < 8 }
    requires left { tables.LeavesRoom (L.seen legs.now) cells.now edge stays room left }
    ensures { tables.RoomRelaxed (L.seen legs.now) cells.now edge table.old table.new stays room
        left result }
{
    let Some(behind) = left else {
        return false;
    };
    let Some(rest) = rest_at(table, edge.to, behind) else {
        return false;
    };
    let cost = plus(move_cost(legs.sid_cost(), stays, edge.hops), rest);
    lower(table, 8 * edge.from + room as usize, cost)
}

/// The rooms of an edge's first cell are lowered by the edge where it stays in the container and is
/// not barred; where it can't stay with the most room that there may be, it can't with less
fn relax_stays<L: Legs>(
    legs: &L,
    cells: &[Cell],
    table: &mut [Option<Cost>],
    from: &Option<Shape>,
    next: &Shape,
    edge: CellEdge,
) -> bool
    requires laws { KeepsLaws (L.seen legs.now) }
    requires cells { AreCells (L.seen legs.now) cells.now }
    requires edge { tables.IsCellEdge (L.seen legs.now) cells.now edge }
    requires from { tables.IsShapeOf (L.seen legs.now) cells.now edge.from from.now }
    requires next { next.now ≡ (L.seen legs.now).shape edge.sid }
    requires sound { tables.IsSound (L.seen legs.now) cells.now table.old }
    ensures { tables.RoomsRelaxed (L.seen legs.now) cells.now edge true 0 8 table.old table.new
        result }
{
    if room_behind(true, from, 7, next).is_none() {
        return false;
    }
    if is_barred(legs, cells[edge.from], true, edge.sid) {
        return false;
    }
    let mut changed = false;
    for room in 0..8 {
        let left = room_behind(true, from, room, next);
        let lowered = relax_room(legs, cells, table, edge, true, room, left);
        changed = either(changed, lowered);
    }
    changed
}

/// The rooms of an edge's first cell above 0 are lowered by the edge where it opens a container,
/// which with some room in front is the same for all
fn relax_opens<L: Legs>(
    legs: &L,
    cells: &[Cell],
    table: &mut [Option<Cost>],
    from: &Option<Shape>,
    next: &Shape,
    edge: CellEdge,
) -> bool
    requires laws { KeepsLaws (L.seen legs.now) }
    requires cells { AreCells (L.seen legs.now) cells.now }
    requires edge { tables.IsCellEdge (L.seen legs.now) cells.now edge }
    requires from { tables.IsShapeOf (L.seen legs.now) cells.now edge.from from.now }
    requires next { next.now ≡ (L.seen legs.now).shape edge.sid }
    requires sound { tables.IsSound (L.seen legs.now) cells.now table.old }
    ensures { tables.RoomsRelaxed (L.seen legs.now) cells.now edge false 1 8 table.old table.new
        result }
{
    let full = room_behind(false, from, 1, next);
    let mut changed = false;
    for room in 1..8 {
        let lowered = relax_room(legs, cells, table, edge, false, room, full);
        changed = either(changed, lowered);
    }
    changed
}

/// The rooms of an edge's first cell, whose SID's shape is given, are lowered by the edge
fn relax<L: Legs>(
    legs: &L,
    cells: &[Cell],
    table: &mut [Option<Cost>],
    from: &Option<Shape>,
    edge: CellEdge,
) -> bool
    requires cells { AreCells (L.seen legs.now) cells.now }
    requires edge { tables.IsCellEdge (L.seen legs.now) cells.now edge }
    requires from { tables.IsShapeOf (L.seen legs.now) cells.now edge.from from.now }
    requires sound { tables.IsSound (L.seen legs.now) cells.now table.old }
    ensures { tables.Relaxed (L.seen legs.now) cells.now edge table.old table.new result }
{
    legs.steps();
    let next = legs.shape(edge.sid);
    let packed = room_behind(false, from, 0, &next);
    let first = relax_room(legs, cells, table, edge, false, 0, packed);
    let above = relax_opens(legs, cells, table, from, &next, edge);
    let opens = either(first, above);
    let stays = relax_stays(legs, cells, table, from, &next, edge);
    either(opens, stays)
}

/// The costs of a cell are lowered by the finishes from it
fn relax_ends<L: Legs>(
    legs: &L,
    cells: &[Cell],
    table: &mut [Option<Cost>],
    from: &Option<Shape>,
    k: usize,
) -> bool
    requires cells { AreCells (L.seen legs.now) cells.now }
    requires within { k < length cells.now }
    requires from { tables.IsShapeOf (L.seen legs.now) cells.now k from.now }
    requires sound { tables.IsSound (L.seen legs.now) cells.now table.old }
    ensures { tables.EndsRelaxed (L.seen legs.now) cells.now k table.old table.new result }
{
    let cell = cells[k];
    let mut changed = false;
    for sid in legs.sids_at(legs.steps()) {
        if let Some(hops) = legs.finish(cell.position, cell.via, *sid) {
            let edge = CellEdge {
                from: k,
                to: None,
                sid: *sid,
                hops,
            };
            let lowered = relax(legs, cells, table, from, edge);
            changed = either(changed, lowered);
        }
    }
    changed
}

/// The leg from a cell into another, where there is one.
pub fn edge_into<L: Legs>(legs: &L, cells: &[Cell], from: usize, to: usize) -> Option<CellEdge>
    requires from { from < length cells.now }
    requires to { to < length cells.now }
    ensures { tables.IsEdgeInto (L.seen legs.now) cells.now from to result }
{
    let cell = cells[from];
    let other = cells[to];
    let sid = other.via?;
    let leg = legs.leg(cell.position, cell.via, sid)?;
    if leg.to != other.position {
        return None;
    }
    Some(CellEdge {
        from,
        to: Some(to),
        sid,
        hops: leg.hops,
    })
}

/// The costs of a cell are lowered by the legs from it to later positions; those within its
/// position are put after the others in the list
fn relax_legs<L: Legs>(
    legs: &L,
    cells: &[Cell],
    table: &mut [Option<Cost>],
    from: &Option<Shape>,
    k: usize,
    span: Span,
    edges: &mut Vec<CellEdge>,
) -> Result<bool, NoMemory>
    requires cells { AreCells (L.seen legs.now) cells.now }
    requires within { k < span.later }
    requires later { span.later ≤ length cells.now }
    requires from { tables.IsShapeOf (L.seen legs.now) cells.now k from.now }
    requires sound { tables.IsSound (L.seen legs.now) cells.now table.old }
    requires edges { tables.AreCellEdges (L.seen legs.now) cells.now span.later edges.old.items }
    ensures { IfOk result (λ changed. tables.LegsRelaxed (L.seen legs.now) cells.now k span.first
        span.later table.old table.new edges.old.items edges.new.items changed) }
{
    let mut changed = false;
    for to in span.first..cells.len() {
        if let Some(edge) = edge_into(legs, cells, k, to) {
            if to < span.later {
                edges.push(edge)?;
            } else {
                let lowered = relax(legs, cells, table, from, edge);
                changed = either(changed, lowered);
            }
        }
    }
    Ok(changed)
}

/// The costs of the cells of a position are lowered by the finishes and by the legs to later
/// positions. Gives the legs within the position.
pub fn gather<L: Legs>(
    alloc: Global,
    legs: &L,
    cells: &[Cell],
    table: &mut [Option<Cost>],
    span: Span,
) -> Result<Vec<CellEdge>, NoMemory>
    requires cells { AreCells (L.seen legs.now) cells.now }
    requires first { span.first ≤ span.later }
    requires later { span.later ≤ length cells.now }
    requires sound { tables.IsSound (L.seen legs.now) cells.now table.old }
    ensures { IfOk result (λ edges. tables.Gathers (L.seen legs.now) cells.now span.first
        span.later table.old table.new edges.items) }
{
    let mut edges = Vec::new(alloc);
    for k in span.first..span.later {
        let from = shape_of(legs, cells[k]);
        relax_ends(legs, cells, table, &from, k);
        relax_legs(legs, cells, table, &from, k, span, &mut edges)?;
    }
    Ok(edges)
}
