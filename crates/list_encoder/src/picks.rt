//! The first tight move from a state: one whose cost, with what is left after it, is what is left
//! in front of it.

ghost use Rattle.std.specs.Prelude.{◌≡◌, ◌+◌, ◌*◌, ◌==◌, length};
ghost use Rattle.std.specs.Option.{option_map};
ghost use Rattle.list_encoder.specs.Cells.{AreCells};
ghost use Rattle.list_encoder.specs.CellTable.{IsCellEdge};
ghost use Rattle.list_encoder.specs.Picks.{better_of, is_sum, IsCostedState, PicksMoves, PicksEdge, PicksEnds, PicksLegs, PicksFirst};

use crate::cell_table::{CellEdge, rest_at};
use crate::cells::{Cell, is_barred, shape_of};
use crate::lowering::edge_into;
use list_pack::{Cost, Legs, PathStep, Shape, move_cost, room_behind, step_before};

/// A state of a cell from which there is a path, with its least cost.
#[derive(Clone, Copy, Debug, PartialEq, Eq)]
pub struct CostedState {
    /// The cell's place.
    pub place: usize,
    /// The cell.
    pub cell: Cell,
    /// The room, below 8.
    pub room: u8,
    /// The least cost.
    pub cost: Cost,
}

/// A tight move.
#[derive(Debug, Drop)]
pub struct Pick {
    /// The move as it is written.
    pub step: PathStep,
    /// The place of the cell that it leads to; none at the end.
    pub to: Option<usize>,
    /// The room after it, below 8.
    pub room: u8,
    /// The least cost after it.
    pub rest: Cost,
}

/// The move whose step comes first, where one is there
fn better(best: Option<Pick>, other: Option<Pick>) -> Option<Pick>
    ensures { result ≡ better_of best other }
{
    match best {
        None => other,
        Some(p) => match other {
            None => Some(p),
            Some(q) => {
                if step_before(&q.step, &p.step) {
                    Some(q)
                } else {
                    Some(p)
                }
            }
        },
    }
}

/// A number is the sum of two others
fn adds_up(a: u32, b: u32, sum: u32) -> bool
    ensures { result ≡ (a + b == sum) }
{
    u64::from(a) + u64::from(b) == u64::from(sum)
}

/// A cost is the sum of two others
fn is_sum(a: Cost, b: Cost, sum: Cost) -> bool
    ensures { result ≡ is_sum a b sum }
{
    let containers = adds_up(a.containers, b.containers, sum.containers);
    let sids = adds_up(a.sids, b.sids, sum.sids);
    let hops = adds_up(a.hops, b.hops, sum.hops);
    containers && sids && hops
}

/// The move by an edge that stays in the container, or the one that doesn't, where it is tight
fn pick_move<L: Legs>(
    legs: &L,
    cells: &[Cell],
    table: &[Option<Cost>],
    from: &Option<Shape>,
    costed_state: CostedState,
    edge: CellEdge,
    stays: bool,
) -> Option<Pick>
    requires cells { AreCells (L.seen legs.now) cells.now }
    requires long { length table.now ≡ 8 * length cells.now }
    requires costed_state { IsCostedState cells.now table.now costed_state }
    requires from { from.now ≡ option_map (L.seen legs.now).shape costed_state.cell.via }
    requires edge { IsCellEdge (L.seen legs.now) cells.now edge }
    requires place { edge.from ≡ costed_state.place }
    ensures { PicksMoves (L.seen legs.now) cells.now table.now costed_state edge stays result }
{
    legs.steps();
    if is_barred(legs, costed_state.cell, stays, edge.sid) {
        return None;
    }
    let next = legs.shape(edge.sid);
    let room = room_behind(stays, from, costed_state.room, &next)?;
    let rest = rest_at(table, edge.to, room)?;
    if !is_sum(
        move_cost(legs.sid_cost(), stays, edge.hops),
        rest,
        costed_state.cost,
    ) {
        return None;
    }
    Some(Pick {
        step: PathStep {
            stays,
            prefix: next.prefix,
        },
        to: edge.to,
        room,
        rest,
    })
}

/// The first tight move by an edge
fn pick_edge<L: Legs>(
    legs: &L,
    cells: &[Cell],
    table: &[Option<Cost>],
    from: &Option<Shape>,
    costed_state: CostedState,
    edge: CellEdge,
) -> Option<Pick>
    requires cells { AreCells (L.seen legs.now) cells.now }
    requires long { length table.now ≡ 8 * length cells.now }
    requires costed_state { IsCostedState cells.now table.now costed_state }
    requires from { from.now ≡ option_map (L.seen legs.now).shape costed_state.cell.via }
    requires edge { IsCellEdge (L.seen legs.now) cells.now edge }
    requires place { edge.from ≡ costed_state.place }
    ensures { PicksEdge (L.seen legs.now) cells.now table.now costed_state edge result }
{
    let stays = pick_move(legs, cells, table, from, costed_state, edge, true);
    let opens = pick_move(legs, cells, table, from, costed_state, edge, false);
    better(stays, opens)
}

/// The first tight finish
fn pick_end<L: Legs>(
    legs: &L,
    cells: &[Cell],
    table: &[Option<Cost>],
    from: &Option<Shape>,
    costed_state: CostedState,
) -> Option<Pick>
    requires cells { AreCells (L.seen legs.now) cells.now }
    requires long { length table.now ≡ 8 * length cells.now }
    requires costed_state { IsCostedState cells.now table.now costed_state }
    requires from { from.now ≡ option_map (L.seen legs.now).shape costed_state.cell.via }
    ensures { PicksEnds (L.seen legs.now) cells.now table.now costed_state result }
{
    let mut best = None;
    for sid in legs.sids_at(legs.steps()) {
        if let Some(hops) = legs.finish(costed_state.cell.position, costed_state.cell.via, *sid) {
            let edge = CellEdge {
                from: costed_state.place,
                to: None,
                sid: *sid,
                hops,
            };
            best = better(
                best,
                pick_edge(legs, cells, table, from, costed_state, edge),
            );
        }
    }
    best
}

/// The first tight leg
fn pick_leg<L: Legs>(
    legs: &L,
    cells: &[Cell],
    table: &[Option<Cost>],
    from: &Option<Shape>,
    costed_state: CostedState,
) -> Option<Pick>
    requires cells { AreCells (L.seen legs.now) cells.now }
    requires long { length table.now ≡ 8 * length cells.now }
    requires costed_state { IsCostedState cells.now table.now costed_state }
    requires from { from.now ≡ option_map (L.seen legs.now).shape costed_state.cell.via }
    ensures { PicksLegs (L.seen legs.now) cells.now table.now costed_state result }
{
    let mut best = None;
    for to in 0..cells.len() {
        if let Some(edge) = edge_into(legs, cells, costed_state.place, to) {
            best = better(
                best,
                pick_edge(legs, cells, table, from, costed_state, edge),
            );
        }
    }
    best
}

/// The first tight move from a state.
pub fn first_tight<L: Legs>(
    legs: &L,
    cells: &[Cell],
    table: &[Option<Cost>],
    costed_state: CostedState,
) -> Option<Pick>
    requires cells { AreCells (L.seen legs.now) cells.now }
    requires long { length table.now ≡ 8 * length cells.now }
    requires costed_state { IsCostedState cells.now table.now costed_state }
    ensures { PicksFirst (L.seen legs.now) cells.now table.now costed_state result }
{
    let from = shape_of(legs, costed_state.cell);
    let end = pick_end(legs, cells, table, &from, costed_state);
    let leg = pick_leg(legs, cells, table, &from, costed_state);
    better(end, leg)
}
