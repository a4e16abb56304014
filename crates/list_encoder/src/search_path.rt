//! The first least path from the start.

ghost use Rattle.std.specs.Prelude.{◌≡◌, ◌*◌, length, IfOk};
ghost use Rattle.list_pack.specs.Least.{IsPath, IsPathOrNone};
ghost use Rattle.list_encoder.specs.Cells.{AreCells, start_cell};
ghost use Rattle.list_encoder.specs.CellTable.{AreLeast};
ghost use Rattle.list_encoder.specs.Picks.{IsCostedState};

use crate::cell_table::entry;
use crate::cells::Cell;
use crate::picks::{CostedState, first_tight};
use base::NoMemory;
use list_pack::{Cost, Legs, PathStep};
use std::alloc::Global;

/// The first least path from a state
fn path_from<L: Legs>(
    alloc: Global,
    legs: &L,
    cells: &[Cell],
    table: &[Option<Cost>],
    start: CostedState,
) -> Result<Vec<PathStep>, NoMemory>
    requires cells { AreCells (L.seen legs.now) cells.now }
    requires long { length table.now ≡ 8 * length cells.now }
    requires least { AreLeast (L.seen legs.now) cells.now table.now }
    requires costed_state { IsCostedState cells.now table.now start }
    requires cell { start.cell ≡ start_cell }
    requires room { start.room ≡ 0 }
    ensures { IfOk result (λ path. IsPath (L.seen legs.now) path.items) }
{
    legs.steps();
    let mut steps = Vec::new(alloc);
    let mut costed_state = start;
    loop {
        let Some(pick) = first_tight(legs, cells, table, costed_state) else {
            unreachable!()
        };
        steps.push(pick.step)?;
        match pick.to {
            None => return Ok(steps),
            Some(place) => {
                costed_state = CostedState {
                    place,
                    cell: cells[place],
                    room: pick.room,
                    cost: pick.rest,
                };
            }
        }
    }
}

/// The first least path from the start; empty where there is none.
pub fn path_of<L: Legs>(
    alloc: Global,
    legs: &L,
    cells: &[Cell],
    table: &[Option<Cost>],
) -> Result<Vec<PathStep>, NoMemory>
    requires cells { AreCells (L.seen legs.now) cells.now }
    requires long { length table.now ≡ 8 * length cells.now }
    requires least { AreLeast (L.seen legs.now) cells.now table.now }
    ensures { IfOk result (λ path. IsPathOrNone (L.seen legs.now) path.items) }
{
    match entry(table, 0, 0) {
        None => Ok(Vec::new(alloc)),
        Some(cost) => {
            let start = CostedState {
                place: 0,
                cell: cells[0],
                room: 0,
                cost,
            };
            path_from(alloc, legs, cells, table, start)
        }
    }
}
