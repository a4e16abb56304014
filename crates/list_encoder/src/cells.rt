//! The cells of a table of costs: the start, and the SIDs of all positions.

ghost use Rattle.std.specs.Prelude.{◌≡◌, ◌+◌, ◌++◌, ◌≤◌, ◌&&◌, map, Some, OnOk, IfOk};
ghost use Rattle.std.specs.Option.{option_map};
ghost use Rattle.list_pack.specs.LegsValueTerms.{IsSid};
ghost use Rattle.list_pack.specs.Costs.{bars};
ghost use Rattle.list_encoder.specs.Cells.{AreCells, IsFirst, IsCell, cell_at, top_at};

use base::NoMemory;
use list_pack::{Legs, Shape, top_room};
use std::alloc::Global;

/// The most cells that there are: the start's, and those of 128 SIDs at each of 49 positions.
pub const MAX_CELLS: u32 = 6_273;

/// The states of one SID at one position, or the start's.
#[derive(Clone, Copy, Debug, PartialEq, Eq)]
pub struct Cell {
    /// How many steps of the intent are done.
    pub position: u32,
    /// The number of the SID that was executed last; none at the start.
    pub via: Option<u32>,
}

/// The cells of a position are put after the others
fn add_cells(cells: &mut Vec<Cell>, position: u32, sids: &[u32]) -> Result<(), NoMemory>
    ensures { OnOk result (cells.new.items ≡ cells.old.items ++ map (cell_at position) sids.now) }
{
    for n in sids {
        cells.push(Cell {
            position,
            via: Some(*n),
        })?;
    }
    Ok(())
}

/// The start's cell, and then a cell for each SID of each position, in the order of states.
pub fn cells_of<L: Legs>(alloc: Global, legs: &L) -> Result<Vec<Cell>, NoMemory>
    ensures { IfOk result (λ cells. AreCells (L.seen legs.now) cells.items) }
{
    let steps = legs.steps();
    let mut cells = Vec::new(alloc);
    cells.push(Cell {
        position: 0,
        via: None,
    })?;
    for position in 0..steps + 1 {
        add_cells(&mut cells, position, legs.sids_at(position))?;
    }
    Ok(cells)
}

/// The place of the first cell of a position or of a later one; their number where there is none.
pub fn first_of<L: Legs>(legs: &L, cells: &[Cell], position: u32) -> usize
    requires { AreCells (L.seen legs.now) cells.now }
    ensures { IsFirst cells.now position result }
{
    legs.steps();
    for (k, cell) in cells.iter().enumerate() {
        if cell.position >= position {
            return k;
        }
    }
    cells.len()
}

/// The shape of a cell's SID; none at the start.
pub fn shape_of<L: Legs>(legs: &L, cell: Cell) -> Option<Shape>
    requires { IsCell (L.seen legs.now) cell }
    ensures { result ≡ option_map (L.seen legs.now).shape cell.via }
{
    match cell.via {
        None => None,
        Some(n) => Some(legs.shape(n)),
    }
}

/// Whether a move is barred: it would stay in the container of a cell's SID, directly after which
/// its own may not stand there.
pub fn is_barred<L: Legs>(legs: &L, cell: Cell, stays: bool, sid: u32) -> bool
    requires cell { IsCell (L.seen legs.now) cell }
    requires sid { IsSid (L.seen legs.now) sid }
    ensures { result ≡ (stays && bars (L.seen legs.now) cell.via sid) }
{
    match cell.via {
        None => false,
        Some(n) => stays && !legs.stays(n, sid),
    }
}

/// The most room after a cell's SID; 0 at the start.
pub fn top_of<L: Legs>(legs: &L, cell: Cell) -> u8
    requires { IsCell (L.seen legs.now) cell }
    ensures value { result ≡ top_at (L.seen legs.now) cell }
    ensures few { result ≤ 7 }
{
    legs.steps();
    match cell.via {
        None => 0,
        Some(n) => top_room(&legs.shape(n)),
    }
}
