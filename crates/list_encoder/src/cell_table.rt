//! A table of costs, eight rooms to a cell, and what lowers it.

ghost use Rattle.std.specs.Prelude.{◌≡◌, ◌+◌, ◌*◌, ◌<◌, ◌||◌, length, Some};
ghost use Rattle.list_encoder.specs.CellTable.{entry, rest_at, Lowers, AreInRange};

use crate::cells::MAX_CELLS;
use list_pack::{Cost, is_below};

/// The most containers of a least list: one for each state, eight to a cell.
pub const MAX_PATH_CONTAINERS: u32 = 8 * MAX_CELLS;

/// A way from the states of a cell to the end, by a finish, or to those of another cell, by a leg.
#[derive(Clone, Copy, Debug, PartialEq, Eq)]
pub struct CellEdge {
    /// The place of the cell that it starts from.
    pub from: usize,
    /// The place of the cell that it leads to; none at the end.
    pub to: Option<usize>,
    /// The SID that is executed.
    pub sid: u32,
    /// How often the hop limit is lowered.
    pub hops: u32,
}

/// What is left to the end from a cell with so much room, below 8.
pub fn entry(table: &[Option<Cost>], cell: usize, room: u8) -> Option<Cost>
    requires { 8 * cell + room < length table.now }
    ensures { result ≡ entry table.now cell room }
{
    table[8 * cell + room as usize]
}

/// What is left to the end after an edge, with so much room.
pub fn rest_at(table: &[Option<Cost>], to: Option<usize>, room: u8) -> Option<Cost>
    requires { AreInRange table.now to room }
    ensures { result ≡ rest_at table.now to room }
{
    match to {
        None => Some(Cost {
            containers: 0,
            sids: 0,
            hops: 0,
        }),
        Some(cell) => entry(table, cell, room),
    }
}

/// An entry is lowered to a cost where that is below it.
pub fn lower(table: &mut [Option<Cost>], i: usize, cost: Cost) -> bool
    requires { i < length table.old }
    ensures { Lowers table.old table.new i cost result }
{
    let lowers = match table[i] {
        None => true,
        Some(old) => is_below(cost, old),
    };
    if lowers {
        table[i] = Some(cost);
    }
    lowers
}

/// Whether one of two holds.
pub fn either(a: bool, b: bool) -> bool
    ensures { result ≡ (a || b) }
{
    a || b
}
