//! The listing of a table's costs.

ghost use Rattle.std.specs.Prelude.{◌≡◌, ◌+◌, ◌*◌, ◌≤◌, ◌<◌, length, Some, OnOk, IfOk};
ghost use Rattle.list_pack.specs.Least.{IsListing};
ghost use Rattle.list_encoder.specs.Listing.{ListsFewContainers};
ghost use Rattle.list_encoder.specs.Cells.{AreCells};
ghost use Rattle.list_encoder.specs.CellTable.{AreLeast, HasFewContainers};
ghost use Rattle.list_encoder.specs.Listing as listings;

use crate::cell_table::entry;
use crate::cells::{Cell, top_of};
use base::NoMemory;
use list_pack::{Cost, Legs, Potential, State};
use std::alloc::Global;

/// The costs of a cell are put after the others
fn list_cell<L: Legs>(
    legs: &L,
    cells: &[Cell],
    table: &[Option<Cost>],
    k: usize,
    top: u8,
    potentials: &mut Vec<Potential>,
) -> Result<(), NoMemory>
    requires cells { AreCells (L.seen legs.now) cells.now }
    requires long { length table.now ≡ 8 * length cells.now }
    requires within { k < length cells.now }
    requires top { listings.IsTop (L.seen legs.now) cells.now k top }
    requires few { top ≤ 7 }
    requires listed { listings.IsListed (L.seen legs.now) cells.now table.now (8 * k)
        potentials.old.items }
    ensures { OnOk result (listings.IsListed (L.seen legs.now) cells.now table.now (8 * k + 8)
        potentials.new.items) }
{
    legs.steps();
    let cell = cells[k];
    for room in 0..top + 1 {
        if let Some(cost) = entry(table, k, room) {
            potentials.push(Potential {
                state: State {
                    position: cell.position,
                    via: cell.via,
                    room,
                },
                cost,
            })?;
        }
    }
    Ok(())
}

/// The least costs of a table whose entries are the least, in the order of states.
pub fn listing_of<L: Legs>(
    alloc: Global,
    legs: &L,
    cells: &[Cell],
    table: &[Option<Cost>],
) -> Result<Vec<Potential>, NoMemory>
    requires cells { AreCells (L.seen legs.now) cells.now }
    requires long { length table.now ≡ 8 * length cells.now }
    requires least { AreLeast (L.seen legs.now) cells.now table.now }
    requires few { HasFewContainers table.now }
    ensures listing { IfOk result (λ potentials. IsListing (L.seen legs.now) potentials.items) }
    ensures few { IfOk result (λ potentials. ListsFewContainers potentials.items) }
{
    legs.steps();
    let mut potentials = Vec::new(alloc);
    for k in 0..cells.len() {
        let top = top_of(legs, cells[k]);
        list_cell(legs, cells, table, k, top, &mut potentials)?;
    }
    Ok(potentials)
}
