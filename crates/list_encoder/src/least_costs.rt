//! The costs of a position's states become the least ones: each state is settled once, the one with
//! the least cost first.

ghost use Rattle.std.specs.Prelude.{◌≡◌, ℕ, ◌*◌, ◌≤◌, false, length, replicate, None, OnOk, IfOk};
ghost use Rattle.list_pack.specs.CostsTerms.{nothing};
ghost use Rattle.list_encoder.specs.Cells.{AreCells};
ghost use Rattle.list_encoder.specs.CellTable.{IsSound, Settled, AreLeast, HasFewContainers};
ghost use Rattle.list_encoder.specs.Waiting.{is_done, IsFront};
ghost use Rattle.list_encoder.specs.Settling.{LeadToCells, SettlesAll};

use crate::cell_table::CellEdge;
use crate::cells::{Cell, first_of};
use crate::grouped::grouped;
use crate::lowering::{Span, gather};
use crate::offers::offer_all;
use crate::waiting::{Queue, cost_of, queue_of, settle_first};
use base::NoMemory;
use list_pack::{Cost, Legs};
use std::alloc::Global;

/// The states that wait are settled, from the least cost up, and those in front of each are lowered
/// by what it offers
fn settle_waiting<L: Legs>(
    legs: &L,
    cells: &[Cell],
    table: &mut [Option<Cost>],
    queue: &mut Queue,
    into: &[Vec<CellEdge>],
) -> Result<(), NoMemory>
    requires cells { AreCells (L.seen legs.now) cells.now }
    requires sound { IsSound (L.seen legs.now) cells.now table.old }
    requires front { IsFront table.old queue.old.waiting queue.old.done.items nothing }
    requires unsettled { (i : ℕ) → is_done queue.old.done.items i ≡ false }
    requires long { length queue.old.done.items ≡ 8 * length into.now }
    requires edges { LeadToCells (L.seen legs.now) cells.now into.now }
    ensures { OnOk result (SettlesAll (L.seen legs.now) cells.now into.now table.old table.new) }
{
    legs.steps();
    while let Some(next) = settle_first(queue) {
        let edges = into[next.place / 8].as_slice();
        let left = (next.place % 8) as u8;
        offer_all(legs, cells, table, queue, edges, left, cost_of(next))?;
    }
    Ok(())
}

/// The costs of the cells of a position become the least ones
fn settle<L: Legs>(
    alloc: Global,
    legs: &L,
    cells: &[Cell],
    table: &mut [Option<Cost>],
    span: Span,
) -> Result<(), NoMemory>
    requires cells { AreCells (L.seen legs.now) cells.now }
    requires first { span.first ≤ span.later }
    requires later { span.later ≤ length cells.now }
    requires sound { IsSound (L.seen legs.now) cells.now table.old }
    ensures { OnOk result (Settled (L.seen legs.now) cells.now span.first span.later table.old
        table.new) }
{
    let edges = gather(alloc, legs, cells, table, span)?;
    if edges.is_empty() {
        return Ok(());
    }
    let into = grouped(alloc, edges.as_slice(), span.later)?;
    let mut queue = queue_of(alloc, table, 8 * span.later)?;
    settle_waiting(legs, cells, table, &mut queue, into.as_slice())?;
    Ok(())
}

/// The costs of all positions become the least ones, from the last position to the first
fn settle_all<L: Legs>(
    alloc: Global,
    legs: &L,
    cells: &[Cell],
    table: &mut [Option<Cost>],
) -> Result<(), NoMemory>
    requires cells { AreCells (L.seen legs.now) cells.now }
    requires empty { table.old ≡ replicate (8 * length cells.now) None }
    ensures least { OnOk result (AreLeast (L.seen legs.now) cells.now table.new) }
    ensures few { OnOk result (HasFewContainers table.new) }
{
    let steps = legs.steps();
    let mut later = cells.len();
    for done in 0..steps + 1 {
        let first = first_of(legs, cells, steps - done);
        settle(alloc, legs, cells, table, Span { first, later })?;
        later = first;
    }
    Ok(())
}

/// The least cost of a path to the end from each state of each cell, eight rooms to a cell.
pub fn table_of<L: Legs>(
    alloc: Global,
    legs: &L,
    cells: &[Cell],
) -> Result<Vec<Option<Cost>>, NoMemory>
    requires { AreCells (L.seen legs.now) cells.now }
    ensures long { IfOk result (λ table. length table.items ≡ 8 * length cells.now) }
    ensures least { IfOk result (λ table. AreLeast (L.seen legs.now) cells.now table.items) }
    ensures few { IfOk result (λ table. HasFewContainers table.items) }
{
    let mut table = vec![in alloc; None; 8 * cells.len()]?;
    settle_all(alloc, legs, cells, table.as_mut_slice())?;
    Ok(table)
}
