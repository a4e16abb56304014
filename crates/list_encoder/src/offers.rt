//! What a settled state offers to those in front of it.

ghost use Rattle.std.specs.Prelude.{◌≡◌, ℕ, ◌+◌, ◌*◌, ◌<◌, ◌↔◌, IsTrue, length, Some, OnOk};
ghost use Rattle.list_pack.specs.LegsValueTerms.{KeepsLaws, IsShape};
ghost use Rattle.list_pack.specs.Rooms.{room_behind};
ghost use Rattle.list_encoder.specs.Cells.{AreCells};
ghost use Rattle.list_encoder.specs.CellTable.{LeavesRoom, IsShapeOf};
ghost use Rattle.list_encoder.specs.Offers.{IsOffer, OffersRoom, OffersWay, OffersEdge, OffersAll, LeadInto};

use crate::cell_table::CellEdge;
use crate::cells::{Cell, is_barred, shape_of};
use crate::waiting::{Queue, lower_open};
use base::NoMemory;
use list_pack::{Cost, Legs, Shape, move_cost, plus, room_behind};

/// What is left to the end from a settled state, to the states from which an edge leads to it.
#[derive(Clone, Copy, Debug)]
pub struct Offer {
    /// The edge into the state's cell.
    pub edge: CellEdge,
    /// Whether its SID stays in the container.
    pub stays: bool,
    /// The state's room, below 8.
    pub left: u8,
    /// What is left to the end from the state.
    pub rest: Cost,
}

/// One room of an edge's first cell is lowered by an offer, where it is the offer's room that is
/// left after it
fn offer_room<L: Legs>(
    legs: &L,
    cells: &[Cell],
    table: &mut [Option<Cost>],
    queue: &mut Queue,
    offer: Offer,
    room: u8,
    left: Option<u8>,
) -> Result<(), NoMemory>
    requires laws { KeepsLaws (L.seen legs.now) }
    requires cells { AreCells (L.seen legs.now) cells.now }
    requires offer { IsOffer (L.seen legs.now) cells.now table.old queue.old.waiting
        queue.old.done.items offer }
    requires room { room < 8 }
    requires left { LeavesRoom (L.seen legs.now) cells.now offer.edge offer.stays room left }
    ensures { OnOk result (OffersRoom (L.seen legs.now) cells.now offer room left table.old
        queue.old.done.items table.new queue.new.waiting queue.new.done.items) }
{
    let Some(after) = left else {
        return Ok(());
    };
    if after != offer.left {
        return Ok(());
    }
    let cost = plus(
        move_cost(legs.sid_cost(), offer.stays, offer.edge.hops),
        offer.rest,
    );
    lower_open(table, queue, 8 * offer.edge.from + room as usize, cost)?;
    Ok(())
}

/// Some room of an edge's first cell may leave the offer's room; where it can't stay in the
/// container with the most room that there may be, it can't with less, and it opens a container
/// with some room in front as it does with any other
fn may_lead(offer: &Offer, from: &Option<Shape>, next: &Shape) -> bool
    requires { IsShape next.now }
    ensures { (room : ℕ) → room < 8 → room_behind offer.now.stays from.now room next.now
        ≡ Some offer.now.left → IsTrue result }
{
    if offer.stays {
        return room_behind(true, from, 7, next).is_some();
    }
    is_room(room_behind(false, from, 0, next), offer.left)
        || is_room(room_behind(false, from, 1, next), offer.left)
}

/// The room is there and is the other
fn is_room(room: Option<u8>, other: u8) -> bool
    ensures { IsTrue result ↔ (room ≡ Some other) }
{
    match room {
        None => false,
        Some(room) => room == other,
    }
}

/// All rooms of an edge's first cell are lowered by an offer that is not barred
fn offer_way<L: Legs>(
    legs: &L,
    cells: &[Cell],
    table: &mut [Option<Cost>],
    queue: &mut Queue,
    offer: Offer,
    from: &Option<Shape>,
    next: &Shape,
) -> Result<(), NoMemory>
    requires laws { KeepsLaws (L.seen legs.now) }
    requires cells { AreCells (L.seen legs.now) cells.now }
    requires offer { IsOffer (L.seen legs.now) cells.now table.old queue.old.waiting
        queue.old.done.items offer }
    requires from { IsShapeOf (L.seen legs.now) cells.now offer.edge.from from.now }
    requires next { next.now ≡ (L.seen legs.now).shape offer.edge.sid }
    ensures { OnOk result (OffersWay (L.seen legs.now) cells.now offer 8 table.old
        queue.old.done.items table.new queue.new.waiting queue.new.done.items) }
{
    if !may_lead(&offer, from, next) {
        return Ok(());
    }
    if is_barred(legs, cells[offer.edge.from], offer.stays, offer.edge.sid) {
        return Ok(());
    }
    for room in 0..8 {
        let left = room_behind(offer.stays, from, room, next);
        offer_room(legs, cells, table, queue, offer, room, left)?;
    }
    Ok(())
}

/// The states of an edge's first cell are lowered by an offer, in the container and by a new one
fn offer_edge<L: Legs>(
    legs: &L,
    cells: &[Cell],
    table: &mut [Option<Cost>],
    queue: &mut Queue,
    offer: Offer,
) -> Result<(), NoMemory>
    requires cells { AreCells (L.seen legs.now) cells.now }
    requires offer { IsOffer (L.seen legs.now) cells.now table.old queue.old.waiting
        queue.old.done.items offer }
    ensures { OnOk result (OffersEdge (L.seen legs.now) cells.now offer table.old
        queue.old.done.items table.new queue.new.waiting queue.new.done.items) }
{
    legs.steps();
    let from = shape_of(legs, cells[offer.edge.from]);
    let next = legs.shape(offer.edge.sid);
    let opens = Offer {
        stays: false,
        ..offer
    };
    let stays = Offer {
        stays: true,
        ..offer
    };
    offer_way(legs, cells, table, queue, opens, &from, &next)?;
    offer_way(legs, cells, table, queue, stays, &from, &next)?;
    Ok(())
}

/// The states in front of one that is settled are lowered by what it offers, by each edge into its
/// cell.
pub fn offer_all<L: Legs>(
    legs: &L,
    cells: &[Cell],
    table: &mut [Option<Cost>],
    queue: &mut Queue,
    edges: &[CellEdge],
    left: u8,
    rest: Cost,
) -> Result<(), NoMemory>
    requires cells { AreCells (L.seen legs.now) cells.now }
    requires lead { LeadInto (L.seen legs.now) cells.now table.old queue.old.waiting
        queue.old.done.items edges.now left rest }
    ensures { OnOk result (OffersAll (L.seen legs.now) cells.now edges.now (length edges.now) left
        rest table.old queue.old.done.items table.new queue.new.waiting queue.new.done.items) }
{
    for edge in edges {
        let offer = Offer {
            edge: *edge,
            stays: false,
            left,
            rest,
        };
        offer_edge(legs, cells, table, queue, offer)?;
    }
    Ok(())
}
