//! Cells: the states of a SID at a position, and where their lines begin.

ghost use Rattle.std.specs.Prelude.{◌≡◌, ◌≤◌, Contains};
ghost use Rattle.list_certificate.specs.Certs.{potential_at};
ghost use Rattle.list_certificate.specs.Tests as tests;

use crate::certificate_types::PotentialLine;
use crate::search::{StateKey, first_at, place_at, potential_from};
use list_pack::{Cost, Legs, Shape, State};

/// The states of a SID at a position, and where their lines begin.
#[derive(Debug, Drop)]
pub struct Cell {
    /// How many steps of the intent are done.
    pub position: u32,
    /// The SID's number.
    pub sid: u32,
    /// The SID's shape.
    pub shape: Shape,
    /// What the order of states goes by first.
    pub place: Option<StateKey>,
    /// How many lines stand before that place.
    pub first: usize,
}

/// The cell of a SID at a position.
pub fn cell_of<L: Legs>(legs: &L, lines: &[PotentialLine], position: u32, n: u32) -> Cell
    requires sorted { tests.AreSorted (L.seen legs.now) lines.now }
    requires within { position ≤ (L.seen legs.now).steps }
    requires sid { Contains ((L.seen legs.now).sids_at position) n }
    ensures cell { tests.IsCell (L.seen legs.now) lines.now result }
    ensures position { result.position ≡ position }
    ensures sid { result.sid ≡ n }
{
    let shape = legs.shape(n);
    let place = place_at(position, &shape);
    let first = first_at(legs, lines, place);
    Cell {
        position,
        sid: n,
        shape,
        place,
        first,
    }
}

/// The potential of a cell's state with some room after its SID.
pub fn potential_in<L: Legs>(
    legs: &L,
    lines: &[PotentialLine],
    cell: &Cell,
    room: u8,
) -> Option<Cost>
    requires sorted { tests.AreSorted (L.seen legs.now) lines.now }
    requires cell { tests.IsCell (L.seen legs.now) lines.now cell.now }
    ensures { result ≡ potential_at lines.now (tests.state_in cell.now room) }
{
    let state = State {
        position: cell.position,
        via: Some(cell.sid),
        room,
    };
    potential_from(legs, lines, cell.first, cell.place, state)
}
