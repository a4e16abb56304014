//! Whether all states pass: legs, and who may stay after whom, are asked once for all states of a
//! cell.

ghost use Rattle.std.specs.Prelude.{◌≡◌, ◌≤◌, IsTrue, Contains, Some};
ghost use Rattle.list_pack.specs.Rooms.{top_room};
ghost use Rattle.list_certificate.specs.Tests as tests;

use crate::certificate_types::PotentialLine;
use crate::firsts::costed_state_of;
use crate::good::{CostedState, passes, passes_last, passes_move};
use crate::potential_cells::{Cell, cell_of, potential_in};
use list_pack::{Leg, Legs, State, top_room};

/// A cell's state with some room after its SID
fn costed_state_in<L: Legs>(legs: &L, lines: &[PotentialLine], cell: &Cell, room: u8) -> CostedState
    requires sorted { tests.AreSorted (L.seen legs.now) lines.now }
    requires cell { tests.IsCell (L.seen legs.now) lines.now cell.now }
    requires middle { IsTrue cell.now.shape.middle }
    requires room { room ≤ top_room cell.now.shape }
    ensures costed_state { tests.IsCostedState (L.seen legs.now) lines.now result }
    ensures state { result.state ≡ tests.state_in cell.now room }
{
    CostedState {
        state: State {
            position: cell.position,
            via: Some(cell.sid),
            room,
        },
        from: Some(cell.shape),
        potential: potential_in(legs, lines, cell, room),
    }
}

/// The moves of a cell's states by a leg pass
fn pass_leg<L: Legs>(legs: &L, lines: &[PotentialLine], cell: &Cell, next: &Cell, leg: Leg) -> bool
    requires sorted { tests.AreSorted (L.seen legs.now) lines.now }
    requires cell { tests.IsCell (L.seen legs.now) lines.now cell.now }
    requires middle { IsTrue cell.now.shape.middle }
    requires next { tests.IsCell (L.seen legs.now) lines.now next.now }
    requires leg { (L.seen legs.now).leg cell.now.position (Some cell.now.sid) next.now.sid
        ≡ Some leg }
    requires end { leg.to ≡ next.now.position }
    ensures { tests.Assures (tests.CellPassesLeg (L.seen legs.now) lines.now cell.now next.now.sid)
        result }
{
    legs.steps();
    let barred = !legs.stays(cell.sid, next.sid);
    let top = top_room(&cell.shape);
    for room in 0..top + 1 {
        let costed_state = costed_state_in(legs, lines, cell, room);
        if !passes_move(legs, lines, &costed_state, next, leg, true, barred) {
            return false;
        }
        if !passes_move(legs, lines, &costed_state, next, leg, false, barred) {
            return false;
        }
    }
    true
}

/// The moves of a cell's states by legs to a position pass
fn pass_legs_to<L: Legs>(legs: &L, lines: &[PotentialLine], cell: &Cell, to: u32) -> bool
    requires sorted { tests.AreSorted (L.seen legs.now) lines.now }
    requires cell { tests.IsCell (L.seen legs.now) lines.now cell.now }
    requires middle { IsTrue cell.now.shape.middle }
    requires within { to ≤ (L.seen legs.now).steps }
    ensures { tests.Assures (tests.CellPassesLegsTo
        (L.seen legs.now) lines.now cell.now to) result }
{
    legs.steps();
    for n in legs.sids_at(to) {
        if let Some(leg) = legs.leg(cell.position, Some(cell.sid), *n) {
            if leg.to == to {
                let next = cell_of(legs, lines, to, *n);
                if !pass_leg(legs, lines, cell, &next, leg) {
                    return false;
                }
            }
        }
    }
    true
}

/// The moves of a cell's states by legs pass
fn pass_legs<L: Legs>(legs: &L, lines: &[PotentialLine], cell: &Cell) -> bool
    requires sorted { tests.AreSorted (L.seen legs.now) lines.now }
    requires cell { tests.IsCell (L.seen legs.now) lines.now cell.now }
    requires middle { IsTrue cell.now.shape.middle }
    ensures { tests.Assures (tests.CellPassesLegs (L.seen legs.now) lines.now cell.now) result }
{
    let steps = legs.steps();
    for to in cell.position..steps + 1 {
        if !pass_legs_to(legs, lines, cell, to) {
            return false;
        }
    }
    true
}

/// The moves of a cell's states to the end by a SID pass
fn pass_finish<L: Legs>(legs: &L, lines: &[PotentialLine], cell: &Cell, n: u32, hops: u32) -> bool
    requires sorted { tests.AreSorted (L.seen legs.now) lines.now }
    requires cell { tests.IsCell (L.seen legs.now) lines.now cell.now }
    requires middle { IsTrue cell.now.shape.middle }
    requires finish { (L.seen legs.now).finish cell.now.position (Some cell.now.sid) n ≡ Some hops }
    ensures { tests.Assures (tests.CellPassesFinish (L.seen legs.now) lines.now cell.now n) result }
{
    legs.steps();
    let barred = !legs.stays(cell.sid, n);
    let top = top_room(&cell.shape);
    for room in 0..top + 1 {
        let costed_state = costed_state_in(legs, lines, cell, room);
        if !passes_last(legs, lines, &costed_state, n, hops, true, barred) {
            return false;
        }
        if !passes_last(legs, lines, &costed_state, n, hops, false, barred) {
            return false;
        }
    }
    true
}

/// The moves of a cell's states to the end pass
fn pass_ends<L: Legs>(legs: &L, lines: &[PotentialLine], cell: &Cell) -> bool
    requires sorted { tests.AreSorted (L.seen legs.now) lines.now }
    requires cell { tests.IsCell (L.seen legs.now) lines.now cell.now }
    requires middle { IsTrue cell.now.shape.middle }
    ensures { tests.Assures (tests.CellPassesEnds (L.seen legs.now) lines.now cell.now) result }
{
    for n in legs.sids_at(legs.steps()) {
        if let Some(hops) = legs.finish(cell.position, Some(cell.sid), *n) {
            if !pass_finish(legs, lines, cell, *n, hops) {
                return false;
            }
        }
    }
    true
}

/// The states of a SID at a position pass
fn pass_at_sid<L: Legs>(legs: &L, lines: &[PotentialLine], position: u32, n: u32) -> bool
    requires sorted { tests.AreSorted (L.seen legs.now) lines.now }
    requires within { position ≤ (L.seen legs.now).steps }
    requires sid { Contains ((L.seen legs.now).sids_at position) n }
    ensures { tests.Assures
        (tests.PassAmong (L.seen legs.now) lines.now (tests.OfSid position n)) result }
{
    let cell = cell_of(legs, lines, position, n);
    if !cell.shape.middle {
        return true;
    }
    if !pass_legs(legs, lines, &cell) {
        return false;
    }
    pass_ends(legs, lines, &cell)
}

/// The states at a position pass
fn pass_at<L: Legs>(legs: &L, lines: &[PotentialLine], position: u32) -> bool
    requires sorted { tests.AreSorted (L.seen legs.now) lines.now }
    requires within { position ≤ (L.seen legs.now).steps }
    ensures { tests.Assures
        (tests.PassAmong (L.seen legs.now) lines.now (tests.OfPosition position)) result }
{
    for n in legs.sids_at(position) {
        if !pass_at_sid(legs, lines, position, *n) {
            return false;
        }
    }
    true
}

/// Whether all states pass; at `false` one doesn't, or it isn't known.
pub fn all_pass<L: Legs>(legs: &L, lines: &[PotentialLine]) -> bool
    requires { tests.AreSorted (L.seen legs.now) lines.now }
    ensures { tests.Assures (tests.PassAmong (L.seen legs.now) lines.now tests.OfAll) result }
{
    let steps = legs.steps();
    let start = State {
        position: 0,
        via: None,
        room: 0,
    };
    let costed_state = costed_state_of(legs, lines, start);
    if !passes(legs, lines, &costed_state) {
        return false;
    }
    for position in 0..steps + 1 {
        if !pass_at(legs, lines, position) {
            return false;
        }
    }
    true
}
