//! The first line whose state does not pass, and the first such state that is not listed.

ghost use Rattle.std.specs.Prelude.{◌≡◌, ◌≤◌, Contains};
ghost use Rattle.list_pack.specs.Costs.{IsState};
ghost use Rattle.list_certificate.specs.Tests as tests;

use crate::certificate_types::PotentialLine;
use crate::good::{CostedState, passes};
use crate::search::potential_at;
use list_pack::{Legs, Shape, State, top_room};

/// The shape of a state's SID; none at the start
pub(crate) fn shape_of<L: Legs>(legs: &L, state: State) -> Option<Shape>
    requires { IsState (L.seen legs.now) state }
    ensures { tests.IsShapeOf (L.seen legs.now) state result }
{
    match state.via {
        None => None,
        Some(n) => Some(legs.shape(n)),
    }
}

/// A state with its SID's shape and its potential.
pub fn costed_state_of<L: Legs>(legs: &L, lines: &[PotentialLine], state: State) -> CostedState
    requires sorted { tests.AreSorted (L.seen legs.now) lines.now }
    requires state { IsState (L.seen legs.now) state }
    ensures costed_state { tests.IsCostedState (L.seen legs.now) lines.now result }
    ensures state { result.state ≡ state }
{
    CostedState {
        state,
        from: shape_of(legs, state),
        potential: potential_at(legs, lines, state),
    }
}

/// The first line whose state does not pass, by its number.
pub fn first_bad_line<L: Legs>(legs: &L, lines: &[PotentialLine]) -> Option<u32>
    requires { tests.AreSorted (L.seen legs.now) lines.now }
    ensures { tests.BadLine (L.seen legs.now) lines.now result }
{
    for line in lines {
        let costed_state = costed_state_of(legs, lines, line.potential.state);
        if !passes(legs, lines, &costed_state) {
            return Some(line.line);
        }
    }
    None
}

/// A state is not listed and does not pass
fn fails<L: Legs>(legs: &L, lines: &[PotentialLine], state: State) -> bool
    requires sorted { tests.AreSorted (L.seen legs.now) lines.now }
    requires state { IsState (L.seen legs.now) state }
    ensures { tests.ShowsFailure (L.seen legs.now) lines.now state result }
{
    let costed_state = costed_state_of(legs, lines, state);
    if costed_state.potential.is_some() {
        return false;
    }
    !passes(legs, lines, &costed_state)
}

/// The first failing state of a SID at a position
fn first_of_sid<L: Legs>(legs: &L, lines: &[PotentialLine], position: u32, n: u32) -> Option<State>
    requires sorted { tests.AreSorted (L.seen legs.now) lines.now }
    requires within { position ≤ (L.seen legs.now).steps }
    requires sid { Contains ((L.seen legs.now).sids_at position) n }
    ensures { tests.FirstFailure (L.seen legs.now) lines.now (tests.OfSid position n) result }
{
    legs.steps();
    let shape = legs.shape(n);
    if !shape.middle {
        return None;
    }
    let top = top_room(&shape);
    for room in 0..top + 1 {
        let state = State {
            position,
            via: Some(n),
            room,
        };
        if fails(legs, lines, state) {
            return Some(state);
        }
    }
    None
}

/// The first failing state of the SIDs at a position
fn first_of_position<L: Legs>(legs: &L, lines: &[PotentialLine], position: u32) -> Option<State>
    requires sorted { tests.AreSorted (L.seen legs.now) lines.now }
    requires within { position ≤ (L.seen legs.now).steps }
    ensures { tests.FirstFailure (L.seen legs.now) lines.now (tests.OfPosition position) result }
{
    legs.steps();
    for n in legs.sids_at(position) {
        if let Some(state) = first_of_sid(legs, lines, position, *n) {
            return Some(state);
        }
    }
    None
}

/// The first failing state: of those that are not listed the first that does not pass.
pub fn first_failing<L: Legs>(legs: &L, lines: &[PotentialLine]) -> Option<State>
    requires { tests.AreSorted (L.seen legs.now) lines.now }
    ensures { tests.FirstFailure (L.seen legs.now) lines.now tests.OfAll result }
{
    let start = State {
        position: 0,
        via: None,
        room: 0,
    };
    if fails(legs, lines, start) {
        return Some(start);
    }
    let steps = legs.steps();
    for position in 0..steps + 1 {
        if let Some(state) = first_of_position(legs, lines, position) {
            return Some(state);
        }
    }
    None
}
