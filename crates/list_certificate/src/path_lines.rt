//! Where the lines of a path lead, and what they cost.

ghost use Rattle.std.specs.Prelude.{◌≡◌, ◌+◌, ◌<◌, ◌≤◌, ◌^◌, length};
ghost use Rattle.list_pack.specs.Costs.{IsState};
ghost use Rattle.list_certificate.specs.Tests as tests;

use crate::certificate_types::PathLine;
use crate::firsts::shape_of;
use crate::good::is_barred;
use list_pack::{Cost, Legs, PathStep, Shape, State, move_cost, room_behind};
use v6_addr::Prefix;

/// Where an edge leads, and what it costs.
#[derive(Clone, Copy, Debug, PartialEq, Eq)]
pub struct Reached {
    /// The state at its end.
    pub state: State,
    /// The cost.
    pub cost: Cost,
}

/// What the lines of a path cost together, as whole numbers.
#[derive(Clone, Copy, Debug, PartialEq, Eq)]
pub struct Spent {
    /// How many containers.
    pub containers: u128,
    /// What the SIDs cost.
    pub sids: u128,
    /// How often the hop limit is lowered.
    pub hops: u128,
}

/// Two prefixes are one
fn is_same(a: &Prefix, b: &Prefix) -> bool
    ensures { tests.Tells (a.now ≡ b.now) result }
{
    if a.value().value != b.value().value {
        return false;
    }
    a.len() == b.len()
}

/// The edge of a step to a SID at a position
fn edge_by<L: Legs>(
    legs: &L,
    state: State,
    from: &Option<Shape>,
    step: &PathStep,
    to: u32,
    n: u32,
) -> Option<Reached>
    requires within { to ≤ (L.seen legs.now).steps }
    requires state { IsState (L.seen legs.now) state }
    requires from { tests.IsShapeOf (L.seen legs.now) state from.now }
    requires sid { tests.IsSidAt (L.seen legs.now) to n }
    ensures { tests.IsEdgeBy (L.seen legs.now) state step.now to n result }
{
    legs.steps();
    let next = legs.shape(n);
    if !is_same(&next.prefix, &step.prefix) {
        return None;
    }
    let leg = legs.leg(state.position, state.via, n)?;
    if leg.to != to {
        return None;
    }
    if is_barred(legs, state, step.stays, n) {
        return None;
    }
    let room = room_behind(step.stays, from, state.room, &next)?;
    Some(Reached {
        state: State {
            position: to,
            via: Some(n),
            room,
        },
        cost: move_cost(legs.sid_cost(), step.stays, leg.hops),
    })
}

/// The edge of a step to a position
fn edge_to<L: Legs>(
    legs: &L,
    state: State,
    from: &Option<Shape>,
    step: &PathStep,
    to: u32,
) -> Option<Reached>
    requires within { to ≤ (L.seen legs.now).steps }
    requires state { IsState (L.seen legs.now) state }
    requires from { tests.IsShapeOf (L.seen legs.now) state from.now }
    ensures { tests.IsEdgeTo (L.seen legs.now) state step.now to result }
{
    legs.steps();
    for n in legs.sids_at(to) {
        if let Some(reached) = edge_by(legs, state, from, step, to, *n) {
            return Some(reached);
        }
    }
    None
}

/// The edge of a step from a state
fn edge_of<L: Legs>(legs: &L, state: State, step: &PathStep) -> Option<Reached>
    requires { IsState (L.seen legs.now) state }
    ensures { tests.IsEdgeOf (L.seen legs.now) state step.now result }
{
    let steps = legs.steps();
    let from = shape_of(legs, state);
    for to in state.position..steps + 1 {
        if let Some(reached) = edge_to(legs, state, &from, step, to) {
            return Some(reached);
        }
    }
    None
}

/// What a step costs that finishes with a SID
fn last_by<L: Legs>(
    legs: &L,
    state: State,
    from: &Option<Shape>,
    step: &PathStep,
    n: u32,
) -> Option<Cost>
    requires state { IsState (L.seen legs.now) state }
    requires from { tests.IsShapeOf (L.seen legs.now) state from.now }
    requires sid { tests.IsSidAt (L.seen legs.now) (L.seen legs.now).steps n }
    ensures { tests.IsLastBy (L.seen legs.now) state step.now n result }
{
    legs.steps();
    let next = legs.shape(n);
    if !is_same(&next.prefix, &step.prefix) {
        return None;
    }
    let hops = legs.finish(state.position, state.via, n)?;
    if is_barred(legs, state, step.stays, n) {
        return None;
    }
    room_behind(step.stays, from, state.room, &next)?;
    Some(move_cost(legs.sid_cost(), step.stays, hops))
}

/// What a step costs that is the last
fn last_of<L: Legs>(legs: &L, state: State, step: &PathStep) -> Option<Cost>
    requires { IsState (L.seen legs.now) state }
    ensures { tests.IsLastOf (L.seen legs.now) state step.now result }
{
    let from = shape_of(legs, state);
    for n in legs.sids_at(legs.steps()) {
        if let Some(cost) = last_by(legs, state, &from, step, *n) {
            return Some(cost);
        }
    }
    None
}

/// A cost more
fn add(spent: Spent, cost: Cost) -> Spent
    requires containers { spent.containers + cost.containers < 2 ^ 128 }
    requires sids { spent.sids + cost.sids < 2 ^ 128 }
    requires hops { spent.hops + cost.hops < 2 ^ 128 }
    ensures { tests.Adds spent cost result }
{
    Spent {
        containers: spent.containers + u128::from(cost.containers),
        sids: spent.sids + u128::from(cost.sids),
        hops: spent.hops + u128::from(cost.hops),
    }
}

/// What the lines of a path from the start cost; or the number of the first line that goes along no
/// edge, or finishes where it is not the last, or does not where it is.
pub fn walked<L: Legs>(legs: &L, lines: &[PathLine]) -> Result<Spent, u32>
    requires { 0 < length lines.now }
    ensures { tests.IsWalked (L.seen legs.now) lines.now result }
{
    legs.steps();
    let mut state = State {
        position: 0,
        via: None,
        room: 0,
    };
    let mut spent = Spent {
        containers: 0,
        sids: 0,
        hops: 0,
    };
    let last = lines.len() - 1;
    for k in 0..last {
        match edge_of(legs, state, &lines[k].step) {
            None => return Err(lines[k].line),
            Some(reached) => {
                state = reached.state;
                spent = add(spent, reached.cost);
            }
        }
    }
    match last_of(legs, state, &lines[last].step) {
        None => Err(lines[last].line),
        Some(cost) => Ok(add(spent, cost)),
    }
}
