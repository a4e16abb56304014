//! Whether a state passes: along each of its edges the potential falls by at most the cost.

ghost use Rattle.std.specs.Prelude.{◌≡◌, ◌≤◌, ◌&&◌, Some};
ghost use Rattle.list_pack.specs.LegsValueTerms.{IsSid};
ghost use Rattle.list_pack.specs.Costs.{IsState, Under, plus, bars};
ghost use Rattle.list_pack.specs.Least.{IsGoodAt};
ghost use Rattle.list_certificate.specs.Certs.{potential_at};
ghost use Rattle.list_certificate.specs.Tests as tests;

use crate::certificate_types::PotentialLine;
use crate::potential_cells::{Cell, cell_of, potential_in};
use list_pack::{Cost, Leg, Legs, Shape, State, is_below, move_cost, room_behind};

/// A state with its SID's shape and its potential.
#[derive(Debug, Drop)]
pub struct CostedState {
    /// The state.
    pub state: State,
    /// The shape of its SID; none at the start.
    pub from: Option<Shape>,
    /// Its potential; none where it is not listed.
    pub potential: Option<Cost>,
}

/// A potential is there and at most the sum of two costs, as whole numbers
fn is_under_sum(potential: Option<Cost>, edge: Cost, rest: Cost) -> bool
    ensures { tests.Tells (Under potential (Some (plus edge rest))) result }
{
    let Some(cost) = potential else {
        return false;
    };
    let containers = u64::from(edge.containers) + u64::from(rest.containers);
    if u64::from(cost.containers) != containers {
        return u64::from(cost.containers) < containers;
    }
    let sids = u64::from(edge.sids) + u64::from(rest.sids);
    if u64::from(cost.sids) != sids {
        return u64::from(cost.sids) < sids;
    }
    u64::from(cost.hops) <= u64::from(edge.hops) + u64::from(rest.hops)
}

/// A potential is there and at most a cost
fn is_under(potential: Option<Cost>, cost: Cost) -> bool
    ensures { tests.Tells (Under potential (Some cost)) result }
{
    match potential {
        None => false,
        Some(own) => !is_below(cost, own),
    }
}

/// A SID may not stand directly after a state's, in its container
fn bars<L: Legs>(legs: &L, state: State, n: u32) -> bool
    requires state { IsState (L.seen legs.now) state }
    requires sid { IsSid (L.seen legs.now) n }
    ensures { result ≡ bars (L.seen legs.now) state.via n }
{
    match state.via {
        None => false,
        Some(via) => !legs.stays(via, n),
    }
}

/// A move to a SID is barred: it stays after a state's SID, and may not
pub(crate) fn is_barred<L: Legs>(legs: &L, state: State, stays: bool, n: u32) -> bool
    requires state { IsState (L.seen legs.now) state }
    requires sid { IsSid (L.seen legs.now) n }
    ensures { result ≡ (stays && bars (L.seen legs.now) state.via n) }
{
    stays && bars(legs, state, n)
}

/// A move by a leg passes, which stays in the container or doesn't; it is known whether its SID is
/// barred from the container.
pub fn passes_move<L: Legs>(
    legs: &L,
    lines: &[PotentialLine],
    costed_state: &CostedState,
    next: &Cell,
    leg: Leg,
    stays: bool,
    barred: bool,
) -> bool
    requires sorted { tests.AreSorted (L.seen legs.now) lines.now }
    requires costed_state { tests.IsCostedState (L.seen legs.now) lines.now costed_state.now }
    requires next { tests.IsCell (L.seen legs.now) lines.now next.now }
    requires leg { (L.seen legs.now).leg costed_state.now.state.position costed_state.now.state.via next.now.sid
        ≡ Some leg }
    requires end { leg.to ≡ next.now.position }
    requires barred { barred ≡ bars (L.seen legs.now) costed_state.now.state.via next.now.sid }
    ensures { tests.Tells (tests.PassesMove (L.seen legs.now) lines.now costed_state.now.state
        (tests.move_of next.now.sid stays)) result }
{
    legs.steps();
    if stays && barred {
        return true;
    }
    let Some(room) = room_behind(
        stays,
        &costed_state.from,
        costed_state.state.room,
        &next.shape,
    ) else {
        return true;
    };
    match potential_in(legs, lines, next, room) {
        None => true,
        Some(rest) => {
            let edge = move_cost(legs.sid_cost(), stays, leg.hops);
            is_under_sum(costed_state.potential, edge, rest)
        }
    }
}

/// A move to the end passes, which stays in the container or doesn't; it is known whether its SID
/// is barred from the container.
pub fn passes_last<L: Legs>(
    legs: &L,
    lines: &[PotentialLine],
    costed_state: &CostedState,
    n: u32,
    hops: u32,
    stays: bool,
    barred: bool,
) -> bool
    requires costed_state { tests.IsCostedState (L.seen legs.now) lines.now costed_state.now }
    requires finish { (L.seen legs.now).finish costed_state.now.state.position costed_state.now.state.via n
        ≡ Some hops }
    requires barred { barred ≡ bars (L.seen legs.now) costed_state.now.state.via n }
    ensures { tests.Tells (tests.PassesLast (L.seen legs.now) lines.now costed_state.now.state
        (tests.move_of n stays)) result }
{
    legs.steps();
    if stays && barred {
        return true;
    }
    let next = legs.shape(n);
    if room_behind(stays, &costed_state.from, costed_state.state.room, &next).is_none() {
        return true;
    }
    is_under(
        costed_state.potential,
        move_cost(legs.sid_cost(), stays, hops),
    )
}

/// All moves by legs to a position pass
fn passes_legs_to<L: Legs>(
    legs: &L,
    lines: &[PotentialLine],
    costed_state: &CostedState,
    to: u32,
) -> bool
    requires sorted { tests.AreSorted (L.seen legs.now) lines.now }
    requires costed_state { tests.IsCostedState (L.seen legs.now) lines.now costed_state.now }
    requires within { to ≤ (L.seen legs.now).steps }
    ensures { tests.ShowsLegsTo (L.seen legs.now) lines.now costed_state.now.state to result }
{
    legs.steps();
    for n in legs.sids_at(to) {
        if let Some(leg) = legs.leg(costed_state.state.position, costed_state.state.via, *n) {
            if leg.to == to {
                let next = cell_of(legs, lines, to, *n);
                let barred = bars(legs, costed_state.state, *n);
                if !passes_move(legs, lines, costed_state, &next, leg, true, barred) {
                    return false;
                }
                if !passes_move(legs, lines, costed_state, &next, leg, false, barred) {
                    return false;
                }
            }
        }
    }
    true
}

/// All moves by legs pass
fn passes_legs<L: Legs>(legs: &L, lines: &[PotentialLine], costed_state: &CostedState) -> bool
    requires sorted { tests.AreSorted (L.seen legs.now) lines.now }
    requires costed_state { tests.IsCostedState (L.seen legs.now) lines.now costed_state.now }
    ensures { tests.ShowsLegs (L.seen legs.now) lines.now costed_state.now.state result }
{
    let steps = legs.steps();
    for to in costed_state.state.position..steps + 1 {
        if !passes_legs_to(legs, lines, costed_state, to) {
            return false;
        }
    }
    true
}

/// All moves to the end pass
fn passes_ends<L: Legs>(legs: &L, lines: &[PotentialLine], costed_state: &CostedState) -> bool
    requires costed_state { tests.IsCostedState (L.seen legs.now) lines.now costed_state.now }
    ensures { tests.ShowsEnds (L.seen legs.now) lines.now costed_state.now.state result }
{
    for n in legs.sids_at(legs.steps()) {
        if let Some(hops) = legs.finish(costed_state.state.position, costed_state.state.via, *n) {
            let barred = bars(legs, costed_state.state, *n);
            if !passes_last(legs, lines, costed_state, *n, hops, true, barred) {
                return false;
            }
            if !passes_last(legs, lines, costed_state, *n, hops, false, barred) {
                return false;
            }
        }
    }
    true
}

/// Whether a state passes: along each edge to a listed state, and along each to the end, its
/// potential is there and falls by at most the cost.
pub fn passes<L: Legs>(legs: &L, lines: &[PotentialLine], costed_state: &CostedState) -> bool
    requires sorted { tests.AreSorted (L.seen legs.now) lines.now }
    requires costed_state { tests.IsCostedState (L.seen legs.now) lines.now costed_state.now }
    ensures { tests.Tells (IsGoodAt (L.seen legs.now) (potential_at lines.now) costed_state.now.state)
        result }
{
    legs.steps();
    if !passes_legs(legs, lines, costed_state) {
        return false;
    }
    passes_ends(legs, lines, costed_state)
}
