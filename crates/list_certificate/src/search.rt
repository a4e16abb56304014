//! The potential of a state, by halves.

ghost use Rattle.std.specs.Prelude.{◌≡◌, ◌≤◌, ◌∷◌, [], length};
ghost use Rattle.list_pack.specs.ListOrder.{lex_before};
ghost use Rattle.list_pack.specs.Costs.{IsState};
ghost use Rattle.list_certificate.specs.Certs.{same_via, same_state, potential_at};
ghost use Rattle.list_certificate.specs.Tests.{AreSorted, place_key, key_of, Splits};

use crate::certificate_types::PotentialLine;
use list_pack::{Cost, Legs, Shape, State};

/// What the order of states goes by first: the position and the prefix of the SID.
#[derive(Clone, Copy, Debug)]
pub struct StateKey {
    /// How many steps of the intent are done.
    pub position: u32,
    /// The address that the prefix begins with.
    pub value: u128,
    /// The prefix's length in bits.
    pub len: u8,
}

/// The place of the states of a SID at a position.
pub fn place_at(position: u32, shape: &Shape) -> Option<StateKey>
    ensures { key_of result ≡ position ∷ shape.now.prefix.value ∷ shape.now.prefix.len ∷ [] }
{
    Some(StateKey {
        position,
        value: shape.prefix.value().value,
        len: shape.prefix.len(),
    })
}

/// The place of a state; none at the start
fn place_of<L: Legs>(legs: &L, state: State) -> Option<StateKey>
    requires { IsState (L.seen legs.now) state }
    ensures { key_of result ≡ place_key (L.seen legs.now) state }
{
    match state.via {
        None => None,
        Some(n) => {
            let shape = legs.shape(n);
            place_at(state.position, &shape)
        }
    }
}

/// A place comes before another; that of the start comes before all others
fn is_before(a: Option<StateKey>, b: Option<StateKey>) -> bool
    ensures { result ≡ lex_before (key_of a) (key_of b) }
{
    match (a, b) {
        (_, None) => false,
        (None, Some(_)) => true,
        (Some(x), Some(y)) => {
            if x.position != y.position {
                return x.position < y.position;
            }
            if x.value != y.value {
                return x.value < y.value;
            }
            x.len < y.len
        }
    }
}

/// How many lines stand before a place.
pub fn first_at<L: Legs>(legs: &L, lines: &[PotentialLine], place: Option<StateKey>) -> usize
    requires { AreSorted (L.seen legs.now) lines.now }
    ensures splits { Splits (L.seen legs.now) lines.now (key_of place) result result }
    ensures within { result ≤ length lines.now }
{
    let mut low = 0;
    let mut high = lines.len();
    while low < high {
        let middle = low + (high - low) / 2;
        if is_before(place_of(legs, lines[middle].potential.state), place) {
            low = middle + 1;
        } else {
            high = middle;
        }
    }
    low
}

/// Two SIDs are one, or none is there
fn is_same_via(a: Option<u32>, b: Option<u32>) -> bool
    ensures { result ≡ same_via a b }
{
    match (a, b) {
        (None, None) => true,
        (Some(x), Some(y)) => x == y,
        (None, Some(_)) | (Some(_), None) => false,
    }
}

/// Two states are one
fn is_same(a: State, b: State) -> bool
    ensures { result ≡ same_state a b }
{
    a.position == b.position && (is_same_via(a.via, b.via) && a.room == b.room)
}

/// The potential of a state by the lines from the first of its place on.
pub fn potential_from<L: Legs>(
    legs: &L,
    lines: &[PotentialLine],
    first: usize,
    place: Option<StateKey>,
    state: State,
) -> Option<Cost>
    requires sorted { AreSorted (L.seen legs.now) lines.now }
    requires splits { Splits (L.seen legs.now) lines.now (key_of place) first first }
    requires within { first ≤ length lines.now }
    requires place { key_of place ≡ place_key (L.seen legs.now) state }
    ensures { result ≡ potential_at lines.now state }
{
    let (_, rest) = lines.split_at(first);
    for line in rest {
        let other = line.potential.state;
        if is_same(other, state) {
            return Some(line.potential.cost);
        }
        // a state of the same SID stands at the same place, which needn't be asked for
        if !is_same_via(other.via, state.via) {
            if is_before(place, place_of(legs, other)) {
                return None;
            }
        }
    }
    None
}

/// The potential of a state by the line that lists it; none where it is not listed.
pub fn potential_at<L: Legs>(legs: &L, lines: &[PotentialLine], state: State) -> Option<Cost>
    requires sorted { AreSorted (L.seen legs.now) lines.now }
    requires state { IsState (L.seen legs.now) state }
    ensures { result ≡ potential_at lines.now state }
{
    let place = place_of(legs, state);
    let first = first_at(legs, lines, place);
    potential_from(legs, lines, first, place, state)
}
