//! The states whose costs may still fall, by cost, and those that are settled.

ghost use Rattle.std.specs.Prelude.{◌≡◌, ◌<◌, ◌≤◌, [], true, false, length, replicate, slice_set, Some, MatchBool, MatchOption, OnOk, IfOk};
ghost use Rattle.std.specs.BTreeSet as set;
ghost use Rattle.list_pack.specs.declared.types.Cost.{Cost};
ghost use Rattle.list_pack.specs.Costs.{Under, AtMost};
ghost use Rattle.list_pack.specs.CostsTerms.{nothing};
ghost use Rattle.list_encoder.specs.CellTable.{Improves};
ghost use Rattle.list_encoder.specs.Waiting.{waiting_cmp, waiting_at, cost_of, Waits, IsFront, AreBefore, IsLoweredAt, TakesFirst};
ghost use Rattle.list_encoder.specs.declared.waiting.Waiting.{Waiting};

use base::NoMemory;
use list_pack::{Cost, is_below};
use std::alloc::Global;
use std::collections::BTreeSet;

/// A state that waits with its cost, and the place of its entry. The order is by containers, then
/// by SIDs, then by hops, then by place.
#[derive(Clone, Copy, Debug, PartialEq, Eq, PartialOrd, Ord)]
pub struct Waiting {
    /// The containers of its cost.
    pub containers: u32,
    /// What the SIDs of its cost come to.
    pub sids: u32,
    /// The hops of its cost.
    pub hops: u32,
    /// The place of its entry in the table.
    pub place: usize,
}

/// The states that have a cost and are not settled, and for each state of a table's first cells
/// whether it is.
#[derive(Debug, Drop)]
pub struct Queue {
    /// The states that wait, each once.
    pub waiting: BTreeSet<Waiting>,
    /// Whether a state's cost is known to be the least.
    pub done: Vec<bool>,
}

/// A state that waits with a cost
fn waiting_at(cost: Cost, place: usize) -> Waiting
    ensures { result ≡ waiting_at cost place }
{
    Waiting {
        containers: cost.containers,
        sids: cost.sids,
        hops: cost.hops,
        place,
    }
}

/// The cost of a state that waits.
pub fn cost_of(next: Waiting) -> Cost
    ensures { result ≡ cost_of next }
{
    Cost {
        containers: next.containers,
        sids: next.sids,
        hops: next.hops,
    }
}

/// A cost is below what an entry has
fn is_lower(was: Option<Cost>, cost: Cost) -> bool
    ensures { MatchBool result (Improves was cost) (Under was (Some cost)) }
{
    match was {
        None => true,
        Some(old) => is_below(cost, old),
    }
}

/// A state that waits with a cost no longer waits with it
fn take_out(waiting: &mut BTreeSet<Waiting>, was: Option<Cost>, place: usize)
    ensures { MatchOption was (waiting.new ≡ waiting.old)
        (λ old. set.Updates waiting_cmp waiting.old waiting.new (waiting_at old place) false) }
{
    if let Some(old) = was {
        waiting.remove(&waiting_at(old, place));
    }
}

/// The state of a place is settled
fn mark(done: &mut Vec<bool>, place: usize)
    requires { place < length done.old.items }
    ensures { done.new.items ≡ slice_set done.old.items place true }
{
    done[place] = true;
}

/// Of the states that wait the one with the least cost is settled; none where none waits.
pub fn settle_first(queue: &mut Queue) -> Option<Waiting>
    requires { (k : Waiting) → Waits queue.old.waiting k
        → k.place < length queue.old.done.items }
    ensures { MatchOption result (queue.old.waiting.keys ≡ [])
        (TakesFirst queue.old.waiting queue.new.waiting queue.old.done.items
        queue.new.done.items) }
{
    match queue.waiting.pop_first() {
        None => None,
        Some(next) => {
            mark(&mut queue.done, next.place);
            Some(next)
        }
    }
}

/// An entry that is not settled is lowered to a cost where that is below it, and then waits with
/// it.
pub fn lower_open(
    table: &mut [Option<Cost>],
    queue: &mut Queue,
    place: usize,
    cost: Cost,
) -> Result<bool, NoMemory>
    requires within { place < length table.old }
    requires early { place < length queue.old.done.items }
    ensures done { queue.new.done.items ≡ queue.old.done.items }
    ensures lowered { (top : Cost) → IsFront table.old queue.old.waiting queue.old.done.items top
        → AtMost top cost → IfOk result (λ changed. IsLoweredAt table.old table.new
        queue.new.waiting queue.new.done.items top place cost changed) }
{
    let was = table[place];
    if queue.done[place] {
        return Ok(false);
    }
    if !is_lower(was, cost) {
        return Ok(false);
    }
    take_out(&mut queue.waiting, was, place);
    queue.waiting.insert(waiting_at(cost, place))?;
    table[place] = Some(cost);
    Ok(true)
}

/// A state waits with the cost that it has
fn put_in(waiting: &mut BTreeSet<Waiting>, has: Option<Cost>, place: usize) -> Result<(), NoMemory>
    ensures { OnOk result (MatchOption has (waiting.new ≡ waiting.old)
        (λ cost. set.Updates waiting_cmp waiting.old waiting.new (waiting_at cost place) true)) }
{
    let Some(cost) = has else {
        return Ok(());
    };
    waiting.insert(waiting_at(cost, place))?;
    Ok(())
}

/// The states of a table's first places that have a cost
fn waiting_of(
    alloc: Global,
    table: &[Option<Cost>],
    count: usize,
) -> Result<BTreeSet<Waiting>, NoMemory>
    requires { count ≤ length table.now }
    ensures { IfOk result (λ waiting. AreBefore table.now count waiting) }
{
    let mut waiting = BTreeSet::new(alloc);
    for place in 0..count {
        put_in(&mut waiting, table[place], place)?;
    }
    Ok(waiting)
}

/// So many states that are not settled
fn none_done(alloc: Global, count: usize) -> Result<Vec<bool>, NoMemory>
    ensures { IfOk result (λ done. done.items ≡ replicate count false) }
{
    let done = vec![in alloc; false; count]?;
    Ok(done)
}

/// The queue of a table's first places, of which none is settled.
pub fn queue_of(alloc: Global, table: &[Option<Cost>], count: usize) -> Result<Queue, NoMemory>
    requires { count ≤ length table.now }
    ensures front { IfOk result
        (λ queue. IsFront table.now queue.waiting queue.done.items nothing) }
    ensures none { IfOk result (λ queue. queue.done.items ≡ replicate count false) }
{
    let waiting = waiting_of(alloc, table, count)?;
    let done = none_done(alloc, count)?;
    Ok(Queue { waiting, done })
}
