//! Where the walk stands at each position, and the SIDs of each position.

ghost use Rattle.std.specs.Prelude.{◌≡◌, ◌+◌, ◌<◌, ◌≤◌, ◌++◌, ◌∷◌, [], length, take, drop, slice_get, Some, IfOk, IsSome};
ghost use Rattle.loose_spec.specs.LooseSids as sids;
ghost use Rattle.loose_spec.specs.LooseSteps.{node_after, node_at};
ghost use Rattle.loose_legs_theory.specs.LooseStepsTerms.{AreSteps};
ghost use Rattle.loose_spec.specs.LooseLegsValue.{comes_before, key_of, placed, sids_of};
ghost use Rattle.loose_legs.specs.LooseTable.{AreRows, AreStands};

use base::{NoMemory, Seq};
use intent_reader::Intent;
use intent_traces::TraceStep;
use leg_table::first_end;
use net_model::Net;
use std::alloc::Global;

/// The SIDs of a position, in order.
pub type Row = Seq<u32>;

/// A node is one where a packet may be before the next step, where the walk stands at a node
fn may_be(steps: &[TraceStep], position: u32, stands: u32, node: u32) -> bool
    ensures { result ≡ sids.may_be (slice_get steps.now position) (Some stands) node }
{
    match steps.get(position as usize) {
        Some(TraceStep::Reach(reached)) => node != *reached,
        None | Some(TraceStep::Links(_)) | Some(TraceStep::Function(_)) => stands == node,
    }
}

/// The step that ends at a position is the function
fn is_function_at(steps: &[TraceStep], position: u32, n: u32) -> bool
    requires { position ≤ length steps.now }
    ensures { result ≡ sids.is_function_of n (sids.step_before steps.now position) }
{
    if position == 0 {
        return false;
    }
    match &steps[position as usize - 1] {
        TraceStep::Links(_) | TraceStep::Reach(_) => false,
        TraceStep::Function(sid) => *sid == n,
    }
}

/// Whether a SID may be executed last at a position, where the walk stands at a node.
pub fn is_sid_at(net: &Net, steps: &[TraceStep], position: u32, stands: u32, n: u32) -> bool
    requires is_there { n < length net.now.sids }
    requires within { position ≤ length steps.now }
    ensures { result ≡ sids.sid_suits n (slice_get steps.now position) (Some stands)
        (sids.step_before steps.now position) (slice_get net.now.sids n) }
{
    let sid = net.sid(n);
    if !may_be(steps, position, stands, sid.node) {
        return false;
    }
    match sid.title {
        None => true,
        Some(_) => is_function_at(steps, position, n),
    }
}

/// What SIDs of a position are in the order of
#[derive(Clone, Copy, Debug)]
struct Key {
    value: u128,
    len: u8,
    node: u32,
}

/// That of a SID
fn key_of(net: &Net, n: u32) -> Key
    ensures { key_of net.now n ≡ result.value ∷ result.len ∷ result.node ∷ [] }
{
    if n >= net.sids() {
        return Key {
            value: 0,
            len: 0,
            node: 0,
        };
    }
    let sid = net.sid(n);
    Key {
        value: sid.prefix.value().value,
        len: sid.prefix.len(),
        node: sid.node,
    }
}

/// The first SID comes before the second
fn is_before(net: &Net, n: u32, m: u32) -> bool
    ensures { result ≡ comes_before net.now n m }
{
    let p = key_of(net, n);
    let q = key_of(net, m);
    p.value < q.value || p.value == q.value && (p.len < q.len || p.len == q.len && p.node < q.node)
}

/// The place of a SID among others in order
fn place_of(net: &Net, among: &[u32], n: u32) -> usize
    ensures within { result ≤ length among.now }
    ensures value { placed net.now n among.now
        ≡ take result among.now ++ n ∷ drop result among.now }
{
    for (i, m) in among.iter().enumerate() {
        if is_before(net, n, *m) {
            return i;
        }
    }
    among.len()
}

/// The SIDs of a position, where the walk stands at a node
fn row_of(
    alloc: Global,
    net: &Net,
    intent: &Intent,
    steps: &[TraceStep],
    position: u32,
    stands: u32,
) -> Result<Row, NoMemory>
    requires within { position ≤ length steps.now }
    requires stands { node_at net.now intent.now steps.now position ≡ Some stands }
    ensures { IfOk result (λ row. row ≡ sids_of net.now intent.now steps.now position) }
{
    let mut row = Vec::new(alloc);
    for n in 0..net.sids() {
        if is_sid_at(net, steps, position, stands, n) {
            let at = place_of(net, row.as_slice(), n);
            row.insert(at, n)?;
        }
    }
    Ok(Row::new(row))
}

/// The node where the walk stands after a step
fn node_behind(net: &Net, node: u32, step: &TraceStep) -> u32
    requires { IsSome (node_after net.now node step.now) }
    ensures { node_after net.now node step.now ≡ Some result }
{
    match step {
        TraceStep::Links(set) => match first_end(net, set.as_slice(), node) {
            Some(to) => to,
            None => node,
        },
        TraceStep::Function(_) => node,
        TraceStep::Reach(reached) => *reached,
    }
}

/// Where the walk stands at each position, from the start to the end.
pub fn stands_of(
    alloc: Global,
    net: &Net,
    intent: &Intent,
    steps: &[TraceStep],
) -> Result<Vec<u32>, NoMemory>
    requires { AreSteps net.now intent.now steps.now }
    ensures { IfOk result (λ stands.
        AreStands net.now intent.now steps.now (length steps.now + 1) stands.items) }
{
    let mut node = intent.headend;
    let mut stands = Vec::new(alloc);
    stands.push(node)?;
    for step in steps {
        node = node_behind(net, node, step);
        stands.push(node)?;
    }
    Ok(stands)
}

/// The SIDs of each position, from the start to the end.
pub fn rows_of(
    alloc: Global,
    net: &Net,
    intent: &Intent,
    steps: &[TraceStep],
    stands: &[u32],
) -> Result<Vec<Row>, NoMemory>
    requires few { length steps.now ≤ 48 }
    requires stands { AreStands net.now intent.now steps.now (length steps.now + 1) stands.now }
    ensures { IfOk result (λ rows.
        AreRows net.now intent.now steps.now (length steps.now + 1) rows.items) }
{
    let mut rows = Vec::new(alloc);
    for position in 0..steps.len() + 1 {
        let node = stands[position];
        rows.push(row_of(alloc, net, intent, steps, position as u32, node)?)?;
    }
    Ok(rows)
}
