//! The SIDs of each position of an intent.

ghost use Rattle.std.specs.Prelude.{◌≡◌, ◌+◌, ◌<◌, ◌≤◌, ◌++◌, ◌∷◌, length, take, drop, slice_get, Some, None, IfOk, IsTrue, is_some};
ghost use Rattle.intent_reader.specs.IntentRules as rules;
ghost use Rattle.intent_reader.specs.IntentRulesTerms as rules_terms;
ghost use Rattle.leg_table.specs.PositionSids as sids;
ghost use Rattle.leg_table.specs.StrictTableTerms.{AreRows};

use crate::step_links::first_end;
use base::{NoMemory, Seq};
use intent_reader::{Intent, Step};
use net_model::Net;
use std::alloc::Global;

/// The SIDs of a position, in order.
pub type Row = Seq<u32>;

/// The step that ends at a position is the function
fn is_function_at(steps: &[Step], position: u32, n: u32) -> bool
    requires { position ≤ length steps.now }
    ensures { result ≡ sids.is_function_of n (sids.step_before steps.now position) }
{
    if position == 0 {
        return false;
    }
    match &steps[position as usize - 1] {
        Step::Links(_) | Step::Reach(_) => false,
        Step::Function(sid) => *sid == n,
    }
}

/// A SID may be executed at a position, where the walk stands at a node.
pub fn is_sid_at(net: &Net, intent: &Intent, position: u32, node: u32, n: u32) -> bool
    requires is_there { n < length net.now.sids }
    requires within { position ≤ length intent.now.steps }
    requires stands { sids.node_at net.now intent.now position ≡ Some node }
    ensures { result ≡ sids.is_sid_at net.now intent.now position n }
{
    let sid = net.sid(n);
    if sid.node != node {
        return false;
    }
    match sid.title {
        None => true,
        Some(_) => is_function_at(intent.steps.as_slice(), position, n),
    }
}

/// The prefix of the first SID comes before that of the second
fn is_before(net: &Net, n: u32, m: u32) -> bool
    ensures { result ≡ sids.sid_before (slice_get net.now.sids n) (slice_get net.now.sids m) }
{
    if n >= net.sids() || m >= net.sids() {
        return false;
    }
    let p = &net.sid(n).prefix;
    let q = &net.sid(m).prefix;
    p.value().value < q.value().value || p.value().value == q.value().value && p.len() < q.len()
}

/// The place of a SID among others in order
fn place_of(net: &Net, among: &[u32], n: u32) -> usize
    ensures within { result ≤ length among.now }
    ensures value { sids.placed net.now n among.now
        ≡ take result among.now ++ n ∷ drop result among.now }
{
    for (i, m) in among.iter().enumerate() {
        if is_before(net, n, *m) {
            return i;
        }
    }
    among.len()
}

/// The SIDs of a position, where the walk stands at a node
fn row_of(
    alloc: Global,
    net: &Net,
    intent: &Intent,
    position: u32,
    node: u32,
) -> Result<Row, NoMemory>
    requires within { position ≤ length intent.now.steps }
    requires stands { sids.node_at net.now intent.now position ≡ Some node }
    ensures { IfOk result (λ row. row ≡ sids.sids_of net.now intent.now position) }
{
    let mut row = Vec::new(alloc);
    for n in 0..net.sids() {
        if is_sid_at(net, intent, position, node, n) {
            let at = place_of(net, row.as_slice(), n);
            row.insert(at, n)?;
        }
    }
    Ok(Row::new(row))
}

/// The node where the walk stands after a step.
pub fn node_behind(net: &Net, node: u32, step: &Step) -> u32
    requires { IsTrue (is_some (rules.node_after net.now node step.now)) }
    ensures { rules.node_after net.now node step.now ≡ Some result }
{
    match step {
        Step::Links(set) => match first_end(net, set.as_slice(), node) {
            Some(to) => to,
            None => node,
        },
        Step::Function(_) => node,
        Step::Reach(reached) => *reached,
    }
}

/// The SIDs of each position, from the start to the end.
pub fn rows_of(alloc: Global, net: &Net, intent: &Intent) -> Result<Vec<Row>, NoMemory>
    requires { rules_terms.IsIntent net.now intent.now }
    ensures { IfOk result (λ rows.
        AreRows net.now intent.now (length intent.now.steps) rows.items) }
{
    let steps = intent.steps.as_slice();
    let mut node = intent.headend;
    let mut rows = Vec::new(alloc);
    rows.push(row_of(alloc, net, intent, 0, node)?)?;
    for (i, step) in steps.iter().enumerate() {
        node = node_behind(net, node, step);
        rows.push(row_of(alloc, net, intent, i as u32 + 1, node)?)?;
    }
    Ok(rows)
}
