//! The ways from the nodes of an intent to all SIDs, each from those of the node after it.

ghost use Rattle.std.specs.Prelude.{◌≡◌, ◌≤◌, ◌<◌, ℕ, length, IsTrue, is_some, Some, IfSome, IfOk};
ghost use Rattle.srv6_rules.specs.declared.family.Family.TheVariants.{V6};
ghost use Rattle.walk_rules.specs.WayTerms.{way_in};
ghost use Rattle.walk_rules.specs.Relation.{IsPlace};
ghost use Rattle.intent_reader.specs.IntentRules as rules;
ghost use Rattle.leg_table.specs.TransitTables.{way_along, stand, AreWays, IsReach, AreReaches, AreLater, way_at, way_over, way_by};

use crate::step_links::{Behind, all_in_step, left_after};
use crate::strict_rows::node_behind;
use base::NoMemory;
use intent_reader::Step;
use net_model::{Net, NodeTable};
use srv6_rules::Family;
use std::alloc::Global;
use walk_rules::{Place, Way, way_in_table, way_of};

/// The ways from a node to all SIDs and their executions, by the SIDs' numbers; none where a packet
/// does not come to the SID first, or leaves the steps before.
#[derive(Debug, Drop)]
pub struct TransitTable {
    /// Of packets that have arrived at the node.
    pub arrived: Vec<Option<Behind>>,
    /// Of packets that the node has made or updated.
    pub submitted: Vec<Option<Behind>>,
}

/// The way over links, which have to lie in the first step, on from where that step ends
fn way_over(steps: &[Step], links: &[u32], lower: bool, later: Option<Behind>) -> Option<Behind>
    requires { IfSome later (λ b. b.lowered ≤ 48) }
    ensures { result ≡ way_over steps.now links.now lower later }
{
    let (step, _) = steps.split_first()?;
    if !all_in_step(step, links) {
        return None;
    }
    let behind = later?;
    Some(Behind {
        left: behind.left,
        lowered: u32::from(lower) + behind.lowered,
    })
}

/// The way to a next SID by the way that a place gives, where the way to it from the end of the
/// first step is known
fn way_by(
    net: &Net,
    next: u32,
    steps: &[Step],
    later: Option<Behind>,
    way: Way<'_>,
) -> Option<Behind>
    requires is_there { next < length net.now.sids }
    requires few { length steps.now ≤ 48 }
    requires few_lowered { IfSome later (λ b. b.lowered ≤ 48) }
    ensures { result ≡ way_by net.now next steps.now later (way_in way.entry) }
{
    match way {
        Way::NoWay { .. } | Way::Own => None,
        Way::Into { sid } => {
            if sid != next {
                return None;
            }
            let left = left_after(net, next, steps)?;
            Some(Behind { left, lowered: 0 })
        }
        Way::Over { links, lower } => way_over(steps, links, lower, later),
    }
}

/// A way of a row, if it is there.
pub fn way_at(ways: &[Option<Behind>], n: u32) -> Option<Behind>
    ensures { result ≡ way_at ways.now n }
{
    match ways.get(n as usize) {
        Some(way) => *way,
        None => None,
    }
}

/// The way along steps from a place to a next SID and its execution, where the ways from the end of
/// the first step are known.
pub fn way_from(
    net: &Net,
    steps: &[Step],
    later: &[Option<Behind>],
    place: &Place,
    next: u32,
) -> Option<Behind>
    requires is_there { next < length net.now.sids }
    requires few { length steps.now ≤ 48 }
    requires is_place { IsPlace net.now place.now }
    requires family { place.now.family ≡ V6 }
    requires stands { IsTrue (is_some (rules.stand_after net.now place.now.node steps.now)) }
    requires later { AreLater net.now place.now.node steps.now later.now }
    requires few_lowered { (n : ℕ) → IfSome (way_at later.now n) (λ b. b.lowered ≤ 48) }
    ensures { result ≡ way_along net.now steps.now place.now next }
{
    net.keeps_rules();
    let destination = net.sid(next).prefix.value();
    let way = way_of(net, place, destination);
    way_by(net, next, steps, way_at(later, next), way)
}

/// The ways of packets that are looked up in a node's table
fn ways_of(
    alloc: Global,
    net: &Net,
    node: u32,
    table: &NodeTable<'_>,
    lower: bool,
    steps: &[Step],
    later: &[Option<Behind>],
) -> Result<Vec<Option<Behind>>, NoMemory>
    requires is_table { table.now ≡ record { net = net.now; node = node; table = 0; family = V6 } }
    requires few { length steps.now ≤ 48 }
    requires stands { IsTrue (is_some (rules.stand_after net.now node steps.now)) }
    requires later { AreLater net.now node steps.now later.now }
    requires few_lowered { (n : ℕ) → IfSome (way_at later.now n) (λ b. b.lowered ≤ 48) }
    ensures { IfOk result (λ ways. AreWays net.now steps.now (stand node lower) ways.items) }
{
    net.keeps_rules();
    let mut ways = Vec::new(alloc);
    for n in 0..net.sids() {
        let destination = net.sid(n).prefix.value();
        let way = way_in_table(table, lower, destination);
        let behind = way_by(net, n, steps, way_at(later, n), way);
        ways.push(behind)?;
    }
    Ok(ways)
}

/// The ways from a node, from those where the first step ends
fn reach_of(
    alloc: Global,
    net: &Net,
    node: u32,
    steps: &[Step],
    later: &[Option<Behind>],
) -> Result<TransitTable, NoMemory>
    requires is_there { node < length net.now.nodes }
    requires few { length steps.now ≤ 48 }
    requires stands { IsTrue (is_some (rules.stand_after net.now node steps.now)) }
    requires later { AreLater net.now node steps.now later.now }
    requires few_lowered { (n : ℕ) → IfSome (way_at later.now n) (λ b. b.lowered ≤ 48) }
    ensures { IfOk result (λ reach. IsReach net.now steps.now node reach) }
{
    let table = net.table(node, 0, Family::V6);
    let arrived = ways_of(alloc, net, node, &table, true, steps, later)?;
    let submitted = ways_of(alloc, net, node, &table, false, steps, later)?;
    Ok(TransitTable { arrived, submitted })
}

/// The ways from each node where the walk along steps stands, from the last one backwards.
pub fn reaches_of(
    alloc: Global,
    net: &Net,
    node: u32,
    steps: &[Step],
) -> Result<Vec<TransitTable>, NoMemory>
    requires is_there { node < length net.now.nodes }
    requires few { length steps.now ≤ 48 }
    requires stands { IsTrue (is_some (rules.stand_after net.now node steps.now)) }
    ensures { IfOk result (λ reaches. AreReaches net.now node steps.now reaches.items) }
{
    net.keeps_rules();
    let Some((step, rest)) = steps.split_first() else {
        let mut reaches = Vec::new(alloc);
        reaches.push(reach_of(alloc, net, node, steps, &[])?)?;
        return Ok(reaches);
    };
    let to = node_behind(net, node, step);
    let mut reaches = reaches_of(alloc, net, to, rest)?;
    let later = reaches[reaches.len() - 1].arrived.as_slice();
    let reach = reach_of(alloc, net, node, steps, later)?;
    reaches.push(reach)?;
    Ok(reaches)
}
