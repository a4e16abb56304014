//! The first fault of the parts of a network: each function gives exactly that of its definition.

ghost use Rattle.std.specs.Prelude.{◌≡◌, ◌-◌, ◌<◌, ◌^◌, List, [], length, if◌then◌else◌, Result, Ok, Err};
ghost use Rattle.std.specs.List.{list_any};
ghost use Rattle.text_faults.specs.declared.text_place.FaultPlace.{FaultPlace};
ghost use Rattle.text_faults.specs.declared.fault.TextFault.{TextFault};
ghost use Rattle.text_faults.specs.declared.text_place.TableKind.TheVariants as tables;
ghost use Rattle.text_faults.specs.TextReading.{Gives};
ghost use Rattle.net_model.specs.NetworkJudging.{judged, stands_before, judge_block, judge_node, is_unknown, is_unknown_end, ends_at, judge_link, is_set_of, judge_route_beside, judge_route, judge_policy};

use crate::parts::{Block, Link, NamedPolicy, Node, Route};
use crate::route_set::put_route;
use crate::rules::{
    LinkNames, NodeAddresses, NodeNames, Numbers, Overlaps, PolicyNames, Sameness, are_distinct,
    each_starts_at, is_block_len,
};
use std::alloc::Global;
use std::collections::BTreeSet;
use text_faults::{FaultKind, FaultPlace, NetFault, TableKind, TextFault};

/// The tests of the items of a table.
pub(crate) trait Judge<X> {
    /// The first fault of an item, beside the items before it and at a place.
    ghost rules: { Self → List X → FaultPlace → X → Result (Unit {0}) TextFault };

    /// Whether the item has a fault, and its first.
    fn judge(&self, before: &[X], place: FaultPlace, item: &X) -> Result<(), TextFault>
        ensures { result ≡ rules self.now before.now place item.now };
}

/// The first fault of the items of a table.
#[tactic(auto, using(crate::proofs::NetworkJudgingLemmas::judging_items))]
pub(crate) fn judge_all<X, J: Judge<X>>(
    rules: &J,
    table: TableKind,
    items: &[X],
) -> Result<(), TextFault>
    requires { length items.now < 2 ^ 32 - 1 }
    ensures { result ≡ judged table (J.rules rules.now) [] items.now }
{
    for (i, item) in items.iter().enumerate() {
        let place = FaultPlace::of_item(table, i);
        rules.judge(items.split_at(i).0, place, item)?;
    }
    Ok(())
}

/// A fault exactly where a test holds.
pub(crate) fn refuse_if(holds: bool, fault: TextFault) -> Result<(), TextFault>
    ensures { result ≡ (if holds then Err fault else Ok tt) }
{
    if holds { Err(fault) } else { Ok(()) }
}

/// Whether an item is the same as an earlier one.
pub(crate) fn stands_before<X, S: Sameness<X>>(before: &[X], item: &X) -> bool
    ensures { result ≡ stands_before S.same before.now item.now }
{
    before.iter().any(|earlier| S::are_same(earlier, item))
}

/// The tests of blocks.
pub(crate) struct BlockRules;

impl Judge<Block> for BlockRules {
    ghost rules = { λ _. judge_block };

    fn judge(&self, before: &[Block], place: FaultPlace, b: &Block) -> Result<(), TextFault> {
        refuse_if(
            !is_block_len(b.prefix.len()),
            place.fault(FaultKind::BadStructure),
        )?;
        refuse_if(
            stands_before::<Block, Overlaps>(before, b),
            place.fault(FaultKind::BadStructure),
        )
    }
}

/// The tests of nodes.
pub(crate) struct NodeRules;

impl Judge<Node> for NodeRules {
    ghost rules = { λ _. judge_node };

    fn judge(&self, before: &[Node], place: FaultPlace, n: &Node) -> Result<(), TextFault> {
        refuse_if(
            stands_before::<Node, NodeNames>(before, n),
            place.fault(FaultKind::DoubleName),
        )?;
        refuse_if(
            stands_before::<Node, NodeAddresses>(before, n),
            place.fault(FaultKind::DoublePrefix),
        )
    }
}

/// Whether a number is that of none of so many items.
pub(crate) fn is_unknown(count: usize, n: u32) -> bool
    ensures { result ≡ is_unknown count n }
{
    !((n as usize) < count)
}

/// Whether one of these numbers is that of none of so many items.
pub(crate) fn has_unknown(count: usize, numbers: &[u32]) -> bool
    ensures { result ≡ list_any (is_unknown count) numbers.now }
{
    numbers.iter().any(|n| is_unknown(count, *n))
}

fn is_unknown_end(node_count: usize, to: Option<u32>) -> bool
    ensures { result ≡ is_unknown_end node_count to }
{
    match to {
        None => false,
        Some(to) => is_unknown(node_count, to),
    }
}

fn ends_at(node: u32, to: Option<u32>) -> bool
    ensures { result ≡ ends_at node to }
{
    match to {
        None => false,
        Some(to) => to == node,
    }
}

/// The tests of links, whose ends are among so many nodes.
#[derive(Drop)]
pub(crate) struct LinkRules {
    pub(crate) node_count: usize,
}

impl Judge<Link> for LinkRules {
    ghost rules = { λ s. judge_link s.node_count };

    fn judge(&self, before: &[Link], place: FaultPlace, l: &Link) -> Result<(), TextFault> {
        refuse_if(
            stands_before::<Link, LinkNames>(before, l),
            place.fault(FaultKind::DoubleName),
        )?;
        refuse_if(
            is_unknown(self.node_count, l.from),
            place.fault(FaultKind::UnknownName),
        )?;
        refuse_if(
            is_unknown_end(self.node_count, l.to),
            place.fault(FaultKind::UnknownName),
        )?;
        refuse_if(ends_at(l.from, l.to), place.fault(FaultKind::BadStructure))
    }
}

/// Whether a set has some links of the node, each once.
pub(crate) fn is_set_of(links: &[Link], node: u32, set: &[u32]) -> bool
    ensures { result ≡ is_set_of links.now node set.now }
{
    1 <= set.len() && are_distinct::<u32, Numbers>(set) && each_starts_at(links, node, set)
}

/// The tests of routes, over these links and among so many nodes.
#[derive(Drop)]
pub(crate) struct RouteRules<'a> {
    pub(crate) node_count: usize,
    pub(crate) links: &'a [Link],
}

impl<'a> RouteRules<'a> {
    /// The first fault of a route, of which it is known whether an earlier one is the same.
    fn judge(&self, is_double: bool, place: FaultPlace, r: &Route) -> Result<(), TextFault>
        ensures { result ≡ judge_route_beside self.now.node_count self.now.links.now is_double
            place r.now }
    {
        let via = r.via.as_slice();
        refuse_if(
            is_unknown(self.node_count, r.node),
            place.fault(FaultKind::UnknownName),
        )?;
        refuse_if(
            has_unknown(self.links.len(), via),
            place.fault(FaultKind::UnknownName),
        )?;
        refuse_if(
            !is_set_of(self.links, r.node, via),
            place.fault(FaultKind::BadStructure),
        )?;
        refuse_if(is_double, place.fault(FaultKind::DoublePrefix))
    }

    /// The first fault of the routes. Those that came before stand in a set, since there may be
    /// tens of thousands.
    #[tactic(auto, using(crate::proofs::NetworkJudgingLemmas::judging_items, crate::proofs::RouteSetLemmas::no_keys))]
    pub(crate) fn judge_all(&self, alloc: Global, routes: &[Route]) -> Result<(), NetFault>
        requires { length routes.now < 2 ^ 32 - 1 }
        ensures { Gives (λ _. tt) result (judged tables.Route
            (judge_route self.now.node_count self.now.links.now) [] routes.now) }
    {
        let mut keys = BTreeSet::new(alloc);
        for (i, r) in routes.iter().enumerate() {
            let place = FaultPlace::of_item(TableKind::Route, i);
            let is_double = put_route(&mut keys, r)?;
            self.judge(is_double, place, r)?;
        }
        Ok(())
    }
}

/// The tests of policies.
pub(crate) struct PolicyRules;

impl Judge<NamedPolicy> for PolicyRules {
    ghost rules = { λ _. judge_policy };

    fn judge(
        &self,
        before: &[NamedPolicy],
        place: FaultPlace,
        p: &NamedPolicy,
    ) -> Result<(), TextFault> {
        refuse_if(
            stands_before::<NamedPolicy, PolicyNames>(before, p),
            place.fault(FaultKind::DoubleName),
        )?;
        refuse_if(
            p.policy.segments.as_slice().len() == 0,
            place.fault(FaultKind::BadStructure),
        )
    }
}
