//! The legs and finishes from each position, and the SID that was executed last there, to all SIDs.

ghost use Rattle.std.specs.Prelude.{◌≡◌, ◌+◌, ◌<◌, ◌≤◌, ℕ, length, None, Some, IfOk, IfSome};
ghost use Rattle.walk_rules.specs.Relation.{IsPlace};
ghost use Rattle.choice_graph.specs.VertexTables.{AreFound};
ghost use Rattle.loose_walks.specs.WayGraphs.{graph_in};
ghost use Rattle.leg_table.specs.PositionSids.{sid_address};
ghost use Rattle.loose_spec.specs.LooseLegs as legs;
ghost use Rattle.loose_spec.specs.LooseSids.{origin_of};
ghost use Rattle.loose_spec.specs.LooseSteps.{node_at};
ghost use Rattle.loose_legs_theory.specs.LooseStepsTerms.{AreSteps};
ghost use Rattle.loose_legs.specs.LooseTable.{AreFurther, AreOnward, AreRowsFrom, AreStands, AreTables, IsRowFrom, finish_to, leg_to, onward_from};

use crate::intent_steps::left_found;
use crate::loose_rows::is_sid_at;
use base::{NoMemory, Seq};
use choice_graph::Found;
use intent_reader::Intent;
use intent_traces::TraceStep;
use leg_table::{headend_place, if_none_left, is_last, is_middle, leg_with, place_behind};
use list_pack::Leg;
use loose_walks::{find_from, find_ways};
use net_model::Net;
use srv6_rules::Family;
use std::alloc::Global;
use walk_rules::Place;

/// What leads to a next SID.
#[derive(Clone, Copy, Debug)]
pub struct Onward {
    /// The leg, if there is one.
    pub leg: Option<Leg>,
    /// How often the hop limit is lowered on the way to the last SID, if there is a finish.
    pub finish: Option<u32>,
}

/// What leads to all SIDs, by their numbers; empty where nothing leads on.
pub type Onwards = Seq<Onward>;

/// What is found at the vertices of a destination's graph, by the vertices' numbers.
pub type Table = Seq<Option<Found>>;

/// What is found in the graph of each SID's first address, by the SIDs' numbers.
pub fn tables_of(alloc: Global, net: &Net, steps: &[TraceStep]) -> Result<Vec<Table>, NoMemory>
    requires { length steps.now ≤ 48 }
    ensures { IfOk result (λ tables.
        AreTables net.now steps.now (length net.now.sids) tables.items) }
{
    let mut tables = Vec::new(alloc);
    for n in 0..net.sids() {
        let destination = net.sid(n).prefix.value();
        tables.push(Table::new(find_ways(alloc, net, destination, steps)?))?;
    }
    Ok(tables)
}

/// The leg to a SID that is found
fn leg_found(net: &Net, steps: &[TraceStep], next: u32, found: &Found) -> Option<Leg>
    requires is_there { next < length net.now.sids }
    requires few { length steps.now ≤ 48 }
    requires low { found.now.most ≤ 256 }
    ensures { result ≡ legs.leg_found net.now steps.now next found.now }
{
    let left = left_found(net, steps, next, found)?;
    Some(leg_with(steps.len() as u32, found.most, left))
}

/// The leg to a SID, where it is middle
fn leg_to(net: &Net, steps: &[TraceStep], next: u32, found: Option<Found>) -> Option<Leg>
    requires is_there { next < length net.now.sids }
    requires few { length steps.now ≤ 48 }
    requires low { IfSome found (λ f. f.most ≤ 256) }
    ensures { result ≡ leg_to net.now steps.now next found }
{
    if !is_middle(net, next) {
        return None;
    }
    let found = found?;
    leg_found(net, steps, next, &found)
}

/// The finish at a SID that is found
fn finish_found(net: &Net, steps: &[TraceStep], next: u32, found: &Found) -> Option<u32>
    requires is_there { next < length net.now.sids }
    requires few { length steps.now ≤ 48 }
    ensures { result ≡ legs.finish_found net.now steps.now next found.now }
{
    let left = left_found(net, steps, next, found)?;
    if_none_left(found.most, left)
}

/// The finish at a SID, where it exposes a packet of the family inside
fn finish_to(
    net: &Net,
    inner: Family,
    steps: &[TraceStep],
    next: u32,
    found: Option<Found>,
) -> Option<u32>
    requires is_there { next < length net.now.sids }
    requires few { length steps.now ≤ 48 }
    ensures { result ≡ finish_to net.now inner steps.now next found }
{
    if !is_last(net, inner, next) {
        return None;
    }
    let found = found?;
    finish_found(net, steps, next, &found)
}

/// What leads to a SID from a place, with so many steps left
fn onward_to(
    net: &Net,
    intent: &Intent,
    steps: &[TraceStep],
    table: &[Option<Found>],
    left: usize,
    place: &Place,
    next: u32,
) -> Onward
    requires steps { AreSteps net.now intent.now steps.now }
    requires within { left ≤ length steps.now }
    requires is_place { IsPlace net.now place.now }
    requires is_there { next < length net.now.sids }
    requires found { AreFound (graph_in net.now (sid_address net.now next) steps.now) table.now }
    ensures { result ≡ onward_from net.now intent.now steps.now left place.now next }
{
    net.keeps_rules();
    let destination = net.sid(next).prefix.value();
    let found = find_from(net, destination, steps, table, left, place);
    Onward {
        leg: leg_to(net, steps, next, found),
        finish: finish_to(net, intent.inner, steps, next, found),
    }
}

/// What leads to all SIDs from a place, with so many steps left
fn onwards_from(
    alloc: Global,
    net: &Net,
    intent: &Intent,
    steps: &[TraceStep],
    tables: &[Table],
    left: usize,
    place: &Place,
) -> Result<Onwards, NoMemory>
    requires steps { AreSteps net.now intent.now steps.now }
    requires within { left ≤ length steps.now }
    requires is_place { IsPlace net.now place.now }
    requires tables { AreTables net.now steps.now (length net.now.sids) tables.now }
    ensures { IfOk result (λ row. AreOnward net.now intent.now steps.now left place.now
        (length net.now.sids) row) }
{
    let mut row = Vec::new(alloc);
    for next in 0..net.sids() {
        let table = tables[next as usize].as_slice();
        row.push(onward_to(net, intent, steps, table, left, place, next))?;
    }
    Ok(Onwards::new(row))
}

/// From where a packet goes on behind a SID of a position, where the walk stands at a node
fn start_behind(
    net: &Net,
    intent: &Intent,
    steps: &[TraceStep],
    position: u32,
    stands: u32,
    via: u32,
) -> Option<Place>
    requires steps { AreSteps net.now intent.now steps.now }
    requires within { position ≤ length steps.now }
    requires stands { node_at net.now intent.now steps.now position ≡ Some stands }
    requires is_there { via < length net.now.sids }
    ensures value { result ≡ origin_of net.now intent.now steps.now position (Some via) }
    ensures is_place { IfSome result (IsPlace net.now) }
{
    net.keeps_rules();
    if !is_sid_at(net, steps, position, stands, via) {
        return None;
    }
    place_behind(net, via)
}

/// What leads on from the start, where no SID was executed yet.
pub fn first_onwards(
    alloc: Global,
    net: &Net,
    intent: &Intent,
    steps: &[TraceStep],
    tables: &[Table],
) -> Result<Onwards, NoMemory>
    requires steps { AreSteps net.now intent.now steps.now }
    requires tables { AreTables net.now steps.now (length net.now.sids) tables.now }
    ensures { IfOk result (IsRowFrom net.now intent.now steps.now 0 None) }
{
    let place = headend_place(intent);
    let row = onwards_from(alloc, net, intent, steps, tables, steps.len(), &place)?;
    Ok(row)
}

/// What leads on from a SID of a position, where the walk stands at a node
fn onwards_behind(
    alloc: Global,
    net: &Net,
    intent: &Intent,
    steps: &[TraceStep],
    tables: &[Table],
    position: u32,
    start: Option<Place>,
) -> Result<Onwards, NoMemory>
    requires steps { AreSteps net.now intent.now steps.now }
    requires within { position ≤ length steps.now }
    requires is_place { IfSome start (IsPlace net.now) }
    requires tables { AreTables net.now steps.now (length net.now.sids) tables.now }
    ensures { IfOk result (λ row. (via : ℕ)
        → origin_of net.now intent.now steps.now position (Some via) ≡ start
        → IsRowFrom net.now intent.now steps.now position (Some via) row) }
{
    let Some(place) = start else {
        return Ok(Onwards::new(Vec::new(alloc)));
    };
    let left = steps.len() - position as usize;
    let row = onwards_from(alloc, net, intent, steps, tables, left, &place)?;
    Ok(row)
}

/// What leads on from the SIDs of a position, where the walk stands at a node
fn onwards_at(
    alloc: Global,
    net: &Net,
    intent: &Intent,
    steps: &[TraceStep],
    tables: &[Table],
    position: u32,
    stands: u32,
) -> Result<Seq<Onwards>, NoMemory>
    requires steps { AreSteps net.now intent.now steps.now }
    requires within { position ≤ length steps.now }
    requires stands { node_at net.now intent.now steps.now position ≡ Some stands }
    requires tables { AreTables net.now steps.now (length net.now.sids) tables.now }
    ensures { IfOk result (AreRowsFrom net.now intent.now steps.now position) }
{
    let mut rows = Vec::new(alloc);
    for via in 0..net.sids() {
        let start = start_behind(net, intent, steps, position, stands, via);
        rows.push(onwards_behind(alloc, net, intent, steps, tables, position, start)?)?;
    }
    Ok(Seq::new(rows))
}

/// What leads on from the SIDs of each position, from the start to the end.
pub fn further_onwards(
    alloc: Global,
    net: &Net,
    intent: &Intent,
    steps: &[TraceStep],
    tables: &[Table],
    stands: &[u32],
) -> Result<Vec<Seq<Onwards>>, NoMemory>
    requires steps { AreSteps net.now intent.now steps.now }
    requires tables { AreTables net.now steps.now (length net.now.sids) tables.now }
    requires stands { AreStands net.now intent.now steps.now (length steps.now + 1) stands.now }
    ensures { IfOk result (λ further.
        AreFurther net.now intent.now steps.now (length steps.now + 1) further.items) }
{
    let mut further = Vec::new(alloc);
    for position in 0..steps.len() + 1 {
        let node = stands[position];
        further.push(onwards_at(alloc, net, intent, steps, tables, position as u32, node)?)?;
    }
    Ok(further)
}
