//! What all choices come to from places that are no vertices of a graph: from the headend, and from a
//! SID that was executed.

ghost use Rattle.std.specs.Prelude.{◌≡◌, ◌≤◌, length};
ghost use Rattle.walk_rules.specs.Relation.{IsPlace};
ghost use Rattle.choice_graph.specs.VertexTables.{AreFound};
ghost use Rattle.loose_walks.specs.WayGraphs as graphs;

use crate::way_finding::find_by;
use choice_graph::Found;
use intent_traces::TraceStep;
use net_model::Net;
use v6_addr::Addr;
use walk_rules::{Place, way_of};

/// What all choices come to from a place, for packets to a destination with so many of the steps
/// left, by what is found in the destination's graph: the SID and the steps that are left there as
/// the graph numbers them, and the greatest number of lowerings. The first move lowers as the place
/// says.
pub fn find_from(
    net: &Net,
    destination: Addr,
    steps: &[TraceStep],
    table: &[Option<Found>],
    left: usize,
    place: &Place,
) -> Option<Found>
    requires few { length steps.now ≤ 48 }
    requires within { left ≤ length steps.now }
    requires is_place { IsPlace net.now place.now }
    requires found { AreFound (graphs.graph_in net.now destination.value steps.now) table.now }
    ensures { result ≡ graphs.found_in net.now destination.value steps.now left place.now }
{
    net.keeps_rules();
    let way = way_of(net, place, destination);
    let rest = &steps[steps.len() - left..];
    find_by(net, table, steps.len() as u32, rest, way)
}
