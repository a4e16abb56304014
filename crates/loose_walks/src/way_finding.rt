//! What all choices come to by the way that a packet has, where what is found at the vertices of its
//! destination's graph is known.

ghost use Rattle.std.specs.Prelude.{◌≡◌, ◌-◌, ◌<◌, ◌≤◌, ◌^◌, map, length, IfSome};
ghost use Rattle.std.specs.Option.{option_map};
ghost use Rattle.walk_rules.specs.WayTerms.{way_in};
ghost use Rattle.choice_graph.specs.FoundInGraphs as finding;
ghost use Rattle.choice_graph.specs.VertexTables.{AreLow, known_at};
ghost use Rattle.loose_walks.specs.WayGraphs as graphs;
ghost use Rattle.loose_walks.specs.WayGraphsTerms as graphs_terms;

use choice_graph::{Found, entry};
use intent_traces::{TraceStep, left_behind_link};
use net_model::Net;
use walk_rules::{Way, far_end};

/// The vertex of a node with so many steps left, if both are there
#[tactic(auto, using(crate::proofs::VertexNumbers::small_product))]
fn number_behind(size: u32, lost: u32, behind: Option<usize>, end: Option<u32>) -> u32
    requires size { size ≤ 256 }
    requires few { IfSome behind (λ left. left ≤ 48) }
    requires there { IfSome end (λ node. node < size) }
    ensures { result ≡ graphs_terms.number_behind size lost behind end }
{
    let Some(left) = behind else {
        return lost;
    };
    let Some(node) = end else {
        return lost;
    };
    left as u32 * size + node
}

/// The vertex behind a link
#[tactic(auto, using(crate::proofs::VertexNumbers::small_product))]
fn next_vertex(net: &Net, count: u32, left: &[TraceStep], link: u32) -> u32
    requires count { count ≤ 48 }
    requires few { length left.now ≤ count }
    ensures { result ≡ graphs.next_vertex net.now (graphs.numbers_of net.now count) left.now link }
{
    net.keeps_rules();
    let size = net.nodes();
    let lost = (count + 1) * size;
    let end = far_end(net, link);
    let behind = left_behind_link(left, link, end);
    number_behind(size, lost, behind, end)
}

/// What a table has of the vertex behind a link
fn found_behind(
    net: &Net,
    table: &[Option<Found>],
    count: u32,
    left: &[TraceStep],
    link: u32,
) -> Option<Found>
    requires count { count ≤ 48 }
    requires few { length left.now ≤ count }
    ensures { result ≡ known_at table.now
        (graphs.next_vertex net.now (graphs.numbers_of net.now count) left.now link) }
{
    entry(table, next_vertex(net, count, left, link))
}

/// What is known behind all links of a set
fn find_behind(
    net: &Net,
    table: &[Option<Found>],
    count: u32,
    left: &[TraceStep],
    links: &[u32],
) -> Option<Found>
    requires count { count ≤ 48 }
    requires few { length left.now ≤ count }
    ensures { result ≡ finding.found_over (known_at table.now)
        (map (graphs.next_vertex net.now (graphs.numbers_of net.now count) left.now) links.now) }
{
    let (first, rest) = links.split_first()?;
    let mut found = found_behind(net, table, count, left, *first)?;
    for link in rest {
        let next = found_behind(net, table, count, left, *link)?;
        if next.answer != found.answer {
            return None;
        }
        found = Found {
            most: found.most.max(next.most),
            answer: found.answer,
        };
    }
    Some(found)
}

/// With one lowering more where a move lowers
fn lowered(found: Found, lower: bool) -> Found
    requires { found.most < 2 ^ 32 - 1 }
    ensures { result ≡ finding.lowered lower found }
{
    if lower {
        Found {
            most: found.most + 1,
            answer: found.answer,
        }
    } else {
        Found {
            most: found.most,
            answer: found.answer,
        }
    }
}

/// What is known over a set of links, with one lowering more where they lower
fn find_over(
    net: &Net,
    table: &[Option<Found>],
    count: u32,
    left: &[TraceStep],
    links: &[u32],
    lower: bool,
) -> Option<Found>
    requires count { count ≤ 48 }
    requires few { length left.now ≤ count }
    requires low { AreLow table.now }
    ensures { result ≡ option_map (finding.lowered lower) (finding.found_over (known_at table.now)
        (map (graphs.next_vertex net.now (graphs.numbers_of net.now count) left.now) links.now)) }
{
    let found = find_behind(net, table, count, left, links)?;
    Some(lowered(found, lower))
}

/// What is known by the way that a packet has, with these of `count` steps left.
pub(crate) fn find_by(
    net: &Net,
    table: &[Option<Found>],
    count: u32,
    left: &[TraceStep],
    way: Way<'_>,
) -> Option<Found>
    requires count { count ≤ 48 }
    requires few { length left.now ≤ count }
    requires low { AreLow table.now }
    requires there { graphs_terms.IsInto net.now (way_in way) }
    ensures { result ≡ finding.found_by (graphs.lowers_by (way_in way.entry)) (known_at table.now)
        (graphs.vertex_by net.now (graphs.numbers_of net.now count) left.now (way_in way.entry)) }
{
    net.keeps_rules();
    match way {
        Way::NoWay { .. } | Way::Own => None,
        Way::Into { sid } => Some(Found {
            most: 0,
            answer: sid * 64 + left.len() as u32,
        }),
        Way::Over { links, lower } => find_over(net, table, count, left, links, lower),
    }
}
