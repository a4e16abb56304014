//! What is found at all vertices of a graph: a table of what is known, gone over until nothing is
//! added to it.

ghost use Rattle.std.specs.Prelude.{◌≡◌, ◌<◌, ◌≤◌, ◌^◌, ◌||◌, ℕ, length, if◌then◌else◌, IfOk, false};
ghost use Rattle.choice_graph.specs.FoundInGraphs.{found_by, found_from, found_over};
ghost use Rattle.choice_graph.specs.VertexTables.{Adds, AreFound, AreLow, IsSettledAt, IsSound, known_at};

use crate::vertices::{FirstMove, Found, Vertex};
use base::NoMemory;
use std::alloc::Global;

/// What a table has of a vertex; nothing of one that it doesn't have.
pub fn entry(table: &[Option<Found>], v: u32) -> Option<Found>
    ensures { result ≡ known_at table.now v }
{
    match table.get(v as usize) {
        Some(entry) => *entry,
        None => None,
    }
}

/// What is known of all vertices of a set.
fn find_over(table: &[Option<Found>], set: &[u32]) -> Option<Found>
    ensures { result ≡ found_over (known_at table.now) set.now }
{
    let (first, rest) = set.split_first()?;
    let mut found = entry(table, *first)?;
    for w in rest {
        let next = entry(table, *w)?;
        if next.answer != found.answer {
            return None;
        }
        found = Found {
            most: found.most.max(next.most),
            answer: found.answer,
        };
    }
    Some(found)
}

/// The lowerings of a move.
fn one_if(lowers: bool) -> u32
    ensures value { result ≡ (if lowers then 1 else 0) }
    ensures few { result ≤ 1 }
{
    if lowers { 1 } else { 0 }
}

/// What is known by what a packet meets.
fn find_by(table: &[Option<Found>], lowers: bool, vertex: &Vertex) -> Option<Found>
    requires { AreLow table.now }
    ensures { result ≡ found_by lowers (known_at table.now) vertex.now }
{
    match vertex {
        Vertex::Lost => None,
        Vertex::Stop(answer) => Some(Found {
            most: 0,
            answer: *answer,
        }),
        Vertex::Over(set) => {
            let found = find_over(table, set.as_slice())?;
            Some(Found {
                most: found.most + one_if(lowers),
                answer: found.answer,
            })
        }
    }
}

/// Adds to a table what follows from it for one vertex, if that isn't known, and says whether it did.
fn fill(vertices: &[Vertex], table: &mut [Option<Found>], v: u32) -> bool
    requires one_each { length table.old ≡ length vertices.now }
    requires few { length vertices.now < 2 ^ 32 }
    requires sound { IsSound vertices.now table.old }
    ensures adds { Adds vertices.now table.old table.new result }
    ensures settled { result ≡ false → IsSettledAt vertices.now table.old v }
{
    if v as usize >= vertices.len() || entry(table, v).is_some() {
        return false;
    }
    match find_by(table, true, &vertices[v as usize]) {
        None => false,
        Some(found) => {
            table[v as usize] = Some(found);
            true
        }
    }
}

/// Whether one of two is so.
fn either(a: bool, b: bool) -> bool
    ensures { result ≡ (a || b) }
{
    a || b
}

/// Goes over the vertices of an order once, and says whether anything was added.
fn go_over(vertices: &[Vertex], table: &mut [Option<Found>], order: &[u32]) -> bool
    requires one_each { length table.old ≡ length vertices.now }
    requires few { length vertices.now < 2 ^ 32 }
    requires sound { IsSound vertices.now table.old }
    ensures { Adds vertices.now table.old table.new result }
{
    let mut added = false;
    for v in order {
        added = either(added, fill(vertices, table, *v));
    }
    added
}

/// Goes over all vertices once, and says whether anything was added.
fn go_round(vertices: &[Vertex], table: &mut [Option<Found>]) -> bool
    requires one_each { length table.old ≡ length vertices.now }
    requires few { length vertices.now < 2 ^ 32 }
    requires sound { IsSound vertices.now table.old }
    ensures adds { Adds vertices.now table.old table.new result }
    ensures settled { result ≡ false → (v : ℕ) → v < length vertices.now
        → IsSettledAt vertices.now table.old v }
{
    let mut added = false;
    for v in 0..vertices.len() as u32 {
        added = either(added, fill(vertices, table, v));
    }
    added
}

/// Goes over all vertices until nothing is added.
fn settle(vertices: &[Vertex], table: &mut [Option<Found>])
    requires one_each { length table.old ≡ length vertices.now }
    requires few { length vertices.now < 2 ^ 32 }
    requires sound { IsSound vertices.now table.old }
    ensures { AreFound vertices.now table.new }
{
    let mut added = true;
    'rounds: while added {
        added = go_round(vertices, table);
    }
}

/// What is found at each vertex of a graph, by the vertices' numbers.
///
/// The vertices are gone over once in the order that is given, which may name each of them any number
/// of times or never, and then all of them until nothing is added. What is found doesn't depend on
/// the order; how long it takes does. In an order in which each vertex comes behind those that it
/// leads to the first round finds all, and a second one sees it; in the worst there are as many
/// rounds as vertices. For a graph of nodes and steps left such an order is, from no steps left to
/// all, the nodes as `sort_found` has them for the graph of the nodes alone.
pub fn find_vertices(
    alloc: Global,
    vertices: &[Vertex],
    order: &[u32],
) -> Result<Vec<Option<Found>>, NoMemory>
    requires { length vertices.now < 2 ^ 32 }
    ensures { IfOk result (λ table. AreFound vertices.now table.items) }
{
    let mut table = vec![in alloc; None; vertices.len()]?;
    go_over(vertices, table.as_mut_slice(), order);
    settle(vertices, table.as_mut_slice());
    Ok(table)
}

/// What is found from a start in front of a graph, by what is found at its vertices.
pub fn find_first_move(
    vertices: &[Vertex],
    table: &[Option<Found>],
    start: &FirstMove,
) -> Option<Found>
    requires few { length vertices.now < 2 ^ 32 }
    requires found { AreFound vertices.now table.now }
    ensures { result ≡ found_from vertices.now start.now }
{
    find_by(table, start.lowers, &start.vertex)
}
