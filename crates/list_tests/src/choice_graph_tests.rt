//! What is found in a graph that was gone through by hand.

ghost use Rattle.std.specs.Prelude.{◌<◌, ◌^◌, length};

use base::{NoMemory, Seq};
use choice_graph::{FirstMove, Found, Vertex, find_first_move, find_vertices};
use std::alloc::Global;

/// A vertex: nothing, an answer from 100 on, or next vertices
fn vertex(alloc: Global, row: &[u32]) -> Result<Vertex, NoMemory> {
    match row {
        [] => Ok(Vertex::Lost),
        [answer] if *answer >= 100 => Ok(Vertex::Stop(*answer)),
        _ => Ok(Vertex::Over(Seq::new(row.to_vec(alloc)?))),
    }
}

/// The greatest number of lowerings and the answer that all choices come to
type Wanted = Option<(u32, u32)>;

/// Each vertex, and what is found there
const ROWS: &[(&[u32], Wanted)] = &[
    // two ways of different length to one end
    (&[1, 2], Some((3, 107))),
    (&[4], Some((1, 107))),
    (&[3], Some((2, 107))),
    (&[4], Some((1, 107))),
    (&[107], Some((0, 107))),
    // a loop that a choice can leave, and one that none can
    (&[4, 5], None),
    (&[7], None),
    (&[6], None),
    // choices come to two answers
    (&[4, 9], None),
    (&[108], Some((0, 108))),
    // one of two is lost; a vertex that leads to it alone
    (&[4, 11], None),
    (&[], None),
    (&[10], None),
    // a vertex twice in a set; a number that the graph doesn't have
    (&[0, 0, 1], Some((4, 107))),
    (&[15], None),
];

/// Orders in which vertices are gone through first
const ORDERS: &[&[u32]] = &[&[], &[4, 3, 2, 1, 0, 13, 9], &[0, 0, 99, 13]];

/// Starts in front of the graph, which lower the hop limit or not, and what is found from there
const STARTS: &[(bool, &[u32], Wanted)] = &[
    (false, &[1, 4], Some((1, 107))),
    (true, &[1, 4], Some((2, 107))),
    (false, &[1, 9], None),
    (false, &[109], Some((0, 109))),
    (true, &[109], Some((0, 109))),
    (true, &[], None),
];

fn graph(alloc: Global) -> Result<Vec<Vertex>, NoMemory> {
    let mut vertices = Vec::new(alloc);
    for (row, _) in ROWS {
        vertices.push(vertex(alloc, row)?)?;
    }
    Ok(vertices)
}

fn is(found: Option<Found>, wanted: Wanted) -> bool {
    match (found, wanted) {
        (Some(found), Some((most, answer))) => found.most == most && found.answer == answer,
        (None, None) => true,
        (Some(_), None) | (None, Some(_)) => false,
    }
}

fn are_all(table: &[Option<Found>]) -> bool {
    for (found, (_, wanted)) in table.iter().zip(ROWS) {
        if !is(*found, *wanted) {
            return false;
        }
    }
    table.len() == ROWS.len()
}

fn finds_rows(alloc: Global, vertices: &[Vertex], order: &[u32]) -> Result<bool, NoMemory>
    requires { length vertices.now < 2 ^ 32 }
{
    let table = find_vertices(alloc, vertices, order)?;
    Ok(are_all(table.as_slice()))
}

fn found_from(
    alloc: Global,
    vertices: &[Vertex],
    lowers: bool,
    row: &[u32],
) -> Result<Option<Found>, NoMemory>
    requires { length vertices.now < 2 ^ 32 }
{
    let table = find_vertices(alloc, vertices, &[])?;
    let vertex = vertex(alloc, row)?;
    Ok(find_first_move(vertices, table.as_slice(), &FirstMove { lowers, vertex }))
}

#[test]
fn finds_the_answer_of_all_choices(rt: HostRuntime) -> Result<(), NoMemory> {
    let vertices = graph(rt.alloc())?;
    assert!(rt; vertices.len() < 100);
    for order in ORDERS {
        assert!(rt; finds_rows(rt.alloc(), vertices.as_slice(), order)?);
    }
    for (lowers, row, wanted) in STARTS {
        let found = found_from(rt.alloc(), vertices.as_slice(), *lowers, row)?;
        assert!(rt; is(found, *wanted));
    }
    Ok(())
}
