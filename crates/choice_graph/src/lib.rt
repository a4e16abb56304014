//! What all choices come to, in a graph over which a packet goes from vertex to vertex.
//!
//! A vertex is where a packet can stand on its way to one destination: a node, say, with the steps
//! that it has still to take. At a vertex it is lost, it stops with an answer, or it goes on to one
//! of a set of next vertices, which of them by a choice. Each move lowers the hop limit by one; only
//! the first, from a start in front of the graph, may not. `specs/GraphWalks.antt` says how a packet
//! goes, `specs/FoundInGraphs.antt` what is found at a vertex: the answer to which all choices come, with
//! the greatest number of lowerings among them, or nothing, where choices disagree, one is lost, or
//! a loop can be passed any number of times. `specs/GraphLegs.antt` has ways one after the other. The
//! functions of `laws` do nothing: their contracts are the laws of those definitions.
#![tactic(auto)]

mod laws;
mod vertex_order;
mod vertex_table;
mod vertices;

pub use laws::{
    deeper_looks_find_no_more, found_starts_are_where_all_choices_come,
    found_vertices_are_where_all_choices_come, lists_of_choices_are_enough,
    lowerings_are_fewer_than_nodes, needs_of_legs_add_up,
};
pub use vertex_order::sort_found;
pub use vertex_table::{entry, find_first_move, find_vertices};
pub use vertices::{FirstMove, Found, Vertex};
