//! The way of a packet to one destination, with steps of which one may be loose, as a way
//! over a graph of vertices.
//!
//! `specs/WalkStops.antt` says, of the stages of a walk, to which SID they come first and with how many
//! steps left; `specs/WayGraphs.antt` which graph stands for it: a vertex for each node and number of
//! steps left, made of look-ups alone. `find_ways` gives what is found in it, filled row by row
//! from the nodes' look-ups without the graph itself, and `find_from` what is found from a place in
//! front of it, as from the headend or from a SID that was executed. The functions of `laws` do
//! nothing: their contracts are the laws of those definitions.
#![tactic(auto)]

mod first_moves;
mod graph_tables;
mod laws;
mod node_order;
mod way_finding;

pub use first_moves::find_from;
pub use graph_tables::find_ways;
pub use laws::{
    all_choices_come_to_a_sid_that_is_found, all_choices_come_where_the_graph_finds,
    lowerings_are_fewer_than_the_nodes, networks_have_graphs, walks_are_ways_over_the_graph,
};
