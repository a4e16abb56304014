//! The distances and the equal-cost next hops that a link-state routing protocol installs.
//!
//! A network is a number of nodes and a list of links, each from a node to a node or out of the
//! network, at a metric. `distances` gives for each node the least sum of metrics over all walks
//! along links to one of the targets, `next_hops` the links with which a node's least walks begin,
//! and `plan_routes` these links for all nodes and many sets of targets. `specs/Walks.antt` says
//! what walks and distances are, `specs/NextHops.antt` what next hops and forwarding are, and
//! `specs/Routes.antt` what routes are. The functions of `laws` do nothing: their contracts are laws
//! of those definitions.
#![tactic(auto)]

mod hops;
mod incoming;
mod laws;
mod links;
mod nearest;
mod relaxing;
mod routes;
mod settling;

pub use hops::next_hops;
pub use laws::{
    distances_are_determined, forwarding_comes_to_a_target, forwarding_has_no_loop,
    next_hops_begin_least_walks, routed_packets_arrive,
};
pub use links::{Link, MAX_LINKS, MAX_NODES, is_network};
pub use routes::{Route, plan_routes};
pub use settling::distances;
