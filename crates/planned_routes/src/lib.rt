//! The routes of a network along shortest paths.
//!
//! `planned_routes` takes a network, a metric for each link that is up, and the nodes that have
//! prefixes. It gives the routes that are missing beside those that are there: at each node, for
//! each prefix to which a path leads, over exactly the links with which its shortest paths begin.
//! `specs/PlannedRoutes.antt` says so over the walks of `shortest_paths`.
#![tactic(auto)]

mod destination;
mod entering;
mod owners;
mod planned;
mod route_keys;
mod weighing;

pub use owners::Owner;
pub use planned::planned_routes;
