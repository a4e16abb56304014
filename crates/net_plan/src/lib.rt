//! Networks of plans: links from cables, and routes along shortest paths.
//!
//! A description has what stands on the nodes, and a plan the cables between them, the metrics, and
//! the prefixes that routes lead to (`plan_syntax`). `read_base` gives the network of both before
//! any route of the plan: behind the description's links stand those of the cables and sites that
//! aren't there. `planned_net` adds the routes: out of the network to sites, and along the shortest
//! paths to every prefix that a node has (`planned_routes`), with all equal next hops; a route that
//! is there stays as it is. `again` does so where some links are down, and with some nodes all links
//! from and to them. `specs/` says which network or which first fault comes.
//!
//! Areas, summaries and discard routes aren't here: they need routes to nowhere, which descriptions
//! don't have.
#![tactic(auto)]

mod base_fault;
mod base_net;
mod cable_names;
mod entering_links;
mod exit_routes;
mod exits;
mod known_names;
mod link_metrics;
mod plan;
mod plan_links;
mod plan_owners;
mod planning;

pub use base_fault::BaseFault;
pub use base_net::read_base;
pub use plan::{Plan, read_plan};
pub use planning::{again, planned_net};
