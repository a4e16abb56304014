//! When the tables of a network can pass from an old description to a new one while packets are on
//! their way, as definitions.
//!
//! Both descriptions have the same blocks, nodes, links and policies; routes and SIDs may come and
//! go. `specs/Equal.antt` says which items are equal, `specs/Joined.antt` what network has the
//! entries of both, `specs/Changes.antt` what is added and removed, `specs/Planning.antt` what
//! keeps the network from passing over, fault by fault, and `specs/Alike.antt` when walks in two
//! networks are the same but for the numbers of SIDs. The laws stand in `update_theory` and
//! `update_walks_theory`.
#![tactic(auto)]

mod plan_fault;

pub use plan_fault::PlanFault;
