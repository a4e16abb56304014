//! Tests of the crates that plan routes and leave parts of a network out, by networks that were
//! worked by hand: one file a crate, named for it. Here they are proved once, and the crates aren't
//! proved again with their tests.
#![tactic(auto)]

#[cfg(test)]
mod net_without_tests;
#[cfg(test)]
mod planned_routes_tests;
#[cfg(test)]
mod shortest_paths_tests;
