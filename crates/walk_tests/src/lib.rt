//! Tests of the crates that treat and walk packets, over what these crates make public: one file a
//! crate, named for it, each with tables of what comes. Here they are proved once, and the crates
//! aren't proved again with their tests.
#![tactic(auto)]

#[cfg(test)]
mod node_stage_tests;
#[cfg(test)]
mod packet_walk_tests;
#[cfg(test)]
mod trace_replay_tests;
