//! Walks of packets between two descriptions of a network, as the walks of one of them.
//!
//! `Alike` of `update_spec` says when stages in two networks are the same but for the numbers of SIDs.
#![tactic(auto)]

mod laws;

pub use laws::{tables_between_look_as_both, walks_look_alike};
