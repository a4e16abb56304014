//! The command `update`: packets of an intent while the nodes' tables pass from an old description
//! to a new one.
//!
//! `specs/UpdateCommand.antt` has its words, its spec and what is wanted of it. The functions of `laws`
//! do nothing: their contracts are laws of the definitions.
#![tactic(auto)]

mod laws;
pub mod update_command;
mod update_opening;
pub mod update_words;

pub use laws::{
    an_inner_packet_is_to_come, an_intent_has_one_family_in_both, update_has_one_output,
};
