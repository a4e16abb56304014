//! The command `walk`, and what becomes of packets at the headend of an intent.
//!
//! `specs/WalkCommand.antt` has its words, its spec and its output, and what a walk keeps to.
#![tactic(auto)]

pub mod headend;
mod inner_packets;
pub mod laws;
pub mod opening;
pub mod walk_command;
pub mod walk_lists;

pub use headend::Headend;
pub use opening::{Opening, headend_of, start_of_intent};
