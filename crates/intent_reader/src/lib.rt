//! Path intents: the links that packets are to cross, the functions that are to be executed on them
//! and the nodes that they are to reach, in order.
//!
//! An intent is TOML over a network, whose keys `net_syntax` tells. `read_intent` gives it with the
//! numbers of nodes, links and SIDs in place of their names, or its first fault in one written
//! order. `specs/` has the same order as functions on what the text says, and which rules an intent
//! keeps in its network; `is_intent` tests these. The laws about the definitions are the contracts
//! of empty functions.
#![tactic(auto)]

mod fault;
mod intent;
mod intent_rules;
mod laws;
mod names;
mod read;
mod steps;

pub use fault::{IntentFault, StepFault};
pub use intent::{Intent, Step, Steps};
pub use intent_rules::{has_reach, is_intent};
pub use laws::{
    intents_have_walks, no_fault_is_keeping_the_rules, steps_lead_on, walks_stay_at_nodes,
};
pub use net_syntax::Prefer;
pub use read::read_intent;
