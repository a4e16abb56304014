//! The legs of an intent, of the kind that it and its network ask for.
//!
//! Where a step is loose, `IntentLegs` are the legs along such steps, and lists realize
//! what `loose_meaning_theory` says. Else they are the legs of strict steps where no SID of the network
//! binds a policy, and those through binding SIDs where one does; both are seen as the latter,
//! since without binding SIDs they are the same, and what lists realize is said by a packet's own
//! hand-over (`tunnel_stages_theory`). `compile` compiles an intent over them, and `check` judges a
//! certificate. The functions of `laws` do nothing: their contracts say that the certificate of
//! what the search found tells what was compiled, and what an intent's steps and a network without
//! binding SIDs make of all answers.
#![tactic(auto)]

mod intent_compiling;
mod intent_legs;
pub mod laws;

pub use intent_compiling::{check, compile, compile_flat};
pub use intent_legs::IntentLegs;
