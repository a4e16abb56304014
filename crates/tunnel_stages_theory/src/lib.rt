//! Laws of stages and walks behind binding SIDs, and of a packet's own hand-over there.
//!
//! The definitions stand in `binding_spec`. `specs/OwnHandSentence.antt` says the own hand-over in a
//! sentence. The functions of both modules of laws do nothing: their contracts are the laws.
#![tactic(auto)]

mod own_hand_laws;
mod tunnel_stage_laws;

pub use own_hand_laws::{
    an_own_hand_over_is_the_first_without_headers, bytes_hand_over_as_values_do,
    realizing_is_said_once, what_is_small_keeps_to_the_intent,
    without_binding_sids_hand_overs_are_the_first,
};
pub use tunnel_stage_laws::{
    a_depth_is_the_packets_below, bytes_go_as_values_do, bytes_walk_as_values_do,
    without_binding_sids_nothing_is_below,
};
