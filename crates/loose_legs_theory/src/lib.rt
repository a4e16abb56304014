//! What legs and finishes along steps of which some may be loose mean, and that they are legs as a
//! search asks for them.
//!
//! The definitions stand in `loose_spec`. `specs/LooseSentences.antt` says what becomes of packets to
//! a next SID for all choices, and `specs/StopLinks.antt` behind which links stages first send
//! nothing. The functions of both modules of laws do nothing: their contracts are the laws.
#![tactic(auto)]

mod leg_laws;
mod sentence_laws;

pub use leg_laws::{a_stop_is_behind_links_that_leave_the_steps, loose_legs_keep_the_laws};
pub use sentence_laws::{a_loose_finish_is_for_all_choices, a_loose_leg_is_for_all_choices};
