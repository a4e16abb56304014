//! What the legs of an intent through binding SIDs mean: their paths are the legal lists that
//! realize the intent, where a packet's own hand-over is the first one without a header in front.
//!
//! The definitions stand in `binding_spec`. `specs/OriginFacts.antt` says what holds of the place
//! from which a packet goes on, `specs/BindingSentences.antt` what becomes of packets to a next SID
//! for all choices among equal next hops, and `specs/BindingKind.antt` what is handed over of a packet
//! on its way along such a list. The functions of the modules of laws do nothing: their contracts
//! are the laws.
#![tactic(auto)]

mod meaning_laws;
mod origin_laws;
mod sentence_laws;

pub use meaning_laws::{
    legs_through_binding_sids_keep_the_laws_of_one_leg, legs_through_binding_sids_mean_lists,
    what_a_path_carries_keeps_to_the_intent,
};
pub use origin_laws::{
    an_origin_is_where_the_walk_stands, legs_through_binding_sids_keep_the_laws,
    without_binding_sids_legs_are_strict,
};
pub use sentence_laws::{
    a_finish_through_binding_sids_is_for_all_choices, a_leg_through_binding_sids_is_for_all_choices,
};
