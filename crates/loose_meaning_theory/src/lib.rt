//! What lists along steps of which some may be loose mean: the paths of the legs along such steps
//! are the legal lists that realize them.
//!
//! The definitions stand in `loose_spec`. `specs/LooseKind.antt` says what is handed over of a packet
//! on its way along a list, when its trace keeps to the steps, and which marks it leaves;
//! `specs/LongestWays.antt` which choices lower the hop limit on each leg by its greatest number. The
//! functions of the modules of laws do nothing: their contracts are the laws of one leg, of the kind
//! of these legs, and of lists.
#![tactic(auto)]

mod kind_laws;
mod list_laws;
mod one_leg_laws;

pub use kind_laws::{
    as_many_choices_matter_as_the_hop_limit_says, each_packet_has_a_longest_way,
    the_laws_of_one_loose_leg_are_those_of_its_kind,
    what_is_handed_over_on_a_loose_leg_is_handed_over_behind_it,
};
pub use list_laws::{
    lists_do_what_their_kind_says, loose_legs_mean_lists, one_packet_shows_what_becomes_of_all,
    what_is_small_keeps_to_the_steps,
};
pub use one_leg_laws::loose_legs_keep_the_laws_of_one_leg;
