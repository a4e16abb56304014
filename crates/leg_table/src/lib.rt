//! The legs of an intent: where a packet to the next SID is taken, whichever equal next hop is
//! chosen.
//!
//! `StrictLegs` has for each position of an intent the SIDs that may be executed there, and the
//! ways from its node along the steps that are left to all SIDs. Its legs, finishes and shapes are
//! those that a search asks for (`Legs` of `list_pack`), and mean the lists that realize the intent
//! (`ListLegs`). Further kinds of legs ask it for the way from a place of theirs to a next SID.
//!
//! `specs/StepMatching.antt` has the traces that keep to an intent's steps, `specs/WalkTrace.antt` the traces
//! of walks, `specs/Realizes.antt` when a list realizes an intent, `specs/AllChoices.antt` the ways
//! whichever next hop is chosen, `specs/Transits.antt` those by look-ups alone, `specs/PositionSids.antt` the
//! SIDs of a position, `specs/StrictLegs.antt` legs and finishes, `specs/NestLegs.antt` which SIDs may follow
//! one in its container, `specs/StrictLegsValue.antt` what a search sees of them. `specs/OneLegLaws.antt` has the
//! laws of one leg and one finish, which say what paths are, whatever kind of legs keeps them, and
//! `specs/LegMeaning.antt` when a list realizes by legs of a kind. The functions of `laws` do nothing:
//! their contracts are the laws that lead from look-ups to lists.
#![tactic(auto)]

mod laws;
mod nest_legs;
mod sid_shapes;
mod step_links;
mod strict_legs;
mod strict_rows;
mod transit_table;

pub use laws::{
    a_finish_is_for_all_choices, a_leg_is_for_all_choices, a_list_that_always_hands_over_is_a_path,
    a_list_that_hands_over_has_one_that_realizes, a_path_realizes_the_intent,
    a_trace_is_matched_event_by_event, every_way_is_a_transit, every_way_is_for_all_choices,
    sids_of_a_position_are_in_order, strict_legs_keep_the_laws_of_one_leg,
    what_is_handed_over_has_its_trace,
};
pub use nest_legs::{Units, may_stay, nested_of};
pub use sid_shapes::{shape_of, takes_step};
pub use step_links::{Behind, all_in_step, first_end, if_none_left, leg_with};
pub use strict_legs::{StrictLegs, headend_place, is_last, is_middle, place_behind};
