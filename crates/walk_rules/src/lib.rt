//! Places, outcomes, one node's treatment of one packet, and walks.
//!
//! A stage is one node's treatment of one packet, from one look-up or one set of links. `specs/`
//! has it as a function of the place, the packet and a choice among equal next hops, and beside
//! that as a relation by cases; a walk is the row of stages that follow one another. The code here
//! has the parts of it that nodes and a compiler of paths share: the way from a place, how a packet
//! goes on from a SID, the next place, and how a walk ended.
#![tactic(auto)]

pub mod figures;
mod laws;
mod limits;
mod next_places;
mod place;
mod way;

pub use laws::{
    a_choice_has_an_outcome, a_drop_tells_of_its_error, a_long_packet_is_not_sent,
    a_low_hop_limit_is_not_sent, a_member_taken_is_one_decision, a_place_leads_to_a_place,
    a_run_has_few_stages, a_stage_keeps_a_content, a_walk_follows_its_stages,
    a_walk_is_a_beginning, a_walk_is_of_some_list, a_walk_stays_at_places,
    a_walk_that_could_go_on_used_its_stages, a_walk_unfolds, a_way_leads_from_its_place,
    an_end_leaves_what_stood_there, an_ended_walk_stays, an_execution_lowers_the_hop_limit,
    an_execution_names_its_sid, an_outcome_has_a_choice, each_next_hop_is_an_outcome,
    only_the_member_depends_on_the_choice, outcomes_differ_in_the_member, ways_on_are_by_behaviour,
};
pub use limits::MAX_STAGES;
pub use next_places::{arrival, ended_by, exposed_from, far_end, mtu_at, next_place, onward_from};
pub use place::{Ended, How, Outcome, Place};
pub use way::{Way, way_in_table, way_of};
