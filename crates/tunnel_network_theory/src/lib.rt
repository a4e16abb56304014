//! A network as a machine that walks packets under pushed headers.
//!
//! `NetworkWorld` of `binding_spec` says what a node does with the header on top, whatever it
//! carries; with that a network is a world of `tunnel_walks_theory`, so what holds there for all
//! choices holds of its walks: `specs/NetworkWalks.antt` has what they hand over along steps. The functions of `laws` do nothing:
//! their contracts are the laws.
#![tactic(auto)]

mod laws;

pub use laws::{
    a_leg_of_a_network_is_for_all_choices, a_network_hands_over_exactly_along_a_path,
    a_network_walks_as_its_machine, a_packet_of_a_network_has_a_need,
    a_pushed_header_leads_to_an_origin, a_transit_is_by_look_ups,
    an_intent_is_realized_exactly_along_paths, steps_that_follow_lead_to_one_place,
};
