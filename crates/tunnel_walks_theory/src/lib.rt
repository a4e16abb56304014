//! Walks of packets under pushed headers, for any nodes, links and headers.
//!
//! A SID may push a header on a packet, which then walks below that header until it is taken off.
//! The machines that go on by moves, and the packets under headers, stand in `binding_spec`
//! (`Machines`, `TunnelPackets`); here `specs/MachinesTerms.antt` has their walks under choices among
//! equal next hops, `specs/TunnelChoices.antt` says what holds for all choices,
//! `specs/CountedExample.antt` tells by an example which stages count, `specs/TunnelLegs.antt` has the
//! legs from one execution on the own packet to the next, and paths of them, `specs/WalkRests.antt`
//! what is left of a walk behind such an execution, and `specs/HopNeeds.antt` packets that differ in
//! their hop limit alone. The functions of `laws` do nothing: their contracts are the laws.
#![tactic(auto)]

mod laws;

pub use laws::{
    a_leg_behind_a_header_is_for_all_choices, a_packet_hands_over_exactly_along_a_path,
    a_packet_has_a_need, a_pushed_header_walks_alone, a_transit_is_for_all_choices,
    a_walk_goes_on_behind_its_first_execution, all_choices_are_one_walk, the_limit_is_to_one_stage,
};
