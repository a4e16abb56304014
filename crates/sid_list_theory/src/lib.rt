//! Laws of segment lists over compressed SIDs, and of the packet at each of their SIDs.
//!
//! The lists themselves stand in `sid_list_spec`. `specs/ListPlaces.antt` has a packet's place in
//! a list, the destination and the whole packet there, in both header forms and round a packet of
//! either family, and when a packet stands along a list. `specs/ExecutionRows.antt` has rows of
//! executions with sends between, and `specs/ListExamples.antt` two lists with their values written
//! out. What a SID does with a packet is `at_sid` of `srv6_rules`; the laws here say it place by
//! place.
#![tactic(auto)]

pub mod laws;
