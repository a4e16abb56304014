//! Segment lists over compressed SIDs, as definitions over plain values.
//!
//! `specs/SegmentLists.antt` has lists as containers of SIDs, their values, which lists are legal by
//! the rules of lists alone, and what a flat network adds. The laws stand in `sid_list_theory`.
#![tactic(auto)]
