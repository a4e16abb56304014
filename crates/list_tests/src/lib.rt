//! Tests of lists and of the legs that they are searched over, by values that were worked by hand:
//! what no row shows, since no command asks for it. Here they are proved once, and the crates aren't
//! proved again with their tests.
//!
//! `legal_list_tests` has lists by their paths and segments, `list_pack_tests` rooms and costs,
//! `leg_table_tests` tables of legs, of SIDs, positions and numbers that there aren't too, and
//! `intent_compiler_tests` the laws of all legs at those of an intent, `prefer_tests` how many SIDs a
//! compiled list has by the intent's preference; `choice_graph_tests` has a graph that was gone through
//! by hand.
#![tactic(auto)]

#[cfg(test)]
mod choice_graph_tests;
#[cfg(test)]
mod intent_compiler_tests;
#[cfg(test)]
mod leg_table_tests;
#[cfg(test)]
mod legal_list_tests;
#[cfg(test)]
mod list_pack_tests;
#[cfg(test)]
mod prefer_tests;
