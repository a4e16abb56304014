//! Laws of networks that have the entries of two descriptions: they keep the rules, and look up as
//! each description does among its own entries.
//!
//! The definitions stand in `update_spec`, those of look-ups while entries are hidden in
//! `specs/LookupsTerms.antt`. The functions of `laws` do nothing: their contracts are the laws.
#![tactic(auto)]

mod laws;

pub use laws::{joined_networks_keep_the_rules, joined_networks_look_up_as_both, own_matches_stay};
