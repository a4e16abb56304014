//! Flat networks, over which lists are compiled.
//!
//! `compilable` tells whether a network is flat: then no entry lies strictly inside the prefix of a
//! SID, but for SIDs nested in it, those of its node with 16 bits more; and all own addresses of a
//! SID, which no nested SID holds, are looked up alike. SIDs that overlap a block lie strictly
//! inside it, with a length that suits it and a CSID other than 0; and SIDs on one prefix that make
//! the next segment the destination are compressed alike. Where memory is refused the answer is the
//! same, and takes longer. `are_nest` tells a nest, and `units_nested_in` what may not come
//! directly after a SID in a container. The laws about the definitions are the contracts of empty
//! functions.
#![tactic(auto)]

mod flatness;
mod laws;
mod nested;
mod nests;
mod not_flat;
mod pairs;

pub use flatness::compilable;
pub use laws::{
    blocks_hold_or_miss, flat_networks_are_refused_for_nothing,
    flat_networks_treat_addresses_alike, nested_sids, prefixes_have_one_flavour,
    sids_of_blocks_are_whole_units,
};
pub use nests::{are_nest, units_nested_in};
pub use not_flat::NotFlat;
