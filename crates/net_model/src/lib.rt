//! A network: blocks of compressed SIDs, nodes with addresses, links, routes, policies and SIDs, as
//! lists in the order of its description.
//!
//! `Net::build` takes the parts that keep the rules of descriptions, or names the first fault, and
//! `Net::keeps_rules` tells the rules to proofs. Beside its parts a network has a table of prefixes
//! for each node, table number and family that has entries: `Net::lookup` gives the entry of a
//! node's table that fits an address best, and `Net::table` one table for many look-ups.
//! Building and showing take memory.
//!
//! Routes and SIDs can be hidden and shown again (`Net::hide`, `Net::show`): they stay in the lists
//! at their numbers, and look-ups go over those that are shown. A network as built has none hidden,
//! but for `Net::build_without`, which builds one with some hidden at once. `Net::copy_parts` gives
//! the parts once more, in memory of their own, for a network that has the entries of two.
//! The laws about the definitions are the contracts of empty functions.
#![tactic(auto)]

mod copied_parts;
mod copies;
pub mod figures;
mod hidden;
mod judge_parts;
mod judge_sids;
mod laws;
mod limits;
mod lookup_tables;
mod named;
mod net;
mod net_judge;
mod node_table;
mod parts;
mod range;
mod route_set;
mod rules;
mod standing;

pub use laws::{
    best_match_is_one, blocks_hold_their_sids, entries_are_its_own, matched_sids_hold_the_address,
    no_fault_is_keeping_the_rules, places_are_of_passing_items, rules_mean_their_facts,
    sids_suit_their_compression,
};
pub use limits::{
    BLOCK_UNIT, DEFAULT_HOP_LIMIT, LAST_FLOW_LABEL, LAST_OCTET, LAST_TABLE, LONG_CSID,
    MAX_ALLOWED_TYPES, MAX_BLOCK_LEN, MAX_BLOCKS, MAX_IPV4_PREFIX_LEN, MAX_LINK_MTU, MAX_LINKS,
    MAX_LINKS_OF_SET, MAX_NAME_BYTES, MAX_NODES, MAX_POLICIES, MAX_ROUTES, MAX_SIDS,
    MAX_SIDS_OF_NODE, MAX_TEXT_BYTES, MIN_LINK_MTU, SHORT_CSID,
};
pub use lookup_tables::address_prefix;
pub use named::{place_of_link, place_of_node};
pub use net::{EntryId, Hit, Net};
pub use node_table::NodeTable;
pub use parts::{Block, BlockKind, Link, Name, NamedPolicy, NetParts, Node, Route, TypeList};
pub use range::are_in_range;
pub use rules::{block_of, is_name, same_family, same_prefix};
pub use standing::Standing;
