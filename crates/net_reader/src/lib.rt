//! The description of a network, from text to network.
//!
//! A description is TOML: arrays of tables `block`, `node`, `link`, `route`, `policy` and `sid`,
//! each of which may be absent, and whose items name one another by their names. `read_net` reads
//! it in three steps: what the text says (`net_syntax`), numbers in place of names, and judging the
//! parts (`net_model`), and gives exactly the first fault; `judged_net` has the last two, of what was
//! described otherwise. `specs/` has the same steps as functions on the text. The laws about the
//! definitions are the contracts of empty functions.
//!
//! `join` puts numbers in place of names. An item's number is its place among the items of its
//! kind, counted from 0; the number of a name that none has is their count, so that it is told
//! apart when the parts are judged. `Numbering` has the names of items, read once into a map.
#![tactic(auto)]

mod joined_parts;
mod joined_sids;
mod joining;
mod laws;
mod numbering;
mod read;
mod standings;

pub use joined_parts::join;
pub use laws::{described_parts_are_in_range, networks_keep_the_rules, titles_have_their_numbers};
pub use numbering::{Named, Numbering};
pub use read::{judged_net, read_net};
