//! The plan of an update: whether the tables of a network can pass from an old description to a new
//! one while packets are on their way, or the first fault; the parts of the network that has the
//! entries of both; and which of the old entries are removed. What these are `update_spec` says.
#![tactic(auto)]

mod changes;
mod conflicts;
mod differ;
mod entry;
mod equal;
mod gather;
mod joined;
mod known_entries;
mod known_routes;
mod limits;
mod planned_parts;
mod prefix_index;

pub use changes::removed_entries;
pub use planned_parts::plan_parts;
