//! A table of prefixes with a value each, and the longest of them that holds an address.
//!
//! Contracts see a table as the plain list of its entries. Each prefix stands once.
#![tactic(auto)]

mod fault;
mod index;
mod laws;
mod table;

pub use fault::TableFault;
pub use laws::{best_is_one, best_with_one_more, edits_change_one_prefix, values_are_of_entries};
pub use table::Table;
