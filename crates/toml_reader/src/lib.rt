//! Words on the tree of a TOML document, for readers that give exactly the first fault.
//!
//! A reader is a row of keys in their order, and each word here gives a value or the first fault of
//! what it reads. `document` gives the tree of a text; `Kind` is what a value may be read as;
//! `needed`, `optional` and their like read the value at a key, `items_at` the items of an array of
//! tables, and `only` refuses other keys. `specs/` has the same words as functions on the tree, and
//! the contracts say that the code gives what they give.
#![tactic(auto)]

mod items;
mod keys;
mod kinds;
mod parse;
mod tree;

pub use items::{Describes, items_at};
pub use keys::{
    list_if_given, needed, needed_list, number_if_given, optional, optional_array, optional_list,
    optional_number,
};
pub use kinds::{Kind, meant};
pub use parse::document;
pub use tree::{integer_in, number_in, only, text_in, value_at};
