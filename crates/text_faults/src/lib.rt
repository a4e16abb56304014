//! The faults of texts: of descriptions and of intents.
//!
//! A fault is a place, a table and the number of its item, and a kind. Here stand the tables and
//! the keys with their words (`specs/Keys.antt`), and each kind with its number, its name and what
//! is printed of it (`specs/TextFaults.antt`).
#![tactic(auto)]

mod fault;
mod fault_kind;
mod text_place;
mod texts;

pub use fault::{NetFault, OrNoMemory, TextFault};
pub use fault_kind::FaultKind;
pub use text_place::{FaultPlace, Key, TableKind};
