//! What all crates stand on: a list that contracts see as one, and want of memory.
#![tactic(auto)]

mod no_memory;
mod seq;

pub use no_memory::NoMemory;
pub use seq::Seq;
