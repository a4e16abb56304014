//! The command `gen`, and what a network, an intent, its list and walks come to in numbers.
//!
//! `specs/GenCommand.antt` has its words, its spec and its output, and `specs/Summary.antt` the numbers.
#![tactic(auto)]

pub mod figures;
mod gen_command;
pub mod laws;
mod summed;
mod summing;

pub use gen_command::{GenWords, Made, PACKETS, gen_of_words, generate};
pub use summed::Summary;
pub use summing::{MAX_PACKETS, summary};
