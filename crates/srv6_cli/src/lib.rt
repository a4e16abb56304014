//! The command line of `srv6`: words, files and input to output and a status.
//!
//! `specs/Serves.antt` says what a call of `serve` leaves, and `serve` is proved to do that over
//! any files, source and sinks. A command is one file of code and one of definitions, named for
//! it, in the crate of its kind: its words, its spec and its output. `specs/CommandWords.antt`,
//! `specs/Commands.antt` and `commands` have a line or two of each. `specs/Headline.antt` says what a
//! run of `walk` shows, which `the_headline` proves of every call.
#![tactic(auto)]

mod commands;
pub mod headline;
pub mod laws;
mod serving;

pub use command_output::{MAX_INPUT_BYTES, NodeName, Refusal, Status};
pub use generate_commands::{MAX_PACKETS, Summary, summary};
pub use serving::serve;
