//! What commands have to say, and what they leave.
//!
//! What is written is a list of pieces, each for `out` or for `err`, in order, and a status
//! (`specs/OutputPieces.antt`). A command's spec (`specs/CommandSpec.antt`) says which files it asks for,
//! whether it reads the input, and which outputs are wanted of them; `Commands` of
//! `specs/CommandAnswers.antt` says what a command of a spec leaves before its last line is written.
//! Here are also the refusals with their lines, the lines of packets, the statuses, and the step
//! that writes bytes to a sink.
#![tactic(auto)]

mod conclusion;
mod entry_name;
pub mod figures;
mod halt;
pub mod laws;
mod limits;
mod lines;
mod node_name;
mod pool;
mod refusal;
mod sinks;
mod status;
mod unread;
mod verbs;

pub use conclusion::{Conclusion, Judgement, Text};
pub use entry_name::EntryName;
pub use halt::{Failure, Halt};
pub use limits::{MAX_INPUT_BYTES, MOST_WAITING};
pub use lines::{line_of_refusal, write_packet_line, write_unread_line};
pub use node_name::NodeName;
pub use pool::Pool;
pub use refusal::{Refusal, refusal_of_not_flat};
pub use sinks::write_all;
pub use status::Status;
pub use unread::Unread;
pub use verbs::{TwoWords, two_words_after};
