//! The protocol of the resident engine: requests and replies as values, and how JSON lines write
//! them.
//!
//! A line is one JSON object, read and written by `serde_json`. `read_request` gives what a line asks
//! for, or its first fault in one written order, and the id by which its reply goes;
//! `write_reply` gives the bytes of a reply. Nothing here knows of networks: descriptions, intents
//! and plans stay texts.
#![tactic(auto)]

mod answer_values;
mod asked;
mod choices;
mod field;
mod figures;
mod id;
mod kind;
mod laws;
mod limits;
mod line;
mod listed;
mod object;
mod packet;
mod reply;
mod request;
#[cfg(test)]
mod tests;
mod text;
mod verb;
mod write;

pub use choices::Choices;
pub use field::Field;
pub use figures::limits_have_their_figures;
pub use id::Id;
pub use laws::ids_are_given_back;
pub use limits::{MAX_CHOICES, MAX_ID_BYTES};
pub use line::{ReadLine, read_request};
pub use object::RequestError;
pub use packet::Packet;
pub use reply::{
    Answer, Cause, Compiled, Held, Judged, ListReply, PathSid, RealizedReply, Reply, ReplyError,
};
pub use request::{
    Compile, Judge, Load, Request, RequestFault, Routes, TextSource, Trace, Without,
};
pub use text::Text;
pub use verb::Verb;
pub use write::write_reply;
