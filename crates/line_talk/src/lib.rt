//! Lines in, replies out: a program reads lines from its client and answers each before it asks for
//! more than the read in which the line ended.
//!
//! What answers lines is an `Engine`: what it answers to a line may go by a state, which goes on
//! from line to line. The one that gives and takes bytes is a `Client`, whose talk tells what was
//! heard and said when each read came. `serve_client` says what becomes of the talk, for any engine
//! and any client. `HostClient` stands on std's streams, and tells nothing; `MemClient` stands in
//! memory, and tells all.
#![tactic(auto)]

mod buffer;
mod client;
mod desk;
mod engine;
pub mod figures;
mod host_client;
mod line;
mod mem_client;
mod serve;
mod stop;
mod waiting;

pub use client::Client;
pub use engine::{Engine, MAX_LINE};
pub use host_client::HostClient;
pub use mem_client::MemClient;
pub use serve::{PIECE, Status, serve_client};
