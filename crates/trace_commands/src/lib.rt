//! The commands `trace` and `replay`.
//!
//! `specs/TraceCommand.antt` and `specs/ReplayCommand.antt` have their words, their specs and their outputs;
//! `specs/Replaying.antt` says what the second command tells of what the first wrote.
#![tactic(auto)]

pub mod laws;
mod packet_trace;
pub mod replay_command;
pub mod trace_command;

pub use packet_trace::write_packet_trace;
