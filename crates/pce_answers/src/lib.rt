//! What the resident engine answers of one network that it holds.
//!
//! `HeldNet` is a network whose flatness was tested once, when it came to be held. `compile_answer`,
//! `judge_answer` and `trace_answer` give the replies to requests about it, and `told` what is told
//! of it when it comes to be held, as `specs/NetAnswers.antt` and `specs/JudgeAnswers.antt` have
//! them. Nothing here knows of names by which networks are held, or of JSON.
#![tactic(auto)]

mod compiled_list;
mod compiling;
mod held_net;
mod judging;
mod texts;
mod tracing;
mod why;

pub use compiling::compile_answer;
pub use held_net::HeldNet;
pub use judging::judge_answer;
pub use tracing::trace_answer;
pub use why::why_refused;
