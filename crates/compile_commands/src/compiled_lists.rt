//! What an intent is compiled to, for the commands that stand on it.

pub use crate::compile_command::{line_of_hop_limit, line_of_none, line_of_too_long};
pub use intent_compiler::compile as least_list;
