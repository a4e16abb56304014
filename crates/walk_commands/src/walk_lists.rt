//! What an intent is compiled to, for the commands that stand on it.

pub use compile_commands::compiled_lists::{
    least_list, line_of_hop_limit, line_of_none, line_of_too_long,
};
