//! The commands `compile` and `check`.
//!
//! `specs/CompileCommand.antt` and `specs/CheckCommand.antt` have their words, their specs and their outputs;
//! `specs/Printed.antt` says what the second command tells of what the first printed.
#![tactic(auto)]

pub mod check_command;
pub mod compile_command;
pub mod compiled_lists;
pub mod laws;
