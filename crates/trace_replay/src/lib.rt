//! Traces of walks as text: written, read, and run again.
//!
//! A trace has a first line, for each packet a line with its bytes as it enters and then a line for
//! each stage, and a last line. `print_head`, `print_packet`, `print_event`, `print_stages` and
//! `print_end` write one line each, as `specs/TraceLines.antt` has it. `read_trace` reads a text by the
//! grammar of `specs/TraceGrammar.antt`, or tells its first bad line. `replay` runs each packet again
//! and tests its lines one by one, as `specs/Replays.antt` says.
#![tactic(auto)]

mod laws;
mod line;
mod line_judge;
mod numbers;
mod print;
mod replay_flight;
mod stage_words;
mod state;
mod trace_reading;
mod trace_words;
mod verdict;

pub use laws::{
    a_line_is_right_where_an_outcome_has_it, a_packet_is_written_stage_by_stage,
    an_outcome_names_what_is_there, printed_traces_replay, right_lines_are_passed,
    what_is_not_finished_is_refused, what_is_written_is_accepted,
};
pub use numbers::number_of_word;
pub use print::{is_numbered, print_end, print_event, print_head, print_packet, print_stages};
pub use trace_reading::{Trace, TraceFault, read_trace};
pub use verdict::{ReplayFault, Replayed, replay};
