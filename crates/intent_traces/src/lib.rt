//! Traces that keep to steps, where a step may be to reach a node over any links.
//!
//! A trace is what a walk crosses and executes, in order. It splits into parts, one for each step:
//! one link of a set, one function, or the links up to the first that leads to a node. The words
//! (`specs/Traces.antt`) are over steps, events, and a function `to`, the node where a link ends,
//! none where it leads out of the network; so they know of no network.
//!
//! How many steps are left is all that a walk has to know of its past: a reach that has begun and
//! one that has not are one state. `left_behind_link` goes from one state to the next. A crate
//! whose steps have a type of its own maps them to `TraceStep`, links and functions as they are and a
//! step `{ reach = "NODE" }` to `Reach` of the node's number. Where no step is a reach this is what
//! it is for steps of one event each.
#![tactic(auto)]

mod laws;
mod trace_steps;

pub use laws::{left_steps_are_a_state, strict_steps_meet_one_event_each, traces_split_in_one_way};
pub use trace_steps::{TraceStep, left_behind_link};
