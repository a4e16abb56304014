//! Tests of `line_talk` over its client in memory: lines in pieces of any size, and calls that fail
//! in turn.
#![tactic(auto)]

#[cfg(test)]
mod counting;
#[cfg(test)]
mod talk_tests;
