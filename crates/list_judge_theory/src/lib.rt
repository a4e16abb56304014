//! What lists of segments that somebody else made realize, by the legs of an intent: laws and their
//! proofs alone.
//!
//! `specs/ListCourses.antt` says what a course of legs along a list's SIDs is. The functions of `laws`
//! do nothing: their contracts are the laws. Lists are read from their segments in `segment_reading`.
#![tactic(auto)]

pub mod laws;
