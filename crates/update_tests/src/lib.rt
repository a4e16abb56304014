//! Tests of updates in flight, over what their crates make public: sequences of packets that enter,
//! turns and edits, by hand. Here they are proved once, and the crates aren't proved again with
//! their tests.
#![tactic(auto)]

#[cfg(test)]
mod networks;
#[cfg(test)]
mod sid_tests;
#[cfg(test)]
mod update_tests;
