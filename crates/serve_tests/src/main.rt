//! Tests of `serve` where the outside fails, is slow or never fails, by files, an input and sinks
//! in memory; at the limits; of schedules of two packets; and of the sums of `gen` over any intent. What whole
//! commands write stands in the rows of the crate `worked_rows`. Here the tests are proved once,
//! and `srv6_cli` isn't proved again with them. It is a program, which does nothing, and no library,
//! since some versions of the gate take a library's sum along each path to the crates below it.
#![tactic(auto)]

#[cfg(test)]
mod fault_tests;
#[cfg(test)]
mod gen_tests;
#[cfg(test)]
mod limit_tests;
#[cfg(test)]
mod outside;
#[cfg(test)]
mod schedule_tests;
#[cfg(test)]
mod slow_tests;
#[cfg(test)]
mod tunnel;

/// Does nothing: the tests are all that there is.
fn main(rt: HostRuntime) {
    let _ = rt;
}
