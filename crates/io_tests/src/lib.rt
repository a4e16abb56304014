//! Tests of the crates that read and write: `srx_edge` over real files at their edges, faults in
//! mid-stream and slow ends, and `pcap_io` and `pcapng_io` over captures that are fed in pieces,
//! whose frames and end are the same wherever the bytes are cut.
#![tactic(auto)]

#[cfg(test)]
mod byte_tests;
#[cfg(test)]
mod classic_tests;
#[cfg(test)]
mod host_files_tests;
#[cfg(test)]
mod pcapng_tests;
#[cfg(test)]
mod shown;
#[cfg(test)]
mod slow_tests;
