//! Tests of crates from `v6_addr` to `icmp6_errors` that have to do with addresses and headers in
//! bytes, in a file that is named for the crate: what neither their clauses nor the worked rows
//! show. What a packet at a SID takes stands in `packets`.
#![tactic(auto)]

#[cfg(test)]
mod decap_behaviours_tests;
#[cfg(test)]
mod end_behaviours_tests;
#[cfg(test)]
mod icmp6_errors_tests;
#[cfg(test)]
mod ip6_headers_tests;
#[cfg(test)]
mod packets;
#[cfg(test)]
mod v6_addr_tests;
