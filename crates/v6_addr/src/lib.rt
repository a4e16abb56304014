//! Addresses and prefixes, their bit fields and their texts (RFC 4291 section 2, RFC 5952
//! section 4; for IPv4 RFC 6943 section 3.1.1).
//!
//! Nothing here takes memory. An address is a number below 2 to the 128, and bit 0 is its highest
//! bit. An IPv4 address stands in the top 32 bits, and the others are 0.
#![tactic(auto)]

mod address;
mod address_kind;
mod bit_laws;
mod bits;
mod display;
mod errors;
mod groups;
mod laws;
mod length;
mod parse;
mod prefix;
mod prefix4;
mod scan;
mod scan4;
mod text;
mod text4;
mod write;

pub use address::Addr;
pub use bit_laws::{bits_are_cut_and_put, fields_and_prefixes, numbers_agree_above_and_below};
pub use bits::{field, with_field};
pub use errors::BadAddr;
pub use laws::{
    address_grammar, address_reads_back, address4_grammar, address4_reads_back, fields_apart,
    longest_run_rule, prefix_grammar, prefix_reads_back, prefix_tests, prefixes_nest,
    texts4_are_read,
};
pub use prefix::Prefix;
pub use prefix4::parse_prefix4;
pub use text::{parse_addr, parse_prefix};
pub use text4::{parse_addr4, write_addr4};
pub use write::{write_addr, write_prefix};
