//! Views and edits of IPv6 headers, and what stands after them: the chain of extension headers,
//! and areas of options (RFC 8200 sections 3 and 4); and views of IPv4 packets (RFC 791).
//!
//! A view reads bytes as a packet, an edit writes a field in its place, and a step goes from one
//! header of the chain to the next. Nothing here takes memory. Places and lengths are in bytes, and
//! a place in a chain is counted from the packet's first byte.
#![tactic(auto)]

mod areas;
mod chain;
mod faults;
mod header_edit;
mod ip4;
mod laws;
mod numbers;
mod view;

pub use areas::{Fault, item_len, options};
pub use chain::{BadChain, ChainPlace, ChainStep, Stands, chain_start, chain_step, stands_at};
pub use faults::ReadFault;
pub use header_edit::Ip6Edit;
pub use ip4::{Ip4View, lower_ttl, read_fault4};
pub use laws::edit_changes_its_field;
pub use numbers::{address_at, four_at, two_at};
pub use view::{Ip6View, read_fault};
