//! The headers of captured packets as lines of text.
//!
//! `lines_of_packet` reads bytes as a packet of a family. Of an IPv6 packet it goes along the chain
//! of extension headers and writes a line or more of each, of an IPv4 packet it writes one line.
//! `specs/HeaderLines.antt` says what is written.
#![tactic(auto)]

mod chain_lines;
mod header_fields;
mod packet_lines;
mod routing_lines;

pub use packet_lines::lines_of_packet;
