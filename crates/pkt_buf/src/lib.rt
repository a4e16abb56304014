//! A packet's bytes in a buffer with spare bytes in front of them.
//!
//! A `PktBuf` is seen as its bytes and the count of the spare ones. What is put in front of the
//! packet takes no memory where the spare bytes are enough.
#![tactic(auto)]

mod pkt_buf;

pub use pkt_buf::PktBuf;
