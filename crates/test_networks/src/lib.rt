//! The network of four nodes in a row that tests of several crates share, as texts of a description,
//! and a packet on its way through it.
#![tactic(auto)]

mod packet;
mod row;

pub use packet::{ENTERS, LOWERED, STEPPED};
pub use row::{NEXT_SIDS, ROW};
