//! Why a list of segments doesn't realize an intent.
//!
//! `failure_of` runs nodes on a packet that is encapsulated for the list, under all choices of equal
//! next hops and whatever the outer hop limit, from the execution of one SID of the list to that of
//! the next, and names the first SID that isn't executed for all choices alike, and why.
//! `specs/Causes.antt` has the definition in terms of choices and stages. That the code gives what it
//! says is tested and not proved: the contract says only that the SID is one of the list's.
#![tactic(auto)]

mod cause;
mod crossings;
mod executions;
mod failures;
mod gaps;
mod headend;
mod marks;
mod tunnels;

pub use cause::{Cause, Failure};
pub use failures::failure_of;
