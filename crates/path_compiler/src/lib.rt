//! Least lists of segments over legs, and what certificates show of them.
//!
//! `compile_over` searches the legs of an intent for the least path of SIDs from the start to the
//! end: of all legal lists of SIDs that realize what the legs are for, whichever equal next hop is
//! chosen, one of the fewest containers, then of the fewest SIDs where the legs count them, then of
//! the smallest need, and of those that are equal in all and all of whose SIDs are executed the
//! first in the order of paths; so no other needs fewer header bytes. It gives that list with its
//! SIDs, the bytes of its header, the hop limit that it needs, and what the search found.
//! `checked_over` says what a certificate from anywhere shows over them. The functions of `laws` do
//! nothing: their contracts say that the certificate of what the search found tells what was
//! compiled. `intent_compiler` builds the legs that an intent asks for.
#![tactic(auto)]

mod certificates;
mod compiled;
mod compiling;
pub mod laws;

pub use certificates::checked_over;
pub use compiled::{CompileFault, Compiled};
pub use compiling::compile_over;
