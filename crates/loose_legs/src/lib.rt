//! The legs of an intent along steps of which some may be loose.
//!
//! `LooseLegs` has for each position of an intent the SIDs that may be executed there, and what
//! leads on from each of them to each next SID, whichever equal next hop is chosen. `build` finds
//! that in the graph of each SID's first address: a table with one entry for each node and number
//! of steps left (`find_ways` of `loose_walks`), and then one look-up from each position and SID. So
//! a leg, a finish and a shape that a search asks for (`Legs` of `list_pack`) is a look-up in a
//! table. They mean the lists that realize the steps (`ListLegs`), as `loose_meaning_theory` says it.
//!
//! `specs/IntentSteps.antt` says which steps these are for an intent, `specs/LooseTable.antt` what
//! the tables hold; legs and finishes themselves, and what a search sees of them, stand in
//! `loose_spec`. The function of `laws` does nothing: its contract is the law that an intent's steps
//! are steps.
#![tactic(auto)]

mod intent_steps;
mod laws;
mod loose_legs;
mod loose_rows;
mod onwards;

pub use laws::steps_of_an_intent_are_steps;
pub use loose_legs::LooseLegs;
