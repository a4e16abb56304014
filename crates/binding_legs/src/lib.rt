//! The legs of an intent through binding SIDs.
//!
//! `BindingLegs` is the table of strict legs with an origin for each position and SID: from where a
//! packet goes on behind that SID, which is behind the whole walk of the header that it pushes
//! where it binds a policy. `build` runs each such header once; a leg and a finish are the way from
//! the origin to the next SID, as behind any other.
//!
//! `specs/BindingTable.antt` says what the table holds; what a search sees of it stands in
//! `binding_spec`.
#![tactic(auto)]

mod binding_legs;
mod binding_rows;

pub use binding_legs::BindingLegs;
