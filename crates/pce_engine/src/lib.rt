//! The resident engine: networks that are held by names, and the reply to each line.
//!
//! `Pce` answers lines as `specs/EngineReplies.antt` has it: what each request gives, by the networks
//! that are held and by the files, and what it leaves of both. No request changes a network that it
//! doesn't name, and after want of memory all networks are held as they were. What is answered of
//! one network is `pce_answers`' work, and how lines write requests and replies `pce_protocol`'s.
#![tactic(auto)]

mod asking;
mod copying;
mod doing;
mod done;
mod engine;
mod figures;
mod holding;
mod laws;
mod leaving;
mod limits;
mod loading;
mod lookups;
mod networks;

pub use engine::Pce;
pub use figures::limits_have_their_figures;
pub use laws::{networks_are_found_until_they_are_dropped, other_networks_stay};
pub use limits::{MAX_NETWORKS, MAX_TEXT};
pub use networks::{Holding, Networks};
