//! Packets on their way while the nodes' tables pass from an old description to a new one, event by
//! event.
//!
//! `specs/Moving.antt` says what an event does, `specs/Arriving.antt` which packets stay before the
//! first event, and `specs/Events.antt` what is written of the events and of what is left after
//! them; `drive_update` writes that. `specs/Over.antt` says when nothing is left, and a law is that
//! it is so then. The laws about the definitions are the contracts of empty functions.
#![tactic(auto)]

mod arriving;
mod edit_lines;
mod events;
mod laws;
mod moving;
mod seat;
mod update_driver;

pub use laws::all_packets_end_and_all_edits_are_done;
pub use moving::Sides;
pub use seat::Seat;
pub use update_driver::{Change, drive_update};
