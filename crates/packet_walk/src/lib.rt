//! Packets in flight: each takes its own walk, a stage at a time, in any order of their turns.
//!
//! `Packets` has packets by numbers from 1, in the order in which they entered, and `Flight` has
//! them in one network: `turn` takes one stage of one of them, and `walk` all that are left of it;
//! after `reserve` the stage that `turn_ready` takes wants no memory. `Turns` says whose turn is
//! next by a schedule of the numbers of frames, and after its last entry lets the packets end one
//! after the other. `specs/Flight.antt` says what a turn changes, `specs/Rest.antt` what is left of
//! a walk, and `specs/Schedule.antt` in which order turns are taken.
#![tactic(auto)]

mod event;
mod flight;
mod in_flight;
mod laws;
mod packets;
mod schedule;

pub use event::Event;
pub use flight::Flight;
pub use in_flight::decisions_of;
pub use laws::{
    a_packet_takes_its_own_walk, a_schedule_gives_each_packet_its_walk, a_schedule_takes_all_steps,
    a_turn_changes_one_packet, a_turn_takes_the_next_stage, no_schedule_takes_packets_one_by_one,
    room_changes_no_walk, the_last_stage_ends_a_packet,
};
pub use packets::Packets;
pub use schedule::{Turns, are_rising};
