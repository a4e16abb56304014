//! The commands `run` and `show`, and the one driver of packets.
//!
//! `specs/RunCommand.antt` and `specs/ShowCommand.antt` have their words, their specs and their outputs;
//! `specs/Admission.antt` says what is written of packets by what becomes of them before their first
//! stages, and `specs/Scheduled.antt` what they send in the order of a schedule.
#![tactic(auto)]

mod at_node;
mod course;
mod enters;
mod handed_on;
pub mod laws;
mod packet_driver;
mod put_stage;
mod put_walk;
pub mod run_command;
mod scheduled;
pub mod show_command;
mod silent;

pub use course::Course;
pub use enters::{EarlyEnd, Enters, Entrant};
pub use handed_on::refilled;
pub use packet_driver::{drive, put_stays};
pub use put_stage::{put_head, put_sent, take_stage};
pub use silent::Silent;
