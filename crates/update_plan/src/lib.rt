//! Updates in flight: a network passes from an old description to a new one while packets are on
//! their way.
//!
//! `plan` takes both networks, and gives the network that has the entries of both, with those that
//! are added hidden, or the first fault. An `Update` does the plan's edits one by one, each addition,
//! the switch, each removal, between the stages of packets. Packets that enter before the switch are
//! of the old description, and those after it of the new one. `specs/UpdateState.antt` says which tables
//! there are at each moment. The laws about the definitions are the contracts of empty functions.
#![tactic(auto)]

mod edit_fault;
mod laws;
mod planned;
mod planning;
mod update;

pub use edit_fault::EditFault;
pub use laws::{each_packet_takes_one_walk, tables_between_are_both};
pub use planned::Plan;
pub use planning::plan;
pub use update::Update;
