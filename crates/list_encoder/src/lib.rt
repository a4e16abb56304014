//! The search for the least list of SIDs, over any legs.
//!
//! `solve` gives the least cost of a path to the end for each state from which one leads there, and
//! of all least paths from the start the first. It goes over positions from the last to the first.
//! At each it lowers the costs of the position's states by the finishes and by the legs to later
//! positions, once. Then each state is settled once, the one with the least cost first, and those
//! in front of it are lowered by the legs within the position.
#![tactic(auto)]

mod cell_table;
mod cells;
pub mod figures;
mod grouped;
mod least_costs;
mod listing;
mod lowering;
mod offers;
mod picks;
mod search;
mod search_path;
mod waiting;

pub use cell_table::MAX_PATH_CONTAINERS;
pub use search::solve;
