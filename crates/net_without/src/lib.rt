//! Networks without parts: some links are down, and with some nodes all links from and to them.
//!
//! Blocks, nodes, links and policies stay, with their numbers. Routes and SIDs keep those of their
//! links that are up; one that had links and has none left is gone, a SID with its title. `without`
//! gives such a network, which keeps all rules of networks, so its building is never refused.
#![tactic(auto)]

mod laws;
mod leaving_out;
mod left;
mod up;

pub use laws::{networks_left_keep_the_rules, networks_left_look_up_what_is_left};
pub use leaving_out::without;
