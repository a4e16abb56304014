//! Where packets go, and in which order.

use net_model::Net;

/// A network, the choices that each packet's decisions take, and the order of the packets' stages.
#[derive(Clone, Copy, Drop)]
pub struct Course<'a> {
    /// The network.
    pub net: &'a Net,
    /// Decision d of each packet, counted in its sends from 0, takes the choice at d modulo their
    /// number.
    pub choices: &'a [u32],
    /// An entry gives the packet of that number one stage; after the last one the packets in flight
    /// are walked to their ends in the order of their numbers.
    pub schedule: &'a [u32],
}
