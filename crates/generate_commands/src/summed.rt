//! The numbers of a summary.

/// What a network, an intent, its list and the walks of generated packets come to.
#[derive(Clone, Copy, Debug, PartialEq, Eq)]
pub struct Summary {
    /// The network's nodes.
    pub nodes: u32,
    /// The network's links.
    pub links: u32,
    /// The network's routes.
    pub routes: u32,
    /// The network's SIDs.
    pub sids: u32,
    /// The list's containers of 16 bytes.
    pub containers: u32,
    /// The bytes in front of the inner packet.
    pub header: u64,
    /// How often the outer hop limit is lowered on the way.
    pub need: u32,
    /// The packets that were generated.
    pub packets: u32,
    /// How often a node sent one of them over a link.
    pub frames: u32,
    /// How many of them left the network.
    pub left: u32,
}
