//! Links and their limits.

ghost use Rattle.std.specs.Prelude.{◌↔◌, IsTrue};
ghost use Rattle.shortest_paths.specs.Walks.{IsLink, IsNetwork};

/// The most nodes of a network; each sum of metrics along a least walk stays below 2^40 by it.
pub const MAX_NODES: u32 = 256;

/// The most links of a network.
pub const MAX_LINKS: usize = 4096;

/// A link from a node to a node, or out of the network. A cable is two of them, which may have
/// different metrics.
#[derive(Clone, Copy, Debug, PartialEq, Eq)]
pub struct Link {
    /// The node that it leads from, by its number from 0.
    pub from: u32,
    /// The node that it leads to, by its number from 0; with none it leaves the network.
    pub to: Option<u32>,
    /// What it adds to a walk's cost, from 1 on.
    pub metric: u32,
}

/// Says whether a link is from one of so many nodes, to one of them or out of the network, with a
/// metric of at least 1.
fn is_link(nodes: u32, link: &Link) -> bool
    ensures { IsTrue result ↔ IsLink nodes link.now }
{
    let arrives = match link.to {
        Some(far) => far < nodes,
        None => true,
    };
    link.from < nodes && arrives && link.metric >= 1
}

/// Says whether so many nodes and these links are a network: at most `MAX_NODES` and `MAX_LINKS`,
/// and each link from one of the nodes, to one of them or out of the network, with a metric of at
/// least 1.
pub fn is_network(nodes: u32, links: &[Link]) -> bool
    ensures { IsTrue result ↔ IsNetwork nodes links.now }
{
    nodes <= MAX_NODES && links.len() <= MAX_LINKS && links.iter().all(|link| is_link(nodes, link))
}
