//! Vertices, what is found at them, and starts.
use base::Seq;

/// What a packet meets at a vertex of a graph.
#[derive(Debug, Drop)]
pub enum Vertex {
    /// It is lost: dropped, taken by a node's own address, or out of turn.
    Lost,
    /// It stops, with an answer: a number that tells one end from another.
    Stop(u32),
    /// It goes on to one of these vertices, by their numbers from 0, over one of a set of equal next
    /// hops; the set has one for each next hop, and the same vertex may stand in it more than once.
    Over(Seq<u32>),
}

/// What is found at a vertex from which all choices come to one answer.
#[derive(Clone, Copy, Debug, PartialEq, Eq)]
pub struct Found {
    /// The greatest number of times that the hop limit is lowered on the way, over all choices.
    pub most: u32,
    /// The answer of all choices.
    pub answer: u32,
}

/// A start in front of a graph, as a packet that its node has just made or updated.
#[derive(Debug, Drop)]
pub struct FirstMove {
    /// The first move lowers the hop limit, as every later one does.
    pub lowers: bool,
    /// What the packet meets first.
    pub vertex: Vertex,
}
