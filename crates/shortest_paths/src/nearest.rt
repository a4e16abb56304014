//! The node that is settled next.

ghost use Rattle.std.specs.Prelude.{◌≡◌, ◌<◌, length, MatchOption};
ghost use Rattle.shortest_paths.specs.Settling.{IsClosed, IsNearest, IsOpen, NoneIsOpen};
ghost use Rattle.shortest_paths.specs.Nearest.{nearer_of};

/// A node that is not settled, with what is known of its distance.
#[derive(Clone, Copy, Debug)]
pub struct Nearest {
    /// The node's number.
    pub node: usize,
    /// The least cost of a walk that is known from it, a sum of metrics.
    pub distance: u64,
}

/// Reads a node's entry; none where the node is settled or nothing is known of it.
fn read_open(entries: &[Option<u64>], settled: &[bool], node: usize) -> Option<Nearest>
    requires long { length settled.now ≡ length entries.now }
    requires within { node < length entries.now }
    ensures { MatchOption result (IsClosed entries.now settled.now node)
        (λ near. (near.node ≡ node) × IsOpen entries.now settled.now near) }
{
    if settled[node] {
        return None;
    }
    let distance = entries[node]?;
    Some(Nearest { node, distance })
}

/// Chooses the nearer of two nodes, the first where both are as near.
fn choose_nearer(first: Option<Nearest>, second: Option<Nearest>) -> Option<Nearest>
    ensures { result ≡ nearer_of first second }
{
    let Some(a) = first else {
        return second;
    };
    let Some(b) = second else {
        return first;
    };
    if b.distance < a.distance {
        Some(b)
    } else {
        Some(a)
    }
}

/// Finds the nearest node that is not settled, the first of those that are as near; none where
/// nothing is known of any that is not settled.
pub fn find_nearest(entries: &[Option<u64>], settled: &[bool]) -> Option<Nearest>
    requires { length settled.now ≡ length entries.now }
    ensures { MatchOption result (NoneIsOpen entries.now settled.now (length entries.now))
        (IsNearest entries.now settled.now (length entries.now)) }
{
    let mut nearest = None;
    for node in 0..entries.len() {
        nearest = choose_nearer(nearest, read_open(entries, settled, node));
    }
    nearest
}
