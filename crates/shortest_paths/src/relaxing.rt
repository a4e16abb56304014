//! What a settled node gives to those with a link to it.

ghost use Rattle.std.specs.Prelude.{◌≡◌, ◌+◌, ◌<◌, ◌≤◌, ◌^◌, ◌∷◌, [], ℕ, length, Some, All, MatchBool};
ghost use Rattle.shortest_paths.specs.Settling.{AtMost, Relaxes};
ghost use Rattle.shortest_paths.specs.Walks.{IsLink};

use crate::links::Link;

/// Says whether a sum of metrics is less than what is known.
fn is_below(sum: u64, entry: Option<u64>) -> bool
    ensures { MatchBool result ((d : ℕ) → entry ≡ Some d → sum ≤ d) (AtMost entry sum) }
{
    match entry {
        None => true,
        Some(known) => sum < known,
    }
}

/// Lowers the entry of a link's near end to what the link gives, where that is less.
fn relax_link(entries: &mut [Option<u64>], link: Link, distance: u64)
    requires within { link.from < length entries.old }
    requires fits { link.metric + distance < 2 ^ 64 }
    ensures { Relaxes (link ∷ []) distance entries.old entries.new }
{
    let sum = u64::from(link.metric) + distance;
    let near = link.from as usize;
    if is_below(sum, entries[near]) {
        entries[near] = Some(sum);
    }
}

/// Lowers the entries of the near ends of all links into a node at this distance, a sum of metrics.
pub fn relax_links(entries: &mut [Option<u64>], into: &[Link], distance: u64)
    requires links { All (IsLink (length entries.old)) into.now }
    requires fits { 4294967295 + distance < 2 ^ 64 }
    ensures { Relaxes into.now distance entries.old entries.new }
{
    for link in into {
        relax_link(entries, *link, distance);
    }
}
