//! Costs compared and added, and the order of the steps of paths.

ghost use Rattle.std.specs.Prelude.{◌≡◌, ◌+◌, ◌^◌, ◌<◌, [], ◌∷◌, MatchBool};
ghost use Rattle.list_pack.specs.Costs.{AtMost, plus, move_cost};
ghost use Rattle.list_pack.specs.CostsTerms.{Below};
ghost use Rattle.list_pack.specs.Least.{path_before};

use crate::types::{Cost, PathStep};

/// Whether a cost is below another: by containers first, then by SIDs, then by hops.
pub fn is_below(a: Cost, b: Cost) -> bool
    ensures { MatchBool result (Below a b) (AtMost b a) }
{
    if a.containers != b.containers {
        return a.containers < b.containers;
    }
    if a.sids != b.sids {
        return a.sids < b.sids;
    }
    a.hops < b.hops
}

/// The sum of two costs, whose sums fit 32 bits.
pub fn plus(a: Cost, b: Cost) -> Cost
    requires containers { a.containers + b.containers < 2 ^ 32 }
    requires sids { a.sids + b.sids < 2 ^ 32 }
    requires hops { a.hops + b.hops < 2 ^ 32 }
    ensures { result ≡ plus a b }
{
    Cost {
        containers: a.containers + b.containers,
        sids: a.sids + b.sids,
        hops: a.hops + b.hops,
    }
}

/// What a SID of a path costs that is come to with so many lowerings: a container where it opens a
/// new one, and what a SID costs.
pub fn move_cost(sid_cost: u32, stays: bool, hops: u32) -> Cost
    ensures { result ≡ move_cost sid_cost stays hops }
{
    Cost {
        containers: if stays { 0 } else { 1 },
        sids: sid_cost,
        hops,
    }
}

/// Whether a step comes before another in the order of paths: the lower prefix value first, then
/// the lower length, then staying in the container before a new one.
pub fn step_before(a: &PathStep, b: &PathStep) -> bool
    ensures { result ≡ path_before (a.now ∷ []) (b.now ∷ []) }
{
    let value = a.prefix.value().value;
    let other = b.prefix.value().value;
    if value != other {
        return value < other;
    }
    let len = a.prefix.len();
    let other_len = b.prefix.len();
    if len != other_len {
        return len < other_len;
    }
    a.stays && !b.stays
}
