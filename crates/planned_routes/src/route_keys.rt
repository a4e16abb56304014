//! The routes that are there, as a set.

ghost use Rattle.std.specs.Prelude.{◌≡◌, ◌∷◌, ◌++◌, [], List, IfOk, OnOk, not};
ghost use Rattle.net_model.specs.declared.parts.Route.{Route};
ghost use Rattle.net_model.specs.NetworkRules.{same_route};
ghost use Rattle.net_model.specs.NetworkJudging.{stands_before};
ghost use Rattle.planned_routes.specs.RouteKeys.{HasKeys, route_key};

use base::NoMemory;
use net_model::{Route, same_family};
use srv6_rules::Family;
use std::alloc::Global;
use std::collections::BTreeSet;

/// What tells a route from others.
#[derive(Clone, Copy, PartialEq, Eq, PartialOrd, Ord)]
pub(crate) struct RouteKey {
    node: u32,
    table: u32,
    is_ipv6: bool,
    address: u128,
    len: u8,
}

/// What tells this route from others.
fn route_key(r: &Route) -> RouteKey
    ensures { result ≡ route_key r.now }
{
    RouteKey {
        node: r.node,
        table: r.table,
        is_ipv6: same_family(r.family, Family::V6),
        address: r.prefix.value().value,
        len: r.prefix.len(),
    }
}

/// Puts a route to those that are there, and says whether none of its node, table and prefix was.
pub(crate) fn put_new(keys: &mut BTreeSet<RouteKey>, r: &Route) -> Result<bool, NoMemory>
    ensures told { (there : List Route) → HasKeys keys.old there
        → IfOk result (λ is_new. not is_new ≡ stands_before same_route there r.now) }
    ensures kept { (there : List Route) → HasKeys keys.old there
        → OnOk result (HasKeys keys.new (there ++ r.now ∷ [])) }
{
    Ok(keys.insert(route_key(r))?)
}

/// What tells the routes that are there from others.
#[tactic(auto, using(crate::proofs::KeySets::no_keys))]
pub(crate) fn keys_of(alloc: Global, there: &[Route]) -> Result<BTreeSet<RouteKey>, NoMemory>
    ensures { IfOk result (λ keys. HasKeys keys there.now) }
{
    let mut keys = BTreeSet::new(alloc);
    for route in there {
        put_new(&mut keys, route)?;
    }
    Ok(keys)
}
