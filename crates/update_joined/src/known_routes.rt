//! The routes of a description by what tells them from one another, so that an equal one is found
//! without a scan: there may be tens of thousands.

ghost use Rattle.std.specs.Prelude.{◌≡◌, ◌<◌, ◌^◌, ◌∷◌, ◌++◌, [], List, true, length, slice_get, option_and_then, OnOk, IfOk};
ghost use Rattle.std.specs.List.{list_any};
ghost use Rattle.std.specs.BTreeMap as map;
ghost use Rattle.net_model.specs.declared.parts.Route.{Route};
ghost use Rattle.net_model.specs.NetworkRules.{are_distinct, same_route};
ghost use Rattle.update_spec.specs.Equal.{equal_route};
ghost use Rattle.update_joined.specs.RouteKeys.{route_key_cmp, route_key, AreNumbered, equal_at};

use crate::equal::equal_route;
use net_model::{Route, same_family};
use srv6_rules::Family;
use std::alloc::{AllocError, Global};
use std::collections::BTreeMap;

/// What tells a route from others.
#[derive(Clone, Copy, PartialEq, Eq, PartialOrd, Ord)]
pub(crate) struct RouteKey {
    node: u32,
    table: u32,
    is_ipv6: bool,
    address: u128,
    len: u8,
}

/// The numbers of routes by their keys.
pub(crate) type RouteNumbers = BTreeMap<RouteKey, u32>;

/// What tells a route from others.
fn route_key(r: &Route) -> RouteKey
    ensures { result ≡ route_key r.now }
{
    RouteKey {
        node: r.node,
        table: r.table,
        is_ipv6: same_family(r.family, Family::V6),
        address: r.prefix.value().value,
        len: r.prefix.len(),
    }
}

/// The number of a route is put behind those of the routes before.
fn put_route(numbers: &mut RouteNumbers, r: &Route, n: u32) -> Result<(), AllocError>
    ensures { (before : List Route) → n ≡ length before → AreNumbered numbers.old before
        → OnOk result (AreNumbered numbers.new (before ++ r.now ∷ [])) }
{
    numbers.insert(route_key(r), n)?;
    Ok(())
}

/// The numbers of routes.
#[tactic(auto, using(crate::proofs::RouteNumbers::none_numbered))]
pub(crate) fn number_routes(alloc: Global, routes: &[Route]) -> Result<RouteNumbers, AllocError>
    requires { length routes.now < 2 ^ 32 }
    ensures { IfOk result (λ numbers. AreNumbered numbers routes.now) }
{
    let mut numbers = BTreeMap::new(alloc);
    for (i, r) in routes.iter().enumerate() {
        put_route(&mut numbers, r, i as u32)?;
    }
    Ok(numbers)
}

/// The number of a route that is the same.
fn number_of(numbers: &RouteNumbers, q: &Route) -> Option<u32>
    ensures { result ≡ map.get route_key_cmp numbers.now (route_key q.now) }
{
    match numbers.get(&route_key(q)) {
        None => None,
        Some(n) => Some(*n),
    }
}

/// Whether the route with a number is equal to this one.
fn equal_at(routes: &[Route], n: Option<u32>, q: &Route) -> bool
    ensures { result ≡ equal_at q.now (option_and_then (slice_get routes.now) n) }
{
    match n {
        None => false,
        Some(n) => match routes.get(n as usize) {
            None => false,
            Some(r) => equal_route(q, r),
        },
    }
}

/// Whether one of the routes is equal to this one.
pub(crate) fn has_equal(numbers: &RouteNumbers, routes: &[Route], q: &Route) -> bool
    requires numbers { AreNumbered numbers.now routes.now }
    requires distinct { are_distinct same_route routes.now ≡ true }
    ensures { result ≡ list_any (equal_route q.now) routes.now }
{
    equal_at(routes, number_of(numbers, q), q)
}
