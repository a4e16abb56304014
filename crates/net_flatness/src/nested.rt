//! The refusal of entries that lie strictly inside a SID and are not nested in it.

ghost use Rattle.std.specs.Prelude.{◌≡◌, Ok, OnOk, IfOk, IsTrue, true, false, map, find};
ghost use Rattle.std.specs.List.{filter, list_any};
ghost use Rattle.std.specs.Option.{option_map};
ghost use Rattle.prefix_table.specs.PrefixTable.{HasAround};
ghost use Rattle.net_model.specs.NetworkTerms.{network_of};
ghost use Rattle.net_flatness.specs.Flat.{is_ipv6_route, address_prefix, entry_prefix, nested, pair_or, no_nested, NoneNested};
ghost use Rattle.net_flatness.specs.Search.{sid_prefix, route_prefix, first_inside, is_nested_sid, is_wrongly_in, first_nested, first_refused, GetsPrefix, HaveTheirPrefixes, NoneAround, NestsWell, AllNestWell, Unless};

use crate::nests::is_nest;
use crate::not_flat::NotFlat;
use base::NoMemory;
use net_model::{NetParts, Node, Route, address_prefix, same_family};
use prefix_table::{Table, TableFault};
use srv6_rules::{Family, SidEntry};
use std::alloc::Global;
use v6_addr::Prefix;

/// Whether a SID lies strictly inside another and is not nested in it.
fn is_nested_sid(parts: &NetParts, outer: &SidEntry, inner: &SidEntry) -> bool
    ensures { result ≡ is_nested_sid (network_of parts.now) outer.now inner.now }
{
    inner.prefix.inside(&outer.prefix) && !is_nest(parts, outer, inner)
}

fn first_sid_inside(outer: &SidEntry, parts: &NetParts) -> Option<Prefix>
    ensures { result ≡ option_map sid_prefix
        (find (is_nested_sid (network_of parts.now) outer.now) (network_of parts.now).sids) }
{
    parts
        .sids
        .iter()
        .find(|s| is_nested_sid(parts, outer, s))
        .map(|s| s.prefix)
}

fn first_route_inside(outer: &Prefix, routes: &[Route]) -> Option<Prefix>
    ensures { result ≡ first_inside outer.now (map route_prefix (filter is_ipv6_route routes.now)) }
{
    routes
        .iter()
        .filter(|r| same_family(r.family, Family::V6))
        .map(|r| r.prefix)
        .find(|p| p.inside(outer))
}

fn first_address_inside(outer: &Prefix, nodes: &[Node]) -> Option<Prefix>
    ensures { result ≡ first_inside outer.now (map address_prefix nodes.now) }
{
    nodes
        .iter()
        .map(|n| address_prefix(n.address))
        .find(|p| p.inside(outer))
}

/// The first entry that lies strictly inside a SID and is not nested in it.
fn first_entry_inside(outer: &SidEntry, parts: &NetParts) -> Option<Prefix>
    ensures { result ≡ option_map entry_prefix (first_nested (network_of parts.now) outer.now) }
{
    let sid = first_sid_inside(outer, parts);
    let route = first_route_inside(&outer.prefix, parts.routes.as_slice());
    let address = first_address_inside(&outer.prefix, parts.nodes.as_slice());
    sid.or(route.or(address))
}

/// Refuses the first entry that lies strictly inside a SID and is not nested in it.
fn refuse_nested_in(outer: &SidEntry, parts: &NetParts) -> Result<(), NotFlat>
    ensures { result ≡ pair_or nested outer.now (first_nested (network_of parts.now) outer.now)
        (Ok tt) }
{
    match first_entry_inside(outer, parts) {
        Some(inner) => Err(NotFlat::Nested {
            outer: outer.prefix,
            inner,
        }),
        None => Ok(()),
    }
}

/// Refuses the first nested pair of the SIDs from one on.
fn refuse_nested(sids: &[SidEntry], parts: &NetParts) -> Result<(), NotFlat>
    ensures { result ≡ first_refused (network_of parts.now) sids.now }
{
    let mut rest = sids;
    while let [s, more @ ..] = rest {
        if let Err(why) = refuse_nested_in(s, parts) {
            return Err(why);
        }
        rest = more;
    }
    Ok(())
}

/// A prefix is put into a table, unless it is there.
fn put_prefix(table: &mut Table<()>, p: Prefix) -> Result<(), NoMemory>
    ensures { OnOk result (GetsPrefix table.old table.new p) }
{
    match table.insert(p, ()) {
        Ok(()) => Ok(()),
        Err(TableFault::Taken { .. }) => Ok(()),
        Err(TableFault::NoMemory) => Err(NoMemory),
    }
}

/// A table of SIDs' prefixes.
fn table_of(alloc: Global, sids: &[SidEntry]) -> Result<Table<()>, NoMemory>
    ensures { IfOk result (HaveTheirPrefixes sids.now) }
{
    let mut table = Table::new(alloc);
    for s in sids {
        put_prefix(&mut table, s.prefix)?;
    }
    Ok(table)
}

/// Whether a SID lies strictly inside one of the SIDs and is not nested in it.
fn nests_badly(parts: &NetParts, inner: &SidEntry) -> bool
    ensures { result ≡ list_any (is_wrongly_in (network_of parts.now) inner.now)
        (network_of parts.now).sids }
{
    parts
        .sids
        .iter()
        .any(|outer| is_nested_sid(parts, outer, inner))
}

/// Whether a SID does, which a table of the SIDs' prefixes often clears at once.
fn is_sid_inside(table: &Table<()>, parts: &NetParts, inner: &SidEntry) -> bool
    requires { HaveTheirPrefixes (network_of parts.now).sids table.now }
    ensures { result ≡ false → NestsWell (network_of parts.now) inner.now }
{
    if !table.has_around(inner.prefix) {
        return false;
    }
    nests_badly(parts, inner)
}

/// Whether some of these SIDs does.
fn has_sid_inside(table: &Table<()>, parts: &NetParts, sids: &[SidEntry]) -> bool
    requires { HaveTheirPrefixes (network_of parts.now).sids table.now }
    ensures { Unless result (AllNestWell (network_of parts.now) sids.now) }
{
    for s in sids {
        if is_sid_inside(table, parts, s) {
            return true;
        }
    }
    false
}

/// Whether a route is of IPv6 and lies strictly inside one of a table's prefixes.
fn is_route_inside(table: &Table<()>, r: &Route) -> bool
    ensures { result ≡ false → is_ipv6_route r.now ≡ true → ¬ HasAround table.now r.now.prefix }
{
    if !same_family(r.family, Family::V6) {
        return false;
    }
    table.has_around(r.prefix)
}

/// Whether an IPv6 route does.
fn has_route_inside(table: &Table<()>, routes: &[Route]) -> bool
    ensures { Unless result (NoneAround table.now route_prefix (filter is_ipv6_route routes.now)) }
{
    for r in routes {
        if is_route_inside(table, r) {
            return true;
        }
    }
    false
}

/// Whether a node's address does.
fn has_address_inside(table: &Table<()>, nodes: &[Node]) -> bool
    ensures { Unless result (NoneAround table.now address_prefix nodes.now) }
{
    for n in nodes {
        if table.has_around(address_prefix(n.address)) {
            return true;
        }
    }
    false
}

/// Whether no entry lies strictly inside a SID that it is not nested in, as far as look-ups in a
/// table tell: not where one does, or where the table gets no memory.
fn are_apart(alloc: Global, parts: &NetParts) -> bool
    ensures { IsTrue result → NoneNested (network_of parts.now) }
{
    let Ok(table) = table_of(alloc, parts.sids.as_slice()) else {
        return false;
    };
    if has_route_inside(&table, parts.routes.as_slice()) {
        return false;
    }
    if has_address_inside(&table, parts.nodes.as_slice()) {
        return false;
    }
    !has_sid_inside(&table, parts, parts.sids.as_slice())
}

/// Refuses the first nested pair, which is searched for only where there may be one.
pub(crate) fn refuse_nested_pair(alloc: Global, parts: &NetParts) -> Result<(), NotFlat>
    ensures { result ≡ no_nested (network_of parts.now) }
{
    if are_apart(alloc, parts) {
        return Ok(());
    }
    refuse_nested(parts.sids.as_slice(), parts)
}
