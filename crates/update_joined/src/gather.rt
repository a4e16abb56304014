//! The entries of a description, with the knowledge of what another description has.

ghost use Rattle.std.specs.Prelude.{◌≡◌, ◌-◌, ◌<◌, ◌^◌, ◌++◌, true, length, OnOk, IfOk};
ghost use Rattle.std.specs.List.{list_any, filter};
ghost use Rattle.net_model.specs.NetworkTerms.{network_of};
ghost use Rattle.net_model.specs.NetworkRules.{are_distinct, same_route};
ghost use Rattle.update_spec.specs.Equal.{equal_route};
ghost use Rattle.update_spec.specs.Joined.{is_new_route, is_new_sid};
ghost use Rattle.update_joined.specs.RouteKeys.{AreNumbered};
ghost use Rattle.update_joined.specs.JoinedEntries.{is_added, entries_from, route_entry, sid_entry, address_entry, entries_of, AreFew};

use crate::entry::PlanEntry;
use crate::equal::is_in_both;
use crate::known_routes::{RouteNumbers, has_equal, number_routes};
use net_model::{EntryId, NetParts, Node, Route, address_prefix};
use srv6_rules::Family;
use std::alloc::{AllocError, Global};

/// The routes are put behind the entries, each with whether the others have an equal one.
#[tactic(auto, using(crate::proofs::Meant::pushed_one))]
fn push_routes(
    entries: &mut Vec<PlanEntry>,
    own: &[Route],
    numbers: &RouteNumbers,
    others: &[Route],
) -> Result<(), AllocError>
    requires few { length own.now < 2 ^ 32 - 1 }
    requires numbers { AreNumbered numbers.now others.now }
    requires distinct { are_distinct same_route others.now ≡ true }
    ensures { OnOk result (entries.new.items ≡ entries.old.items
        ++ entries_from (route_entry (λ r. list_any (equal_route r) others.now)) 0 own.now) }
{
    let mut n = 0u32;
    let mut rest = own;
    while let [r, more @ ..] = rest {
        let kept = has_equal(numbers, others, r);
        entries.push(PlanEntry {
            id: EntryId::Route(n),
            node: r.node,
            table: r.table,
            family: r.family,
            prefix: r.prefix,
            title: None,
            kept,
        })?;
        n += 1;
        rest = more;
    }
    Ok(())
}

/// The SIDs are put behind the entries, each with whether the others have an equal one.
#[tactic(auto, using(crate::proofs::Meant::pushed_one))]
fn push_sids(
    entries: &mut Vec<PlanEntry>,
    own: &NetParts,
    other: &NetParts,
) -> Result<(), AllocError>
    requires { length (network_of own.now).sids < 2 ^ 32 - 1 }
    ensures { OnOk result (entries.new.items ≡ entries.old.items
        ++ entries_from (sid_entry (is_new_sid (network_of own.now) (network_of other.now))) 0
        (network_of own.now).sids) }
{
    let mut n = 0u32;
    let mut rest = own.sids.as_slice();
    while let [s, more @ ..] = rest {
        let kept = is_in_both(own, other, s);
        entries.push(PlanEntry {
            id: EntryId::Sid(n),
            node: s.node,
            table: 0,
            family: Family::V6,
            prefix: s.prefix,
            title: s.title,
            kept,
        })?;
        n += 1;
        rest = more;
    }
    Ok(())
}

/// The nodes' addresses are put behind the entries.
#[tactic(auto, using(crate::proofs::Meant::pushed_one))]
fn push_addresses(entries: &mut Vec<PlanEntry>, nodes: &[Node]) -> Result<(), AllocError>
    requires { length nodes.now < 2 ^ 32 - 1 }
    ensures { OnOk result (entries.new.items ≡ entries.old.items
        ++ entries_from address_entry 0 nodes.now) }
{
    let mut n = 0u32;
    let mut rest = nodes;
    while let [node, more @ ..] = rest {
        entries.push(PlanEntry {
            id: EntryId::Address(n),
            node: n,
            table: 0,
            family: Family::V6,
            prefix: address_prefix(node.address),
            title: None,
            kept: true,
        })?;
        n += 1;
        rest = more;
    }
    Ok(())
}

/// The entries of a description, routes before SIDs before addresses, each with whether the other
/// description has an equal one.
pub(crate) fn entries_of(
    alloc: Global,
    own: &NetParts,
    other: &NetParts,
) -> Result<Vec<PlanEntry>, AllocError>
    requires own { AreFew (network_of own.now) }
    requires other { AreFew (network_of other.now) }
    requires distinct { are_distinct same_route (network_of other.now).routes ≡ true }
    ensures { IfOk result (λ entries. entries.items ≡ entries_of (is_new_route (network_of other.now))
        (is_new_sid (network_of own.now) (network_of other.now)) (network_of own.now)) }
{
    let numbers = number_routes(alloc, other.routes.as_slice())?;
    let mut entries = Vec::new(alloc);
    push_routes(
        &mut entries,
        own.routes.as_slice(),
        &numbers,
        other.routes.as_slice(),
    )?;
    push_sids(&mut entries, own, other)?;
    push_addresses(&mut entries, own.nodes.as_slice())?;
    Ok(entries)
}

/// Those of the entries that the other description lacks.
#[tactic(auto, using(crate::proofs::Meant::pushed_one))]
pub(crate) fn added_of(alloc: Global, entries: &[PlanEntry]) -> Result<Vec<PlanEntry>, AllocError>
    ensures { IfOk result (λ added. added.items ≡ filter is_added entries.now) }
{
    let mut added = Vec::new(alloc);
    let mut rest = entries;
    while let [e, more @ ..] = rest {
        if !e.kept {
            added.push(*e)?;
        }
        rest = more;
    }
    Ok(added)
}
