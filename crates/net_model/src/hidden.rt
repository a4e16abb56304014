//! Entries that are hidden, and what stands on their prefixes without them.

ghost use Rattle.std.specs.Prelude.{◌≡◌, ◌↔◌, ◌<◌, ◌^◌, [], length, slice_index_or, false, IsTrue, IfOk, OnOk, OnErr, Some};
ghost use Rattle.prefix_table.specs.PrefixTable.{HasPrefix, value_at};
ghost use Rattle.net_model.specs.Network.{is_shown};
ghost use Rattle.net_model.specs.NetworkTerms.{CanHide, CanHideAll, HasFlags, HidesThese, IsMarked, hidden_hits, network_of, network_with};
ghost use Rattle.std.specs.BTreeMap.{IsUnchanged};
ghost use Rattle.net_model.specs.NetworkJudgingTerms.{InRange};
ghost use Rattle.net_model.specs.Best.{entries_of};
ghost use Rattle.net_model.specs.Entries.{IsEntryAs};
ghost use Rattle.net_model.specs.NetworkRulesTerms.{IsNetwork};
ghost use Rattle.net_model.specs.LookupTables.{AreTablesBefore, IsListed, Settles, SettlesIn, entries_from, first_at, first_on, stands_on, table_at, unless_route};

use crate::lookup_tables::{Listed, TableEntry, Tables, table_key};
use crate::net::{EntryId, Hit};
use crate::parts::NetParts;
use crate::rules::{same_family, same_prefix};
use prefix_table::Table;
use std::alloc::{AllocError, Global};
use v6_addr::Prefix;

/// The flags of what is hidden, one for each route and one for each SID.
#[derive(Debug, Drop)]
pub(crate) struct Hidden {
    /// Those of the routes.
    pub routes: Vec<bool>,
    /// Those of the SIDs.
    pub sids: Vec<bool>,
}

/// Nothing is hidden.
pub(crate) fn none_hidden(alloc: Global, parts: &NetParts) -> Result<Hidden, AllocError>
    ensures flags { IfOk result (λ hidden. HasFlags parts.now hidden) }
    ensures none { IfOk result (λ hidden. hidden_hits hidden ≡ []) }
{
    Ok(Hidden {
        routes: vec![in alloc; false; parts.routes.len()]?,
        sids: vec![in alloc; false; parts.sids.len()]?,
    })
}

/// Whether no flag is set.
pub(crate) fn hides_nothing(hidden: &Hidden) -> bool
    ensures { IsTrue result ↔ (hidden_hits hidden.now ≡ []) }
{
    !hidden.sids.contains(&true) && !hidden.routes.contains(&true)
}

/// A flag; one that is not there is not set.
fn flag_of(flags: &[bool], n: u32) -> bool
    ensures { result ≡ slice_index_or flags.now n false }
{
    match flags.get(n as usize) {
        None => false,
        Some(flag) => *flag,
    }
}

/// Whether a hit is not among those that are hidden.
pub(crate) fn is_shown(hidden: &Hidden, hit: Hit) -> bool
    ensures { result ≡ is_shown (hidden_hits hidden.now) hit }
{
    match hit {
        Hit::Sid(n) => !flag_of(hidden.sids.as_slice(), n),
        Hit::Route(n) => !flag_of(hidden.routes.as_slice(), n),
        Hit::Address => true,
        Hit::Nothing => true,
    }
}

/// The flag of a route or a SID is set or cleared.
pub(crate) fn mark(parts: &NetParts, hidden: &mut Hidden, entry: EntryId, flag: bool)
    requires there { CanHide (network_of parts.now) entry }
    requires flags { HasFlags parts.now hidden.old }
    ensures { IsMarked hidden.old hidden.new entry flag }
{
    match entry {
        EntryId::Route(n) => hidden.routes[n as usize] = flag,
        EntryId::Sid(n) => hidden.sids[n as usize] = flag,
        EntryId::Address(_) => {}
    }
}

/// Entries are hidden, and no others.
pub(crate) fn hidden_of(
    alloc: Global,
    parts: &NetParts,
    entries: &[EntryId],
) -> Result<Hidden, AllocError>
    requires { CanHideAll (network_of parts.now) entries.now }
    ensures flags { IfOk result (λ hidden. HasFlags parts.now hidden) }
    ensures these { IfOk result (λ hidden. HidesThese (hidden_hits hidden) entries.now) }
{
    let mut hidden = none_hidden(alloc, parts)?;
    for entry in entries {
        mark(parts, &mut hidden, *entry, true);
    }
    Ok(hidden)
}

/// The entry of a route or a SID.
pub(crate) fn entry_of(parts: &NetParts, entry: EntryId) -> TableEntry
    requires { CanHide (network_of parts.now) entry }
    ensures { IsListed (network_of parts.now) entry result }
{
    match entry {
        EntryId::Route(n) => parts.routes[n as usize].entry(n),
        EntryId::Sid(n) => parts.sids[n as usize].entry(n),
        EntryId::Address(n) => parts.nodes[n as usize].entry(n),
    }
}

/// Whether an entry stands in another's table on its prefix, and is shown.
fn stands_on(hidden: &Hidden, at: &TableEntry, e: &TableEntry) -> bool
    ensures { result ≡ stands_on (hidden_hits hidden.now) at.now e.now }
{
    e.node == at.node
        && e.table == at.table
        && same_family(e.family, at.family)
        && same_prefix(&e.prefix, &at.prefix)
        && is_shown(hidden, e.hit)
}

/// The first of items that is shown and stands in an entry's table on its prefix.
fn first_of<X: Listed>(items: &[X], hidden: &Hidden, at: &TableEntry) -> Option<Hit>
    requires few { length items.now < 2 ^ 32 }
    ensures { result ≡ first_at (hidden_hits hidden.now) at.now (entries_from X.entry 0 items.now) }
{
    for (i, item) in items.iter().enumerate() {
        let e = item.entry(i as u32);
        if stands_on(hidden, at, &e) {
            return Some(e.hit);
        }
    }
    None
}

/// The first entry that is shown in an entry's table on its prefix: a SID, the node's address or a
/// route.
#[tactic(auto, using(crate::proofs::NetworkJudgingLemmas::few_bound))]
fn first_shown(parts: &NetParts, hidden: &Hidden, at: &TableEntry) -> Option<Hit>
    requires { InRange (network_of parts.now) }
    ensures { result ≡ first_on at.now.prefix (entries_of (network_with parts.now hidden.now)
        at.now.node at.now.table at.now.family) }
{
    if let Some(hit) = first_of(parts.sids.as_slice(), hidden, at) {
        return Some(hit);
    }
    if let Some(hit) = first_of(parts.nodes.as_slice(), hidden, at) {
        return Some(hit);
    }
    first_of(parts.routes.as_slice(), hidden, at)
}

/// What stands on an entry's prefix in its table.
fn hit_on(tables: &Tables, e: &TableEntry) -> Option<Hit>
    ensures { result ≡ value_at (table_at tables.now e.now.node e.now.table e.now.family)
        e.now.prefix }
{
    match tables.get(&table_key(e.node, e.table, e.family)) {
        None => None,
        Some(table) => table.get(&e.prefix),
    }
}

/// A hit that isn't a route's.
fn unless_route(hit: Option<Hit>) -> Option<Hit>
    ensures { result ≡ unless_route hit }
{
    match hit {
        None => None,
        Some(Hit::Sid(n)) => Some(Hit::Sid(n)),
        Some(Hit::Address) => Some(Hit::Address),
        Some(Hit::Route(_)) => None,
        Some(Hit::Nothing) => Some(Hit::Nothing),
    }
}

/// What stands first on an entry's prefix, once its flag was set or cleared, while the tables are
/// still those from before. No other route of its table has a route's prefix, so for a route that
/// table is enough: a SID or an address that stands there stays, and else it is the route, where it
/// is shown. A SID's prefix can be that of other entries, so for a SID they are looked over.
pub(crate) fn first_after(
    parts: &NetParts,
    hidden: &Hidden,
    tables: &Tables,
    e: &TableEntry,
) -> Option<Hit>
    requires rules { IsNetwork (network_of parts.now) }
    requires range { InRange (network_of parts.now) }
    requires listed { IsEntryAs (network_of parts.now) e.now.node e.now.table e.now.family
        e.now.prefix e.now.hit }
    requires tables { AreTablesBefore (network_with parts.now hidden.now) e.now.hit tables.now }
    ensures { result ≡ first_on e.now.prefix (entries_of (network_with parts.now hidden.now)
        e.now.node e.now.table e.now.family) }
{
    match e.hit {
        Hit::Route(_) => match unless_route(hit_on(tables, e)) {
            Some(hit) => Some(hit),
            None => {
                if is_shown(hidden, e.hit) {
                    Some(e.hit)
                } else {
                    None
                }
            }
        },
        Hit::Sid(_) | Hit::Address | Hit::Nothing => first_shown(parts, hidden, e),
    }
}

/// A prefix that is in a table gets another hit, or goes. It takes no memory.
fn settle_in(table: &mut Table<Hit>, p: &Prefix, hit: Option<Hit>)
    requires { HasPrefix table.old p.now }
    ensures { SettlesIn p.now hit table.old table.new }
{
    match hit {
        Some(hit) => {
            table.replace(p, hit);
        }
        None => {
            table.swap_remove(p);
        }
    }
}

/// In an entry's table its prefix, which is there, gets another hit, or goes. It takes no memory.
pub(crate) fn settle(tables: &mut Tables, e: &TableEntry, hit: Option<Hit>)
    requires { HasPrefix (table_at tables.old e.now.node e.now.table e.now.family) e.now.prefix }
    ensures { Settles e.now hit tables.old tables.new }
{
    match tables.get_mut(&table_key(e.node, e.table, e.family)) {
        Some(table) => settle_in(table, &e.prefix, hit),
        None => {}
    }
}

/// A prefix gets a hit in a table, whether it is there or not. After want of memory the table is as
/// it was.
fn place_in(table: &mut Table<Hit>, p: &Prefix, hit: Hit) -> Result<(), AllocError>
    ensures ok { OnOk result (SettlesIn p.now (Some hit) table.old table.new) }
    ensures err { OnErr result (table.new ≡ table.old) }
{
    match table.replace(p, hit) {
        Some(_) => Ok(()),
        None => {
            table.insert_new(*p, hit)?;
            Ok(())
        }
    }
}

/// A table that was not kept is kept with one entry. After want of memory the tables are as they
/// were.
fn place_new(alloc: Global, tables: &mut Tables, e: &TableEntry, hit: Hit) -> Result<(), AllocError>
    requires { table_at tables.old e.now.node e.now.table e.now.family ≡ [] }
    ensures ok { OnOk result (Settles e.now (Some hit) tables.old tables.new) }
    ensures err { OnErr result (IsUnchanged tables.old tables.new) }
{
    let mut table = Table::new(alloc);
    table.insert_new(e.prefix, hit)?;
    tables.insert(table_key(e.node, e.table, e.family), table)?;
    Ok(())
}

/// In an entry's table its prefix gets a hit, whether it is there or not. After want of memory the
/// tables are as they were.
pub(crate) fn place(
    alloc: Global,
    tables: &mut Tables,
    e: &TableEntry,
    hit: Hit,
) -> Result<(), AllocError>
    ensures ok { OnOk result (Settles e.now (Some hit) tables.old tables.new) }
    ensures err { OnErr result (IsUnchanged tables.old tables.new) }
{
    match tables.get_mut(&table_key(e.node, e.table, e.family)) {
        Some(table) => place_in(table, &e.prefix, hit),
        None => place_new(alloc, tables, e, hit),
    }
}
