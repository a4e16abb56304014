//! The tables of a network, one for each node, table number and family that has entries, and how
//! they are filled.

ghost use Rattle.std.specs.Prelude.{◌≡◌, ℕ, ◌<◌, ◌^◌, ◌∷◌, ◌++◌, [], List, None, length, OnOk, IfOk};
ghost use Rattle.std.specs.Option.{unwrap_or};
ghost use Rattle.std.specs.BTreeMap as map;
ghost use Rattle.prefix_table.specs.PrefixTable.{HasPrefix};
ghost use Rattle.net_model.specs.NetworkTerms.{hidden_hits, network_of, network_with};
ghost use Rattle.net_model.specs.NetworkJudgingTerms.{InRange};
ghost use Rattle.net_model.specs.LookupTables.{table_key_cmp, table_key, table_at, AreTables, AreTaken, AnswerFor, HasOneMore, entries_from, shown_of, sid_entry, address_entry, route_entry};
ghost use Rattle.net_model.specs.declared.lookup_tables.TableEntry.{TableEntry};

use crate::hidden::{Hidden, is_shown};
use crate::net::Hit;
use crate::parts::{NetParts, Node, Route};
use crate::route_set::{EntryKey, entry_key};
use crate::rules::same_family;
use prefix_table::Table;
use srv6_rules::{Family, SidEntry};
use std::alloc::{AllocError, Global};
use std::collections::{BTreeMap, BTreeSet};
use v6_addr::{Addr, Prefix};

/// What tells a table from others.
#[derive(Clone, Copy, Debug, PartialEq, Eq, PartialOrd, Ord)]
pub(crate) struct TableKey {
    node: u32,
    table: u32,
    is_ipv6: bool,
}

/// The tables that have entries.
pub(crate) type Tables = BTreeMap<TableKey, Table<Hit>>;

/// What tells a node's table from others.
pub(crate) fn table_key(node: u32, table: u32, family: Family) -> TableKey
    ensures { result ≡ table_key node table family }
{
    TableKey {
        node,
        table,
        is_ipv6: same_family(family, Family::V6),
    }
}

/// An entry of a table, and which table it is.
#[derive(Clone, Copy)]
pub(crate) struct TableEntry {
    /// The table's node.
    pub node: u32,
    /// The table's number.
    pub table: u32,
    /// The family of the packets that are looked up in it.
    pub family: Family,
    /// What the entry is.
    pub hit: Hit,
    /// Its prefix.
    pub prefix: Prefix,
}

/// An item of a network that is an entry of a table.
pub(crate) trait Listed {
    /// The entry of the item with a number.
    ghost entry: { ℕ → Self → TableEntry };

    /// The entry of the item with a number.
    fn entry(&self, n: u32) -> TableEntry
        ensures { result ≡ entry n self.now };
}

impl Listed for SidEntry {
    ghost entry = { sid_entry };

    fn entry(&self, n: u32) -> TableEntry {
        TableEntry {
            node: self.node,
            table: 0,
            family: Family::V6,
            hit: Hit::Sid(n),
            prefix: self.prefix,
        }
    }
}

/// An address as a prefix of all its 128 bits.
pub fn address_prefix(a: Addr) -> Prefix
    ensures { result ≡ record { value = a.value; len = 128 } }
{
    match Prefix::new(a, 128) {
        Some(p) => p,
        None => unreachable!(),
    }
}

impl Listed for Node {
    ghost entry = { address_entry };

    fn entry(&self, n: u32) -> TableEntry {
        TableEntry {
            node: n,
            table: 0,
            family: Family::V6,
            hit: Hit::Address,
            prefix: address_prefix(self.address),
        }
    }
}

impl Listed for Route {
    ghost entry = { route_entry };

    fn entry(&self, n: u32) -> TableEntry {
        TableEntry {
            node: self.node,
            table: self.table,
            family: self.family,
            hit: Hit::Route(n),
            prefix: self.prefix,
        }
    }
}

/// A table is taken out of the others; one that is not there has no entries.
fn take_table(alloc: Global, tables: &mut Tables, key: TableKey) -> Table<Hit>
    ensures table { result ≡ unwrap_or (map.get table_key_cmp tables.old key) [] }
    ensures others { map.UpdatesBy table_key_cmp (table_key_cmp key) tables.old tables.new None }
{
    match tables.remove(&key) {
        Some(table) => table,
        None => Table::new(alloc),
    }
}

/// An entry is put after the others of its table, which has none with its prefix.
fn append(alloc: Global, tables: &mut Tables, e: &TableEntry) -> Result<(), AllocError>
    requires { ¬ HasPrefix (table_at tables.old e.now.node e.now.table e.now.family) e.now.prefix }
    ensures { OnOk result (HasOneMore e.now tables.old tables.new) }
{
    let key = table_key(e.node, e.table, e.family);
    let mut table = take_table(alloc, tables, key);
    table.insert_new(e.prefix, e.hit)?;
    tables.insert(key, table)?;
    Ok(())
}

/// An entry is put after the others of its table, unless one with its prefix is there: of equal
/// prefixes the first stays.
fn put(
    alloc: Global,
    tables: &mut Tables,
    taken: &mut BTreeSet<EntryKey>,
    e: &TableEntry,
) -> Result<(), AllocError>
    requires { AreTaken taken.old tables.old }
    ensures taken { OnOk result (AreTaken taken.new tables.new) }
    ensures answers { (before : List TableEntry) → AnswerFor before tables.old
        → OnOk result (AnswerFor (before ++ e.now ∷ []) tables.new) }
{
    let is_new = taken.insert(entry_key(e.node, e.table, e.family, e.prefix))?;
    if is_new {
        append(alloc, tables, e)?;
    }
    Ok(())
}

/// An entry that is shown is put after the others of its table, as `put` has it.
fn put_shown(
    alloc: Global,
    tables: &mut Tables,
    taken: &mut BTreeSet<EntryKey>,
    hidden: &Hidden,
    e: &TableEntry,
) -> Result<(), AllocError>
    requires { AreTaken taken.old tables.old }
    ensures taken { OnOk result (AreTaken taken.new tables.new) }
    ensures answers { (before : List TableEntry) → AnswerFor before tables.old
        → OnOk result (AnswerFor (before ++ shown_of (hidden_hits hidden.now) (e.now ∷ []))
        tables.new) }
{
    if is_shown(hidden, e.hit) {
        put(alloc, tables, taken, e)?;
    }
    Ok(())
}

/// The entries of items that are shown are put into their tables, in order.
fn put_all<X: Listed>(
    alloc: Global,
    tables: &mut Tables,
    taken: &mut BTreeSet<EntryKey>,
    hidden: &Hidden,
    items: &[X],
) -> Result<(), AllocError>
    requires few { length items.now < 2 ^ 32 }
    requires taken { AreTaken taken.old tables.old }
    ensures taken { OnOk result (AreTaken taken.new tables.new) }
    ensures answers { (before : List TableEntry) → AnswerFor before tables.old
        → OnOk result (AnswerFor (before
        ++ shown_of (hidden_hits hidden.now) (entries_from X.entry 0 items.now)) tables.new) }
{
    for (i, item) in items.iter().enumerate() {
        put_shown(alloc, tables, taken, hidden, &item.entry(i as u32))?;
    }
    Ok(())
}

/// The tables of the parts of a network, without what is hidden. SIDs go before the nodes'
/// addresses and these before routes, so that of equal prefixes they stay in this order.
#[tactic(auto, using(crate::proofs::NetworkJudgingLemmas::few_bound))]
pub(crate) fn tables_of(
    alloc: Global,
    parts: &NetParts,
    hidden: &Hidden,
) -> Result<Tables, AllocError>
    requires { InRange (network_of parts.now) }
    ensures { IfOk result (λ tables. AreTables (network_with parts.now hidden.now) tables) }
{
    let mut tables = BTreeMap::new(alloc);
    let mut taken = BTreeSet::new(alloc);
    put_all(
        alloc,
        &mut tables,
        &mut taken,
        hidden,
        parts.sids.as_slice(),
    )?;
    put_all(
        alloc,
        &mut tables,
        &mut taken,
        hidden,
        parts.nodes.as_slice(),
    )?;
    put_all(
        alloc,
        &mut tables,
        &mut taken,
        hidden,
        parts.routes.as_slice(),
    )?;
    Ok(tables)
}
