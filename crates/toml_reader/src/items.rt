//! Arrays of tables.

ghost use Rattle.std.specs.Prelude.{◌-◌, ◌<◌, ◌^◌, [], map, length, Result};
ghost use Rattle.toml.specs.Data.{Members};
ghost use Rattle.toml.specs.View.{view, table_view};
ghost use Rattle.text_faults.specs.declared.text_place.FaultPlace.{FaultPlace};
ghost use Rattle.text_faults.specs.declared.fault.TextFault.{TextFault};
ghost use Rattle.text_faults.specs.TextReading.{Gives};
ghost use Rattle.toml_reader.specs.Tree.{optional, tables_in, table_in, each_from, items_at};

use crate::tree::{array_in, few, table_in, value_at};
use base::Seq;
use std::alloc::Global;
use text_faults::{FaultPlace, Key, NetFault, TableKind};
use toml::{Table, Value};

/// What the tables of a kind describe. It is a type of its own for each kind, since what
/// is described may be of a lower crate.
pub trait Describes<D> {
    /// What a table gives at a place.
    ghost of: { FaultPlace → Members → Result D TextFault };

    /// What the table describes, or its first fault.
    fn read(alloc: Global, table: &Table, place: FaultPlace) -> Result<D, NetFault>
        ensures { Gives (λ d. d) result (of place (table_view table.now)) };
}

/// The tables that values are.
#[tactic(auto, using(crate::proofs::TomlListReading::keeping))]
fn each_table(alloc: Global, values: &[Value], place: FaultPlace) -> Result<Vec<&Table>, NetFault>
    ensures { Gives (λ v. map (λ t. table_view t.now) v.items) result
        (each_from (λ n. table_in place) 0 (map view values.now)) }
{
    let mut tables = Vec::new(alloc);
    for value in values {
        let table = table_in(value, place)?;
        tables.push(table)?;
    }
    Ok(tables)
}

/// The tables of an array that may be absent.
fn tables_at(
    alloc: Global,
    root: &Table,
    place: FaultPlace,
    key: Key,
) -> Result<Vec<&Table>, NetFault>
    ensures { Gives (λ v. map (λ t. table_view t.now) v.items) result
        (optional tables_in [] place (table_view root.now) key) }
{
    match value_at(root, key) {
        Some(value) => {
            let values = array_in(value, place)?;
            each_table(alloc, values.as_slice(), place)
        }
        None => Ok(Vec::new(alloc)),
    }
}

/// What tables describe, one after another, counted from 1.
#[tactic(auto, using(crate::proofs::TomlListReading::reading))]
fn each_described<X: Describes<D>, D: Drop>(
    alloc: Global,
    tables: &[&Table],
    kind: TableKind,
) -> Result<Vec<D>, NetFault>
    requires { length tables.now < 2 ^ 32 - 1 }
    ensures { Gives (λ v. v.items) result
        (each_from (λ n. X.of (record { table = kind; item = n })) 1
        (map (λ t. table_view t.now) tables.now)) }
{
    let mut all = Vec::new(alloc);
    for (i, table) in tables.iter().enumerate() {
        let place = FaultPlace::of_item(kind, i);
        let described = X::read(alloc, table, place)?;
        all.push(described)?;
    }
    Ok(all)
}

/// What the items of an array of tables describe, which may be absent: first
/// `WrongKind` at item 0 where it is no array of tables, then `Limit` at item 0 where it has more
/// items than the most, then the first fault of the first item that has one.
#[tactic(auto, using(crate::proofs::TomlListReading::counts))]
pub fn items_at<X: Describes<D>, D: Drop>(
    alloc: Global,
    kind: TableKind,
    key: Key,
    most: usize,
    root: &Table,
) -> Result<Seq<D>, NetFault>
    requires { most < 2 ^ 32 - 1 }
    ensures { Gives (λ s. s) result (items_at kind key most X.of (table_view root.now)) }
{
    let place = FaultPlace::whole(kind);
    let tables = tables_at(alloc, root, place, key)?;
    few(&tables, most, place, key)?;
    let all = each_described::<X, D>(alloc, tables.as_slice(), kind)?;
    Ok(Seq::new(all))
}
