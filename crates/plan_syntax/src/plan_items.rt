//! Arrays of tables of a plan.

ghost use Rattle.std.specs.Prelude.{◌≡◌, ◌-◌, ◌<◌, ◌^◌, [], map, length, Result};
ghost use Rattle.toml.specs.Data.{Members};
ghost use Rattle.toml.specs.View.{view, table_view};
ghost use Rattle.text_faults.specs.TextReading.{Gives};
ghost use Rattle.toml_reader.specs.TomlReading.{read_map};
ghost use Rattle.plan_syntax.specs.declared.plan_places.PlanPlace.{PlanPlace};
ghost use Rattle.plan_syntax.specs.declared.plan_faults.PlanFault.{PlanFault};
ghost use Rattle.plan_syntax.specs.PlanTree.{optional, tables_in, table_in, each_from, items_at};

use crate::plan_faults::{PlanError, PlanFault, PlanFaultKind};
use crate::plan_keys::{array_in, few, value_at};
use crate::plan_places::{PlanKey, PlanPlace, PlanTable};
use base::Seq;
use std::alloc::Global;
use toml::{Table, Value};

/// What the tables of a kind say. It is a type of its own for each kind.
pub(crate) trait Says<D> {
    /// What a table gives at a place.
    ghost of: { PlanPlace → Members → Result D PlanFault };

    /// What the table says, or its first fault.
    fn read(alloc: Global, table: &Table, place: PlanPlace) -> Result<D, PlanError>
        ensures { Gives (λ d. d) result (of place (table_view table.now)) };
}

/// The table that a value is; `WrongKind` exactly where it is none.
fn table_in(value: &Value, place: PlanPlace, key: PlanKey) -> Result<&Table, PlanFault>
    ensures { read_map (λ t. table_view t.now) result ≡ table_in place key (view value.now) }
{
    // each kind of value is asked with its key, whether its faults name it or not
    let _ = key;
    match value.as_table() {
        Some(table) => Ok(table),
        None => Err(place.fault(PlanFaultKind::WrongKind)),
    }
}

/// The tables that values are.
#[tactic(auto, using(crate::proofs::PlanListReading::keeping))]
fn each_table(
    alloc: Global,
    values: &[Value],
    place: PlanPlace,
    key: PlanKey,
) -> Result<Vec<&Table>, PlanError>
    ensures { Gives (λ v. map (λ t. table_view t.now) v.items) result
        (each_from (λ n. table_in place key) 0 (map view values.now)) }
{
    let mut tables = Vec::new(alloc);
    for value in values {
        let table = table_in(value, place, key)?;
        tables.push(table)?;
    }
    Ok(tables)
}

/// The tables of an array that may be absent.
fn tables_at(
    alloc: Global,
    root: &Table,
    place: PlanPlace,
    key: PlanKey,
) -> Result<Vec<&Table>, PlanError>
    ensures { Gives (λ v. map (λ t. table_view t.now) v.items) result
        (optional tables_in [] place (table_view root.now) key) }
{
    match value_at(root, key) {
        Some(value) => {
            let values = array_in(value, place, key)?;
            each_table(alloc, values.as_slice(), place, key)
        }
        None => Ok(Vec::new(alloc)),
    }
}

/// What tables say, one after another, counted from 1.
#[tactic(auto, using(crate::proofs::PlanListReading::reading))]
fn each_said<X: Says<D>, D: Drop>(
    alloc: Global,
    tables: &[&Table],
    kind: PlanTable,
) -> Result<Vec<D>, PlanError>
    requires { length tables.now < 2 ^ 32 - 1 }
    ensures { Gives (λ v. v.items) result
        (each_from (λ n. X.of (record { table = kind; item = n })) 1
        (map (λ t. table_view t.now) tables.now)) }
{
    let mut all = Vec::new(alloc);
    for (i, table) in tables.iter().enumerate() {
        let place = PlanPlace::of_item(kind, i);
        let said = X::read(alloc, table, place)?;
        all.push(said)?;
    }
    Ok(all)
}

/// What the items of an array of tables say, which may be absent: first `WrongKind` at item 0 where
/// it is no array of tables, then `Limit` at item 0 where it has more items than the most, then the
/// first fault of the first item that has one.
#[tactic(auto, using(crate::proofs::PlanListReading::counts))]
pub(crate) fn items_at<X: Says<D>, D: Drop>(
    alloc: Global,
    kind: PlanTable,
    key: PlanKey,
    most: usize,
    root: &Table,
) -> Result<Seq<D>, PlanError>
    requires { most < 2 ^ 32 - 1 }
    ensures { Gives (λ s. s) result (items_at kind key most X.of (table_view root.now)) }
{
    let place = PlanPlace::whole(kind);
    let tables = tables_at(alloc, root, place, key)?;
    few(&tables, most, place, key)?;
    let all = each_said::<X, D>(alloc, tables.as_slice(), kind)?;
    Ok(Seq::new(all))
}
