//! What the keys of a table give.

ghost use Rattle.std.specs.Prelude.{◌≡◌, [], None, map};
ghost use Rattle.toml.specs.View.{view, table_view};
ghost use Rattle.text_faults.specs.TextReading.{Gives};
ghost use Rattle.toml_reader.specs.Tree.{needed, optional, given, number_in, array_of, list_in, each_from};

use crate::kinds::Kind;
use crate::tree::{array_in, few, number_in, value_at};
use base::Seq;
use std::alloc::Global;
use text_faults::{FaultKind, FaultPlace, Key, NetFault, OrNoMemory, TextFault};
use toml::{Table, Value};

/// What the value at a key is read as; `MissingKey` exactly where the table has no such key.
pub fn needed<X: Kind>(
    alloc: Global,
    table: &Table,
    place: FaultPlace,
    key: Key,
) -> Result<X, NetFault>
    ensures { Gives (λ x. x) result (needed X.kind place (table_view table.now) key) }
{
    match value_at(table, key) {
        Some(value) => X::of(alloc, value, place, key),
        None => Err(OrNoMemory::Fault(place.fault(FaultKind::MissingKey { key }))),
    }
}

/// What the value at a key is read as, and the default where the table has no such key.
pub fn optional<X: Kind + Drop>(
    alloc: Global,
    default: X,
    table: &Table,
    place: FaultPlace,
    key: Key,
) -> Result<X, NetFault>
    ensures { Gives (λ x. x) result (optional X.kind default place (table_view table.now) key) }
{
    match value_at(table, key) {
        Some(value) => X::of(alloc, value, place, key),
        None => Ok(default),
    }
}

/// The number at a key, from the least to the most, and the default where the table has no such key
pub fn optional_number(
    range: (u32, u32),
    default: u32,
    table: &Table,
    place: FaultPlace,
    key: Key,
) -> Result<u32, TextFault>
    ensures { result ≡ optional (number_in range.0 range.1) default place
        (table_view table.now) key }
{
    match value_at(table, key) {
        Some(value) => number_in(value, range.0, range.1, place, key),
        None => Ok(default),
    }
}

/// The number at a key, from the least to the most; `None` where the table has no such key.
pub fn number_if_given(
    range: (u32, u32),
    table: &Table,
    place: FaultPlace,
    key: Key,
) -> Result<Option<u32>, TextFault>
    ensures { result ≡ optional (given (number_in range.0 range.1)) None place
        (table_view table.now) key }
{
    match value_at(table, key) {
        Some(value) => {
            let number = number_in(value, range.0, range.1, place, key)?;
            Ok(Some(number))
        }
        None => Ok(None),
    }
}

/// What values are read as, one after another.
#[tactic(auto, using(crate::proofs::TomlListReading::reading))]
fn each<X: Kind + Drop>(
    alloc: Global,
    values: &[Value],
    place: FaultPlace,
    key: Key,
) -> Result<Vec<X>, NetFault>
    ensures { Gives (λ v. v.items) result
        (each_from (λ n. X.kind place key) 0 (map view values.now)) }
{
    let mut members = Vec::new(alloc);
    for value in values {
        let member = X::of(alloc, value, place, key)?;
        members.push(member)?;
    }
    Ok(members)
}

/// The array at a key, of any length; empty where the table has no such key.
pub fn optional_array<X: Kind + Drop>(
    alloc: Global,
    table: &Table,
    place: FaultPlace,
    key: Key,
) -> Result<Seq<X>, NetFault>
    ensures { Gives (λ s. s) result
        (optional (array_of X.kind) [] place (table_view table.now) key) }
{
    match value_at(table, key) {
        Some(value) => {
            let values = array_in(value, place)?;
            let all = each::<X>(alloc, values.as_slice(), place, key)?;
            Ok(Seq::new(all))
        }
        None => Ok(Seq::new(Vec::new(alloc))),
    }
}

/// The list that a value is: `WrongKind` where it is no array, then `Limit` where it has more
/// members than the most, then the fault of its first bad member.
#[tactic(auto, using(crate::proofs::TomlListReading::counts))]
fn list_in<X: Kind + Drop>(
    alloc: Global,
    most: usize,
    value: &Value,
    place: FaultPlace,
    key: Key,
) -> Result<Seq<X>, NetFault>
    ensures { Gives (λ s. s) result (list_in most X.kind place key (view value.now)) }
{
    let values = array_in(value, place)?;
    few(values, most, place, key)?;
    let members = each::<X>(alloc, values.as_slice(), place, key)?;
    Ok(Seq::new(members))
}

/// The list at a key, of at most so many members; `MissingKey` exactly where the table has no such
/// key.
pub fn needed_list<X: Kind + Drop>(
    alloc: Global,
    most: usize,
    table: &Table,
    place: FaultPlace,
    key: Key,
) -> Result<Seq<X>, NetFault>
    ensures { Gives (λ s. s) result
        (needed (list_in most X.kind) place (table_view table.now) key) }
{
    match value_at(table, key) {
        Some(value) => list_in::<X>(alloc, most, value, place, key),
        None => Err(OrNoMemory::Fault(place.fault(FaultKind::MissingKey { key }))),
    }
}

/// The list at a key, of at most so many members; empty where the table has no such key.
pub fn optional_list<X: Kind + Drop>(
    alloc: Global,
    most: usize,
    table: &Table,
    place: FaultPlace,
    key: Key,
) -> Result<Seq<X>, NetFault>
    ensures { Gives (λ s. s) result
        (optional (list_in most X.kind) [] place (table_view table.now) key) }
{
    match value_at(table, key) {
        Some(value) => list_in::<X>(alloc, most, value, place, key),
        None => Ok(Seq::new(Vec::new(alloc))),
    }
}

/// The list at a key, of at most so many members; `None` where the table has no such key.
pub fn list_if_given<X: Kind + Drop>(
    alloc: Global,
    most: usize,
    table: &Table,
    place: FaultPlace,
    key: Key,
) -> Result<Option<Seq<X>>, NetFault>
    ensures { Gives (λ s. s) result (optional (given (list_in most X.kind)) None place
        (table_view table.now) key) }
{
    match value_at(table, key) {
        Some(value) => {
            let list = list_in::<X>(alloc, most, value, place, key)?;
            Ok(Some(list))
        }
        None => Ok(None),
    }
}
