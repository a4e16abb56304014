//! What the keys of a plan's tables give.

ghost use Rattle.std.specs.Prelude.{◌≡◌, ◌≤◌, [], None, IfOk, option_map, map, length, bytes_eq};
ghost use Rattle.std.specs.List.{list_any};
ghost use Rattle.toml.specs.Data.{get_member};
ghost use Rattle.toml.specs.View.{view, table_view};
ghost use Rattle.text_faults.specs.TextReading.{Gives};
ghost use Rattle.toml_reader.specs.TomlReading.{read_map};
ghost use Rattle.plan_syntax.specs.PlanWords.{plan_key_text};
ghost use Rattle.plan_syntax.specs.PlanTree.{number_in, flag_in, given, array_in, count_in, some_of, each_from, list_in, needed, optional, has_only, only};

use crate::plan_faults::{PlanError, PlanFault, PlanFaultKind};
use crate::plan_places::{PlanKey, PlanPlace};
use crate::plan_values::{PlanValue, flag_in, number_in};
use base::Seq;
use std::alloc::Global;
use text_faults::OrNoMemory;
use toml::value::Array;
use toml::{Table, Value};

/// The value at a key; `None` exactly where the table has no such key.
pub(crate) fn value_at(table: &Table, key: PlanKey) -> Option<&Value>
    ensures { option_map (λ v. view v.now) result
        ≡ get_member (plan_key_text key) (table_view table.now) }
{
    table.get(key.text())
}

/// Whether a text is this key.
fn is_key(key: &PlanKey, text: &str) -> bool
    ensures { result ≡ bytes_eq (plan_key_text key.now) text.now }
{
    key.text() == text
}

/// Whether a text is one of these keys.
fn is_among(text: &str, keys: &[PlanKey]) -> bool
    ensures { result ≡ list_any (λ k. bytes_eq (plan_key_text k) text.now) keys.now }
{
    keys.iter().any(|key| is_key(key, text))
}

/// Whether each key of a table is one of these.
#[tactic(auto, using(crate::proofs::PlanListReading::only_keys))]
fn has_only(table: &Table, keys: &[PlanKey]) -> bool
    ensures { result ≡ has_only keys.now (table_view table.now) }
{
    for key in table.keys() {
        if !is_among(key.as_str(), keys) {
            return false;
        }
    }
    true
}

/// That a table has no other keys than these; else `UnknownKey`.
pub(crate) fn only(table: &Table, keys: &[PlanKey], place: PlanPlace) -> Result<(), PlanFault>
    ensures { read_map (λ _. table_view table.now) result
        ≡ only keys.now place (table_view table.now) }
{
    if has_only(table, keys) {
        return Ok(());
    }
    Err(place.fault(PlanFaultKind::UnknownKey))
}

/// What the value at a key is read as; `MissingKey` exactly where the table has no such key.
pub(crate) fn needed<X: PlanValue>(
    alloc: Global,
    table: &Table,
    place: PlanPlace,
    key: PlanKey,
) -> Result<X, PlanError>
    ensures { Gives (λ x. x) result (needed X.kind place (table_view table.now) key) }
{
    match value_at(table, key) {
        Some(value) => X::of(alloc, value, place, key),
        None => Err(OrNoMemory::Fault(place.fault(PlanFaultKind::MissingKey { key }))),
    }
}

/// The number at a key, from the least to the most; `MissingKey` exactly where the table has no
/// such key.
pub(crate) fn needed_number(
    range: (u32, u32),
    table: &Table,
    place: PlanPlace,
    key: PlanKey,
) -> Result<u32, PlanFault>
    ensures { result ≡ needed (number_in range.0 range.1) place (table_view table.now) key }
{
    match value_at(table, key) {
        Some(value) => number_in(value, range, place, key),
        None => Err(place.fault(PlanFaultKind::MissingKey { key })),
    }
}

/// The number at a key, from the least to the most, and the default where the table has no such
/// key.
pub(crate) fn optional_number(
    range: (u32, u32),
    default: u32,
    table: &Table,
    place: PlanPlace,
    key: PlanKey,
) -> Result<u32, PlanFault>
    ensures { result ≡ optional (number_in range.0 range.1) default place
        (table_view table.now) key }
{
    match value_at(table, key) {
        Some(value) => number_in(value, range, place, key),
        None => Ok(default),
    }
}

/// The number at a key, from the least to the most; `None` where the table has no such key.
pub(crate) fn number_if_given(
    range: (u32, u32),
    table: &Table,
    place: PlanPlace,
    key: PlanKey,
) -> Result<Option<u32>, PlanFault>
    ensures { result ≡ optional (given (number_in range.0 range.1)) None place
        (table_view table.now) key }
{
    match value_at(table, key) {
        Some(value) => {
            let number = number_in(value, range, place, key)?;
            Ok(Some(number))
        }
        None => Ok(None),
    }
}

/// The boolean at a key, and the default where the table has no such key.
pub(crate) fn optional_flag(
    default: bool,
    table: &Table,
    place: PlanPlace,
    key: PlanKey,
) -> Result<bool, PlanFault>
    ensures { result ≡ optional flag_in default place (table_view table.now) key }
{
    match value_at(table, key) {
        Some(value) => flag_in(value, place, key),
        None => Ok(default),
    }
}

/// The values of an array; `WrongKind` exactly where the value is none.
#[tactic(auto, using(crate::proofs::PlanListReading::arrays))]
pub(crate) fn array_in(value: &Value, place: PlanPlace, key: PlanKey) -> Result<&Array, PlanFault>
    ensures { read_map (λ a. map view a.now.items) result ≡ array_in place key (view value.now) }
{
    // each kind of value is asked with its key, whether its faults name it or not
    let _ = key;
    match value.as_array() {
        Some(items) => Ok(items),
        None => Err(place.fault(PlanFaultKind::WrongKind)),
    }
}

/// That there are not more than so many; else `Limit`. It takes a `Vec`, since its length is known
/// to fit an `i64`.
pub(crate) fn few<X>(
    items: &Vec<X>,
    most: usize,
    place: PlanPlace,
    key: PlanKey,
) -> Result<(), PlanFault>
    ensures exact { read_map (λ _. length items.now.items) result
        ≡ count_in place key most (length items.now.items) }
    ensures within { IfOk result (λ _. length items.now.items ≤ most) }
{
    if items.len() <= most {
        return Ok(());
    }
    Err(place.fault(PlanFaultKind::Limit {
        what: key,
        value: items.len() as i64,
    }))
}

/// What values are read as, one after another.
#[tactic(auto, using(crate::proofs::PlanListReading::reading))]
fn each<X: PlanValue + Drop>(
    alloc: Global,
    values: &[Value],
    place: PlanPlace,
    key: PlanKey,
) -> Result<Vec<X>, PlanError>
    ensures { Gives (λ v. v.items) result
        (each_from (λ n. X.kind place key) 0 (map view values.now)) }
{
    let mut members = Vec::new(alloc);
    for value in values {
        let member = X::of(alloc, value, place, key)?;
        members.push(member)?;
    }
    Ok(members)
}

/// The list that a value is: `WrongKind` where it is no array, then `Limit` where it has more
/// members than the most, then the fault of its first bad member.
#[tactic(auto, using(crate::proofs::PlanListReading::counts))]
fn list_in<X: PlanValue + Drop>(
    alloc: Global,
    most: usize,
    value: &Value,
    place: PlanPlace,
    key: PlanKey,
) -> Result<Seq<X>, PlanError>
    ensures { Gives (λ s. s) result (list_in most X.kind place key (view value.now)) }
{
    let values = array_in(value, place, key)?;
    few(values, most, place, key)?;
    let members = each::<X>(alloc, values.as_slice(), place, key)?;
    Ok(Seq::new(members))
}

/// The list at a key, of at most so many members; `MissingKey` exactly where the table has no such
/// key.
pub(crate) fn needed_list<X: PlanValue + Drop>(
    alloc: Global,
    most: usize,
    table: &Table,
    place: PlanPlace,
    key: PlanKey,
) -> Result<Seq<X>, PlanError>
    ensures { Gives (λ s. s) result
        (needed (list_in most X.kind) place (table_view table.now) key) }
{
    match value_at(table, key) {
        Some(value) => list_in::<X>(alloc, most, value, place, key),
        None => Err(OrNoMemory::Fault(place.fault(PlanFaultKind::MissingKey { key }))),
    }
}

/// The list at a key, of at most so many members; `None` where the table has no such key.
pub(crate) fn list_if_given<X: PlanValue + Drop>(
    alloc: Global,
    most: usize,
    table: &Table,
    place: PlanPlace,
    key: PlanKey,
) -> Result<Option<Seq<X>>, PlanError>
    ensures { Gives (λ s. s) result (optional (given (list_in most X.kind)) None place
        (table_view table.now) key) }
{
    match value_at(table, key) {
        Some(value) => {
            let list = list_in::<X>(alloc, most, value, place, key)?;
            Ok(Some(list))
        }
        None => Ok(None),
    }
}

/// A list that has a member; else `Limit`.
pub(crate) fn some_of<X: Drop>(
    list: Seq<X>,
    place: PlanPlace,
    key: PlanKey,
) -> Result<Seq<X>, PlanFault>
    ensures { result ≡ some_of place key list }
{
    if list.as_slice().is_empty() {
        return Err(place.fault(PlanFaultKind::Limit {
            what: key,
            value: 0,
        }));
    }
    Ok(list)
}
