//! Values of the tree, by their kinds in TOML. Nothing here takes memory.

ghost use Rattle.std.specs.Prelude.{◌≡◌, ◌≤◌, IfOk, option_map, map, length, bytes_eq};
ghost use Rattle.std.specs.List.{list_any};
ghost use Rattle.toml.specs.Data.{get_member};
ghost use Rattle.toml.specs.View.{view, table_view};
ghost use Rattle.text_faults.specs.Keys.{key_text};
ghost use Rattle.toml_reader.specs.TomlReading.{read_map};
ghost use Rattle.toml_reader.specs.Tree.{text_in, integer_in, number_within, number_in, array_in, count_in, has_only, only, table_in};

use text_faults::{FaultKind, FaultPlace, Key, TextFault};
use toml::value::Array;
use toml::{Table, Value};

/// The value at a key; `None` exactly where the table has no such key.
pub fn value_at(table: &Table, key: Key) -> Option<&Value>
    ensures { option_map (λ v. view v.now) result
        ≡ get_member (key_text key) (table_view table.now) }
{
    table.get(key.text())
}

/// The text that a value is; `WrongKind` exactly where it is none.
pub fn text_in(value: &Value, place: FaultPlace) -> Result<&str, TextFault>
    ensures { read_map (λ s. s.now) result ≡ text_in place (view value.now) }
{
    match value.as_str() {
        Some(text) => Ok(text),
        None => Err(place.fault(FaultKind::WrongKind)),
    }
}

/// The integer that a value is; `WrongKind` exactly where it is none.
pub fn integer_in(value: &Value, place: FaultPlace) -> Result<i64, TextFault>
    ensures { result ≡ integer_in place (view value.now) }
{
    match value.as_integer() {
        Some(number) => Ok(number),
        None => Err(place.fault(FaultKind::WrongKind)),
    }
}

/// The number, if it is from the least to the most, and else `Limit`.
fn number_within(
    number: i64,
    least: u32,
    most: u32,
    place: FaultPlace,
    key: Key,
) -> Result<u32, TextFault>
    ensures exact { result ≡ number_within place key least most number }
    ensures within { IfOk result (λ n. n ≤ most) }
{
    if i64::from(least) <= number && number <= i64::from(most) {
        return Ok(number as u32);
    }
    Err(place.fault(FaultKind::Limit {
        what: key,
        value: number,
    }))
}

/// The number that a value is: `WrongKind` exactly where it is no integer, and `Limit` where it is
/// one that is not from the least to the most.
pub fn number_in(
    value: &Value,
    least: u32,
    most: u32,
    place: FaultPlace,
    key: Key,
) -> Result<u32, TextFault>
    ensures exact { result ≡ number_in least most place key (view value.now) }
    ensures within { IfOk result (λ n. n ≤ most) }
{
    let number = integer_in(value, place)?;
    number_within(number, least, most, place, key)
}

/// The values of an array; `WrongKind` exactly where the value is none.
#[tactic(auto, using(crate::proofs::TomlListReading::arrays))]
pub(crate) fn array_in(value: &Value, place: FaultPlace) -> Result<&Array, TextFault>
    ensures { read_map (λ a. map view a.now.items) result ≡ array_in place (view value.now) }
{
    match value.as_array() {
        Some(items) => Ok(items),
        None => Err(place.fault(FaultKind::WrongKind)),
    }
}

/// That there are not more than so many; else `Limit`. It takes a `Vec`, since its length is known
/// to fit an `i64`.
pub(crate) fn few<X>(
    items: &Vec<X>,
    most: usize,
    place: FaultPlace,
    key: Key,
) -> Result<(), TextFault>
    ensures exact { read_map (λ _. length items.now.items) result
        ≡ count_in place key most (length items.now.items) }
    ensures within { IfOk result (λ _. length items.now.items ≤ most) }
{
    if items.len() <= most {
        return Ok(());
    }
    Err(place.fault(FaultKind::Limit {
        what: key,
        value: items.len() as i64,
    }))
}

/// Whether a text is this key.
fn is_key(key: &Key, text: &str) -> bool
    ensures { result ≡ bytes_eq (key_text key.now) text.now }
{
    key.text() == text
}

/// Whether a text is one of these keys.
fn is_among(text: &str, keys: &[Key]) -> bool
    ensures { result ≡ list_any (λ k. bytes_eq (key_text k) text.now) keys.now }
{
    keys.iter().any(|key| is_key(key, text))
}

/// Whether each key of a table is one of these.
#[tactic(auto, using(crate::proofs::TomlListReading::only_keys))]
fn has_only(table: &Table, keys: &[Key]) -> bool
    ensures { result ≡ has_only keys.now (table_view table.now) }
{
    for key in table.keys() {
        if !is_among(key.as_str(), keys) {
            return false;
        }
    }
    true
}

/// That a table has no other keys than these; else `UnknownKey`.
pub fn only(table: &Table, keys: &[Key], place: FaultPlace) -> Result<(), TextFault>
    ensures { read_map (λ _. table_view table.now) result
        ≡ only keys.now place (table_view table.now) }
{
    if has_only(table, keys) {
        return Ok(());
    }
    Err(place.fault(FaultKind::UnknownKey))
}

/// The table that a value is; `WrongKind` exactly where it is none.
pub(crate) fn table_in(value: &Value, place: FaultPlace) -> Result<&Table, TextFault>
    ensures { read_map (λ t. table_view t.now) result ≡ table_in place (view value.now) }
{
    match value.as_table() {
        Some(table) => Ok(table),
        None => Err(place.fault(FaultKind::WrongKind)),
    }
}
