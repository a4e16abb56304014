//! Words that keys take.

ghost use Rattle.std.specs.Prelude.{◌≡◌, List, ℕ, Option};
ghost use Rattle.toml.specs.View.{view, table_view};
ghost use Rattle.toml_reader.specs.Tree.{word_in, needed, optional};

use text_faults::{FaultKind, FaultPlace, Key, TextFault};
use toml::{Table, Value};
use toml_reader::{meant, text_in, value_at};

/// What words stand for.
pub(crate) trait Word: Sized {
    /// What a word stands for; none where it stands for nothing.
    ghost meaning: { List ℕ → Option Self };

    /// What a word stands for.
    fn meant_by(word: &str) -> Option<Self>
        ensures { result ≡ meaning word.now };
}

/// What the word that a value is stands for: `WrongKind` where the value is no text, `BadFlavour`
/// where it is a text that stands for nothing.
pub(crate) fn word_in<W: Word>(value: &Value, place: FaultPlace, key: Key) -> Result<W, TextFault>
    ensures { result ≡ word_in W.meaning place key (view value.now) }
{
    // each kind of value is asked with its key, whether its faults name it or not
    let _ = key;
    let word = text_in(value, place)?;
    meant(W::meant_by(word), place)
}

/// What the word at a key stands for; `MissingKey` exactly where the table has no such key.
pub(crate) fn needed_word<W: Word>(
    table: &Table,
    place: FaultPlace,
    key: Key,
) -> Result<W, TextFault>
    ensures { result ≡ needed (word_in W.meaning) place (table_view table.now) key }
{
    match value_at(table, key) {
        Some(value) => word_in::<W>(value, place, key),
        None => Err(place.fault(FaultKind::MissingKey { key })),
    }
}

/// What the word at a key stands for, and the default where the table has no such key.
pub(crate) fn optional_word<W: Word + Drop>(
    default: W,
    table: &Table,
    place: FaultPlace,
    key: Key,
) -> Result<W, TextFault>
    ensures { result ≡ optional (word_in W.meaning) default place (table_view table.now) key }
{
    match value_at(table, key) {
        Some(value) => word_in::<W>(value, place, key),
        None => Ok(default),
    }
}
