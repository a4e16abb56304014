//! The words of stages' lines.

ghost use Rattle.std.specs.Prelude.{◌≡◌, ◌∷◌, [], map};
ghost use Rattle.trace_replay.specs.TraceGrammar.{is_stage};

use crate::numbers::is_number;
use crate::trace_words::{family_of, is_hex, is_prefix, is_reason};
use net_model::{LAST_TABLE, is_name};

/// Whether three words are the line of a packet that is sent or dropped.
fn is_of_three(verb: &str, what: &str, hex: &str) -> bool
    ensures { result ≡ is_stage (verb.now ∷ what.now ∷ hex.now ∷ []) }
{
    ((verb == "send" && is_name(what.as_bytes())) || (verb == "drop" && is_reason(what)))
        && is_hex(hex)
}

/// Whether four words are the line of an execution after which a packet goes over a SID's links.
fn is_of_four(verb: &str, sid: &str, way: &str, hex: &str) -> bool
    ensures { result ≡ is_stage (verb.now ∷ sid.now ∷ way.now ∷ hex.now ∷ []) }
{
    verb == "again" && is_prefix(sid) && way == "through" && is_hex(hex)
}

/// Whether five words are the line of an execution after which a packet goes by a table, or of one
/// that exposed a packet which goes over a SID's links.
fn is_of_five(verb: &str, sid: &str, way: &str, number: &str, hex: &str) -> bool
    ensures { result ≡ is_stage (verb.now ∷ sid.now ∷ way.now ∷ number.now ∷ hex.now ∷ []) }
{
    ((verb == "again" && way == "table" && is_number(LAST_TABLE, number))
        || (verb == "hand" && way == "through" && family_of(number).is_some()))
        && is_prefix(sid)
        && is_hex(hex)
}

/// Whether six words are the line of an execution that exposed a packet which goes by a table.
fn is_of_six(verb: &str, sid: &str, way: &str, table: &str, family: &str, hex: &str) -> bool
    ensures { result ≡ is_stage
        (verb.now ∷ sid.now ∷ way.now ∷ table.now ∷ family.now ∷ hex.now ∷ []) }
{
    verb == "hand"
        && is_prefix(sid)
        && way == "table"
        && is_number(LAST_TABLE, table)
        && family_of(family).is_some()
        && is_hex(hex)
}

/// Whether words are a stage's line.
pub(crate) fn is_stage(words: &[&str]) -> bool
    ensures { result ≡ is_stage (map (λ word. word.now) words.now) }
{
    match words {
        [verb] => *verb == "local",
        [verb, what, hex] => is_of_three(*verb, *what, *hex),
        [verb, sid, way, hex] => is_of_four(*verb, *sid, *way, *hex),
        [verb, sid, way, number, hex] => is_of_five(*verb, *sid, *way, *number, *hex),
        [verb, sid, way, table, family, hex] => {
            is_of_six(*verb, *sid, *way, *table, *family, *hex)
        }
        _ => false,
    }
}
