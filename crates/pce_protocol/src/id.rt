//! What names a request in its reply.

ghost use Rattle.std.specs.Prelude.{◌≡◌, IfOk};
ghost use Rattle.serde_json.specs.View.{view, number_view};
ghost use Rattle.serde_json.specs.Written.{compact_text};
ghost use Rattle.pce_protocol.specs.Ids.{number_id, plain_id, id_data, is_short, id_of};

use crate::kind::Kind;
use crate::limits::MAX_ID_BYTES;
use crate::text::Text;
use serde_json::{Number, Value};
use std::alloc::{AllocError, Global};

/// What names a request in its reply.
#[derive(Debug, Drop)]
pub enum Id {
    /// Nothing.
    Null,
    /// A bool.
    Bool(bool),
    /// An integer that isn't negative.
    Unsigned(u64),
    /// A negative integer.
    Signed(i64),
    /// A text.
    Text(Text),
}

/// The integer of 64 bits that a number is.
fn number_id(number: &Number) -> Option<Id>
    ensures { result ≡ number_id (number_view number.now) }
{
    if let Some(integer) = number.as_u64() {
        return Some(Id::Unsigned(integer));
    }
    match number.as_i64() {
        Some(integer) => Some(Id::Signed(integer)),
        None => None,
    }
}

/// What a value names; `None` where it is a float, an array or an object.
fn plain_id(alloc: Global, value: &Value) -> Result<Option<Id>, AllocError>
    ensures { IfOk result (λ id. id ≡ plain_id (view value.now)) }
{
    match value {
        Value::Null => Ok(Some(Id::Null)),
        Value::Bool(b) => Ok(Some(Id::Bool(*b))),
        Value::Number(number) => Ok(number_id(number)),
        Value::String(text) => Ok(Some(Id::Text(Text::new(text.clone()?)))),
        Value::Array(_) | Value::Object(_) => Ok(None),
    }
}

/// The id as a JSON value.
pub(crate) fn id_value(alloc: Global, id: &Id) -> Result<Value, AllocError>
    ensures { IfOk result (λ v. view v ≡ id_data id.now) }
{
    match id {
        Id::Null => Ok(Value::Null),
        Id::Bool(b) => Ok(Value::from(*b)),
        Id::Unsigned(integer) => Ok(Value::from(*integer)),
        Id::Signed(integer) => Ok(Value::from(*integer)),
        Id::Text(text) => Value::try_from_str(alloc, text.as_str()),
    }
}

/// The text by which a reply writes an id.
fn id_text(alloc: Global, id: &Id) -> Result<Vec<u8>, AllocError>
    ensures { IfOk result (λ text. text.items ≡ compact_text (id_data id.now)) }
{
    let value = id_value(alloc, id)?;
    Ok(value.to_vec(alloc)?)
}

/// Whether a reply writes an id in at most `MAX_ID_BYTES` bytes.
fn is_short(alloc: Global, id: &Id) -> Result<bool, AllocError>
    ensures { IfOk result (λ is. is ≡ is_short id.now) }
{
    let text = id_text(alloc, id)?;
    Ok(text.as_slice().len() <= MAX_ID_BYTES)
}

/// Null, a bool, an integer of 64 bits or a text, which a reply writes in at most 256 bytes.
impl Kind for Id {
    ghost kind = { id_of };

    fn of(alloc: Global, value: &Value) -> Result<Option<Id>, AllocError> {
        let Some(id) = plain_id(alloc, value)? else {
            return Ok(None);
        };
        if is_short(alloc, &id)? {
            Ok(Some(id))
        } else {
            Ok(None)
        }
    }
}
