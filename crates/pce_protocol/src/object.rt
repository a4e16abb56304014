//! What the fields of an object give.

ghost use Rattle.std.specs.Prelude.{◌≡◌, ◌∷◌, option_map, bytes_eq};
ghost use Rattle.std.specs.List.{list_any};
ghost use Rattle.serde_json.specs.View.{view, members_view};
ghost use Rattle.text_faults.specs.TextReading.{Gives};
ghost use Rattle.pce_protocol.specs.declared.field.Field.TheVariants as fields;
ghost use Rattle.pce_protocol.specs.Fields.{field_name, is_among, first_unknown};
ghost use Rattle.pce_protocol.specs.Requests.{needed, optional, only};

use crate::field::Field;
use crate::kind::Kind;
use crate::request::RequestFault;
use crate::text::Text;
use serde_json::{Map, Value};
use std::alloc::Global;
use text_faults::OrNoMemory;

/// Why a request is not read.
pub type RequestError = OrNoMemory<RequestFault>;

/// What a field gives; `BadField` exactly where it isn't there, or has another kind of value.
pub(crate) fn needed<X: Kind>(
    alloc: Global,
    object: &Value,
    field: Field,
) -> Result<X, RequestError>
    ensures { Gives (λ x. x) result (needed X.kind (view object.now) field) }
{
    let Some(value) = object.get(field.name()) else {
        return Err(OrNoMemory::Fault(RequestFault::BadField(field)));
    };
    match X::of(alloc, value)? {
        Some(x) => Ok(x),
        None => Err(OrNoMemory::Fault(RequestFault::BadField(field))),
    }
}

/// What a field gives, and the default where it isn't there; `BadField` exactly where it has another
/// kind of value.
pub(crate) fn optional<X: Kind + Drop>(
    alloc: Global,
    default: X,
    object: &Value,
    field: Field,
) -> Result<X, RequestError>
    ensures { Gives (λ x. x) result (optional X.kind default (view object.now) field) }
{
    let Some(value) = object.get(field.name()) else {
        return Ok(default);
    };
    match X::of(alloc, value)? {
        Some(x) => Ok(x),
        None => Err(OrNoMemory::Fault(RequestFault::BadField(field))),
    }
}

/// Whether a name is this field's.
fn is_called(field: &Field, name: &str) -> bool
    ensures { result ≡ bytes_eq (field_name field.now) name.now }
{
    field.name() == name
}

/// Whether a name is that of one of these fields.
fn is_among(known: &[Field], name: &str) -> bool
    ensures { result ≡ is_among known.now name.now }
{
    known.iter().any(|field| is_called(field, name))
}

/// Whether a name is that of one of these fields, or of one that each request may have.
fn is_known(known: &[Field], name: &str) -> bool
    ensures { result ≡ is_among (fields.Id ∷ fields.Do ∷ known.now) name.now }
{
    is_called(&Field::Id, name) || is_called(&Field::Do, name) || is_among(known, name)
}

/// The first member of an object, in ascending order of their names, that a request with these
/// further fields doesn't have.
#[tactic(auto, using(crate::proofs::Members::other_members))]
fn first_unknown<'m>(known: &[Field], members: &'m Map<String, Value>) -> Option<&'m str>
    ensures { option_map (λ name. name.now) result
        ≡ first_unknown (fields.Id ∷ fields.Do ∷ known.now) (members_view members.now.entries) }
{
    for name in members.keys() {
        if !is_known(known, name.as_str()) {
            return Some(name.as_str());
        }
    }
    None
}

/// That an object has no other fields than these, `id` and `do`; else `UnknownField` with the first.
pub(crate) fn only(alloc: Global, object: &Value, known: &[Field]) -> Result<(), RequestError>
    ensures { Gives (λ _. view object.now) result (only known.now (view object.now)) }
{
    let Some(members) = object.as_object() else {
        return Ok(());
    };
    match first_unknown(known, members) {
        None => Ok(()),
        Some(name) => {
            let name = Text::new(name.to_string(alloc)?);
            Err(OrNoMemory::Fault(RequestFault::UnknownField(name)))
        }
    }
}
