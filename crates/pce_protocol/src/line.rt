//! Requests by their lines.

ghost use Rattle.std.specs.Prelude.{◌≡◌, ◌⊎◌, Err, IfOk, option_map};
ghost use Rattle.serde_json.specs.View.{view};
ghost use Rattle.text_faults.specs.TextReading.{Gives};
ghost use Rattle.text_faults.specs.declared.fault.OrNoMemory.TheVariants.{NoMemory};
ghost use Rattle.pce_protocol.specs.declared.id.Id.TheVariants as ids;
ghost use Rattle.pce_protocol.specs.Requests.{parsed, object_of, request_of, reply_id_of};

use crate::asked::asked;
use crate::field::Field;
use crate::id::Id;
use crate::object::{RequestError, optional};
use crate::request::{Request, RequestFault};
use serde_json::Value;
use std::alloc::{AllocError, Global};
use text_faults::OrNoMemory;

/// A line that was read.
#[derive(Drop)]
pub struct ReadLine {
    /// What names the request in its reply; null where it has none that may be one.
    pub id: Id,
    /// What it asks for, or its first fault.
    pub request: Result<Request, RequestError>,
}

/// The JSON that a line is, if it is some.
fn parsed(alloc: Global, line: &[u8]) -> Result<Option<Value>, AllocError>
    ensures { IfOk result (λ value. option_map view value ≡ parsed line.now) }
{
    match Value::from_slice(alloc, line) {
        Ok(value) => Ok(Some(value)),
        Err(error) if error.is_memory() => Err(AllocError),
        Err(_) => Ok(None),
    }
}

/// The object that a line is, if it is one.
fn object_of(alloc: Global, line: &[u8]) -> Result<Option<Value>, AllocError>
    ensures { IfOk result (λ object. option_map view object ≡ object_of line.now) }
{
    match parsed(alloc, line)? {
        Some(value) => {
            if value.is_object() {
                Ok(Some(value))
            } else {
                Ok(None)
            }
        }
        None => Ok(None),
    }
}

/// The request that a line is. Its faults are found in this order: `BadJson` where it is no JSON
/// object (bytes that are not UTF-8, and what nests deeper than 127, are none), `BadField` of an
/// `id` that may not be one, then of a `do` that isn't there or names nothing that can be done, then
/// `UnknownField`, then `BadField` of the other fields in their written order.
///
/// Where memory is wanting, the request is `NoMemory`, and the id the line's or null.
pub fn read_request(alloc: Global, line: &[u8]) -> ReadLine
    ensures request { Gives (λ r. r) result.request (request_of line.now) }
    ensures id { (result.id ≡ reply_id_of line.now)
        ⊎ ((result.id ≡ ids.Null) × (result.request ≡ Err NoMemory)) }
{
    match object_of(alloc, line) {
        Err(AllocError) => unnamed(OrNoMemory::NoMemory),
        Ok(None) => unnamed(OrNoMemory::Fault(RequestFault::BadJson)),
        Ok(Some(object)) => match optional::<Id>(alloc, Id::Null, &object, Field::Id) {
            Ok(id) => ReadLine {
                id,
                request: asked(alloc, &object),
            },
            Err(error) => unnamed(error),
        },
    }
}

fn unnamed(error: RequestError) -> ReadLine
    ensures id { result.id ≡ ids.Null }
    ensures request { result.request ≡ Err error }
{
    ReadLine {
        id: Id::Null,
        request: Err(error),
    }
}
