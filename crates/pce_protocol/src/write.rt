//! The bytes of replies.

ghost use Rattle.std.specs.Prelude.{◌≡◌, IfOk};
ghost use Rattle.serde_json.specs.View.{view};
ghost use Rattle.pce_protocol.specs.Replies.{plain_error, bad_request, refused, fault_data, error_data, reply_data, reply_text};

use crate::answer_values::answer_value;
use crate::id::{Id, id_value};
use crate::reply::{Reply, ReplyError};
use crate::request::RequestFault;
use base::NoMemory;
use serde_json::{Value, json};
use std::alloc::{AllocError, Global};

fn plain_error(alloc: Global, name: &str) -> Result<Value, AllocError>
    ensures { IfOk result (λ v. view v ≡ plain_error name.now) }
{
    json!(in alloc; {"name": name})
}

fn bad_request(alloc: Global, field: &str) -> Result<Value, AllocError>
    ensures { IfOk result (λ v. view v ≡ bad_request field.now) }
{
    json!(in alloc; {"field": field, "name": "BadRequest"})
}

fn refused(alloc: Global, name: &str, why: &str) -> Result<Value, AllocError>
    ensures { IfOk result (λ v. view v ≡ refused name.now why.now) }
{
    json!(in alloc; {"name": name, "why": why})
}

fn fault_value(alloc: Global, fault: &RequestFault) -> Result<Value, AllocError>
    ensures { IfOk result (λ v. view v ≡ fault_data fault.now) }
{
    match fault {
        RequestFault::BadJson => plain_error(alloc, "BadJson"),
        RequestFault::BadField(field) => bad_request(alloc, field.name()),
        RequestFault::UnknownField(name) => bad_request(alloc, name.as_str()),
    }
}

fn error_value(alloc: Global, error: &ReplyError) -> Result<Value, AllocError>
    ensures { IfOk result (λ v. view v ≡ error_data error.now) }
{
    match error {
        ReplyError::Request(fault) => fault_value(alloc, fault),
        ReplyError::TooBig(limit) => json!(in alloc; {"limit": (*limit), "name": "TooBig"}),
        ReplyError::UnknownName(name) => {
            json!(in alloc; {"name": "UnknownName", "unknown": (name.as_str())})
        }
        ReplyError::BadFile => plain_error(alloc, "BadFile"),
        ReplyError::Refused(why) => refused(alloc, "Refused", why.as_str()),
        ReplyError::NotFlat(why) => refused(alloc, "NotFlat", why.as_str()),
        ReplyError::NoMemory => plain_error(alloc, "NoMemory"),
    }
}

fn reply_value(alloc: Global, id: &Id, reply: &Reply) -> Result<Value, AllocError>
    ensures { IfOk result (λ v. view v ≡ reply_data id.now reply.now) }
{
    let id = id_value(alloc, id)?;
    match reply {
        Ok(answer) => {
            let answer = answer_value(alloc, answer)?;
            json!(in alloc; {"id": id, "ok": answer})
        }
        Err(error) => {
            let error = error_value(alloc, error)?;
            json!(in alloc; {"error": error, "id": id})
        }
    }
}

/// The bytes of a reply, without a line feed: one JSON object whose members stand in ascending order
/// of their names, without spaces.
pub fn write_reply(alloc: Global, id: &Id, reply: &Reply) -> Result<Vec<u8>, NoMemory>
    ensures { IfOk result (λ text. text.items ≡ reply_text id.now reply.now) }
{
    let value = reply_value(alloc, id, reply)?;
    Ok(value.to_vec(alloc)?)
}
