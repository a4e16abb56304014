//! What requests give, as JSON values.

ghost use Rattle.std.specs.Prelude.{◌≡◌, IfOk};
ghost use Rattle.serde_json.specs.Data.{object};
ghost use Rattle.serde_json.specs.View.{view, members_view};
ghost use Rattle.pce_protocol.specs.declared.reply.Compiled.TheVariants.{NoList};
ghost use Rattle.pce_protocol.specs.Replies.{version_data, held_data, list_members, compiled_members, certified, cause_text, realized_data, judged_data, answer_data};

use crate::listed::list_value;
use crate::reply::{Answer, Cause, Compiled, Held, Judged, ListReply, RealizedReply};
use crate::text::Text;
use serde_json::{Map, Value, json, put};
use std::alloc::{AllocError, Global};

fn held_value(alloc: Global, held: &Held) -> Result<Value, AllocError>
    ensures { IfOk result (λ v. view v ≡ held_data held.now) }
{
    match &held.not_flat {
        None => json!(in alloc; {
            "flat": true,
            "links": (held.links),
            "nodes": (held.nodes),
            "routes": (held.routes),
            "sids": (held.sids)
        }),
        Some(why) => json!(in alloc; {
            "flat": false,
            "links": (held.links),
            "nodes": (held.nodes),
            "routes": (held.routes),
            "sids": (held.sids),
            "why": (why.as_str())
        }),
    }
}

/// The members of a list.
fn list_map(alloc: Global, answer: &str, list: &ListReply) -> Result<Map<String, Value>, AllocError>
    ensures { IfOk result (λ m. members_view m.entries ≡ list_members answer.now list.now) }
{
    let path = list_value(alloc, list.path.as_slice())?;
    let segments = list_value(alloc, list.segments.as_slice())?;
    let mut map = Map::new(alloc);
    put(
        &mut map,
        alloc,
        "answer",
        Value::try_from_str(alloc, answer)?,
    )?;
    put(&mut map, alloc, "containers", Value::from(list.containers))?;
    put(&mut map, alloc, "header", Value::from(list.header))?;
    put(&mut map, alloc, "need", Value::from(list.need))?;
    put(&mut map, alloc, "path", path)?;
    put(&mut map, alloc, "segments", segments)?;
    put(&mut map, alloc, "sids", Value::from(list.sids))?;
    Ok(map)
}

/// The members of no list.
fn no_list_map(alloc: Global) -> Result<Map<String, Value>, AllocError>
    ensures { IfOk result (λ m. members_view m.entries ≡ compiled_members NoList) }
{
    let mut map = Map::new(alloc);
    put(
        &mut map,
        alloc,
        "answer",
        Value::try_from_str(alloc, "NoList")?,
    )?;
    Ok(map)
}

fn compiled_map(alloc: Global, compiled: &Compiled) -> Result<Map<String, Value>, AllocError>
    ensures { IfOk result (λ m. members_view m.entries ≡ compiled_members compiled.now) }
{
    match compiled {
        Compiled::List(list) => list_map(alloc, "list", list),
        Compiled::NoList => no_list_map(alloc),
        Compiled::TooLong(list) => list_map(alloc, "TooLong", list),
        Compiled::HopLimit(list) => list_map(alloc, "HopLimit", list),
    }
}

/// The members with the certificate in its place, where it is there.
fn certified_map(
    alloc: Global,
    members: Map<String, Value>,
    certificate: &Option<Text>,
) -> Result<Map<String, Value>, AllocError>
    ensures { IfOk result (λ m. members_view m.entries
        ≡ certified certificate.now (members_view members.entries)) }
{
    match certificate {
        None => Ok(members),
        Some(text) => {
            let mut map = members;
            let value = Value::try_from_str(alloc, text.as_str())?;
            put(&mut map, alloc, "certificate", value)?;
            Ok(map)
        }
    }
}

fn compiled_value(
    alloc: Global,
    compiled: &Compiled,
    certificate: &Option<Text>,
) -> Result<Value, AllocError>
    ensures { IfOk result (λ v. view v
        ≡ object (certified certificate.now (compiled_members compiled.now))) }
{
    let members = compiled_map(alloc, compiled)?;
    let map = certified_map(alloc, members, certificate)?;
    Ok(Value::from(map))
}

impl Cause {
    /// The word of the cause.
    pub fn word(self) -> &'static str
        ensures { result.now ≡ cause_text self }
    {
        match self {
            Cause::Lost => "lost",
            Cause::Astray => "astray",
            Cause::Apart => "apart",
            Cause::Early => "early",
            Cause::Unexecuted => "unexecuted",
        }
    }
}

fn realized_value(alloc: Global, realized: &RealizedReply) -> Result<Value, AllocError>
    ensures { IfOk result (λ v. view v ≡ realized_data realized.now) }
{
    json!(in alloc; {
        "answer": "realizes",
        "containers": (realized.containers),
        "least": (realized.least),
        "need": (realized.need),
        "sids": (realized.sids),
        "within": (realized.within)
    })
}

fn judged_value(alloc: Global, judged: &Judged) -> Result<Value, AllocError>
    ensures { IfOk result (λ v. view v ≡ judged_data judged.now) }
{
    match judged {
        Judged::Realizes(realized) => realized_value(alloc, realized),
        Judged::NotLegal => json!(in alloc; {"answer": "not legal"}),
        Judged::No { cause, sid } => {
            json!(in alloc; {"answer": "no", "cause": (cause.word()), "sid": (*sid)})
        }
    }
}

/// What a request gives, as a JSON value.
pub(crate) fn answer_value(alloc: Global, answer: &Answer) -> Result<Value, AllocError>
    ensures { IfOk result (λ v. view v ≡ answer_data answer.now) }
{
    match answer {
        Answer::Version => json!(in alloc; {"program": "srv6-pce", "protocol": 1u64}),
        Answer::Held(held) => held_value(alloc, held),
        Answer::Dropped => Ok(Value::Object(Map::new(alloc))),
        Answer::Compiled(compiled, certificate) => compiled_value(alloc, compiled, certificate),
        Answer::Judged(judged) => judged_value(alloc, judged),
        Answer::Traced(text) => json!(in alloc; {"trace": (text.as_str())}),
    }
}
