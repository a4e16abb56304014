//! What an object asks for.

ghost use Rattle.std.specs.Prelude.{◌≡◌};
ghost use Rattle.serde_json.specs.View.{view};
ghost use Rattle.text_faults.specs.TextReading.{Gives};
ghost use Rattle.pce_protocol.specs.Requests.{source_of, plan_source_of, version_of, load_of, without_of, drop_of, compile_of, judge_of, trace_of, asked_by, asked};

use crate::choices::Choices;
use crate::field::Field;
use crate::object::{RequestError, needed, only, optional};
use crate::packet::Packet;
use crate::request::{
    Compile, Judge, Load, Request, RequestFault, Routes, TextSource, Trace, Without,
};
use crate::text::Text;
use crate::verb::Verb;
use base::Seq;
use net_model::Name;
use serde_json::Value;
use std::alloc::Global;
use v6_addr::Addr;

/// The text of a network, of which one form has to be given.
fn source_of(text: Option<Text>, path: Option<Text>) -> Result<TextSource, RequestFault>
    ensures { result ≡ source_of text path }
{
    match (text, path) {
        (None, None) => Err(RequestFault::BadField(Field::Network)),
        (Some(text), None) => Ok(TextSource::Here(text)),
        (None, Some(path)) => Ok(TextSource::File(path)),
        (Some(_), Some(_)) => Err(RequestFault::BadField(Field::File)),
    }
}

/// The text of a plan, of which one form may be given.
fn plan_source_of(
    text: Option<Text>,
    path: Option<Text>,
) -> Result<Option<TextSource>, RequestFault>
    ensures { result ≡ plan_source_of text path }
{
    match (text, path) {
        (None, None) => Ok(None),
        (Some(text), None) => Ok(Some(TextSource::Here(text))),
        (None, Some(path)) => Ok(Some(TextSource::File(path))),
        (Some(_), Some(_)) => Err(RequestFault::BadField(Field::PlanFile)),
    }
}

fn version_of(alloc: Global, object: &Value) -> Result<Request, RequestError>
    ensures { Gives (λ r. r) result (version_of (view object.now)) }
{
    only(alloc, object, &[])?;
    Ok(Request::Version)
}

fn load_of(alloc: Global, object: &Value) -> Result<Request, RequestError>
    ensures { Gives (λ r. r) result (load_of (view object.now)) }
{
    let known = [
        Field::As,
        Field::Network,
        Field::File,
        Field::Plan,
        Field::PlanFile,
    ];
    only(alloc, object, &known)?;
    let name = needed::<Name>(alloc, object, Field::As)?;
    let text = optional::<Option<Text>>(alloc, None, object, Field::Network)?;
    let path = optional::<Option<Text>>(alloc, None, object, Field::File)?;
    let plan_text = optional::<Option<Text>>(alloc, None, object, Field::Plan)?;
    let plan_path = optional::<Option<Text>>(alloc, None, object, Field::PlanFile)?;
    let network = source_of(text, path)?;
    let plan = plan_source_of(plan_text, plan_path)?;
    Ok(Request::Load(Load {
        name,
        network,
        plan,
    }))
}

fn without_of(alloc: Global, object: &Value) -> Result<Request, RequestError>
    ensures { Gives (λ r. r) result (without_of (view object.now)) }
{
    let known = [
        Field::From,
        Field::As,
        Field::Links,
        Field::Nodes,
        Field::Routes,
    ];
    only(alloc, object, &known)?;
    let from = needed::<Name>(alloc, object, Field::From)?;
    let name = needed::<Name>(alloc, object, Field::As)?;
    let links = needed::<Seq<Name>>(alloc, object, Field::Links)?;
    let nodes = needed::<Seq<Name>>(alloc, object, Field::Nodes)?;
    let routes = optional::<Routes>(alloc, Routes::Keep, object, Field::Routes)?;
    Ok(Request::Without(Without {
        from,
        name,
        links,
        nodes,
        routes,
    }))
}

fn drop_of(alloc: Global, object: &Value) -> Result<Request, RequestError>
    ensures { Gives (λ r. r) result (drop_of (view object.now)) }
{
    only(alloc, object, &[Field::As])?;
    let name = needed::<Name>(alloc, object, Field::As)?;
    Ok(Request::Drop(name))
}

fn compile_of(alloc: Global, object: &Value) -> Result<Request, RequestError>
    ensures { Gives (λ r. r) result (compile_of (view object.now)) }
{
    only(
        alloc,
        object,
        &[Field::In, Field::Intent, Field::Certificate],
    )?;
    let network = needed::<Name>(alloc, object, Field::In)?;
    let intent = needed::<Text>(alloc, object, Field::Intent)?;
    let certificate = optional::<bool>(alloc, false, object, Field::Certificate)?;
    Ok(Request::Compile(Compile {
        network,
        intent,
        certificate,
    }))
}

fn judge_of(alloc: Global, object: &Value) -> Result<Request, RequestError>
    ensures { Gives (λ r. r) result (judge_of (view object.now)) }
{
    only(alloc, object, &[Field::In, Field::Intent, Field::List])?;
    let network = needed::<Name>(alloc, object, Field::In)?;
    let intent = needed::<Text>(alloc, object, Field::Intent)?;
    let list = needed::<Seq<Addr>>(alloc, object, Field::List)?;
    Ok(Request::Judge(Judge {
        network,
        intent,
        list,
    }))
}

fn trace_of(alloc: Global, object: &Value) -> Result<Request, RequestError>
    ensures { Gives (λ r. r) result (trace_of (view object.now)) }
{
    let known = [Field::In, Field::Node, Field::Packet, Field::Choices];
    only(alloc, object, &known)?;
    let network = needed::<Name>(alloc, object, Field::In)?;
    let node = needed::<Name>(alloc, object, Field::Node)?;
    let packet = needed::<Packet>(alloc, object, Field::Packet)?;
    let zero = Choices::zero(alloc)?;
    let choices = optional::<Choices>(alloc, zero, object, Field::Choices)?;
    Ok(Request::Trace(Trace {
        network,
        node,
        packet,
        choices,
    }))
}

fn asked_by(alloc: Global, verb: Verb, object: &Value) -> Result<Request, RequestError>
    ensures { Gives (λ r. r) result (asked_by verb (view object.now)) }
{
    match verb {
        Verb::Version => version_of(alloc, object),
        Verb::Load => load_of(alloc, object),
        Verb::Without => without_of(alloc, object),
        Verb::Drop => drop_of(alloc, object),
        Verb::Compile => compile_of(alloc, object),
        Verb::Judge => judge_of(alloc, object),
        Verb::Trace => trace_of(alloc, object),
    }
}

/// What an object asks for, or its first fault beside that of its id.
pub(crate) fn asked(alloc: Global, object: &Value) -> Result<Request, RequestError>
    ensures { Gives (λ r. r) result (asked (view object.now)) }
{
    let verb = needed::<Verb>(alloc, object, Field::Do)?;
    asked_by(alloc, verb, object)
}
