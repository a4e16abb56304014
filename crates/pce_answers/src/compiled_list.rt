//! A list that was found, as a reply tells it.

ghost use Rattle.std.specs.Prelude.{◌≡◌, IfOk, map};
ghost use Rattle.std.specs.Str.{IsUtf8};
ghost use Rattle.intent_reader.specs.Preferences.{sid_cost_of};
ghost use Rattle.list_pack.specs.SidLists.{list_values, steps_in};
ghost use Rattle.list_certificate.specs.Spelling.{spelled};
ghost use Rattle.compile_commands.specs.CompileCommandTerms.{HasValues, KnowsStates};
ghost use Rattle.pce_answers.specs.NetAnswers.{certificate_if, list_reply_of, path_sid};

use crate::texts::text_of_bytes;
use base::{NoMemory, Seq};
use intent_reader::Intent;
use list_certificate::print;
use list_pack::{PathStep, Solution, values};
use net_model::Net;
use path_compiler::Compiled;
use pce_protocol::{ListReply, PathSid, Text};
use std::alloc::Global;

/// The SIDs of a path.
fn path_of(alloc: Global, steps: &[PathStep]) -> Result<Vec<PathSid>, NoMemory>
    ensures { IfOk result (λ path. path.items ≡ map path_sid steps.now) }
{
    let mut path = Vec::new(alloc);
    for step in steps {
        path.push(PathSid {
            prefix: step.prefix,
            stays: step.stays,
        })?;
    }
    Ok(path)
}

/// A list with its numbers, its SIDs and its segments.
#[tactic(auto, using(crate::proofs::FoundLists::parts))]
pub(crate) fn list_reply(alloc: Global, net: &Net, found: &Compiled) -> Result<ListReply, NoMemory>
    requires values { HasValues net.now found.now }
    requires path { found.now.solution.path ≡ steps_in found.now.list }
    ensures { IfOk result (λ list. list ≡ list_reply_of net.now found.now) }
{
    let path = path_of(alloc, found.solution.path.as_slice())?;
    let segments = values(alloc, net, &found.list)?;
    Ok(ListReply {
        containers: found.containers,
        header: found.header,
        need: found.need,
        path: Seq::new(path),
        segments: Seq::new(segments),
        sids: found.sids as usize,
    })
}

/// The certificate of what the search found, where it is asked for.
pub(crate) fn certificate(
    alloc: Global,
    net: &Net,
    intent: &Intent,
    solution: &Solution,
    asked: bool,
) -> Result<Option<Text>, NoMemory>
    requires known { KnowsStates net.now solution.now }
    requires text { IsUtf8 (spelled net.now (sid_cost_of intent.now.prefer) solution.now) }
    ensures { IfOk result (λ text. text ≡ certificate_if asked net.now intent.now solution.now) }
{
    if !asked {
        return Ok(None);
    }
    let mut bytes = Vec::new(alloc);
    print(alloc, net, intent.prefer.sid_cost(), solution, &mut bytes)?;
    Ok(Some(text_of_bytes(bytes)))
}
