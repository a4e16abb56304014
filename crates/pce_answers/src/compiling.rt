//! Intents that are compiled.

ghost use Rattle.std.specs.Prelude.{◌≡◌, Ok, Err, IfOk};
ghost use Rattle.std.specs.Str.{IsUtf8};
ghost use Rattle.net_model.specs.NetworkRulesTerms.{IsNetwork};
ghost use Rattle.intent_reader.specs.Preferences.{sid_cost_of};
ghost use Rattle.intent_reader.specs.IntentRulesTerms.{IsIntent};
ghost use Rattle.intent_compiler.specs.CompilerAnswers.{IntentAnswers, NoneLessFor};
ghost use Rattle.list_pack.specs.SidLists.{steps_in};
ghost use Rattle.list_certificate.specs.Spelling.{spelled};
ghost use Rattle.command_output.specs.declared.refusal.Refusal.TheVariants as refusals;
ghost use Rattle.compile_commands.specs.CompileCommandTerms.{HasValues, KnowsStates};
ghost use Rattle.pce_protocol.specs.declared.reply.ReplyError.TheVariants as errors;
ghost use Rattle.pce_answers.specs.NetAnswers.{IsCompileReply, certificate_if, compiled_reply_of, list_reply_of, why_of};
ghost use Rattle.pce_answers.specs.NetAnswersTerms.{IsOr, IsReplyTo};

use crate::compiled_list::{certificate, list_reply};
use crate::held_net::HeldNet;
use crate::why::why_refused;
use base::NoMemory;
use command_output::{Refusal, refusal_of_not_flat};
use intent_compiler::compile_flat;
use intent_reader::{Intent, IntentFault, read_intent};
use net_model::Net;
use path_compiler::{CompileFault, Compiled as Found};
use pce_protocol::{Answer, Compiled, ListReply, Reply, ReplyError, Text};
use std::alloc::Global;
use text_faults::OrNoMemory;

/// A list that was found, and its certificate where it is asked for.
fn told_list(
    alloc: Global,
    net: &Net,
    intent: &Intent,
    asked: bool,
    found: &Found,
) -> Result<(ListReply, Option<Text>), NoMemory>
    requires values { HasValues net.now found.now }
    requires path { found.now.solution.path ≡ steps_in found.now.list }
    requires known { KnowsStates net.now found.now.solution }
    requires text { IsUtf8 (spelled net.now (sid_cost_of intent.now.prefer) found.now.solution) }
    ensures { IfOk result (λ told. (told.0 ≡ list_reply_of net.now found.now)
        × (told.1 ≡ certificate_if asked net.now intent.now found.now.solution)) }
{
    let list = list_reply(alloc, net, found)?;
    let text = certificate(alloc, net, intent, &found.solution, asked)?;
    Ok((list, text))
}

/// The reply to an answer of the compiler.
#[tactic(auto, using(crate::proofs::Answering::told))]
fn reply_of(
    alloc: Global,
    net: &Net,
    intent: &Intent,
    asked: bool,
    answer: &Result<Found, CompileFault>,
) -> Result<Reply, NoMemory>
    requires network { IsNetwork net.now }
    requires intent { IsIntent net.now intent.now }
    requires answers { IntentAnswers net.now intent.now answer.now }
    ensures { IfOk result (λ reply.
        reply ≡ compiled_reply_of net.now intent.now asked answer.now) }
{
    match answer {
        Ok(found) => {
            let (list, text) = told_list(alloc, net, intent, asked, found)?;
            Ok(Ok(Answer::Compiled(Compiled::List(list), text)))
        }
        Err(CompileFault::NotFlat(why)) => {
            let why = why_refused(alloc, &refusal_of_not_flat(net, why))?;
            Ok(Err(ReplyError::NotFlat(why)))
        }
        Err(CompileFault::NoList { solution }) => {
            let text = certificate(alloc, net, intent, solution, asked)?;
            Ok(Ok(Answer::Compiled(Compiled::NoList, text)))
        }
        Err(CompileFault::TooLong { found }) => {
            let (list, text) = told_list(alloc, net, intent, asked, found)?;
            Ok(Ok(Answer::Compiled(Compiled::TooLong(list), text)))
        }
        Err(CompileFault::HopLimit { found }) => {
            let (list, text) = told_list(alloc, net, intent, asked, found)?;
            Ok(Ok(Answer::Compiled(Compiled::HopLimit(list), text)))
        }
        Err(CompileFault::NoMemory) => Ok(Err(ReplyError::NoMemory)),
    }
}

/// The compiler's answer, where the network's flatness is known.
fn answer_of(alloc: Global, held: &HeldNet, intent: &Intent) -> Result<Found, CompileFault>
    requires { IsIntent held.now intent.now }
    ensures answer { IntentAnswers held.now intent.now result }
    ensures handing { NoneLessFor held.now intent.now result }
{
    match held.flatness() {
        Ok(()) => compile_flat(alloc, held.net(), intent),
        Err(why) => Err(CompileFault::NotFlat(*why)),
    }
}

/// The reply to an intent.
#[tactic(auto, using(crate::proofs::Replying::replying))]
fn intent_reply(alloc: Global, held: &HeldNet, intent: &Intent, asked: bool) -> Reply
    requires { IsIntent held.now intent.now }
    ensures { IsReplyTo held.now asked (Ok intent.now) result }
{
    let net = held.net();
    net.keeps_rules();
    let answer = answer_of(alloc, held, intent);
    match reply_of(alloc, net, intent, asked, &answer) {
        Ok(reply) => reply,
        Err(NoMemory) => Err(ReplyError::NoMemory),
    }
}

/// The reply to an intent that is not read.
pub(crate) fn fault_reply(alloc: Global, fault: IntentFault) -> Reply
    ensures { IsOr (Err (errors.Refused (why_of (refusals.Intent fault)))) result }
{
    match why_refused(alloc, &Refusal::Intent(fault)) {
        Ok(why) => Err(ReplyError::Refused(why)),
        Err(NoMemory) => Err(ReplyError::NoMemory),
    }
}

/// The reply to a request to compile an intent, with the certificate where it is asked for:
/// `Refused` exactly where the text gives no intent in the network, with its first fault; else
/// `NotFlat` exactly where the network isn't flat; else what `intent_compiler::compile` answers.
/// The network's flatness isn't tested anew. `NoMemory` may come in the place of any reply.
#[tactic(auto, using(crate::proofs::Replying::reading))]
pub fn compile_answer(alloc: Global, held: &HeldNet, intent: &[u8], certificate: bool) -> Reply
    ensures { IsCompileReply held.now intent.now certificate result }
{
    match read_intent(alloc, intent, held.net()) {
        Ok(intent) => intent_reply(alloc, held, &intent, certificate),
        Err(OrNoMemory::Fault(fault)) => fault_reply(alloc, fault),
        Err(OrNoMemory::NoMemory) => Err(ReplyError::NoMemory),
    }
}
