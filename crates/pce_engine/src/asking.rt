//! What is asked of a network that is held.

ghost use Rattle.pce_answers.specs.NetAnswers.{IsCompileReply, IsTraceReply};
ghost use Rattle.pce_answers.specs.JudgeAnswers.{IsJudgeReply};
ghost use Rattle.pce_engine.specs.EngineTerms.{IsAsked};

use crate::lookups::held_as;
use crate::networks::Networks;
use pce_answers::{compile_answer, judge_answer, trace_answer};
use pce_protocol::{Compile, Judge, Reply, Trace};
use std::alloc::Global;

/// Compiles an intent.
pub(crate) fn compile(alloc: Global, networks: &Networks, compile: &Compile) -> Reply
    ensures { IsAsked compile.now.network networks.now
        (λ net. IsCompileReply net compile.now.intent compile.now.certificate) result }
{
    match held_as(alloc, networks, &compile.network) {
        Ok(held) => compile_answer(alloc, held, compile.intent.as_bytes(), compile.certificate),
        Err(error) => Err(error),
    }
}

/// Judges a list.
pub(crate) fn judge(alloc: Global, networks: &Networks, judge: &Judge) -> Reply
    ensures { IsAsked judge.now.network networks.now
        (λ net. IsJudgeReply net judge.now.intent judge.now.list) result }
{
    match held_as(alloc, networks, &judge.network) {
        Ok(held) => judge_answer(alloc, held, judge.intent.as_bytes(), judge.list.as_slice()),
        Err(error) => Err(error),
    }
}

/// Traces a packet.
pub(crate) fn trace(alloc: Global, networks: &Networks, trace: &Trace) -> Reply
    ensures { IsAsked trace.now.network networks.now
        (λ net. IsTraceReply net trace.now.node trace.now.packet trace.now.choices) result }
{
    match held_as(alloc, networks, &trace.network) {
        Ok(held) => trace_answer(alloc, held, &trace.node, &trace.packet, &trace.choices),
        Err(error) => Err(error),
    }
}
