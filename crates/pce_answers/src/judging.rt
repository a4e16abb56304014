//! Lists that are judged.

ghost use Rattle.std.specs.Prelude.{◌≡◌, ◌<◌, ◌^◌, [], Ok, Err, IfSome, IsSome};
ghost use Rattle.net_flatness.specs.Flat.{flatness_of};
ghost use Rattle.intent_reader.specs.IntentRulesTerms.{IsIntent};
ghost use Rattle.pce_protocol.specs.declared.reply.Answer.TheVariants as answers;
ghost use Rattle.pce_protocol.specs.declared.reply.ReplyError.TheVariants as errors;
ghost use Rattle.pce_answers.specs.NetAnswers.{why_not_flat};
ghost use Rattle.pce_answers.specs.NetAnswersTerms.{IsOr};
ghost use Rattle.pce_answers.specs.JudgeAnswers.{IsJudgeReply, cause_of, judged_of};
ghost use Rattle.pce_answers.specs.JudgeAnswersTerms.{IsReplyToList};

use crate::compiling::fault_reply;
use crate::held_net::HeldNet;
use crate::why::why_refused;
use base::NoMemory;
use command_output::refusal_of_not_flat;
use intent_reader::{Intent, read_intent};
use list_causes::Cause as Happens;
use list_judge::{Judgement, judge_flat};
use net_flatness::{NotFlat, flat_networks_are_refused_for_nothing};
use net_model::Net;
use pce_protocol::{Answer, Cause, Judged, RealizedReply, Reply, ReplyError};
use segment_reading::{ListFault, list_of_segments};
use std::alloc::Global;
use text_faults::OrNoMemory;
use v6_addr::Addr;

/// The cause, as a reply names it.
fn cause_of(cause: Happens) -> Cause
    ensures { result ≡ cause_of cause }
{
    match cause {
        Happens::Lost => Cause::Lost,
        Happens::Astray => Cause::Astray,
        Happens::Apart => Cause::Apart,
        Happens::Early => Cause::Early,
        Happens::Unexecuted => Cause::Unexecuted,
    }
}

/// A number that a reply holds; `None` exactly where it has more than 32 bits.
fn reply_number(number: u64) -> Option<u32>
    ensures held { IfSome result (λ n. n ≡ number) }
    ensures there { number < 2 ^ 32 → IsSome result }
{
    if number > u64::from(u32::MAX) {
        return None;
    }
    Some(number as u32)
}

/// What is said of a legal list, as a reply tells it; `None` where a number of it has more than 32
/// bits.
fn judged_of(judgement: Judgement) -> Option<Judged>
    ensures { IfSome result (λ judged. judged ≡ judged_of judgement) }
{
    match judgement {
        Judgement::Realizes {
            need,
            containers,
            sids,
            least,
            within,
        } => Some(Judged::Realizes(RealizedReply {
            containers: reply_number(containers as u64)?,
            least,
            need: reply_number(need)?,
            sids,
            within,
        })),
        Judgement::Fails { sid, cause } => Some(Judged::No {
            cause: cause_of(cause),
            sid,
        }),
    }
}

/// The reply where the network isn't flat.
fn not_flat_reply(alloc: Global, net: &Net, why: &NotFlat) -> Reply
    ensures { IsOr (Err (errors.NotFlat (why_not_flat net.now why.now))) result }
{
    match why_refused(alloc, &refusal_of_not_flat(net, why)) {
        Ok(why) => Err(ReplyError::NotFlat(why)),
        Err(NoMemory) => Err(ReplyError::NoMemory),
    }
}

/// The reply to a legal list, by what is said of it.
fn judged_reply(judgement: Judgement) -> Reply
    ensures { IsOr (Ok (answers.Judged (judged_of judgement))) result }
{
    match judged_of(judgement) {
        Some(judged) => Ok(Answer::Judged(judged)),
        None => Err(ReplyError::NoMemory),
    }
}

/// The reply to segments in a flat network.
#[tactic(auto, using(crate::proofs::ListJudgements::judging))]
fn flat_reply(alloc: Global, net: &Net, intent: &Intent, list: &[Addr]) -> Reply
    requires whole { net.now.hidden ≡ [] }
    requires flat { flatness_of net.now ≡ Ok tt }
    requires intent { IsIntent net.now intent.now }
    ensures { IsReplyToList net.now intent.now list.now result }
{
    flat_networks_are_refused_for_nothing();
    let list = match list_of_segments(alloc, net, list) {
        Ok(list) => list,
        Err(ListFault::NotLegal) => return Ok(Answer::Judged(Judged::NotLegal)),
        Err(ListFault::NoMemory) => return Err(ReplyError::NoMemory),
    };
    match judge_flat(alloc, net, intent, &list) {
        Ok(judgement) => judged_reply(judgement),
        Err(NoMemory) => Err(ReplyError::NoMemory),
    }
}

/// The reply to segments.
#[tactic(auto, using(crate::proofs::ListJudgements::flatness))]
fn list_reply(alloc: Global, held: &HeldNet, intent: &Intent, list: &[Addr]) -> Reply
    requires { IsIntent held.now intent.now }
    ensures { IsReplyToList held.now intent.now list.now result }
{
    match held.flatness() {
        Ok(()) => flat_reply(alloc, held.net(), intent, list),
        Err(why) => not_flat_reply(alloc, held.net(), why),
    }
}

/// The reply to a request to judge a list, given as its segments in the order in which they are
/// visited: `Refused` exactly where the text gives no intent in the network, with its first fault;
/// else `NotFlat` exactly where the network isn't flat; else that no legal list is spelled so, or
/// what `list_judge::judge` says of the one that is. `NoMemory` may come in the place of any reply.
#[tactic(auto, using(crate::proofs::ListJudgements::reading))]
pub fn judge_answer(alloc: Global, held: &HeldNet, intent: &[u8], list: &[Addr]) -> Reply
    ensures { IsJudgeReply held.now intent.now list.now result }
{
    match read_intent(alloc, intent, held.net()) {
        Ok(intent) => list_reply(alloc, held, &intent, list),
        Err(OrNoMemory::Fault(fault)) => fault_reply(alloc, fault),
        Err(OrNoMemory::NoMemory) => Err(ReplyError::NoMemory),
    }
}
