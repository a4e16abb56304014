//! How a walk starts: with the list that an intent is compiled to, as the policy of its headend.

ghost use Rattle.std.specs.Prelude.{◌≡◌, ◌<◌, ◌^◌, [], IfOk};
ghost use Rattle.intent_reader.specs.IntentRulesTerms.{IsIntent};
ghost use Rattle.compile_commands.specs.CompileCommandTerms.{HasValues};
ghost use Rattle.walk_commands.specs.WalkCommand.{headend_of, policy_of};
ghost use Rattle.walk_commands.specs.WalkCommandTerms.{StartsAs};

use crate::headend::Headend;
use base::{NoMemory, Seq};
use command_output::{Failure, Halt, Text, refusal_of_not_flat};
use compile_commands::compiled_lists::{
    least_list, line_of_hop_limit, line_of_none, line_of_too_long,
};
use intent_reader::Intent;
use list_pack::values;
use net_model::Net;
use path_compiler::{CompileFault, Compiled};
use srv6_rules::Policy;
use std::alloc::Global;

/// How a walk starts.
#[derive(Drop)]
pub enum Opening {
    /// At the headend, with the list that the intent is compiled to.
    List(Headend),
    /// There is no list; the line says why.
    NoList(Text),
}

/// What the headend puts in front of packets: the compiled list, with the intent's fields. (RFC
/// 8986 sections 5.1 and 5.2)
#[tactic(auto, using(crate::proofs::WalkStarts::segments))]
fn policy_of(
    alloc: Global,
    net: &Net,
    intent: &Intent,
    compiled: &Compiled,
) -> Result<Policy, NoMemory>
    requires { HasValues net.now compiled.now }
    ensures { IfOk result (λ policy. policy ≡ policy_of net.now intent.now compiled.now) }
{
    let segments = values(alloc, net, &compiled.list)?;
    Ok(Policy {
        source: intent.source,
        segments: Seq::new(segments),
        traffic_class: intent.traffic_class,
        flow_label: intent.flow_label,
        hop_limit: intent.hop_limit,
        reduced: intent.reduced,
    })
}

/// The headend of an intent, with the list that it is compiled to. (RFC 8986 sections 5.1 and 5.2)
pub fn headend_of(
    alloc: Global,
    net: &Net,
    intent: &Intent,
    compiled: &Compiled,
) -> Result<Headend, NoMemory>
    requires { HasValues net.now compiled.now }
    ensures { IfOk result (λ headend. headend ≡ headend_of net.now intent.now compiled.now) }
{
    Ok(Headend {
        node: intent.headend,
        inner: intent.inner,
        policy: policy_of(alloc, net, intent, compiled)?,
    })
}

/// How a walk starts for an intent: with the list that it is compiled to, binding SIDs among its
/// SIDs or not, if there is one.
#[tactic(auto, using(compile_commands::proofs::PublicLaws::valued))]
pub fn start_of_intent(alloc: Global, net: &Net, intent: &Intent) -> Result<Opening, Halt>
    requires whole { net.now.hidden ≡ [] }
    requires intent { IsIntent net.now intent.now }
    ensures { StartsAs net.now intent.now result }
{
    net.keeps_rules();
    match least_list(alloc, net, intent) {
        Ok(list) => Ok(Opening::List(headend_of(alloc, net, intent, &list)?)),
        Err(CompileFault::NotFlat(why)) => Err(Halt::Refused(refusal_of_not_flat(net, &why))),
        Err(CompileFault::NoList { .. }) => Ok(Opening::NoList(line_of_none())),
        Err(CompileFault::TooLong { found }) => {
            Ok(Opening::NoList(line_of_too_long(alloc, found.containers)?))
        }
        Err(CompileFault::HopLimit { found }) => {
            Ok(Opening::NoList(line_of_hop_limit(alloc, found.need)?))
        }
        Err(CompileFault::NoMemory) => Err(Halt::Failed(Failure::NoMemory)),
    }
}

/// A hop limit is a byte.
pub(crate) fn hop_limit_fits(hop_limit: u8)
    ensures { hop_limit < 2 ^ 8 }
{
    let _ = hop_limit;
}
