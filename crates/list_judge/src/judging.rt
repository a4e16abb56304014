//! Lists judged.

ghost use Rattle.std.specs.Prelude.{◌≡◌, ◌↔◌, ℕ, ◌++◌, ◌<◌, ◌≤◌, List, [], length, IsTrue, IfOk, OnOk};
ghost use Rattle.net_flatness.specs.Flat.{IsFlat};
ghost use Rattle.intent_reader.specs.IntentRulesTerms.{IsIntent};
ghost use Rattle.list_pack.specs.declared.types.Container.{Container as ContainerValue};
ghost use Rattle.list_pack.specs.SidLists.{IsLegalList, prefixes_in, prefixes_of};
ghost use Rattle.intent_compiler.specs.IntentLegs.{ListRealizesFor};
ghost use Rattle.list_judge_theory.specs.ListCourses as courses;
ghost use Rattle.list_judge.specs.Judgements.{Judges, JudgesOrRefuses};

use crate::course::need_along;
use crate::judgement::{JudgeFault, Judgement};
use crate::least::{Numbers, is_least};
use base::NoMemory;
use intent_compiler::IntentLegs;
use intent_reader::{Intent, has_reach};
use list_causes::{Cause, Failure, failure_of};
use list_pack::{Container, ListLegs, SidList, values};
use net_flatness::compilable;
use net_model::Net;
use std::alloc::Global;
use v6_addr::Prefix;

/// Puts the prefixes of a container behind others
fn push_prefixes(prefixes: &mut Vec<Prefix>, container: &Container) -> Result<(), NoMemory>
    ensures { OnOk result (prefixes.new.items ≡ prefixes.old.items ++ prefixes_of container.now) }
{
    match container {
        Container::Full(first, more) => {
            prefixes.push(*first)?;
            prefixes.extend_from_slice(more.as_slice())?;
        }
        Container::Packed(first, more) => {
            prefixes.push(*first)?;
            prefixes.extend_from_slice(more.as_slice())?;
        }
    }
    Ok(())
}

/// The prefixes of a list, in the order in which they are visited
fn prefixes_in(alloc: Global, list: &[Container]) -> Result<Vec<Prefix>, NoMemory>
    ensures { IfOk result (λ prefixes. prefixes.items ≡ prefixes_in list.now) }
{
    let mut prefixes = Vec::new(alloc);
    for container in list {
        push_prefixes(&mut prefixes, container)?;
    }
    Ok(prefixes)
}

/// How many SIDs the last container of a list has; none count where each SID has to be executed
fn tail_of(alloc: Global, each: bool, list: &[Container]) -> Result<usize, NoMemory>
    ensures { IfOk result (λ tail. tail ≡ courses.tail_of each list.now) }
{
    if each {
        return Ok(0);
    }
    match list.last() {
        None => Ok(0),
        Some(container) => {
            let mut prefixes = Vec::new(alloc);
            push_prefixes(&mut prefixes, container)?;
            Ok(prefixes.len())
        }
    }
}

/// Numbers are within the bounds of an intent
fn is_within(intent: &Intent, numbers: &Numbers) -> bool
    ensures { IsTrue result ↔ ((numbers.now.containers ≤ intent.now.max_containers)
        × (numbers.now.need < intent.now.hop_limit)) }
{
    numbers.containers <= intent.max_containers as usize
        && numbers.need < u64::from(intent.hop_limit)
}

/// What is said of a list that realizes an intent
fn realizes(
    alloc: Global,
    net: &Net,
    intent: &Intent,
    legs: &IntentLegs<'_>,
    numbers: &Numbers,
) -> Result<Judgement, NoMemory>
    requires legs { legs.now ≡ record { net = net.now; intent = intent.now } }
    requires whole { net.now.hidden ≡ [] }
    ensures { IfOk result (λ judgement. (list : List ContainerValue) → IsLegalList net.now list
        → numbers.now.containers ≡ length list → numbers.now.sids ≡ length (prefixes_in list)
        → ListRealizesFor net.now intent.now list numbers.now.need
        → Judges net.now intent.now list judgement) }
{
    Ok(Judgement::Realizes {
        need: numbers.need,
        containers: numbers.containers,
        sids: numbers.sids,
        least: is_least(alloc, net, intent, legs, numbers)?,
        within: is_within(intent, numbers),
    })
}

/// What is said of a list of so many SIDs that doesn't
fn fails(
    alloc: Global,
    net: &Net,
    intent: &Intent,
    list: &SidList,
    sids: usize,
) -> Result<Judgement, NoMemory>
    requires flat { IsFlat net.now }
    requires intent { IsIntent net.now intent.now }
    requires legal { IsLegalList net.now list.now }
    requires sids { sids ≡ length (prefixes_in list.now) }
    requires fails { (need : ℕ) → ¬ ListRealizesFor net.now intent.now list.now need }
    ensures { IfOk result (Judges net.now intent.now list.now) }
{
    net.keeps_rules();
    let segments = values(alloc, net, list)?;
    let failure = failure_of(alloc, net, intent, segments, sids)?.unwrap_or(Failure {
        sid: 0,
        cause: Cause::Early,
    });
    Ok(Judgement::Fails {
        sid: failure.sid,
        cause: failure.cause,
    })
}

/// Judges a legal list against an intent in a network that is known to be flat, as `judge` does.
pub fn judge_flat(
    alloc: Global,
    net: &Net,
    intent: &Intent,
    list: &SidList,
) -> Result<Judgement, NoMemory>
    requires flat { IsFlat net.now }
    requires whole { net.now.hidden ≡ [] }
    requires intent { IsIntent net.now intent.now }
    requires legal { IsLegalList net.now list.now }
    ensures { IfOk result (Judges net.now intent.now list.now) }
{
    net.keeps_rules();
    let containers = list.as_slice();
    let prefixes = prefixes_in(alloc, containers)?;
    let tail = tail_of(alloc, has_reach(intent.steps.as_slice()), containers)?;
    let legs = IntentLegs::build(alloc, net, intent)?;
    legs.keeps_meaning();
    match need_along(net, &legs, tail, prefixes.as_slice())? {
        Some(need) => {
            let numbers = Numbers {
                containers: containers.len(),
                sids: prefixes.len(),
                need,
            };
            realizes(alloc, net, intent, &legs, &numbers)
        }
        None => fails(alloc, net, intent, list, prefixes.len()),
    }
}

/// Judges a legal list against an intent: `Realizes` exactly where the list realizes it, by the same
/// relation as the lists that `compile` chooses from, with its need, and `Fails` exactly where it
/// doesn't, with any need. Where no step is to reach a node, binding SIDs may be among its SIDs, and
/// not all SIDs need be executed. `least` says whether the list that is chosen by the intent's
/// preference has as many containers, the same need, and where few SIDs are preferred as many SIDs;
/// `within` whether the list keeps to the intent's bounds, which don't count otherwise. `NotFlat`
/// comes exactly where the network isn't flat, before all else. Which SID fails, and the cause, are
/// tested and not proved, but that the SID is one of the list's.
pub fn judge(
    alloc: Global,
    net: &Net,
    intent: &Intent,
    list: &SidList,
) -> Result<Judgement, JudgeFault>
    requires whole { net.now.hidden ≡ [] }
    requires intent { IsIntent net.now intent.now }
    requires legal { IsLegalList net.now list.now }
    ensures { JudgesOrRefuses net.now intent.now list.now result }
{
    match compilable(alloc, net) {
        Err(why) => return Err(JudgeFault::NotFlat(why)),
        Ok(()) => {}
    }
    match judge_flat(alloc, net, intent, list) {
        Ok(judgement) => Ok(judgement),
        Err(NoMemory) => Err(JudgeFault::NoMemory),
    }
}
