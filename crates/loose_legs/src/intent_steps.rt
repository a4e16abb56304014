//! The steps of an intent as ways over graphs know them, and how many are left behind an execution.

ghost use Rattle.std.specs.Prelude.{◌≡◌, ◌<◌, ◌≤◌, length, IfOk, IfSome};
ghost use Rattle.loose_legs.specs.IntentSteps.{trace_step, trace_steps};
ghost use Rattle.loose_spec.specs.LooseLegs as legs;
ghost use Rattle.loose_spec.specs.LooseSteps.{steps_left};

use base::{NoMemory, Seq};
use choice_graph::Found;
use intent_reader::{Intent, Step};
use intent_traces::TraceStep;
use net_model::Net;
use std::alloc::Global;

fn step_of(alloc: Global, step: &Step) -> Result<TraceStep, NoMemory>
    ensures { IfOk result (λ s. s ≡ trace_step step.now) }
{
    match step {
        Step::Links(set) => Ok(TraceStep::Links(Seq::new(set.as_slice().to_vec(alloc)?))),
        Step::Function(sid) => Ok(TraceStep::Function(*sid)),
        Step::Reach(node) => Ok(TraceStep::Reach(*node)),
    }
}

/// The steps of an intent.
pub fn steps_of(alloc: Global, intent: &Intent) -> Result<Vec<TraceStep>, NoMemory>
    ensures { IfOk result (λ steps. steps.items ≡ trace_steps intent.now) }
{
    let mut steps = Vec::new(alloc);
    let own = intent.steps.as_slice();
    for one in own {
        let step = step_of(alloc, one)?;
        steps.push(step)?;
    }
    Ok(steps)
}

/// The steps that are left where so many are
fn rest_of(steps: &[TraceStep], left: u32) -> &[TraceStep]
    ensures value { result.now ≡ steps_left steps.now left }
    ensures few { length result.now ≤ length steps.now }
{
    &steps[steps.len().saturating_sub(left as usize)..]
}

/// How many steps are left once a SID was executed
fn left_after(net: &Net, n: u32, left: &[TraceStep]) -> Option<u32>
    requires is_there { n < length net.now.sids }
    requires few { length left.now ≤ 48 }
    ensures value { result ≡ legs.left_after net.now n left.now }
    ensures few { IfSome result (λ behind. behind ≤ length left.now) }
{
    if net.sid(n).title.is_none() {
        return Some(left.len() as u32);
    }
    match left {
        [TraceStep::Function(sid), rest @ ..] if *sid == n => Some(rest.len() as u32),
        _ => None,
    }
}

/// How many steps are left behind the execution of a next SID, where that is what is found.
pub fn left_found(net: &Net, steps: &[TraceStep], next: u32, found: &Found) -> Option<u32>
    requires is_there { next < length net.now.sids }
    requires few { length steps.now ≤ 48 }
    ensures value { result ≡ legs.left_found net.now steps.now next found.now }
    ensures few { IfSome result (λ left. left ≤ length steps.now) }
{
    if found.answer / 64 != next {
        return None;
    }
    left_after(net, next, rest_of(steps, found.answer % 64))
}
