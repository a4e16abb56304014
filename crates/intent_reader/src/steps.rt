//! The steps of an intent, each from the node where the one before it ended.

ghost use Rattle.std.specs.Prelude.{◌≡◌, ◌-◌, ◌<◌, ◌^◌, length};
ghost use Rattle.toml_reader.specs.TomlReading.{or_fault};
ghost use Rattle.text_faults.specs.TextReading.{Gives};
ghost use Rattle.intent_reader.specs.IntentRules.{node_after};
ghost use Rattle.intent_reader.specs.IntentJudging.{step_named, astray, steps_from};

use crate::fault::{IntentFault, StepFault};
use crate::intent::{Step, Steps};
use crate::intent_rules::node_after;
use crate::names::{are_distinct, function_named, links_at, node_at};
use net_model::Net;
use net_syntax::DescribedStep;
use std::alloc::Global;
use text_faults::OrNoMemory;

/// The step with a number, by its names.
fn step_named(
    alloc: Global,
    net: &Net,
    number: u32,
    described: &DescribedStep,
) -> Result<Step, OrNoMemory<IntentFault>>
    ensures { Gives (λ s. s) result (step_named net.now number described.now) }
{
    match described {
        DescribedStep::Links(names) => {
            let links = links_at(alloc, net, number, names.as_slice())?;
            if are_distinct(links.as_slice()) {
                Ok(Step::Links(links))
            } else {
                Err(OrNoMemory::Fault(StepFault::DoubleLink.at(number)))
            }
        }
        DescribedStep::Function(title) => match function_named(net, title.as_bytes()) {
            Some(sid) => Ok(Step::Function(sid)),
            None => Err(OrNoMemory::Fault(StepFault::NoFunction.at(number))),
        },
        DescribedStep::Reach(name) => Ok(Step::Reach(node_at(net, number, name)?)),
    }
}

/// The fault of a step that does not lead on from the node where it stands.
fn astray(number: u32, step: &Step) -> IntentFault
    ensures { result ≡ astray number step.now }
{
    match step {
        Step::Links(_) | Step::Reach(_) => StepFault::Broken.at(number),
        Step::Function(_) => StepFault::NoFunction.at(number),
    }
}

/// The node where a step from a node ends.
fn step_from(net: &Net, number: u32, node: u32, step: &Step) -> Result<u32, IntentFault>
    ensures { result ≡ or_fault (astray number step.now) (node_after net.now node step.now) }
{
    match node_after(net, node, step) {
        Some(next) => Ok(next),
        None => Err(astray(number, step)),
    }
}

/// The steps from the headend.
#[tactic(auto, using(crate::proofs::IntentListReading::stepping))]
pub(crate) fn steps_from(
    alloc: Global,
    net: &Net,
    headend: u32,
    described: &[DescribedStep],
) -> Result<Steps, OrNoMemory<IntentFault>>
    requires { length described.now < 2 ^ 32 - 1 }
    ensures { Gives (λ s. s) result (steps_from net.now 1 headend described.now) }
{
    let mut steps = Vec::new(alloc);
    let mut node = headend;
    for (i, one) in described.iter().enumerate() {
        let number = i as u32 + 1;
        let step = step_named(alloc, net, number, one)?;
        node = step_from(net, number, node, &step)?;
        steps.push(step)?;
    }
    Ok(Steps::new(steps))
}
