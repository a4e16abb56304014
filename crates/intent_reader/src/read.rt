//! From the text of an intent to its value.

ghost use Rattle.std.specs.Prelude.{◌≡◌, IfOk};
ghost use Rattle.net_syntax.specs.IntentText.{intent_in};
ghost use Rattle.text_faults.specs.TextReading.{Gives};
ghost use Rattle.intent_reader.specs.IntentReading.{of_text};
ghost use Rattle.intent_reader.specs.IntentJudging.{is_reduced, judged, intent_of_text};
ghost use Rattle.intent_reader.specs.Described.{InRange};
ghost use Rattle.intent_reader.specs.IntentRulesTerms.{IsIntent};

use crate::fault::IntentFault;
use crate::intent::Intent;
use crate::intent_rules::{ends_in_function, is_within_loose_limit};
use crate::names::node_at;
use crate::steps::steps_from;
use net_model::Net;
use net_syntax::{DescribedIntent, Mode};
use std::alloc::Global;
use text_faults::OrNoMemory;

/// Whether a form is the reduced one.
fn is_reduced(mode: Mode) -> bool
    ensures { result ≡ is_reduced mode }
{
    matches!(mode, Mode::Reduced)
}

/// What a text says.
#[tactic(auto, using(crate::proofs::IntentRangeLemmas::ranges))]
fn described(alloc: Global, text: &[u8]) -> Result<DescribedIntent, OrNoMemory<IntentFault>>
    ensures said { Gives (λ d. d) result (of_text (intent_in text.now)) }
    ensures range { IfOk result (λ d. InRange d) }
{
    match net_syntax::read_intent_words(alloc, text) {
        Ok(intent) => Ok(intent),
        Err(OrNoMemory::Fault(fault)) => Err(OrNoMemory::Fault(IntentFault::Text(fault))),
        Err(OrNoMemory::NoMemory) => Err(OrNoMemory::NoMemory),
    }
}

/// The intent in the network that a description gives.
fn judged(
    alloc: Global,
    net: &Net,
    described: DescribedIntent,
) -> Result<Intent, OrNoMemory<IntentFault>>
    requires { InRange described }
    ensures { Gives (λ i. i) result (judged net.now described) }
{
    let headend = node_at(net, 0, &described.headend)?;
    let steps = steps_from(alloc, net, headend, described.steps.as_slice())?;
    if !ends_in_function(steps.as_slice()) {
        return Err(OrNoMemory::Fault(IntentFault::NotFunctionLast));
    }
    if !is_within_loose_limit(net, steps.as_slice()) {
        return Err(OrNoMemory::Fault(IntentFault::LooseLimit));
    }
    Ok(Intent {
        headend,
        source: described.source,
        inner: described.inner,
        reduced: is_reduced(described.mode),
        hop_limit: described.hop_limit,
        max_containers: described.max_containers,
        traffic_class: described.traffic_class,
        flow_label: described.flow_label,
        prefer: described.prefer,
        steps,
    })
}

/// The intent that a text gives in a network, or its first fault.
///
/// First comes `Text`, with the fault of the text itself: that it is not TOML, or the first fault
/// of an intent's keys and values as `net_syntax::read_intent_words` gives it. Then `UnknownName` at
/// step 0, where no node has the headend's name. Then the steps in their order: the first stands at
/// the headend, and each later one where the one before it ended, a step of links at their common
/// end, a function where it stands, and a reach at its node. Of a step comes `UnknownName` where no
/// link has one of its names or no node has the name to be reached; `DoubleLink` where a link
/// stands twice in it; `Broken` where its links do not start where it stands, end apart or leave
/// the network, or where it stands at the node to be reached; `NoFunction` where no SID has its
/// title, or the SID is not where the step stands. Then comes `NotFunctionLast`, and last
/// `LooseLimit`, where a step is loose and the network has more than 128 SIDs. `NoMemory`
/// may come at any time, and says nothing about the text.
#[tactic(auto, using(crate::proofs::IntentJudgingLemmas::kept_intents))]
pub fn read_intent(alloc: Global, text: &[u8], net: &Net) -> Result<Intent, OrNoMemory<IntentFault>>
    ensures reads { Gives (λ i. i) result (intent_of_text net.now text.now) }
    ensures keeps { IfOk result (λ i. IsIntent net.now i) }
{
    let described = described(alloc, text)?;
    judged(alloc, net, described)
}
