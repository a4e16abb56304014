//! The rules of an intent in its network, each as a function that answers one word of the
//! definitions.

ghost use Rattle.std.specs.Prelude.{◌≡◌, slice_get, option_map};
ghost use Rattle.std.specs.List.{list_all};
ghost use Rattle.intent_reader.specs.IntentRules.{end_of_link, ends_at, far_node, first_end, function_node, reached_node, node_after, stand_after, is_function, is_reach, has_reach, ends_in_function, is_within_loose_limit};
ghost use Rattle.intent_reader.specs.IntentRulesTerms.{is_intent};

use crate::intent::{Intent, Step};
use net_model::{Link, Net};
use net_syntax::{MAX_CONTAINERS, MAX_LOOSE_SIDS, MAX_STEPS};
use srv6_rules::SidEntry;

/// The link with a number, if there is one.
#[tactic(auto, using(std::proofs::lemmas::Option::gets))]
fn link_at(net: &Net, n: u32) -> Option<&Link>
    ensures { option_map (λ l. l.now) result ≡ slice_get net.now.links n }
{
    if n < net.links() {
        Some(net.link(n))
    } else {
        None
    }
}

/// The SID with a number, if there is one.
#[tactic(auto, using(std::proofs::lemmas::Option::gets))]
fn sid_at(net: &Net, n: u32) -> Option<&SidEntry>
    ensures { option_map (λ s. s.now) result ≡ slice_get net.now.sids n }
{
    if n < net.sids() {
        Some(net.sid(n))
    } else {
        None
    }
}

/// The node where a link ends, if it is there and ends in the network.
fn end_of(net: &Net, n: u32) -> Option<u32>
    ensures { result ≡ end_of_link (slice_get net.now.links n) }
{
    match link_at(net, n) {
        Some(link) => link.to,
        None => None,
    }
}

fn ends_at(net: &Net, node: u32, n: u32) -> bool
    ensures { result ≡ ends_at net.now node n }
{
    match end_of(net, n) {
        Some(to) => to == node,
        None => false,
    }
}

fn each_ends_at(net: &Net, node: u32, set: &[u32]) -> bool
    ensures { result ≡ list_all (ends_at net.now node) set.now }
{
    set.iter().all(|n| ends_at(net, node, *n))
}

fn first_end(net: &Net, set: &[u32]) -> Option<u32>
    ensures { result ≡ first_end net.now set.now }
{
    match set {
        [] => None,
        [first, ..] => end_of(net, *first),
    }
}

/// The node where links of one node all end, if they do.
fn far_node(net: &Net, node: u32, set: &[u32], first: Option<u32>) -> Option<u32>
    ensures { result ≡ far_node net.now node set.now first }
{
    match first {
        Some(to) if net.is_link_set(node, set) && each_ends_at(net, to, set) => Some(to),
        _ => None,
    }
}

/// The node where a walk stands after a function, if the function is at the node.
fn function_node(net: &Net, node: u32, n: u32) -> Option<u32>
    ensures { result ≡ function_node node (slice_get net.now.sids n) }
{
    match sid_at(net, n) {
        Some(sid) if sid.node == node && sid.title.is_some() => Some(node),
        _ => None,
    }
}

/// The node that a walk reaches, if it is there and the walk doesn't stand at it yet.
fn reached_node(net: &Net, node: u32, reached: u32) -> Option<u32>
    ensures { result ≡ reached_node net.now node reached }
{
    if reached < net.nodes() && node != reached {
        Some(reached)
    } else {
        None
    }
}

/// The node where a walk stands after a step from a node, if the step starts there.
pub(crate) fn node_after(net: &Net, node: u32, step: &Step) -> Option<u32>
    ensures { result ≡ node_after net.now node step.now }
{
    match step {
        Step::Links(links) => {
            let set = links.as_slice();
            far_node(net, node, set, first_end(net, set))
        }
        Step::Function(sid) => function_node(net, node, *sid),
        Step::Reach(reached) => reached_node(net, node, *reached),
    }
}

/// The node where a walk stands after steps from a node, if each starts where the one before it
/// ended.
fn stand_after(net: &Net, node: u32, steps: &[Step]) -> Option<u32>
    ensures { result ≡ stand_after net.now node steps.now }
{
    let mut at = node;
    let mut rest = steps;
    while let [step, others @ ..] = rest {
        let Some(next) = node_after(net, at, step) else {
            return None;
        };
        at = next;
        rest = others;
    }
    Some(at)
}

fn is_function(step: &Step) -> bool
    ensures { result ≡ is_function step.now }
{
    matches!(step, Step::Function(_))
}

/// Whether there is a last step, and it is a function.
pub(crate) fn ends_in_function(steps: &[Step]) -> bool
    ensures { result ≡ ends_in_function steps.now }
{
    match steps {
        [] => false,
        [.., last] => is_function(last),
    }
}

fn is_reach(step: &Step) -> bool
    ensures { result ≡ is_reach step.now }
{
    matches!(step, Step::Reach(_))
}

/// Whether some step is to reach a node.
pub fn has_reach(steps: &[Step]) -> bool
    ensures { result ≡ has_reach steps.now }
{
    steps.iter().any(is_reach)
}

/// Whether the network has at most 128 SIDs, or no step is loose.
pub(crate) fn is_within_loose_limit(net: &Net, steps: &[Step]) -> bool
    ensures { result ≡ is_within_loose_limit net.now steps.now }
{
    !has_reach(steps) || net.sids() <= MAX_LOOSE_SIDS
}

/// Whether an intent keeps all rules in a network: its headend is there, its numbers
/// are in their ranges, it has 1 to 48 steps, each of which starts where the one before it ended,
/// and the last is a function; and where a step is loose, the network has at most 128
/// SIDs.
#[tactic(auto, unfolding(crate::specs::IntentRulesTerms::is_intent))]
pub fn is_intent(net: &Net, intent: &Intent) -> bool
    ensures { result ≡ is_intent net.now intent.now }
{
    let steps = intent.steps.as_slice();
    intent.headend < net.nodes()
        && 1 <= intent.hop_limit
        && 1 <= intent.max_containers
        && intent.max_containers <= MAX_CONTAINERS
        && intent.flow_label < 0x10_0000
        && 1 <= steps.len()
        && steps.len() <= MAX_STEPS
        && stand_after(net, intent.headend, steps).is_some()
        && ends_in_function(steps)
        && is_within_loose_limit(net, steps)
}
