//! Nodes, links and functions by their names.

ghost use Rattle.std.specs.Prelude.{◌≡◌, length};
ghost use Rattle.std.specs.List.{list_any};
ghost use Rattle.net_model.specs.NetworkKeeps.{IsTitleOf};
ghost use Rattle.net_model.specs.Named.{node_numbered};
ghost use Rattle.net_model.specs.NetworkRules.{are_distinct, same_number};
ghost use Rattle.toml_reader.specs.TomlReading.{or_fault};
ghost use Rattle.intent_reader.specs.declared.fault.IntentFault.TheVariants as faults;
ghost use Rattle.intent_reader.specs.declared.fault.StepFault.TheVariants as kinds;
ghost use Rattle.intent_reader.specs.Functions.{has_title, function_numbered};
ghost use Rattle.intent_reader.specs.FunctionsTerms.{IsFunctionNumbered};
ghost use Rattle.text_faults.specs.TextReading.{Gives};
ghost use Rattle.intent_reader.specs.IntentReading.{each_of};
ghost use Rattle.intent_reader.specs.IntentJudging.{link_at};

use crate::fault::{IntentFault, StepFault};
use net_model::{Name, Net};
use srv6_rules::{LinkSet, SidEntry};
use std::alloc::Global;
use text_faults::OrNoMemory;

/// The number of a node that a step names; the headend counts as step 0.
pub(crate) fn node_at(net: &Net, step: u32, name: &Name) -> Result<u32, IntentFault>
    ensures { result ≡ or_fault (faults.AtStep step kinds.UnknownName)
        (node_numbered name.now net.now.nodes) }
{
    match net.node_named(name.as_bytes()) {
        Some(node) => Ok(node),
        None => Err(StepFault::UnknownName.at(step)),
    }
}

/// The number of a link of a step.
fn link_at(net: &Net, step: u32, name: &Name) -> Result<u32, IntentFault>
    ensures { result ≡ link_at net.now step name.now }
{
    match net.link_named(name.as_bytes()) {
        Some(link) => Ok(link),
        None => Err(StepFault::UnknownName.at(step)),
    }
}

/// The numbers of the links of a step.
#[tactic(auto, using(crate::proofs::IntentListReading::reading))]
pub(crate) fn links_at(
    alloc: Global,
    net: &Net,
    step: u32,
    names: &[Name],
) -> Result<LinkSet, OrNoMemory<IntentFault>>
    ensures { Gives (λ s. s) result (each_of (link_at net.now step) names.now) }
{
    let mut links = Vec::new(alloc);
    for name in names {
        let link = link_at(net, step, name)?;
        links.push(link)?;
    }
    Ok(LinkSet::new(links))
}

/// Whether a link is one of others.
fn stands_among(link: u32, others: &[u32]) -> bool
    ensures { result ≡ list_any (same_number link) others.now }
{
    others.iter().any(|other| link == *other)
}

/// Whether each link stands once.
pub(crate) fn are_distinct(links: &[u32]) -> bool
    ensures { result ≡ are_distinct same_number links.now }
{
    let mut rest = links;
    while let [first, others @ ..] = rest {
        if stands_among(*first, others) {
            return false;
        }
        rest = others;
    }
    true
}

/// Whether a SID of the network has the title.
fn has_title(net: &Net, sid: &SidEntry, title: &[u8]) -> bool
    requires { IsTitleOf (length net.now.titles) sid.now.title }
    ensures { result ≡ has_title net.now.titles title.now sid.now }
{
    match sid.title {
        Some(number) => net.title(number).as_bytes() == title,
        None => false,
    }
}

/// The number of the first SID with a title, as a search finds it.
#[tactic(auto, using(crate::proofs::IntentSearches::searching))]
fn first_function(net: &Net, title: &[u8]) -> Option<u32>
    ensures { result ≡ function_numbered title.now net.now }
{
    net.keeps_rules();
    for n in 0..net.sids() {
        if has_title(net, net.sid(n), title) {
            return Some(n);
        }
    }
    None
}

/// The number of the first SID with a title; `None` exactly where no SID has it.
pub(crate) fn function_named(net: &Net, title: &[u8]) -> Option<u32>
    ensures number { result ≡ function_numbered title.now net.now }
    ensures meaning { IsFunctionNumbered title.now net.now result }
{
    first_function(net, title)
}
