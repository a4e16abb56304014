//! From the text of a description to its network with the links of a plan.

ghost use Rattle.std.specs.Prelude.{◌≡◌, [], IfOk};
ghost use Rattle.text_faults.specs.TextReading.{Gives};
ghost use Rattle.toml_reader.specs.TomlReading.{read_map};
ghost use Rattle.toml_reader.specs.Tree.{few};
ghost use Rattle.net_reader.specs.NetworkReading.{judged_network};
ghost use Rattle.net_plan.specs.CableLinks.{links_with};
ghost use Rattle.net_plan.specs.BaseNetwork.{base_of, base_in};
ghost use Rattle.net_plan.specs.PlanRanges.{IsPlan, IsDescribed};

use crate::base_fault::{BaseFault, of_net, of_plan};
use crate::entering_links::enter_links;
use crate::known_names::{know_links, know_nodes};
use crate::plan::Plan;
use crate::plan_links::plan_links;
use base::Seq;
use net_model::{MAX_LINKS, Net};
use net_reader::judged_net;
use net_syntax::{DescribedLink, DescribedNode, Description, read_description};
use plan_syntax::{DescribedPlan, PlanError};
use std::alloc::Global;
use text_faults::{FaultKind, FaultPlace, Key, OrNoMemory, TableKind, TextFault};

/// The links of a description with those of a plan's cables and sites behind them.
fn links_with(
    alloc: Global,
    nodes: &[DescribedNode],
    there: Vec<DescribedLink>,
    plan: &DescribedPlan,
) -> Result<Seq<DescribedLink>, PlanError>
    requires { IsPlan plan.now }
    ensures { Gives (λ links. links) result (links_with nodes.now there.items plan.now) }
{
    let more = plan_links(alloc, plan)?;
    let links = enter_links(alloc, nodes, there, more.as_slice())?;
    know_links(links.as_slice(), plan.links.as_slice())?;
    know_nodes(nodes, plan.locators.as_slice())?;
    Ok(Seq::new(links))
}

/// That there are not too many links; else `Limit` of their table.
fn few_links(links: Seq<DescribedLink>) -> Result<Seq<DescribedLink>, TextFault>
    ensures { result ≡ few (record { table = TableKind.Link; item = 0 }) Key.Link MAX_LINKS links }
{
    let links = links.into_vec();
    if links.len() <= MAX_LINKS {
        return Ok(Seq::new(links));
    }
    let table = FaultPlace::whole(TableKind::Link);
    Err(table.fault(FaultKind::Limit {
        what: Key::Link,
        value: links.len() as i64,
    }))
}

/// The network of what is described, with the links of a plan.
fn base_of(
    alloc: Global,
    said: Description,
    plan: &DescribedPlan,
) -> Result<Net, OrNoMemory<BaseFault>>
    requires described { IsDescribed said }
    requires plan { IsPlan plan.now }
    ensures judged { Gives (λ net. net) result (base_of said plan.now) }
    ensures whole { IfOk result (λ net. net.hidden ≡ []) }
{
    let Description {
        blocks,
        nodes,
        links,
        routes,
        policies,
        sids,
    } = said;
    let links = of_plan(links_with(alloc, nodes.as_slice(), links.into_vec(), plan))?;
    let links = match few_links(links) {
        Ok(links) => links,
        Err(fault) => return Err(OrNoMemory::Fault(BaseFault::Net(fault))),
    };
    let said = Description {
        blocks,
        nodes,
        links,
        routes,
        policies,
        sids,
    };
    of_net(judged_net(alloc, &said))
}

/// The network of a description's text and of a plan before any route of the plan, or the first
/// fault. Behind the links of the description stand those of the plan's cables and sites whose names
/// no link has.
///
/// The description's faults of shape come first. Then come those of the plan's names, at its places:
/// cable by cable and then site by site `UnknownName` of a node, `BadName` where the name that is
/// made for a link is none, and `DoubleName` where a link of other ends has it; then `UnknownName`
/// of a link, and of a node of a locator. Then `Limit` where there are too many links, at their
/// table, and the faults of the parts, as `net_reader::read_net` has them. `NoMemory` may come at
/// any time.
pub fn read_base(alloc: Global, text: &[u8], plan: &Plan) -> Result<Net, OrNoMemory<BaseFault>>
    ensures judged { Gives (λ net. net) result (base_in text.now plan.now) }
    ensures whole { IfOk result (λ net. net.hidden ≡ []) }
{
    let said = of_net(read_description(alloc, text))?;
    base_of(alloc, said, plan.said())
}
