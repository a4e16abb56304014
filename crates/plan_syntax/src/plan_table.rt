//! A whole plan.

ghost use Rattle.toml.specs.View.{table_view};
ghost use Rattle.text_faults.specs.TextReading.{Gives};
ghost use Rattle.plan_syntax.specs.PlanText.{plan_of, plan_in};

use crate::cable_table::{Cables, DescribedCable};
use crate::limits::{DEFAULT_METRIC, MAX_CABLES, MAX_LOCATORS, MAX_METRIC, MAX_METRICS, MAX_SITES};
use crate::locator_table::{DescribedLocator, Locators};
use crate::metric_table::{DescribedMetric, Metrics};
use crate::plan_faults::{PlanError, PlanFaultKind};
use crate::plan_items::items_at;
use crate::plan_keys::{number_if_given, only, optional_flag, optional_number};
use crate::plan_places::{PlanKey, PlanPlace, PlanTable};
use crate::site_table::{DescribedSite, Sites};
use base::Seq;
use net_model::{MAX_LINK_MTU, MIN_LINK_MTU};
use std::alloc::Global;
use text_faults::{FaultPlace, OrNoMemory, TableKind};
use toml::Table;
use toml_reader::document;

/// What a plan says: its items in the order of the file.
#[derive(Debug, Drop)]
pub struct DescribedPlan {
    /// The metric of a link of which the plan says nothing, from 1 to `MAX_METRIC`; by default 10.
    pub metric: u32,
    /// The bytes of the longest packets that the links of a cable carry that has no other number,
    /// from 1,280 to 65,575; without it they carry each packet.
    pub mtu: Option<u32>,
    /// Whether the prefix of each SID of End is a locator, which no locator of its node holds and
    /// which isn't nested in a SID there; by default they are.
    pub ends: bool,
    /// Whether the address of each node is a locator; by default it isn't.
    pub addresses: bool,
    /// The cables, at most 4,096.
    pub cables: Seq<DescribedCable>,
    /// The metrics of links by their names, at most 4,096.
    pub links: Seq<DescribedMetric>,
    /// The locators, at most 4,096.
    pub locators: Seq<DescribedLocator>,
    /// The sites, at most 4,096.
    pub sites: Seq<DescribedSite>,
}

/// What the tree of a plan says, or its first fault: another key than those of a plan comes first,
/// then `metric`, `mtu`, `ends` and `addresses`, and then the tables cable, link, locator and site,
/// each with its kind, its count and its items. In an item another key comes first, and then each
/// key in its order: whether it is there, its kind, its value. A list's length comes before its
/// members, but one that is too short behind them. `NoMemory` may come at any time.
pub fn describe_plan(alloc: Global, root: &Table) -> Result<DescribedPlan, PlanError>
    ensures { Gives (λ p. p) result (plan_of (table_view root.now)) }
{
    let keys = [
        PlanKey::Metric,
        PlanKey::Mtu,
        PlanKey::Ends,
        PlanKey::Addresses,
        PlanKey::Cable,
        PlanKey::Link,
        PlanKey::Locator,
        PlanKey::Site,
    ];
    let whole = PlanPlace::whole(PlanTable::Plan);
    only(root, &keys, whole)?;
    let metric = optional_number(
        (1, MAX_METRIC),
        DEFAULT_METRIC,
        root,
        whole,
        PlanKey::Metric,
    )?;
    let mtu = number_if_given((MIN_LINK_MTU, MAX_LINK_MTU), root, whole, PlanKey::Mtu)?;
    let ends = optional_flag(true, root, whole, PlanKey::Ends)?;
    let addresses = optional_flag(false, root, whole, PlanKey::Addresses)?;
    let cables = items_at::<Cables, DescribedCable>(
        alloc,
        PlanTable::Cable,
        PlanKey::Cable,
        MAX_CABLES,
        root,
    )?;
    let links = items_at::<Metrics, DescribedMetric>(
        alloc,
        PlanTable::Link,
        PlanKey::Link,
        MAX_METRICS,
        root,
    )?;
    let locators = items_at::<Locators, DescribedLocator>(
        alloc,
        PlanTable::Locator,
        PlanKey::Locator,
        MAX_LOCATORS,
        root,
    )?;
    let sites = items_at::<Sites, DescribedSite>(
        alloc,
        PlanTable::Site,
        PlanKey::Site,
        MAX_SITES,
        root,
    )?;
    Ok(DescribedPlan {
        metric,
        mtu,
        ends,
        addresses,
        cables,
        links,
        locators,
        sites,
    })
}

/// What a plan's text says, or its first fault: `NotToml` exactly where the bytes are not UTF-8 or
/// not TOML, and else as `describe_plan`. `NoMemory` may come at any time.
pub fn read_plan_words(alloc: Global, text: &[u8]) -> Result<DescribedPlan, PlanError>
    ensures { Gives (λ p. p) result (plan_in text.now) }
{
    let root = match document(alloc, text, FaultPlace::whole(TableKind::Net)) {
        Ok(root) => root,
        Err(OrNoMemory::NoMemory) => return Err(OrNoMemory::NoMemory),
        Err(OrNoMemory::Fault(_)) => {
            let whole = PlanPlace::whole(PlanTable::Plan);
            return Err(OrNoMemory::Fault(whole.fault(PlanFaultKind::NotToml)));
        }
    };
    describe_plan(alloc, &root)
}
