//! The links of a plan's cables and sites.

ghost use Rattle.std.specs.Prelude.{◌≡◌, ◌+◌, ◌<◌, ◌≤◌, ◌^◌, ◌∷◌, ◌++◌, List, [], IfOk, OnOk, length};
ghost use Rattle.net_plan.specs.declared.plan_links.PlanLink.{PlanLink};
ghost use Rattle.net_plan.specs.PlanRanges.{IsPlan};
ghost use Rattle.net_plan.specs.CableLinks.{mtu_or, link_there, link_back, site_link, cable_links, site_links, plan_links};

use crate::cable_names::{link_names, same_name};
use net_model::MAX_LINK_MTU;
use net_syntax::DescribedLink;
use plan_syntax::{DescribedCable, DescribedPlan, DescribedSite, PlanPlace, PlanTable};
use std::alloc::{AllocError, AllocFailed, Global};

/// A link of a cable or of a site.
#[derive(Debug, Drop)]
pub(crate) struct PlanLink {
    /// Where its faults are.
    pub place: PlanPlace,
    /// The link.
    pub link: DescribedLink,
    /// Its metric, where its cable has one.
    pub metric: Option<u32>,
}

/// The MTU of a cable's link, else that of the plan, else the largest.
fn mtu_or(own: Option<u32>, plan: Option<u32>) -> u32
    ensures { result ≡ mtu_or own plan }
{
    match (own, plan) {
        (Some(mtu), _) => mtu,
        (None, Some(mtu)) => mtu,
        (None, None) => MAX_LINK_MTU,
    }
}

/// The two links of a cable, the one from its first node first.
fn links_of(
    alloc: Global,
    mtu: Option<u32>,
    before: &[DescribedCable],
    cable: &DescribedCable,
) -> Result<(PlanLink, PlanLink), AllocError>
    requires { length before.now < 2 ^ 31 }
    ensures there { IfOk result (λ both. both.0 ≡ link_there mtu before.now cable.now) }
    ensures back { IfOk result (λ both. both.1 ≡ link_back mtu before.now cable.now) }
{
    let place = PlanPlace::of_item(PlanTable::Cable, before.len());
    let names = link_names(alloc, before, cable)?;
    let nodes = &cable.nodes;
    let there = PlanLink {
        place,
        link: DescribedLink {
            name: names.first,
            from: same_name(alloc, &nodes.first)?,
            to: Some(same_name(alloc, &nodes.second)?),
            mtu: mtu_or(cable.mtus.there, mtu),
        },
        metric: cable.metrics.there,
    };
    let back = PlanLink {
        place,
        link: DescribedLink {
            name: names.second,
            from: same_name(alloc, &nodes.second)?,
            to: Some(same_name(alloc, &nodes.first)?),
            mtu: mtu_or(cable.mtus.back, mtu),
        },
        metric: cable.metrics.back,
    };
    Ok((there, back))
}

/// Puts two links behind others.
fn put_both(
    links: &mut Vec<PlanLink>,
    there: PlanLink,
    back: PlanLink,
) -> Result<(), AllocFailed<PlanLink>>
    ensures { (rest : List PlanLink) → OnOk result (links.new.items ++ rest
        ≡ links.old.items ++ there ∷ (back ∷ rest)) }
{
    links.push(there)?;
    links.push(back)?;
    Ok(())
}

/// The links of cables.
fn cable_links(
    alloc: Global,
    mtu: Option<u32>,
    cables: &[DescribedCable],
) -> Result<Vec<PlanLink>, AllocError>
    requires { length cables.now < 2 ^ 31 }
    ensures { IfOk result (λ links. links.items ≡ cable_links mtu [] cables.now) }
{
    let mut links = Vec::new(alloc);
    for (n, cable) in cables.iter().enumerate() {
        let (there, back) = links_of(alloc, mtu, cables.split_at(n).0, cable)?;
        put_both(&mut links, there, back)?;
    }
    Ok(links)
}

/// The link of a site.
fn site_link(alloc: Global, index: usize, site: &DescribedSite) -> Result<PlanLink, AllocError>
    requires { index < 2 ^ 31 }
    ensures { IfOk result (λ link. link ≡ site_link (index + 1) site.now) }
{
    Ok(PlanLink {
        place: PlanPlace::of_item(PlanTable::Site, index),
        link: DescribedLink {
            name: same_name(alloc, &site.link)?,
            from: same_name(alloc, &site.node)?,
            to: None,
            mtu: MAX_LINK_MTU,
        },
        metric: None,
    })
}

/// The links of sites.
fn site_links(alloc: Global, sites: &[DescribedSite]) -> Result<Vec<PlanLink>, AllocError>
    requires { length sites.now < 2 ^ 31 }
    ensures { IfOk result (λ links. links.items ≡ site_links 1 sites.now) }
{
    let mut links = Vec::new(alloc);
    for (n, site) in sites.iter().enumerate() {
        let link = site_link(alloc, n, site)?;
        links.push(link)?;
    }
    Ok(links)
}

/// The links of a plan: those of its cables, then those of its sites.
pub(crate) fn plan_links(alloc: Global, plan: &DescribedPlan) -> Result<Vec<PlanLink>, AllocError>
    requires { IsPlan plan.now }
    ensures { IfOk result (λ links. links.items ≡ plan_links plan.now) }
{
    let mut links = cable_links(alloc, plan.mtu, plan.cables.as_slice())?;
    let mut more = site_links(alloc, plan.sites.as_slice())?;
    links.append(&mut more)?;
    Ok(links)
}
