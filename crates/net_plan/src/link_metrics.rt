//! The metrics of a network's links.

ghost use Rattle.std.specs.Prelude.{◌≡◌, ◌≤◌, All, IfOk, length};
ghost use Rattle.net_model.specs.declared.limits.TheConstants.{MAX_LINKS};
ghost use Rattle.net_without.specs.Without.{is_among, ends_among, is_up_link};
ghost use Rattle.planned_routes.specs.PlannedRoutesTerms.{IsMetric};
ghost use Rattle.net_plan.specs.LinkMetrics.{said_or, cabled_metric, named_metric, metric_of_link, metric_if_up, metrics_from};
ghost use Rattle.net_plan.specs.PlanRanges.{IsPlan};

use crate::plan_links::PlanLink;
use net_model::{Link, MAX_LINKS, Name};
use plan_syntax::{DescribedMetric, DescribedPlan};
use std::alloc::{AllocError, Global};

/// What is said now, and else what was said before.
fn said_or(before: u32, metric: Option<u32>) -> u32
    ensures { result ≡ said_or before metric }
{
    match metric {
        Some(metric) => metric,
        None => before,
    }
}

/// The last metric that a cable gives the link of a name, and else what was said before.
fn cabled_metric(name: &Name, before: u32, links: &[PlanLink]) -> u32
    ensures { result ≡ cabled_metric name.now before links.now }
{
    let mut metric = before;
    for link in links {
        if link.link.name.as_bytes() == name.as_bytes() {
            metric = said_or(metric, link.metric);
        }
    }
    metric
}

/// The last metric that is said of a link by its name, and else what was said before.
fn named_metric(name: &Name, before: u32, metrics: &[DescribedMetric]) -> u32
    ensures { result ≡ named_metric name.now before metrics.now }
{
    let mut metric = before;
    for said in metrics {
        if said.name.as_bytes() == name.as_bytes() {
            metric = said.metric;
        }
    }
    metric
}

/// The metric of the link of a name.
fn metric_of_link(plan: &DescribedPlan, links: &[PlanLink], name: &Name) -> u32
    ensures { result ≡ metric_of_link plan.now links.now name.now }
{
    let cabled = cabled_metric(name, plan.metric, links);
    named_metric(name, cabled, plan.links.as_slice())
}

/// Whether a number is one of these.
pub(crate) fn is_among(numbers: &[u32], n: u32) -> bool
    ensures { result ≡ is_among numbers.now n }
{
    numbers.iter().any(|m| n == *m)
}

/// Whether a link ends at one of these nodes.
fn ends_among(nodes: &[u32], to: Option<u32>) -> bool
    ensures { result ≡ ends_among nodes.now to }
{
    match to {
        None => false,
        Some(to) => is_among(nodes, to),
    }
}

/// Whether a link, with its number, is none of these, and neither starts nor ends at these nodes.
pub(crate) fn is_up_link(down: &[u32], nodes: &[u32], n: u32, link: &Link) -> bool
    ensures { result ≡ is_up_link down.now nodes.now n link.now }
{
    !(is_among(down, n) || (is_among(nodes, link.from) || ends_among(nodes, link.to)))
}

/// The metric of a link, with its number; none of one that is down.
fn metric_if_up(
    plan: &DescribedPlan,
    links: &[PlanLink],
    down: &[u32],
    nodes: &[u32],
    n: u32,
    link: &Link,
) -> Option<u32>
    ensures { result ≡ metric_if_up plan.now links.now down.now nodes.now n link.now }
{
    if is_up_link(down, nodes, n, link) {
        return Some(metric_of_link(plan, links, &link.name));
    }
    None
}

/// The metrics of links, in their order; none of one that is down.
pub(crate) fn link_metrics(
    alloc: Global,
    plan: &DescribedPlan,
    links: &[PlanLink],
    down: &[u32],
    nodes: &[u32],
    all: &[Link],
) -> Result<Vec<Option<u32>>, AllocError>
    requires { length all.now ≤ MAX_LINKS }
    ensures { IfOk result (λ metrics. metrics.items
        ≡ metrics_from plan.now links.now down.now nodes.now 0 all.now) }
{
    let mut metrics = Vec::new(alloc);
    for (n, link) in all.iter().enumerate() {
        let metric = metric_if_up(plan, links, down, nodes, n as u32, link);
        metrics.push(metric)?;
    }
    Ok(metrics)
}
