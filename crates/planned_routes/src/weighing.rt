//! Links with their metrics.

ghost use Rattle.std.specs.Prelude.{◌≡◌, IfOk};
ghost use Rattle.planned_routes.specs.PlannedRoutes.{metric_at, weighed, weighed_links};

use base::NoMemory;
use net_model::Link;
use std::alloc::Global;

/// The metric of the link with a number; none of one that is down.
fn metric_at(metrics: &[Option<u32>], n: usize) -> Option<u32>
    ensures { result ≡ metric_at metrics.now n }
{
    match metrics.get(n) {
        Some(metric) => *metric,
        None => None,
    }
}

/// A link as paths see it; without a metric it is down, and leads nowhere.
fn weighed(link: &Link, metric: Option<u32>) -> shortest_paths::Link
    ensures { result ≡ weighed link.now metric }
{
    match metric {
        Some(metric) => shortest_paths::Link {
            from: link.from,
            to: link.to,
            metric,
        },
        None => shortest_paths::Link {
            from: link.from,
            to: None,
            metric: 1,
        },
    }
}

/// Links as paths see them, in their order.
pub(crate) fn weighed_links(
    alloc: Global,
    metrics: &[Option<u32>],
    links: &[Link],
) -> Result<Vec<shortest_paths::Link>, NoMemory>
    ensures { IfOk result (λ all. all.items ≡ weighed_links metrics.now links.now) }
{
    let mut all = Vec::new(alloc);
    for (n, link) in links.iter().enumerate() {
        all.push(weighed(link, metric_at(metrics, n)))?;
    }
    Ok(all)
}
