//! Metrics of links by their names.

ghost use Rattle.plan_syntax.specs.PlanText.{metric_of};

use crate::limits::MAX_METRIC;
use crate::plan_faults::PlanError;
use crate::plan_items::Says;
use crate::plan_keys::{needed, needed_number, only};
use crate::plan_places::{PlanKey, PlanPlace};
use net_model::Name;
use std::alloc::Global;
use toml::Table;

/// The metric of a link that is there, as it is described.
#[derive(Debug, Drop)]
pub struct DescribedMetric {
    /// The name of the link.
    pub name: Name,
    /// Its metric, from 1 to `MAX_METRIC`.
    pub metric: u32,
}

/// Tables of links.
pub(crate) struct Metrics;

impl Says<DescribedMetric> for Metrics {
    ghost of = { metric_of };

    fn read(alloc: Global, table: &Table, place: PlanPlace) -> Result<DescribedMetric, PlanError> {
        only(table, &[PlanKey::Name, PlanKey::Metric], place)?;
        let name = needed::<Name>(alloc, table, place, PlanKey::Name)?;
        let metric = needed_number((1, MAX_METRIC), table, place, PlanKey::Metric)?;
        Ok(DescribedMetric { name, metric })
    }
}
