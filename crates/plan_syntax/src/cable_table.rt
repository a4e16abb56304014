//! Cables.

ghost use Rattle.plan_syntax.specs.PlanText.{cable_of};

use crate::both_ways::{BothWays, both_at};
use crate::limits::MAX_METRIC;
use crate::plan_faults::PlanError;
use crate::plan_items::Says;
use crate::plan_keys::only;
use crate::plan_places::{PlanKey, PlanPlace};
use crate::two_names::{TwoNames, two_at, two_if_given};
use net_model::{MAX_LINK_MTU, MIN_LINK_MTU};
use std::alloc::Global;
use toml::Table;

/// A cable between two nodes, which gives a link each way, as it is described.
#[derive(Debug, Drop)]
pub struct DescribedCable {
    /// The names of its nodes.
    pub nodes: TwoNames,
    /// The metrics of its links, from 1 to `MAX_METRIC`.
    pub metrics: BothWays,
    /// The bytes of the longest packets that its links carry, from 1,280 to 65,575.
    pub mtus: BothWays,
    /// The names of its links, the first from its first node to its second.
    pub links: Option<TwoNames>,
}

/// Tables of cables.
pub(crate) struct Cables;

impl Says<DescribedCable> for Cables {
    ghost of = { cable_of };

    fn read(alloc: Global, table: &Table, place: PlanPlace) -> Result<DescribedCable, PlanError> {
        only(
            table,
            &[
                PlanKey::Nodes,
                PlanKey::Metric,
                PlanKey::Mtu,
                PlanKey::Links,
            ],
            place,
        )?;
        let nodes = two_at(alloc, table, place, PlanKey::Nodes)?;
        let metrics = both_at((1, MAX_METRIC), table, place, PlanKey::Metric)?;
        let mtus = both_at((MIN_LINK_MTU, MAX_LINK_MTU), table, place, PlanKey::Mtu)?;
        let links = two_if_given(alloc, table, place, PlanKey::Links)?;
        Ok(DescribedCable {
            nodes,
            metrics,
            mtus,
            links,
        })
    }
}
