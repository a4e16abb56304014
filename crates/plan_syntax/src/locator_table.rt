//! Locators.

ghost use Rattle.toml.specs.View.{table_view};
ghost use Rattle.text_faults.specs.TextReading.{Gives};
ghost use Rattle.plan_syntax.specs.PlanText.{some_names, locator_of};

use crate::plan_faults::PlanError;
use crate::plan_items::Says;
use crate::plan_keys::{needed, needed_list, only, optional_number, some_of};
use crate::plan_places::{PlanKey, PlanPlace};
use base::Seq;
use net_model::{LAST_TABLE, MAX_NODES, Name};
use net_syntax::FamilyPrefix;
use std::alloc::Global;
use toml::Table;

/// A prefix that routes lead to, as it is described.
#[derive(Debug, Drop)]
pub struct DescribedLocator {
    /// The prefix, of either family.
    pub prefix: FamilyPrefix,
    /// The names of the nodes that have it, 1 to 256; with several it is anycast.
    pub nodes: Seq<Name>,
    /// The number of the table of the routes, from 0 to 65535; by default 0.
    pub table: u32,
}

/// The nodes of a locator: `Limit` where there is none.
fn nodes_at(alloc: Global, table: &Table, place: PlanPlace) -> Result<Seq<Name>, PlanError>
    ensures { Gives (λ s. s) result (some_names place (table_view table.now)) }
{
    let nodes = needed_list::<Name>(alloc, MAX_NODES, table, place, PlanKey::Nodes)?;
    Ok(some_of(nodes, place, PlanKey::Nodes)?)
}

/// Tables of locators.
pub(crate) struct Locators;

impl Says<DescribedLocator> for Locators {
    ghost of = { locator_of };

    fn read(alloc: Global, keys: &Table, place: PlanPlace) -> Result<DescribedLocator, PlanError> {
        only(
            keys,
            &[PlanKey::Prefix, PlanKey::Nodes, PlanKey::Table],
            place,
        )?;
        let prefix = needed::<FamilyPrefix>(alloc, keys, place, PlanKey::Prefix)?;
        let nodes = nodes_at(alloc, keys, place)?;
        let table = optional_number((0, LAST_TABLE), 0, keys, place, PlanKey::Table)?;
        Ok(DescribedLocator {
            prefix,
            nodes,
            table,
        })
    }
}
