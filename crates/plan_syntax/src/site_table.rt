//! Sites.

ghost use Rattle.toml.specs.View.{table_view};
ghost use Rattle.text_faults.specs.TextReading.{Gives};
ghost use Rattle.plan_syntax.specs.PlanText.{some_prefixes, site_of};

use crate::limits::MAX_SITE_PREFIXES;
use crate::plan_faults::PlanError;
use crate::plan_items::Says;
use crate::plan_keys::{needed, needed_list, only, optional_number, some_of};
use crate::plan_places::{PlanKey, PlanPlace};
use base::Seq;
use net_model::{LAST_TABLE, Name};
use net_syntax::FamilyPrefix;
use std::alloc::Global;
use toml::Table;

/// Prefixes that a node sends out of the network over a link, as they are described.
#[derive(Debug, Drop)]
pub struct DescribedSite {
    /// The name of the node.
    pub node: Name,
    /// The name of the link, which leaves the network.
    pub link: Name,
    /// The number of the node's table, from 0 to 65535; by default 0.
    pub table: u32,
    /// The prefixes, of either family, 1 to 65,536.
    pub prefixes: Seq<FamilyPrefix>,
}

/// The prefixes of a site: `Limit` where there is none.
fn prefixes_at(
    alloc: Global,
    table: &Table,
    place: PlanPlace,
) -> Result<Seq<FamilyPrefix>, PlanError>
    ensures { Gives (λ s. s) result (some_prefixes place (table_view table.now)) }
{
    let key = PlanKey::Prefixes;
    let prefixes = needed_list::<FamilyPrefix>(alloc, MAX_SITE_PREFIXES, table, place, key)?;
    Ok(some_of(prefixes, place, key)?)
}

/// Tables of sites.
pub(crate) struct Sites;

impl Says<DescribedSite> for Sites {
    ghost of = { site_of };

    fn read(alloc: Global, keys: &Table, place: PlanPlace) -> Result<DescribedSite, PlanError> {
        only(
            keys,
            &[
                PlanKey::Node,
                PlanKey::Link,
                PlanKey::Table,
                PlanKey::Prefixes,
            ],
            place,
        )?;
        let node = needed::<Name>(alloc, keys, place, PlanKey::Node)?;
        let link = needed::<Name>(alloc, keys, place, PlanKey::Link)?;
        let table = optional_number((0, LAST_TABLE), 0, keys, place, PlanKey::Table)?;
        let prefixes = prefixes_at(alloc, keys, place)?;
        Ok(DescribedSite {
            node,
            link,
            table,
            prefixes,
        })
    }
}
