//! Two names.

ghost use Rattle.std.specs.Prelude.{◌≡◌, ◌<◌, ◌^◌, length};
ghost use Rattle.toml.specs.View.{table_view};
ghost use Rattle.text_faults.specs.TextReading.{Gives};
ghost use Rattle.plan_syntax.specs.PlanText.{two_of, two_at, two_if_given};

use crate::plan_faults::{PlanError, PlanFaultKind};
use crate::plan_keys::{list_if_given, needed_list};
use crate::plan_places::{PlanKey, PlanPlace};
use net_model::Name;
use std::alloc::Global;
use text_faults::OrNoMemory;
use toml::Table;

/// Two names that differ.
#[derive(Debug, Drop)]
pub struct TwoNames {
    /// The first.
    pub first: Name,
    /// The second.
    pub second: Name,
}

/// The two names of a list: `Limit` where it has another length, `BadStructure` where both are the
/// same.
fn two_of(
    alloc: Global,
    names: &[Name],
    place: PlanPlace,
    key: PlanKey,
) -> Result<TwoNames, PlanError>
    requires { length names.now < 2 ^ 63 }
    ensures { Gives (λ n. n) result (two_of place key names.now) }
{
    match names {
        [first, second] => {
            if first.as_bytes() == second.as_bytes() {
                return Err(OrNoMemory::Fault(place.fault(PlanFaultKind::BadStructure)));
            }
            Ok(TwoNames {
                first: Name::new(first.as_str().to_string(alloc)?),
                second: Name::new(second.as_str().to_string(alloc)?),
            })
        }
        other => Err(OrNoMemory::Fault(place.fault(PlanFaultKind::Limit {
            what: key,
            value: other.len() as i64,
        }))),
    }
}

/// The two names at a key, which differ; `MissingKey` exactly where the table has no such key.
pub(crate) fn two_at(
    alloc: Global,
    table: &Table,
    place: PlanPlace,
    key: PlanKey,
) -> Result<TwoNames, PlanError>
    ensures { Gives (λ n. n) result (two_at place (table_view table.now) key) }
{
    let names = needed_list::<Name>(alloc, 2, table, place, key)?;
    two_of(alloc, names.as_slice(), place, key)
}

/// The two names at a key, which differ; `None` where the table has no such key.
pub(crate) fn two_if_given(
    alloc: Global,
    table: &Table,
    place: PlanPlace,
    key: PlanKey,
) -> Result<Option<TwoNames>, PlanError>
    ensures { Gives (λ n. n) result (two_if_given place (table_view table.now) key) }
{
    match list_if_given::<Name>(alloc, 2, table, place, key)? {
        Some(names) => {
            let two = two_of(alloc, names.as_slice(), place, key)?;
            Ok(Some(two))
        }
        None => Ok(None),
    }
}
