//! Numbers of the two links of a cable.

ghost use Rattle.std.specs.Prelude.{◌≡◌, ◌<◌, ◌^◌, length, map};
ghost use Rattle.toml.specs.View.{view, table_view};
ghost use Rattle.plan_syntax.specs.PlanTree.{optional};
ghost use Rattle.plan_syntax.specs.PlanText.{two_numbers, both_in, no_numbers};

use crate::plan_faults::{PlanFault, PlanFaultKind};
use crate::plan_keys::value_at;
use crate::plan_places::{PlanKey, PlanPlace};
use crate::plan_values::number_in;
use toml::{Table, Value};

/// A number of each of the two links of a cable, where it has one.
#[derive(Clone, Copy, Debug, PartialEq, Eq)]
pub struct BothWays {
    /// That of the link from the first node to the second.
    pub there: Option<u32>,
    /// That of the link back.
    pub back: Option<u32>,
}

/// The two numbers of a list, from the least to the most; `Limit` where it has another length.
fn two_numbers(
    values: &[Value],
    range: (u32, u32),
    place: PlanPlace,
    key: PlanKey,
) -> Result<BothWays, PlanFault>
    requires { length values.now < 2 ^ 63 }
    ensures { result ≡ two_numbers range.0 range.1 place key (map view values.now) }
{
    match values {
        [there, back] => {
            let there = number_in(there, range, place, key)?;
            let back = number_in(back, range, place, key)?;
            Ok(BothWays {
                there: Some(there),
                back: Some(back),
            })
        }
        other => Err(place.fault(PlanFaultKind::Limit {
            what: key,
            value: other.len() as i64,
        })),
    }
}

/// The number of both links that a value is, or of each where it is a list of two.
#[tactic(auto, using(crate::proofs::PlanListReading::arrays))]
fn both_in(
    value: &Value,
    range: (u32, u32),
    place: PlanPlace,
    key: PlanKey,
) -> Result<BothWays, PlanFault>
    ensures { result ≡ both_in range.0 range.1 place key (view value.now) }
{
    match value.as_array() {
        Some(items) => two_numbers(items.as_slice(), range, place, key),
        None => {
            let number = number_in(value, range, place, key)?;
            Ok(BothWays {
                there: Some(number),
                back: Some(number),
            })
        }
    }
}

/// The numbers at a key: one for both links, or a list of two; none where the table has no such
/// key.
pub(crate) fn both_at(
    range: (u32, u32),
    table: &Table,
    place: PlanPlace,
    key: PlanKey,
) -> Result<BothWays, PlanFault>
    ensures { result ≡ optional (both_in range.0 range.1) no_numbers place
        (table_view table.now) key }
{
    match value_at(table, key) {
        Some(value) => both_in(value, range, place, key),
        None => Ok(BothWays {
            there: None,
            back: None,
        }),
    }
}
