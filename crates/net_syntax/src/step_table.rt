//! Steps of intents.

ghost use Rattle.toml.specs.View.{table_view};
ghost use Rattle.text_faults.specs.TextReading.{Gives};
ghost use Rattle.net_syntax.specs.IntentText.{links_at, step_of, steps_at};

use crate::limits::MAX_STEPS;
use base::Seq;
use net_model::{MAX_LINKS_OF_SET, Name};
use std::alloc::Global;
use text_faults::{FaultKind, FaultPlace, Key, NetFault, OrNoMemory, TableKind};
use toml::Table;
use toml_reader::{Describes, items_at, needed, needed_list, only, value_at};

/// A step of an intent, as it is described.
#[derive(Debug, Drop)]
pub enum DescribedStep {
    /// One of the links with these names is crossed, of which there are 1 to 64.
    Links(Seq<Name>),
    /// The SID with this title is executed.
    Function(Name),
    /// Any links are crossed, up to the first arrival at the node with this name.
    Reach(Name),
}

/// The links of a step: `Limit` where there is none or more than 64.
fn links_at(alloc: Global, table: &Table, place: FaultPlace) -> Result<Seq<Name>, NetFault>
    ensures { Gives (λ s. s) result (links_at place (table_view table.now)) }
{
    let links = needed_list::<Name>(alloc, MAX_LINKS_OF_SET, table, place, Key::Links)?;
    if links.as_slice().is_empty() {
        return Err(OrNoMemory::Fault(place.fault(FaultKind::Limit {
            what: Key::Links,
            value: 0,
        })));
    }
    Ok(links)
}

/// Tables of steps.
pub(crate) struct StepTables;

impl Describes<DescribedStep> for StepTables {
    ghost of = { step_of };

    fn read(alloc: Global, table: &Table, place: FaultPlace) -> Result<DescribedStep, NetFault> {
        only(table, &[Key::Links, Key::Function, Key::Reach], place)?;
        let links = value_at(table, Key::Links).is_some();
        let function = value_at(table, Key::Function).is_some();
        let reach = value_at(table, Key::Reach).is_some();
        match (links, function, reach) {
            (true, true, _) | (true, _, true) | (_, true, true) => {
                Err(OrNoMemory::Fault(place.fault(FaultKind::UnknownKey)))
            }
            (_, true, false) => {
                let title = needed::<Name>(alloc, table, place, Key::Function)?;
                Ok(DescribedStep::Function(title))
            }
            (_, false, true) => {
                let node = needed::<Name>(alloc, table, place, Key::Reach)?;
                Ok(DescribedStep::Reach(node))
            }
            (_, false, false) => {
                let links = links_at(alloc, table, place)?;
                Ok(DescribedStep::Links(links))
            }
        }
    }
}

/// The steps of an intent: `MissingKey` of the intent where there is no such key, then as
/// `items_at`, and `Limit` at item 0 where there is no step.
pub(crate) fn steps_at(alloc: Global, root: &Table) -> Result<Seq<DescribedStep>, NetFault>
    ensures { Gives (λ s. s) result (steps_at (table_view root.now)) }
{
    let intent = FaultPlace::whole(TableKind::Intent);
    if value_at(root, Key::Step).is_none() {
        return Err(OrNoMemory::Fault(intent.fault(FaultKind::MissingKey { key: Key::Step })));
    }
    let steps = items_at::<StepTables, DescribedStep>(
        alloc,
        TableKind::Step,
        Key::Step,
        MAX_STEPS,
        root,
    )?;
    if steps.as_slice().is_empty() {
        let all = FaultPlace::whole(TableKind::Step);
        return Err(OrNoMemory::Fault(all.fault(FaultKind::Limit {
            what: Key::Step,
            value: 0,
        })));
    }
    Ok(steps)
}
