//! How an update starts: with a plan and the lists of both descriptions.

ghost use Rattle.std.specs.Prelude.{◌≡◌, []};
ghost use Rattle.intent_reader.specs.IntentRulesTerms.{IsIntent};
ghost use Rattle.net_flatness.specs.Flat.{flatness_of};
ghost use Rattle.update_commands.specs.UpdateCommand.{limit_refusal, too_many};
ghost use Rattle.update_commands.specs.UpdateCommandTerms.{FlatAs, IsPlanHalt, PlansAs, UpdateStartsAs};

use command_inputs::BothIntents;
use command_output::{EntryName, Failure, Halt, Refusal, Text, refusal_of_not_flat};
use net_flatness::compilable;
use net_model::{MAX_ROUTES, MAX_SIDS_OF_NODE, Net};
use std::alloc::Global;
use text_faults::{FaultKind, FaultPlace, Key, TableKind, TextFault};
use update_driver::Sides;
use update_plan::{Plan, plan};
use update_spec::PlanFault;
use walk_commands::{Headend, Opening, start_of_intent};

/// How an update starts.
#[derive(Drop)]
pub enum UpdateStart {
    /// With a plan, and with the lists that the intent is compiled to.
    Lists(Plan, Sides<Headend>),
    /// A list is wanting; the line says why.
    NoList(Text),
}

/// What is too many, of routes or else of SIDs, with the least count that can be.
fn too_many(table: TableKind) -> FaultKind
    ensures { result ≡ too_many table }
{
    match table {
        TableKind::Route => FaultKind::Limit {
            what: Key::Route,
            value: MAX_ROUTES as i64 + 1,
        },
        _ => FaultKind::Limit {
            what: Key::Sid,
            value: MAX_SIDS_OF_NODE as i64 + 1,
        },
    }
}

/// The refusal of a table that the entries of both descriptions overfill.
fn limit_refusal(table: TableKind) -> Refusal
    ensures { result ≡ limit_refusal table }
{
    Refusal::Net(TextFault {
        place: FaultPlace { table, item: 0 },
        kind: too_many(table),
    })
}

/// Why two descriptions have no plan.
fn halt_of_plan(fault: PlanFault) -> Halt
    ensures { IsPlanHalt fault result }
{
    match fault {
        PlanFault::Differs { table, item } => Halt::Refused(Refusal::Differs { table, item }),
        PlanFault::Conflict { before, after } => Halt::Refused(Refusal::Conflict {
            before: EntryName { entry: before },
            after: EntryName { entry: after },
        }),
        PlanFault::Limit { table } => Halt::Refused(limit_refusal(table)),
        PlanFault::NoMemory => Halt::Failed(Failure::NoMemory),
    }
}

/// A flat network.
fn judge_flat(alloc: Global, net: &Net) -> Result<(), Halt>
    ensures { FlatAs net.now (flatness_of net.now) result }
{
    match compilable(alloc, net) {
        Ok(()) => Ok(()),
        Err(why) => Err(Halt::Refused(refusal_of_not_flat(net, &why))),
    }
}

/// The plan of an update between two flat descriptions.
fn plan_of(alloc: Global, old: &Net, new: &Net) -> Result<Plan, Halt>
    requires old { old.now.hidden ≡ [] }
    requires new { new.now.hidden ≡ [] }
    ensures { PlansAs old.now new.now result }
{
    judge_flat(alloc, old)?;
    judge_flat(alloc, new)?;
    match plan(alloc, old, new) {
        Ok(plan) => Ok(plan),
        Err(fault) => Err(halt_of_plan(fault)),
    }
}

/// How an update starts: both descriptions are flat, the plan, and then the lists.
pub(crate) fn start_of_update(
    alloc: Global,
    old: &Net,
    new: &Net,
    both: &BothIntents,
) -> Result<UpdateStart, Halt>
    requires old { old.now.hidden ≡ [] }
    requires new { new.now.hidden ≡ [] }
    requires before { IsIntent old.now both.now.before }
    requires after { IsIntent new.now both.now.after }
    ensures { UpdateStartsAs old.now new.now both.now result }
{
    let plan = plan_of(alloc, old, new)?;
    let before = match start_of_intent(alloc, old, &both.before)? {
        Opening::List(headend) => headend,
        Opening::NoList(line) => return Ok(UpdateStart::NoList(line)),
    };
    let after = match start_of_intent(alloc, new, &both.after)? {
        Opening::List(headend) => headend,
        Opening::NoList(line) => return Ok(UpdateStart::NoList(line)),
    };
    let sides = Sides {
        old: before,
        new: after,
    };
    Ok(UpdateStart::Lists(plan, sides))
}
