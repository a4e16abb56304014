//! Planning: the parts of both descriptions become one network, of which the added entries are hidden.

ghost use Rattle.std.specs.Prelude.{◌≡◌, ◌+◌, ◌<◌, ◌≤◌, ◌^◌, ◌++◌, [], drop, length, IfErr, IfOk, OnOk};
ghost use Rattle.net_model.specs.NetworkTerms.{network_of};
ghost use Rattle.net_model.specs.NetworkRulesTerms.{IsNetwork};
ghost use Rattle.net_model.specs.NetworkJudgingTerms.{InRange};
ghost use Rattle.net_model.specs.declared.net.EntryId.TheVariants as names;
ghost use Rattle.update_spec.specs.Changes.{named_from};
ghost use Rattle.update_joined.specs.JoinedEntries.{Answers};
ghost use Rattle.update_spec.specs.Planning.{planning};
ghost use Rattle.update_spec.specs.declared.plan_fault.PlanFault.TheVariants.{NoMemory};
ghost use Rattle.update_plan.specs.UpdateState.{plan_of};
ghost use Rattle.update_plan.specs.UpdateStateTerms.{AreHideable, ShowsWithout};

use crate::planned::Plan;
use net_model::{EntryId, Net, NetParts, Route};
use srv6_rules::SidEntry;
use std::alloc::{AllocError, Global};
use update_joined::{plan_parts, removed_entries};
use update_spec::PlanFault;

/// The numbers of the routes from one on are put behind the entries.
#[tactic(auto, using(update_joined::proofs::Meant::pushed_one))]
fn push_routes(ids: &mut Vec<EntryId>, first: u32, routes: &[Route]) -> Result<(), AllocError>
    requires { first + length routes.now < 2 ^ 32 }
    ensures { OnOk result (ids.new.items ≡ ids.old.items ++ named_from names.Route first routes.now) }
{
    let mut n = first;
    let mut rest = routes;
    while let [_, more @ ..] = rest {
        ids.push(EntryId::Route(n))?;
        n += 1;
        rest = more;
    }
    Ok(())
}

/// The numbers of the SIDs from one on are put behind the entries.
#[tactic(auto, using(update_joined::proofs::Meant::pushed_one))]
fn push_sids(ids: &mut Vec<EntryId>, first: u32, sids: &[SidEntry]) -> Result<(), AllocError>
    requires { first + length sids.now < 2 ^ 32 }
    ensures { OnOk result (ids.new.items ≡ ids.old.items ++ named_from names.Sid first sids.now) }
{
    let mut n = first;
    let mut rest = sids;
    while let [_, more @ ..] = rest {
        ids.push(EntryId::Sid(n))?;
        n += 1;
        rest = more;
    }
    Ok(())
}

/// The entries of parts behind the first routes and the first SIDs, so many of each.
fn entries_behind(
    alloc: Global,
    parts: &NetParts,
    routes: u32,
    sids: u32,
) -> Result<Vec<EntryId>, AllocError>
    requires range { InRange (network_of parts.now) }
    requires routes { routes ≤ length (network_of parts.now).routes }
    requires sids { sids ≤ length (network_of parts.now).sids }
    ensures { IfOk result (λ entries. entries.items
        ≡ named_from names.Route routes (drop routes (network_of parts.now).routes)
        ++ named_from names.Sid sids (drop sids (network_of parts.now).sids)) }
{
    let mut ids = Vec::new(alloc);
    push_routes(&mut ids, routes, &parts.routes[routes as usize..])?;
    push_sids(&mut ids, sids, &parts.sids[sids as usize..])?;
    Ok(ids)
}

/// The network of parts that keep the rules, so that they have no fault, with entries hidden.
fn build_of(alloc: Global, parts: NetParts, entries: &[EntryId]) -> Result<Net, PlanFault>
    requires rules { IsNetwork (network_of parts) }
    requires range { InRange (network_of parts) }
    requires there { AreHideable (network_of parts) entries.now }
    ensures same { IfOk result (λ net. net ≡ record (network_of parts) { hidden = net.hidden }) }
    ensures shows { IfOk result (λ net. ShowsWithout net entries.now) }
    ensures err { IfErr result (λ why. why ≡ NoMemory) }
{
    match Net::build_without(alloc, parts, &[], entries) {
        Ok(net) => Ok(net),
        Err(_) => Err(PlanFault::NoMemory),
    }
}

/// How a network passes from an old description to a new one, or the first fault, as `plan_parts`
/// has it. Nothing of either may be hidden.
pub fn plan(alloc: Global, old: &Net, new: &Net) -> Result<Plan, PlanFault>
    requires old { old.now.hidden ≡ [] }
    requires new { new.now.hidden ≡ [] }
    ensures answer { Answers result (planning old.now new.now) }
    ensures plan { IfOk result (λ plan. plan ≡ plan_of old.now new.now) }
{
    old.keeps_rules();
    new.keeps_rules();
    let copy = old.copy_parts(alloc)?;
    let parts = plan_parts(alloc, copy, new.parts())?;
    let added = entries_behind(alloc, &parts, old.routes(), old.sids())?;
    let removed = removed_entries(alloc, old.parts(), new.parts())?;
    let net = build_of(alloc, parts, added.as_slice())?;
    Ok(Plan {
        net,
        added,
        removed,
    })
}
