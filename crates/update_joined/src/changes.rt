//! The entries of an old description that a new one lacks.

ghost use Rattle.std.specs.Prelude.{◌≡◌, map, IfOk};
ghost use Rattle.std.specs.List.{filter};
ghost use Rattle.net_model.specs.NetworkTerms.{network_of};
ghost use Rattle.net_model.specs.NetworkRulesTerms.{IsNetwork};
ghost use Rattle.update_spec.specs.Changes.{removed_entries};
ghost use Rattle.update_joined.specs.JoinedEntries.{is_added};

use crate::entry::PlanEntry;
use crate::gather::entries_of;
use net_model::{EntryId, NetParts};
use std::alloc::{AllocError, Global};

/// Which of the entries the other description lacks.
#[tactic(auto, using(crate::proofs::Meant::pushed_one))]
fn lacked(alloc: Global, entries: &[PlanEntry]) -> Result<Vec<EntryId>, AllocError>
    ensures { IfOk result (λ ids. ids.items ≡ map (λ e. e.id) (filter is_added entries.now)) }
{
    let mut ids = Vec::new(alloc);
    let mut rest = entries;
    while let [e, more @ ..] = rest {
        if !e.kept {
            ids.push(e.id)?;
        }
        rest = more;
    }
    Ok(ids)
}

/// The routes and SIDs of the old description that the new one lacks, by their old numbers, routes
/// before SIDs, in their order.
pub fn removed_entries(
    alloc: Global,
    old: &NetParts,
    new: &NetParts,
) -> Result<Vec<EntryId>, AllocError>
    requires old { IsNetwork (network_of old.now) }
    requires new { IsNetwork (network_of new.now) }
    ensures { IfOk result (λ entries. entries.items
        ≡ removed_entries (network_of old.now) (network_of new.now)) }
{
    let olds = entries_of(alloc, old, new)?;
    lacked(alloc, olds.as_slice())
}
