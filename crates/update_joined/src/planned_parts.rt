//! The plan of an update: its first fault, or the parts of the joined network.

ghost use Rattle.std.specs.Prelude.{◌≡◌, map, IfOk};
ghost use Rattle.std.specs.List.{filter};
ghost use Rattle.net_model.specs.NetworkTerms.{network_of};
ghost use Rattle.net_model.specs.NetworkRulesTerms.{IsNetwork};
ghost use Rattle.net_model.specs.NetworkJudgingTerms.{InRange};
ghost use Rattle.update_spec.specs.Joined.{joined_of};
ghost use Rattle.update_spec.specs.Planning.{conflicting, old_items, new_items, planning};
ghost use Rattle.update_joined.specs.JoinedEntries.{item_of, is_added, Answers};
ghost use Rattle.update_joined.specs.PrefixKeys.{IsKnown};

use crate::conflicts::{BothTitles, refuse_conflict};
use crate::differ::refuse_differences;
use crate::entry::PlanEntry;
use crate::gather::{added_of, entries_of};
use crate::joined::join;
use crate::known_entries::{KnownEntries, know_entries};
use crate::limits::refuse_limits;
use net_model::NetParts;
use std::alloc::Global;
use update_spec::PlanFault;

/// Refuses the first of some old entries that is in conflict with one of the new entries, of which
/// those that are added stand by themselves too.
fn refuse_conflict_among(
    old: &NetParts,
    new: &NetParts,
    olds: &[PlanEntry],
    news: &KnownEntries,
    added: &KnownEntries,
) -> Result<(), PlanFault>
    requires news { IsKnown news.now }
    requires added { IsKnown added.now }
    requires those { added.now.entries.items ≡ filter is_added news.now.entries.items }
    ensures { result ≡ conflicting (map (item_of (network_of new.now).titles) news.now.entries.items)
        (map (item_of (network_of old.now).titles) olds.now) }
{
    let titles = BothTitles {
        before: old.titles.as_slice(),
        after: new.titles.as_slice(),
    };
    refuse_conflict(&titles, olds, news, added)
}

/// Refuses the first old entry that is in conflict with a new one, and the first such new one.
fn refuse_conflicts(alloc: Global, old: &NetParts, new: &NetParts) -> Result<(), PlanFault>
    requires old { IsNetwork (network_of old.now) }
    requires new { IsNetwork (network_of new.now) }
    ensures { Answers result (conflicting (new_items (network_of old.now) (network_of new.now))
        (old_items (network_of old.now) (network_of new.now))) }
{
    let olds = entries_of(alloc, old, new)?;
    let news = entries_of(alloc, new, old)?;
    let added = added_of(alloc, news.as_slice())?;
    let known = know_entries(alloc, news)?;
    let known_added = know_entries(alloc, added)?;
    refuse_conflict_among(old, new, olds.as_slice(), &known, &known_added)
}

/// The parts of the joined network, of which a network can be built, or the first fault: the first
/// block, node, link or policy, in this order of tables, that is not equal in both; then the first
/// old entry, routes before SIDs before addresses, that is in conflict with a new one, and the
/// first such new one; then too many routes, and then too many SIDs, in all or at a node. The old parts are given up at a fault.
pub fn plan_parts(alloc: Global, old: NetParts, new: &NetParts) -> Result<NetParts, PlanFault>
    requires old_rules { IsNetwork (network_of old) }
    requires new_rules { IsNetwork (network_of new.now) }
    requires old_range { InRange (network_of old) }
    requires new_range { InRange (network_of new.now) }
    ensures answer { Answers result (planning (network_of old) (network_of new.now)) }
    ensures joined { IfOk result (λ parts. network_of parts
        ≡ joined_of (network_of old) (network_of new.now)) }
    ensures rules { IfOk result (λ parts. IsNetwork (network_of parts)) }
    ensures range { IfOk result (λ parts. InRange (network_of parts)) }
{
    refuse_differences(&old, new)?;
    refuse_conflicts(alloc, &old, new)?;
    let parts = join(alloc, old, new)?;
    refuse_limits(&parts)?;
    Ok(parts)
}
