//! The limits that added entries can pass.

ghost use Rattle.std.specs.Prelude.{◌≡◌};
ghost use Rattle.std.specs.List.{list_all};
ghost use Rattle.net_model.specs.NetworkTerms.{network_of};
ghost use Rattle.net_model.specs.NetworkRules.{has_room};
ghost use Rattle.update_spec.specs.Planning.{limit_unless, has_few_sids, limited};

use net_model::{MAX_ROUTES, MAX_SIDS, MAX_SIDS_OF_NODE, NetParts};
use srv6_rules::SidEntry;
use text_faults::TableKind;
use update_spec::PlanFault;

/// Whether not too many SIDs stand at the node of a SID.
fn has_room(sids: &[SidEntry], s: &SidEntry) -> bool
    ensures { result ≡ has_room sids.now s.now }
{
    let node = s.node;
    sids.iter().filter(|other| other.node == node).count() <= MAX_SIDS_OF_NODE
}

fn all_have_room(sids: &[SidEntry]) -> bool
    ensures { result ≡ list_all (has_room sids.now) sids.now }
{
    sids.iter().all(|s| has_room(sids, s))
}

fn has_few_sids(parts: &NetParts) -> bool
    ensures { result ≡ has_few_sids (network_of parts.now) }
{
    parts.sids.len() <= MAX_SIDS && all_have_room(parts.sids.as_slice())
}

fn limit_unless(table: TableKind, fits: bool) -> Result<(), PlanFault>
    ensures { result ≡ limit_unless table fits }
{
    if fits {
        Ok(())
    } else {
        Err(PlanFault::Limit { table })
    }
}

/// Refuses too many routes, and then too many SIDs, in all or at a node.
pub(crate) fn refuse_limits(parts: &NetParts) -> Result<(), PlanFault>
    ensures { result ≡ limited (network_of parts.now) }
{
    limit_unless(TableKind::Route, parts.routes.len() <= MAX_ROUTES)?;
    limit_unless(TableKind::Sid, has_few_sids(parts))
}
