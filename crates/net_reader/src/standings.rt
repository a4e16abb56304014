//! How the SIDs of a description stand.

ghost use Rattle.std.specs.Prelude.{◌≡◌, IfOk, map};
ghost use Rattle.net_reader.specs.Standings.{same_flavour, is_twice, has_double, standing_of};

use net_model::Standing;
use net_syntax::{DescribedSid, Flavour};
use std::alloc::{AllocError, Global};

/// Whether two flavours are one.
fn same_flavour(a: Flavour, b: Flavour) -> bool
    ensures { result ≡ same_flavour a b }
{
    a == b
}

/// Whether a flavour stands in a list more than once.
fn is_twice(flavour: Flavour, flavours: &[Flavour]) -> bool
    ensures { result ≡ is_twice flavour flavours.now }
{
    flavours
        .iter()
        .filter(|other| same_flavour(flavour, **other))
        .count()
        > 1
}

/// Whether one of the flavours stands twice.
fn has_double(flavours: &[Flavour]) -> bool
    ensures { result ≡ has_double flavours.now }
{
    is_twice(Flavour::Psp, flavours)
        || is_twice(Flavour::Usp, flavours)
        || is_twice(Flavour::Usd, flavours)
}

/// Which keys a SID has, and whether one of its flavours stands twice.
fn standing_of(sid: &DescribedSid) -> Standing
    ensures { result ≡ standing_of sid.now }
{
    Standing {
        links: sid.links.is_some(),
        table: sid.table.is_some(),
        policy: sid.policy.is_some(),
        double_flavour: has_double(sid.flavours.as_slice()),
    }
}

/// How SIDs stand, in their order.
pub(crate) fn standings(alloc: Global, sids: &[DescribedSid]) -> Result<Vec<Standing>, AllocError>
    ensures { IfOk result (λ standings. standings.items ≡ map standing_of sids.now) }
{
    let mut standings = Vec::new(alloc);
    for sid in sids {
        standings.push(standing_of(sid))?;
    }
    Ok(standings)
}
