//! The entries of a description with what finds those that are in conflict with one of another
//! description.

ghost use Rattle.std.specs.Prelude.{◌≡◌, IfOk};
ghost use Rattle.std.specs.List.{filter};
ghost use Rattle.update_joined.specs.PrefixKeys.{is_titled, IsKnown};

use crate::entry::PlanEntry;
use crate::prefix_index::{PrefixIndex, index_entries};
use std::alloc::{AllocError, Global};

/// Entries, those of them that have titles, and an index of their prefixes.
#[derive(Drop)]
pub(crate) struct KnownEntries {
    /// The entries.
    pub entries: Vec<PlanEntry>,
    /// Those with titles: SIDs, which are few.
    pub titled: Vec<PlanEntry>,
    /// Their prefixes.
    pub index: PrefixIndex,
}

/// Those of the entries that have titles.
#[tactic(auto, using(crate::proofs::Meant::pushed_one))]
fn titled_of(alloc: Global, entries: &[PlanEntry]) -> Result<Vec<PlanEntry>, AllocError>
    ensures { IfOk result (λ titled. titled.items ≡ filter is_titled entries.now) }
{
    let mut titled = Vec::new(alloc);
    let mut rest = entries;
    while let [e, more @ ..] = rest {
        if e.title.is_some() {
            titled.push(*e)?;
        }
        rest = more;
    }
    Ok(titled)
}

/// The entries with their titled ones and their index.
pub(crate) fn know_entries(
    alloc: Global,
    entries: Vec<PlanEntry>,
) -> Result<KnownEntries, AllocError>
    ensures same { IfOk result (λ known. known.entries.items ≡ entries.items) }
    ensures known { IfOk result IsKnown }
{
    let titled = titled_of(alloc, entries.as_slice())?;
    let index = index_entries(alloc, entries.as_slice())?;
    Ok(KnownEntries {
        entries,
        titled,
        index,
    })
}
