//! What keeps a network from passing from one description to another.

ghost use Rattle.std.specs.Prelude.{◌≡◌};

use net_model::EntryId;
use std::alloc::AllocError;
use text_faults::TableKind;

/// Why a network cannot pass from an old description to a new one.
#[derive(Clone, Copy, Debug, PartialEq, Eq)]
pub enum PlanFault {
    /// The first item that is not equal in both.
    Differs {
        /// Its table: blocks, nodes, links or policies.
        table: TableKind,
        /// Its place in the table, counted from 1.
        item: u32,
    },
    /// Two entries that cannot both be there, since one of them is added or removed.
    Conflict {
        /// The entry of the old description, by its number there.
        before: EntryId,
        /// The entry of the new description, by its number there.
        after: EntryId,
    },
    /// The entries of both descriptions are more than a network may have.
    Limit {
        /// The table of routes or that of SIDs.
        table: TableKind,
    },
    /// Want of memory.
    NoMemory,
}

impl From<AllocError> for PlanFault {
    ghost use Rattle.update_spec.specs.declared.plan_fault.PlanFault.TheVariants.{NoMemory};

    ghost from_gives = { λ _ why. why ≡ NoMemory };

    fn from(_: AllocError) -> PlanFault {
        PlanFault::NoMemory
    }
}
