//! Why an entry was not added to a table.

use std::alloc::AllocFailed;
use v6_addr::Prefix;

/// Why an entry was not added. The table is as it was.
#[derive(Clone, Copy, Debug, PartialEq, Eq)]
pub enum TableFault {
    /// The prefix is there already.
    Taken {
        /// The prefix.
        prefix: Prefix,
    },
    /// Want of memory.
    NoMemory,
}

impl<T: Drop> From<AllocFailed<T>> for TableFault {
    ghost use Rattle.std.specs.Prelude.{◌≡◌};
    ghost use Rattle.prefix_table.specs.declared.fault.TableFault.TheVariants.{NoMemory};

    ghost from_gives = { λ _ fault. fault ≡ NoMemory };

    fn from(_: AllocFailed<T>) -> TableFault {
        TableFault::NoMemory
    }
}
