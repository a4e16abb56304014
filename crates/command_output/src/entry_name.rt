//! The names of routes, SIDs and nodes' addresses.

use net_model::EntryId;
use std::fmt;

/// A route, a SID or a node's own address by its table and its number from 1 there; an address by
/// its node's.
#[derive(Clone, Copy, Debug, PartialEq, Eq)]
pub struct EntryName {
    /// Which it is.
    pub entry: EntryId,
}

/// The table's name, and the number.
impl fmt::Display for EntryName {
    ghost use Rattle.std.specs.Prelude.{Some};
    ghost use Rattle.command_output.specs.OutputLines.{entry_text};

    ghost output = { λ name. Some (entry_text name.entry) };

    #[tactic(auto, unfolding(crate::specs::OutputLines::entry_text))]
    fn fmt<W: fmt::Write>(&self, f: &mut fmt::Formatter<W>) -> fmt::Result {
        match self.entry {
            EntryId::Route(number) => write!(f, "route {}", u64::from(number) + 1),
            EntryId::Sid(number) => write!(f, "sid {}", u64::from(number) + 1),
            EntryId::Address(node) => write!(f, "node {}", u64::from(node) + 1),
        }
    }
}
