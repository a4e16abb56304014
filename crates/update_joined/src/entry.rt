//! The entries of a description's tables.

use net_model::EntryId;
use srv6_rules::Family;
use v6_addr::Prefix;

/// An entry of a description, as it is compared with those of another.
#[derive(Clone, Copy)]
pub(crate) struct PlanEntry {
    /// Which it is.
    pub id: EntryId,
    /// The node of its table.
    pub node: u32,
    /// The table's number.
    pub table: u32,
    /// The family of the packets that are looked up in the table.
    pub family: Family,
    /// Its prefix.
    pub prefix: Prefix,
    /// The number of a SID's title, in its own description.
    pub title: Option<u32>,
    /// Both descriptions have it.
    pub kept: bool,
}
