//! The edits of an update.

use net_model::EntryId;

/// One edit of an update's tables.
#[derive(Clone, Copy, Debug, PartialEq, Eq)]
pub enum Edit {
    /// An entry of the new description is added.
    Added {
        /// Which.
        entry: EntryId,
    },
    /// From here on packets enter by the new description.
    Switched,
    /// An entry that the new description lacks is removed.
    Removed {
        /// Which.
        entry: EntryId,
    },
    /// No edit is left.
    Finished,
}

/// The next edit is a removal, and a packet that entered before the switch is in flight.
#[derive(Clone, Copy, Debug, PartialEq, Eq)]
pub struct Busy {
    /// The least number of such a packet.
    pub packet: u32,
}
