//! Why an edit is not done.

/// Why the next edit of an update is not done; nothing has changed.
#[derive(Clone, Copy, Debug, PartialEq, Eq)]
pub enum EditFault {
    /// It is a removal, and a packet that entered before the switch is in flight.
    Busy {
        /// The least number of such a packet.
        packet: u32,
    },
    /// Want of memory, which comes at an addition alone.
    NoMemory,
}
